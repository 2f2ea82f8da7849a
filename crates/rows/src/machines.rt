//! Runs of a machine of the small board, which follows the lines of a row in their order: first a `Slow` one, and then
//! a `Fast` one.

use super::boards::{event, place, place_vectors, scripted};
use super::seen;
use super::streams::{Output, run, run_task};
use super::words::{push_line, split_line};
use instruction_set::unpredictable::UnpredictableCase;
use machine::{
    Decider, Exceptions, Fast, KeptCode, Machine, PlaceError, Slow, Stop, SysTickState, TaskEnd,
    TraceSelection,
};
use platform::stop::Unsupported;
use std::alloc::Global;
use test_tables::{Outcome, byte_at, first_difference_of_bytes, number_at, numbers, word};

/// The most steps up to the end of a fault's handler.
const HANDLER_STEPS: u32 = 20;

/// Runs both machines of a row.
pub fn check(alloc: Global, row: &str) -> Option<Outcome> {
    let slow: Slow = scripted(alloc, row)?;
    let fast: Fast = scripted(alloc, row)?;
    both(alloc, goes(alloc, row, slow)?, goes(alloc, row, fast)?)
}

/// Returns the outcome of a row on a `Slow` machine and on a `Fast` one, with the name of the machine that differs.
pub fn both(alloc: Global, slow: Outcome, fast: Outcome) -> Option<Outcome> {
    match slow {
        Outcome::Holds => on("Fast", alloc, fast),
        Outcome::Differs { .. } | Outcome::Unreadable => on("Slow", alloc, slow),
    }
}

/// Returns an outcome with the name of the machine that differs.
fn on(machine: &str, alloc: Global, outcome: Outcome) -> Option<Outcome> {
    match outcome {
        Outcome::Differs { wanted, came } => Some(Outcome::Differs {
            wanted,
            came: format!(in alloc; "{came} ({machine})").ok()?,
        }),
        Outcome::Holds => Some(Outcome::Holds),
        Outcome::Unreadable => Some(Outcome::Unreadable),
    }
}

/// Returns how a machine goes as a row says.
fn goes<D: Decider, C: KeptCode, L: Exceptions, U: SysTickState>(
    alloc: Global,
    row: &str,
    machine: Machine<D, C, L, U>,
) -> Option<Outcome> {
    let mut run = Run::new(alloc, machine);
    let mut is_checked = false;
    'lines: for line in row.lines().skip(1) {
        let name = word(line, 0);
        is_checked |= matches!(name, "trace" | "after" | "refused" | "task" | "finds");
        let Some(outcome) = run.follow(line) else {
            return Outcome::unreadable(alloc, line).ok();
        };
        if !outcome.holds() {
            return Some(outcome);
        }
    }
    if !is_checked {
        return None;
    }
    run.wrote()
}

/// A run as far as its lines were followed.
#[derive(Drop)]
pub struct Run<D: Decider, C: KeptCode, L: Exceptions, U: SysTickState> {
    alloc: Global,
    pub machine: Machine<D, C, L, U>,
    /// What its steps wrote.
    pub out: Output,
    /// What they are to write.
    pub wanted: String,
}

impl<D: Decider, C: KeptCode, L: Exceptions, U: SysTickState> Run<D, C, L, U> {
    /// A run of a machine that made no step yet.
    pub fn new(alloc: Global, machine: Machine<D, C, L, U>) -> Self {
        Run {
            alloc,
            machine,
            out: Output::whole(alloc),
            wanted: String::new(alloc),
        }
    }

    /// Compares what the steps wrote with what they are to write.
    pub fn wrote(&self) -> Option<Outcome> {
        first_difference_of_bytes(self.alloc, self.wanted.as_bytes(), self.out.text.as_slice()).ok()
    }

    /// Follows a line of a row.
    pub fn follow(&mut self, line: &str) -> Option<Outcome> {
        let (name, rest) = split_line(line);
        match name {
            "task" => self.task(line),
            "refused" => self.refuses(line),
            "finds" => self.finds(line),
            "after" => seen::compare(self.alloc, &self.machine, rest),
            _ => {
                self.order(name, line)?;
                Some(Outcome::Holds)
            }
        }
    }

    /// Follows a line that says what the machine has, what is done, or what is written.
    fn order(&mut self, name: &str, line: &str) -> Option<()> {
        let (_, rest) = split_line(line);
        let is_read = match name {
            "trace" => push_line(&mut self.wanted, rest).is_some(),
            "steps" => self.steps(rest)?,
            "event" => event(line).is_some(),
            "board" => byte_at(line, 1).is_some() && byte_at(line, 2).is_some(),
            "device" => rest.starts_with('{'),
            "second" => rest == "ram",
            "vectors" => place_vectors(&mut self.machine, number_at(line, 1)?).is_ok(),
            _ => self.machine.place(place(line)?).is_ok(),
        };
        if is_read { Some(()) } else { None }
    }

    /// Makes steps, by their number and the events that are written, and returns whether they were made.
    fn steps(&mut self, steps: &str) -> Option<bool> {
        let selection = selection(word(steps, 1))?;
        let steps = number_at(steps, 0)?;
        Some(run(&mut self.machine, selection, steps, &mut self.out).is_ok())
    }

    /// Runs a task, and compares how that ended with the third word of a line.
    fn task(&mut self, line: &str) -> Option<Outcome> {
        let steps = number_at(line, 1)?;
        let end = end_of(run_task(&mut self.machine, steps, &mut self.out).ok()?);
        if end == word(line, 2) {
            return Some(Outcome::Holds);
        }
        let came = format!(in self.alloc; "task {steps:X} {end}").ok()?;
        Outcome::differs(self.alloc, line, came.as_str()).ok()
    }

    /// Compares the refusal of a place with the second word of a line.
    fn refuses(&mut self, line: &str) -> Option<Outcome> {
        let (_, refused) = split_line(line);
        let (why, place_of) = split_line(refused);
        let came = match self.machine.place(place(place_of)?) {
            Ok(()) => "taken",
            Err(error) => name_of(error),
        };
        if came == why {
            return Some(Outcome::Holds);
        }
        let came = format!(in self.alloc; "refused {came} {place_of}").ok()?;
        Outcome::differs(self.alloc, line, came.as_str()).ok()
    }

    /// Runs to BKPT 0 in a fault's handler, which has loaded CFSR, HFSR, MMFAR and BFAR into R1 to R4, and compares the
    /// exception and these with the numbers of a line.
    fn finds(&mut self, line: &str) -> Option<Outcome> {
        let wanted = numbers::<5>(split_line(line).1)?;
        let mut out = Output::whole(self.alloc);
        let all = TraceSelection::All;
        let stop = run(&mut self.machine, all, HANDLER_STEPS, &mut out).ok()?;
        if !matches!(stop, Stop::Breakpoint(0)) {
            return Outcome::differs(self.alloc, line, "no breakpoint 0").ok();
        }
        let values = self.machine.regs();
        let [_, cfsr, hfsr, mmfar, bfar, ..] = values.general;
        let exception = values.xpsr % 512;
        if wanted == [exception, cfsr, hfsr, mmfar, bfar] {
            return Some(Outcome::Holds);
        }
        let came = format!(in self.alloc;
            "finds {exception:X} {cfsr:08X} {hfsr:08X} {mmfar:08X} {bfar:08X}"
        ).ok()?;
        Outcome::differs(self.alloc, line, came.as_str()).ok()
    }
}

/// Returns which events the word after a number of steps selects: all where there is none.
fn selection(word: &str) -> Option<TraceSelection> {
    match word {
        "" | "all" => Some(TraceSelection::All),
        "refused" => Some(TraceSelection::Refused),
        "faults" => Some(TraceSelection::Faults),
        "exceptions" => Some(TraceSelection::Exceptions),
        "console" => Some(TraceSelection::Console),
        "none" => Some(TraceSelection::Nothing),
        _ => None,
    }
}

/// Returns the word for the end of a run of a task.
fn end_of(end: TaskEnd) -> &'static str {
    match end {
        TaskEnd::Done => "done",
        TaskEnd::Other => "other",
        TaskEnd::NotTask => "not",
        TaskEnd::Stopped(_) => "stopped",
    }
}

/// Returns the name of a refusal, where it is one of these.
fn name_of(error: PlaceError) -> &'static str {
    match error {
        PlaceError::NotAligned => "not-aligned",
        PlaceError::NoSuchPlace => "no-such-place",
        PlaceError::Stopped => "stopped",
        PlaceError::Refused(Stop::OutOfProfile(Unsupported::SleepOnExit)) => "sleeponexit",
        PlaceError::Refused(Stop::Unpredictable(UnpredictableCase::MpuControl)) => "mpu-control",
        PlaceError::Refused(Stop::Unpredictable(UnpredictableCase::MpuRegion)) => "mpu-region",
        PlaceError::Refused(_) => "another",
    }
}
