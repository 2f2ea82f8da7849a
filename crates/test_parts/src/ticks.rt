//! The clock, SysTick, the lines and scripts (ARM DDI 0403, "System timer, SysTick").

use clock::{Clock, Due, EagerSysTick, Script};
use platform::exception::MAX_INTERRUPTS;
use platform::script::{InterruptNumber, ScriptedEvent, Signal};
use std::alloc::Global;
use std::io;
use test_tables::{
    Lines, Outcome, byte_at, compared, is_first, long_at, number_at, numbers, part, rest,
    run_lines, word,
};

/// Returns the outcome of a row of a table of clocks.
pub fn outcome(alloc: Global, table: &str, row: &str) -> io::Result<Outcome> {
    match table {
        "counts" => compared(alloc, rest(row, 1), counted(alloc, row)),
        "reads" => compared(alloc, rest(row, 2), read(alloc, row)),
        "pends" => compared(alloc, rest(row, 1), pended(alloc, row)),
        "second_ticks" => compared(alloc, rest(row, 1), second_tick(alloc, row)),
        "clocks" => match scripted(alloc, row.lines().nth(1).unwrap_or(""), 1) {
            Some(clock) => run_lines(alloc, row, 2, &mut Steps { clock }),
            None => Ok(Outcome::Unreadable),
        },
        _ => Ok(Outcome::Unreadable),
    }
}

/// The tick at which a clock ends.
const LAST: u64 = 1 << 48;

/// The set of these exceptions.
fn set_of(numbers: &str) -> Option<Due> {
    let mut due = [0; 8];
    'words: for word in numbers.split_whitespace() {
        let number = byte_at(word, 0)?;
        due[(number / 32) as usize] |= 1 << (number % 32);
    }
    Some(due)
}

/// The line of this number.
fn line(word: &str) -> Option<InterruptNumber> {
    let number = byte_at(word, 0)?;
    if number < MAX_INTERRUPTS {
        Some(InterruptNumber::new(number))
    } else {
        None
    }
}

/// A signal: `nmi`, or `rise`, `fall` or `pulse`, a colon, and the line.
fn signal(word: &str) -> Option<Signal> {
    if word == "nmi" {
        return Some(Signal::Nmi);
    }
    let (name, number) = word.split_once(':')?;
    let line = line(number)?;
    match name {
        "rise" => Some(Signal::Rise(line)),
        "fall" => Some(Signal::Fall(line)),
        "pulse" => Some(Signal::Pulse(line)),
        _ => None,
    }
}

/// An event at the end of a script: its tick, a colon, and its signal.
fn add(script: &mut Vec<ScriptedEvent>, word: &str) -> Option<()> {
    let (at, what) = word.split_once(':')?;
    let event = ScriptedEvent {
        at: long_at(at, 0)?,
        what: signal(what)?,
    };
    script.push(event).ok()
}

/// The script of the events in a text after its first words.
pub fn script_of(alloc: Global, text: &str, words: usize) -> Option<Script> {
    let mut script = Vec::new(alloc);
    'words: for word in text.split_whitespace().skip(words) {
        add(&mut script, word)?;
    }
    Script::new(alloc, script.as_slice()).ok()
}

/// A clock before its first tick, with the script of the events in a text after its first words.
fn scripted(alloc: Global, text: &str, words: usize) -> Option<Clock<EagerSysTick>> {
    Some(Clock::new(script_of(alloc, text, words)?))
}

/// SYST_RVR and SYST_CSR are written, and the values are SYST_CSR and SYST_RVR.
fn write_both(clock: &mut Clock<EagerSysTick>, csr: u32, rvr: u32) {
    clock.write_rvr(rvr);
    clock.write_csr(csr);
}

/// A clock before its first tick, with SYST_CSR and SYST_RVR of these values and no event.
fn counting(alloc: Global, values: &str) -> Option<Clock<EagerSysTick>> {
    let mut clock = scripted(alloc, "", 0)?;
    let [csr, rvr] = numbers::<2>(values)?;
    write_both(&mut clock, csr, rvr);
    Some(clock)
}

/// What a tick of a clock that isn't at its end pends. None where another set was foreseen, or time isn't a tick later.
fn tick(clock: &mut Clock<EagerSysTick>) -> Option<Due> {
    let before = clock.now();
    if before < LAST {
        let foreseen = clock.peek();
        let due = clock.tick_due();
        if foreseen == due && clock.now() == before + 1 {
            return Some(due);
        }
    }
    None
}

/// Appends the exceptions of a set to an answer: as a row has them, if they are the same.
fn write_set(answer: &mut String, due: &Due, wanted: &str) -> Option<()> {
    if let Some(set) = set_of(wanted)
        && set == *due
    {
        return answer.push_str(wanted).ok();
    }
    'numbers: for number in 0..=255u8 {
        if due[(number / 32) as usize] >> (number % 32) & 1 == 1 {
            write!(answer, "{number:X} ").ok()?;
        }
    }
    Some(())
}

/// SYST_CVR after each of six ticks of a counter that begins at 0.
fn counted(alloc: Global, row: &str) -> Option<String> {
    let mut clock = counting(alloc, part(row, 0))?;
    let mut answer = String::new(alloc);
    if clock.read_cvr() != 0 {
        answer.push_str("not from 0: ").ok()?;
    }
    'ticks: for _ in 0..6 {
        tick(&mut clock)?;
        let value = clock.read_cvr();
        write!(answer, "{value:X} ").ok()?;
    }
    Some(answer)
}

/// What SYST_CSR reads after ticks, and what it reads after that.
fn read(alloc: Global, row: &str) -> Option<String> {
    let mut clock = counting(alloc, part(row, 0))?;
    'ticks: for _ in 0..byte_at(part(row, 1), 0)? {
        tick(&mut clock)?;
    }
    let (first, second) = (clock.read_csr(), clock.read_csr());
    format!(in alloc; "{first:X} {second:X}").ok()
}

/// What each of six ticks pends, by words: `F` for SysTick's exception, and `-` for nothing.
fn pended(alloc: Global, row: &str) -> Option<String> {
    let mut clock = counting(alloc, part(row, 0))?;
    let mut answer = String::new(alloc);
    'ticks: for _ in 0..6 {
        let due = tick(&mut clock)?;
        if due == [0; 8] {
            answer.push('-').ok()?;
        } else {
            write_set(&mut answer, &due, "F")?;
        }
        answer.push(' ').ok()?;
    }
    Some(answer)
}

/// A word for how a line is.
fn level(is_high: bool) -> &'static str {
    if is_high { "high" } else { "low" }
}

/// What the second tick of a script pends, and how line 0 is after it; the last number is no line.
fn second_tick(alloc: Global, row: &str) -> Option<String> {
    let mut clock = scripted(alloc, part(row, 0), 0)?;
    tick(&mut clock)?;
    let due = tick(&mut clock)?;
    let mut answer = String::new(alloc);
    write_set(&mut answer, &due, part(row, 1))?;
    let level = if clock.high(255) {
        "255 is high"
    } else {
        level(clock.high(0))
    };
    write!(answer, " | {level}").ok()?;
    Some(answer)
}

/// A clock that goes on line by line.
#[derive(Drop)]
struct Steps {
    clock: Clock<EagerSysTick>,
}

impl Steps {
    /// SYST_CVR after a tick, and what it pends.
    fn tick(&mut self, alloc: Global, wanted: &str) -> Option<String> {
        let due = tick(&mut self.clock)?;
        let value = self.clock.read_cvr();
        let mut answer = format!(in alloc; "{value:X} | ").ok()?;
        write_set(&mut answer, &due, wanted)?;
        Some(answer)
    }
}

impl Lines for Steps {
    fn answer(&mut self, alloc: Global, line: &str) -> Option<String> {
        let asked = part(line, 0);
        let value = match word(asked, 0) {
            "tick" => return self.tick(alloc, part(line, 2)),
            "line" => {
                let level = level(self.clock.high(byte_at(asked, 1)?));
                return level.to_string(alloc).ok();
            }
            "csr" => self.clock.read_csr(),
            "rvr" => self.clock.read_rvr(),
            "cvr" => self.clock.read_cvr(),
            "write" => {
                write_both(&mut self.clock, number_at(asked, 1)?, number_at(asked, 2)?);
                return Some(String::new(alloc));
            }
            "reload" => {
                self.clock.write_rvr(number_at(asked, 1)?);
                return Some(String::new(alloc));
            }
            "clear" => {
                self.clock.write_cvr();
                return Some(String::new(alloc));
            }
            _ => return None,
        };
        format!(in alloc; "{value:X}").ok()
    }
}
