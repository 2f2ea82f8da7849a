//! The words of the rows of surveys: events as lines of the trace have them, and what the core runs.

use instruction_set::size::Size;
use mpu::MpuRegs;
use platform::access::{Access, Cause, DecidedAccess, Kind, Rule};
use platform::event::{EventKind, RecordedFault};
use survey::{StepStart, Survey, Touch};
use test_tables::{meaning, number_at, word};

const KINDS: [(&str, Kind); 7] = [
    ("F", Kind::Fetch),
    ("L", Kind::Load),
    ("S", Kind::Store),
    ("K", Kind::Push),
    ("U", Kind::Pop),
    ("V", Kind::Vector),
    ("P", Kind::Probe),
];

const SIZES: [(&str, Size); 3] = [("1", Size::Byte), ("2", Size::Halfword), ("4", Size::Word)];

const PRIVILEGES: [(&str, bool); 2] = [("p", true), ("u", false)];

const OUTCOMES: [(&str, Option<Cause>); 3] = [
    ("ok", None),
    ("mpu", Some(Cause::Mpu)),
    ("bus", Some(Cause::Bus)),
];

const RULES: [(&str, Rule); 9] = [
    ("xn", Rule::ExecuteNever),
    ("vec", Rule::VectorRead),
    ("ppb", Rule::PrivatePeripheralBus),
    ("off", Rule::MpuOff),
    ("neg", Rule::NegativePriority),
    ("bg", Rule::Background),
    ("none", Rule::NoRegion),
    ("r0", Rule::Region(0)),
    ("r9", Rule::Region(9)),
];

const TOUCHES: [(&str, Touch); 4] = [
    ("read", Touch::Read),
    ("written", Touch::Written),
    ("executed", Touch::Executed),
    ("refused", Touch::Refused),
];

/// A kind of access, by its letter.
pub fn kind(word: &str) -> Option<Kind> {
    meaning(&KINDS, word)
}

/// Whether code is privileged.
pub fn privileged(word: &str) -> Option<bool> {
    meaning(&PRIVILEGES, word)
}

/// What became of an access.
pub fn outcome(word: &str) -> Option<Option<Cause>> {
    meaning(&OUTCOMES, word)
}

/// What decided an access.
pub fn rule(word: &str) -> Option<Rule> {
    meaning(&RULES, word)
}

/// What was done to memory.
pub fn touch(word: &str) -> Option<Touch> {
    meaning(&TOUCHES, word)
}

/// An access, as in a line of the trace: kind, address, size, privilege, outcome, rule.
fn access(text: &str) -> Option<DecidedAccess> {
    Some(DecidedAccess {
        access: Access {
            address: number_at(text, 1)?,
            kind: kind(word(text, 0))?,
            size: meaning(&SIZES, word(text, 2))?,
            privileged: privileged(word(text, 3))?,
        },
        rule: rule(word(text, 5))?,
        refused: outcome(word(text, 4))?,
    })
}

/// An event, as in a line of the trace without its tick: an access, a console byte, or a fault.
fn event(text: &str) -> Option<EventKind> {
    match word(text, 0) {
        "O" => Some(EventKind::ConsoleByte(0)),
        "!" => Some(EventKind::FaultRecorded(RecordedFault {
            exception: 4,
            cfsr: number_at(text, 2)?,
            hfsr: number_at(text, 3)?,
        })),
        _ => Some(EventKind::Accessed(access(text)?)),
    }
}

/// The moment of a step: `u` or `p` for code in Thread mode, `s` for a core that is asleep, or `h` for a handler.
pub fn start(mode: char, exception: u16, pc: u32) -> StepStart {
    StepStart {
        pc,
        exception: if mode == 'h' { exception } else { 0 },
        privileged: mode != 'u',
        asleep: mode == 's',
        mpu: MpuRegs::new(8),
    }
}

/// Counts a step that begins at a moment, of events between commas.
pub fn take_step(survey: &mut Survey, start: &StepStart, events: &str) -> Option<()> {
    survey.begin_step(start);
    'events: for text in events.split(',') {
        if !text.trim().is_empty() {
            let what = event(text.trim())?;
            survey.take(start, 1, &what);
        }
    }
    survey.end_step();
    Some(())
}
