//! The commands of `monitor`.

ghost use Rattle.std.specs.Prelude.{◌≡◌, bytes_eq};
ghost use Rattle.gdb_packets.specs.Numbers.{parted};
ghost use Rattle.gdb_texts.specs.Monitor.{budget_after, budget_in, budget_of, first_word, is_own, is_shared};
ghost use Rattle.gdb_texts.specs.Monitor.{monitor_of, others, own, placed, shared, shown, space};

use debugger_commands::{
    Change, Command, Condition, LineError, LineSelection, Part, number, read_line,
};
use gdb_packets::parted;
use platform::access::Kind;
use reference::place::Place;

/// A command of `monitor`.
#[derive(Clone, Copy)]
pub enum Monitor {
    /// A line for each command: `help`.
    Help,
    /// The rule that would decide an access: `explain a p|u r|w|x`, the address, whether for privileged code, the kind.
    Explain(u32, bool, Kind),
    /// The regions of the MPU: `regions`.
    Regions,
    /// The state as lines: `state`.
    State,
    /// The kind of the next step: `next`.
    Next,
    /// The ticks to which the session can go back: `history`.
    History,
    /// Choose which lines the steps have: `trace w`. `trace on` is `all`, `trace off` is `console`.
    Trace(LineSelection),
    /// Set whether lines tell why a run ended: `lines on|off`.
    Lines(bool),
    /// Set whether a run ends at something: `stop c on|off`.
    Stop(Condition, bool),
    /// Set whether a step goes over handlers and other tasks: `step into|over`.
    Step(bool),
    /// Set how many steps a run makes at most, 0 for no limit: `budget n`.
    Budget(u32),
    /// Put a value into a register or a word: `place reg|special n v`, `place word a v`. None stands for a register
    /// whose number is 256 or more, which no machine has.
    Place(Option<Place>),
    /// Begin again: `restart`.
    Restart,
    /// The last refusal: `why`.
    Why,
}

/// Returns whether two texts are equal.
fn is_same(text: &[u8], other: &[u8]) -> bool
    ensures { result ≡ bytes_eq text.now other.now }
{
    text == other
}

/// Returns the first word of a text.
fn first_word(text: &[u8]) -> &[u8]
    ensures { result.now ≡ first_word text.now }
{
    match parted(b' ', text) {
        None => text,
        Some(parts) => parts.front,
    }
}

/// Returns whether a word is the first of a command that a debug session has too.
fn is_shared(word: &[u8]) -> bool
    ensures { result ≡ is_shared word.now }
{
    is_same(word, b"help")
        || (is_same(word, b"explain")
            || (is_same(word, b"regions")
                || (is_same(word, b"state")
                    || (is_same(word, b"next")
                        || (is_same(word, b"trace")
                            || (is_same(word, b"stop") || is_same(word, b"place")))))))
}

/// Returns whether a word is the first of a command that a debug session hasn't.
fn is_own(word: &[u8]) -> bool
    ensures { result ≡ is_own word.now }
{
    is_same(word, b"history")
        || (is_same(word, b"lines")
            || (is_same(word, b"step")
                || (is_same(word, b"budget")
                    || (is_same(word, b"restart") || is_same(word, b"why")))))
}

/// Returns the command that shows a part of the machine.
fn shown(part: Part) -> Result<Monitor, LineError>
    ensures { result ≡ shown part }
{
    match part {
        Part::Regions => Ok(Monitor::Regions),
        Part::Explain(address, privileged, kind) => Ok(Monitor::Explain(address, privileged, kind)),
        Part::State => Ok(Monitor::State),
        Part::Next => Ok(Monitor::Next),
        Part::Help => Ok(Monitor::Help),
        Part::Regs | Part::Memory(_, _) => Err(LineError::Word),
    }
}

/// Returns the command that places a value.
fn placed(change: Change) -> Result<Monitor, LineError>
    ensures { result ≡ placed change }
{
    match change {
        Change::Place(place) => Ok(Monitor::Place(place)),
        Change::Signal(_, _) | Change::Nmi | Change::Save(_) | Change::Back(_) => Err(
            LineError::Word,
        ),
    }
}

/// Returns the command of a line of a debug session.
fn shared(line: Result<Command, LineError>) -> Result<Monitor, LineError>
    ensures { result ≡ shared line }
{
    match line {
        Ok(Command::Show(part)) => shown(part),
        Ok(Command::Trace(selection)) => Ok(Monitor::Trace(selection)),
        Ok(Command::Stop(what, on)) => Ok(Monitor::Stop(what, on)),
        Ok(Command::Change(change)) => placed(change),
        Ok(
            Command::Run(_)
            | Command::Task(_)
            | Command::Break(_)
            | Command::Quit
            | Command::Watch(_)
            | Command::Clear
            | Command::Script,
        )
        | Err(_) => Err(LineError::Word),
    }
}

/// Returns the command of a budget.
fn budget_of(steps: Option<u32>) -> Option<Monitor>
    ensures { result ≡ budget_of steps }
{
    match steps {
        Some(steps) => Some(Monitor::Budget(steps)),
        None => None,
    }
}

/// Reads `budget` with its number.
fn read_budget(text: &[u8]) -> Option<Monitor>
    ensures { result ≡ budget_in (parted space text.now) }
{
    let parts = parted(b' ', text)?;
    if is_same(parts.front, b"budget") {
        budget_of(number(parts.rest))
    } else {
        None
    }
}

/// Reads a command that a debug session hasn't, and `trace on` and `trace off`.
#[tactic(auto, unfolding(crate::specs::Monitor::own))]
fn read_own(text: &[u8]) -> Option<Monitor>
    ensures { result ≡ own text.now }
{
    if is_same(text, b"history") {
        Some(Monitor::History)
    } else if is_same(text, b"lines on") {
        Some(Monitor::Lines(true))
    } else if is_same(text, b"lines off") {
        Some(Monitor::Lines(false))
    } else if is_same(text, b"step into") {
        Some(Monitor::Step(false))
    } else if is_same(text, b"step over") {
        Some(Monitor::Step(true))
    } else if is_same(text, b"trace on") {
        Some(Monitor::Trace(LineSelection::All))
    } else if is_same(text, b"trace off") {
        Some(Monitor::Trace(LineSelection::Console))
    } else if is_same(text, b"restart") {
        Some(Monitor::Restart)
    } else if is_same(text, b"why") {
        Some(Monitor::Why)
    } else {
        read_budget(text)
    }
}

/// Reads another command by its first word.
#[tactic(auto, unfolding(crate::specs::Monitor::others))]
fn read_others(word: &[u8], text: &[u8]) -> Result<Monitor, LineError>
    ensures { result ≡ others word.now text.now }
{
    if is_shared(word) {
        shared(read_line(0, Some(text)))
    } else if is_own(word) {
        Err(LineError::Word)
    } else {
        Err(LineError::Command)
    }
}

/// Returns the command of a text. The error is `Command` for a first word that isn't known, and `Word` for other words
/// after it.
pub fn read_monitor(text: &[u8]) -> Result<Monitor, LineError>
    ensures { result ≡ monitor_of text.now }
{
    match read_own(text) {
        Some(monitor) => Ok(monitor),
        None => read_others(first_word(text), text),
    }
}
