//! The commands of a session, and how a line is read.

ghost use Rattle.std.specs.Prelude.{◌≡◌, option_map};
ghost use Rattle.debugger_commands.specs.Commands.{alone, change_of, changing, command_in, command_of, part_of};
ghost use Rattle.debugger_commands.specs.Commands.{quits, read_break, read_explain, read_memory, read_run, read_task};
ghost use Rattle.debugger_commands.specs.Commands.{read_script, read_stop, read_trace, read_watch, steps_of};
ghost use Rattle.debugger_commands.specs.Commands.{task_steps_of, watch_on};
ghost use Rattle.debugger_commands.specs.TwoWords.{seen_two, seen_three};

use crate::changes::{Change, read_change};
use crate::choices::{
    condition_of, is_same, kind_of, privilege_of, selection_of, switch_of, watched_of,
};
use crate::conditions::{Condition, LineSelection};
use crate::numbers::{number, number_within};
use crate::watchpoints::Watchpoint;
use crate::words::{
    ThreeWords, TwoWords, first_word, more_words, one_word, three_words, two_words,
};
use platform::access::Kind;

/// The most steps of one command.
const MAX_STEPS: u32 = 1_000_000;

/// The command of a line.
#[derive(Clone, Copy)]
pub enum Command {
    /// Make at most this many steps: `run n`, and `step` for one.
    Run(u32),
    /// Make at most this many steps of a task: `task n`.
    Task(u32),
    /// Set a breakpoint at an address: `break a`.
    Break(u32),
    /// Show a part of the machine, and change nothing.
    Show(Part),
    /// End the session: `quit`.
    Quit,
    /// Choose which lines the steps have: `trace w`.
    Trace(LineSelection),
    /// Set a watchpoint: `watch r|w|a a n`.
    Watch(Watchpoint),
    /// Set whether a run ends at something: `stop c on|off`.
    Stop(Condition, bool),
    /// Forget what ends a run: `clear`.
    Clear,
    /// End each answer from now on with the line of where the machine is: `script 1`.
    Script,
    /// Change the machine's state, or save it.
    Change(Change),
}

/// What a command shows of the machine.
#[derive(Clone, Copy)]
pub enum Part {
    /// The core registers: `regs`.
    Regs,
    /// Bytes of memory: `mem a n` as the address and `n - 1`.
    Memory(u32, u8),
    /// The regions of the MPU: `regions`.
    Regions,
    /// The rule that would decide an access: `explain a p|u r|w|x`.
    Explain(u32, bool, Kind),
    /// The state as lines: `state`.
    State,
    /// The kind of the next step: `next`.
    Next,
    /// No part, but a line for each command: `help`.
    Help,
}

/// Why a line is no command.
#[derive(Clone, Copy)]
pub enum LineError {
    /// There is no such command, the number of words is wrong, or the line is too long.
    Command,
    /// A word isn't a number or a letter that is allowed there.
    Word,
}

/// Returns the command of a line, which is None where it's too long, in a session with `slots` slots.
#[tactic(auto, unfolding(crate::specs::Commands::command_in))]
pub fn read_line(slots: u8, line: Option<&[u8]>) -> Result<Command, LineError>
    ensures { result ≡ command_in slots (option_map (λ l. l.now) line.entry) }
{
    let Some(line) = line else {
        return Err(LineError::Command);
    };
    read_command(slots, first_word(line), more_words(line))
}

/// Returns the command of a line by its first word, with the words after it.
#[tactic(auto, unfolding(crate::specs::Commands::command_of))]
fn read_command(slots: u8, word: &[u8], more: Option<&[u8]>) -> Result<Command, LineError>
    ensures { result ≡ command_of slots word.now (option_map (λ m. m.now) more.entry) }
{
    if is_same(word, b"step") {
        alone(Command::Run(1), more)
    } else if is_same(word, b"run") {
        read_run(one_word(more))
    } else if is_same(word, b"task") {
        read_task(one_word(more))
    } else if is_same(word, b"break") {
        read_break(one_word(more))
    } else if is_same(word, b"watch") {
        read_watch(three_words(more))
    } else if is_same(word, b"stop") {
        read_stop(two_words(more))
    } else if is_same(word, b"clear") {
        alone(Command::Clear, more)
    } else if is_same(word, b"trace") {
        read_trace(one_word(more))
    } else if is_same(word, b"regs") {
        alone(Command::Show(Part::Regs), more)
    } else if is_same(word, b"mem") {
        read_memory(two_words(more))
    } else if is_same(word, b"regions") {
        alone(Command::Show(Part::Regions), more)
    } else if is_same(word, b"explain") {
        read_explain(three_words(more))
    } else if is_same(word, b"state") {
        alone(Command::Show(Part::State), more)
    } else if is_same(word, b"next") {
        alone(Command::Show(Part::Next), more)
    } else if is_same(word, b"script") {
        read_script(one_word(more))
    } else if is_same(word, b"help") {
        alone(Command::Show(Part::Help), more)
    } else if is_same(word, b"quit") {
        alone(Command::Quit, more)
    } else {
        changing(read_change(slots, word, more))
    }
}

/// Returns the command of a change.
fn changing(read: Result<Change, LineError>) -> Result<Command, LineError>
    ensures { result ≡ changing read }
{
    match read {
        Ok(what) => Ok(Command::Change(what)),
        Err(error) => Err(error),
    }
}

/// Returns a command that takes no word.
fn alone(command: Command, more: Option<&[u8]>) -> Result<Command, LineError>
    ensures { result ≡ alone command (option_map (λ m. m.now) more.entry) }
{
    match more {
        None => Ok(command),
        Some(_) => Err(LineError::Command),
    }
}

/// Reads the word after `run`.
fn read_run(word: Option<&[u8]>) -> Result<Command, LineError>
    ensures { result ≡ read_run (option_map (λ w. w.now) word.entry) }
{
    let Some(word) = word else {
        return Err(LineError::Command);
    };
    match number_within(1, MAX_STEPS, word) {
        Some(steps) => Ok(Command::Run(steps)),
        None => Err(LineError::Word),
    }
}

/// Reads the word after `task`.
fn read_task(word: Option<&[u8]>) -> Result<Command, LineError>
    ensures { result ≡ read_task (option_map (λ w. w.now) word.entry) }
{
    let Some(word) = word else {
        return Err(LineError::Command);
    };
    match number_within(1, MAX_STEPS, word) {
        Some(steps) => Ok(Command::Task(steps)),
        None => Err(LineError::Word),
    }
}

/// Reads the word after `break`.
fn read_break(word: Option<&[u8]>) -> Result<Command, LineError>
    ensures { result ≡ read_break (option_map (λ w. w.now) word.entry) }
{
    let Some(word) = word else {
        return Err(LineError::Command);
    };
    match number(word) {
        Some(address) => Ok(Command::Break(address)),
        None => Err(LineError::Word),
    }
}

/// Reads the words after `mem`.
fn read_memory(words: Option<TwoWords<'_>>) -> Result<Command, LineError>
    ensures { result ≡ read_memory (option_map seen_two words.entry) }
{
    let Some(words) = words else {
        return Err(LineError::Command);
    };
    match (number(words.first), number_within(1, 256, words.second)) {
        (Some(address), Some(count)) => {
            Ok(Command::Show(Part::Memory(address, (count - 1) as u8)))
        }
        _ => Err(LineError::Word),
    }
}

/// Reads the words after `explain`.
fn read_explain(words: Option<ThreeWords<'_>>) -> Result<Command, LineError>
    ensures { result ≡ read_explain (option_map seen_three words.entry) }
{
    let Some(words) = words else {
        return Err(LineError::Command);
    };
    let address = number(words.first);
    let privileged = privilege_of(words.others.first);
    let kind = kind_of(words.others.second);
    match (address, privileged, kind) {
        (Some(address), Some(privileged), Some(kind)) => {
            Ok(Command::Show(Part::Explain(address, privileged, kind)))
        }
        _ => Err(LineError::Word),
    }
}

/// Reads the word after `trace`.
fn read_trace(word: Option<&[u8]>) -> Result<Command, LineError>
    ensures { result ≡ read_trace (option_map (λ w. w.now) word.entry) }
{
    let Some(word) = word else {
        return Err(LineError::Command);
    };
    match selection_of(word) {
        Some(selection) => Ok(Command::Trace(selection)),
        None => Err(LineError::Word),
    }
}

/// Reads the words after `watch`.
fn read_watch(words: Option<ThreeWords<'_>>) -> Result<Command, LineError>
    ensures { result ≡ read_watch (option_map seen_three words.entry) }
{
    let Some(words) = words else {
        return Err(LineError::Command);
    };
    let watched = watched_of(words.first);
    let address = number(words.others.first);
    let size = number_within(1, u32::MAX, words.others.second);
    match (watched, address, size) {
        (Some(watched), Some(address), Some(size)) => watch_on(watched, address, size),
        _ => Err(LineError::Word),
    }
}

/// Returns the command of a watchpoint, whose bytes have to lie below 2^32.
fn watch_on(watched: (bool, bool), address: u32, size: u32) -> Result<Command, LineError>
    ensures { result ≡ watch_on watched address size }
{
    if u64::from(address) + u64::from(size) <= 0x1_0000_0000 {
        Ok(Command::Watch(Watchpoint {
            reads: watched.0,
            writes: watched.1,
            address,
            size,
        }))
    } else {
        Err(LineError::Word)
    }
}

/// Reads the words after `stop`.
fn read_stop(words: Option<TwoWords<'_>>) -> Result<Command, LineError>
    ensures { result ≡ read_stop (option_map seen_two words.entry) }
{
    let Some(words) = words else {
        return Err(LineError::Command);
    };
    match (condition_of(words.first), switch_of(words.second)) {
        (Some(what), Some(on)) => Ok(Command::Stop(what, on)),
        _ => Err(LineError::Word),
    }
}

/// Reads the word after `script`.
fn read_script(word: Option<&[u8]>) -> Result<Command, LineError>
    ensures { result ≡ read_script (option_map (λ w. w.now) word.entry) }
{
    let Some(word) = word else {
        return Err(LineError::Command);
    };
    match number_within(1, 1, word) {
        Some(_) => Ok(Command::Script),
        None => Err(LineError::Word),
    }
}

/// Returns how many steps a run makes at most, where the command is `run` or `step`.
pub fn steps_of(asked: Result<Command, LineError>) -> Option<u32>
    ensures { result ≡ steps_of asked }
{
    match asked {
        Ok(Command::Run(steps)) => Some(steps),
        _ => None,
    }
}

/// Returns how many steps of a task are made at most, where the command is `task`.
pub fn task_steps_of(asked: Result<Command, LineError>) -> Option<u32>
    ensures { result ≡ task_steps_of asked }
{
    match asked {
        Ok(Command::Task(steps)) => Some(steps),
        _ => None,
    }
}

/// Returns the part of the machine that a command shows, where it shows one.
pub fn part_of(asked: Result<Command, LineError>) -> Option<Part>
    ensures { result ≡ part_of asked }
{
    match asked {
        Ok(Command::Show(part)) => Some(part),
        _ => None,
    }
}

/// Returns what a command changes, where it changes the machine's state or saves it.
pub fn change_of(asked: Result<Command, LineError>) -> Option<Change>
    ensures { result ≡ change_of asked }
{
    match asked {
        Ok(Command::Change(what)) => Some(what),
        _ => None,
    }
}

/// Returns whether a line ends the session.
pub fn quits(asked: Result<Command, LineError>) -> bool
    ensures { result ≡ quits asked }
{
    matches!(asked, Ok(Command::Quit))
}
