//! The actions of `vCont`.

ghost use Rattle.std.specs.Prelude.{◌≡◌, None, bytes_eq};
ghost use Rattle.gdb_texts.specs.Actions.{action_for, action_of, actions_of, alone, is_ours, is_small, or_next};
ghost use Rattle.gdb_texts.specs.Actions.{range_of, read_verb, verb_of, with_signal};

use gdb_packets::{number, parted, two_numbers};

/// How the machine goes on.
#[derive(Clone, Copy)]
pub enum Resume {
    /// `c`: until something stops it.
    Continue,
    /// `s`: by one instruction.
    Step,
    /// `r`: by instructions, as long as the PC is from the first address to the one before the second.
    Range(u32, u32),
}

/// What one action asks for.
#[derive(Clone, Copy)]
pub enum Action {
    /// It hasn't the form of an action.
    Malformed,
    /// It is for another thread.
    Other,
    /// It is for the one thread.
    Ours(Resume),
}

/// Returns whether two texts are equal.
fn is_same(text: &[u8], other: &[u8]) -> bool
    ensures { result ≡ bytes_eq text.now other.now }
{
    text == other
}

/// Returns what an action that is its letter alone does.
fn alone(resume: Resume, rest: &[u8]) -> Option<Resume>
    ensures { result ≡ alone resume rest.now }
{
    match rest {
        [] => Some(resume),
        _ => None,
    }
}

/// Returns what an action with a signal does, which is ignored.
fn with_signal(resume: Resume, signal: Option<u32>) -> Option<Resume>
    ensures { result ≡ with_signal resume signal }
{
    match signal {
        Some(_) => Some(resume),
        None => None,
    }
}

/// Returns what `r` with two addresses does.
fn range_of(range: Option<(u32, u32)>) -> Option<Resume>
    ensures { result ≡ range_of range }
{
    match range {
        Some((first, end)) => Some(Resume::Range(first, end)),
        None => None,
    }
}

/// Returns what a letter does with what follows it.
fn verb_of(letter: u8, rest: &[u8]) -> Option<Resume>
    ensures { result ≡ verb_of letter rest.now }
{
    match letter {
        b'c' => alone(Resume::Continue, rest),
        b's' => alone(Resume::Step, rest),
        b'C' => with_signal(Resume::Continue, number(rest)),
        b'S' => with_signal(Resume::Step, number(rest)),
        b'r' => range_of(two_numbers(rest)),
        _ => None,
    }
}

/// Returns what an action without its thread does.
fn read_verb(text: &[u8]) -> Option<Resume>
    ensures { result ≡ read_verb text.now }
{
    match text {
        [] => None,
        [letter, rest @ ..] => verb_of(*letter, rest),
    }
}

/// Returns whether the number of a thread is that of the one thread, or of any.
fn is_small(thread: Option<u32>) -> Option<bool>
    ensures { result ≡ is_small thread }
{
    match thread {
        Some(thread) => Some(thread < 2),
        None => None,
    }
}

/// Returns whether a thread is thread 1, any thread (0) or all threads (-1).
fn is_ours(text: &[u8]) -> Option<bool>
    ensures { result ≡ is_ours text.now }
{
    if is_same(text, b"-1") {
        Some(true)
    } else {
        is_small(number(text))
    }
}

/// Returns the action of its two parts.
fn action_for(verb: Option<Resume>, ours: Option<bool>) -> Action
    ensures { result ≡ action_for verb ours }
{
    match (verb, ours) {
        (Some(resume), Some(true)) => Action::Ours(resume),
        (Some(_), Some(false)) => Action::Other,
        _ => Action::Malformed,
    }
}

/// Reads one action.
fn read_action(text: &[u8]) -> Action
    ensures { result ≡ action_of text.now }
{
    match parted(b':', text) {
        None => action_for(read_verb(text), Some(true)),
        Some(parts) => action_for(read_verb(parts.front), is_ours(parts.rest)),
    }
}

/// Returns what the last action asks for.
fn last_action(action: Action) -> Option<Resume>
    ensures { result ≡ or_next action None }
{
    match action {
        Action::Ours(resume) => Some(resume),
        Action::Malformed | Action::Other => None,
    }
}

/// Returns how the machine goes on by the actions after `vCont;`: by the first whose thread is the one thread, any or
/// all, where it and all before it have the form of an action.
#[tactic(auto)]
pub fn read_actions(tail: &[u8]) -> Option<Resume>
    ensures { result ≡ actions_of tail.now }
{
    let mut start = 0;
    'bytes: for (index, byte) in tail.iter().enumerate() {
        if *byte == b';' {
            match read_action(&tail[start..index]) {
                Action::Malformed => return None,
                Action::Ours(resume) => return Some(resume),
                Action::Other => start = index + 1,
            }
        }
    }
    last_action(read_action(&tail[start..]))
}
