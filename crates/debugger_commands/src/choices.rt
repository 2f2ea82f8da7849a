//! The words of a line that choose one of a few things.

ghost use Rattle.std.specs.Prelude.{◌≡◌, bytes_eq};
ghost use Rattle.debugger_commands.specs.Commands.{condition_of, kind_of, privilege_of, selection_of, switch_of};
ghost use Rattle.debugger_commands.specs.Commands.{watched_of};

use crate::conditions::{Condition, LineSelection};
use platform::access::Kind;

/// Returns whether two texts are equal.
pub fn is_same(text: &[u8], other: &[u8]) -> bool
    ensures { result ≡ bytes_eq text.now other.now }
{
    text == other
}

/// Returns whether `p` or `u` means privileged code.
pub fn privilege_of(text: &[u8]) -> Option<bool>
    ensures { result ≡ privilege_of text.now }
{
    if is_same(text, b"p") {
        Some(true)
    } else if is_same(text, b"u") {
        Some(false)
    } else {
        None
    }
}

/// Returns the kind of access of `r`, `w` or `x`.
pub fn kind_of(text: &[u8]) -> Option<Kind>
    ensures { result ≡ kind_of text.now }
{
    if is_same(text, b"r") {
        Some(Kind::Load)
    } else if is_same(text, b"w") {
        Some(Kind::Store)
    } else if is_same(text, b"x") {
        Some(Kind::Fetch)
    } else {
        None
    }
}

/// Returns whether `r`, `w` or `a` watches reads, and whether it watches writes.
pub fn watched_of(text: &[u8]) -> Option<(bool, bool)>
    ensures { result ≡ watched_of text.now }
{
    if is_same(text, b"r") {
        Some((true, false))
    } else if is_same(text, b"w") {
        Some((false, true))
    } else if is_same(text, b"a") {
        Some((true, true))
    } else {
        None
    }
}

/// Returns which lines a word after `trace` chooses.
pub fn selection_of(text: &[u8]) -> Option<LineSelection>
    ensures { result ≡ selection_of text.now }
{
    if is_same(text, b"all") {
        Some(LineSelection::All)
    } else if is_same(text, b"refused") {
        Some(LineSelection::Refused)
    } else if is_same(text, b"exceptions") {
        Some(LineSelection::Exceptions)
    } else if is_same(text, b"console") {
        Some(LineSelection::Console)
    } else if is_same(text, b"none") {
        Some(LineSelection::Nothing)
    } else {
        None
    }
}

/// Returns what a word after `stop` names.
pub fn condition_of(text: &[u8]) -> Option<Condition>
    ensures { result ≡ condition_of text.now }
{
    if is_same(text, b"refused") {
        Some(Condition::Refused)
    } else if is_same(text, b"faults") {
        Some(Condition::Faults)
    } else if is_same(text, b"exceptions") {
        Some(Condition::Exceptions)
    } else {
        None
    }
}

/// Returns whether a word is `on` or `off`.
pub fn switch_of(text: &[u8]) -> Option<bool>
    ensures { result ≡ switch_of text.now }
{
    if is_same(text, b"on") {
        Some(true)
    } else if is_same(text, b"off") {
        Some(false)
    } else {
        None
    }
}
