//! Priorities of exceptions, and which of them is taken (ARM DDI 0403, "Exception priorities and
//! preemption").

use crate::words::yes_if;
use nvic::{Escalation, Exceptions, PlainExceptions};
use std::alloc::Global;
use std::io;
use test_tables::{Outcome, byte_at, compared, halfword_at, is_first, part, rest, word};

/// Returns the outcome of a row of a table of priorities.
pub fn outcome(alloc: Global, table: &str, row: &str) -> io::Result<Outcome> {
    match table {
        "groups" => compared(alloc, rest(row, 1), groups(alloc, row)),
        "candidates" | "candidates_under_masks" => {
            compared(alloc, rest(row, 4), candidate(alloc, row))
        }
        "execution_priorities" => compared(alloc, rest(row, 4), execution_priority(alloc, row)),
        "escalations" => compared(alloc, rest(row, 5), escalated(alloc, row)),
        "candidates_after_a_tick" => compared(alloc, rest(row, 3), after_a_tick(alloc, row)),
        "numbers" => compared(alloc, rest(row, 1), number(alloc, row)),
        _ => Ok(Outcome::Unreadable),
    }
}

/// After a reset, on a board of 8 interrupts whose priorities have 4 bits.
fn after_reset() -> PlainExceptions {
    PlainExceptions::fresh(8, 4)
}

/// An exception, whose number and priority byte have a colon between them, gets that byte; its number.
fn prioritize(levels: &mut PlainExceptions, word: &str) -> Option<u16> {
    let (number, byte) = word.split_once(':')?;
    let number = halfword_at(number, 0)?;
    levels.set_priority(number, byte_at(byte, 0)?);
    Some(number)
}

/// Each of these exceptions gets its priority byte, and becomes active, or is enabled and pending.
fn add(levels: &mut PlainExceptions, exceptions: &str, is_active: bool) -> Option<()> {
    'words: for word in exceptions.split_whitespace() {
        let number = prioritize(levels, word)?;
        if is_active {
            levels.activate(number);
        } else {
            levels.enable(number);
            levels.pend(number);
        }
    }
    Some(())
}

/// A mask is set: nothing, `primask`, `faultmask`, or `basepri` and its priority byte.
fn mask(levels: &mut PlainExceptions, part: &str) -> Option<()> {
    match word(part, 0) {
        "" => {}
        "primask" => levels.set_primask(true),
        "faultmask" => levels.set_faultmask(true),
        "basepri" => levels.set_basepri(byte_at(part, 1)?),
        _ => return None,
    }
    Some(())
}

/// On the same board: PRIGROUP, what is active, what is pending and enabled, and the mask.
fn levels(row: &str) -> Option<PlainExceptions> {
    let mut levels = after_reset();
    levels.set_group(byte_at(part(row, 0), 0)?);
    add(&mut levels, part(row, 1), true)?;
    add(&mut levels, part(row, 2), false)?;
    mask(&mut levels, part(row, 3))?;
    Some(levels)
}

/// The group of the byte FF, where this number of bits is kept.
fn group_of(priority_bits: u8, group: u8) -> Option<u16> {
    let mut levels = PlainExceptions::fresh(8, priority_bits);
    levels.set_group(group);
    levels.set_priority(16, 0xFF);
    levels.activate(16);
    u16::try_from(levels.execution_priority().number()).ok()
}

/// The groups of the byte FF where 3, 4 and 8 of its bits are kept.
fn groups(alloc: Global, row: &str) -> Option<String> {
    let group = byte_at(part(row, 0), 0)?;
    let (three, four) = (group_of(3, group)?, group_of(4, group)?);
    let eight = group_of(8, group)?;
    format!(in alloc; "{three:X} {four:X} {eight:X}").ok()
}

/// The word of an exception, or `none`.
fn word_of(found: Option<u16>, alloc: Global) -> Option<String> {
    match found {
        Some(number) => format!(in alloc; "{number:X}").ok(),
        None => "none".to_string(alloc).ok(),
    }
}

/// The exception that is taken.
fn candidate(alloc: Global, row: &str) -> Option<String> {
    word_of(levels(row)?.candidate(), alloc)
}

/// The execution priority.
fn execution_priority(alloc: Global, row: &str) -> Option<String> {
    let priority = levels(row)?.execution_priority().number();
    match u16::try_from(priority) {
        Ok(priority) => format!(in alloc; "{priority:X}").ok(),
        Err(_) => format!(in alloc; "{priority}").ok(),
    }
}

/// What becomes of a fault.
fn escalated(alloc: Global, row: &str) -> Option<String> {
    let mut levels = levels(row)?;
    let numbers = part(row, 4);
    levels.enable(halfword_at(numbers, 1)?);
    let answer = match levels.escalate(halfword_at(numbers, 0)?) {
        Escalation::Itself => "itself",
        Escalation::HardFault => "HardFault",
        Escalation::Lockup => "lockup",
    };
    answer.to_string(alloc).ok()
}

/// The set with one exception in it: bit n mod 32 of word n / 32 is that of n.
fn set_of(number: u8) -> [u32; 8] {
    let mut due = [0; 8];
    due[(number / 32) as usize] = 1 << (number % 32);
    due
}

/// The candidate after a tick, as it's foreseen, and once it's pending.
fn after_a_tick(alloc: Global, row: &str) -> Option<String> {
    let number = byte_at(part(row, 0), 0)?;
    let primask = is_first(part(row, 2), "primask", "")?;
    let due = set_of(number);
    let mut levels = PlainExceptions::fresh(240, 4);
    levels.enable(halfword_at(part(row, 1), 0)?);
    levels.set_primask(!primask);
    let foreseen = levels.candidate_after(&due, primask);
    let waits = !levels.is_pending(u16::from(number));
    levels.pend_due(&due);
    levels.set_primask(primask);
    let candidate = word_of(levels.candidate(), alloc)?;
    if foreseen == levels.candidate() && waits {
        return Some(candidate);
    }
    let (foreseen, waits) = (word_of(foreseen, alloc)?, yes_if(waits));
    format!(in alloc; "{candidate}, foreseen: {foreseen}, waits: {waits}").ok()
}

/// Whether an exception is enabled: at last, after a reset, and once it's disabled.
fn enabled(levels: &mut PlainExceptions, number: u16) -> [bool; 3] {
    let first = levels.is_enabled(number);
    levels.disable(number);
    let second = levels.is_enabled(number);
    levels.enable(number);
    [levels.is_enabled(number), first, second]
}

/// Whether an exception becomes pending and active, as where it exists. None where it becomes one alone, or stays so.
fn listed(levels: &mut PlainExceptions, number: u16) -> Option<bool> {
    levels.pend(number);
    levels.activate(number);
    let (pends, is_active) = (levels.is_pending(number), levels.is_active(number));
    levels.clear(number);
    levels.deactivate(number);
    if pends != is_active || levels.is_pending(number) || levels.is_active(number) {
        return None;
    }
    Some(pends)
}

/// What a number counts as.
fn number(alloc: Global, row: &str) -> Option<String> {
    let number = halfword_at(part(row, 0), 0)?;
    let mut levels = after_reset();
    let [at_last, first, second] = enabled(&mut levels, number);
    levels.set_priority(number, 0xFF);
    let priority = levels.priority(number);
    let exists = match listed(&mut levels, number) {
        Some(listed) if listed == at_last => yes_if(listed),
        Some(_) | None => "in part",
    };
    let (first, second) = (yes_if(first), yes_if(second));
    format!(in alloc; "{exists} {first} {second} | {priority:02X}").ok()
}
