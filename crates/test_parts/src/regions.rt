//! Decisions about accesses (ARM DDI 0403, "Protected Memory System Architecture, PMSAv7").

use crate::settings::{registers_of, setting};
use crate::words::{kind, rule_word};
use mpu::{Decider, Decision, Kind, Search};
use std::alloc::Global;
use std::io;
use test_tables::{Outcome, compared, is_first, number_at, part, rest, word};

/// Returns the outcome of a row of a table of decisions.
pub fn outcome(alloc: Global, table: &str, row: &str) -> io::Result<Outcome> {
    match table {
        "regions" | "rules" => compared(alloc, rest(row, 2), decided(alloc, row)),
        "permissions" => compared(alloc, rest(row, 1), permissions(alloc, row)),
        "eighths" => compared(alloc, rest(row, 1), eighths(alloc, row)),
        _ => Ok(Outcome::Unreadable),
    }
}

/// What decides an access: its kind, address and privilege, and `neg` at a negative priority.
pub fn decision(search: &Search, access: &str) -> Option<Decision> {
    let kind = kind(word(access, 0))?;
    let address = number_at(access, 1)?;
    let privileged = is_first(word(access, 2), "p", "u")?;
    let below_zero = is_first(word(access, 3), "neg", "")?;
    Some(search.decide(address, kind, privileged, below_zero))
}

/// The words of a decision: its rule, and whether it grants.
pub fn word_of(decision: Decision) -> (&'static str, &'static str) {
    let outcome = if decision.granted { "ok" } else { "mpu" };
    (rule_word(decision.rule), outcome)
}

/// What decides the access of a row.
fn decided(alloc: Global, row: &str) -> Option<String> {
    let search = Search::fresh(&setting(part(row, 0))?);
    let (rule, outcome) = word_of(decision(&search, part(row, 1))?);
    format!(in alloc; "{rule} {outcome}").ok()
}

/// The kinds of a row of permissions, in its order.
const KINDS: [Kind; 5] = [Kind::Fetch, Kind::Load, Kind::Store, Kind::Push, Kind::Pop];

/// Appends a word for each kind: whether region 0 grants it, or the rule that decides in its place.
fn write_grants(answer: &mut String, search: &Search, privileged: bool) -> Option<()> {
    'kinds: for kind in KINDS {
        let decision = search.decide(0x2000_0000, kind, privileged, false);
        let (rule, outcome) = word_of(decision);
        let word = match (rule, outcome) {
            ("r0", "ok") => "yes",
            ("r0", _) => "no",
            (_, _) => rule,
        };
        write!(answer, "{word} ").ok()?;
    }
    Some(())
}

/// What a region grants to privileged and to unprivileged code.
fn permissions(alloc: Global, row: &str) -> Option<String> {
    let search = Search::fresh(&registers_of(part(row, 0))?);
    let mut answer = String::new(alloc);
    write_grants(&mut answer, &search, true)?;
    answer.push('|').ok()?;
    write_grants(&mut answer, &search, false)?;
    Some(answer)
}

/// Returns whether an eighth is switched off, at its first and at its last byte. None where the two differ, or another
/// rule decides.
fn is_off(search: &Search, first: u32) -> Option<bool> {
    let low = word_of(search.decide(first, Kind::Store, false, false));
    let high = word_of(search.decide(first | 31, Kind::Store, false, false));
    match (low, high) {
        (("none", "mpu"), ("none", "mpu")) => Some(true),
        (("r0", "ok"), ("r0", "ok")) => Some(false),
        (_, _) => None,
    }
}

/// The first addresses of the eighths that are switched off.
fn eighths(alloc: Global, row: &str) -> Option<String> {
    let search = Search::fresh(&registers_of(part(row, 0))?);
    let mut answer = String::new(alloc);
    'eighths: for eighth in 0..8 {
        let first = 0x2000_0100 + 32 * eighth;
        match is_off(&search, first) {
            Some(true) => write!(answer, "{first:X} ").ok()?,
            Some(false) => {}
            None => write!(answer, "{first:X} in part ").ok()?,
        }
    }
    Some(answer)
}
