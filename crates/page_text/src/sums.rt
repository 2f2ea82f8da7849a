//! Sums of accesses by their rules, privileges, kinds and outcomes.

use crate::words::{KINDS, OUTCOMES, RULE_ROWS, rule_of_row};
use machine::{Kind, Rule};
use platform::access::Cause;
use survey::Counts;

/// A column of the table of rules.
#[derive(Clone, Copy)]
pub struct Column {
    pub privileged: bool,
    pub kind: Kind,
}

/// Returns how many accesses there were.
pub fn accesses(counts: &Counts) -> u64 {
    let mut sum = 0u64;
    'rows: for row in 0..RULE_ROWS {
        sum = sum.saturating_add(of_rule(counts, rule_of_row(row)));
    }
    sum
}

/// Returns how many accesses the MPU or the bus refused.
pub fn refused(counts: &Counts, cause: Cause) -> u64 {
    let mut sum = 0u64;
    'rows: for row in 0..RULE_ROWS {
        let rule = rule_of_row(row);
        let unprivileged = refused_by(counts, rule, false, cause);
        let privileged = refused_by(counts, rule, true, cause);
        sum = sum.saturating_add(unprivileged).saturating_add(privileged);
    }
    sum
}

/// Returns how many accesses of code of a privilege the MPU or the bus refused under a rule.
fn refused_by(counts: &Counts, rule: Rule, privileged: bool, cause: Cause) -> u64 {
    let mut sum = 0u64;
    'kinds: for kind in KINDS {
        sum = sum.saturating_add(counts.number(rule, privileged, kind, Some(cause)));
    }
    sum
}

/// Returns how many handlers were entered: each has its vector read just before.
pub fn handlers(counts: &Counts) -> u64 {
    counts.number(Rule::VectorRead, true, Kind::Vector, None)
}

/// Returns how many accesses there were of a privilege and kind.
pub fn of_column(counts: &Counts, column: Column) -> u64 {
    let mut sum = 0u64;
    'rows: for row in 0..RULE_ROWS {
        sum = sum.saturating_add(of_cell(counts, rule_of_row(row), column));
    }
    sum
}

/// Returns how many accesses of a privilege and kind a rule decided.
pub fn of_cell(counts: &Counts, rule: Rule, column: Column) -> u64 {
    let mut sum = 0u64;
    'outcomes: for refused in OUTCOMES {
        let number = counts.number(rule, column.privileged, column.kind, refused);
        sum = sum.saturating_add(number);
    }
    sum
}

/// Returns how many accesses a rule decided.
pub fn of_rule(counts: &Counts, rule: Rule) -> u64 {
    let unprivileged = of_rule_for(counts, rule, false);
    unprivileged.saturating_add(of_rule_for(counts, rule, true))
}

/// Returns how many accesses of code of a privilege a rule decided.
fn of_rule_for(counts: &Counts, rule: Rule, privileged: bool) -> u64 {
    let mut sum = 0u64;
    'kinds: for kind in KINDS {
        sum = sum.saturating_add(of_cell(counts, rule, Column { privileged, kind }));
    }
    sum
}
