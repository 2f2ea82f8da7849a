//! The rows of settings and of faults that a survey has.

use crate::survey_words::{start, take_step};
use mpu::MpuRegister;
use platform::access::Kind;
use platform::board::SMALL_BOARD;
use std::alloc::Global;
use std::io;
use survey::{StepStart, Survey};
use test_tables::{Outcome, compared, number_at, part, rest};

/// Returns the outcome of a row of a table of rows.
pub fn outcome(alloc: Global, table: &str, row: &str) -> io::Result<Outcome> {
    match table {
        "settings" => compared(alloc, rest(row, 2), settings(alloc, row)),
        "faults" => compared(alloc, rest(row, 2), faults(alloc, row)),
        _ => Ok(Outcome::Unreadable),
    }
}

/// A moment at which region 0, which RNR selects after a reset, has this address; None where RBAR doesn't take it.
fn region_at(base: u32) -> Option<StepStart> {
    let mut start = start('u', 0, 0x100);
    start.mpu.write_reg(MpuRegister::Base, base).ok()?;
    start
        .mpu
        .write_reg(MpuRegister::Attributes, 0x0300_0009)
        .ok()?;
    Some(start)
}

/// How many rows of settings there are after steps whose settings differ, and a step with the first setting after them;
/// the granted loads of the first row; and the accesses without a row.
fn settings(alloc: Global, row: &str) -> Option<String> {
    let mut survey = Survey::new(alloc, &SMALL_BOARD).ok()?;
    'settings: for setting in 0..number_at(row, 0)? {
        let start = region_at(setting.wrapping_mul(32))?;
        take_step(&mut survey, &start, "L 20000000 4 u ok r0")?;
    }
    take_step(&mut survey, &region_at(0)?, part(row, 1))?;
    let rows = survey.settings.rows();
    let first = match rows.first() {
        Some(setting) => setting.number(false, Kind::Load, None),
        None => 0,
    };
    let (length, others) = (rows.len(), survey.settings.others());
    format!(in alloc; "{length:X} | {first:X} | {others:X}").ok()
}

/// How many rows of faults there are after steps that fault at PCs that differ, and one more step at one of them; how
/// often the last one came, and whether it has an access; and how many faults there were.
fn faults(alloc: Global, row: &str) -> Option<String> {
    let mut survey = Survey::new(alloc, &SMALL_BOARD).ok()?;
    'faults: for step in 0..number_at(row, 0)? {
        take_step(
            &mut survey,
            &start('u', 0, step),
            "L 20000000 4 u mpu none, ! 4 82 0",
        )?;
    }
    let last = number_at(part(row, 0), 1).unwrap_or(0);
    take_step(&mut survey, &start('u', 0, last), part(row, 1))?;
    let rows = survey.faults.rows();
    let (times, access) = match rows.last() {
        Some(fault) => (fault.times, access_if(fault.refused.is_some())),
        None => (0, "no"),
    };
    let (length, number) = (rows.len(), survey.faults.number());
    format!(in alloc; "{length:X} | {times:X} | {access} | {number:X}").ok()
}

/// A word for whether a fault has an access.
fn access_if(is_so: bool) -> &'static str {
    if is_so { "access" } else { "no" }
}
