//! What a survey counts of a step, the cells that it marks, what it keeps of the console, and shares of counts.

use crate::survey_words::{kind, outcome, privileged, rule, start, take_step, touch};
use crate::words::yes_if;
use platform::board::SMALL_BOARD;
use std::alloc::Global;
use std::io;
use survey::{Console, Survey};
use symbol_steps::Share;
use test_tables::{Outcome, compared, long_at, number_at, part, rest, word};

/// Returns the outcome of a row of a table of counts.
pub fn outcome_of(alloc: Global, table: &str, row: &str) -> io::Result<Outcome> {
    match table {
        "counters" => compared(alloc, part(row, 2), counter(alloc, row)),
        "cells" => compared(alloc, part(row, 2), cell(alloc, row)),
        "instructions" => compared(alloc, part(row, 3), instructions(alloc, row)),
        "consoles" => compared(alloc, rest(row, 1), printed(alloc, row)),
        "shares" => compared(alloc, part(row, 1), share(alloc, row)),
        _ => Ok(Outcome::Unreadable),
    }
}

/// The number of a counter after a step.
fn counter(alloc: Global, row: &str) -> Option<String> {
    let mut survey = Survey::new(alloc, &SMALL_BOARD).ok()?;
    take_step(&mut survey, &start('p', 0, 0x100), part(row, 0))?;
    let counter = part(row, 1);
    let number = survey.counts.number(
        rule(word(counter, 3))?,
        privileged(word(counter, 1))?,
        kind(word(counter, 0))?,
        outcome(word(counter, 2))?,
    );
    format!(in alloc; "{number:X}").ok()
}

/// Whether a cell has a mark after a step.
fn cell(alloc: Global, row: &str) -> Option<String> {
    let mut survey = Survey::new(alloc, &SMALL_BOARD).ok()?;
    take_step(&mut survey, &start('p', 0, 0x100), part(row, 0))?;
    let asked = part(row, 1);
    let cell = number_at(asked, 3)? as usize;
    if cell >= 1024 {
        return None;
    }
    let by = privileged(word(asked, 1))?;
    let how = touch(word(asked, 2))?;
    let is_marked = match word(asked, 0) {
        "flash" => survey.flash.is_marked(by, how, cell),
        "ram" => survey.ram.is_marked(by, how, cell),
        _ => return None,
    };
    yes_if(is_marked).to_string(alloc).ok()
}

/// How many instructions are counted at an address after a step.
fn instructions(alloc: Global, row: &str) -> Option<String> {
    let mut survey = Survey::new(alloc, &SMALL_BOARD).ok()?;
    let start = start('p', 0, number_at(row, 0)?);
    take_step(&mut survey, &start, part(row, 1))?;
    let asked = part(row, 2);
    let by = privileged(word(asked, 1))?;
    let address = number_at(asked, 2)?;
    let number = match word(asked, 0) {
        "flash" => survey.flash_code.number(by, address),
        "ram" => survey.ram_code.number(by, address),
        _ => return None,
    };
    format!(in alloc; "{number:X}").ok()
}

/// How many bytes a console keeps after 0, 1, .. were printed, and the last of them; and how many were printed, where
/// it has another number of these.
fn printed(alloc: Global, row: &str) -> Option<String> {
    let printed = number_at(row, 0)?;
    let mut console = Console::new(alloc).ok()?;
    'bytes: for byte in 0..printed {
        console.take_byte((byte % 256) as u8);
    }
    let kept = console.bytes().len();
    let last = match console.bytes().last() {
        Some(last) => u32::from(*last),
        None => 0x100,
    };
    let number = console.number();
    if number == u64::from(printed) {
        format!(in alloc; "{kept:X} | {last:X}").ok()
    } else {
        format!(in alloc; "{kept:X} | {last:X}, {number:X} printed").ok()
    }
}

/// The share that a number has of another.
fn share(alloc: Global, row: &str) -> Option<String> {
    Share::of(long_at(row, 0)?, long_at(row, 1)?)
        .to_string(alloc)
        .ok()
}
