//! Columns of ticks, and lanes of handlers, of a survey.

use crate::survey_words::{start, take_step};
use crate::words::yes_if;
use platform::board::SMALL_BOARD;
use std::alloc::Global;
use std::io;
use survey::{Mark, Survey};
use test_tables::{Outcome, byte_at, compared, meaning, number_at, part, rest, word};

/// Returns the outcome of a row of a table of columns and marks.
pub fn outcome(alloc: Global, table: &str, row: &str) -> io::Result<Outcome> {
    match table {
        "columns" => compared(alloc, rest(row, 1), columns(alloc, row)),
        "marks" => compared(alloc, part(row, 3), marks(alloc, row)),
        "lanes" => compared(alloc, rest(row, 3), lanes(alloc, row)),
        _ => Ok(Outcome::Unreadable),
    }
}

const MARKS: [(&str, Mark); 8] = [
    ("unprivileged", Mark::Unprivileged),
    ("privileged", Mark::Privileged),
    ("sleep", Mark::Sleep),
    ("refused", Mark::Refused),
    ("mpu", Mark::MpuWritten),
    ("other", Mark::OtherHandler),
    ("first", Mark::Handler(0)),
    ("last", Mark::Handler(23)),
];

/// How many ticks a column stands for after the ticks of a row, and how many columns have begun; and how many steps
/// there were, where the survey has another number of these.
fn columns(alloc: Global, row: &str) -> Option<String> {
    let ticks = number_at(row, 0)?;
    let mut survey = Survey::new(alloc, &SMALL_BOARD).ok()?;
    'ticks: for _ in 0..ticks {
        survey.begin_step(&start('u', 0, 0));
    }
    let wide = survey.timeline.column_ticks();
    let used = survey.timeline.used();
    let steps = survey.steps;
    if steps == u64::from(ticks) {
        format!(in alloc; "{wide:X} | {used:X}").ok()
    } else {
        format!(in alloc; "{wide:X} | {used:X}, {steps:X} steps").ok()
    }
}

/// Whether a column has a mark, both named by a part.
fn is_marked(survey: &Survey, part: &str) -> Option<&'static str> {
    let column = number_at(part, 0)? as usize;
    let mark = meaning(&MARKS, word(part, 1))?;
    Some(yes_if(survey.timeline.is_marked(column, mark)))
}

/// Whether a column has a mark, after steps that run so one after another, and a step with events.
fn marks(alloc: Global, row: &str) -> Option<String> {
    let mut survey = Survey::new(alloc, &SMALL_BOARD).ok()?;
    'steps: for mode in part(row, 0).chars() {
        survey.begin_step(&start(mode, 15, 0));
    }
    take_step(&mut survey, &start('p', 0, 0), part(row, 1))?;
    is_marked(&survey, part(row, 2))?.to_string(alloc).ok()
}

/// A survey of handlers of exceptions from 16 on, each for a tick, and then of ticks of unprivileged code.
fn handled(alloc: Global, row: &str) -> Option<Survey> {
    let mut survey = Survey::new(alloc, &SMALL_BOARD).ok()?;
    'handlers: for handler in 0..byte_at(row, 0)? {
        survey.begin_step(&start('h', 16 + u16::from(handler), 0));
    }
    'ticks: for _ in 0..number_at(part(row, 1), 0)? {
        survey.begin_step(&start('u', 0, 0));
    }
    Some(survey)
}

/// How many handlers have lanes, and whether a column has a mark.
fn lanes(alloc: Global, row: &str) -> Option<String> {
    let survey = handled(alloc, row)?;
    let lanes = survey.timeline.handlers().len();
    let marked = is_marked(&survey, part(row, 2))?;
    format!(in alloc; "{lanes:X} | {marked}").ok()
}
