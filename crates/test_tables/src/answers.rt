//! What comes of a row as text, part by part, beside the row's own parts.

use super::outcome::Outcome;
use super::{long_at, part};
use std::alloc::Global;
use std::io;

/// What answers the lines of a row, one after another.
pub trait Lines {
    /// Returns what comes of a line, as its parts after the first have it. None where the line can't be read.
    fn answer(&mut self, alloc: Global, line: &str) -> Option<String>;
}

/// Compares what a row wants with what comes, part by part; parts that are more than what comes say what the row is.
pub fn compared(alloc: Global, wanted: &str, came: Option<String>) -> io::Result<Outcome> {
    let Some(came) = came else {
        return Ok(Outcome::Unreadable);
    };
    'parts: for (place, came) in came.split('|').enumerate() {
        let wanted = part(wanted, place);
        if !are_same(wanted, came) {
            return Ok(Outcome::differs(alloc, wanted, came.trim())?);
        }
    }
    Ok(Outcome::Holds)
}

/// Compares each line of a row after the first ones with what comes of it, up to the first that differs.
pub fn run_lines<L: Lines>(
    alloc: Global,
    row: &str,
    first: usize,
    lines: &mut L,
) -> io::Result<Outcome> {
    let mut outcome = Outcome::Unreadable;
    'lines: for line in row.lines().skip(first) {
        let came = lines.answer(alloc, line);
        outcome = compared(alloc, rest(line, 1), came)?;
        match outcome {
            Outcome::Holds => {}
            Outcome::Differs { wanted, came } => {
                let asked = part(line, 0);
                return Ok(Outcome::Differs {
                    wanted: format!(in alloc; "{asked} | {wanted}")?,
                    came: format!(in alloc; "{asked} | {came}")?,
                });
            }
            Outcome::Unreadable => return Ok(Outcome::unreadable(alloc, line)?),
        }
    }
    Ok(outcome)
}

/// The parts of a row after the first ones.
pub fn rest(row: &str, first: usize) -> &str {
    row.splitn(first.saturating_add(1), '|')
        .nth(first)
        .unwrap_or("")
}

/// Returns whether two texts have the same words.
fn are_same(wanted: &str, came: &str) -> bool {
    let mut words = came.split_whitespace();
    'words: for word in wanted.split_whitespace() {
        match words.next() {
            Some(other) if word == other || is_same_number(word, other) => {}
            _ => return false,
        }
    }
    words.next().is_none()
}

/// Returns whether two words write the same number.
fn is_same_number(word: &str, other: &str) -> bool {
    let number = long_at(word, 0);
    number.is_some() && number == long_at(other, 0)
}
