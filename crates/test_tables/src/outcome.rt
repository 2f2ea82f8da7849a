//! What comes of a row, and the first line in which two texts differ.

use std::alloc::{AllocError, Global};
use std::str;

/// A line that one text has and the other hasn't, and one without a character.
const NO_LINE: &str = "(no line)";

const EMPTY_LINE: &str = "(an empty line)";

/// What comes of a row.
#[derive(Drop)]
pub enum Outcome {
    /// All that the row wants came.
    Holds,
    /// The first line that differs.
    Differs { wanted: String, came: String },
    /// The row can't be read, or wants nothing.
    Unreadable,
}

impl Outcome {
    /// Returns whether the row holds.
    pub fn holds(&self) -> bool {
        matches!(self, Outcome::Holds)
    }

    /// Returns the outcome of a row that wants a line and gets another.
    pub fn differs(alloc: Global, wanted: &str, came: &str) -> Result<Self, AllocError> {
        Ok(Outcome::Differs {
            wanted: wanted.to_string(alloc)?,
            came: came.to_string(alloc)?,
        })
    }

    /// Returns the outcome of a row with a line that can't be read.
    pub fn unreadable(alloc: Global, line: &str) -> Result<Self, AllocError> {
        Outcome::differs(alloc, line, "a line that can't be read")
    }
}

/// Compares two texts line by line.
pub fn first_difference(alloc: Global, wanted: &str, came: &str) -> Result<Outcome, AllocError> {
    let mut others = came.lines();
    'lines: for line in wanted.lines() {
        match others.next() {
            Some(other) if other == line => {}
            other => return Outcome::differs(alloc, shown(Some(line)), shown(other)),
        }
    }
    if let Some(other) = others.next() {
        return Outcome::differs(alloc, NO_LINE, shown(Some(other)));
    }
    if wanted == came {
        return Ok(Outcome::Holds);
    }
    Outcome::differs(alloc, end_of(wanted), end_of(came))
}

/// Compares two texts of bytes line by line. Where one isn't UTF-8, no line is shown.
pub fn first_difference_of_bytes(
    alloc: Global,
    wanted: &[u8],
    came: &[u8],
) -> Result<Outcome, AllocError> {
    match (str::from_utf8(wanted), str::from_utf8(came)) {
        (Ok(wanted), Ok(came)) => first_difference(alloc, wanted, came),
        _ if wanted == came => Ok(Outcome::Holds),
        (wanted, came) => Outcome::differs(alloc, encoding(wanted.is_ok()), encoding(came.is_ok())),
    }
}

/// Returns a line as it is shown.
fn shown(line: Option<&str>) -> &str {
    match line {
        None => NO_LINE,
        Some("") => EMPTY_LINE,
        Some(line) => line,
    }
}

/// Returns how a text ends, whose lines are those of another.
fn end_of(text: &str) -> &'static str {
    if text.ends_with('\n') {
        "(a line feed at the end)"
    } else {
        "(no line feed at the end)"
    }
}

/// Returns what is shown of a text beside one that isn't UTF-8.
fn encoding(is_text: bool) -> &'static str {
    if is_text {
        "(a text in UTF-8)"
    } else {
        "(bytes that aren't UTF-8)"
    }
}
