//! Boards by their texts. The expected answers come from the rules of boards and of TOML, not from
//! the reader.

use board::read_board;
use std::alloc::Global;
use std::io;
use test_tables::{Outcome, compared, number_at, part, word};

/// Returns the outcome of a row of a table of boards.
pub fn outcome(alloc: Global, table: &str, row: &str) -> io::Result<Outcome> {
    let verdict = verdict_of(row);
    match table {
        "lines" => compared(alloc, part(row, 1), answer(alloc, with_line(alloc, row))),
        "crowds" => compared(alloc, part(row, 1), answer(alloc, crowded(alloc, row))),
        "more_lines" => {
            let text = with_lines(alloc, row);
            compared(alloc, word(verdict, 1), answer(alloc, text))
        }
        "events" => compared(alloc, verdict, answer(alloc, with_event(alloc, row))),
        "texts" => compared(alloc, verdict, answer(alloc, text_of_row(alloc, row))),
        _ => Ok(Outcome::Unreadable),
    }
}

/// The five lines of the small board.
const SMALL: &str = "\
flash_base = 0
flash_size = 4096
ram_size = 8192
priority_bits = 4
lines = 8";

/// What the text of a row is, where the row has it in its second line.
pub fn verdict_of(row: &str) -> &str {
    row.lines().nth(1).unwrap_or("")
}

/// The text of the lines of a row that begin with a bar, with a line feed between two of them.
pub fn text_of_row(alloc: Global, row: &str) -> Option<String> {
    let mut text = String::new(alloc);
    let mut is_first = true;
    'lines: for line in row.lines() {
        if let Some(line) = line.strip_prefix("|") {
            if !is_first {
                text.push('\n').ok()?;
            }
            is_first = false;
            text.push_str(line.strip_prefix(" ").unwrap_or(line)).ok()?;
        }
    }
    Some(text)
}

/// Appends a line to a text.
pub fn push_line(text: &mut String, line: &str) -> Option<()> {
    text.push_str(line).ok()?;
    text.push('\n').ok()
}

/// The small board with another line at a place, or after its five lines, and then this.
pub fn text_of(alloc: Global, place: u32, line: &str, rest: &str) -> Option<String> {
    let mut text = String::new(alloc);
    'lines: for (index, small) in SMALL.lines().enumerate() {
        let line = if index == place as usize { line } else { small };
        push_line(&mut text, line)?;
    }
    if place == 5 {
        push_line(&mut text, line)?;
    }
    push_line(&mut text, rest)?;
    Some(text)
}

/// The name of the refusal of a number.
fn name(number: u8) -> &'static str {
    match number {
        1 => "NotToml",
        2 => "MissingKey",
        3 => "WrongKind",
        4 => "OutOfRange",
        5 => "EventsOutOfOrder",
        6 => "UnknownKey",
        _ => "another refusal",
    }
}

/// What a text is: `Taken`, or the name of its refusal.
pub fn answer(alloc: Global, text: Option<String>) -> Option<String> {
    let text = text?;
    let answer = match read_board(alloc, text.as_str()) {
        Ok(_) => "Taken",
        Err(error) => name(error as u8),
    };
    answer.to_string(alloc).ok()
}

/// The small board with the line of a row.
fn with_line(alloc: Global, row: &str) -> Option<String> {
    text_of(alloc, number_at(part(row, 0), 0)?, part(row, 2), "")
}

/// The small board with the lines of a row.
fn with_lines(alloc: Global, row: &str) -> Option<String> {
    let lines = text_of_row(alloc, row)?;
    text_of(alloc, number_at(verdict_of(row), 0)?, lines.as_str(), "")
}

/// The small board with the event of a row.
fn with_event(alloc: Global, row: &str) -> Option<String> {
    let event = text_of_row(alloc, row)?;
    text_of(alloc, 5, "[[event]]", event.as_str())
}

/// The small board with the number of events of a row, which have nothing in them.
fn crowded(alloc: Global, row: &str) -> Option<String> {
    let mut text = text_of(alloc, 5, "", "event = [")?;
    'events: for _ in 0..number_at(part(row, 0), 0)? {
        text.push_str("{},").ok()?;
    }
    push_line(&mut text, "]")?;
    Some(text)
}
