//! The tables of devices in boards. The expected answers come from the rule of these tables: the first refusal, table
//! by table, and in a table key by key.

use crate::boards::{answer, push_line, text_of, text_of_row, verdict_of};
use std::alloc::Global;
use std::io;
use test_tables::{Outcome, compared, number_at, part};

/// Returns the outcome of a row of a table of devices.
pub fn outcome(alloc: Global, table: &str, row: &str) -> io::Result<Outcome> {
    let verdict = part(row, 0);
    match table {
        "spans" | "values" | "effects" | "lines" => {
            let text = with_tables(alloc, part(row, 1));
            compared(alloc, verdict, answer(alloc, text))
        }
        "crowds" => compared(alloc, verdict, answer(alloc, crowded(alloc, row))),
        "events" => compared(alloc, verdict, answer(alloc, with_events(alloc, row))),
        "more_lines" => {
            let text = with_lines(alloc, row);
            compared(alloc, verdict_of(row), answer(alloc, text))
        }
        _ => Ok(Outcome::Unreadable),
    }
}

/// The small board with these tables of devices.
fn with_tables(alloc: Global, tables: &str) -> Option<String> {
    let mut text = text_of(alloc, 5, "", "device = [")?;
    text.push_str(tables).ok()?;
    push_line(&mut text, "]")?;
    Some(text)
}

/// The small board with a table of a device as often as a row says, and then the others of the row.
fn crowded(alloc: Global, row: &str) -> Option<String> {
    let mut tables = String::new(alloc);
    'tables: for _ in 0..number_at(part(row, 1), 0)? {
        tables.push_str(part(row, 2)).ok()?;
        tables.push(',').ok()?;
    }
    tables.push_str(part(row, 3)).ok()?;
    with_tables(alloc, tables.as_str())
}

/// The devices of the small board with events: 40000000 drives line 5, and 40000004 and 40000008 are beside it.
const DEVICES: &str = "\
device = [{base = 0x4000_0000, line = 5, enable = 0x4000_0000}, {base = 0x4000_0004, size = 8, counts = true}]";

/// The small board with three devices, and the events of a row.
fn with_events(alloc: Global, row: &str) -> Option<String> {
    let mut text = text_of(alloc, 5, DEVICES, "event = [")?;
    text.push_str(part(row, 1)).ok()?;
    push_line(&mut text, "]")?;
    Some(text)
}

/// The small board with the lines of a row after its own.
fn with_lines(alloc: Global, row: &str) -> Option<String> {
    let lines = text_of_row(alloc, row)?;
    text_of(alloc, 5, "", lines.as_str())
}
