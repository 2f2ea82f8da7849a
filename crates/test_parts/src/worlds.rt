//! Maps of worlds, and the bytes that two of them share.

use crate::settings::registers_of;
use access_map::{AccessMap, Span, World, are_apart, map_text, pair_text, shared};
use board::read_board;
use platform::board::Layout;
use std::alloc::Global;
use std::io;
use test_tables::{Outcome, first_difference_of_bytes, number_at, part, word};

/// What each board has beside where its flash begins.
const SIZES: &str = "flash_size = 0x4000\nram_size = 0x2000\npriority_bits = 4\nlines = 0\n";

/// Returns the outcome of a row of a table of worlds.
pub fn outcome(alloc: Global, table: &str, row: &str) -> io::Result<Outcome> {
    let came = match table {
        "maps" => map(alloc, row),
        "pairs" => pair(alloc, row),
        _ => None,
    };
    match (wanted(alloc, row), came) {
        (Some(wanted), Some(came)) => Ok(first_difference_of_bytes(
            alloc,
            wanted.as_str().as_bytes(),
            came.as_slice(),
        )?),
        (_, _) => Ok(Outcome::Unreadable),
    }
}

/// The lines that a row wants.
fn wanted(alloc: Global, row: &str) -> Option<String> {
    let mut wanted = String::new(alloc);
    'lines: for line in row.lines().skip(1) {
        if matches!(word(line, 0), "map" | "apart" | "shares") {
            wanted.push_str(line).ok()?;
            wanted.push('\n').ok()?;
        }
    }
    Some(wanted)
}

/// The rest of the line of a row that begins with a word.
fn line_of<'a>(row: &'a str, name: &str) -> Option<&'a str> {
    'lines: for line in row.lines().skip(1) {
        if word(line, 0) == name {
            return Some(line);
        }
    }
    None
}

/// The text of a second RAM of a row; empty where it has none.
fn second_ram_of(alloc: Global, row: &str) -> Option<String> {
    match line_of(row, "second") {
        Some(line) => {
            let (base, size) = (number_at(line, 1)?, number_at(line, 2)?);
            format!(in alloc; "[[ram]]\nbase = {base}\nsize = {size}\n").ok()
        }
        None => Some(String::new(alloc)),
    }
}

/// The board of a row: that of the kernels `round_robin` and `mailbox`, but for where flash begins, and a second RAM.
fn board_of(alloc: Global, row: &str) -> Option<Layout> {
    let flash_base = match line_of(row, "flash") {
        Some(line) => number_at(line, 1)?,
        None => 0,
    };
    let second_ram = second_ram_of(alloc, row)?;
    let text = format!(in alloc; "flash_base = {flash_base}\n{SIZES}{second_ram}").ok()?;
    Some(read_board(alloc, text.as_str()).ok()?.layout)
}

/// The world of a line: after a bar its registers, and before it whether the execution priority is below 0.
fn world_of(line: &str) -> Option<World> {
    Some(World {
        registers: registers_of(part(line, 1))?,
        below_zero: word(part(line, 0), 2) == "neg",
    })
}

/// The map of the world of a row.
fn map(alloc: Global, row: &str) -> Option<Vec<u8>> {
    let line = line_of(row, "world")?;
    let map = AccessMap::of(alloc, &world_of(line)?, &board_of(alloc, row)?).ok()?;
    let number: u8 = word(line, 1).parse().ok()?;
    map_text(alloc, number, &map).ok()
}

/// The spans that a row allows.
fn allowed(alloc: Global, row: &str) -> Option<Vec<Span>> {
    let mut spans = Vec::new(alloc);
    'lines: for line in row.lines().skip(1) {
        if word(line, 0) == "allow" {
            let first = number_at(line, 1)?;
            let last = number_at(line, 2)?;
            spans.push(Span { first, last }).ok()?;
        }
    }
    Some(spans)
}

/// What the worlds 1 and 3 of a row share, or that `are_apart` says otherwise.
fn pair(alloc: Global, row: &str) -> Option<Vec<u8>> {
    let board = board_of(alloc, row)?;
    let one = world_of(line_of(row, "one")?)?;
    let other = world_of(line_of(row, "other")?)?;
    let allowed = allowed(alloc, row)?;
    let there = shared(alloc, &board, &one, &other, allowed.as_slice()).ok()?;
    let back = shared(alloc, &board, &other, &one, allowed.as_slice()).ok()?;
    let apart = are_apart(&board, &one, &other, allowed.as_slice());
    if apart != (there.is_empty() && back.is_empty()) {
        let mut text = Vec::new(alloc);
        text.extend_from_slice(b"(are_apart differs)\n").ok()?;
        return Some(text);
    }
    pair_text(alloc, 1, 3, &there, &back).ok()
}
