//! Why a board is refused: the key or the event, its value, and what it takes.

ghost use Rattle.std.specs.Prelude.{◌≡◌, ◌⊎◌, ◌<◌, ◌≤◌, ◌^◌, ℕ, Bool, true, not, List, codes, is_some, map};
ghost use Rattle.std.specs.Prelude.{option_map, IfErr, IfOk};
ghost use Rattle.toml.specs.Data.{get_member};
ghost use Rattle.toml.specs.View.{table_view};
ghost use Rattle.board.specs.Texts.{board_in, numbers_in};
ghost use Rattle.board.specs.Values.{has_only, number, number_or, where_ok};
ghost use Rattle.platform.specs.Boards.{default_regions, is_flash, is_region_count, is_size};
ghost use Rattle.reasons.specs.Events.{script_of};
ghost use Rattle.reasons.specs.Problems.{EndsTooHigh, Explained, Finds, NamesKey, NamesFirst, ReadsKey, ShowsKey};
ghost use Rattle.reasons.specs.Problems.{key_of};
ghost use Rattle.reasons.specs.Problems.{lines_of, takes};

use crate::device_tables::devices_problem;
use crate::events::{EventProblem, event_with, events_problem};
use crate::keys::{
    BOARD_KEY_NAMES, FLASH_BASE, FLASH_SIZE, Key, LINES, PRIORITY_BITS, RAM_SIZE, REGIONS,
};
use crate::problem::{Part, PartProblem, Problem, write_problem};
use crate::second_ram::{of_board, second_ram_problem};
use board::keys::{BOARD_KEYS, is_known};
use board::ranges::is_flash;
use board::{
    DEFAULT_REGIONS, Device, Layout, devices_at, find, layout_of, number, with_second_ram,
};
use platform::error::BoardError;
use platform::exception::MAX_INTERRUPTS;
use std::alloc::Global;
use std::io::Write;
use std::{io, str};
use toml::{Table, Value};

/// Writes why `read_board` refuses the text of a file.
pub fn write_board_reason<W: Write>(
    alloc: Global,
    out: &mut W,
    file: &[u8],
    error: BoardError,
) -> io::Result<()> {
    let Ok(text) = str::from_utf8(file) else {
        return writeln!(out, "the file isn't a text in UTF-8");
    };
    match toml::table_from_str(alloc, text) {
        Ok(document) => write_document_reason(out, &document, error),
        Err(error) => {
            let message = error.message();
            let (line, column) = match error.span() {
                Some(span) => position(file, span.start),
                None => (1, 1),
            };
            writeln!(out, "line {line}, column {column}: {message}")
        }
    }
}

/// Writes why a document isn't a board.
fn write_document_reason<W: Write>(
    out: &mut W,
    document: &Table,
    error: BoardError,
) -> io::Result<()> {
    let Some(PartProblem { part, problem }) = document_problem(document) else {
        return writeln!(out, "{error}");
    };
    match part {
        Part::Board => {
            write_problem(out, &problem)?;
            write_misplaced(out, document, &problem)
        }
        Part::SecondRam => {
            write!(out, "ram: ")?;
            write_problem(out, &problem)
        }
        Part::Device(number) => {
            write!(out, "device {number}: ")?;
            write_problem(out, &problem)
        }
        Part::Event(number) => {
            write!(out, "event {number}: ")?;
            write_problem(out, &problem)
        }
    }
}

/// Returns the first problem of a document, if it isn't a board.
#[tactic(auto, unfolding(board::specs::Texts::board_in))]
fn document_problem(document: &Table) -> Option<PartProblem<'_>>
    ensures { Finds (option_map (λ p. p.problem) result) (board_in (table_view document.now)) }
{
    if let Err(problem) = check_numbers(document) {
        return Some(of_board(problem));
    }
    if let Some(name) = unknown(document, &BOARD_KEYS) {
        return Some(of_board(Problem::Unknown(name, BOARD_KEY_NAMES)));
    }
    let Ok(layout) = layout_of(document) else {
        return None;
    };
    if let Some(problem) = second_ram_problem(document, &layout) {
        return Some(problem);
    }
    let Ok(layout) = with_second_ram(layout, document) else {
        return None;
    };
    match devices_at(&layout, document) {
        Ok(found) => script_part(document, &layout, found.devices()),
        Err(_) => devices_problem(document, &layout),
    }
}

/// Returns the first problem of the script of a board with this layout and these devices, as one of a part of the
/// board.
fn script_part<'a>(
    document: &'a Table,
    layout: &Layout,
    devices: &[Device],
) -> Option<PartProblem<'a>>
    ensures { Finds (option_map (λ p. p.problem) result)
        (script_of layout.now.interrupts devices.now (table_view document.now)) }
{
    let found = events_problem(document, u64::from(layout.interrupts), devices)?;
    Some(of_event(found))
}

/// Returns a problem of an event, or of the list of events, as one of a part of the board.
fn of_event(found: EventProblem<'_>) -> PartProblem<'_>
    ensures { result.problem ≡ found.entry.problem }
{
    let EventProblem { number, problem } = found;
    let part = match number {
        0 => Part::Board,
        _ => Part::Event(number),
    };
    PartProblem { part, problem }
}

/// Writes, after a missing key of the board, where it may be: in an event, or misspelled, or in a table
/// whose name is the first key that isn't known.
fn write_misplaced<W: Write>(
    out: &mut W,
    document: &Table,
    problem: &Problem<'_>,
) -> io::Result<()> {
    let missing = match *problem {
        Problem::Missing(key) => key.name,
        Problem::Value(_, _)
        | Problem::Kind(_, _)
        | Problem::Integer(_, _)
        | Problem::Line(_, _)
        | Problem::Count(_, _)
        | Problem::Unknown(_, _)
        | Problem::Misplaced(_)
        | Problem::Order(_, _)
        | Problem::FlashEnd(_, _)
        | Problem::RamSpan(_, _)
        | Problem::Device(_)
        | Problem::Alone(_, _) => return Ok(()),
    };
    if let Some(number) = event_with(document, missing) {
        return writeln!(
            out,
            "  event {number} has it: keys of the board stand before the first [[event]]"
        );
    }
    match unknown(document, &BOARD_KEYS) {
        Some(name) => {
            write!(out, "  ")?;
            write_problem(out, &Problem::Unknown(name, BOARD_KEY_NAMES))
        }
        None => Ok(()),
    }
}

/// Returns the line and the column of a byte of the file, both from 1.
fn position(file: &[u8], at: usize) -> (usize, usize) {
    let mut line = 1usize;
    let mut column = 1usize;
    'bytes: for byte in file.get(..at).unwrap_or(file) {
        if *byte == b'\n' {
            line = line.saturating_add(1);
            column = 1;
        } else {
            column = column.saturating_add(1);
        }
    }
    (line, column)
}

/// Returns the whole number at a key with its value, or what is wrong with it.
#[tactic(auto, using(crate::proofs::Numbers::below_zero, crate::proofs::Numbers::no_integer))]
fn whole_number<'a>(table: &'a Table, key: Key) -> Result<(u64, &'a Value), Problem<'a>>
    ensures read { ReadsKey key result (number (get_member key.name.now (table_view table.now))) }
    ensures small { IfOk result (λ found. found.0 < 2 ^ 63) }
{
    let Some(value) = find(table, key.name) else {
        return Err(Problem::Missing(key));
    };
    match number(Some(value)) {
        Ok(number) => Ok((number, value)),
        Err(_) if value.is_integer() => Err(Problem::Value(key, value)),
        Err(_) => Err(Problem::Integer(key, value)),
    }
}

/// Checks the six numbers in the order in which they are read. Returns the number of lines, or the first problem.
#[tactic(auto, unfolding(board::specs::Texts::numbers_in, crate::specs::Problems::NamesFirst))]
fn check_numbers(document: &Table) -> Result<u64, Problem<'_>>
    ensures read { Explained result (lines_of (numbers_in (table_view document.now))) }
    ensures names { IfErr result (λ problem. NamesFirst (table_view document.now) problem) }
    ensures few { IfOk result (λ lines. lines ≤ MAX_INTERRUPTS) }
{
    let base = check_number(document, FLASH_BASE)?;
    check_flash_size(document, base)?;
    check_number(document, RAM_SIZE)?;
    check_number(document, PRIORITY_BITS)?;
    let lines = check_number(document, LINES)?;
    check_regions(document)?;
    Ok(lines)
}

/// Returns the number at a key, where it is one that the message for the key names, or what is wrong with it.
pub fn check_number<'a>(table: &'a Table, key: Key) -> Result<u64, Problem<'a>>
    ensures read { Explained result
        (where_ok (takes key.takes) (number (get_member key.name.now (table_view table.now)))) }
    ensures names { IfErr result (λ problem. (name : List ℕ) (test : ℕ → Bool) → ShowsKey name test key
        → NamesKey name test (key_of problem)) }
    ensures taken { IfOk result (λ n. takes key.takes n ≡ true) }
    ensures small { IfOk result (λ n. n < 2 ^ 63) }
{
    let (number, value) = whole_number(table, key)?;
    if !key.takes.includes(number) {
        return Err(Problem::Value(key, value));
    }
    Ok(number)
}

/// Returns the number at a key that may be missing, which then is a default, or what is wrong with it.
pub fn check_number_or<'a>(table: &'a Table, key: Key, default: u64) -> Result<u64, Problem<'a>>
    requires taken { takes key.takes default ≡ true }
    requires small { default < 2 ^ 63 }
    ensures read { Explained result
        (where_ok (takes key.takes) (number_or default (get_member key.name.now (table_view table.now)))) }
    ensures small { IfOk result (λ n. n < 2 ^ 63) }
{
    if find(table, key.name).is_none() {
        return Ok(default);
    }
    check_number(table, key)
}

/// Returns the size of flash at a base, or what is wrong with it.
fn check_flash_size(document: &Table, base: u64) -> Result<u64, Problem<'_>>
    requires { base < 2 ^ 63 }
    ensures read { Explained result
        (where_ok (is_flash base) (number (get_member (codes "flash_size") (table_view document.now)))) }
    ensures names { IfErr result
        (λ problem. NamesKey (codes "flash_size") is_size (key_of problem) ⊎ EndsTooHigh base problem) }
{
    let size = check_number(document, FLASH_SIZE)?;
    if !is_flash(base, size) {
        return Err(Problem::FlashEnd(base, size));
    }
    Ok(size)
}

/// Returns the number of regions, which is the default where the key is missing, or what is wrong with it.
fn check_regions(document: &Table) -> Result<u64, Problem<'_>>
    ensures read { Explained result
        (where_ok is_region_count
        (number_or default_regions (get_member (codes "regions") (table_view document.now)))) }
    ensures names { IfErr result (λ problem. NamesKey (codes "regions") is_region_count (key_of problem)) }
{
    if find(document, REGIONS.name).is_none() {
        return Ok(DEFAULT_REGIONS);
    }
    match check_number(document, REGIONS) {
        Ok(regions) => Ok(regions),
        Err(problem) => Err(problem),
    }
}

/// Returns the first key of a table that isn't known.
pub fn unknown<'a>(table: &'a Table, known: &[&str]) -> Option<&'a str>
    ensures { is_some result ≡ not (has_only (map (λ key. key.now) known.now) (table_view table.now)) }
{
    'members: for (key, _value) in table.iter() {
        if !is_known(known, key.as_str()) {
            return Some(key.as_str());
        }
    }
    None
}
