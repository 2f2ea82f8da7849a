//! Instructions that are kept beside a memory.

use crate::decoding::word_of;
use crate::operands::all_operands;
use decode::{BoardDecodeTable, DecodeEachTime, Decoded, KeptCode};
use std::alloc::Global;
use std::io;
use test_tables::{
    Lines, Outcome, compared, halfword_at, number_at, numbers, part, rest, run_lines, word,
};

/// Returns the outcome of a row of a table of kept instructions.
pub fn outcome(alloc: Global, table: &str, row: &str) -> io::Result<Outcome> {
    match table {
        "fetches" => fetches(alloc, row),
        "places" => compared(alloc, rest(row, 2), places(alloc, row)),
        _ => Ok(Outcome::Unreadable),
    }
}

/// The constant of MOV (immediate).
fn constant_of(decoded: &Decoded) -> Option<u32> {
    match decoded {
        Decoded::Instr(coded) => {
            let [_, _, _, _, constant, _, _, _] = all_operands(&coded.instruction)?;
            Some(constant)
        }
        Decoded::Undefined | Decoded::NoCoprocessor | Decoded::Unpredictable(_, _) => None,
    }
}

/// Images, and two addresses: whether both have their instructions once each was fetched, or they share a
/// place, so that the second instruction takes it. Whatever is kept, an address never has another one's instruction.
fn places(alloc: Global, row: &str) -> Option<String> {
    let bytes = number_at(part(row, 0), 0)?;
    let [first, second] = numbers::<2>(part(row, 1))?;
    let mut table = BoardDecodeTable::fresh(alloc, bytes as usize).ok()?;
    let was = constant_of(&table.fetch(first, 0x2005, 0))?;
    let other = constant_of(&table.fetch(second, 0x2006, 0))?;
    let is_kept = table.kept(first).is_some() && table.kept(second).is_some();
    let still = constant_of(&table.fetch(second, 0x2007, 0))?;
    let now = constant_of(&table.fetch(first, 0x2007, 0))?;
    match (was, other, is_kept, still, now) {
        (5, 6, true, 6, 5) => "1".to_string(alloc).ok(),
        (5, 6, false, 6, 7) => "0".to_string(alloc).ok(),
        _ => format!(in alloc; "{was} {other} {is_kept} {still} {now}").ok(),
    }
}

/// Returns the outcome of a row of fetches, by the table that its second line names.
fn fetches(alloc: Global, row: &str) -> io::Result<Outcome> {
    let Some(first) = row.lines().nth(1) else {
        return Ok(Outcome::Unreadable);
    };
    let Some(bytes) = number_at(first, 1) else {
        return Ok(Outcome::Unreadable);
    };
    let bytes = bytes as usize;
    match word(first, 0) {
        "each-time" => run(alloc, row, DecodeEachTime::fresh(alloc, bytes)?),
        "board-table" => run(alloc, row, BoardDecodeTable::fresh(alloc, bytes)?),
        _ => Ok(Outcome::Unreadable),
    }
}

/// Runs the lines of a row on a table.
fn run<K: KeptCode + Drop>(alloc: Global, row: &str, table: K) -> io::Result<Outcome> {
    run_lines(alloc, row, 2, &mut OnTable { table })
}

/// A table that is fetched from, and is told of writes.
#[derive(Drop)]
struct OnTable<K> {
    table: K,
}

impl<K: KeptCode> Lines for OnTable<K> {
    fn answer(&mut self, alloc: Global, line: &str) -> Option<String> {
        let asked = part(line, 0);
        let address = number_at(asked, 1)?;
        match word(asked, 0) {
            "wrote" => {
                self.table.wrote(address, number_at(asked, 2)?);
                Some(String::new(alloc))
            }
            "fetch" => {
                let fetched = self.table.fetch(address, halfword_at(asked, 2)?, 0);
                match constant_of(&fetched) {
                    Some(constant) => format!(in alloc; "{constant:X}").ok(),
                    None => word_of(&fetched).to_string(alloc).ok(),
                }
            }
            _ => None,
        }
    }
}
