//! The rows of the tests' tables. A table is a file (`tables`), or a text, of which each line is a row: parts between
//! bars, each of words between blanks. Numbers are hexadecimal.
#![tactic(auto)]

mod answers;
mod outcome;
mod tables;

pub use answers::{Lines, compared, rest, run_lines};
pub use outcome::{Outcome, first_difference, first_difference_of_bytes};
use std::test::Fail;
pub use tables::{Kinds, kind_of, run_tables};

/// What reads the rows of a table.
pub trait Rows {
    /// Returns whether a row holds. None where it can't be read.
    fn holds(&mut self, row: &str) -> Option<bool>;
}

/// Fails with the first row that doesn't hold or is empty, of a table with this between its rows. So
/// an empty table fails.
pub fn check_between<R: Rows>(table: &str, between: &str, rows: &mut R) -> Result<(), Fail> {
    'rows: for row in table.split(between) {
        if row.trim().is_empty() || rows.holds(row) != Some(true) {
            return Err(Fail::new(row));
        }
    }
    Ok(())
}

/// Fails with the first line of a table that doesn't hold.
pub fn check<R: Rows>(table: &str, rows: &mut R) -> Result<(), Fail> {
    check_between(table, "\n", rows)
}

/// The part at a place of a row, which is empty where the row has none there.
pub fn part(row: &str, place: usize) -> &str {
    row.split('|').nth(place).unwrap_or("").trim()
}

/// The word at a place of a part, which is empty where the part has none there.
pub fn word(part: &str, place: usize) -> &str {
    part.split_whitespace().nth(place).unwrap_or("")
}

/// The number that a word writes.
pub fn number(word: &str) -> Option<u32> {
    u32::from_str_radix(word, 16).ok()
}

/// The number at a place of a part.
pub fn number_at(part: &str, place: usize) -> Option<u32> {
    number(word(part, place))
}

/// The first numbers of a part.
pub fn numbers<const N: usize>(part: &str) -> Option<[u32; N]> {
    let mut numbers = [0; N];
    let mut words = part.split_whitespace();
    'places: for place in 0..N {
        numbers[place] = number(words.next()?)?;
    }
    Some(numbers)
}

/// The number of eight bits at a place of a part.
pub fn byte_at(part: &str, place: usize) -> Option<u8> {
    u8::from_str_radix(word(part, place), 16).ok()
}

/// The number of 16 bits at a place of a part.
pub fn halfword_at(part: &str, place: usize) -> Option<u16> {
    u16::from_str_radix(word(part, place), 16).ok()
}

/// The number of 64 bits at a place of a part.
pub fn long_at(part: &str, place: usize) -> Option<u64> {
    u64::from_str_radix(word(part, place), 16).ok()
}

/// Returns whether a word is the first of two, where it is one of them.
pub fn is_first(word: &str, first: &str, second: &str) -> Option<bool> {
    if word == first {
        Some(true)
    } else if word == second {
        Some(false)
    } else {
        None
    }
}

/// What a word means, by a table of words.
pub fn meaning<T: Copy>(words: &[(&str, T)], word: &str) -> Option<T> {
    'words: for (name, meant) in words {
        if *name == word {
            return Some(*meant);
        }
    }
    None
}

/// The two numbers of a word that has a colon between them.
pub fn pair(word: &str) -> Option<(u32, u32)> {
    let (first, second) = word.split_once(':')?;
    Some((number(first)?, number(second)?))
}

/// The row of a table whose first part is this name.
pub fn row_of<'a>(table: &'a str, name: &str) -> Option<&'a str> {
    'rows: for row in table.lines() {
        if part(row, 0) == name {
            return Some(row);
        }
    }
    None
}
