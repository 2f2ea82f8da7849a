//! Words and numbers that a page has of values.

use page_text::escape::{ConsoleText, Escaped};
use page_text::fault_bits::{CFSR_BITS, FaultBit, FaultNames, HFSR_BITS};
use page_text::numbers::{ByteCount, Thousands};
use page_text::settings::{RegionWords, SubregionsOff};
use page_text::words::ExceptionName;
use std::alloc::Global;
use std::{io, str};
use test_tables::{
    Outcome, byte_at, compared, first_difference, halfword_at, long_at, number_at, part, rest, word,
};

/// Returns the outcome of a row of a table of words.
pub fn outcome(alloc: Global, table: &str, row: &str) -> io::Result<Outcome> {
    match table {
        "numbers" => exact(alloc, row, number(alloc, row)),
        "sizes" => exact(alloc, row, size(alloc, row)),
        "texts" => exact(alloc, row, text(alloc, row)),
        "consoles" => exact(alloc, row, console(alloc, row)),
        "cuts" => exact(alloc, row, cut(alloc, row)),
        "permissions" => compared(alloc, rest(row, 1), permissions(alloc, row)),
        "settings" => compared(alloc, rest(row, 1), setting(alloc, row)),
        "fault_names" => exact(alloc, row, fault_names(alloc, row)),
        "fault_bits" => compared(alloc, rest(row, 1), fault_bit(alloc, row)),
        "exceptions" => exact(alloc, row, exception(alloc, row)),
        _ => Ok(Outcome::Unreadable),
    }
}

/// Compares the second part of a row with what comes, character by character.
fn exact(alloc: Global, row: &str, came: Option<String>) -> io::Result<Outcome> {
    match came {
        Some(came) => Ok(first_difference(alloc, part(row, 1), came.as_str())?),
        None => Ok(Outcome::Unreadable),
    }
}

/// The number of a row, with commas.
fn number(alloc: Global, row: &str) -> Option<String> {
    Thousands(long_at(row, 0)?).to_string(alloc).ok()
}

/// The number of bytes of a row, with its unit.
fn size(alloc: Global, row: &str) -> Option<String> {
    ByteCount(long_at(row, 0)?).to_string(alloc).ok()
}

/// The bytes of a part.
fn bytes_of(alloc: Global, part: &str) -> Option<Vec<u8>> {
    let mut bytes = Vec::new(alloc);
    'bytes: for byte in part.split_whitespace() {
        bytes.push(byte_at(byte, 0)?).ok()?;
    }
    Some(bytes)
}

/// What a page has of a text from outside.
fn text(alloc: Global, row: &str) -> Option<String> {
    let bytes = bytes_of(alloc, part(row, 0))?;
    let text = str::from_utf8(bytes.as_slice()).ok()?;
    Escaped(text).to_string(alloc).ok()
}

/// What a page has of bytes of the console, with words in place of tabs and line feeds.
fn console(alloc: Global, row: &str) -> Option<String> {
    let bytes = bytes_of(alloc, part(row, 0))?;
    let text = ConsoleText(bytes.as_slice()).to_string(alloc).ok()?;
    let mut shown = String::new(alloc);
    'characters: for character in text.as_str().chars() {
        match character {
            '\t' => shown.push_str("{tab}").ok()?,
            '\n' => shown.push_str("{line feed}").ok()?,
            character => shown.push(character).ok()?,
        }
    }
    Some(shown)
}

/// How many bytes a page has of a text that is one character again and again, and the last two of them.
fn cut(alloc: Global, row: &str) -> Option<String> {
    let (number, character) = part(row, 0).split_once("times")?;
    let character = bytes_of(alloc, character)?;
    let mut bytes = Vec::new(alloc);
    'characters: for _ in 0..number_at(number, 0)? {
        bytes.extend_from_slice(character.as_slice()).ok()?;
    }
    let text = str::from_utf8(bytes.as_slice()).ok()?;
    let shown = Escaped(text).to_string(alloc).ok()?;
    let length = shown.len();
    let end = shown.as_str().get(length.checked_sub(2)?..)?;
    format!(in alloc; "{length} {end}").ok()
}

/// The words of the region with the AP and XN of a row, for privileged and for unprivileged code.
fn permissions(alloc: Global, row: &str) -> Option<String> {
    let access_permission = number_at(row, 0)?.wrapping_mul(0x100_0000);
    let execute_never = number_at(row, 1)?.wrapping_mul(0x1000_0000);
    let words = RegionWords {
        base: 0,
        attributes: access_permission | execute_never | 1,
    };
    let privileged = words.permission(true);
    let unprivileged = words.permission(false);
    format!(in alloc; "{privileged} | {unprivileged}").ok()
}

/// What a page says of the RBAR and the RASR of a row.
fn setting(alloc: Global, row: &str) -> Option<String> {
    let words = RegionWords {
        base: number_at(row, 0)?,
        attributes: number_at(row, 1)?,
    };
    let enabled = if words.is_enabled() { "on" } else { "off" };
    let (first, last, bytes) = (words.first(), words.last(), words.bytes());
    let off = SubregionsOff(words);
    format!(in alloc; "{enabled} | {first:X} {last:X} {bytes:X} | {off}").ok()
}

/// The names of the bits in the CFSR and the HFSR of a row.
fn fault_names(alloc: Global, row: &str) -> Option<String> {
    let names = FaultNames {
        cfsr: number_at(row, 0)?,
        hfsr: number_at(row, 1)?,
    };
    names.to_string(alloc).ok()
}

/// The name and the meaning of the bit of a row: CFSR or HFSR, and its number in decimal.
fn fault_bit(alloc: Global, row: &str) -> Option<String> {
    let number: u32 = word(row, 1).parse().ok()?;
    let value = 1_u32.checked_shl(number)?;
    let found = match word(row, 0) {
        "CFSR" => bit_of(&CFSR_BITS, value),
        "HFSR" => bit_of(&HFSR_BITS, value),
        _ => return None,
    };
    let (name, meaning) = found.unwrap_or(("none", ""));
    format!(in alloc; "{name} | {meaning}").ok()
}

/// The name and the meaning of the only bit that is set in a value.
fn bit_of(bits: &[FaultBit], value: u32) -> Option<(&'static str, &'static str)> {
    'bits: for bit in bits {
        if bit.mask == value {
            return Some((bit.name, bit.meaning));
        }
    }
    None
}

/// The name of an exception.
fn exception(alloc: Global, row: &str) -> Option<String> {
    ExceptionName(halfword_at(row, 0)?).to_string(alloc).ok()
}
