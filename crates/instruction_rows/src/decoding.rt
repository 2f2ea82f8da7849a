//! What halfwords mean.

ghost use Rattle.std.specs.Prelude.{◌<◌};

use crate::operands::all_operands;
use decode::{Decoded, decode, is_long};
use std::alloc::Global;
use std::io;
use test_tables::{Outcome, compared, halfword_at, part, rest};

/// Returns the outcome of a row of a table of encodings.
pub fn outcome(alloc: Global, table: &str, row: &str) -> io::Result<Outcome> {
    match table {
        "short" | "long_data" | "long_control" | "long_others" => {
            compared(alloc, row, instruction(alloc, row))
        }
        "stops" => compared(alloc, row, stop(alloc, row)),
        "undefined" => compared(alloc, "undefined", meaning(alloc, row)),
        "coprocessors" => compared(alloc, "coprocessor", meaning(alloc, row)),
        "lengths" => compared(alloc, rest(row, 1), length(alloc, row)),
        _ => Ok(Outcome::Unreadable),
    }
}

/// The two halfwords in a line from that place on.
fn halfwords_at(line: &str, place: usize) -> Option<(u16, u16)>
    requires { place < 8 }
{
    Some((halfword_at(line, place)?, halfword_at(line, place + 1)?))
}

/// The text of a line after that many words.
fn text_after(line: &str, words: usize) -> &str
    requires { words < 16 }
{
    line.trim().splitn(words + 1, ' ').nth(words).unwrap_or("")
}

/// What halfwords mean, in a word.
pub fn word_of(decoded: &Decoded) -> &'static str {
    match decoded {
        Decoded::Instr(_) => "instruction",
        Decoded::Unpredictable(_, _) => "stop",
        Decoded::Undefined => "undefined",
        Decoded::NoCoprocessor => "coprocessor",
    }
}

/// The line of two halfwords that are an instruction, with the text of the row.
fn instruction(alloc: Global, row: &str) -> Option<String> {
    let (hw1, hw2) = halfwords_at(row, 0)?;
    let decoded = decode(hw1, hw2);
    let Decoded::Instr(coded) = &decoded else {
        let word = word_of(&decoded);
        return format!(in alloc; "{hw1:04X} {hw2:04X} {word}").ok();
    };
    let [variant, a, b, c, d, e, f, g] = all_operands(&coded.instruction)?;
    let (length, place) = (coded.length.bytes(), coded.place as u32);
    let mut line = format!(in alloc; "{hw1:04X} {hw2:04X} {variant:X} {length:X} {place:X}").ok()?;
    'operands: for operand in [a, b, c, d, e, f, g] {
        write!(line, " {operand:X}").ok()?;
    }
    let text = text_after(row, 12);
    write!(line, " {text}").ok()?;
    Some(line)
}

/// The line of two halfwords that stop, and of their neighbour, with the text of the row where the neighbour is an
/// instruction.
fn stop(alloc: Global, row: &str) -> Option<String> {
    let (hw1, hw2) = halfwords_at(row, 0)?;
    let (near1, near2) = halfwords_at(row, 4)?;
    let stopped = decode(hw1, hw2);
    let Decoded::Unpredictable(place, cause) = &stopped else {
        let word = word_of(&stopped);
        return format!(in alloc; "{hw1:04X} {hw2:04X} {word}").ok();
    };
    let (place, cause) = (*place as u8, *cause as u8);
    let neighbour = decode(near1, near2);
    let text = match &neighbour {
        Decoded::Instr(_) => text_after(row, 6),
        Decoded::Unpredictable(_, _) | Decoded::Undefined | Decoded::NoCoprocessor => {
            word_of(&neighbour)
        }
    };
    format!(in alloc; "{hw1:04X} {hw2:04X} {place:X} {cause:X} {near1:04X} {near2:04X} {text}").ok()
}

/// What the two halfwords of a row mean.
fn meaning(alloc: Global, row: &str) -> Option<String> {
    let (hw1, hw2) = halfwords_at(row, 0)?;
    word_of(&decode(hw1, hw2)).to_string(alloc).ok()
}

/// How many bytes the instruction of a first halfword has.
fn length(alloc: Global, row: &str) -> Option<String> {
    let bytes = if is_long(halfword_at(part(row, 0), 0)?) {
        4
    } else {
        2
    };
    format!(in alloc; "{bytes}").ok()
}
