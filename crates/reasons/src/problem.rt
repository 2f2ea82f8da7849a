//! What is wrong with a key, in the words of a message.

use crate::keys::Key;
use crate::text::write_key;
use board::device_ranges::{MAX_BYTES_OF_DEVICES, PPB_BASE, PPB_SIZE, SPACE};
use messages::Quoted;
use platform::map::RAM_BASE;
use std::io;
use std::io::Write;
use toml::Value;

/// A second RAM ends here, or before.
const SECOND_END: u32 = 0x4000_0000;

/// Or it begins here, or after.
const UPPER_BASE: u32 = 0x6000_0000;

/// And ends here, or before.
const UPPER_END: u32 = 0xA000_0000;

/// What is wrong in a table of a board.
#[derive(Clone, Copy)]
pub enum Problem<'a> {
    /// A key isn't there.
    Missing(Key),
    /// The value of a key isn't one that it takes.
    Value(Key, &'a Value),
    /// The value of a key isn't of the type that it takes.
    Kind(Key, &'a Value),
    /// The value of a key that takes an integer isn't one.
    Integer(Key, &'a Value),
    /// The line of an event, None where it's missing, isn't one of the board's, and how many it has.
    Line(Option<&'a Value>, u64),
    /// A list of tables has this many, which is too many.
    Count(Key, usize),
    /// A key isn't known, and which are.
    Unknown(&'a str, &'static str),
    /// A key of the board is in an event.
    Misplaced(&'a str),
    /// The tick of an event is below that of the event before it.
    Order(u64, u64),
    /// Flash at this base, with this size, ends too high.
    FlashEnd(u64, u64),
    /// A second RAM at this base, with this size, has bytes where there can't be any, or bytes of flash or RAM.
    RamSpan(u64, u64),
    /// Values of a device don't go together, or with the board.
    Device(DeviceFault),
    /// A key is without the other key that it goes with.
    Alone(&'static str, &'static str),
}

/// Which values of a device don't go together, or with the board.
#[derive(Clone, Copy)]
pub enum DeviceFault {
    /// A device at this base, with this size, ends past the address space, or has bytes of memory or of the PPB.
    Span(u64, u64),
    /// The devices before have this many bytes, and with this size there would be too many.
    Bytes(u64, u64),
    /// `ones` and `zeros` have a bit in common.
    Bits(u32, u32),
    /// A device drives this line.
    Driven(u64),
    /// A device with this line counts.
    Counting(u64),
    /// The first word of a device with this line is that of a device before it.
    Hidden(u64),
}

/// A part of a board.
#[derive(Clone, Copy)]
pub enum Part {
    /// The board itself, or a list of tables.
    Board,
    /// The table of the second RAM.
    SecondRam,
    /// The device with this number, from 1.
    Device(usize),
    /// The event with this number, from 1.
    Event(usize),
}

/// A problem of a part of a board.
#[derive(Clone, Copy)]
pub struct PartProblem<'a> {
    pub part: Part,
    pub problem: Problem<'a>,
}

/// Writes a problem.
pub fn write_problem<W: Write>(out: &mut W, problem: &Problem<'_>) -> io::Result<()> {
    match *problem {
        Problem::Missing(key) => {
            let (name, takes) = (key.name, key.takes);
            writeln!(out, "the key {name} is missing: it takes {takes}")
        }
        Problem::Value(key, value) => write_range(out, key, value),
        Problem::Kind(key, value) => write_kind(out, key, value),
        Problem::Integer(key, value) => write_integer(out, key, value),
        Problem::Line(value, lines) => write_line(out, value, lines),
        Problem::Count(key, count) => {
            let (name, takes) = (key.name, key.takes);
            writeln!(out, "{name} has {count} tables: it takes {takes}")
        }
        Problem::Unknown(name, known) => {
            write_key(out, name)?;
            writeln!(out, " is no key here: the keys are {known}")
        }
        Problem::Misplaced(name) => writeln!(
            out,
            "{name} is a key of the board: it stands before the first [[event]]"
        ),
        Problem::Order(at, before) => writeln!(
            out,
            "at is {at}, and the event before it is at {before}: events come in the order of at"
        ),
        Problem::FlashEnd(base, size) => writeln!(
            out,
            "flash_base is {base} and flash_size {size}: their sum is at most {RAM_BASE}"
        ),
        Problem::RamSpan(base, size) => write_span(out, base, size),
        Problem::Device(fault) => write_fault(out, fault),
        Problem::Alone(name, other) => {
            writeln!(out, "{name} is no key here: it goes with {other}")
        }
    }
}

/// Writes which values of a device don't go together, or with the board.
fn write_fault<W: Write>(out: &mut W, fault: DeviceFault) -> io::Result<()> {
    match fault {
        DeviceFault::Span(base, size) => writeln!(
            out,
            "base is {base} and size {size}: a device ends at {SPACE} or below, and has no byte of flash, of a RAM or \
             of the {PPB_SIZE} bytes of the Private Peripheral Bus at {PPB_BASE}"
        ),
        DeviceFault::Bytes(before, size) => writeln!(
            out,
            "size is {size}, and the devices before it have {before} bytes: the devices of a board have \
             {MAX_BYTES_OF_DEVICES} at most"
        ),
        DeviceFault::Bits(ones, zeros) => writeln!(
            out,
            "ones is {ones} and zeros {zeros}: no bit is in both"
        ),
        DeviceFault::Driven(line) => writeln!(out, "line is {line}: a device drives it"),
        DeviceFault::Counting(line) => writeln!(
            out,
            "line is {line}, and counts is true: a device that counts has no line"
        ),
        DeviceFault::Hidden(line) => writeln!(
            out,
            "line is {line}: the word at base is that of a device before it, and a line needs a word of its own"
        ),
    }
}

/// Writes where a second RAM can be.
fn write_span<W: Write>(out: &mut W, base: u64, size: u64) -> io::Result<()> {
    writeln!(
        out,
        "base is {base} and size {size}: the second RAM is below {SECOND_END}, or from {UPPER_BASE} on and below \
         {UPPER_END}, and has no byte of flash or RAM"
    )
}

/// Writes a value that its key doesn't take.
fn write_range<W: Write>(out: &mut W, key: Key, value: &Value) -> io::Result<()> {
    let (name, takes) = (key.name, key.takes);
    write!(out, "{name} is ")?;
    write_value(out, value)?;
    writeln!(out, ": it takes {takes}")
}

/// Writes a value of a type that its key doesn't take.
fn write_kind<W: Write>(out: &mut W, key: Key, value: &Value) -> io::Result<()> {
    let (name, takes) = (key.name, key.takes);
    write!(out, "{name} is ")?;
    write_typed(out, value)?;
    writeln!(out, ": it takes {takes}")
}

/// Writes a value that isn't an integer, of a key that takes one.
fn write_integer<W: Write>(out: &mut W, key: Key, value: &Value) -> io::Result<()> {
    let (name, takes) = (key.name, key.takes);
    write!(out, "{name} is ")?;
    write_typed(out, value)?;
    write!(out, ": it takes {takes}")?;
    write_form(out, value)
}

/// Writes what is wrong with the line of an event on a board of this many lines.
fn write_line<W: Write>(out: &mut W, value: Option<&Value>, lines: u64) -> io::Result<()> {
    match value {
        None => write!(out, "the key line is missing")?,
        Some(value) if value.is_integer() => write!(out, "line is {value}")?,
        Some(value) => {
            write!(out, "line is ")?;
            write_typed(out, value)?;
        }
    }
    write_line_range(out, lines)?;
    match value {
        Some(value) if lines > 0 => write_form(out, value),
        Some(_) | None => writeln!(out),
    }
}

/// Writes which line an event takes on a board of this many lines.
fn write_line_range<W: Write>(out: &mut W, lines: u64) -> io::Result<()> {
    match lines {
        0 => write!(
            out,
            ", and the board has no lines: only NMI can have events (nmi = true)"
        ),
        1 => write!(out, ": it takes 0 (lines is 1)"),
        _ => {
            let last = lines.saturating_sub(1);
            write!(
                out,
                ": it takes an integer from 0 to {last} (lines is {lines})"
            )
        }
    }
}

/// Ends the line of a value that isn't the integer that its key takes: says how an integer is written
/// where the value may be meant as one.
fn write_form<W: Write>(out: &mut W, value: &Value) -> io::Result<()> {
    if value.is_float() || value.is_str() {
        write!(out, "; an integer has no point and no quotes")?;
    }
    writeln!(out)
}

/// Writes a value and its type; of a list or a table its type alone.
fn write_typed<W: Write>(out: &mut W, value: &Value) -> io::Result<()> {
    let kind = kind_of(value);
    if value.is_array() || value.is_table() {
        return write!(out, "{kind}");
    }
    write_value(out, value)?;
    write!(out, ", {kind}")
}

/// Writes a value. In a string, what a display hides is escaped, and a long one is cut.
fn write_value<W: Write>(out: &mut W, value: &Value) -> io::Result<()> {
    match value.as_str() {
        Some(text) => write!(out, "{}", Quoted(text)),
        None => write!(out, "{value}"),
    }
}

/// Returns the type of a value, with its article.
fn kind_of(value: &Value) -> &'static str {
    match value {
        Value::String(_) => "a string",
        Value::Integer(_) => "an integer",
        Value::Float(_) => "a float",
        Value::Boolean(_) => "a boolean",
        Value::Datetime(_) => "a date or time",
        Value::Array(_) => "an array",
        Value::Table(_) => "a table",
    }
}
