//! What a board has of its text: its numbers, its events, and its devices by each value of a table and each default.

use crate::boards::text_of_row;
use board::{Board, Device, ScriptedEvent, Signal, Stores, read_board};
use std::alloc::Global;
use std::io;
use test_tables::{Outcome, first_difference};

/// Returns the outcome of a row, whose lines after the text say what the board has.
pub fn outcome(alloc: Global, row: &str) -> io::Result<Outcome> {
    match (contents(alloc, row), wanted(alloc, row)) {
        (Some(came), Some(wanted)) => {
            Ok(first_difference(alloc, wanted.as_str(), came.as_str())?)
        }
        (_, _) => Ok(Outcome::Unreadable),
    }
}

/// The lines of a row that say what the board has.
fn wanted(alloc: Global, row: &str) -> Option<String> {
    let mut lines = String::new(alloc);
    'lines: for line in row.lines().skip(1) {
        if !line.starts_with('|') {
            writeln!(lines, "{line}").ok()?;
        }
    }
    Some(lines)
}

/// The lines that say what the board of a row has.
fn contents(alloc: Global, row: &str) -> Option<String> {
    let text = text_of_row(alloc, row)?;
    let board = read_board(alloc, text.as_str()).ok()?;
    let mut lines = String::new(alloc);
    write_layout(&mut lines, &board)?;
    'events: for event in board.events.as_slice() {
        write_event(&mut lines, event)?;
    }
    'devices: for device in board.devices.as_slice() {
        write_device(&mut lines, device)?;
        write_effects(&mut lines, device)?;
    }
    Some(lines)
}

/// Writes the line of a board's numbers, and that of its second RAM.
fn write_layout(lines: &mut String, board: &Board) -> Option<()> {
    let layout = &board.layout;
    let (base, flash, ram) = (layout.flash_base, layout.flash_size, layout.ram_size);
    let (bits, interrupts) = (layout.priority_bits, layout.interrupts);
    writeln!(
        lines,
        "layout {base:X} {flash:X} {ram:X} {bits:X} {interrupts:X}"
    )
    .ok()?;
    match layout.second_ram {
        Some(second) => {
            let (base, size) = (second.base, second.size);
            writeln!(lines, "second {base:X} {size:X}").ok()
        }
        None => writeln!(lines, "second none").ok(),
    }
}

/// Writes the line of an event.
fn write_event(lines: &mut String, event: &ScriptedEvent) -> Option<()> {
    let at = event.at;
    match event.what {
        Signal::Rise(line) => {
            let number = line.number();
            writeln!(lines, "event {at:X} rise {number:X}").ok()
        }
        Signal::Fall(line) => {
            let number = line.number();
            writeln!(lines, "event {at:X} fall {number:X}").ok()
        }
        Signal::Pulse(line) => {
            let number = line.number();
            writeln!(lines, "event {at:X} pulse {number:X}").ok()
        }
        Signal::Nmi => writeln!(lines, "event {at:X} nmi").ok(),
        Signal::Poke(poke) => {
            let (address, value) = (poke.address, poke.value);
            writeln!(lines, "event {at:X} poke {address:X} {value:X}").ok()
        }
    }
}

/// The word of what a store does.
fn word_of(stores: Stores) -> &'static str {
    match stores {
        Stores::Kept => "kept",
        Stores::Ignored => "ignored",
        Stores::OnesClear => "ones-clear",
        Stores::ZerosClear => "zeros-clear",
    }
}

/// A word for whether it is so.
fn yes_if(is_so: bool) -> &'static str {
    if is_so { "yes" } else { "no" }
}

/// Writes the line of what the words of a device hold and read as.
fn write_device(lines: &mut String, device: &Device) -> Option<()> {
    let (base, size, start) = (device.base, device.size, device.start);
    write!(lines, "device {base:X} size {size:X} start {start:X}").ok()?;
    let (ones, zeros, stores) = (device.ones, device.zeros, word_of(device.stores));
    write!(lines, " ones {ones:X} zeros {zeros:X} stores {stores}").ok()?;
    let (follows, by) = (device.follows, device.by);
    write!(lines, " follows {follows:X} by {by:X}").ok()?;
    match device.of {
        Some(of) => write!(lines, " of {of:X}").ok()?,
        None => write!(lines, " of none").ok()?,
    }
    let (counts, console) = (yes_if(device.counts), yes_if(device.console));
    writeln!(lines, " counts {counts} console {console}").ok()
}

/// Appends a word and two numbers to a line, or `none`.
fn write_pair(lines: &mut String, word: &str, pair: Option<(u32, u32)>) -> Option<()> {
    match pair {
        Some((first, second)) => write!(lines, " {word} {first:X} {second:X}").ok(),
        None => write!(lines, " {word} none").ok(),
    }
}

/// Writes the line of what accesses to a device do, and of its interrupt.
fn write_effects(lines: &mut String, device: &Device) -> Option<()> {
    let load = match device.load_poke {
        Some(poke) => Some((poke.address, poke.value)),
        None => None,
    };
    let store = match device.store_poke {
        Some(poke) => Some((poke.address, poke.value)),
        None => None,
    };
    let line = match device.line {
        Some(line) => Some((u32::from(line.number), line.enable)),
        None => None,
    };
    lines.push_str("effects").ok()?;
    write_pair(lines, "load_poke", load)?;
    write_pair(lines, "store_poke", store)?;
    write_pair(lines, "line", line)?;
    lines.push('\n').ok()
}
