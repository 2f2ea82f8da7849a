//! Machines of the small board, with a script and with values in their places.

use super::elf_file::NO_SEGMENTS;
use super::words::{push_line, split_line};
use board::read_board;
use devices::Poke;
use elf::load;
use machine::{
    Board, Decider, Exceptions, InterruptNumber, KeptCode, Machine, Place, PlaceError,
    ScriptedEvent, Signal, SysTickState,
};
use platform::exception::MAX_INTERRUPTS;
use std::alloc::{AllocError, Global};
use test_tables::{byte_at, number_at, word};

/// The small board: 4 KiB of flash at 0 and 8 KiB of RAM.
pub const SMALL: &str =
    "flash_base = 0\nflash_size = 4096\nram_size = 8192\npriority_bits = 4\nlines = 8\n";

/// The same without its lines.
const MEMORY: &str = "flash_base = 0\nflash_size = 4096\nram_size = 8192\npriority_bits = 4\n";

/// The interrupt line that an event is on, if there can be one of its number.
fn interrupt_number(line: &str) -> Option<InterruptNumber> {
    let number = byte_at(line, 3)?;
    if number < MAX_INTERRUPTS {
        Some(InterruptNumber::new(number))
    } else {
        None
    }
}

/// What happens by the words after the tick of an event.
fn signal(line: &str) -> Option<Signal> {
    match word(line, 2) {
        "nmi" => Some(Signal::Nmi),
        "rise" => Some(Signal::Rise(interrupt_number(line)?)),
        "fall" => Some(Signal::Fall(interrupt_number(line)?)),
        "pulse" => Some(Signal::Pulse(interrupt_number(line)?)),
        "poke" => Some(Signal::Poke(Poke {
            address: number_at(line, 3)?,
            value: number_at(line, 4)?,
        })),
        _ => None,
    }
}

/// The event of a line `event TICK SIGNAL LINE`, or `event TICK poke ADDRESS VALUE`.
pub fn event(line: &str) -> Option<ScriptedEvent> {
    if word(line, 0) != "event" {
        return None;
    }
    Some(ScriptedEvent {
        at: u64::from(number_at(line, 1)?),
        what: signal(line)?,
    })
}

/// The place and the value of a line `word ADDRESS VALUE`, `reg NUMBER VALUE` or `special NUMBER
/// VALUE`.
pub fn place(line: &str) -> Option<Place> {
    let at = number_at(line, 1)?;
    let value = number_at(line, 2)?;
    match word(line, 0) {
        "word" => Some(Place::Word(at, value)),
        "reg" => Some(Place::Reg(byte_at(line, 1)?, value)),
        "special" => Some(Place::Special(byte_at(line, 1)?, value)),
        _ => None,
    }
}

/// The events of these lines.
fn script(alloc: Global, text: &str) -> Result<Vec<ScriptedEvent>, AllocError> {
    let mut script = Vec::new(alloc);
    'lines: for line in text.lines().skip(1) {
        if let Some(ScriptedEvent { at, what }) = event(line) {
            script.push(ScriptedEvent { at, what })?;
        }
    }
    Ok(script)
}

/// A second RAM of 8 KiB at 0x10000000.
const SECOND_RAM: &str = "ram = [{ base = 0x1000_0000, size = 0x2000 }]\n";

/// The text of the small board with what the lines `board`, `second` and `device` of a row say.
fn board_text(alloc: Global, row: &str) -> Option<String> {
    let (mut lines, mut regions) = (8, 8);
    let mut has_second = false;
    let mut devices = String::new(alloc);
    'lines: for line in row.lines().skip(1) {
        let (name, rest) = split_line(line);
        match name {
            "board" => {
                lines = number_at(rest, 0)?;
                regions = number_at(rest, 1)?;
            }
            "second" => has_second = true,
            "device" => {
                push_line(&mut devices, rest)?;
                push_line(&mut devices, ",")?;
            }
            _ => {}
        }
    }
    let second = if has_second { SECOND_RAM } else { "" };
    let devices = devices.as_str();
    format!(in alloc;
        "{MEMORY}lines = {lines}\nregions = {regions}\n{second}device = [{devices}]\n"
    ).ok()
}

/// The small board with the events, the numbers and the devices of a row.
pub fn small_board(alloc: Global, row: &str) -> Option<Board> {
    let mut board = read_board(alloc, board_text(alloc, row)?.as_str()).ok()?;
    board.events = script(alloc, row).ok()?;
    Some(board)
}

/// Places an address at each entry of the vector table from that of NMI to that of line 7.
pub fn place_vectors<D: Decider, C: KeptCode, L: Exceptions, U: SysTickState>(
    machine: &mut Machine<D, C, L, U>,
    address: u32,
) -> Result<(), PlaceError> {
    'entries: for entry in 2..24_u32 {
        machine.place(Place::Word(4 * entry, address))?;
    }
    Ok(())
}

/// A machine of the small board with the events of these lines.
pub fn scripted<D: Decider, C: KeptCode, L: Exceptions, U: SysTickState>(
    alloc: Global,
    text: &str,
) -> Option<Machine<D, C, L, U>> {
    let image = load(&NO_SEGMENTS).ok()?;
    let board = small_board(alloc, text)?;
    Machine::new(alloc, &image, &board).ok()
}
