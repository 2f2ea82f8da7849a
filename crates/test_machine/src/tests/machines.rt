//! Machines of the small board, with pulses of line 0 and with values in their places.

use elf::load;
use machine::{
    Board, Decider, Exceptions, InterruptNumber, KeptCode, Machine, Place, SMALL_BOARD,
    ScriptedEvent, Signal, SysTickState,
};
use std::alloc::Global;
use test_tables::{byte_at, number_at, word};

/// An ELF file without program headers: all of flash is 0xFF. Its lines are e_ident, then the fields up to e_entry, up
/// to e_flags, and the others.
pub(super) static NO_SEGMENTS: [u8; 52] = *b"\
\x7fELF\x01\x01\x01\0\0\0\0\0\0\0\0\0\
\x02\0\x28\0\x01\0\0\0\0\0\0\0\
\x34\0\0\0\0\0\0\0\0\0\0\x05\
\x34\0\x20\0\0\0\0\0\0\0\0\0";

/// The place and the value of a line `word ADDRESS VALUE`, `reg NUMBER VALUE` or `special NUMBER
/// VALUE`.
fn place(line: &str) -> Option<Place> {
    let at = number_at(line, 1)?;
    let value = number_at(line, 2)?;
    match word(line, 0) {
        "word" => Some(Place::Word(at, value)),
        "reg" => Some(Place::Reg(byte_at(line, 1)?, value)),
        "special" => Some(Place::Special(byte_at(line, 1)?, value)),
        _ => None,
    }
}

/// A machine of the small board, of which line 0 is pulsed at these ticks, with the values of these lines in their
/// places.
pub(super) fn pulsed_machine<D: Decider, C: KeptCode, L: Exceptions, U: SysTickState>(
    alloc: Global,
    pulses: &[u64],
    text: &str,
) -> Option<Machine<D, C, L, U>> {
    let mut events = Vec::new(alloc);
    'pulses: for at in pulses {
        let what = Signal::Pulse(InterruptNumber::new(0));
        events.push(ScriptedEvent { at: *at, what }).ok()?;
    }
    let image = load(&NO_SEGMENTS).ok()?;
    let board = Board {
        layout: SMALL_BOARD,
        events,
        devices: Vec::new(alloc),
    };
    let mut machine = Machine::new(alloc, &image, &board).ok()?;
    'lines: for line in text.lines() {
        machine.place(place(line)?).ok()?;
    }
    Some(machine)
}

/// A machine of the small board with the values of these lines in their places.
pub(super) fn machine_with<D: Decider, C: KeptCode, L: Exceptions, U: SysTickState>(
    alloc: Global,
    text: &str,
) -> Option<Machine<D, C, L, U>> {
    pulsed_machine(alloc, &[], text)
}
