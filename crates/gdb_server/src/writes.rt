//! The packets that write to the machine.

ghost use Rattle.std.specs.Prelude.{◌≡◌, ◌+◌, ◌<◌, ◌≤◌, ◌^◌, is_some, length, slice_index};
ghost use Rattle.gdb.specs.Targets.{altered_if};
ghost use Rattle.gdb_server.specs.Writes.{Writes, after_place, are_there, block_written, byte_beside, byte_there};
ghost use Rattle.gdb_server.specs.Writes.{is_of_device};
ghost use Rattle.gdb_server.specs.Writes.{memory_written, register_after, registers_written, with_byte};
ghost use Rattle.gdb_server.specs.Writes.{with_bytes, word_beside, word_of, word_written, writes, written};
ghost use Rattle.platform.specs.Memory.{byte_at};

use crate::content::Data;
use crate::purposes::MachineChange;
use gdb::place_of;
use gdb_texts::{word_at, written_register};
use machine::{Decider, Exceptions, KeptCode, Machine, Place, PlaceError, SysTickState};
use platform::map::is_in_ppb;

/// Puts a value into its place, None into a register that no machine has. Returns why it was refused, if it was.
pub fn put<D: Decider, C: KeptCode, L: Exceptions, U: SysTickState>(
    machine: &mut Machine<D, C, L, U>,
    place: Option<Place>,
) -> Option<PlaceError>
    ensures { Writes (after_place machine.old.state (altered_if machine.old.state place)) machine.old machine.new
        result }
{
    match place {
        Some(place) => match machine.alter(place) {
            Ok(()) => None,
            Err(error) => Some(error),
        },
        None => Some(PlaceError::NoSuchPlace),
    }
}

/// Writes the register that comes after `index` others, from the digits of all registers.
fn put_register<D: Decider, C: KeptCode, L: Exceptions, U: SysTickState>(
    machine: &mut Machine<D, C, L, U>,
    digits: &[u8],
    index: u32,
) -> Option<PlaceError>
    requires { index < 23 }
    ensures { Writes (register_after machine.old.state digits.now index) machine.old machine.new result }
{
    let number = written_register(index);
    put(machine, place_of(number, word_at(digits, number)))
}

/// Writes all registers, from their digits, up to the first that is refused.
fn put_registers<D: Decider, C: KeptCode, L: Exceptions, U: SysTickState>(
    machine: &mut Machine<D, C, L, U>,
    digits: &[u8],
) -> Option<PlaceError>
    ensures { Writes (registers_written machine.old.state digits.now) machine.old machine.new result }
{
    'registers: for index in 0..23 {
        let refused = put_register(machine, digits, index);
        if refused.is_some() {
            return refused;
        }
    }
    None
}

/// Returns the byte of flash or RAM at an address, and 0 where there is none.
fn byte_there<D: Decider, C: KeptCode, L: Exceptions, U: SysTickState>(
    machine: &Machine<D, C, L, U>,
    address: u32,
) -> u8
    ensures { result ≡ byte_there machine.now.state.bus.memory address }
{
    match machine.byte(address) {
        Some(byte) => byte,
        None => 0,
    }
}

/// Returns the byte at an address once another byte is at `address`.
fn byte_beside<D: Decider, C: KeptCode, L: Exceptions, U: SysTickState>(
    machine: &Machine<D, C, L, U>,
    address: u32,
    byte: u8,
    other: u32,
) -> u8
    ensures { result ≡ byte_beside machine.now.state.bus.memory address byte other }
{
    if other == address {
        byte
    } else {
        byte_there(machine, other)
    }
}

/// Returns the word that has an address, with another byte there.
fn word_beside<D: Decider, C: KeptCode, L: Exceptions, U: SysTickState>(
    machine: &Machine<D, C, L, U>,
    address: u32,
    byte: u8,
) -> u32
    ensures { result ≡ word_beside machine.now.state.bus.memory address byte }
{
    let base = address / 4 * 4;
    byte_beside(machine, address, byte, base) as u32
        + byte_beside(machine, address, byte, base + 1) as u32 * 0x100
        + byte_beside(machine, address, byte, base + 2) as u32 * 0x1_0000
        + byte_beside(machine, address, byte, base + 3) as u32 * 0x100_0000
}

/// Writes a byte of flash or RAM.
fn put_byte<D: Decider, C: KeptCode, L: Exceptions, U: SysTickState>(
    machine: &mut Machine<D, C, L, U>,
    address: u32,
    byte: u8,
)
    ensures { machine.new ≡ record machine.old { state = with_byte machine.old.state address byte } }
{
    let word = word_beside(machine, address, byte);
    let _ = machine.alter(Place::Word(address / 4 * 4, word));
}

/// Writes bytes of flash or RAM, from an address on.
#[tactic(auto, unfolding(crate::specs::Writes::with_bytes))]
fn put_bytes<D: Decider, C: KeptCode, L: Exceptions, U: SysTickState>(
    machine: &mut Machine<D, C, L, U>,
    address: u32,
    bytes: &[u8],
)
    requires { address + length bytes.now ≤ 2 ^ 32 }
    ensures { machine.new ≡ record machine.old { state = with_bytes machine.old.state address bytes.now } }
{
    let mut at = address as u64;
    'bytes: for byte in bytes {
        put_byte(machine, at as u32, *byte);
        at += 1;
    }
}

/// Returns whether `length` bytes from an address on lie wholly in flash, in RAM or in the second RAM.
fn are_there<D: Decider, C: KeptCode, L: Exceptions, U: SysTickState>(
    machine: &Machine<D, C, L, U>,
    address: u32,
    length: usize,
) -> bool
    ensures { result ≡ are_there machine.now.state.bus.memory address length }
{
    length <= (1 << 32) - address as usize && machine.has_memory(address, length)
}

/// Writes bytes that are all in flash, or all in RAM.
fn put_block<D: Decider, C: KeptCode, L: Exceptions, U: SysTickState>(
    machine: &mut Machine<D, C, L, U>,
    address: u32,
    bytes: &[u8],
) -> Option<PlaceError>
    requires { address + length bytes.now ≤ 2 ^ 32 }
    ensures { Writes (block_written machine.old.state address bytes.now) machine.old machine.new result }
{
    if machine.stop().is_some() {
        return Some(PlaceError::Stopped);
    }
    put_bytes(machine, address, bytes);
    None
}

/// Returns a byte by its index, or 0 beyond the end.
fn byte_of(bytes: &[u8], index: usize) -> u32
    ensures value { result ≡ slice_index bytes.now index }
    ensures small { result < 256 }
{
    if index < bytes.len() {
        bytes[index] as u32
    } else {
        0
    }
}

/// Returns the word of four bytes, the lowest first.
fn word_of(bytes: &[u8]) -> u32
    ensures { result ≡ word_of bytes.now }
{
    byte_of(bytes, 0)
        + byte_of(bytes, 1) * 0x100
        + byte_of(bytes, 2) * 0x1_0000
        + byte_of(bytes, 3) * 0x100_0000
}

/// Returns whether a device has an address.
fn is_of_device<D: Decider, C: KeptCode, L: Exceptions, U: SysTickState>(
    machine: &Machine<D, C, L, U>,
    address: u32,
) -> bool
    ensures { result ≡ is_of_device machine.now.state.bus address }
{
    machine.byte(address).is_none() && machine.peek_memory_or_device(address).is_some()
}

/// Writes bytes that aren't in flash or RAM: a word of the Private Peripheral Bus or of a device.
fn put_word<D: Decider, C: KeptCode, L: Exceptions, U: SysTickState>(
    machine: &mut Machine<D, C, L, U>,
    address: u32,
    bytes: &[u8],
) -> Option<PlaceError>
    ensures { Writes (word_written machine.old.state address bytes.now) machine.old machine.new result }
{
    if !(is_in_ppb(address) || is_of_device(machine, address)) {
        return Some(PlaceError::NoSuchPlace);
    }
    if address % 4 != 0 || bytes.len() != 4 {
        return Some(PlaceError::NotAligned);
    }
    put(machine, Some(Place::Word(address, word_of(bytes))))
}

/// Writes bytes, from an address on, all of them or none.
#[tactic(auto, using(crate::proofs::Bytes::fits))]
fn put_memory<D: Decider, C: KeptCode, L: Exceptions, U: SysTickState>(
    machine: &mut Machine<D, C, L, U>,
    address: u32,
    bytes: &[u8],
) -> Option<PlaceError>
    ensures { Writes (memory_written machine.old.state address bytes.now) machine.old machine.new result }
{
    if bytes.is_empty() {
        return None;
    }
    if are_there(machine, address, bytes.len()) {
        put_block(machine, address, bytes)
    } else {
        put_word(machine, address, bytes)
    }
}

/// Returns whether a packet writes something.
pub fn writes(change: MachineChange, tail: &[u8]) -> bool
    ensures { result ≡ writes change tail.now }
{
    match change {
        MachineChange::Register(_) | MachineChange::Registers => true,
        MachineChange::Digits(_) | MachineChange::Bytes(_) => !tail.is_empty(),
    }
}

/// Writes what a packet asks for. Returns why it was refused, if it was.
pub fn write<D: Decider, C: KeptCode, L: Exceptions, U: SysTickState>(
    machine: &mut Machine<D, C, L, U>,
    change: MachineChange,
    tail: &[u8],
) -> Option<PlaceError>
    ensures { Writes (written machine.old.state change tail.now) machine.old machine.new result }
{
    match change {
        MachineChange::Register(number) => put(machine, place_of(number, word_at(tail, 0))),
        MachineChange::Registers => put_registers(machine, tail),
        MachineChange::Digits(address) => {
            let bytes = Data::of_digits(tail);
            put_memory(machine, address, bytes.as_slice())
        }
        MachineChange::Bytes(address) => put_memory(machine, address, tail),
    }
}
