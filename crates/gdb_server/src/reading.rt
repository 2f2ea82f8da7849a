//! The answers that read the machine, or its board.

ghost use Rattle.std.specs.Prelude.{◌≡◌, ◌≤◌, length};
ghost use Rattle.gdb_server.specs.Replies.{activity_of, data_read, is_entering, memory_data, piece_data};
ghost use Rattle.gdb_server.specs.Replies.{register_data};
ghost use Rattle.gdb_texts.specs.Transfers.{memory_map};
ghost use Rattle.platform.specs.Boards.{numbers_of};

use crate::content::Data;
use crate::purposes::Reading;
use arrayvec::ArrayVec;
use devices::Device;
use gdb::register_values;
use gdb_texts::{Activity, ErrorCode, REGISTERS, Signal, description, put_memory_map};
use machine::{Decider, Exceptions, KeptCode, Layout, Machine, StepKind, SysTickState};

/// Returns whether the next step takes a vector: an exception is being entered.
fn is_entering(kind: Option<StepKind>) -> bool
    ensures { result ≡ is_entering kind }
{
    match kind {
        Some(StepKind::Vector) => true,
        Some(StepKind::Stack | StepKind::Sleep | StepKind::Instruction) | None => false,
    }
}

/// Returns what the machine is at.
pub fn activity_of<D: Decider, C: KeptCode, L: Exceptions, U: SysTickState>(
    machine: &Machine<D, C, L, U>,
) -> Activity
    ensures { result ≡ activity_of machine.now.state }
{
    if let Some(stop) = machine.stop() {
        return Activity::Stopped(stop);
    }
    let runs = machine.execution();
    if is_entering(machine.next_kind()) {
        Activity::Entry
    } else if runs.exception != 0 {
        Activity::Handler(runs.exception)
    } else if runs.privileged {
        Activity::Privileged
    } else {
        Activity::Unprivileged
    }
}

/// Returns the digits of the register of a number.
#[inline(never)]
fn register_data<D: Decider, C: KeptCode, L: Exceptions, U: SysTickState>(
    machine: &Machine<D, C, L, U>,
    number: u32,
) -> Result<Data, ErrorCode>
    ensures { result ≡ register_data machine.now.state number }
{
    if (number as usize) < REGISTERS {
        Ok(Data::of_word(register_values(machine)[number as usize]))
    } else {
        Err(ErrorCode::NoSuchPlace)
    }
}

/// Returns the digits of the bytes from an address on, as many as can be read.
#[inline(never)]
fn memory_data<D: Decider, C: KeptCode, L: Exceptions, U: SysTickState>(
    machine: &Machine<D, C, L, U>,
    address: u32,
    count: u32,
) -> Result<Data, ErrorCode>
    ensures { result ≡ memory_data machine.now.state address count }
{
    let data = Data::of_memory(machine, address, count);
    if data.is_empty() {
        Err(ErrorCode::NotReadable)
    } else {
        Ok(data)
    }
}

/// Returns a piece of a text, from an offset on.
#[inline(never)]
fn piece_data(text: &[u8], offset: u32, count: u32) -> Result<Data, ErrorCode>
    ensures { result ≡ piece_data text.now offset count }
{
    if text.len() < offset as usize {
        Err(ErrorCode::Malformed)
    } else {
        Ok(Data::of_piece(text, offset, count))
    }
}

/// The most bytes of the map of the memory.
const MAX_MAP: usize = 17_408;

/// Returns a piece of the map of the memory.
#[inline(never)]
fn map_piece(board: &Layout, devices: &[Device], offset: u32, count: u32) -> Result<Data, ErrorCode>
    requires { length devices.now ≤ 256 }
    ensures { result ≡ piece_data (memory_map (numbers_of board.now) devices.now) offset count }
{
    let mut map: ArrayVec<u8, MAX_MAP> = ArrayVec::new();
    put_memory_map(&mut map, board, devices);
    piece_data(map.as_slice(), offset, count)
}

/// Returns what a packet reads, after the last signal of a session on a board with these devices.
pub fn read<D: Decider, C: KeptCode, L: Exceptions, U: SysTickState>(
    signal: Signal,
    board: &Layout,
    devices: &[Device],
    machine: &Machine<D, C, L, U>,
    reading: Reading,
) -> Result<Data, ErrorCode>
    requires { length devices.now ≤ 256 }
    ensures { result ≡ data_read signal (numbers_of board.now) devices.now machine.now.state reading }
{
    match reading {
        Reading::StopReason => Ok(Data::of_signal(signal, machine)),
        Reading::Registers => Ok(Data::of_registers(machine)),
        Reading::Register(number) => register_data(machine, number),
        Reading::Memory(address, count) => memory_data(machine, address, count),
        Reading::Description(offset, count) => piece_data(description(), offset, count),
        Reading::MemoryMap(offset, count) => map_piece(board, devices, offset, count),
        Reading::Region(address) => Ok(Data::of_region(board, devices, address)),
        Reading::Thread => { Ok(Data::of_thread(activity_of(machine), machine.execution().asleep)) }
    }
}
