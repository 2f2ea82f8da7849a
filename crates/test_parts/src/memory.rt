//! Flash, RAM and the device window.

use crate::words::{request, shown};
use physical_memory::{Performed, PhysicalMemory, Request, Rule};
use platform::access::DoneAccess;
use platform::board::SMALL_BOARD;
use std::alloc::Global;
use std::io;
use test_tables::{Lines, Outcome, byte_at, compared, is_first, number_at, part, run_lines, word};

/// Returns the outcome of a row of a table of memory.
pub fn outcome(alloc: Global, table: &str, row: &str) -> io::Result<Outcome> {
    let Some(memory) = blank(alloc) else {
        return Ok(Outcome::Unreadable);
    };
    match table {
        "accesses" => run_lines(alloc, row, 1, &mut Accesses { memory }),
        "places" => compared(alloc, part(row, 1), place(alloc, &memory, row)),
        "bytes" => compared(alloc, part(row, 1), byte(alloc, memory, row)),
        "console" => compared(alloc, part(row, 1), sent(alloc, memory, row)),
        _ => Ok(Outcome::Unreadable),
    }
}

/// The memory of the small board before anything is loaded.
pub fn blank(alloc: Global) -> Option<PhysicalMemory> {
    PhysicalMemory::blank(alloc, &SMALL_BOARD).ok()
}

/// The outcome of an access that a rule granted, after 0x1_0000_0005 ticks, if it is carried out.
fn done(memory: &mut PhysicalMemory, request: &Request) -> Option<DoneAccess> {
    match memory.access(Rule::MpuOff, request, 0x1_0000_0005) {
        Performed::Done(done) => Some(done),
        Performed::Denied(_, _) | Performed::Stop(_) => None,
    }
}

/// The memory that the accesses of a row go to.
#[derive(Drop)]
struct Accesses {
    memory: PhysicalMemory,
}

impl Lines for Accesses {
    fn answer(&mut self, alloc: Global, line: &str) -> Option<String> {
        match done(&mut self.memory, &request(part(line, 0))?) {
            Some(done) => shown(alloc, Some(done.value)),
            None => shown(alloc, None),
        }
    }
}

/// Whether bytes lie wholly in flash or RAM.
fn place(alloc: Global, memory: &PhysicalMemory, row: &str) -> Option<String> {
    let place = part(row, 0);
    let address = number_at(place, 1)?;
    let length = usize::from(byte_at(place, 2)?);
    let is_there = memory.is_in_memory(address, length);
    let answer = if is_there { "in" } else { "out" };
    answer.to_string(alloc).ok()
}

/// The word of a vector, or the byte at an address, once a debugger has put bytes from address 4 on.
fn byte(alloc: Global, memory: PhysicalMemory, row: &str) -> Option<String> {
    let mut memory = memory;
    memory.overwrite(4, &[1, 2, 3, 4]);
    let asked = part(row, 0);
    let place = number_at(asked, 1)?;
    if is_first(word(asked, 0), "byte", "vector")? {
        return match memory.byte(place) {
            Some(byte) => shown(alloc, Some(u32::from(byte))),
            None => shown(alloc, None),
        };
    }
    if place >= 256 {
        return None;
    }
    shown(alloc, Some(memory.vector(0, place)))
}

/// The byte that an access sends to the console.
fn sent(alloc: Global, memory: PhysicalMemory, row: &str) -> Option<String> {
    let mut memory = memory;
    let sent = match done(&mut memory, &request(part(row, 0))?) {
        Some(done) => done.sent,
        None => None,
    };
    match sent {
        Some(byte) => shown(alloc, Some(u32::from(byte))),
        None => shown(alloc, None),
    }
}
