//! Memory as the client reads it.

ghost use Rattle.std.specs.Prelude.{◌≡◌, []};
ghost use Rattle.gdb.specs.MemoryReads.{readable_byte, memory_read};
ghost use Rattle.gdb_texts.specs.Bytes.{bytes_text};

use arrayvec::ArrayVec;
use gdb_texts::put_byte;
use machine::{Decider, Exceptions, KeptCode, Machine, SysTickState};

/// The data of an answer.
pub type ReplyData = ArrayVec<u8, 4096>;

/// The most bytes of memory in an answer.
const MAX_READ: u32 = 2048;

/// Returns the byte at an address, which may be beyond the address space.
fn readable_byte<D: Decider, C: KeptCode, L: Exceptions, U: SysTickState>(
    machine: &Machine<D, C, L, U>,
    address: u64,
) -> Option<u8>
    ensures { result ≡ readable_byte machine.now.state address }
{
    if address < 0x1_0000_0000 {
        machine.peek_byte(address as u32)
    } else {
        None
    }
}

/// Puts the digits of the bytes from an address on: at most `count` and 2,048, as many as follow without a gap.
pub fn put_memory<D: Decider, C: KeptCode, L: Exceptions, U: SysTickState>(
    machine: &Machine<D, C, L, U>,
    address: u32,
    count: u32,
    page: &mut ReplyData,
)
    requires { page.old.items ≡ [] }
    ensures { page.new.items ≡ bytes_text (memory_read machine.now.state address count) }
{
    'bytes: for index in 0..count.min(MAX_READ) {
        match readable_byte(machine, u64::from(address) + u64::from(index)) {
            Some(byte) => put_byte(page, byte),
            None => return,
        }
    }
}
