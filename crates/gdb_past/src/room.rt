//! How many copies of a machine's state are kept.

ghost use Rattle.std.specs.Prelude.{◌≡◌, ◌*◌, ◌<◌, ◌≤◌};
ghost use Rattle.gdb_past.specs.Copies.{copies_for, max_copied, max_marks, memory_size, room_of};
ghost use Rattle.platform.specs.Boards.{numbers_of};

use machine::Layout;

/// The most marks.
const MAX_MARKS: u64 = 8;

/// The most bytes of memory that the copies for marks and checkpoints have together.
const MAX_COPIED: u64 = 0x400_0000;

/// How many copies a mark takes: its own, and those of two checkpoints.
const COPIES: u64 = 3;

/// Returns how many bytes of memory a board has: at most 18 MiB.
fn memory_size(board: &Layout) -> u64
    ensures size { result ≡ memory_size (numbers_of board.now) }
    ensures some { 0 < result }
    ensures few { result ≤ 0x120_0000 }
{
    let second = match &board.second_ram {
        Some(second) => u64::from(second.size),
        None => 0,
    };
    u64::from(board.flash_size) + u64::from(board.ram_size) + second
}

/// Returns how many marks there is room for in a session on a board: at least one. For each of them there are two
/// checkpoints. The copies for all of them have at most 64 MiB of memory together.
pub fn room_of(board: &Layout) -> usize
    ensures room { result ≡ room_of (numbers_of board.now) }
    ensures some { 0 < result }
    ensures few { result ≤ max_marks }
    ensures fits { copies_for result * memory_size (numbers_of board.now) ≤ max_copied }
{
    (MAX_COPIED / (COPIES * memory_size(board))).min(MAX_MARKS) as usize
}
