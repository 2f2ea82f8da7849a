//! The ranges of the numbers of a board. `reasons` tests a value by these functions too, so that a message names
//! a value exactly where it is refused.

ghost use Rattle.std.specs.Prelude.{◌≡◌, ◌<◌, ◌≤◌, ◌+◌, ◌%◌, ◌^◌, true};
ghost use Rattle.std.specs.Bool.{OnTrue};
ghost use Rattle.platform.specs.Map.{are_apart, is_for_memory, ram_base};
ghost use Rattle.platform.specs.Boards.{is_apart, is_flash, is_interrupt_count, is_priority_bits, is_second_ram};
ghost use Rattle.platform.specs.Boards.{is_second_size, is_size, is_tick, is_whole_blocks, numbers_of};
ghost use Rattle.board.specs.Texts.{is_second_base};

use platform::board::Layout;
use platform::exception::MAX_INTERRUPTS;
use platform::map::RAM_BASE;

/// Flash and RAM come in blocks of this many bytes.
pub const BLOCK: u64 = 1024;

/// Flash and RAM have a mebibyte each at most.
pub const MAX_BYTES: u64 = 0x10_0000;

/// The second RAM has 16 mebibytes at most.
pub const MAX_SECOND_BYTES: u64 = 0x100_0000;

/// The last address of a block.
pub const LAST_BLOCK: u64 = 0xFFFF_FC00;

/// The least number of bits that a priority has.
pub const MIN_PRIORITY_BITS: u64 = 3;

/// The greatest number of bits that a priority has.
pub const MAX_PRIORITY_BITS: u64 = 8;

/// The least tick that an event can have.
pub const FIRST_TICK: u64 = 1;

/// The greatest tick that an event can have.
pub const LAST_TICK: u64 = 1 << 48;

/// Returns whether a number of bytes is one of whole blocks.
pub fn is_whole_blocks(bytes: u64) -> bool
    ensures test { result ≡ is_whole_blocks bytes }
    ensures whole { OnTrue result (bytes % 1024 ≡ 0) }
{
    bytes % BLOCK == 0
}

/// Returns whether flash or RAM can have this many bytes.
pub fn is_size(bytes: u64) -> bool
    ensures test { result ≡ is_size bytes }
    ensures whole { OnTrue result (bytes % 1024 ≡ 0) }
    ensures least { OnTrue result (1024 ≤ bytes) }
    ensures most { OnTrue result (bytes ≤ 0x10_0000) }
{
    is_whole_blocks(bytes) && BLOCK <= bytes && bytes <= MAX_BYTES
}

/// Returns whether flash can have this many bytes at a base.
pub fn is_flash(base: u64, bytes: u64) -> bool
    requires { base < 2 ^ 63 }
    ensures test { result ≡ is_flash base bytes }
    ensures apart { OnTrue result (base + bytes ≤ ram_base) }
    ensures whole { OnTrue result (bytes % 1024 ≡ 0) }
    ensures least { OnTrue result (1024 ≤ bytes) }
    ensures most { OnTrue result (bytes ≤ 0x10_0000) }
{
    is_size(bytes) && base + bytes <= u64::from(RAM_BASE)
}

/// Returns whether a second RAM can begin at an address.
pub fn is_second_base(base: u64) -> bool
    ensures test { result ≡ is_second_base base }
    ensures whole { OnTrue result (base % 1024 ≡ 0) }
    ensures most { OnTrue result (base ≤ 0xFFFF_FC00) }
{
    is_whole_blocks(base) && base <= LAST_BLOCK
}

/// Returns whether a second RAM can have this many bytes.
pub fn is_second_size(bytes: u64) -> bool
    ensures test { result ≡ is_second_size bytes }
    ensures whole { OnTrue result (bytes % 1024 ≡ 0) }
    ensures least { OnTrue result (1024 ≤ bytes) }
    ensures most { OnTrue result (bytes ≤ 0x100_0000) }
{
    is_whole_blocks(bytes) && BLOCK <= bytes && bytes <= MAX_SECOND_BYTES
}

/// Returns whether this many bytes from a base on are where the default memory map has memory (B3.1).
pub fn is_for_memory(base: u64, bytes: u64) -> bool
    requires base { base < 2 ^ 63 }
    requires bytes { bytes < 2 ^ 63 }
    ensures { result ≡ is_for_memory base bytes }
{
    let end = base + bytes;
    end <= 0x4000_0000 || (0x6000_0000 <= base && end <= 0xA000_0000)
}

/// Returns whether `bytes` bytes from `base` on and `more` bytes from `other` on share no address.
pub fn are_apart(base: u64, bytes: u64, other: u64, more: u64) -> bool
    requires first { base + bytes < 2 ^ 64 }
    requires second { other + more < 2 ^ 64 }
    ensures { result ≡ are_apart base bytes other more }
{
    base + bytes <= other || other + more <= base
}

/// Returns whether a second RAM has no byte of the flash of a board and none of its RAM.
pub fn is_apart(layout: &Layout, base: u64, bytes: u64) -> bool
    requires base { base < 2 ^ 63 }
    requires bytes { bytes < 2 ^ 63 }
    ensures { result ≡ is_apart (numbers_of layout.now) (record { base = base; size = bytes }) }
{
    let (flash, flash_size) = (u64::from(layout.flash_base), u64::from(layout.flash_size));
    are_apart(flash, flash_size, base, bytes)
        && are_apart(u64::from(RAM_BASE), u64::from(layout.ram_size), base, bytes)
}

/// Returns whether a board can have a second RAM of this many bytes at a base.
pub fn is_second_ram(layout: &Layout, base: u64, bytes: u64) -> bool
    requires base { base < 2 ^ 63 }
    requires bytes { bytes < 2 ^ 63 }
    ensures test { result ≡ is_second_ram (numbers_of layout.now) (record { base = base; size = bytes }) }
    ensures whole { OnTrue result (bytes % 1024 ≡ 0) }
    ensures least { OnTrue result (1024 ≤ bytes) }
    ensures most { OnTrue result (bytes ≤ 0x100_0000) }
    ensures memory { OnTrue result (is_for_memory base bytes ≡ true) }
    ensures apart { OnTrue result
        (is_apart (numbers_of layout.now) (record { base = base; size = bytes }) ≡ true) }
{
    is_whole_blocks(base)
        && is_second_size(bytes)
        && is_for_memory(base, bytes)
        && is_apart(layout, base, bytes)
}

/// Returns whether a board can have priorities of this many bits.
pub fn is_priority_bits(bits: u64) -> bool
    ensures test { result ≡ is_priority_bits bits }
    ensures enough { OnTrue result (3 ≤ bits) }
    ensures few { OnTrue result (bits ≤ 8) }
{
    (MIN_PRIORITY_BITS..=MAX_PRIORITY_BITS).contains(&bits)
}

/// Returns whether a board can have `interrupts` interrupts.
pub fn is_interrupt_count(interrupts: u64) -> bool
    ensures test { result ≡ is_interrupt_count interrupts }
    ensures few { OnTrue result (interrupts ≤ MAX_INTERRUPTS) }
{
    interrupts <= u64::from(MAX_INTERRUPTS)
}

/// Returns whether an event can have this tick.
pub fn is_tick(at: u64) -> bool
    ensures test { result ≡ is_tick at }
{
    (FIRST_TICK..=LAST_TICK).contains(&at)
}
