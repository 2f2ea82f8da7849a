//! The ranges of the values of a device. `reasons` tests a value by these functions too, so that a message names a
//! value exactly where it is refused.

ghost use Rattle.std.specs.Prelude.{◌≡◌, ◌<◌, ◌≤◌, ◌+◌, ◌%◌, ◌^◌, ◌==◌, bit_and, option_map};
ghost use Rattle.std.specs.Bool.{OnTrue};
ghost use Rattle.platform.specs.Boards.{numbers_of, span_of};
ghost use Rattle.board.specs.Devices.{has_32_bits, is_beside, is_device_base, is_device_bytes, is_device_size};
ghost use Rattle.board.specs.Devices.{is_outside};

use crate::ranges::are_apart;
use platform::board::{Layout, SecondRam};
use platform::map::RAM_BASE;

/// A device has this many bytes at most.
pub const MAX_DEVICE_BYTES: u64 = 65_536;

/// All devices of a board have this many bytes at most.
pub const MAX_BYTES_OF_DEVICES: u64 = 0x10_0000;

/// The last address of a word.
pub const LAST_WORD: u64 = 0xFFFF_FFFC;

/// The address space has this many bytes.
pub const SPACE: u64 = 1 << 32;

/// The Private Peripheral Bus begins here.
pub const PPB_BASE: u64 = 0xE000_0000;

/// And has this many bytes.
pub const PPB_SIZE: u64 = 0x10_0000;

/// Returns whether a number has 32 bits at most.
pub fn has_32_bits(number: u64) -> bool
    ensures test { result ≡ has_32_bits number }
    ensures small { OnTrue result (number < 2 ^ 32) }
{
    number < SPACE
}

/// Returns whether two words have no bit in common.
pub fn share_no_bit(word: u32, other: u32) -> bool
    ensures { result ≡ (bit_and word other == 0) }
{
    word & other == 0
}

/// Returns whether a device can begin at an address.
pub fn is_device_base(base: u64) -> bool
    ensures test { result ≡ is_device_base base }
    ensures whole { OnTrue result (base % 4 ≡ 0) }
    ensures most { OnTrue result (base ≤ 0xFFFF_FFFC) }
{
    base % 4 == 0 && base <= LAST_WORD
}

/// Returns whether this many bytes from a base on share no address with the second RAM, if there is one.
fn is_beside(second: Option<SecondRam>, base: u64, size: u64) -> bool
    requires base { base < 2 ^ 63 }
    requires size { size < 2 ^ 63 }
    ensures { result ≡ is_beside (option_map span_of second) base size }
{
    match second {
        None => true,
        Some(second) => are_apart(u64::from(second.base), u64::from(second.size), base, size),
    }
}

/// Returns whether none of this many bytes from a base on is in memory or in the Private Peripheral Bus.
pub fn is_outside(layout: &Layout, base: u64, size: u64) -> bool
    requires base { base < 2 ^ 63 }
    requires size { size < 2 ^ 63 }
    ensures { result ≡ is_outside (numbers_of layout.now) base size }
{
    let (flash, flash_size) = (u64::from(layout.flash_base), u64::from(layout.flash_size));
    are_apart(flash, flash_size, base, size)
        && are_apart(u64::from(RAM_BASE), u64::from(layout.ram_size), base, size)
        && is_beside(layout.second_ram, base, size)
        && are_apart(PPB_BASE, PPB_SIZE, base, size)
}

/// Returns whether a device can have this many bytes.
pub fn is_device_bytes(size: u64) -> bool
    ensures test { result ≡ is_device_bytes size }
    ensures whole { OnTrue result (size % 4 ≡ 0) }
    ensures most { OnTrue result (size ≤ 65536) }
{
    size % 4 == 0 && 4 <= size && size <= MAX_DEVICE_BYTES
}

/// Returns whether a device can have this many bytes from a base on, where the devices before it have `before`.
pub fn is_device_size(layout: &Layout, before: u64, base: u64, size: u64) -> bool
    requires before { before ≤ 0x10_0000 }
    requires base { base < 2 ^ 63 }
    requires size { size < 2 ^ 63 }
    ensures test { result ≡ is_device_size (numbers_of layout.now) before base size }
    ensures whole { OnTrue result (size % 4 ≡ 0) }
    ensures most { OnTrue result (size ≤ 65536) }
    ensures within { OnTrue result (base + size ≤ 2 ^ 32) }
    ensures few { OnTrue result (before + size ≤ 0x10_0000) }
{
    is_device_bytes(size)
        && base + size <= SPACE
        && is_outside(layout, base, size)
        && before + size <= MAX_BYTES_OF_DEVICES
}
