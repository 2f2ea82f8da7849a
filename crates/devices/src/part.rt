//! The part of a word that an access takes (profile).

ghost use Rattle.std.specs.Prelude.{◌≡◌, ◌<◌, ◌^◌};
ghost use Rattle.instruction_set.specs.Sizes.{bytes_in};
ghost use Rattle.devices.specs.Parts.{bits_below, covered, in_place, part, sent};

use crate::device::Device;
use instruction_set::size::Size;

/// Returns how many bits of its word are below the byte that an address names.
#[inline]
fn bits_below(address: u32) -> u32
    ensures value { result ≡ bits_below address }
    ensures small { result < 32 }
{
    8 * (address % 4)
}

/// Returns what an access of this size at an address reads of a word.
#[inline]
pub fn part(address: u32, size: Size, word: u32) -> u32
    ensures value { result ≡ part address size word }
    ensures small { result < 256 ^ bytes_in size }
{
    let from_there = word >> bits_below(address);
    match size {
        Size::Byte => from_there % (1 << 8),
        Size::Halfword => from_there % (1 << 16),
        Size::Word => from_there,
    }
}

/// Returns the bits of the word that such an access covers.
#[inline]
pub fn covered(address: u32, size: Size) -> u32
    ensures { result ≡ covered address size }
{
    let lowest: u32 = match size {
        Size::Byte => 0xFF,
        Size::Halfword => 0xFFFF,
        Size::Word => 0xFFFF_FFFF,
    };
    lowest << bits_below(address)
}

/// Returns a number at the place in its word that an address names.
#[inline]
pub fn in_place(address: u32, value: u32) -> u32
    ensures { result ≡ in_place address value }
{
    value << bits_below(address)
}

/// Returns the byte that a store sends to the console, if it sends one.
#[inline]
pub fn sent(device: &Device, address: u32, value: u32) -> Option<u8>
    ensures { result ≡ sent device.now address value }
{
    if device.console && address % 4 == 0 {
        Some((value % 256) as u8)
    } else {
        None
    }
}
