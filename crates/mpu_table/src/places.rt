//! The place of the window near an address, among the windows that are kept.

ghost use Rattle.std.specs.Prelude.{◌<◌};

/// The number of places.
pub const PLACES: usize = 64;

/// Returns the place of the window near an address: its bits 12 to 8, and bit 29 above them, so that code in flash
/// and data in RAM never share a place.
#[inline(always)]
pub fn place_of(address: u32) -> usize
    ensures { result < 64 }
{
    (address >> 8 & 31) as usize + (address >> 29 & 1) as usize * 32
}
