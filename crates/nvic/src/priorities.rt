//! Priority bytes, and the priorities that they represent.

ghost use Rattle.std.specs.Prelude.{◌≡◌, ◌<◌};
ghost use Rattle.platform.specs.Priorities as spec;
ghost use Rattle.platform.specs.Priorities.{of_byte};

use platform::exception::{HARD_FAULT, Masks, NMI, Priority};

/// How many bits a priority byte has.
const BYTE_BITS: u8 = 8;

/// Returns the top bits of a priority byte that a board implements.
#[inline]
pub fn implemented_bits(priority_bits: u8, byte: u8) -> u8
    ensures { result ≡ spec.implemented_bits priority_bits byte }
{
    let dropped = BYTE_BITS.saturating_sub(priority_bits);
    (byte as u16 >> dropped << dropped) as u8
}

/// Returns a priority byte rounded down to a multiple of 2^(PRIGROUP + 1).
#[inline]
pub fn grouped(group: u8, byte: u8) -> u8
    requires { group < 8 }
    ensures { result ≡ spec.grouped group byte }
{
    (byte as u16 >> (group + 1) << (group + 1)) as u8
}

/// Returns the fixed priority of NMI or HardFault, and otherwise that of this byte.
#[inline]
pub fn fixed_or(number: u16, byte: u8) -> Priority
    ensures { result ≡ spec.fixed_or number (of_byte byte) }
{
    match number {
        NMI => Priority::NMI,
        HARD_FAULT => Priority::HARD_FAULT,
        _ => Priority::of_byte(byte),
    }
}

/// Returns the priority of the masks: -1 if FAULTMASK is set, 0 if PRIMASK is, BASEPRI's group if
/// BASEPRI isn't 0, and otherwise the lowest.
#[inline]
pub fn boosted(group: u8, masks: Masks) -> Priority
    requires { group < 8 }
    ensures { result ≡ spec.boosted group masks }
{
    if masks.faultmask {
        Priority::HARD_FAULT
    } else if masks.primask {
        Priority::of_byte(0)
    } else if masks.basepri == 0 {
        Priority::LOWEST
    } else {
        Priority::of_byte(grouped(group, masks.basepri))
    }
}
