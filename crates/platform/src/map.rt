//! Where things are in the address space (ARM DDI 0403, "The system address map"; where RAM and
//! the device window are is this project's choice).

ghost use Rattle.std.specs.Prelude.{◌≡◌};
ghost use Rattle.platform.specs.Map.{has_side_effects, is_in_ppb, is_in_window, is_execute_never};

/// Where RAM begins. Flash ends here, or before.
pub const RAM_BASE: u32 = 0x2000_0000;

/// Returns whether an address is in the device window.
#[inline]
pub fn is_in_window(address: u32) -> bool
    ensures { result ≡ is_in_window address }
{
    address >> 12 == 0x4_0000
}

/// Returns whether an address is in the Private Peripheral Bus.
#[inline]
pub fn is_in_ppb(address: u32) -> bool
    ensures { result ≡ is_in_ppb address }
{
    address >> 20 == 0xE00
}

/// Returns whether the default memory map never executes an address: in the regions Peripheral and Device, and in the
/// System region.
#[inline]
fn is_execute_never(address: u32) -> bool
    ensures { result ≡ is_execute_never address }
{
    address >> 29 == 2 || address >> 29 >= 5
}

/// Returns whether an access to an address can have a side effect: in the device window and in the Private Peripheral
/// Bus and, on a board that describes devices, wherever the default memory map never executes.
#[inline]
pub fn has_side_effects(devices: bool, address: u32) -> bool
    ensures { result ≡ has_side_effects devices address }
{
    is_in_window(address) || is_in_ppb(address) || devices && is_execute_never(address)
}
