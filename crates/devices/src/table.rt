//! The table of a board's devices (profile).

ghost use Rattle.std.specs.Prelude.{◌≡◌, ◌≤◌, option_map};
ghost use Rattle.devices.specs.Table.{device_at, has, place};

use crate::device::Device;

impl Device {
    /// Returns whether a byte of the device has an address.
    #[inline]
    pub fn has(&self, address: u32) -> bool
        ensures { result ≡ has self.now address }
    {
        self.base <= address && address - self.base < self.size
    }

    /// Returns the number of the word that has an address, counted from the first of the device.
    #[inline]
    pub(crate) fn place(&self, address: u32) -> usize
        requires { self.now.base ≤ address }
        ensures { result ≡ place self.now address }
    {
        (address - self.base) as usize / 4
    }
}

/// Returns the first of some devices that has an address.
pub fn device_at(table: &[Device], address: u32) -> Option<&Device>
    ensures { option_map (λ d. d.now) result ≡ device_at table.now address }
{
    'devices: for device in table {
        if device.has(address) {
            return Some(device);
        }
    }
    None
}
