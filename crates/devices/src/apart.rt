//! Whether devices have no address in common.

ghost use Rattle.std.specs.Prelude.{◌≡◌};
ghost use Rattle.devices.specs.Apart.{are_apart, are_two_apart, is_apart_from};

use crate::device::Device;
use crate::devices::DeviceWords;

/// Returns whether one of two devices ends before the other begins.
fn are_two_apart(one: &Device, other: &Device) -> bool
    ensures { result ≡ are_two_apart one.now other.now }
{
    let end = u64::from(one.base) + u64::from(one.size);
    let other_end = u64::from(other.base) + u64::from(other.size);
    end <= u64::from(other.base) || other_end <= u64::from(one.base)
}

/// Returns whether a device has no address that one of some devices has.
fn is_apart_from(device: &Device, others: &[DeviceWords]) -> bool
    ensures { result ≡ is_apart_from device.now others.now }
{
    'others: for other in others {
        if !are_two_apart(device, &other.device) {
            return false;
        }
    }
    true
}

/// Returns whether no two of some devices have one address.
pub(crate) fn are_apart(devices: &[DeviceWords]) -> bool
    ensures { result ≡ are_apart devices.now }
{
    'devices: for (at, device) in devices.iter().enumerate() {
        if !is_apart_from(&device.device, &devices[at + 1..]) {
            return false;
        }
    }
    true
}
