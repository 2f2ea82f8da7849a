//! The devices of a board while its text is read.

ghost use Rattle.std.specs.Prelude.{◌≡◌, ◌<◌, ◌≤◌, [], ◌∷◌, ◌++◌, length, IfOk};

use devices::{Device, MAX_DEVICES, Stores};
use std::alloc::{AllocError, Global};
use std::marker::Model;

// A device that is in the places of those that aren't read yet.
const BLANK: Device = Device {
    base: 0,
    size: 0,
    start: 0,
    ones: 0,
    zeros: 0,
    stores: Stores::Kept,
    follows: 0,
    by: 0,
    of: None,
    counts: false,
    console: false,
    load_poke: None,
    store_poke: None,
    line: None,
};

/// The devices that were read, in the order of the text. They aren't allocated, so that no refusal waits for memory:
/// what a table may name depends on the devices before it.
#[derive(Drop)]
pub struct FoundDevices {
    places: [Device; MAX_DEVICES],
    count: usize,
}

impl Model for FoundDevices {
    ghost use Rattle.std.specs.Prelude.{◌≡◌, ◌≤◌, List, length, take};
    ghost use Rattle.devices.specs.declared.device.Device.{Device};

    ghost Value = { List Device };

    ghost view = { λ found. take found.count found.places };

    ghost invariant = { λ found. found.count ≤ 256 };
}

impl FoundDevices {
    pub fn new() -> Self
        ensures { result ≡ [] }
    {
        FoundDevices {
            places: [BLANK; MAX_DEVICES],
            count: 0,
        }
    }

    /// Appends a device.
    pub fn push(&mut self, device: &Device)
        requires { length self.old < 256 }
        ensures { self.new ≡ self.old ++ device.now ∷ [] }
    {
        self.places[self.count] = *device;
        self.count += 1;
    }

    /// Returns the devices.
    pub fn devices(&self) -> &[Device]
        ensures value { result.now ≡ self.now }
        ensures few { length result.now ≤ 256 }
    {
        &self.places[..self.count]
    }
}

// A copy of some devices. Fails where memory can't be allocated.
pub fn copied(alloc: Global, devices: &[Device]) -> Result<Vec<Device>, AllocError>
    ensures { IfOk result (λ copy. copy.items ≡ devices.now) }
{
    let mut copy = Vec::new(alloc);
    'devices: for device in devices {
        copy.push(*device)?;
    }
    Ok(copy)
}
