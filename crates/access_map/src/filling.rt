//! The places of a board that describes devices, made in one pass.

ghost use Rattle.std.specs.Bool.{Decides};
ghost use Rattle.std.specs.Prelude.{◌≡◌, ◌≤◌, ℕ, IfOk, OnOk};
ghost use Rattle.access_map.specs.Growing.{with_part};
ghost use Rattle.access_map.specs.Places.{ArePlacesOf, has_device, is_in_device, kind_at};
ghost use Rattle.platform.specs.Boards.{numbers_of};

use crate::board_place::{BoardPlace, Part, PlaceKind};
use crate::sharing::{cut_at, cut_at_place};
use crate::world::Place;
use devices::Device;
use mpu::Span;
use platform::board::Layout;
use std::alloc::{AllocError, Global};

/// The Private Peripheral Bus.
const PPB: Span = Span {
    first: 0xE000_0000,
    last: 0xE00F_FFFF,
};

/// Returns the places of a board with these devices, in the order of their addresses: each as long as possible.
pub fn board_places(
    alloc: Global,
    board: &Layout,
    devices: &[Device],
) -> Result<Vec<BoardPlace>, AllocError>
    ensures { IfOk result (λ places. ArePlacesOf (numbers_of board.now) devices.now places.items) }
{
    let mut places = Vec::new(alloc);
    let mut current = Part::at(board, devices, 0);
    'each: while current.last < u32::MAX {
        let next = Part::at(board, devices, current.last + 1);
        if is_same_kind(current.kind, next.kind) {
            current.last = next.last;
        } else {
            current.put(&mut places)?;
            current = next;
        }
    }
    current.put(&mut places)?;
    Ok(places)
}

impl Part {
    /// Returns a part that begins at an address.
    fn at(board: &Layout, devices: &[Device], first: u32) -> Self
        ensures first { result.first ≡ first }
        ensures some { result.first ≤ result.last }
        ensures right { (a : ℕ) → result.first ≤ a → a ≤ result.last
            → kind_at (numbers_of board.now) devices.now a ≡ result.kind }
    {
        let all = Span {
            first,
            last: u32::MAX,
        };
        let flash = cut_at_place(board, Place::Flash, all);
        let ram = cut_at_place(board, Place::Ram, flash);
        let second = cut_at_place(board, Place::SecondRam, ram);
        let bus = cut_at(PPB, second);
        let device = cut_at_devices(devices, bus);
        let window = cut_at_place(board, Place::Window, device);
        Part {
            kind: kind_at(board, devices, first),
            first,
            last: window.last,
        }
    }

    /// Adds the part to a list, if it has a kind.
    fn put(self, places: &mut Vec<BoardPlace>) -> Result<(), AllocError>
        ensures { OnOk result (places.new.items ≡ with_part places.old.items self) }
    {
        if let Some(kind) = self.kind {
            places.push(BoardPlace {
                kind,
                first: self.first,
                last: self.last,
            })?;
        }
        Ok(())
    }
}

/// Returns the kind of the place that has an address, if one has it.
#[tactic(auto, unfolding(crate::specs::Places::kind_at))]
fn kind_at(board: &Layout, devices: &[Device], address: u32) -> Option<PlaceKind>
    ensures { result ≡ kind_at (numbers_of board.now) devices.now address }
{
    if Place::Flash.has(board, address) {
        Some(PlaceKind::Flash)
    } else if Place::Ram.has(board, address) || Place::SecondRam.has(board, address) {
        Some(PlaceKind::Ram)
    } else if !(PPB.first <= address && address <= PPB.last) && is_in_device(devices, address) {
        Some(PlaceKind::Device)
    } else if Place::Window.has(board, address) {
        Some(PlaceKind::Window)
    } else {
        None
    }
}

/// Returns whether a device has an address.
fn is_in_device(devices: &[Device], address: u32) -> bool
    ensures { result ≡ is_in_device devices.now address }
{
    devices.iter().any(|device| device.has(address))
}

/// Returns whether two addresses are of the same kind, or both of none.
fn is_same_kind(kind: Option<PlaceKind>, other: Option<PlaceKind>) -> bool
    ensures { Decides result (kind ≡ other) }
{
    match kind {
        Some(kind) => match other {
            Some(other) => kind.is_same(other),
            None => false,
        },
        None => other.is_none(),
    }
}

/// Returns the beginning of a span in which each device has all addresses or none.
#[tactic(auto, using(crate::proofs::PlacesMade::devices_more))]
fn cut_at_devices(devices: &[Device], within: Span) -> Span
    requires some { within.first ≤ within.last }
    ensures first { result.first ≡ within.first }
    ensures some { result.first ≤ result.last }
    ensures last { result.last ≤ within.last }
    ensures alike { (a : ℕ) → result.first ≤ a → a ≤ result.last
        → is_in_device devices.now a ≡ is_in_device devices.now result.first }
{
    let mut near = within;
    'each: for device in devices {
        near = cut_at_device(device, near);
    }
    near
}

/// Returns the beginning of a span of which a device has all addresses or none.
#[tactic(auto, using(crate::proofs::PlacesMade::device_lemmas))]
fn cut_at_device(device: &Device, within: Span) -> Span
    requires some { within.first ≤ within.last }
    ensures first { result.first ≡ within.first }
    ensures some { result.first ≤ result.last }
    ensures last { result.last ≤ within.last }
    ensures alike { (a : ℕ) → result.first ≤ a → a ≤ result.last
        → has_device a device.now ≡ has_device result.first device.now }
{
    if device.size == 0 {
        return within;
    }
    let span = Span {
        first: device.base,
        last: device.base + (device.size - 1),
    };
    cut_at(span, within)
}
