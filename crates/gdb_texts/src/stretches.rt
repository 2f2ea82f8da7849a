//! What is where on a board: flash, RAM, the second RAM, devices, the device window and the Private Peripheral Bus.

ghost use Rattle.std.specs.Prelude.{◌≡◌, ◌+◌, ◌<◌, ◌≤◌, ◌++◌, ◌∷◌, List, length, option_map};
ghost use Rattle.gdb_texts.specs.declared.stretch.Stretch.{Stretch as TheStretch};
ghost use Rattle.gdb_texts.specs.Stretches.{joined_after, joined_onto, permissions, size_of};
ghost use Rattle.gdb_texts.specs.Stretches as spec;
ghost use Rattle.platform.specs.Boards.{numbers_of};

use crate::stretch::{MemoryKind, Stretch};
use arrayvec::ArrayVec;
use devices::Device;
use platform::board::Layout;
use platform::map::RAM_BASE;

/// The most stretches that a board has.
pub const MAX_STRETCHES: usize = 262;

/// Stretches of a board.
pub type Stretches = ArrayVec<Stretch, MAX_STRETCHES>;

/// The device window.
const WINDOW: Stretch = Stretch {
    base: 0x4000_0000,
    end: 0x4000_1000,
    kind: MemoryKind::Registers,
};

/// The Private Peripheral Bus.
const PPB: Stretch = Stretch {
    base: 0xE000_0000,
    end: 0xE010_0000,
    kind: MemoryKind::Registers,
};

/// Returns how many addresses there are from one on to another, at most 2^32 - 1.
pub fn distance(base: u32, end: u64) -> u32
    ensures { result ≡ spec.distance base end }
{
    end.saturating_sub(u64::from(base)).min(0xFFFF_FFFF) as u32
}

impl Stretch {
    /// Returns how many addresses there are.
    pub fn size(self) -> u32
        ensures { result ≡ size_of self }
    {
        distance(self.base, self.end)
    }

    /// Returns whether this is one with the next stretch: it touches or overlaps it, and where kinds count it is of the
    /// same kind.
    fn meets(self, by_kind: bool, next: Stretch) -> bool
        ensures { result ≡ spec.meets by_kind self next }
    {
        u64::from(next.base) <= self.end && (!by_kind || are_alike(self.kind, next.kind))
    }
}

/// Returns whether two kinds are the same.
fn are_alike(one: MemoryKind, other: MemoryKind) -> bool
    ensures { result ≡ spec.are_alike one other }
{
    match (one, other) {
        (MemoryKind::Flash, MemoryKind::Flash)
        | (MemoryKind::Ram, MemoryKind::Ram)
        | (MemoryKind::Registers, MemoryKind::Registers) => true,
        (MemoryKind::Flash, MemoryKind::Ram | MemoryKind::Registers)
        | (MemoryKind::Ram, MemoryKind::Flash | MemoryKind::Registers)
        | (MemoryKind::Registers, MemoryKind::Flash | MemoryKind::Ram) => false,
    }
}

impl MemoryKind {
    /// Returns the text of what may be done there.
    pub fn permissions(self) -> &'static [u8]
        ensures text { result.now ≡ permissions self }
        ensures short { length result.now ≤ 16 }
    {
        match self {
            MemoryKind::Flash => b"permissions:rx;",
            MemoryKind::Ram => b"permissions:rwx;",
            MemoryKind::Registers => b"permissions:rw;",
        }
    }
}

/// Returns the flash of a board.
fn flash_of(layout: &Layout) -> Stretch
    ensures { result ≡ spec.flash_of (numbers_of layout.now) }
{
    Stretch {
        base: layout.flash_base,
        end: u64::from(layout.flash_base) + u64::from(layout.flash_size),
        kind: MemoryKind::Flash,
    }
}

/// Returns the RAM of a board.
fn ram_of(layout: &Layout) -> Stretch
    ensures { result ≡ spec.ram_of (numbers_of layout.now) }
{
    Stretch {
        base: RAM_BASE,
        end: u64::from(RAM_BASE) + u64::from(layout.ram_size),
        kind: MemoryKind::Ram,
    }
}

/// Returns the second RAM of a board, if it has one.
fn second_of(layout: &Layout) -> Option<Stretch>
    ensures { result ≡ option_map spec.second_of (numbers_of layout.now).second_ram }
{
    match layout.second_ram {
        Some(second) => Some(Stretch {
            base: second.base,
            end: u64::from(second.base) + u64::from(second.size),
            kind: MemoryKind::Ram,
        }),
        None => None,
    }
}

fn device_of(device: &Device) -> Stretch
    ensures { result ≡ spec.device_of device.now }
{
    Stretch {
        base: device.base,
        end: u64::from(device.base) + u64::from(device.size),
        kind: MemoryKind::Registers,
    }
}

/// Puts a stretch, if there is one, among others, which are in the order of their addresses.
fn inserted(stretch: Option<Stretch>, others: &[Stretch]) -> Stretches
    requires { length others.now < 261 }
    ensures items { result.items ≡ spec.inserted stretch others.now }
    ensures few { length result.items ≤ length others.now + 1 }
{
    let mut all = Stretches::new();
    let mut waiting = stretch;
    'others: for other in others {
        if let Some(stretch) = waiting {
            if stretch.base < other.base {
                all.push(stretch);
                waiting = None;
            }
        }
        all.push(*other);
    }
    if let Some(stretch) = waiting {
        all.push(stretch);
    }
    all
}

/// Returns what a board has beside some stretches, in the order of the addresses.
fn placed(layout: &Layout, devices: &[Device], others: &[Stretch]) -> Stretches
    requires few { length others.now ≤ 4 }
    requires devices { length devices.now ≤ 256 }
    ensures items { result.items ≡ spec.placed (numbers_of layout.now) devices.now others.now }
    ensures few { length result.items ≤ 261 }
{
    let mut all = inserted(second_of(layout), others);
    'devices: for device in devices {
        all = inserted(Some(device_of(device)), all.as_slice());
    }
    all
}

/// Returns a block with a stretch that it meets. Otherwise puts the block, if there is one, and returns the stretch.
fn put_apart(
    all: &mut Stretches,
    by_kind: bool,
    block: Option<Stretch>,
    stretch: Stretch,
) -> Stretch
    requires { length all.old.items < 262 }
    ensures items { (others : List TheStretch) → all.new.items ++ joined_onto by_kind result others
        ≡ all.old.items ++ joined_after by_kind block (stretch ∷ others) }
    ensures few { length all.new.items ≤ length all.old.items + 1 }
{
    match block {
        Some(mut block) if block.meets(by_kind, stretch) => {
            block.end = block.end.max(stretch.end);
            block
        }
        Some(block) => {
            all.push(block);
            stretch
        }
        None => stretch,
    }
}

/// Returns stretches, in the order of their addresses, of which those that meet are one.
fn joined(by_kind: bool, stretches: &[Stretch]) -> Stretches
    requires { length stretches.now ≤ 261 }
    ensures items { result.items ≡ spec.joined by_kind stretches.now }
    ensures few { length result.items ≤ 262 }
{
    let mut all = Stretches::new();
    let mut block = None;
    'stretches: for stretch in stretches {
        block = Some(put_apart(&mut all, by_kind, block, *stretch));
    }
    if let Some(block) = block {
        all.push(block);
    }
    all
}

/// Returns the longest stretches of one kind that a board has, in the order of their addresses.
#[tactic(auto, unfolding(crate::specs::Stretches::all_of))]
pub fn all_of(layout: &Layout, devices: &[Device]) -> Stretches
    requires { length devices.now ≤ 256 }
    ensures items { result.items ≡ spec.all_of (numbers_of layout.now) devices.now }
    ensures few { length result.items ≤ 262 }
{
    let first = [flash_of(layout), ram_of(layout), WINDOW, PPB];
    joined(true, placed(layout, devices, &first).as_slice())
}

/// Returns the longest stretches of a board that GDB reads and writes as RAM, in the order of their addresses.
#[tactic(auto, unfolding(crate::specs::Stretches::rams_of))]
pub fn rams_of(layout: &Layout, devices: &[Device]) -> Stretches
    requires { length devices.now ≤ 256 }
    ensures items { result.items ≡ spec.rams_of (numbers_of layout.now) devices.now }
    ensures few { length result.items ≤ 262 }
{
    let first = [ram_of(layout), WINDOW, PPB];
    joined(false, placed(layout, devices, &first).as_slice())
}
