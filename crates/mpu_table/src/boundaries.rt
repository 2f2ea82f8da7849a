//! The addresses at which the owner of an address can change.

ghost use Rattle.std.specs.Prelude.{◌≡◌, ◌+◌, ◌*◌, ◌^◌, ◌<◌, ◌≤◌, length};
ghost use Rattle.std.specs.List.{Contains};
ghost use Rattle.mpu_table.specs.Boundaries.{begin_of, pieces_of, HasBoundaries};
ghost use Rattle.mpu_table.specs.Intervals.{HasAllOf, PartsRegion, PartsRegions};
ghost use Rattle.mpu.specs.Spans.{grain};

use crate::interval::CAPACITY;
use arrayvec::ArrayVec;
use mpu::{MpuRegs, Region, is_region_enabled, size, switched_off};

/// Boundaries of regions.
pub type Points = ArrayVec<u32, CAPACITY>;

/// Returns the boundaries of all regions.
pub fn boundaries_of(registers: &MpuRegs) -> Points
    ensures parts { PartsRegions result.items registers.now }
    ensures few { length result.items ≤ 144 }
{
    let mut points = Points::new();
    for number in 0..registers.count() {
        add_region(&mut points, registers.at(number));
    }
    points
}

/// Adds the boundaries of a region.
fn add_region(points: &mut Points, region: Region)
    requires { length points.old.items + 9 ≤ 192 }
    ensures parts { PartsRegion points.new.items region }
    ensures kept { HasAllOf points.old.items points.new.items }
    ensures few { length points.new.items ≤ length points.old.items + 9 }
{
    if is_region_enabled(region.attributes) {
        Pieces::of(region).add_to(points);
    }
}

/// Adds a boundary, if it's an address.
fn add(points: &mut Points, boundary: u64)
    requires { length points.old.items < 192 }
    ensures has { boundary < 2 ^ 32 → Contains points.new.items boundary }
    ensures kept { HasAllOf points.old.items points.new.items }
    ensures few { length points.new.items ≤ length points.old.items + 1 }
{
    if let Ok(address) = u32::try_from(boundary) {
        points.push(address);
    }
}

/// The pieces of a region's block, each of which the region has wholly or not at all: the eighths
/// where SRD isn't 0, and otherwise the whole.
#[derive(Clone, Copy)]
struct Pieces {
    /// Where the first begins.
    begin: u64,
    /// The number of bytes of each, at most 2^32.
    length: u64,
    /// The number of pieces, 1 or 8.
    count: u8,
}

impl Pieces {
    /// Returns the pieces of a region.
    fn of(region: Region) -> Self
        ensures begin { result.begin ≡ begin_of region }
        ensures length { result.length ≡ 2 ^ grain region.attributes }
        ensures count { result.count ≡ pieces_of region.attributes }
        ensures begins { result.begin ≤ 2 ^ 32 }
        ensures fits { result.length ≤ 2 ^ 32 }
        ensures few { result.count ≤ 8 }
    {
        let size = size(region.attributes);
        let eighths = size >= 7 && switched_off(region.attributes) != 0;
        Pieces {
            begin: u64::from(region.base) >> (size + 1) << (size + 1),
            length: 1 << if eighths { size - 2 } else { size + 1 },
            count: if eighths { 8 } else { 1 },
        }
    }

    /// Adds where each piece begins and where the last one ends, where that is an address.
    fn add_to(&self, points: &mut Points)
        requires begins { self.now.begin ≤ 2 ^ 32 }
        requires fits { self.now.length ≤ 2 ^ 32 }
        requires few { self.now.count ≤ 8 }
        requires room { length points.old.items + 9 ≤ 192 }
        ensures boundaries { HasBoundaries points.new.items self.now.begin self.now.length self.now.count }
        ensures kept { HasAllOf points.old.items points.new.items }
        ensures few { length points.new.items ≤ length points.old.items + 9 }
    {
        'each: for piece in 0..self.count + 1 {
            add(points, self.boundary(piece));
        }
    }

    /// Returns where a piece begins, which is where the one before it ends.
    #[tactic(auto, using(crate::proofs::Cuts::times_small))]
    fn boundary(&self, piece: u8) -> u64
        requires begins { self.now.begin ≤ 2 ^ 32 }
        requires fits { self.now.length ≤ 2 ^ 32 }
        requires few { piece ≤ 8 }
        ensures { result ≡ self.now.begin + piece * self.now.length }
    {
        self.begin + u64::from(piece) * self.length
    }
}
