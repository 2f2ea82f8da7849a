//! The intervals, made from the boundaries in one pass.

ghost use Rattle.std.specs.Prelude.{◌≡◌, ◌+◌, ◌^◌, ◌<◌, ◌≤◌, length, IfSome, true};
ghost use Rattle.std.specs.Bool.{Decides};
ghost use Rattle.std.specs.List.{All};
ghost use Rattle.std.specs.List.Sorted.{IsNonDecreasing};
ghost use Rattle.mpu_table.specs.Intervals.{HasRegionBelow16, NamesOwner, PartsRegions, Tiles};

use crate::boundaries::{Points, boundaries_of};
use crate::interval::{CAPACITY, Interval};
use arrayvec::ArrayVec;
use mpu::MpuRegs;

/// Intervals of addresses, in order.
pub type Intervals = ArrayVec<Interval, CAPACITY>;

/// Returns the intervals of all addresses: each has one owner.
pub fn intervals_of(registers: &MpuRegs) -> Intervals
    ensures tiles { Tiles result.items 0 (2 ^ 32) }
    ensures names { All (NamesOwner registers.now) result.items }
    ensures within { All HasRegionBelow16 result.items }
    ensures few { length result.items ≤ 192 }
{
    let points = sorted(boundaries_of(registers), registers);
    sweep(points.as_slice(), registers)
}

/// Returns the boundaries in ascending order.
fn sorted(mut points: Points, registers: &MpuRegs) -> Points
    requires parts { PartsRegions points.items registers.now }
    ensures parts { PartsRegions result.items registers.now }
    ensures order { IsNonDecreasing result.items }
    ensures few { length result.items ≡ length points.items }
{
    points.as_mut_slice().sort_unstable();
    points
}

/// Returns the intervals between boundaries that are in ascending order.
fn sweep(points: &[u32], registers: &MpuRegs) -> Intervals
    requires parts { PartsRegions points.now registers.now }
    requires order { IsNonDecreasing points.now }
    requires few { length points.now ≤ 144 }
    ensures tiles { Tiles result.items 0 (2 ^ 32) }
    ensures names { All (NamesOwner registers.now) result.items }
    ensures within { All HasRegionBelow16 result.items }
    ensures few { length result.items ≤ 192 }
{
    let mut intervals = Intervals::new();
    let mut first: u32 = 0;
    let mut region = registers.owner(first);
    'each: for point in points {
        let next = registers.owner(*point);
        if !is_same(next, region) {
            intervals.push(Interval {
                first,
                last: *point - 1,
                region,
            });
            first = *point;
            region = next;
        }
    }
    intervals.push(Interval {
        first,
        last: u32::MAX,
        region,
    });
    intervals
}

/// Returns whether two regions are the same, or both are None.
fn is_same(region: Option<u8>, other: Option<u8>) -> bool
    ensures { Decides result (region ≡ other) }
{
    match (region, other) {
        (Some(number), Some(another)) => number == another,
        (None, None) => true,
        (Some(_), None) | (None, Some(_)) => false,
    }
}
