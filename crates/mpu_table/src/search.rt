//! The interval of an address, by halving.

ghost use Rattle.std.specs.Prelude.{◌≡◌, ◌+◌, ◌-◌, ◌*◌, ◌^◌, ◌<◌, ◌≤◌, nat_lt, length};
ghost use Rattle.mpu_table.specs.Intervals.{Tiles, HasAddress, interval};

use crate::interval::Interval;

/// Returns the index of the interval of an address, and how many intervals were tested.
pub fn find_in(intervals: &[Interval], address: u32) -> (usize, u32)
    requires tiles { Tiles intervals.now 0 (2 ^ 32) }
    requires few { length intervals.now ≤ 192 }
    ensures within { result.0 < length intervals.now }
    ensures there { HasAddress (interval intervals.now result.0) address }
    ensures looks { result.1 ≤ 8 }
{
    let mut low = 0;
    let mut high = intervals.len();
    let mut looks = 0;
    'halving: while high - low > 1 {
        let middle = middle_of(low, high);
        if ends_before(intervals, middle - 1, address, &mut looks) {
            low = middle;
        } else {
            high = middle;
        }
    }
    (low, looks)
}

/// Returns the index halfway between two that aren't neighbours: each part is at most half as long
/// as the whole, rounded up.
fn middle_of(low: usize, high: usize) -> usize
    requires { low + 1 < high }
    ensures above { low < result }
    ensures below { result < high }
    ensures left { 2 * (result - low) ≤ high - low + 1 }
    ensures right { 2 * (high - result) ≤ high - low + 1 }
{
    low + (high - low) / 2
}

/// Returns whether an interval ends before an address: one test.
fn ends_before(intervals: &[Interval], place: usize, address: u32, looks: &mut u32) -> bool
    requires within { place < length intervals.now }
    requires few { looks.old < 8 }
    ensures value { result ≡ nat_lt (interval intervals.now place).last address }
    ensures looks { looks.new ≡ looks.old + 1 }
{
    *looks += 1;
    intervals[place].last < address
}
