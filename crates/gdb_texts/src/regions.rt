//! What is where, for lldb.

ghost use Rattle.std.specs.Prelude.{◌≡◌, ◌+◌, ◌≤◌, ◌^◌, ◌++◌, length};
ghost use Rattle.arrayvec.specs.ArrayVec.{array_vec_len};
ghost use Rattle.gdb_texts.specs.Regions.{gap_text, region_at, region_text};
ghost use Rattle.platform.specs.Boards.{numbers_of};

use crate::bytes::put_text;
use crate::stretches::{all_of, distance};
use crate::transfers::put_hex_number;
use arrayvec::ArrayVec;
use devices::Device;
use platform::board::Layout;

/// The first address beyond the address space.
const END: u64 = 0x1_0000_0000;

/// Appends a region: its start, its size, and the text of what may be done there.
#[tactic(auto, using(crate::proofs::Appending::six_parts))]
fn put_region<const ROOM: usize>(
    page: &mut ArrayVec<u8, ROOM>,
    start: u32,
    size: u32,
    permissions: &[u8],
)
    requires few { length permissions.now ≤ 16 }
    requires room { array_vec_len page.old + 64 ≤ ROOM }
    ensures { page.new.items ≡ page.old.items ++ region_text start size permissions.now }
{
    put_text(page, b"start:");
    put_hex_number(page, start);
    put_text(page, b";size:");
    put_hex_number(page, size);
    put_text(page, b";");
    put_text(page, permissions);
}

/// Appends a gap, by its first address and the first one after it.
fn put_gap<const ROOM: usize>(page: &mut ArrayVec<u8, ROOM>, start: u32, end: u64)
    requires room { array_vec_len page.old + 64 ≤ ROOM }
    ensures { page.new.items ≡ page.old.items ++ gap_text start end }
{
    put_region(page, start, distance(start, end), b"");
}

/// Appends the region of an address: memory, registers, or the gap between two of them.
#[tactic(auto, unfolding(crate::specs::Regions::region_at))]
pub fn put_region_info<const ROOM: usize>(
    page: &mut ArrayVec<u8, ROOM>,
    layout: &Layout,
    devices: &[Device],
    address: u32,
)
    requires few { length devices.now ≤ 256 }
    requires room { array_vec_len page.old + 64 ≤ ROOM }
    ensures { page.new.items ≡ page.old.items ++ region_at (numbers_of layout.now) devices.now address }
{
    let all = all_of(layout, devices);
    let stretches = all.as_slice();
    let mut from = 0;
    'stretches: for stretch in stretches {
        if address < stretch.base {
            return put_gap(page, from, u64::from(stretch.base));
        }
        if u64::from(address) < stretch.end {
            return put_region(
                page,
                stretch.base,
                stretch.size(),
                stretch.kind.permissions(),
            );
        }
        from = stretch.end as u32;
    }
    put_gap(page, from, END);
}
