//! The part of a page about worlds.

use super::pages::{page_with, start_symbol};
use super::worlds::{BLOCK, BOARD, CODE, MAILBOX, NOTICE, Region, on, world};
use access_map::{World, Worlds};
use mpu::MpuRegs;
use std::str;
use std::test::*;

/// RBAR and RASR of each region of the kernel's two tasks.
const WRITER: [Region; 3] = [(0x100, CODE), (0x2000_0000, BLOCK), (0x2000_0200, MAILBOX)];

const READER: [Region; 3] = [(0x200, CODE), (0x2000_0200, BLOCK), (0x2000_0200, NOTICE)];

/// Returns the world of regions that are numbered from 0, of 16, while the MPU is on.
pub(super) fn world_of(regions: &[Region]) -> Result<World, Fail> {
    world(MpuRegs::new(16), &on(regions))
}

/// Texts that the part of the two tasks has: their steps, a row for each change of rights, and what they share.
const PARTS: [&str; 13] = [
    "<th class='u' scope='col' id='world-1' data-number='2' data-tick='7' data-pc='00000008' data-lowest='00000008' \
     data-highest='0000000A'>world 1 <small><code>00000008</code> <span class='name'>start</span><br>2 steps</small></th>",
    "id='world-2' data-number='1' data-tick='9'",
    "<br>1 step</small></th>",
    "<tr id='may-0' data-first='00000000' data-last='000000FF'><th scope='row'><code>00000000</code> to \
     <code>000000FF</code> <small>flash, 256 bytes</small></th><td class='zero' data-label='world 1'>\
     <code>---</code></td><td class='zero' data-label='world 2'><code>---</code></td></tr>",
    "<tr id='may-1' data-first='00000100' data-last='000001FF'>",
    "<td class='sees' data-label='world 1'><code>r-x</code></td><td class='zero'",
    "<tr id='may-4' data-first='20000000' data-last='200001FF'>",
    "<small>RAM, 32 bytes</small></th><td class='changes' data-label='world 1'><code>rw-</code> <b>→ 2</b></td>\
     <td class='sees' data-label='world 2'><code>r--</code> <b>← 1</b></td></tr>",
    "<tr id='may-6' data-first='20000220' data-last='200003FF'>",
    "<td class='zero' data-label='world 1'><code>---</code></td><td class='changes' data-label='world 2'>\
     <code>rw-</code></td></tr>",
    "<tr id='may-8' data-first='40000000' data-last='40000FFF'>",
    "<li id='shares-0' data-writer='1' data-reader='2' data-first='20000200' data-last='2000021F'>World 1 may write \
     <code>20000200</code> to <code>2000021F</code>, which world 2 may read.</li>\n</ul>",
    "<small>window, 4 KiB</small></th>",
];

/// Returns a page about two steps of the first world and one of the second, or of the first alone.
fn page_of(rt: &HostRuntime, regions: &[Region], others: &[Region]) -> Result<Vec<u8>, Fail> {
    let mut worlds = Worlds::new(rt.alloc())?;
    worlds.count(&world_of(regions)?, 7, 8);
    worlds.count(&world_of(regions)?, 8, 10);
    worlds.count(&world_of(others)?, 9, 0x200);
    page_with(rt, &start_symbol(rt)?, &worlds, &BOARD)
}

#[test]
fn two_tasks_share_a_mailbox(rt: HostRuntime) -> Result<(), Fail> {
    let page = page_of(&rt, &WRITER, &READER)?;
    let text = str::from_utf8(page.as_slice())?;
    'parts: for part in &PARTS {
        assert!(rt; text.contains(part), "{part}");
    }
    assert!(rt; !text.contains("id='may-9'") && !text.contains("id='apart'"));
    assert!(rt; !text.contains("id='other-"));
    Ok(())
}

#[test]
fn worlds_that_are_apart_have_a_sentence(rt: HostRuntime) -> Result<(), Fail> {
    let two = page_of(&rt, &WRITER[..2], &READER[..2])?;
    assert!(rt; str::from_utf8(two.as_slice())?.contains("<p id='apart'>All worlds are apart"));
    let one = page_of(&rt, &WRITER, &WRITER)?;
    assert!(rt; str::from_utf8(one.as_slice())?.contains("<p id='apart'>There is one world"));
    Ok(())
}
