//! Texts that GDB reads in pieces: the description of the registers, and the map of the memory.

ghost use Rattle.std.specs.Prelude.{◌≡◌, ◌+◌, ◌<◌, ◌≤◌, ◌++◌, length, take};
ghost use Rattle.arrayvec.specs.ArrayVec.{array_vec_len};
ghost use Rattle.gdb_texts.specs.Transfers.{block_text, description, hex_number, memory_map, piece_of, piece_text};
ghost use Rattle.gdb_texts.specs.Transfers.{ram_text, rams_text, without_zeros};
ghost use Rattle.platform.specs.Boards.{numbers_of};

use crate::bytes::put_text;
use crate::replies::{ErrorCode, error_text};
use crate::stops::put_number;
use crate::stretch::Stretch;
use crate::stretches::rams_of;
use arrayvec::ArrayVec;
use devices::Device;
use platform::board::Layout;

/// The most bytes of a piece.
const MAX_PIECE: u32 = 4095;

/// The registers, as GDB numbers them.
pub const DESCRIPTION: &str = "\
<?xml version=\"1.0\"?>
<!DOCTYPE target SYSTEM \"gdb-target.dtd\">
<target version=\"1.0\">
<architecture>arm</architecture>
<feature name=\"org.gnu.gdb.arm.m-profile\">
<reg name=\"r0\" bitsize=\"32\" regnum=\"0\" type=\"uint32\"/>
<reg name=\"r1\" bitsize=\"32\" regnum=\"1\" type=\"uint32\"/>
<reg name=\"r2\" bitsize=\"32\" regnum=\"2\" type=\"uint32\"/>
<reg name=\"r3\" bitsize=\"32\" regnum=\"3\" type=\"uint32\"/>
<reg name=\"r4\" bitsize=\"32\" regnum=\"4\" type=\"uint32\"/>
<reg name=\"r5\" bitsize=\"32\" regnum=\"5\" type=\"uint32\"/>
<reg name=\"r6\" bitsize=\"32\" regnum=\"6\" type=\"uint32\"/>
<reg name=\"r7\" bitsize=\"32\" regnum=\"7\" type=\"uint32\"/>
<reg name=\"r8\" bitsize=\"32\" regnum=\"8\" type=\"uint32\"/>
<reg name=\"r9\" bitsize=\"32\" regnum=\"9\" type=\"uint32\"/>
<reg name=\"r10\" bitsize=\"32\" regnum=\"10\" type=\"uint32\"/>
<reg name=\"r11\" bitsize=\"32\" regnum=\"11\" type=\"uint32\"/>
<reg name=\"r12\" bitsize=\"32\" regnum=\"12\" type=\"uint32\"/>
<reg name=\"sp\" bitsize=\"32\" regnum=\"13\" type=\"data_ptr\"/>
<reg name=\"lr\" bitsize=\"32\" regnum=\"14\" type=\"uint32\"/>
<reg name=\"pc\" bitsize=\"32\" regnum=\"15\" type=\"code_ptr\"/>
<reg name=\"xpsr\" bitsize=\"32\" regnum=\"16\" type=\"uint32\"/>
</feature>
<feature name=\"org.gnu.gdb.arm.m-system\">
<reg name=\"msp\" bitsize=\"32\" regnum=\"17\" type=\"data_ptr\"/>
<reg name=\"psp\" bitsize=\"32\" regnum=\"18\" type=\"data_ptr\"/>
<reg name=\"primask\" bitsize=\"32\" regnum=\"19\" type=\"uint32\"/>
<reg name=\"basepri\" bitsize=\"32\" regnum=\"20\" type=\"uint32\"/>
<reg name=\"faultmask\" bitsize=\"32\" regnum=\"21\" type=\"uint32\"/>
<reg name=\"control\" bitsize=\"32\" regnum=\"22\" type=\"uint32\"/>
</feature>
</target>
";

/// The map of the memory before the first block.
pub const MAP_HEAD: &str = "\
<?xml version=\"1.0\"?>
<!DOCTYPE memory-map PUBLIC \"+//IDN gnu.org//DTD GDB Memory Map V1.0//EN\" \
\"http://sourceware.org/gdb/gdb-memory-map.dtd\">
<memory-map>
";

/// The map of the memory after the last block.
pub const MAP_TAIL: &str = "</memory-map>\n";

/// Returns the description of the registers.
#[tactic(auto, unfolding(crate::specs::Transfers::description))]
pub fn description() -> &'static [u8]
    ensures { result.now ≡ description }
{
    DESCRIPTION.as_bytes()
}

/// Returns at most this many bytes of a text.
fn at_most(count: u32, text: &[u8]) -> &[u8]
    requires { count < length text.now }
    ensures text { result.now ≡ take count text.now }
    ensures len { length result.now ≡ count }
{
    &text[..count as usize]
}

/// Appends `l` and the rest of a text, where it has at most `count` bytes, or else `m` and its first `count` bytes.
fn put_piece_of<const ROOM: usize>(page: &mut ArrayVec<u8, ROOM>, rest: &[u8], count: u32)
    requires few { count ≤ 4095 }
    requires room { array_vec_len page.old + 4096 ≤ ROOM }
    ensures { page.new.items ≡ page.old.items ++ piece_of rest.now count }
{
    if rest.len() <= count as usize {
        put_text(page, b"l");
        put_text(page, rest);
    } else {
        put_text(page, b"m");
        put_text(page, at_most(count, rest));
    }
}

/// Appends the reply to a request for `count` bytes of a text, from an offset on.
pub fn put_piece<const ROOM: usize>(
    page: &mut ArrayVec<u8, ROOM>,
    text: &[u8],
    offset: u32,
    count: u32,
)
    requires { array_vec_len page.old + 4096 ≤ ROOM }
    ensures { page.new.items ≡ page.old.items ++ piece_text text.now offset count }
{
    if text.len() < offset as usize {
        put_text(page, error_text(ErrorCode::Malformed));
    } else {
        put_piece_of(page, &text[offset as usize..], count.min(MAX_PIECE));
    }
}

/// Returns digits without zeros in front.
#[tactic(auto, unfolding(crate::specs::Transfers::without_zeros))]
fn without_zeros(digits: &[u8]) -> &[u8]
    ensures text { result.now ≡ without_zeros digits.now }
    ensures len { length result.now ≤ length digits.now }
{
    let mut rest = digits;
    'zeros: while let [b'0', more @ ..] = rest {
        rest = more;
    }
    rest
}

/// Appends a number in hexadecimal, without zeros in front.
#[tactic(auto, unfolding(crate::specs::Transfers::hex_number))]
pub fn put_hex_number<const ROOM: usize>(page: &mut ArrayVec<u8, ROOM>, number: u32)
    requires { array_vec_len page.old + 8 ≤ ROOM }
    ensures text { page.new.items ≡ page.old.items ++ hex_number number }
    ensures len { array_vec_len page.new ≤ array_vec_len page.old + 8 }
{
    if number == 0 {
        put_text(page, b"0");
    } else {
        let mut digits: ArrayVec<u8, 8> = ArrayVec::new();
        put_number(&mut digits, number);
        put_text(page, without_zeros(digits.as_slice()));
    }
}

/// Appends a block of memory, by the text in front of its start.
fn put_block<const ROOM: usize>(page: &mut ArrayVec<u8, ROOM>, before: &[u8], start: u32, size: u32)
    requires { array_vec_len page.old + length before.now + 32 ≤ ROOM }
    ensures text { page.new.items ≡ page.old.items ++ block_text before.now start size }
    ensures len { array_vec_len page.new ≤ array_vec_len page.old + length before.now + 32 }
{
    put_text(page, before);
    put_hex_number(page, start);
    put_text(page, b"\" length=\"0x");
    put_hex_number(page, size);
    put_text(page, b"\"/>\n");
}

/// Appends blocks of RAM.
fn put_rams<const ROOM: usize>(page: &mut ArrayVec<u8, ROOM>, stretches: &[Stretch])
    requires few { length stretches.now ≤ 262 }
    requires room { array_vec_len page.old + 16_768 ≤ ROOM }
    ensures text { page.new.items ≡ page.old.items ++ rams_text stretches.now }
    ensures len { array_vec_len page.new ≤ array_vec_len page.old + 16_768 }
{
    'stretches: for stretch in stretches {
        put_ram(page, *stretch);
    }
}

/// Appends a block of RAM.
fn put_ram<const ROOM: usize>(page: &mut ArrayVec<u8, ROOM>, block: Stretch)
    requires { array_vec_len page.old + 64 ≤ ROOM }
    ensures text { page.new.items ≡ page.old.items ++ ram_text block }
    ensures len { array_vec_len page.new ≤ array_vec_len page.old + 64 }
{
    put_block(
        page,
        b"<memory type=\"ram\" start=\"0x",
        block.base,
        block.size(),
    );
}

/// Appends the map of the memory of a board.
#[tactic(auto, unfolding(crate::specs::Transfers::memory_map))]
pub fn put_memory_map<const ROOM: usize>(
    page: &mut ArrayVec<u8, ROOM>,
    layout: &Layout,
    devices: &[Device],
)
    requires few { length devices.now ≤ 256 }
    requires room { array_vec_len page.old + 17_408 ≤ ROOM }
    ensures { page.new.items ≡ page.old.items ++ memory_map (numbers_of layout.now) devices.now }
{
    put_text(page, MAP_HEAD.as_bytes());
    put_block(
        page,
        b"<memory type=\"rom\" start=\"0x",
        layout.flash_base,
        layout.flash_size,
    );
    put_rams(page, rams_of(layout, devices).as_slice());
    put_text(page, MAP_TAIL.as_bytes());
}
