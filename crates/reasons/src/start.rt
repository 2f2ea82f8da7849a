//! Why a machine doesn't start: the segment that is outside memory.

ghost use Rattle.std.specs.Prelude.{◌≡◌, ◌+◌, ◌*◌, ◌≤◌, ◌<◌, length};
ghost use Rattle.elf.specs.Segment.{segment_of};
ghost use Rattle.reasons.specs.Segments.{IsFirstSegmentWith, IsUnplaced, Picks, header_at, segment_if};
ghost use Rattle.platform.specs.Boards.{numbers_of};
ghost use Rattle.platform.specs.Images.{is_placed};
ghost use Rattle.platform.specs.Boards.{blank, blank_second};

use crate::header::{HeaderTable, NumberedSegment, segment_at, whole_table};
use elf::{PROGRAM_HEADER_SIZE, Segment};
use physical_memory::is_within;
use platform::board::Layout;
use platform::error::StartError;
use platform::map::RAM_BASE;
use std::io;
use std::io::Write;

/// Writes why a machine with this memory doesn't start with an image.
pub fn write_start_reason<W: Write>(
    out: &mut W,
    file: &[u8],
    layout: &Layout,
    error: StartError,
) -> io::Result<()> {
    match error {
        StartError::SegmentOutsideMemory => match outside(file, layout) {
            Some(numbered) => write_outside(out, &numbered, layout),
            None => writeln!(out, "{error}"),
        },
        StartError::NoMemory => write_need(out, layout, error),
    }
}

/// Writes how much memory a machine takes.
fn write_need<W: Write>(out: &mut W, layout: &Layout, error: StartError) -> io::Result<()> {
    let second = match layout.second_ram {
        Some(second) => second.size,
        None => 0,
    };
    let bytes = u64::from(layout.flash_size) + u64::from(layout.ram_size) + u64::from(second);
    writeln!(
        out,
        "{error}: flash and RAM take {bytes} bytes, and events and decoded instructions some more"
    )
}

/// Returns the first segment that is neither wholly in flash nor wholly in a RAM.
fn outside<'a>(file: &'a [u8], layout: &Layout) -> Option<NumberedSegment<'a>> {
    let table = whole_table(file)?;
    first_unplaced(file, table, layout)
}

/// Returns the first segment of a table that is neither wholly in flash nor wholly in a RAM.
fn first_unplaced<'a>(
    file: &'a [u8],
    table: HeaderTable,
    layout: &Layout,
) -> Option<NumberedSegment<'a>>
    requires end { table.end ≡ table.place + PROGRAM_HEADER_SIZE * table.count }
    requires within { table.end ≤ length file.now }
    ensures { IsFirstSegmentWith (λ k. segment_if file.now (header_at table k))
        (λ k. IsUnplaced (blank (numbers_of layout.now)) (segment_if file.now (header_at table k))) table.count
        result }
{
    'headers: for index in 0..table.count {
        if let Some(numbered) = unplaced_at(file, table, index, layout) {
            return Some(numbered);
        }
    }
    None
}

/// Returns the segment of the program header at a position of the table, where it is neither wholly in flash nor
/// wholly in a RAM.
fn unplaced_at<'a>(
    file: &'a [u8],
    table: HeaderTable,
    index: usize,
    layout: &Layout,
) -> Option<NumberedSegment<'a>>
    requires one { index < table.count }
    requires end { table.end ≡ table.place + PROGRAM_HEADER_SIZE * table.count }
    requires within { table.end ≤ length file.now }
    ensures { Picks (λ k. segment_if file.now (header_at table k))
        (IsUnplaced (blank (numbers_of layout.now)) (segment_if file.now (header_at table index))) index result }
{
    match segment_at(file, table, index) {
        Some(numbered) => {
            if is_placed(&numbered.segment, layout) {
                None
            } else {
                Some(numbered)
            }
        }
        None => None,
    }
}

/// Returns whether a segment is wholly in flash or wholly in one of the RAMs.
fn is_placed(segment: &Segment<'_>, layout: &Layout) -> bool
    ensures { result ≡ is_placed (blank (numbers_of layout.now)) (segment_of segment.now) }
{
    let length = segment.bytes.len();
    is_within(
        layout.flash_base,
        layout.flash_size as usize,
        segment.address,
        length,
    ) || is_within(RAM_BASE, layout.ram_size as usize, segment.address, length)
        || is_placed_second(segment, layout)
}

/// Returns whether a segment is wholly in the second RAM, where the board has one.
fn is_placed_second(segment: &Segment<'_>, layout: &Layout) -> bool
    ensures { result ≡ is_placed (blank_second (numbers_of layout.now).second_ram) (segment_of segment.now) }
{
    match layout.second_ram {
        Some(second) => is_within(
            second.base,
            second.size as usize,
            segment.address,
            segment.bytes.len(),
        ),
        None => false,
    }
}

/// Writes the addresses of a segment and of the memory.
fn write_outside<W: Write>(
    out: &mut W,
    numbered: &NumberedSegment<'_>,
    layout: &Layout,
) -> io::Result<()> {
    let (index, address, size) = (
        numbered.index,
        numbered.segment.address,
        numbered.segment.bytes.len(),
    );
    let (base, flash, ram) = (layout.flash_base, layout.flash_size, layout.ram_size);
    write!(
        out,
        "program header {index} has {size} bytes at {address:08X} (p_paddr), and the board has \
         {flash} bytes of flash at {base:08X} and {ram} bytes of RAM at {RAM_BASE:08X}"
    )?;
    write_second_ram(out, layout)?;
    writeln!(out)
}

/// Writes the addresses of the second RAM, where the board has one.
pub fn write_second_ram<W: Write>(out: &mut W, layout: &Layout) -> io::Result<()> {
    match layout.second_ram {
        Some(second) => {
            let (base, size) = (second.base, second.size);
            write!(out, ", and {size} bytes at {base:08X}")
        }
        None => Ok(()),
    }
}
