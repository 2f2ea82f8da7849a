//! The program headers of an ELF file (TIS ELF 1.2, "Object Files"), as a message shows them. Their fields and tests
//! are those of the loader.

ghost use Rattle.std.specs.Prelude.{◌≡◌, ◌+◌, ◌*◌, ◌≤◌, ◌<◌, length, IfSome};
ghost use Rattle.elf.specs.Images.{e_phnum, e_phoff};
ghost use Rattle.reasons.specs.Segments.{IsAt, header_at, segment_if};

use elf::{
    E_PHNUM, E_PHOFF, ELF_HEADER_SIZE, PROGRAM_HEADER_SIZE, Segment, halfword, is_segment,
    segment_of_header, word,
};

/// The program header table of a file: where it begins and ends, and how many headers it has.
#[derive(Clone, Copy)]
pub struct HeaderTable {
    pub place: usize,
    pub end: usize,
    pub count: usize,
}

/// A segment of a file, and the position of its program header in the table, from 0.
#[derive(Clone, Copy)]
pub struct NumberedSegment<'a> {
    pub index: usize,
    pub segment: Segment<'a>,
}

/// Returns the table that the ELF header of a file names, also where the file ends before it does.
pub fn table_of(file: &[u8]) -> HeaderTable
    requires { ELF_HEADER_SIZE ≤ length file.now }
    ensures place { result.place ≡ e_phoff file.now }
    ensures count { result.count ≡ e_phnum file.now }
    ensures end { result.end ≡ result.place + PROGRAM_HEADER_SIZE * result.count }
{
    let place = word(file, E_PHOFF) as usize;
    let count = halfword(file, E_PHNUM) as usize;
    HeaderTable {
        place,
        end: place + PROGRAM_HEADER_SIZE * count,
        count,
    }
}

/// Returns the table of a file that has all of it.
pub fn whole_table(file: &[u8]) -> Option<HeaderTable>
    ensures end { IfSome result (λ table. table.end ≡ table.place + PROGRAM_HEADER_SIZE * table.count) }
    ensures within { IfSome result (λ table. table.end ≤ length file.now) }
{
    if file.len() < ELF_HEADER_SIZE {
        return None;
    }
    let table = table_of(file);
    if table.end > file.len() {
        return None;
    }
    Some(table)
}

/// Returns the segment of the program header at a position of the table, where it is of one that lies in the
/// file.
pub fn segment_at<'a>(
    file: &'a [u8],
    table: HeaderTable,
    index: usize,
) -> Option<NumberedSegment<'a>>
    requires one { index < table.count }
    requires end { table.end ≡ table.place + PROGRAM_HEADER_SIZE * table.count }
    requires within { table.end ≤ length file.now }
    ensures { IsAt index (segment_if file.now (header_at table index)) result }
{
    let place = table.place + PROGRAM_HEADER_SIZE * index;
    if !is_segment(file, place) {
        return None;
    }
    match segment_of_header(file, place) {
        Ok(segment) => Some(NumberedSegment { index, segment }),
        Err(_) => None,
    }
}
