//! Why an image is refused: the field of the header and its value.

ghost use Rattle.std.specs.Prelude.{◌≡◌, ◌+◌, ◌*◌, ◌≤◌, ◌<◌, length, true};
ghost use Rattle.elf.specs.Segment.{segment_of};
ghost use Rattle.reasons.specs.Segments.{IsFirst, IsFirstSegmentWith, IsFirstPair, Picks, PicksPair, SharesLater};
ghost use Rattle.reasons.specs.Segments.{header_at};
ghost use Rattle.reasons.specs.Segments.{lies_outside, segment_if};

use crate::header::{HeaderTable, NumberedSegment, segment_at, table_of};
use elf::{
    E_MACHINE, E_PHENTSIZE, E_PHNUM, E_TYPE, EI_CLASS, EI_DATA, ELF_HEADER_SIZE, ELFCLASS32,
    ELFDATA2LSB, EM_ARM, ET_EXEC, LoadError, MAX_SEGMENTS, P_FILESZ, P_OFFSET, PROGRAM_HEADER_SIZE,
    halfword, is_segment, segment_of_header, share_an_address, word,
};
use std::io;
use std::io::Write;

/// Writes why `load` refuses a file.
pub fn write_image_reason<W: Write>(out: &mut W, file: &[u8], error: LoadError) -> io::Result<()> {
    let length = file.len();
    if length < ELF_HEADER_SIZE {
        return writeln!(
            out,
            "the file has {length} bytes, and an ELF header has {ELF_HEADER_SIZE}"
        );
    }
    match error {
        LoadError::NotElf => write_magic(out, file),
        LoadError::NotElf32Little => write_class(out, file),
        LoadError::NotExecutable => {
            let kind = halfword(file, E_TYPE);
            writeln!(
                out,
                "e_type is {kind}, where {ET_EXEC} is needed: link it, and not with -r, -shared or -pie"
            )
        }
        LoadError::NotArm => {
            let machine = halfword(file, E_MACHINE);
            writeln!(out, "e_machine is {machine}, where {EM_ARM} is needed: ARM")
        }
        LoadError::HeaderSize => {
            let size = halfword(file, E_PHENTSIZE);
            writeln!(
                out,
                "e_phentsize is {size}, where {PROGRAM_HEADER_SIZE} is needed"
            )
        }
        LoadError::TooManySegments => {
            let count = halfword(file, E_PHNUM);
            writeln!(
                out,
                "e_phnum is {count}, and at most {MAX_SEGMENTS} program headers are read"
            )
        }
        LoadError::Truncated | LoadError::SegmentOutsideFile | LoadError::SegmentOverlap => {
            write_table_reason(out, file, error)
        }
    }
}

/// Writes the first four bytes.
fn write_magic<W: Write>(out: &mut W, file: &[u8]) -> io::Result<()>
    requires { ELF_HEADER_SIZE ≤ length file.now }
{
    let magic = word(file, 0).swap_bytes();
    writeln!(
        out,
        "the file begins with {magic:08X}, and an ELF file with 7F454C46"
    )
}

/// Writes the class and the order of bytes.
fn write_class<W: Write>(out: &mut W, file: &[u8]) -> io::Result<()>
    requires { ELF_HEADER_SIZE ≤ length file.now }
{
    let (class, order) = (file[EI_CLASS], file[EI_DATA]);
    writeln!(
        out,
        "e_ident[EI_CLASS] is {class} and e_ident[EI_DATA] is {order}, where {ELFCLASS32} and \
         {ELFDATA2LSB} are needed: 32 bits, little endian"
    )
}

/// Writes what is wrong with the program header table, or with the segments in it.
fn write_table_reason<W: Write>(out: &mut W, file: &[u8], error: LoadError) -> io::Result<()>
    requires { ELF_HEADER_SIZE ≤ length file.now }
{
    let length = file.len();
    let table = table_of(file);
    if table.end > length {
        let (place, end) = (table.place, table.end);
        return writeln!(
            out,
            "e_phoff is {place}: the program headers end at byte {end}, and the file has {length} bytes"
        );
    }
    if let Some(index) = outside(file, table) {
        return write_outside(out, file, table, index);
    }
    match overlap(file, table) {
        Some((one, other)) => write_overlap(out, &one, &other),
        None => writeln!(out, "{error}"),
    }
}

/// Returns the position of the first program header whose segment doesn't lie in the file.
fn outside(file: &[u8], table: HeaderTable) -> Option<usize>
    requires end { table.end ≡ table.place + PROGRAM_HEADER_SIZE * table.count }
    requires within { table.end ≤ length file.now }
    ensures { IsFirst (λ k. lies_outside file.now (header_at table k) ≡ true) table.count result }
{
    'headers: for index in 0..table.count {
        if lies_outside(file, table.place + PROGRAM_HEADER_SIZE * index) {
            return Some(index);
        }
    }
    None
}

/// Returns whether the program header at a place is of a segment whose bytes don't lie in the file.
fn lies_outside(file: &[u8], place: usize) -> bool
    requires { place + PROGRAM_HEADER_SIZE ≤ length file.now }
    ensures { result ≡ lies_outside file.now place }
{
    if !is_segment(file, place) {
        return false;
    }
    match segment_of_header(file, place) {
        Ok(_) => false,
        Err(_) => true,
    }
}

/// Writes where the bytes of the segment of a program header are.
fn write_outside<W: Write>(
    out: &mut W,
    file: &[u8],
    table: HeaderTable,
    index: usize,
) -> io::Result<()>
    requires one { index < table.count }
    requires end { table.end ≡ table.place + PROGRAM_HEADER_SIZE * table.count }
    requires within { table.end ≤ length file.now }
{
    let length = file.len();
    let place = table.place + PROGRAM_HEADER_SIZE * index;
    let offset = word(file, place + P_OFFSET);
    let size = word(file, place + P_FILESZ);
    writeln!(
        out,
        "program header {index}: p_offset is {offset} and p_filesz is {size}, and the file has \
         {length} bytes"
    )
}

/// Returns the first two segments that share an address: the first one that does with a later one, and the first
/// of those.
fn overlap<'a>(
    file: &'a [u8],
    table: HeaderTable,
) -> Option<(NumberedSegment<'a>, NumberedSegment<'a>)>
    requires end { table.end ≡ table.place + PROGRAM_HEADER_SIZE * table.count }
    requires within { table.end ≤ length file.now }
    ensures { IsFirstPair (λ k. segment_if file.now (header_at table k)) table.count result }
{
    'headers: for index in 0..table.count {
        if let Some(pair) = overlap_at(file, table, index) {
            return Some(pair);
        }
    }
    None
}

/// Returns the segment of the program header at a position of the table, and the first one after it that shares an
/// address with it.
fn overlap_at<'a>(
    file: &'a [u8],
    table: HeaderTable,
    index: usize,
) -> Option<(NumberedSegment<'a>, NumberedSegment<'a>)>
    requires one { index < table.count }
    requires end { table.end ≡ table.place + PROGRAM_HEADER_SIZE * table.count }
    requires within { table.end ≤ length file.now }
    ensures { PicksPair (λ k. segment_if file.now (header_at table k)) table.count index result }
{
    let one = segment_at(file, table, index)?;
    let other = overlap_with(file, table, &one)?;
    Some((one, other))
}

/// Returns the first segment after another that shares an address with it.
fn overlap_with<'a>(
    file: &'a [u8],
    table: HeaderTable,
    one: &NumberedSegment<'a>,
) -> Option<NumberedSegment<'a>>
    requires end { table.end ≡ table.place + PROGRAM_HEADER_SIZE * table.count }
    requires within { table.end ≤ length file.now }
    ensures { IsFirstSegmentWith (λ k. segment_if file.now (header_at table k)) (SharesLater
        (λ k. segment_if file.now (header_at table k)) (segment_of one.now.segment) one.now.index) table.count result }
{
    'headers: for index in 0..table.count {
        if let Some(other) = overlap_with_at(file, table, one, index) {
            return Some(other);
        }
    }
    None
}

/// Returns the segment of the program header at a position of the table, where it is after another one and shares an
/// address with it.
fn overlap_with_at<'a>(
    file: &'a [u8],
    table: HeaderTable,
    one: &NumberedSegment<'a>,
    index: usize,
) -> Option<NumberedSegment<'a>>
    requires one { index < table.count }
    requires end { table.end ≡ table.place + PROGRAM_HEADER_SIZE * table.count }
    requires within { table.end ≤ length file.now }
    ensures { Picks (λ k. segment_if file.now (header_at table k)) (SharesLater
        (λ k. segment_if file.now (header_at table k)) (segment_of one.now.segment) one.now.index index) index result }
{
    if index <= one.index {
        return None;
    }
    let other = segment_at(file, table, index)?;
    if share_an_address(&one.segment, &other.segment) {
        Some(other)
    } else {
        None
    }
}

/// Writes the addresses of two segments.
fn write_overlap<W: Write>(
    out: &mut W,
    one: &NumberedSegment<'_>,
    other: &NumberedSegment<'_>,
) -> io::Result<()> {
    let (first, first_address, first_size) = (
        one.index,
        one.segment.address,
        one.segment.bytes.len(),
    );
    let (second, second_address, second_size) = (
        other.index,
        other.segment.address,
        other.segment.bytes.len(),
    );
    writeln!(
        out,
        "program header {first} has {first_size} bytes at {first_address:08X}, and program header \
         {second} has {second_size} bytes at {second_address:08X}"
    )
}
