//! "Program Header": the segments that a file's program headers describe.

ghost use Rattle.std.specs.Prelude.{◌≡◌, ◌+◌, ◌*◌, ◌≤◌, length};
ghost use Rattle.platform.specs.Images.{is_segment, segments_of};
ghost use Rattle.elf.specs.Segment.{Gives, segment_in, segment_of};

use crate::image::{Image, MAX_SEGMENTS, Segment};
use crate::number::word;
use arrayvec::ArrayVec;
use platform::error::LoadError;

/// The size of a program header in bytes.
pub const PROGRAM_HEADER_SIZE: usize = 32;

const P_TYPE: usize = 0;

/// The place of the place of its bytes in the file, a word, from its beginning.
pub const P_OFFSET: usize = 4;

const P_PADDR: usize = 12;

/// The place of the number of its bytes in the file, a word, from its beginning.
pub const P_FILESZ: usize = 16;

// The type of a segment that is to be loaded.
const PT_LOAD: u32 = 1;

// The segments of `count` program headers from `table` on.
pub fn image_of_headers(file: &[u8], table: usize, count: usize) -> Result<Image<'_>, LoadError>
    requires few { count ≤ MAX_SEGMENTS }
    requires within { table + PROGRAM_HEADER_SIZE * count ≤ length file.now }
    ensures { result ≡ segments_of file.now table count }
{
    let mut segments = ArrayVec::new();
    'headers: for index in 0..count {
        let at = table + PROGRAM_HEADER_SIZE * index;
        if is_segment(file, at) {
            segments.push(segment_of_header(file, at)?);
        }
    }
    Ok(Image::new(segments))
}

/// Returns whether the program header at a place of the file is of a segment: it is to be loaded, and has
/// bytes.
pub fn is_segment(file: &[u8], at: usize) -> bool
    requires { at + PROGRAM_HEADER_SIZE ≤ length file.now }
    ensures { result ≡ is_segment file.now at }
{
    word(file, at + P_TYPE) == PT_LOAD && word(file, at + P_FILESZ) != 0
}

/// Returns the segment of the program header at a place of the file, where its bytes lie in the file, and else
/// SegmentOutsideFile.
pub fn segment_of_header(file: &[u8], at: usize) -> Result<Segment<'_>, LoadError>
    requires { at + PROGRAM_HEADER_SIZE ≤ length file.now }
    ensures { Gives segment_of result (segment_in file.now at) }
{
    let offset = word(file, at + P_OFFSET) as usize;
    let end = offset + word(file, at + P_FILESZ) as usize;
    if end > file.len() {
        return Err(LoadError::SegmentOutsideFile);
    }
    Ok(Segment {
        address: word(file, at + P_PADDR),
        bytes: &file[offset..end],
    })
}
