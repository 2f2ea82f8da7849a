//! Files with as many program headers as there may be.

use super::machines::NO_SEGMENTS;
use arrayvec::ArrayVec;
use elf::{LoadError, Segment, load};
use std::test::*;

/// The bytes of a file.
type File = ArrayVec<u8, 2104>;

/// The place of e_phnum in an ELF header (TIS ELF 1.2, "ELF Header").
const PROGRAM_HEADER_COUNT: usize = 0x2C;

/// p_type, p_offset and p_vaddr of a segment of the bytes at 834; and all after the first byte of p_paddr: its other
/// bytes, a p_filesz of four, p_memsz, p_flags and p_align.
const HEADER_BEFORE: [u8; 12] = [1, 0, 0, 0, 0x34, 8, 0, 0, 0, 0, 0, 0];

const HEADER_AFTER: [u8; 19] = [0, 0, 0, 4, 0, 0, 0, 0, 0, 0, 0, 0, 0, 0, 0, 0, 0, 0, 0];

/// Appends a program header of the four bytes at 834 to a file.
fn push_program_header(file: &mut File, address: u8) -> Option<()> {
    file.try_extend_from_slice(&HEADER_BEFORE).ok()?;
    file.try_push(address).ok()?;
    file.try_extend_from_slice(&HEADER_AFTER).ok()
}

/// A table of 64 program headers, all of the four bytes after it, at addresses that are 4 apart;
/// the last of them goes to `last`.
fn crowded(last: u8) -> Option<File> {
    let mut file = File::new();
    file.try_extend_from_slice(&NO_SEGMENTS).ok()?;
    *file.get_mut(PROGRAM_HEADER_COUNT)? = 64;
    'headers: for index in 0..63 {
        push_program_header(&mut file, 4 * index)?;
    }
    push_program_header(&mut file, last)?;
    file.try_extend_from_slice(&[0; 4]).ok()?;
    Some(file)
}

/// Returns whether there are 64 segments of four bytes, at addresses that are 4 apart.
fn are_64(segments: &[Segment<'_>]) -> bool {
    'segments: for (index, segment) in segments.iter().enumerate() {
        if segment.address as usize / 4 != index || segment.bytes.len() != 4 {
            return false;
        }
    }
    segments.len() == 64
}

/// Returns whether a table of 64 program headers is taken where the segments are apart, and is
/// refused where the last two aren't.
fn are_64_taken() -> Option<bool> {
    let apart = crowded(252)?;
    let overlapped = crowded(249)?;
    let image = load(apart.as_slice()).ok()?;
    let refusal = load(overlapped.as_slice());
    Some(are_64(image.segments()) && matches!(refusal, Err(LoadError::SegmentOverlap)))
}

#[test]
fn max_program_headers(rt: HostRuntime) {
    assert!(rt; are_64_taken() == Some(true), "64 program headers");
}
