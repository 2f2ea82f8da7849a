//! Files by their bytes (TIS ELF 1.2, "Object Files"). The expected answers come from the rules of ELF
//! files, not from the loader.

use arrayvec::ArrayVec;
use elf::{LoadError, Segment, load};
use std::alloc::Global;
use std::io;
use test_tables::{Outcome, byte_at, compared, numbers, pair, part};

/// The bytes of a file.
type File = ArrayVec<u8, 2104>;

/// Appends a byte to those of a file.
fn push_byte(file: &mut File, byte: u8) -> Option<()> {
    file.try_push(byte).ok()
}

/// Appends bytes to those of a file. The text has this character between two of them.
fn push_bytes(file: &mut File, text: &str, between: char) -> Option<()> {
    'bytes: for byte in text.split(between) {
        push_byte(file, byte_at(byte, 0)?)?;
    }
    Some(())
}

/// The file of a listing, whose lines have bytes before the bar and say after it what they are.
fn file_of(listing: &str) -> Option<File> {
    let mut file = File::new();
    'lines: for line in listing.lines() {
        push_bytes(&mut file, part(line, 0), ' ')?;
    }
    Some(file)
}

/// Puts a byte at a place of a file, if it has the place: a word has both.
fn put(file: &mut File, word: &str) -> Option<()> {
    let (place, byte) = pair(word)?;
    *file.get_mut(place as usize)? = u8::try_from(byte).ok()?;
    Some(())
}

/// The file of a listing with other bytes at places.
fn edited(listing: &str, edits: &str) -> Option<File> {
    let mut file = file_of(listing)?;
    'edits: for edit in edits.split_whitespace() {
        put(&mut file, edit)?;
    }
    Some(file)
}

/// The name of a refusal.
fn name(error: LoadError) -> &'static str {
    match error {
        LoadError::Truncated => "Truncated",
        LoadError::NotElf => "NotElf",
        LoadError::NotElf32Little => "NotElf32Little",
        LoadError::NotExecutable => "NotExecutable",
        LoadError::NotArm => "NotArm",
        LoadError::HeaderSize => "HeaderSize",
        LoadError::SegmentOutsideFile => "SegmentOutsideFile",
        LoadError::SegmentOverlap => "SegmentOverlap",
        LoadError::TooManySegments => "TooManySegments",
    }
}

/// Appends the address and the bytes of a segment to an answer.
fn write_segment(answer: &mut String, segment: &Segment<'_>) -> Option<()> {
    let address = segment.address;
    write!(answer, " {address:X}").ok()?;
    let mut between = ':';
    'bytes: for byte in segment.bytes {
        write!(answer, "{between}{byte:02X}").ok()?;
        between = '.';
    }
    Some(())
}

/// What a file is: the name of its refusal, or `taken` and its segments.
fn answer(alloc: Global, file: &[u8]) -> Option<String> {
    match load(file) {
        Err(error) => name(error).to_string(alloc).ok(),
        Ok(image) => {
            let mut answer = "taken".to_string(alloc).ok()?;
            'segments: for segment in image.segments() {
                write_segment(&mut answer, segment)?;
            }
            Some(answer)
        }
    }
}

/// What the file of a listing with the other bytes of a row is.
fn edited_answer(alloc: Global, listing: &str, row: &str) -> Option<String> {
    let file = edited(listing, part(row, 0))?;
    answer(alloc, file.as_slice())
}

/// What beginnings of the worked file with the other bytes of a row are: all the same, or the first other one.
fn beginnings(alloc: Global, row: &str) -> Option<String> {
    let file = edited(WORKED, part(row, 0))?;
    let [least, end] = numbers::<2>(part(row, 1))?;
    let mut answered = answer(alloc, file.as_slice().get(..least as usize)?)?;
    'lengths: for length in least..end {
        let next = answer(alloc, file.as_slice().get(..length as usize)?)?;
        if next.as_str() != answered.as_str() {
            write!(answered, " but {next} of {length:X} bytes").ok()?;
            return Some(answered);
        }
    }
    Some(answered)
}

/// Returns the outcome of a row that is a listing, and in its last line what the file is.
fn listing(alloc: Global, row: &str) -> io::Result<Outcome> {
    let mut file = File::new();
    let mut end = None;
    'lines: for (place, line) in row.lines().enumerate().skip(1) {
        if end.is_some() {
            return Ok(Outcome::Unreadable);
        }
        if push_bytes(&mut file, line, ' ').is_none() {
            end = Some(place);
        }
    }
    match end {
        Some(place) => {
            let wanted = row.lines().nth(place).unwrap_or("");
            compared(alloc, wanted, answer(alloc, file.as_slice()))
        }
        None => Ok(Outcome::Unreadable),
    }
}

/// Returns the outcome of a row of a table of files.
pub fn outcome(alloc: Global, table: &str, row: &str) -> io::Result<Outcome> {
    match table {
        "files" => compared(alloc, part(row, 1), edited_answer(alloc, WORKED, row)),
        "pairs" => compared(alloc, part(row, 1), edited_answer(alloc, PAIRED, row)),
        "beginnings" => compared(alloc, part(row, 2), beginnings(alloc, row)),
        "listings" => listing(alloc, row),
        _ => Ok(Outcome::Unreadable),
    }
}

/// A header at 0, one program header at 34, and its segment's 12 bytes from 54 on.
const WORKED: &str = "\
7F 45 4C 46 01 01 01 00              | e_ident
00 00 00 00 00 00 00 00
02 00 28 00 01 00 00 00              | e_type, e_machine, e_version
09 00 00 00 34 00 00 00 00 00 00 00  | e_entry, e_phoff, e_shoff
00 00 00 05 34 00                    | e_flags, e_ehsize
20 00 01 00                          | e_phentsize, e_phnum
28 00 00 00 00 00                    | e_shentsize, e_shnum, e_shstrndx
01 00 00 00 54 00 00 00 00 00 00 00  | p_type, p_offset, p_vaddr
00 00 00 00 0C 00 00 00 0C 00 00 00  | p_paddr, p_filesz, p_memsz
05 00 00 00 04 00 00 00              | p_flags, p_align
00 10 00 20                          | the segment
09 00 00 00
05 20 00 BE";

/// A header at 0, two program headers from 34 on, and the four bytes of both segments at 74.
const PAIRED: &str = "\
7F 45 4C 46 01 01 01 00              | e_ident
00 00 00 00 00 00 00 00
02 00 28 00 01 00 00 00              | e_type, e_machine, e_version
09 00 00 00 34 00 00 00 00 00 00 00  | e_entry, e_phoff, e_shoff
00 00 00 05 34 00                    | e_flags, e_ehsize
20 00 02 00                          | e_phentsize, e_phnum
28 00 00 00 00 00                    | e_shentsize, e_shnum, e_shstrndx
01 00 00 00 74 00 00 00 00 00 00 00  | p_type, p_offset, p_vaddr
00 00 00 90 04 00 00 00 04 00 00 00  | p_paddr, p_filesz, p_memsz
05 00 00 00 04 00 00 00              | p_flags, p_align
01 00 00 00 74 00 00 00 00 00 00 00  | the same of the second
00 00 00 90 04 00 00 00 04 00 00 00
05 00 00 00 04 00 00 00
01 02 03 04                          | the segments";
