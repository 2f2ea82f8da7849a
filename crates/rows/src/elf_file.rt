//! ELF files that rows describe: segments of words and of halfwords, each with its program header.

use std::alloc::Global;
use test_tables::{number, number_at, word};

/// An ELF file without program headers: all of flash is 0xFF. Its lines are e_ident, then the fields up to e_entry, up
/// to e_flags, and the others.
pub static NO_SEGMENTS: [u8; 52] = *b"\
\x7fELF\x01\x01\x01\0\0\0\0\0\0\0\0\0\
\x02\0\x28\0\x01\0\0\0\0\0\0\0\
\x34\0\0\0\0\0\0\0\0\0\0\x05\
\x34\0\x20\0\0\0\0\0\0\0\0\0";

/// The file examples/first.elf: MOV R0, #5 and BKPT 0 at address 8. Its lines are four of the ELF header, as in
/// `NO_SEGMENTS`; two of the program header; the vector table; and the code.
pub static FIRST: [u8; 96] = *b"\
\x7fELF\x01\x01\x01\0\0\0\0\0\0\0\0\0\
\x02\0\x28\0\x01\0\0\0\0\0\0\0\
\x34\0\0\0\0\0\0\0\0\0\0\x05\
\x34\0\x20\0\x01\0\0\0\0\0\0\0\
\x01\0\0\0\x54\0\0\0\0\0\0\0\0\0\0\0\
\x0c\0\0\0\x0c\0\0\0\x05\0\0\0\x04\0\0\0\
\0\x10\0\x20\x09\0\0\0\
\x05\x20\0\xbe";

/// The main stack pointer of a vector table, just past the first 4 KiB of RAM.
const STACK: u32 = 0x2000_1000;

/// The handler of each exception, from its address on.
const HANDLER: u32 = 0x201;

/// A program header's p_type of a segment that is loaded.
const LOADED: u32 = 1;

/// A file as far as it is built: the bytes of its segments, which follow the ELF header, and the program
/// headers, which follow them.
#[derive(Drop)]
pub struct ElfFile {
    content: Vec<u8>,
    headers: Vec<u8>,
}

impl ElfFile {
    pub fn new(alloc: Global) -> Self {
        ElfFile {
            content: Vec::new(alloc),
            headers: Vec::new(alloc),
        }
    }

    pub fn is_empty(&self) -> bool {
        self.headers.is_empty()
    }

    /// Adds the segment of a line: `vectors ADDRESS`, a vector table at 0 with this reset vector; or
    /// `data ADDRESS WORD..` or `code ADDRESS HALFWORD..`.
    pub fn add(&mut self, line: &str) -> Option<()> {
        let start = self.content.len();
        let number = number_at(line, 1)?;
        match word(line, 0) {
            "vectors" => {
                push_vectors(&mut self.content, number)?;
                self.push_header(0, start)
            }
            "data" => {
                push_words(&mut self.content, line)?;
                self.push_header(number, start)
            }
            "code" => {
                push_halfwords(&mut self.content, line)?;
                self.push_header(number, start)
            }
            _ => None,
        }
    }

    /// Adds the program header of the content from `start` on, which goes to an address.
    fn push_header(&mut self, address: u32, start: usize) -> Option<()> {
        let length = self.content.len().checked_sub(start)?;
        let size = u32::try_from(length).ok()?;
        let offset = u32::try_from(start.checked_add(NO_SEGMENTS.len())?).ok()?;
        'fields: for field in [LOADED, offset, address, address, size, size, 5, 4] {
            push_word(&mut self.headers, field)?;
        }
        Some(())
    }

    /// The bytes of the file: e_phoff is at 28 and e_phnum at 44 of its header.
    pub fn bytes(&self, alloc: Global) -> Option<Vec<u8>> {
        let headers = self.content.len().checked_add(NO_SEGMENTS.len())?;
        let count = u8::try_from(self.headers.len() / 32).ok()?;
        let mut file = Vec::new(alloc);
        file.extend_from_slice(&NO_SEGMENTS[..28]).ok()?;
        push_word(&mut file, u32::try_from(headers).ok()?)?;
        file.extend_from_slice(&NO_SEGMENTS[32..44]).ok()?;
        file.extend_from_slice(&[count, 0]).ok()?;
        file.extend_from_slice(&NO_SEGMENTS[46..]).ok()?;
        file.extend_from_slice(self.content.as_slice()).ok()?;
        file.extend_from_slice(self.headers.as_slice()).ok()?;
        Some(file)
    }
}

fn push_word(text: &mut Vec<u8>, value: u32) -> Option<()> {
    text.extend_from_slice(&value.to_le_bytes()).ok()
}

/// Adds a vector table up to line 7.
fn push_vectors(text: &mut Vec<u8>, reset: u32) -> Option<()> {
    push_word(text, STACK)?;
    push_word(text, reset)?;
    'entries: for _ in 2..24_u32 {
        push_word(text, HANDLER)?;
    }
    Some(())
}

/// Adds the words of a line, after its address.
fn push_words(text: &mut Vec<u8>, line: &str) -> Option<()> {
    'words: for value in line.split_whitespace().skip(2) {
        push_word(text, number(value)?)?;
    }
    Some(())
}

/// Adds the halfwords of a line, after its address.
fn push_halfwords(text: &mut Vec<u8>, line: &str) -> Option<()> {
    'halfwords: for value in line.split_whitespace().skip(2) {
        let halfword = u16::from_str_radix(value, 16).ok()?;
        text.extend_from_slice(&halfword.to_le_bytes()).ok()?;
    }
    Some(())
}
