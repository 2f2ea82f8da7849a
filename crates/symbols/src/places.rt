//! Where the symbol table of a file and its string table are ("Section Header", "Symbol Table").

ghost use Rattle.std.specs.Prelude.{◌≡◌, ◌+◌, ◌*◌, ◌≤◌, ◌<◌, length, IfSome};
ghost use Rattle.symbols.specs.Tables.{e_shentsize, e_shnum, e_shoff, found_at, has_headers, is_elf, is_whole, linked};
ghost use Rattle.symbols.specs.Tables.{or_header, places_of, symbol_header};
ghost use Rattle.symbols.specs.Found.{AreInside};

use crate::number::{halfword, word};

/// How many symbols are read at most.
pub const MAX_SYMBOLS: u32 = 65536;

const ELF_HEADER_SIZE: usize = 52;

const SECTION_HEADER_SIZE: usize = 40;

/// The bytes of a symbol in its table.
pub const SYMBOL_SIZE: usize = 16;

const SHT_SYMTAB: u32 = 2;

/// Where the symbol table of a file and its string table are.
#[derive(Clone, Copy)]
pub struct Places {
    /// Where the symbol table begins.
    pub table: usize,
    /// How many symbols it has.
    pub count: usize,
    /// Where the string table begins, and where it ends.
    pub strings: usize,
    pub strings_end: usize,
}

/// What a search for the symbol table of a file finds.
#[derive(Clone, Copy)]
pub enum Search {
    /// The file has no section headers or no symbol table.
    Absent,
    /// The file is no ELF file of 32 bits, little endian, or its section headers or tables aren't all there.
    Damaged,
    Found(Places),
}

/// Finds the symbol table of a file, for every list of bytes.
#[tactic(auto, unfolding(crate::specs::Tables::places_of))]
pub fn places_of(file: &[u8]) -> Search
    ensures value { result ≡ places_of file.now }
    ensures inside { AreInside file.now result }
{
    if file.len() < ELF_HEADER_SIZE {
        return Search::Damaged;
    }
    if !is_elf(file) {
        return Search::Damaged;
    }
    let count = halfword(file, 48) as usize;
    if count == 0 {
        return Search::Absent;
    }
    if !has_headers(file) {
        return Search::Damaged;
    }
    match symbol_header(file, word(file, 32) as usize, count) {
        None => Search::Absent,
        Some(at) => linked(file, at),
    }
}

// "ELF Identification": the magic number, the class and the data encoding.
fn is_elf(file: &[u8]) -> bool
    requires { ELF_HEADER_SIZE ≤ length file.now }
    ensures { result ≡ is_elf file.now }
{
    file[0] == 0x7F
        && file[1] == b'E'
        && file[2] == b'L'
        && file[3] == b'F'
        && (file[4] == 1 && file[5] == 1)
}

// Returns whether the file has all section headers, each of the size that the standard gives.
fn has_headers(file: &[u8]) -> bool
    requires { ELF_HEADER_SIZE ≤ length file.now }
    ensures { result ≡ has_headers file.now }
{
    let end = word(file, 32) as usize + SECTION_HEADER_SIZE * halfword(file, 48) as usize;
    halfword(file, 46) as usize == SECTION_HEADER_SIZE && end <= file.len()
}

// Returns the place of the first header of a symbol table, of `count` section headers from a place on.
#[tactic(auto, using(crate::proofs::Steps::headers_more, crate::proofs::Steps::no_headers))]
fn symbol_header(file: &[u8], table: usize, count: usize) -> Option<usize>
    requires { table + SECTION_HEADER_SIZE * count ≤ length file.now }
    ensures value { result ≡ symbol_header file.now table count }
    ensures within { IfSome result (λ at. at + SECTION_HEADER_SIZE ≤ length file.now) }
{
    let mut first = None;
    'headers: for number in 0..count {
        let at = table + SECTION_HEADER_SIZE * number;
        first = or_header(file, at, first);
    }
    first
}

// Returns the first header of a symbol table, given that of the headers before the one at a place.
fn or_header(file: &[u8], at: usize, first: Option<usize>) -> Option<usize>
    requires within { at + SECTION_HEADER_SIZE ≤ length file.now }
    requires before { IfSome first (λ place. place + SECTION_HEADER_SIZE ≤ length file.now) }
    ensures value { result ≡ or_header file.now at first }
    ensures within { IfSome result (λ place. place + SECTION_HEADER_SIZE ≤ length file.now) }
{
    match first {
        Some(place) => Some(place),
        None => {
            if word(file, at + 4) == SHT_SYMTAB {
                Some(at)
            } else {
                None
            }
        }
    }
}

// Returns the symbol table of the header at a place, if its string table is a section of the file.
fn linked(file: &[u8], at: usize) -> Search
    requires header { ELF_HEADER_SIZE ≤ length file.now }
    requires all { e_shoff file.now + SECTION_HEADER_SIZE * e_shnum file.now ≤ length file.now }
    requires within { at + SECTION_HEADER_SIZE ≤ length file.now }
    ensures value { result ≡ linked file.now at }
    ensures inside { AreInside file.now result }
{
    let link = word(file, at + 24) as usize;
    if word(file, at + 36) as usize == SYMBOL_SIZE && link < halfword(file, 48) as usize {
        found_at(
            file,
            at,
            word(file, 32) as usize + SECTION_HEADER_SIZE * link,
        )
    } else {
        Search::Damaged
    }
}

// Returns the symbol table of the header at a place, with the header of its string table at another.
fn found_at(file: &[u8], symbols: usize, strings: usize) -> Search
    requires symbols { symbols + SECTION_HEADER_SIZE ≤ length file.now }
    requires strings { strings + SECTION_HEADER_SIZE ≤ length file.now }
    ensures value { result ≡ found_at file.now symbols strings }
    ensures inside { AreInside file.now result }
{
    let count = word(file, symbols + 20) / 16;
    if is_whole(file, symbols) && is_whole(file, strings) && count <= MAX_SYMBOLS {
        let start = word(file, strings + 16) as usize;
        Search::Found(Places {
            table: word(file, symbols + 16) as usize,
            count: count as usize,
            strings: start,
            strings_end: start + word(file, strings + 20) as usize,
        })
    } else {
        Search::Damaged
    }
}

// Returns whether the file has all bytes of the section of the header at a place.
fn is_whole(file: &[u8], at: usize) -> bool
    requires { at + SECTION_HEADER_SIZE ≤ length file.now }
    ensures { result ≡ is_whole file.now at }
{
    word(file, at + 16) as usize + word(file, at + 20) as usize <= file.len()
}
