//! The names of addresses.

ghost use Rattle.std.specs.Prelude.{◌≡◌, IfOk, IfSome, MatchOption};
ghost use Rattle.symbols.specs.Lookup.{symbol_of};
ghost use Rattle.symbols.specs.Named.{IsNamelessAt, NamesAt};
ghost use Rattle.symbols.specs.Tables.{is_damaged, name_in, places_of, strings_in, symbols_in, up_to_zero};

use crate::lookup::symbol_of;
use crate::places::{Places, SYMBOL_SIZE, Search, places_of};
use crate::symbol::Symbol;
use crate::table::symbols_of;
use std::alloc::{AllocError, Global};

/// The symbols of a file that name addresses.
#[derive(Drop)]
pub struct Symbols<'a> {
    /// The string table, which has the symbols' names.
    pub strings: &'a [u8],
    /// The symbols, in the order of their table.
    pub list: Vec<Symbol>,
    /// Whether the file has a table that can't be read: then there are no symbols.
    pub damaged: bool,
}

impl<'a> Symbols<'a> {
    /// Reads the symbols of a file, any bytes. A file without a symbol table has none, and neither has one
    /// whose tables are damaged.
    pub fn read(alloc: Global, file: &'a [u8]) -> Result<Self, AllocError>
        ensures list { IfOk result (λ read. read.list.items ≡ symbols_in file.now (places_of file.now)) }
        ensures strings { IfOk result (λ read. read.strings.now ≡ strings_in file.now (places_of file.now)) }
        ensures damaged { IfOk result (λ read. read.damaged ≡ is_damaged (places_of file.now)) }
    {
        match places_of(file) {
            Search::Absent => Ok(Symbols {
                strings: &[],
                list: Vec::new(alloc),
                damaged: false,
            }),
            Search::Damaged => Ok(Symbols {
                strings: &[],
                list: Vec::new(alloc),
                damaged: true,
            }),
            Search::Found(
                Places {
                    table,
                    count,
                    strings,
                    strings_end,
                },
            ) => {
                let table = &file[table..table + SYMBOL_SIZE * count];
                let strings = &file[strings..strings_end];
                let list = symbols_of(alloc, table, strings, count)?;
                Ok(Symbols {
                    strings,
                    list,
                    damaged: false,
                })
            }
        }
    }

    /// Returns the symbol that names an address: of those that cover it, the one that begins last. A symbol
    /// whose size is 0 covers the addresses up to the next one.
    pub fn symbol_at(&self, address: u32) -> Option<Symbol>
        ensures { result ≡ symbol_of self.now.list.items address }
    {
        symbol_of(self.list.as_slice(), address)
    }

    /// Returns the name of the symbol that names an address, and how far the address is into it; None where
    /// no symbol covers the address, or where the name is no UTF-8.
    pub fn name_at(&self, address: u32) -> Option<(&'a str, u32)>
        ensures some { IfSome result (λ it. NamesAt self.now.strings.now self.now.list.items address it.0.now it.1) }
        ensures none { MatchOption result (IsNamelessAt self.now.strings.now self.now.list.items address)
            (λ _. Unit {0}) }
    {
        match self.symbol_at(address) {
            None => None,
            Some(symbol) => match std::str::from_utf8(name_in(self.strings, symbol.name)) {
                Ok(name) => Some((name, address.saturating_sub(symbol.address))),
                Err(_) => None,
            },
        }
    }
}

// Returns the name at a place of a string table.
fn name_in(strings: &[u8], at: u32) -> &[u8]
    ensures { result.now ≡ name_in strings.now at }
{
    let at = at as usize;
    if at < strings.len() {
        up_to_zero(&strings[at..])
    } else {
        &[]
    }
}

// Returns the bytes up to the first 0.
fn up_to_zero(bytes: &[u8]) -> &[u8]
    ensures { result.now ≡ up_to_zero bytes.now }
{
    for (at, byte) in bytes.iter().enumerate() {
        if *byte == 0 {
            return &bytes[..at];
        }
    }
    bytes
}
