//! The symbols of a table ("Symbol Table").

ghost use Rattle.std.specs.Prelude.{◌≡◌, ◌+◌, ◌*◌, ◌≤◌, length, slice_index, IfOk, OnOk};
ghost use Rattle.symbols.specs.Tables.{address_of, has_extent, has_section, is_mapping, names_address, or_symbol};
ghost use Rattle.symbols.specs.Tables.{symbol_at, symbols_of};

use crate::number::{halfword, word};
use crate::places::SYMBOL_SIZE;
use crate::symbol::Symbol;
use std::alloc::{AllocError, Global};

const STT_FUNC: u8 = 2;

const SHN_UNDEF: u16 = 0;

/// The section of a symbol whose value is no address.
const SHN_ABS: u16 = 0xFFF1;

/// Returns the symbols of a table that name addresses, in its order.
pub fn symbols_of(
    alloc: Global,
    table: &[u8],
    strings: &[u8],
    count: usize,
) -> Result<Vec<Symbol>, AllocError>
    requires within { 16 * count ≤ length table.now }
    requires few { count ≤ 65536 }
    ensures { IfOk result (λ symbols. symbols.items ≡ symbols_of table.now strings.now count) }
{
    let mut symbols = Vec::new(alloc);
    'symbols: for number in 0..count {
        put_symbol(&mut symbols, table, strings, SYMBOL_SIZE * number)?;
    }
    Ok(symbols)
}

// Appends the symbol at a place of the table where it names an address.
fn put_symbol(
    symbols: &mut Vec<Symbol>,
    table: &[u8],
    strings: &[u8],
    at: usize,
) -> Result<(), AllocError>
    requires { at + SYMBOL_SIZE ≤ length table.now }
    ensures { OnOk result (symbols.new.items ≡ or_symbol table.now strings.now at symbols.old.items) }
{
    if names_address(table, strings, at) {
        symbols.push(symbol_at(table, at))?;
    }
    Ok(())
}

// Returns whether the symbol at a place of the table names an address.
fn names_address(table: &[u8], strings: &[u8], at: usize) -> bool
    requires { at + SYMBOL_SIZE ≤ length table.now }
    ensures { result ≡ names_address table.now strings.now at }
{
    let name = word(table, at) as usize;
    let first = byte_at(strings, name);
    table[at + 12] % 16 <= STT_FUNC
        && has_section(halfword(table, at + 14))
        && has_extent(table[at + 12] % 16, word(table, at + 8))
        && first != 0
        && !is_mapping(first, byte_at(strings, name + 1))
}

// Returns whether a symbol lies in a section, by its section's number.
fn has_section(section: u16) -> bool
    ensures { result ≡ has_section section }
{
    section != SHN_UNDEF && section != SHN_ABS
}

// Returns whether a symbol covers addresses, by its type and its size: it has a size, or is a function.
fn has_extent(kind: u8, size: u32) -> bool
    ensures { result ≡ has_extent kind size }
{
    kind == STT_FUNC || size != 0
}

// Returns the byte at a place of the string table, 0 where it has none.
fn byte_at(strings: &[u8], at: usize) -> u8
    ensures { result ≡ slice_index strings.now at }
{
    if at < strings.len() { strings[at] } else { 0 }
}

// Returns whether a name begins like that of a mapping symbol: `$a`, `$d` or `$t`.
fn is_mapping(first: u8, second: u8) -> bool
    ensures { result ≡ is_mapping first second }
{
    first == b'$' && (second == b'a' || second == b'd' || second == b't')
}

// Returns the symbol at a place of the table.
fn symbol_at(table: &[u8], at: usize) -> Symbol
    requires { at + SYMBOL_SIZE ≤ length table.now }
    ensures { result ≡ symbol_at table.now at }
{
    Symbol {
        address: address_of(table[at + 12] % 16, word(table, at + 4)),
        size: word(table, at + 8),
        name: word(table, at),
    }
}

// Returns the address of a symbol: that of a function without its Thumb bit.
fn address_of(kind: u8, value: u32) -> u32
    ensures { result ≡ address_of kind value }
{
    if kind == STT_FUNC {
        value / 2 * 2
    } else {
        value
    }
}
