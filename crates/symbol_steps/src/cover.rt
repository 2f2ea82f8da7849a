//! The halfwords that a symbol covers, and those that it names.

ghost use Rattle.std.specs.Prelude.{◌≡◌, ◌+◌, ◌<◌, ◌≤◌, ◌^◌, IsTrue, Contains, true, ℕ};
ghost use Rattle.std.specs.List.{list_any};
ghost use Rattle.symbols.specs.Lookup.{has_above};
ghost use Rattle.symbol_steps.specs.Ends.{end_of, first_of, halfwords_below, is_alone, is_apart, length_of, next_above};
ghost use Rattle.symbol_steps.specs.Symbols.{is_same, is_twin, named_number, named_totals, names};
ghost use Rattle.symbol_steps.specs.Totals.{address_of, totals_by};

use crate::totals::Totals;
use survey::CodeCounts;
use symbols::{Symbol, Symbols};

/// How many addresses there are.
const ADDRESSES: u64 = 1 << 32;

/// Halfwords of a memory: `length` of them, from the number `first` on.
#[derive(Clone, Copy)]
pub struct HalfwordRange {
    pub first: usize,
    pub length: usize,
}

impl HalfwordRange {
    /// Returns the halfwords of a memory that begin at an address or above it, and below `end`.
    pub fn of(code: &CodeCounts, address: u32, end: u64) -> Self
        requires { end ≤ 2 ^ 32 }
        ensures value { result ≡ record { first = first_of code.now address; length = length_of code.now address end } }
        ensures few { code.now.halfwords ≤ 0x8_0000 }
        ensures base { code.now.base < 2 ^ 32 }
    {
        let (base, halfwords) = code.span();
        let first = halfwords_below(base, u64::from(address)).min(halfwords);
        let after = halfwords_below(base, end).min(halfwords);
        HalfwordRange {
            first,
            length: after.saturating_sub(first),
        }
    }

    /// Returns at how many of the halfwords there were instructions.
    pub fn counted(&self, code: &CodeCounts) -> usize {
        let (_, halfwords) = code.span();
        let mut number = 0_usize;
        'halfwords: for offset in 0..self.length {
            let halfword = self.first.saturating_add(offset);
            if halfword < halfwords && Totals::at(code, address_of(code, halfword)).sum() > 0 {
                number = number.saturating_add(1);
            }
        }
        number
    }
}

/// Returns the instructions at the halfwords of a memory that a symbol names. `end` is where its bytes end, and `alone`
/// says that no other symbol begins among them.
pub fn named_totals(
    code: &CodeCounts,
    symbols: &Symbols<'_>,
    symbol: &Symbol,
    end: u64,
    alone: bool,
) -> Totals
    requires listed { Contains symbols.now.list.items symbol.now }
    requires end { end ≡ end_of symbols.now.list.items symbol.now }
    requires within { end ≤ 2 ^ 32 }
    requires alone { alone ≡ true → is_alone symbols.now.list.items symbol.now end ≡ true }
    ensures { result ≡ named_totals symbols.now.list.items symbol.now code.now }
{
    let range = HalfwordRange::of(code, symbol.address, end);
    let mut sum = Totals::NONE;
    'halfwords: for offset in 0..range.length {
        let named = named_at(code, symbols, symbol, range.first + offset, alone);
        sum = sum.and(named);
    }
    sum
}

/// Returns the instructions at a halfword of a memory, if a symbol names its address. `known` says that it does.
fn named_at(
    code: &CodeCounts,
    symbols: &Symbols<'_>,
    symbol: &Symbol,
    halfword: usize,
    known: bool,
) -> Totals
    requires within { halfword < code.now.halfwords }
    requires known { known ≡ true → names symbols.now.list.items symbol.now (address_of code.now halfword) ≡ true }
    ensures { result ≡ totals_by (λ privileged.
        named_number symbols.now.list.items symbol.now code.now privileged halfword) }
{
    let address = address_of(code, halfword);
    let totals = Totals::at(code, address);
    if totals.sum() == 0 {
        return Totals::NONE;
    }
    if known || names(symbols, symbol, address) {
        totals
    } else {
        Totals::NONE
    }
}

/// Returns whether a symbol is the one that names an address.
fn names(symbols: &Symbols<'_>, symbol: &Symbol, address: u32) -> bool
    ensures { result ≡ names symbols.now.list.items symbol.now address }
{
    match symbols.symbol_at(address) {
        None => false,
        Some(named) => is_same(symbol, &named),
    }
}

/// Returns the address of a halfword of a memory.
pub fn address_of(code: &CodeCounts, halfword: usize) -> u32
    requires { halfword < code.now.halfwords }
    ensures { result ≡ address_of code.now halfword }
{
    let (base, _) = code.span();
    ((u64::from(base) + 2 * halfword as u64) % ADDRESSES) as u32
}

/// Returns how many halfwords of a memory begin below an address.
fn halfwords_below(base: u32, address: u64) -> usize
    requires { address ≤ 2 ^ 32 }
    ensures { result ≡ halfwords_below base address }
{
    let offset = address.saturating_sub(u64::from(base));
    (offset / 2 + offset % 2) as usize
}

/// Returns the address after the last byte that a symbol covers: one without a size covers the bytes up to the next
/// symbol, or its own address alone if none begins above it.
#[tactic(auto, unfolding(crate::specs::Ends::end_of))]
pub fn end_of(symbols: &[Symbol], symbol: &Symbol) -> u64
    ensures value { result ≡ end_of symbols.now symbol.now }
    ensures within { result ≤ 2 ^ 32 }
{
    let first = u64::from(symbol.address);
    if symbol.size == 0 {
        if has_above(symbols, symbol.address) {
            next_above(symbols, symbol.address)
        } else {
            first + 1
        }
    } else {
        (first + u64::from(symbol.size)).min(ADDRESSES)
    }
}

/// Returns whether a symbol begins above an address.
fn has_above(symbols: &[Symbol], address: u32) -> bool
    ensures { result ≡ has_above address symbols.now }
{
    for symbol in symbols {
        if symbol.address > address {
            return true;
        }
    }
    false
}

/// Returns the first beginning of a symbol above an address, 2^32 where there is none.
fn next_above(symbols: &[Symbol], address: u32) -> u64
    ensures value { result ≡ next_above address symbols.now }
    ensures within { result ≤ 2 ^ 32 }
{
    let mut next = ADDRESSES;
    for symbol in symbols {
        if symbol.address > address {
            next = next.min(u64::from(symbol.address));
        }
    }
    next
}

/// Returns whether no other symbol begins among the bytes that a symbol covers, up to `end`.
pub fn is_alone(symbols: &[Symbol], symbol: &Symbol, end: u64) -> bool
    ensures { result ≡ is_alone symbols.now symbol.now end }
{
    for other in symbols {
        if !is_apart(symbol, end, other) {
            return false;
        }
    }
    true
}

/// Returns whether a symbol begins outside the bytes that another covers, or is that symbol.
fn is_apart(symbol: &Symbol, end: u64, other: &Symbol) -> bool
    ensures { result ≡ is_apart symbol.now end other.now }
{
    let begins_within = symbol.address <= other.address && u64::from(other.address) < end;
    !begins_within || is_same(symbol, other)
}

/// Returns whether a list has a symbol of the same address and name.
pub fn has_twin(symbols: &[Symbol], symbol: &Symbol) -> bool
    ensures { result ≡ list_any (is_twin symbol.now) symbols.now }
{
    for other in symbols {
        if is_twin(symbol, other) {
            return true;
        }
    }
    false
}

/// Returns whether two symbols have the same address, name and size.
fn is_same(symbol: &Symbol, other: &Symbol) -> bool
    ensures { result ≡ is_same symbol.now other.now }
{
    is_twin(symbol, other) && other.size == symbol.size
}

/// Returns whether two symbols have the same address and name.
fn is_twin(symbol: &Symbol, other: &Symbol) -> bool
    ensures { result ≡ is_twin symbol.now other.now }
{
    other.address == symbol.address && other.name == symbol.name
}
