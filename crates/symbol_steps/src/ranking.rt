//! The symbols in which the most instructions were carried out.

ghost use Rattle.std.specs.List.{list_any};
ghost use Rattle.std.specs.Prelude.{◌≡◌, ◌≤◌, ◌<◌, ◌^◌, ◌++◌, ◌∷◌, [], length, take, All, IfSome, false};
ghost use Rattle.std.specs.Prelude.{slice_index_or};
ghost use Rattle.symbol_steps.specs.Rows.{AreDistinct, AreDescending, IsRowOf, rows_totals, with_row};
ghost use Rattle.symbol_steps.specs.Symbols.{is_twin};

use crate::cover::{HalfwordRange, end_of, has_twin, is_alone, named_totals};
use crate::totals::Totals;
use std::marker::Model;
use survey::Survey;
use symbols::{Symbol, Symbols};

/// How many symbols have rows at most.
pub const MAX_ROWS: usize = 20;

/// How much work the ranking of an image may be: halfwords and symbols that are read. The symbols of an image whose
/// parts overlap, as no linker writes it, may be more work: then those that don't fit have no row.
const MAX_WORK: u64 = 1 << 30;

/// A symbol, and the instructions that were carried out in it.
#[derive(Clone, Copy)]
pub struct SymbolSteps {
    pub symbol: Symbol,
    pub totals: Totals,
}

impl SymbolSteps {
    /// No symbol, without instructions.
    const NONE: SymbolSteps = SymbolSteps {
        symbol: Symbol {
            address: 0,
            size: 0,
            name: 0,
        },
        totals: Totals::NONE,
    };
}

/// The symbols with the most instructions, from the most on.
#[derive(Drop)]
pub struct Ranking {
    rows: [SymbolSteps; MAX_ROWS],
    used: usize,
}

impl Model for Ranking {
    ghost use Rattle.std.specs.Prelude.{◌≤◌, List, take};
    ghost use Rattle.symbol_steps.specs.declared.ranking.SymbolSteps.{SymbolSteps as Row};

    ghost Value = { List Row };

    ghost view = { λ r. take r.used r.rows };

    ghost invariant = { λ r. r.used ≤ 20 };
}

impl Ranking {
    /// Returns the ranking of the symbols of an image. A second symbol of the same address and name has no row, and
    /// neither has one that would be too much work.
    pub fn of(survey: &Survey, symbols: &Symbols<'_>) -> Self
        ensures rows { All (IsRowOf survey.now symbols.now.list.items) result }
        ensures apart { AreDistinct result }
        ensures order { AreDescending result }
        ensures few { length result ≤ MAX_ROWS }
    {
        let mut ranking = Ranking::empty();
        let mut work = 0;
        'symbols: for place in 0..symbols.list.len() {
            if let Some(row) = row_of(survey, symbols, place, &mut work) {
                ranking.insert(row);
            }
        }
        ranking
    }

    /// Returns a ranking of no symbols.
    fn empty() -> Self
        ensures { result ≡ [] }
    {
        Ranking {
            rows: [SymbolSteps::NONE; MAX_ROWS],
            used: 0,
        }
    }

    /// Returns the rows, from the most instructions on.
    pub fn rows(&self) -> &[SymbolSteps]
        ensures { result.now ≡ self.now }
    {
        &self.rows[..self.used]
    }

    /// Returns the instructions of all rows.
    pub fn shown(&self) -> Totals
        ensures { result ≡ rows_totals self.now }
    {
        totals_of(self.rows())
    }

    /// Inserts a row before those with fewer instructions. The last row goes where there are too many.
    fn insert(&mut self, row: SymbolSteps)
        ensures { self.new ≡ take MAX_ROWS (with_row row self.old) }
    {
        let last = sink(&mut self.rows, self.used, row);
        if self.used < MAX_ROWS {
            self.rows[self.used] = last;
            self.used += 1;
        }
    }
}

fn totals_of(rows: &[SymbolSteps]) -> Totals
    ensures { result ≡ rows_totals rows.now }
{
    let mut sum = Totals::NONE;
    'rows: for row in rows {
        sum = sum.and(row.totals);
    }
    sum
}

/// Puts a row before those with fewer instructions, of the first `used`, and returns the row that is then the last.
fn sink(rows: &mut [SymbolSteps], used: usize, row: SymbolSteps) -> SymbolSteps
    requires { used ≤ length rows.old }
    ensures { take used rows.new ++ result ∷ [] ≡ with_row row (take used rows.old) }
{
    let mut moved = row;
    'rows: for place in 0..used {
        if rows[place].totals.sum() < moved.totals.sum() {
            let next = rows[place];
            rows[place] = moved;
            moved = next;
        }
    }
    moved
}

/// Returns the row of the symbol at a place of the list. None where there were no instructions at the addresses that it
/// names, where an earlier one has its address and name, or where too much work was done before.
fn row_of(
    survey: &Survey,
    symbols: &Symbols<'_>,
    place: usize,
    work: &mut u64,
) -> Option<SymbolSteps>
    requires { place < length symbols.now.list.items }
    ensures right { IfSome result (IsRowOf survey.now symbols.now.list.items) }
    ensures symbol { IfSome result (λ row.
        slice_index_or symbols.now.list.items place row.symbol ≡ row.symbol) }
    ensures first { IfSome result (λ row.
        list_any (is_twin row.symbol) (take place symbols.now.list.items) ≡ false) }
{
    let list = symbols.list.as_slice();
    let symbol = list[place];
    if symbol.size == 0 && !spend(work, list.len()) {
        return None;
    }
    let end = end_of(list, &symbol);
    let counted = counted_in(survey, symbol.address, end, work)?;
    let alone = is_alone(list, &symbol, end);
    let lookups = if alone { 2 } else { counted.saturating_add(2) };
    if !spend(work, lookups.saturating_mul(list.len())) || has_twin(&list[..place], &symbol) {
        return None;
    }
    let flash = named_totals(&survey.flash_code, symbols, &symbol, end, alone);
    let ram = named_totals(&survey.ram_code, symbols, &symbol, end, alone);
    let totals = flash.and(ram);
    if totals.sum() == 0 {
        return None;
    }
    Some(SymbolSteps { symbol, totals })
}

/// Returns at how many halfwords from an address up to `end` there were instructions. None where there were none, or
/// where too much work was done before.
fn counted_in(survey: &Survey, address: u32, end: u64, work: &mut u64) -> Option<usize>
    requires { end ≤ 2 ^ 32 }
{
    let flash = HalfwordRange::of(&survey.flash_code, address, end);
    let ram = HalfwordRange::of(&survey.ram_code, address, end);
    if !spend(work, flash.length.saturating_add(ram.length)) {
        return None;
    }
    let in_flash = flash.counted(&survey.flash_code);
    let counted = in_flash.saturating_add(ram.counted(&survey.ram_code));
    if counted == 0 { None } else { Some(counted) }
}

/// Adds a cost to the work so far, if that isn't too much then. Returns whether it isn't.
fn spend(work: &mut u64, cost: usize) -> bool {
    let sum = work.saturating_add(cost as u64);
    if sum > MAX_WORK {
        return false;
    }
    *work = sum;
    true
}
