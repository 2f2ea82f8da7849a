//! The symbol that names an address.

ghost use Rattle.std.specs.Prelude.{◌≡◌, None};
ghost use Rattle.symbols.specs.Lookup.{covers, has_above, latest_below, nearer, nearest_of, symbol_of};

use crate::symbol::Symbol;

/// Returns the symbol that names an address: of those that cover it, the one that begins last.
#[tactic(auto, unfolding(crate::specs::Lookup::symbol_of))]
pub fn symbol_of(symbols: &[Symbol], address: u32) -> Option<Symbol>
    ensures { result ≡ symbol_of symbols.now address }
{
    let latest = latest_below(symbols, address);
    let above = has_above(symbols, address);
    nearest_of(symbols, address, latest, above)
}

// Returns the latest beginning of a symbol at or below an address, 0 where there is none.
fn latest_below(symbols: &[Symbol], address: u32) -> u32
    ensures { result ≡ latest_below address symbols.now }
{
    let mut latest = 0;
    for symbol in symbols {
        if symbol.address <= address {
            latest = latest.max(symbol.address);
        }
    }
    latest
}

// Returns whether a symbol begins above an address.
fn has_above(symbols: &[Symbol], address: u32) -> bool
    ensures { result ≡ has_above address symbols.now }
{
    for symbol in symbols {
        if symbol.address > address {
            return true;
        }
    }
    false
}

// Returns the nearest of the symbols that cover an address.
fn nearest_of(symbols: &[Symbol], address: u32, latest: u32, above: bool) -> Option<Symbol>
    ensures { result ≡ nearest_of latest above address None symbols.now }
{
    let mut best = None;
    for symbol in symbols {
        if covers(symbol, address, latest, above) {
            best = nearer(best, symbol);
        }
    }
    best
}

// Returns the nearer of two symbols that cover an address.
fn nearer(best: Option<Symbol>, symbol: &Symbol) -> Option<Symbol>
    ensures { result ≡ nearer best symbol.now }
{
    match best {
        None => Some(*symbol),
        Some(best) => {
            if best.address < symbol.address {
                Some(*symbol)
            } else {
                Some(best)
            }
        }
    }
}

// Returns whether a symbol covers an address.
fn covers(symbol: &Symbol, address: u32, latest: u32, above: bool) -> bool
    ensures { result ≡ covers latest above address symbol.now }
{
    if address < symbol.address {
        return false;
    }
    if symbol.size == 0 {
        symbol.address == address || (above && symbol.address == latest)
    } else {
        u64::from(address) < u64::from(symbol.address) + u64::from(symbol.size)
    }
}
