//! The symbols of an ELF image (TIS ELF 1.2, "Symbol Table"), and the one that names an address.
#![tactic(auto)]

mod lookup;
mod names;
mod number;
mod places;
mod symbol;
mod table;

pub use names::Symbols;
pub use places::{MAX_SYMBOLS, Places, Search};
pub use symbol::Symbol;
