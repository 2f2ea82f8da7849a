//! Where the steps of a run went: how many instructions were carried out for each symbol of its image.
#![tactic(auto)]

mod cover;
mod ranking;
mod totals;

pub use ranking::{MAX_ROWS, Ranking, SymbolSteps};
pub use totals::{Share, Totals};
