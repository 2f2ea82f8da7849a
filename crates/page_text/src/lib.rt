//! What the page about a run is made of: numbers, words and names as text, what its tables and drawings show, and a
//! page in memory. Nothing here knows the page's parts.
#![tactic(auto)]

mod access_rows;
pub mod access_table;
pub mod cells;
pub mod escape;
pub mod fault_bits;
pub mod grid;
pub mod html_page;
pub mod lanes;
pub mod lists;
pub mod names;
pub mod numbers;
mod permissions;
pub mod rows;
pub mod settings;
mod shares;
pub mod sums;
pub mod words;
