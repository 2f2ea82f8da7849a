//! The report of a run: one HTML page that shows what the run did.
#![tactic(auto)]

mod code;
mod console;
mod end;
mod faults;
mod memory;
mod page;
mod regions;
mod rules;
mod style;
mod timeline;
mod worlds;

pub use page::{Report, write_page};
