//! Which region decides each address, kept as a table of intervals (ARM DDI 0403, "Protected Memory
//! System Architecture, PMSAv7").
#![tactic(auto)]

mod boundaries;
mod interval;
mod kept_decisions;
mod lazy_table;
mod places;
mod search;
mod sweep;
mod table;

pub use interval::Interval;
pub use kept_decisions::KeptDecisions;
pub use lazy_table::LazyTable;
pub use mpu::{Decider, Decision, Kind, MpuRegs, Rule};
pub use table::Table;
