//! Exceptions: faults, entry and return (ARM DDI 0403, "Exception handling": `ExceptionEntry()`,
//! `ExceptionReturn()`, "Fault behavior" and "Priority escalation").
#![tactic(auto)]

mod accesses;
mod entry;
mod faults;
mod frames;
pub mod laws;
mod returning;
mod state;

pub use access::{Bus, Decider, Exceptions, SysTickState};
pub use accesses::{accessed, put_done};
pub use faults::{fault_of, usage_fault_of};
pub use reference::accesses::Values;
pub use state::Core;
pub use trace::sink::{Events, Sink};
