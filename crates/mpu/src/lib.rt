//! The Memory Protection Unit (ARM DDI 0403, "Protected Memory System Architecture, PMSAv7"): its
//! registers, and which of its regions or of the rules around them decides an access.
#![tactic(auto)]

mod decider;
pub mod laws;
mod regions;
mod registers;
mod rules;
mod spans;

pub use decider::{Decider, KindDecisions, Search};
pub use platform::access::{Decision, Kind, Rule};
pub use platform::mpu::{MpuRegister, MpuStop, Region};
pub use regions::{is_region_enabled, size, switched_off};
pub use registers::{MpuRegs, mpu_register_at, stop_of};
pub use rules::{Rights, before_regions, by_region, uses_regions, without_region};
pub use spans::{GrantedSpan, Span};
