//! The instructions that compute: each is a function from the registers to the registers, and makes
//! no access (ARM DDI 0403, "Alphabetical list of ARMv7-M Thumb instructions", the operation of
//! each). The PC is still at the instruction.
#![tactic(auto)]

mod division;
mod fields;
mod processing;
mod products;
mod rearrangement;
mod results;
mod saturation;

pub use fields::extended;
pub use processing::{divides_by_zero, process, writes_pc};
pub use rearrangement::width_of;
