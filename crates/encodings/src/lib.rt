//! How a row of the instruction set is read (ARM DDI 0403, "The Thumb instruction set encoding"):
//! its text, its fields, and what rows have in common.
#![tactic(auto)]

pub mod operands;
pub mod outcomes;
pub mod pattern;
