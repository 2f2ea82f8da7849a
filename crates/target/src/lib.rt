//! What a session needs of a machine: the trait `Target`, with the types and the definitions of its contracts.
#![tactic(auto)]

mod endings;
mod target;
mod values;

pub use endings::{end_of_task, is_instruction};
pub use target::Target;
pub use values::RegValues;
