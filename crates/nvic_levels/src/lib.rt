//! The exceptions as sets of bits, one for each priority byte (ARM DDI 0403, "Exception priorities
//! and preemption").
#![tactic(auto)]

mod kept_priorities;
mod level_sets;
mod levels;
mod sets;

pub use kept_priorities::KeptPriorities;
pub use levels::BitLevels;
pub use nvic::Exceptions;
