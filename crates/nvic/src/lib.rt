//! Which exceptions are pending, enabled and active, which of them is taken next, and at what
//! priority the machine runs (ARM DDI 0403, "Exception priorities and preemption").
#![tactic(auto)]

mod exceptions;
pub mod laws;
mod numbers;
mod plain;
mod priorities;
mod settings;

pub use exceptions::Exceptions;
pub use numbers::{can_be_disabled, has_priority_byte, is_always_enabled, is_empty, is_exception};
pub use plain::PlainExceptions;
pub use platform::exception::{Escalation, Masks, Priority};
pub use priorities::{grouped, implemented_bits};
pub use settings::Settings;
