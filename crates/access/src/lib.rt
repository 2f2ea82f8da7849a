//! One access (ARM DDI 0403, MemA[]): the rules of the Memory Protection Unit decide it, and then
//! the bus carries it out.
#![tactic(auto)]

mod bus;
mod code_memory;
pub mod laws;
mod peeking;

pub use bus::{Bus, fetch_at};
pub use clock::{EagerSysTick, LazySysTick, Script, ScriptedEvent, SysTick, SysTickState};
pub use code_memory::CodeMemory;
pub use instruction_set::size::Size;
pub use micro::KeptCode;
pub use mpu::{Decider, GrantedSpan, Search};
pub use nvic::{Exceptions, PlainExceptions};
pub use physical_memory::{Layout, PhysicalMemory};
pub use platform::access::{Cause, Decision, DoneAccess, Kind, Performed, Request, Rule};
pub use platform::stop::Stop;
pub use scs::{SavedSystem, System};
