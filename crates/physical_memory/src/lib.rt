//! Memory and the device window (profile): the part of the address space that answers with bytes.
#![tactic(auto)]

mod memory;
mod second_ram;

pub use instruction_set::size::Size;
pub use memory::{LentBlock, PhysicalMemory, is_within};
pub use platform::access::{Kind, Performed, Request, Rule};
pub use platform::board::Layout;
