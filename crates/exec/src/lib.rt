//! The accesses of each instruction, and what it does with the values that it reads (ARM DDI 0403,
//! "Alphabetical list of ARMv7-M Thumb instructions": the operation of each).
#![tactic(auto)]

mod branches;
mod exclusives;
mod finishing;
mod load_store;
mod load_store_multiple;
mod planning;
mod processing;
mod program_counter;
mod system;

pub use finishing::finish;
pub use instruction_set::instruction::{CodedInstruction, Instruction};
pub use load_store_multiple::{ListedWords, listed_words, next_listed};
pub use planning::{is_misplaced, plan};
pub use platform::access::Request;
pub use platform::stop::Stop;
pub use program_counter::advance;
pub use reference::accesses::Requests;
pub use reference::ending::Ending;
pub use reference::failure::{Failure, Traps};
