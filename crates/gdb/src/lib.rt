//! The parts of a server of GDB's remote serial protocol that read and step a machine.
#![tactic(auto)]

mod console;
mod over;
mod reading;
mod registers;
mod returns;
mod searches;
mod slices;
mod steps;
mod turns;
mod whys;

pub use console::Console;
pub use over::{ReturnPoint, is_back, remembered_after};
pub use reading::{ReplyData, put_memory};
pub use registers::{place_of, register_values};
pub use returns::{Return, Search, first_search, go_back};
pub use searches::{FoundPlace, ReverseTarget, SearchScope, Way, place_back};
pub use slices::{Plan, Points, Progress, run_slice};
pub use steps::{
    event_hit, first_cause, first_hit, has_entry, has_fault, is_continue, put_step, reason_after,
    reason_before, selection_of,
};
pub use turns::{Run, RunContext, SentPacket, Turn, run_turn, send_packet};
