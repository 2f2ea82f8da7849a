//! The lines of a debug session: how they are read, which commands they are, and the texts of
//! answers.
#![tactic(auto)]

mod breakpoints;
mod changes;
mod choices;
mod commands;
mod conditions;
mod help;
mod line_buffer;
mod numbers;
mod settings;
mod texts;
mod watchpoints;
mod words;

pub use changes::{Change, Edge};
pub use commands::{
    Command, LineError, Part, change_of, part_of, quits, read_line, steps_of, task_steps_of,
};
pub use conditions::{Condition, Hit, LineSelection};
pub use help::help_text;
pub use line_buffer::LineBuffer;
pub use numbers::{number, number_within};
pub use settings::{Settings, ok_text};
pub use texts::{
    Reply, byte_address, decision_text, end_text, error_text, put_byte, put_generals, put_region,
    put_register,
};
pub use watchpoints::Watchpoint;
