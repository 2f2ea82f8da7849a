//! The text of the trace: the lines of events and of stops, appended to a page.
#![tactic(auto)]

pub mod digits;
mod head;
pub mod hex;
pub mod line_end;
pub mod lines;
pub mod page;
pub mod selection;
pub mod sink;
pub mod tick;
mod words;
