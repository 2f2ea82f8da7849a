//! Where a trace goes: writers that report what they took, and one that gathers the lines of many
//! steps. Where commands come from: readers that report what they returned, and one that reads ahead.
//! `Cut` is a writer or a reader that fails after a number of bytes.
#![tactic(auto)]

mod buffered;
mod cut;
mod event_lines;
mod history;
mod paged;
mod quiet_lines;
mod view;
mod writer;

pub use buffered::Buffered;
pub use cut::Cut;
pub use event_lines::{EventLines, put_step};
pub use history::History;
pub use paged::Paged;
pub use quiet_lines::QuietLines;
pub use view::{
    AllEvents, ConsoleBytes, ExceptionEvents, FaultySteps, NoEvents, RefusedEvents, View,
};
pub use writer::{In, IoError, LineRoom, Out, Over, STEP_ROOM};
