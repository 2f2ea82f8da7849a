//! The debugger: a session of commands, one a line, over a machine.
#![tactic(auto)]

mod changes;
pub mod laws;
mod runs;
mod sessions;
mod slots;
mod state;
mod tasks;
mod texts;

pub use changes::refusal_text;
pub use serving::SessionError;
pub use sessions::session;
pub use slots::Slots;
pub use state::{StatePage, state_page, write_state};
pub use texts::{next_text, put_part, regions_text};
