//! States of a machine that are kept, so that a session can go back to them.
#![tactic(auto)]

mod checkpoints;
mod past;
mod position;
mod room;

pub use past::Past;
pub use position::{Position, make_steps};
pub use room::room_of;
