//! A session over a machine: bytes are read one at a time, and what a protocol makes of each is written before the
//! reader may wait for the next one.
#![tactic(auto)]

mod protocol;
mod sessions;

pub use protocol::Protocol;
pub use sessions::{SessionError, serve};
