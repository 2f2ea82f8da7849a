//! What the program writes to standard error: a few short lines, in which each character can be seen.
//! README.md says what is proved.
#![tactic(auto)]

mod clipped;
mod messages;
mod quoted;
pub mod visible;

pub use messages::Messages;
pub use quoted::{Escaped, Quoted};
