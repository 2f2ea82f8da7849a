//! The types that the definitions and the code share, beside those of `instruction_set` and `platform`. The
//! definitions of what the core does are in `specs/`, one file a chapter; docs/REFERENCE.md says in which order to
//! read them.
#![tactic(auto)]

pub mod accesses;
pub mod ending;
pub mod failure;
pub mod place;
