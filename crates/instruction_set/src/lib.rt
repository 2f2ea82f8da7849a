//! The types of the instruction set that the definitions and the code share: operands, instructions, core
//! registers. The definitions are in `specs/`, one file a chapter: the words, the registers, the rows and
//! their decoding, and the instructions that compute; docs/REFERENCE.md says in which order to read them.
#![tactic(auto)]

pub mod branch;
pub mod data_processing;
pub mod instruction;
pub mod load_store;
pub mod registers;
pub mod shift;
pub mod size;
pub mod system;
pub mod unpredictable;
