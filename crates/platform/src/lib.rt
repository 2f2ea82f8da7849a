//! The types of what is around the core, which the definitions and the code share: accesses, the MPU, exceptions, the
//! System Control Space, boards and stops. The definitions are in `specs/`, one file a chapter; docs/REFERENCE.md says
//! in which order to read them.
#![tactic(auto)]

pub mod access;
pub mod board;
pub mod bounded;
pub mod error;
pub mod event;
pub mod exception;
pub mod fault_status;
pub mod map;
pub mod mpu;
pub mod script;
pub mod stop;
pub mod system;
