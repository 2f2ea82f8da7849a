//! The System Control Space (ARM DDI 0403, "System Control Space") and the board's devices: the system registers, the
//! words of devices, and what a tick does to them.
#![tactic(auto)]

mod addresses;
mod bits;
mod control;
mod handlers;
mod interrupts;
pub mod laws;
mod peeking;
mod saved_system;
mod settling;
mod special;
mod status;
mod system;
mod systick;

pub use platform::system::{
    ControlRegister, InterruptRegister, StatusRegister, SysTickRegister, SystemRegister,
};
pub use saved_system::SavedSystem;
pub use special::{change_state, read_special, write_mask, write_special};
pub use status::Status;
pub use system::System;
