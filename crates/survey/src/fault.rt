//! A fault that was recorded.

use platform::access::DecidedAccess;
use platform::event::RecordedFault;

/// A fault that was recorded, and what was refused before it.
#[derive(Clone, Copy)]
pub struct Fault {
    /// The tick of its step.
    pub tick: u64,
    /// The PC when its step began: the address of the instruction.
    pub pc: u32,
    /// The access that its step had refused before it, if there was one.
    pub refused: Option<DecidedAccess>,
    /// The status registers after it, and the exception that became pending.
    pub recorded: RecordedFault,
    /// How often it came, one after another, from this tick on.
    pub times: u64,
}

// A blank fault: the value of the places that aren't rows.
impl Default for Fault {
    fn default() -> Self {
        Fault {
            tick: 0,
            pc: 0,
            refused: None,
            recorded: RecordedFault {
                cfsr: 0,
                hfsr: 0,
                exception: 0,
            },
            times: 0,
        }
    }
}
