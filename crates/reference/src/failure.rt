//! Why a step doesn't carry an instruction out to its end.

use platform::access::{Access, Cause};
use platform::stop::Stop;

/// Why an instruction isn't carried out to its end.
#[derive(Clone, Copy)]
pub enum Failure {
    /// An access was refused, by its rule or by the bus.
    Refused(Access, Cause),
    /// A usage fault.
    Usage(UsageFault),
    /// The machine stops, and the step ends.
    Stop(Stop),
}

/// The usage faults that an instruction raises, by the bits of UFSR in CFSR (ARM DDI 0403).
#[derive(Clone, Copy)]
pub enum UsageFault {
    /// UNDEFINSTR: the encoding is UNDEFINED.
    UndefinedInstruction,
    /// INVSTATE: EPSR.T is 0.
    InvalidState,
    /// INVPC: a check of an exception return failed.
    InvalidReturn,
    /// NOCP: a coprocessor instruction.
    NoCoprocessor,
    /// UNALIGNED: an unaligned LDM, STM, LDRD, STRD or exclusive, or an access that CCR.UNALIGN_TRP
    /// traps.
    Unaligned,
    /// DIVBYZERO: a division by zero that CCR.DIV_0_TRP traps.
    DivideByZero,
}

/// What CCR traps, and whether the board describes devices.
#[derive(Clone, Copy)]
pub struct Traps {
    /// CCR.UNALIGN_TRP.
    pub unaligned: bool,
    /// CCR.DIV_0_TRP.
    pub divide_by_zero: bool,
    /// Whether an unaligned or exclusive access stops wherever the default memory map never executes (profile).
    pub devices: bool,
}
