//! The instructions for special registers, the hints, SVC and BKPT: the family, and then the operands.

ghost use Rattle.std.specs.Prelude.{◌≡◌};
ghost use Rattle.instruction_set.specs.RowOperands.{special_of};

use crate::registers::Register;

/// The instructions for special registers, the hints, SVC and BKPT.
#[derive(Clone, Copy)]
pub enum System {
    /// CPS.
    ChangeProcessorState(ChangeProcessorState),
    /// MSR.
    MoveToSpecial(MoveToSpecial),
    /// MRS.
    MoveFromSpecial(MoveFromSpecial),
    /// An instruction that changes nothing but the PC, or waits.
    Hint(Hint),
    /// SVC with this number.
    SupervisorCall(u8),
    /// BKPT with this number.
    Breakpoint(u8),
}

/// The hints. In this machine all but WFI do nothing (profile).
#[derive(Clone, Copy)]
pub enum Hint {
    NoOperation,
    Yield,
    WaitForEvent,
    WaitForInterrupt,
    SendEvent,
    /// DBG.
    Debug,
    /// PLD and PLI, which make no access.
    Preload,
    /// DMB, DSB and ISB.
    Barrier,
    /// A number of a hint that the manual leaves unallocated.
    Unallocated,
}

// ---- operands

/// The operands of CPS.
#[derive(Clone, Copy)]
pub struct ChangeProcessorState {
    /// Whether the masks are set.
    pub disables: bool,
    pub primask: bool,
    pub faultmask: bool,
}

/// The special registers that MSR and MRS name.
#[derive(Clone, Copy)]
pub enum SpecialRegister {
    Apsr,
    Iapsr,
    Eapsr,
    Xpsr,
    Ipsr,
    Epsr,
    Iepsr,
    Msp,
    Psp,
    Primask,
    Basepri,
    BasepriMax,
    Faultmask,
    Control,
}

impl SpecialRegister {
    /// Returns the special register of a number, SYSm, if there is one (ARM DDI 0403, MRS).
    pub fn of(number: u8) -> Option<Self>
        ensures { result ≡ special_of number }
    {
        Some(match number {
            0 => SpecialRegister::Apsr,
            1 => SpecialRegister::Iapsr,
            2 => SpecialRegister::Eapsr,
            3 => SpecialRegister::Xpsr,
            5 => SpecialRegister::Ipsr,
            6 => SpecialRegister::Epsr,
            7 => SpecialRegister::Iepsr,
            8 => SpecialRegister::Msp,
            9 => SpecialRegister::Psp,
            16 => SpecialRegister::Primask,
            17 => SpecialRegister::Basepri,
            18 => SpecialRegister::BasepriMax,
            19 => SpecialRegister::Faultmask,
            20 => SpecialRegister::Control,
            _ => return None,
        })
    }
}

/// The operands of MSR.
#[derive(Clone, Copy)]
pub struct MoveToSpecial {
    pub special: SpecialRegister,
    pub source: Register,
}

/// The operands of MRS.
#[derive(Clone, Copy)]
pub struct MoveFromSpecial {
    pub special: SpecialRegister,
    pub destination: Register,
}
