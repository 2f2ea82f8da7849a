//! What is left to do of an instruction.

use instruction_set::system::{ChangeProcessorState, MoveFromSpecial, SpecialRegister};

/// What is left to do of an instruction after `effect` has set the registers.
#[derive(Clone, Copy)]
pub enum Ending {
    /// Nothing: the step is over, and the PC is at the next instruction.
    Next,
    /// MRS: a special register is read into a register.
    ReadSpecial(MoveFromSpecial),
    /// MSR: a special register is written with this value.
    WriteSpecial(SpecialRegister, u32),
    /// CPS.
    ChangeState(ChangeProcessorState),
    /// WFI: the processor sleeps.
    Sleep,
    /// SVC with this number, at which the PC still is.
    SupervisorCall(u8),
    /// A breakpoint with this number.
    Breakpoint(u8),
    /// A return from an exception, with this EXC_RETURN value.
    ExceptionReturn(u32),
}
