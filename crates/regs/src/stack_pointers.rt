//! The two stack pointers, and which of them is SP (ARM DDI 0403, `LookUpSP()`). The one in use is kept at the number
//! of SP, so a change of the mode or of CONTROL.SPSEL exchanges the two where it selects the other one.

ghost use Rattle.std.specs.Prelude.{◌≡◌, ◌<◌, if◌then◌else◌};
ghost use Rattle.instruction_set.specs.Registers as spec;
ghost use Rattle.instruction_set.specs.Registers.{with_sp, stack_pointer, control_written};

use crate::{Regs, SP, mask_if};

impl Regs {
    /// Returns the stack pointer in use.
    #[inline]
    pub fn sp(&self) -> u32
        ensures { result ≡ spec.sp self.now }
    {
        self.words[SP as usize]
    }

    /// Sets the stack pointer in use to a value, whose bits 1:0 are cleared.
    #[inline]
    pub fn set_sp(&mut self, value: u32)
        ensures { self.new ≡ with_sp self.old value }
    {
        self.set_stack(self.uses_psp(), value & !3);
    }

    /// Returns whether SP is PSP: `LookUpSP()`.
    #[inline]
    fn uses_psp(&self) -> bool
        ensures { result ≡ spec.uses_psp self.now }
    {
        self.on_psp
    }

    /// MSP, the main stack pointer.
    #[inline]
    pub fn main_stack(&self) -> u32
        ensures { result ≡ self.now.msp }
    {
        if self.on_psp {
            self.other_sp
        } else {
            self.sp()
        }
    }

    /// PSP, the process stack pointer.
    #[inline]
    pub fn process_stack(&self) -> u32
        ensures { result ≡ self.now.psp }
    {
        if self.on_psp {
            self.sp()
        } else {
            self.other_sp
        }
    }

    /// Sets MSP to a value, whose bits 1:0 are cleared.
    pub fn set_main_stack(&mut self, value: u32)
        ensures { self.new ≡ record self.old { msp = stack_pointer value } }
    {
        self.set_stack(false, value & !3);
    }

    /// Sets PSP to a value, whose bits 1:0 are cleared.
    pub fn set_process_stack(&mut self, value: u32)
        ensures { self.new ≡ record self.old { psp = stack_pointer value } }
    {
        self.set_stack(true, value & !3);
    }

    /// Sets PSP if `process` is set, else MSP, to all 32 bits of a value.
    #[inline]
    pub(crate) fn set_stack(&mut self, process: bool, value: u32)
        ensures { self.new ≡ (if process then record self.old { psp = value } else record self.old { msp = value }) }
    {
        if process == self.on_psp {
            self.words[SP as usize] = value;
        } else {
            self.other_sp = value;
        }
    }

    /// Sets IPSR and CONTROL.SPSEL, which select the stack pointer in use.
    pub(crate) fn set_mode(&mut self, exception: u16, process_stack: bool)
        requires { exception < 512 }
        ensures { self.new ≡ record self.old { exception = exception; process_stack = process_stack } }
    {
        let main = self.main_stack();
        let process = self.process_stack();
        self.exception = exception;
        self.process_stack = process_stack;
        if exception == 0 && process_stack {
            self.words[SP as usize] = process;
            self.other_sp = main;
            self.on_psp = true;
        } else {
            self.words[SP as usize] = main;
            self.other_sp = process;
            self.on_psp = false;
        }
    }

    /// CONTROL: nPRIV and SPSEL.
    pub fn control(&self) -> u32
        ensures { result ≡ spec.control self.now }
    {
        mask_if(self.unprivileged, 1) + mask_if(self.process_stack, 2)
    }

    /// Writes CONTROL as MSR does: nPRIV (bit 0), and in Thread mode SPSEL (bit 1).
    pub fn write_control(&mut self, value: u32)
        ensures { self.new ≡ control_written self.old value }
    {
        self.unprivileged = value & 1 == 1;
        if self.exception == 0 {
            self.set_mode(0, value >> 1 & 1 == 1);
        }
    }
}
