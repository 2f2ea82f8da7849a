//! What a debugger reads of a machine.

ghost use Rattle.std.specs.Prelude.{◌≡◌};
ghost use Rattle.devices.specs.Devices.{read_at};
ghost use Rattle.instruction_set.specs.declared.size.Size.TheVariants.{Byte};
ghost use Rattle.platform.specs.Memory.{byte_at, is_in_memory};
ghost use Rattle.reference.specs.Peek.{peek_memory_or_device};
ghost use Rattle.platform.specs.Priorities.{is_below_zero, is_in};
ghost use Rattle.platform.specs.Regions.{region_registers};
ghost use Rattle.platform.specs.Status.{read_status};

use crate::stepping::Processor;
use access::{Decider, Exceptions, KeptCode, SysTick, SysTickState};
use instruction_set::size::Size;
use mpu::MpuRegs;
use platform::system::StatusRegister;
use target::RegValues;

/// What the core runs.
#[derive(Clone, Copy)]
pub struct Execution {
    /// The address of the next instruction.
    pub pc: u32,
    /// The exception whose handler runs, 0 in Thread mode: IPSR.
    pub exception: u16,
    /// Whether privileged code runs.
    pub privileged: bool,
    /// Whether WFI has put the core to sleep.
    pub asleep: bool,
}

impl<D: Decider, C: KeptCode, L: Exceptions, U: SysTickState> Processor<D, C, L, U> {
    ghost use Rattle.machine.specs.Execution.{execution_of};
    ghost use Rattle.target.specs.Values.{values_of};

    /// What the core runs.
    #[inline]
    pub fn execution(&self) -> Execution
        ensures { result ≡ execution_of self.now }
    {
        let regs = self.registers();
        Execution {
            pc: regs.pc(),
            exception: regs.exception(),
            privileged: regs.is_privileged(),
            asleep: self.is_asleep(),
        }
    }

    /// The values of the core registers.
    pub fn regs(&self) -> RegValues
        ensures { result ≡ values_of self.now.registers self.now.bus.system.nvic.masks }
    {
        let regs = self.registers();
        let masks = self.bus().system.masks();
        RegValues {
            general: regs.general(),
            msp: regs.main_stack(),
            psp: regs.process_stack(),
            lr: regs.link(),
            pc: regs.pc(),
            xpsr: regs.xpsr(),
            control: regs.control(),
            primask: u32::from(masks.primask),
            faultmask: u32::from(masks.faultmask),
            basepri: u32::from(masks.basepri),
        }
    }

    /// Returns the byte of memory at an address, if there is one.
    pub fn byte(&self, address: u32) -> Option<u8>
        ensures { result ≡ byte_at self.now.bus.memory address }
    {
        self.bus().memory().byte(address)
    }

    /// Returns whether `length` bytes from an address on lie wholly in one block of memory.
    pub fn has_memory(&self, address: u32, length: usize) -> bool
        ensures { result ≡ is_in_memory self.now.bus.memory address length }
    {
        self.bus().memory().is_in_memory(address, length)
    }

    /// Returns the byte at an address that memory or the word of a device has, if one does. Nothing changes: no load
    /// pokes.
    pub fn peek_memory_or_device(&self, address: u32) -> Option<u8>
        ensures { result ≡ peek_memory_or_device self.now.bus address }
    {
        match self.byte(address) {
            Some(byte) => Some(byte),
            None => self.device_byte(address),
        }
    }

    /// Returns the byte of a device's word at an address, if there is one.
    fn device_byte(&self, address: u32) -> Option<u8>
        ensures { result ≡ read_at self.now.bus.system.devices self.now.bus.system.time.ticks address Byte }
    {
        match self.bus().system.peek_device(address, Size::Byte) {
            Some(value) => Some(value as u8),
            None => None,
        }
    }

    /// The registers of the MPU.
    #[inline]
    pub fn mpu(&self) -> &MpuRegs
        ensures { result.now ≡ self.now.bus.system.mpu }
    {
        self.bus().system.mpu()
    }

    /// RBAR and RASR of a region, if there is one of that number.
    pub fn region(&self, number: u8) -> Option<(u32, u32)>
        ensures { result ≡ region_registers self.now.bus.system.mpu number }
    {
        self.bus().system.region(number)
    }

    /// How many ticks have gone by.
    pub fn ticks(&self) -> u64
        ensures { result ≡ self.now.bus.system.time.ticks }
    {
        self.bus().system.ticks()
    }

    /// SysTick. Nothing is read of its registers, so COUNTFLAG stays.
    pub fn systick(&self) -> SysTick
        ensures { result ≡ self.now.bus.system.time.systick }
    {
        self.bus().system.clock().systick()
    }

    /// VTOR, SCR, CCR or a register of faults, as it reads.
    pub fn status_word(&self, register: StatusRegister) -> u32
        ensures { result ≡ read_status self.now.bus.system.status register }
    {
        self.bus().system.status().read(register)
    }

    /// Whether an exception is pending.
    pub fn is_pending(&self, number: u16) -> bool
        ensures { result ≡ is_in self.now.bus.system.nvic.pending number }
    {
        self.bus().system.exceptions().is_pending(number)
    }

    /// Whether an exception is active.
    pub fn is_active(&self, number: u16) -> bool
        ensures { result ≡ is_in self.now.bus.system.nvic.active number }
    {
        self.bus().system.exceptions().is_active(number)
    }

    /// Whether the execution priority is below 0.
    #[inline]
    pub fn is_below_zero(&self) -> bool
        ensures { result ≡ is_below_zero self.now.bus.system.nvic }
    {
        self.bus().system.exceptions().is_below_zero()
    }
}
