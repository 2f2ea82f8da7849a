//! What a register reads, without the effect that a read has.

ghost use Rattle.std.specs.Prelude.{◌≡◌, ◌/◌, ◌*◌};
ghost use Rattle.platform.specs.System as spec;
ghost use Rattle.platform.specs.SysTickRegisters as spec_systick;

use crate::addresses::register_at;
use crate::control::read_control;
use crate::interrupts::{read_interrupts, read_priorities};
use crate::system::System;
use clock::{SysTick, SysTickState};
use mpu::Decider;
use nvic::Exceptions;
use platform::system::{SysTickRegister, SystemRegister};

impl<D: Decider, L: Exceptions, U: SysTickState> System<D, L, U> {
    /// Returns what the word at an address of the Private Peripheral Bus reads while IPSR is `exception`. Nothing is
    /// read, so COUNTFLAG stays.
    pub fn peek_word(&self, exception: u16, address: u32) -> u32
        ensures { result ≡ spec.word_at exception self.now (spec.register_at (address / 4 * 4)) }
    {
        self.peek_register(exception, register_at(address & !3))
    }

    /// Returns what a register reads while IPSR is `exception`.
    #[tactic(auto, unfolding(platform::specs::System::word_at))]
    fn peek_register(&self, exception: u16, register: SystemRegister) -> u32
        ensures { result ≡ spec.word_at exception self.now register }
    {
        match register {
            SystemRegister::SysTick(register) => peek_systick(self.clock().systick(), register),
            SystemRegister::Interrupts(register, word) => {
                read_interrupts(self.exceptions(), register, word)
            }
            SystemRegister::Priorities(first) => read_priorities(self.exceptions(), first),
            SystemRegister::Control(register) => read_control(
                self.exceptions(),
                exception,
                register,
            ),
            SystemRegister::Status(register) => self.status().read(register),
            SystemRegister::Mpu(register) => self.mpu().read_reg(register),
            SystemRegister::Unlisted => 0,
        }
    }
}

/// Returns what a register of SysTick reads.
#[tactic(auto, unfolding(platform::specs::SysTickRegisters::read_systick))]
fn peek_systick(systick: SysTick, register: SysTickRegister) -> u32
    ensures { result ≡ spec_systick.read_systick systick register }
{
    match register {
        SysTickRegister::Csr => systick.csr(),
        SysTickRegister::Rvr => systick.rvr(),
        SysTickRegister::Cvr => systick.cvr(),
    }
}
