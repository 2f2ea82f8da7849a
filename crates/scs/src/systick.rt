//! SYST_CSR, SYST_RVR and SYST_CVR.

ghost use Rattle.std.specs.Prelude.{◌≡◌};
ghost use Rattle.clock.specs.DueTick.{DueTickIsExact};
ghost use Rattle.platform.specs.SysTickRegisters as spec;

use clock::{Clock, SysTickState};
use platform::system::SysTickRegister;

/// Returns the register at the address of a word, if it is one of these.
#[tactic(auto, unfolding(platform::specs::SysTickRegisters::systick_at))]
pub fn systick_at(word: u32) -> Option<SysTickRegister>
    ensures { result ≡ spec.systick_at word }
{
    match word {
        0xE000_E010 => Some(SysTickRegister::Csr),
        0xE000_E014 => Some(SysTickRegister::Rvr),
        0xE000_E018 => Some(SysTickRegister::Cvr),
        _ => None,
    }
}

/// Reads a register; a read of SYST_CSR clears COUNTFLAG.
#[tactic(auto, unfolding(crate::proofs::SysTickReads::value_and_effect))]
pub fn read_systick<U: SysTickState>(clock: &mut Clock<U>, register: SysTickRegister) -> u32
    requires { DueTickIsExact clock.old }
    ensures value { result ≡ spec.read_systick clock.old.time.systick register }
    ensures time { clock.new.time
        ≡ record clock.old.time { systick = spec.after_systick_read clock.old.time.systick register } }
    ensures right { DueTickIsExact clock.new }
{
    match register {
        SysTickRegister::Csr => clock.read_csr(),
        SysTickRegister::Rvr => clock.read_rvr(),
        SysTickRegister::Cvr => clock.read_cvr(),
    }
}

/// Writes a register.
#[tactic(auto, unfolding(platform::specs::SysTickRegisters::write_systick))]
pub fn write_systick<U: SysTickState>(clock: &mut Clock<U>, register: SysTickRegister, value: u32)
    ensures time { clock.new.time
        ≡ record clock.old.time { systick = spec.write_systick clock.old.time.systick register value } }
    ensures right { DueTickIsExact clock.new }
{
    match register {
        SysTickRegister::Csr => clock.write_csr(value),
        SysTickRegister::Rvr => clock.write_rvr(value),
        SysTickRegister::Cvr => clock.write_cvr(),
    }
}
