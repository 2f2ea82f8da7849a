//! VTOR, SCR, CCR, CFSR, HFSR, MMFAR and BFAR.

ghost use Rattle.std.specs.Prelude.{◌≡◌};
ghost use Rattle.platform.specs.Status as spec;
ghost use Rattle.platform.specs.Status.{reset_status, nonbasethrdena, usersetmpend, unalign_trp, div_0_trp};
ghost use Rattle.platform.specs.Status.{read_status, write_status, write_scr, write_ccr};
ghost use Rattle.scs.specs.Writes.{after_write, answered};

use crate::bits::is_bit;
use platform::stop::{Stop, Unsupported};
use platform::system::StatusRegister;
use std::marker::Model;

/// The bits that SCR keeps: SLEEPDEEP and SEVONPEND.
const SCR_KEPT: u32 = 0x14;

/// The bits that CCR keeps: NONBASETHRDENA, USERSETMPEND, UNALIGN_TRP and DIV_0_TRP.
const CCR_KEPT: u32 = 0x1B;

/// The bit that CCR always reads as 1: STKALIGN.
const STKALIGN: u32 = 0x200;

/// The registers. A contract sees them as the reference's `Status`.
#[derive(Drop)]
pub struct Status {
    vtor: u32,
    scr: u32,
    ccr: u32,
    cfsr: u32,
    hfsr: u32,
    mmfar: u32,
    bfar: u32,
}

impl Model for Status {
    ghost use Rattle.platform.specs.Status.{Status as StatusState};

    ghost Value = { StatusState };

    ghost view = { λ s. record {
      vtor = s.vtor;
      scr = s.scr;
      ccr = s.ccr;
      cfsr = s.cfsr;
      hfsr = s.hfsr;
      mmfar = s.mmfar;
      bfar = s.bfar;
    } };
}

impl Status {
    /// Returns the registers after a reset, with flash at an address.
    pub fn reset(flash_base: u32) -> Self
        ensures { result ≡ reset_status flash_base }
    {
        Status {
            vtor: flash_base,
            scr: 0,
            ccr: STKALIGN,
            cfsr: 0,
            hfsr: 0,
            mmfar: 0,
            bfar: 0,
        }
    }

    pub fn copied(&self) -> Self
        ensures { result ≡ self.now }
    {
        Status {
            vtor: self.vtor,
            scr: self.scr,
            ccr: self.ccr,
            cfsr: self.cfsr,
            hfsr: self.hfsr,
            mmfar: self.mmfar,
            bfar: self.bfar,
        }
    }

    /// Returns the address of the vector table.
    #[inline]
    pub fn vtor(&self) -> u32
        ensures { result ≡ self.now.vtor }
    {
        self.vtor
    }

    #[inline]
    pub fn nonbasethrdena(&self) -> bool
        ensures { result ≡ nonbasethrdena self.now }
    {
        is_bit(self.ccr, 0)
    }

    #[inline]
    pub fn usersetmpend(&self) -> bool
        ensures { result ≡ usersetmpend self.now }
    {
        is_bit(self.ccr, 1)
    }

    #[inline]
    pub fn unalign_trp(&self) -> bool
        ensures { result ≡ unalign_trp self.now }
    {
        is_bit(self.ccr, 3)
    }

    #[inline]
    pub fn div_0_trp(&self) -> bool
        ensures { result ≡ div_0_trp self.now }
    {
        is_bit(self.ccr, 4)
    }

    /// Sets bits of CFSR and HFSR, as a fault does.
    pub fn set_fault_bits(&mut self, cfsr: u32, hfsr: u32)
        ensures { self.new ≡ spec.with_fault_bits self.old cfsr hfsr }
    {
        self.cfsr |= cfsr;
        self.hfsr |= hfsr;
    }

    /// Sets MMFAR, as a MemManage fault does.
    pub fn set_mmfar(&mut self, address: u32)
        ensures { self.new ≡ spec.with_mmfar self.old address }
    {
        self.mmfar = address;
    }

    /// Sets BFAR, as a BusFault does.
    pub fn set_bfar(&mut self, address: u32)
        ensures { self.new ≡ spec.with_bfar self.old address }
    {
        self.bfar = address;
    }

    #[tactic(auto, unfolding(platform::specs::Status::read_status))]
    pub fn cfsr(&self) -> u32
        ensures { result ≡ self.now.cfsr }
    {
        self.read(StatusRegister::Cfsr)
    }

    #[tactic(auto, unfolding(platform::specs::Status::read_status))]
    pub fn hfsr(&self) -> u32
        ensures { result ≡ self.now.hfsr }
    {
        self.read(StatusRegister::Hfsr)
    }

    /// Reads a register.
    #[tactic(auto, unfolding(platform::specs::Status::read_status))]
    pub fn read(&self, register: StatusRegister) -> u32
        ensures { result ≡ read_status self.now register }
    {
        match register {
            StatusRegister::Vtor => self.vtor,
            StatusRegister::Scr => self.scr,
            StatusRegister::Ccr => self.ccr,
            StatusRegister::Cfsr => self.cfsr,
            StatusRegister::Hfsr => self.hfsr,
            StatusRegister::Mmfar => self.mmfar,
            StatusRegister::Bfar => self.bfar,
        }
    }

    /// Writes a word to a register; a write that stops by name leaves the registers as they were.
    #[tactic(auto, unfolding(platform::specs::Status::write_status))]
    pub fn write(&mut self, register: StatusRegister, value: u32) -> Result<(), Stop>
        ensures state { self.new ≡ after_write self.old (write_status self.old register value) }
        ensures answer { result ≡ answered (write_status self.old register value) }
    {
        match register {
            StatusRegister::Vtor => self.vtor = value & !0x7F,
            StatusRegister::Scr => return self.write_scr(value),
            StatusRegister::Ccr => return self.write_ccr(value),
            StatusRegister::Cfsr => self.cfsr &= !value,
            StatusRegister::Hfsr => self.hfsr &= !value,
            StatusRegister::Mmfar => self.mmfar = value,
            StatusRegister::Bfar => self.bfar = value,
        }
        Ok(())
    }

    /// Writes SCR; SLEEPONEXIT stops.
    fn write_scr(&mut self, value: u32) -> Result<(), Stop>
        ensures state { self.new ≡ after_write self.old (write_scr self.old value) }
        ensures answer { result ≡ answered (write_scr self.old value) }
    {
        if is_bit(value, 1) {
            return Err(Stop::OutOfProfile(Unsupported::SleepOnExit));
        }
        self.scr = value & SCR_KEPT;
        Ok(())
    }

    /// Writes CCR; BFHFNMIGN stops.
    fn write_ccr(&mut self, value: u32) -> Result<(), Stop>
        ensures state { self.new ≡ after_write self.old (write_ccr self.old value) }
        ensures answer { result ≡ answered (write_ccr self.old value) }
    {
        if is_bit(value, 8) {
            return Err(Stop::OutOfProfile(Unsupported::IgnoredBusFaults));
        }
        self.ccr = value & CCR_KEPT | STKALIGN;
        Ok(())
    }
}

/// Returns the register at the address of a word, if it is one of these.
#[tactic(auto, unfolding(platform::specs::Status::status_at))]
pub fn status_at(word: u32) -> Option<StatusRegister>
    ensures { result ≡ spec.status_at word }
{
    match word {
        0xE000_ED08 => Some(StatusRegister::Vtor),
        0xE000_ED10 => Some(StatusRegister::Scr),
        0xE000_ED14 => Some(StatusRegister::Ccr),
        0xE000_ED28 => Some(StatusRegister::Cfsr),
        0xE000_ED2C => Some(StatusRegister::Hfsr),
        0xE000_ED34 => Some(StatusRegister::Mmfar),
        0xE000_ED38 => Some(StatusRegister::Bfar),
        _ => None,
    }
}

/// Returns whether a register takes bytes and halfwords: CFSR, which is three in one word.
pub fn has_parts(register: StatusRegister) -> bool
    ensures { result ≡ spec.has_parts register }
{
    matches!(register, StatusRegister::Cfsr)
}
