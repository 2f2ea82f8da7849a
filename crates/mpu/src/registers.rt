//! The registers, their reads and their writes.

ghost use Rattle.std.specs.Prelude.{◌≡◌, ◌+◌, ◌%◌, ◌<◌, ◌≤◌, ◌⊎◌, true, IfSome};
ghost use Rattle.mpu.specs.Spans.{BelongTo};
ghost use Rattle.platform.specs.Regions as spec;
ghost use Rattle.platform.specs.Regions.{fresh, read, write, after_write, answered, region_registers};
ghost use Rattle.platform.specs.Regions.{with_region_base, with_attributes, selected, write_mpu_ctrl, write_base};
ghost use Rattle.platform.specs.Regions.{based, write_attributes, is_accepted, owner, mpu_register_at, stop_of};

use crate::regions::{is_accepted, is_bit, matches};
use crate::spans::{Span, cut};
use instruction_set::unpredictable::UnpredictableCase;
use platform::mpu::{MAX_REGIONS, MpuRegister, MpuStop, Region};
use platform::stop::Stop;
use std::marker::Model;

/// The most regions, as a length.
const PLACES: usize = MAX_REGIONS as usize;

/// The bits that RASR keeps: XN, AP, TEX, S, C, B, SRD, SIZE and ENABLE.
const STORED: u32 = 0x173F_FF3F;

/// The bit of MPU_CTRL for ENABLE: the MPU is on.
pub(crate) const ENABLE: u32 = 0;

/// The bit for HFNMIENA: the MPU is on also for code whose execution priority is below 0.
pub(crate) const HFNMIENA: u32 = 1;

/// The bit for PRIVDEFENA: where no region matches, privileged code has the default map.
pub(crate) const PRIVDEFENA: u32 = 2;

/// The bit of RBAR for VALID: a write with it selects REGION.
const VALID: u32 = 4;

/// The registers of the MPU. A contract sees them as the reference's `Mpu`.
#[derive(Clone, Copy)]
pub struct MpuRegs {
    control: u32,
    /// The region that MPU_RNR selects.
    number: u8,
    /// How many regions the board has.
    count: u8,
    regions: [Region; PLACES],
}

impl Model for MpuRegs {
    ghost use Rattle.platform.specs.Regions.{Mpu, IsSound};

    ghost Value = { Mpu };

    ghost view = { λ m. record {
      control = m.control;
      number = m.number;
      count = m.count;
      regions = m.regions;
    } };

    ghost invariant = { λ m. IsSound (record {
      control = m.control;
      number = m.number;
      count = m.count;
      regions = m.regions;
    }) };

    ghost inverse = { λ m. record {
      control = m.control;
      number = m.number;
      count = m.count;
      regions = m.regions;
    } };
}

impl MpuRegs {
    /// Returns the registers after a reset, with 8 or 16 regions.
    pub fn new(count: u8) -> Self
        requires { (count ≡ 8) ⊎ (count ≡ 16) }
        ensures { result ≡ fresh count }
    {
        MpuRegs {
            control: 0,
            number: 0,
            count,
            regions: [Region {
                base: 0,
                attributes: 0,
            }; PLACES],
        }
    }

    /// Returns MPU_CTRL: ENABLE, HFNMIENA and PRIVDEFENA are its bits 0 to 2.
    #[inline]
    pub fn control(&self) -> u32
        ensures { result ≡ self.now.control }
    {
        self.control
    }

    /// Returns how many regions there are, 8 or 16.
    #[inline]
    pub fn count(&self) -> u8
        ensures value { result ≡ self.now.count }
        ensures known { (result ≡ 8) ⊎ (result ≡ 16) }
    {
        self.count
    }

    /// Returns what the registers hold of a region.
    #[inline]
    pub fn at(&self, number: u8) -> Region
        requires { number < 16 }
        ensures value { result ≡ spec.region self.now number }
        ensures based { result.base % 32 ≡ 0 }
    {
        self.regions[number as usize]
    }

    /// Returns RBAR with VALID 0 and REGION this number, and RASR; None where there is no such
    /// region.
    pub fn region(&self, number: u8) -> Option<(u32, u32)>
        ensures { result ≡ region_registers self.now number }
    {
        if number >= self.count {
            return None;
        }
        Some((self.base_word(number), self.at(number).attributes))
    }

    /// Returns RBAR of a region, with VALID 0 and REGION its number.
    fn base_word(&self, number: u8) -> u32
        requires { number < 16 }
        ensures { result ≡ (spec.region self.now number).base + number }
    {
        self.at(number).base + u32::from(number)
    }

    /// Returns what a register reads as.
    #[tactic(auto, unfolding(platform::specs::Regions::read))]
    pub fn read_reg(&self, register: MpuRegister) -> u32
        ensures { result ≡ read self.now register }
    {
        match register {
            MpuRegister::Type => u32::from(self.count) << 8,
            MpuRegister::Control => self.control,
            MpuRegister::Number => u32::from(self.number),
            MpuRegister::Base => self.base_word(self.number),
            MpuRegister::Attributes => self.at(self.number).attributes,
        }
    }

    /// Writes a register. Where the write stops by name, all registers are as they were.
    #[tactic(auto, unfolding(platform::specs::Regions::write))]
    pub fn write_reg(&mut self, register: MpuRegister, value: u32) -> Result<(), MpuStop>
        ensures state { self.new ≡ after_write self.old (write self.old register value) }
        ensures answer { result ≡ answered (write self.old register value) }
    {
        match register {
            MpuRegister::Type => Ok(()),
            MpuRegister::Control => self.write_mpu_ctrl(value),
            MpuRegister::Number => self.select((value & 0xFF) as u8),
            MpuRegister::Base => self.write_base(value),
            MpuRegister::Attributes => self.write_attributes(value),
        }
    }

    /// Writes MPU_CTRL; HFNMIENA without ENABLE stops.
    fn write_mpu_ctrl(&mut self, value: u32) -> Result<(), MpuStop>
        ensures state { self.new ≡ after_write self.old (write_mpu_ctrl self.old value) }
        ensures answer { result ≡ answered (write_mpu_ctrl self.old value) }
    {
        if is_bit(value, HFNMIENA) && !is_bit(value, ENABLE) {
            return Err(MpuStop::Control);
        }
        self.control = value & 7;
        Ok(())
    }

    /// Writes the number of an existing region to RNR, or refuses it.
    fn select(&mut self, number: u8) -> Result<(), MpuStop>
        ensures state { self.new ≡ after_write self.old (selected self.old number) }
        ensures answer { result ≡ answered (selected self.old number) }
    {
        if number >= self.count {
            return Err(MpuStop::Region);
        }
        self.number = number;
        Ok(())
    }

    /// Writes RBAR; with VALID 1 the write selects its region first.
    fn write_base(&mut self, value: u32) -> Result<(), MpuStop>
        ensures state { self.new ≡ after_write self.old (write_base self.old value) }
        ensures answer { result ≡ answered (write_base self.old value) }
    {
        if is_bit(value, VALID) {
            self.select((value & 15) as u8)?;
        }
        self.set_base(value & !31);
        Ok(())
    }

    /// Sets the base of the selected region.
    fn set_base(&mut self, base: u32)
        requires { base % 32 ≡ 0 }
        ensures { self.new ≡ with_region_base self.old self.old.number base }
    {
        self.regions[self.number as usize].base = base;
    }

    /// Writes RASR.
    fn write_attributes(&mut self, value: u32) -> Result<(), MpuStop>
        ensures state { self.new ≡ after_write self.old (write_attributes self.old value) }
        ensures answer { result ≡ answered (write_attributes self.old value) }
    {
        let attributes = value & STORED;
        if !is_accepted(attributes) {
            return Err(MpuStop::Region);
        }
        self.set_attributes(attributes);
        Ok(())
    }

    /// Sets the attributes of the selected region.
    fn set_attributes(&mut self, attributes: u32)
        requires { is_accepted attributes ≡ true }
        ensures { self.new ≡ with_attributes self.old self.old.number attributes }
    {
        self.regions[self.number as usize].attributes = attributes;
    }

    /// Returns the number of the highest region that an address lies in.
    #[inline]
    #[tactic(auto, using(crate::proofs::Owner::owner_lemmas), unfolding(platform::specs::Regions::owner))]
    pub fn owner(&self, address: u32) -> Option<u8>
        ensures value { result ≡ owner self.now address }
        ensures within { IfSome result (λ number. number < 16) }
    {
        for number in (0..self.count()).rev() {
            if matches(self.at(number), address) {
                return Some(number);
            }
        }
        None
    }

    /// Returns an interval around an address in which each address has the same region, or none has
    /// one.
    pub fn span(&self, address: u32) -> Span
        ensures first { result.first ≤ address }
        ensures last { address ≤ result.last }
        ensures alike { BelongTo self.now result.first result.last (owner self.now address) }
    {
        let mut span = Span {
            first: 0,
            last: 0xFFFF_FFFF,
        };
        for number in 0..self.count() {
            span = cut(self.at(number), address, span);
        }
        span
    }
}

/// Returns the MPU's register at the address of a word, if there is one: 0xE000ED90 to 0xE000EDB8.
pub fn mpu_register_at(address: u32) -> Option<MpuRegister>
    ensures { result ≡ mpu_register_at address }
{
    match address {
        0xE000_ED90 => Some(MpuRegister::Type),
        0xE000_ED94 => Some(MpuRegister::Control),
        0xE000_ED98 => Some(MpuRegister::Number),
        0xE000_ED9C | 0xE000_EDA4 | 0xE000_EDAC | 0xE000_EDB4 => Some(MpuRegister::Base),
        0xE000_EDA0 | 0xE000_EDA8 | 0xE000_EDB0 | 0xE000_EDB8 => Some(MpuRegister::Attributes),
        _ => None,
    }
}

/// Returns the machine's stop for a refused write.
pub fn stop_of(stop: MpuStop) -> Stop
    ensures { result ≡ stop_of stop }
{
    Stop::Unpredictable(match stop {
        MpuStop::Region => UnpredictableCase::MpuRegion,
        MpuStop::Control => UnpredictableCase::MpuControl,
    })
}
