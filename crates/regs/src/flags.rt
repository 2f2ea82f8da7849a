//! The flags of APSR (ARM DDI 0403, "Registers" of the programmers' model). N and Z are kept as words: N is bit 31 of
//! one, and Z is set if the other is 0. So the result of an instruction can be stored for both as it is.

ghost use Rattle.std.specs.Prelude.{◌≡◌, ◌≤◌, ◌-◌, ◌^◌};
ghost use Rattle.instruction_set.specs.Registers as spec;
ghost use Rattle.instruction_set.specs.Registers.{flags_of, with_result};
ghost use Rattle.instruction_set.specs.Results.{logical_flags, sum_flags};

use crate::{Flags, Regs, mask_if};

impl Regs {
    #[inline]
    pub fn flags(&self) -> Flags
        ensures { result ≡ self.now.flags }
    {
        Flags {
            negative: self.negative_result >> 31 == 1,
            zero: self.zero_result == 0,
            carry: self.carry,
            overflow: self.overflow,
            saturated: self.saturated,
        }
    }

    /// Sets the five flags.
    #[inline]
    pub fn set_flags(&mut self, flags: Flags)
        ensures { self.new ≡ record self.old { flags = flags } }
    {
        self.negative_result = mask_if(flags.negative, 1 << 31);
        self.zero_result = mask_if(!flags.zero, 1);
        self.carry = flags.carry;
        self.overflow = flags.overflow;
        self.saturated = flags.saturated;
    }

    /// Sets N and Z by a result, and leaves the others.
    #[inline(always)]
    pub fn set_result_flags(&mut self, value: u32)
        ensures { self.new ≡ record self.old { flags = with_result self.old.flags value } }
    {
        self.negative_result = value;
        self.zero_result = value;
    }

    /// Sets N and Z by a result, and C, and leaves the others.
    #[inline(always)]
    pub fn set_logical_flags(&mut self, value: u32, carry: bool)
        ensures { self.new ≡ record self.old { flags = logical_flags self.old.flags value carry } }
    {
        self.set_result_flags(value);
        self.carry = carry;
    }

    /// Sets N, Z, C and V by a sum, as `add_with_carry` returns it.
    #[inline(always)]
    pub fn set_sum_flags(&mut self, sum: (u32, bool, bool))
        ensures { self.new ≡ record self.old { flags = sum_flags self.old.flags sum } }
    {
        let (value, carry, overflow) = sum;
        self.set_result_flags(value);
        self.carry = carry;
        self.overflow = overflow;
    }

    /// C.
    #[inline(always)]
    pub fn carry(&self) -> bool
        ensures { result ≡ self.now.flags.carry }
    {
        self.carry
    }

    /// APSR: the flags in bits 31:27.
    pub fn apsr(&self) -> u32
        ensures value { result ≡ spec.apsr self.now.flags }
        ensures room { result ≤ 2 ^ 32 - 2 ^ 27 }
    {
        let flags = self.flags();
        mask_if(flags.negative, 1 << 31)
            + mask_if(flags.zero, 1 << 30)
            + mask_if(flags.carry, 1 << 29)
            + mask_if(flags.overflow, 1 << 28)
            + mask_if(flags.saturated, 1 << 27)
    }
}

/// Returns the flags in bits 31:27 of a word, as MSR writes them to APSR.
#[inline]
pub fn flags_of(word: u32) -> Flags
    ensures { result ≡ flags_of word }
{
    Flags {
        negative: word >> 31 & 1 == 1,
        zero: word >> 30 & 1 == 1,
        carry: word >> 29 & 1 == 1,
        overflow: word >> 28 & 1 == 1,
        saturated: word >> 27 & 1 == 1,
    }
}
