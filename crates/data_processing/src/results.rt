//! What the instructions that compute have in common: the second operand and its carry, the flags after a
//! result, and the write of a result to its register.

ghost use Rattle.std.specs.Prelude.{◌≡◌};
ghost use Rattle.instruction_set.specs.Registers.{with_result};
ghost use Rattle.instruction_set.specs.Results.{immediate_carry, shifted, sets_flags, logical, summed, written};

use instruction_set::data_processing::{FlagSetting, Immediate, ShiftedRegister};
use instruction_set::registers::{Flags, Register};
use regs::{Regs, shift_c};

/// Returns the carry of an immediate: C, unchanged, where its expansion has none.
#[inline]
pub(crate) fn immediate_carry(immediate: Immediate, flags: Flags) -> bool
    ensures { result ≡ immediate_carry immediate flags }
{
    match immediate.carry {
        Some(carry) => carry,
        None => flags.carry,
    }
}

/// Returns a shifted register, and its carry.
#[inline(always)]
pub(crate) fn shifted(operand: ShiftedRegister, regs: &Regs) -> (u32, bool)
    ensures { result ≡ shifted operand regs.now }
{
    let value = regs.get(operand.register);
    let carry = regs.flags().carry;
    shift_c(value, operand.shift.shift_type, operand.shift.amount, carry)
}

/// Returns the flags, with N and Z of a result.
#[inline]
pub(crate) fn with_result(flags: Flags, value: u32) -> Flags
    ensures { result ≡ with_result flags value }
{
    Flags {
        negative: value >> 31 == 1,
        zero: value == 0,
        ..flags
    }
}

/// Returns a logical result and its flags: N and Z of it, and C of the shifter.
#[inline]
pub(crate) fn logical(flags: Flags, value: u32, carry: bool) -> (u32, Flags)
    ensures { result ≡ logical flags value carry }
{
    let flags = Flags {
        carry,
        ..with_result(flags, value)
    };
    (value, flags)
}

/// Returns a sum and its flags: N, Z, C and V.
#[inline]
pub(crate) fn summed(flags: Flags, sum: (u32, bool, bool)) -> (u32, Flags)
    ensures { result ≡ summed flags sum }
{
    let (value, carry, overflow) = sum;
    let flags = Flags {
        carry,
        overflow,
        ..with_result(flags, value)
    };
    (value, flags)
}

/// Returns whether an instruction sets flags: `setflags`.
#[inline]
fn sets_flags(setting: FlagSetting, regs: &Regs) -> bool
    ensures { result ≡ sets_flags setting regs.now }
{
    match setting {
        FlagSetting::Never => false,
        FlagSetting::OutsideBlock => !regs.in_it_block(),
        FlagSetting::Always => true,
    }
}

/// Writes the result to the destination, and the flags where the instruction sets them.
#[inline]
pub(crate) fn write(
    setting: FlagSetting,
    destination: Register,
    given: (u32, Flags),
    regs: &mut Regs,
)
    ensures { regs.new ≡ written setting destination given regs.old }
{
    let (value, flags) = given;
    let sets = sets_flags(setting, regs);
    regs.set(destination, value);
    if sets {
        regs.set_flags(flags);
    }
}
