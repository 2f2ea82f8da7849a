//! The low part of a register extended, and the bytes or bits of one rearranged: SXTB, SXTH, UXTB,
//! UXTH, REV, REV16, REVSH, RBIT and CLZ.

ghost use Rattle.std.specs.Prelude.{◌≡◌};
ghost use Rattle.instruction_set.specs.Fields.{width_of, extend, ror, rearranged, rearrange};

use crate::fields::extended;
use instruction_set::data_processing::{Extend, Rearrange, Rearrangement};
use instruction_set::shift::ShiftType;
use instruction_set::size::Size;
use regs::{Regs, shift_c};

/// Returns how many bits a byte, a halfword or a word has.
#[inline]
pub fn width_of(size: Size) -> u8
    ensures { result ≡ width_of size }
{
    match size {
        Size::Byte => 8,
        Size::Halfword => 16,
        Size::Word => 32,
    }
}

/// `ROR(x, rotation)`.
#[inline]
fn ror(x: u32, rotation: u8) -> u32
    ensures { result ≡ ror x rotation }
{
    let (value, _) = shift_c(x, ShiftType::Ror, rotation, false);
    value
}

/// SXTB, SXTH, UXTB and UXTH.
#[inline]
pub(crate) fn extend(operands: &Extend, regs: &mut Regs)
    ensures { regs.new ≡ extend operands.now regs.old }
{
    let rotated = ror(regs.get(operands.source), operands.rotation);
    let value = extended(operands.signed, width_of(operands.size), rotated);
    regs.set(operands.destination, value);
}

/// Returns the bytes or the bits of a word in another order, or how many zeros are above its
/// highest one.
#[inline]
#[tactic(auto, using(crate::proofs::Bits::rearranged_lemmas), unfolding(instruction_set::specs::Fields::rearranged))]
fn rearranged(operation: Rearrangement, x: u32) -> u32
    ensures { result ≡ rearranged operation x }
{
    let [a, b, c, d] = x.to_be_bytes();
    match operation {
        Rearrangement::ReverseWord => u32::from_be_bytes([d, c, b, a]),
        Rearrangement::ReverseHalfwords => u32::from_be_bytes([b, a, d, c]),
        Rearrangement::ReverseSignedHalfword => extended(
            true,
            16,
            u16::from_be_bytes([d, c]) as u32,
        ),
        Rearrangement::ReverseBits => x.reverse_bits(),
        Rearrangement::CountLeadingZeros => x.leading_zeros(),
    }
}

/// REV, REV16, REVSH, RBIT and CLZ.
#[inline]
pub(crate) fn rearrange(operands: &Rearrange, regs: &mut Regs)
    ensures { regs.new ≡ rearrange operands.now regs.old }
{
    let value = rearranged(operands.operation, regs.get(operands.source));
    regs.set(operands.destination, value);
}
