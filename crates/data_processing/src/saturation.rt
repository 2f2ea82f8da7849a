//! Saturation: SSAT and USAT.

ghost use Rattle.std.specs.Ordering.{int_eq};
ghost use Rattle.std.specs.Prelude.{◌≡◌, ◌-◌, ◌≤◌, ◌^◌, not, pos};
ghost use Rattle.instruction_set.specs.Arithmetic.{signed};
ghost use Rattle.instruction_set.specs.Fields.{least, greatest, nearest, saturated, saturate};
ghost use Rattle.instruction_set.specs.Products.{low_bits};

use crate::results::shifted;
use instruction_set::data_processing::Saturate;
use instruction_set::registers::Flags;
use regs::Regs;

/// A range of more bits than this saturates each word as one of this many bits does.
const WIDEST: u8 = 32;

/// Returns the least number of `bits` bits.
#[inline]
fn least(is_signed: bool, bits: u8) -> i64
    requires { bits ≤ WIDEST }
    ensures { result ≡ least is_signed bits }
{
    if is_signed {
        -(1 << bits.saturating_sub(1))
    } else {
        0
    }
}

/// Returns the greatest unsigned number of `bits` bits.
#[inline]
fn ones(bits: u8) -> i64
    requires { bits ≤ WIDEST }
    ensures { result ≡ pos (2 ^ bits - 1) }
{
    ((1u64 << bits) - 1) as i64
}

/// Returns the greatest number of `bits` bits.
#[inline]
fn greatest(is_signed: bool, bits: u8) -> i64
    requires { bits ≤ WIDEST }
    ensures { result ≡ greatest is_signed bits }
{
    if is_signed {
        ones(bits.saturating_sub(1))
    } else {
        ones(bits)
    }
}

/// Returns the number itself, or the end of the range that it is beyond.
#[inline]
fn nearest(from: i64, to: i64, value: i64) -> i64
    ensures { result ≡ nearest from to value }
{
    if to < value {
        to
    } else if value < from {
        from
    } else {
        value
    }
}

/// Returns the low word of an integer.
#[inline]
fn low_word(value: i64) -> u32
    ensures { result ≡ low_bits 32 value }
{
    (value.cast_unsigned() & 0xFFFF_FFFF) as u32
}

#[inline]
fn differs(x: i64, y: i64) -> bool
    ensures { result ≡ not (int_eq x y) }
{
    x != y
}

/// Returns a word as a signed number.
#[inline]
#[tactic(auto, using(crate::proofs::Wide::signed_cast))]
fn signed(word: u32) -> i64
    ensures { result ≡ signed word }
{
    word.cast_signed() as i64
}

/// Returns the number of a range that is nearest to a word, read as signed, and whether it differs
/// from the word.
#[inline]
#[tactic(auto, unfolding(instruction_set::specs::Fields::saturated))]
fn saturated_within(is_signed: bool, bits: u8, word: u32) -> (u32, bool)
    requires { bits ≤ WIDEST }
    ensures { result ≡ saturated is_signed bits word }
{
    let value = signed(word);
    let given = nearest(least(is_signed, bits), greatest(is_signed, bits), value);
    (low_word(given), differs(given, value))
}

/// Returns what `saturated_within` does, for any number of bits.
#[inline]
#[tactic(auto, using(crate::proofs::Ranges::none_beyond))]
fn saturated(is_signed: bool, bits: u8, word: u32) -> (u32, bool)
    ensures { result ≡ saturated is_signed bits word }
{
    if bits > WIDEST {
        saturated_within(is_signed, WIDEST, word)
    } else {
        saturated_within(is_signed, bits, word)
    }
}

/// SSAT and USAT.
#[inline]
pub(crate) fn saturate(operands: &Saturate, regs: &mut Regs)
    ensures { regs.new ≡ saturate operands.now regs.old }
{
    let (word, _) = shifted(operands.source, regs);
    let (value, is_saturated) = saturated(operands.signed, operands.bits, word);
    let flags = regs.flags();
    regs.set(operands.destination, value);
    regs.set_flags(Flags {
        saturated: flags.saturated || is_saturated,
        ..flags
    });
}
