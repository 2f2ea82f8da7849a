//! Sums, shifts and modified immediates (ARM DDI 0403: `AddWithCarry()`, `Shift_C()`,
//! `DecodeImmShift()` and `ThumbExpandImm_C()`).

ghost use Rattle.std.specs.Prelude.{◌≡◌, ◌<◌, not, true, false};
ghost use Rattle.std.specs.Ordering.{int_eq};
ghost use Rattle.instruction_set.specs.Arithmetic as spec;
ghost use Rattle.instruction_set.specs.Arithmetic.{sum_result, signed_sum, signed};
ghost use Rattle.instruction_set.specs.DataProcessing.{inverted};
ghost use Rattle.instruction_set.specs.Words.{is_bit};

pub use instruction_set::shift::{Shift, ShiftType};

/// `AddWithCarry(x, y, carry)`: the low 32 bits of the sum, whether the unsigned sum isn't the
/// result (the carry out), and whether the signed sum isn't the result read as signed (the
/// overflow).
#[inline]
pub fn add_with_carry(x: u32, y: u32, carry: bool) -> (u32, bool, bool)
    ensures { result ≡ spec.add_with_carry x y carry }
{
    let sum = unsigned_sum(x, y, carry);
    let result = (sum & 0xFFFF_FFFF) as u32;
    (result, sum >> 32 != 0, is_overflow(x, y, carry, result))
}

/// Returns the whole sum of two words and a carry.
#[inline]
fn unsigned_sum(x: u32, y: u32, carry: bool) -> u64
    ensures { result ≡ spec.unsigned_sum x y carry }
{
    x as u64 + y as u64 + if carry { 1 } else { 0 }
}

/// Returns whether the signed sum isn't the result: both words have one sign, and the result has
/// the other.
#[inline]
#[tactic(auto, using(crate::proofs::Sums::signs_of_sum))]
fn is_overflow(x: u32, y: u32, carry: bool, sum: u32) -> bool
    requires { sum ≡ sum_result x y carry }
    ensures { result ≡ not (int_eq (signed_sum x y carry) (signed sum)) }
{
    is_negative(x) == is_negative(y) && is_negative(x) != is_negative(sum)
}

/// `AddWithCarry(x, y, 0)`.
#[inline(always)]
pub fn sum(x: u32, y: u32) -> (u32, bool, bool)
    ensures { result ≡ spec.add_with_carry x y false }
{
    let value = x.wrapping_add(y);
    (value, value < x, is_overflow(x, y, false, value))
}

/// `AddWithCarry(x, NOT(y), 1)`.
#[inline(always)]
pub fn difference(x: u32, y: u32) -> (u32, bool, bool)
    ensures { result ≡ spec.add_with_carry x (inverted y) true }
{
    let value = x.wrapping_sub(y);
    (value, x >= y, is_overflow(x, !y, true, value))
}

/// `AddWithCarry(NOT(x), y, 1)`.
#[inline(always)]
pub fn reverse_difference(x: u32, y: u32) -> (u32, bool, bool)
    ensures { result ≡ spec.add_with_carry (inverted x) y true }
{
    let value = y.wrapping_sub(x);
    (value, y >= x, is_overflow(!x, y, true, value))
}

/// Bit 31 of a word.
#[inline]
fn is_negative(x: u32) -> bool
    ensures { result ≡ is_bit x 31 }
{
    x >> 31 == 1
}

/// `Shift_C(value, shift_type, amount, carry)`: the shifted word and the carry out. The amount is
/// that of [`decode_imm_shift`], or the low byte of a register: by 0 the word and the carry stay.
/// RRX is by one place.
#[inline]
#[tactic(auto, unfolding(instruction_set::specs::Arithmetic::shift_c))]
pub fn shift_c(value: u32, shift_type: ShiftType, amount: u8, carry: bool) -> (u32, bool)
    ensures { result ≡ spec.shift_c value shift_type amount carry }
{
    if amount == 0 {
        return (value, carry);
    }
    match shift_type {
        ShiftType::Lsl => lsl_c(value, amount),
        ShiftType::Lsr => lsr_c(value, amount),
        ShiftType::Asr => asr_c(value, amount),
        ShiftType::Ror => ror_c(value, amount),
        ShiftType::Rrx => rrx_c(value, carry),
    }
}

/// `LSL_C(value, amount)`, for an amount from 1.
#[inline]
#[tactic(auto, using(crate::proofs::Shifts::left_above))]
fn lsl_c(value: u32, amount: u8) -> (u32, bool)
    requires { 0 < amount }
    ensures { result ≡ spec.lsl_c value amount }
{
    if amount > 32 {
        return (0, false);
    }
    let wide = (value as u64) << amount;
    ((wide & 0xFFFF_FFFF) as u32, wide >> 32 & 1 == 1)
}

/// `LSR_C(value, amount)`, for an amount from 1.
#[inline]
#[tactic(auto, using(crate::proofs::Shifts::right_above))]
fn lsr_c(value: u32, amount: u8) -> (u32, bool)
    requires { 0 < amount }
    ensures { result ≡ spec.lsr_c value amount }
{
    if amount > 32 {
        return (0, false);
    }
    (
        ((value as u64) >> amount) as u32,
        value >> (amount - 1) & 1 == 1,
    )
}

/// `ASR_C(value, amount)`, for an amount from 1.
#[inline]
#[tactic(auto, using(crate::proofs::Shifts::asr_positive, crate::proofs::Shifts::asr_complement))]
fn asr_c(value: u32, amount: u8) -> (u32, bool)
    requires { 0 < amount }
    ensures { result ≡ spec.asr_c value amount }
{
    if !is_negative(value) {
        return lsr_c(value, amount);
    }
    let (inverted, carry) = lsr_c(!value, amount);
    (!inverted, !carry)
}

/// `ROR_C(value, amount)`, for an amount from 1.
#[inline]
fn ror_c(value: u32, amount: u8) -> (u32, bool)
    ensures { result ≡ spec.ror_c value amount }
{
    let result = rotated(value, amount % 32);
    (result, is_negative(result))
}

/// `LSR(value, amount) OR LSL(value, 32 - amount)`.
#[inline]
#[tactic(auto, using(crate::proofs::Shifts::turned_apart))]
fn rotated(value: u32, amount: u8) -> u32
    requires { amount < 32 }
    ensures { result ≡ spec.rotated value amount }
{
    if amount == 0 {
        return value;
    }
    value >> amount | value << (32 - amount)
}

/// `RRX_C(value, carry)`.
#[inline]
fn rrx_c(value: u32, carry: bool) -> (u32, bool)
    ensures { result ≡ spec.rrx_c value carry }
{
    ((carry as u32) << 31 | value >> 1, value & 1 == 1)
}

/// `DecodeImmShift(shift_type, imm5)`, of the two bits and the five bits of a row: LSR and ASR by
/// 0 mean by 32, and ROR by 0 is RRX.
pub fn decode_imm_shift(shift_type: u8, imm5: u8) -> Shift
    ensures { result ≡ spec.decode_imm_shift shift_type imm5 }
{
    let or_all = if imm5 == 0 { 32 } else { imm5 };
    let (shift_type, amount) = match shift_type {
        0 => (ShiftType::Lsl, imm5),
        1 => (ShiftType::Lsr, or_all),
        2 => (ShiftType::Asr, or_all),
        _ if imm5 == 0 => (ShiftType::Rrx, 1),
        _ => (ShiftType::Ror, imm5),
    };
    Shift { shift_type, amount }
}

/// `ThumbExpandImm_C(imm12, carry)`: the word and the carry out, or None where a byte of 0 is to
/// be replicated, which is UNPREDICTABLE.
#[inline]
#[tactic(auto, unfolding(instruction_set::specs::Arithmetic::expand_imm))]
pub fn expand_imm(imm12: u16, carry: bool) -> Option<(u32, bool)>
    ensures { result ≡ spec.expand_imm imm12 carry }
{
    if imm12 >= 0x400 {
        let unrotated = 0x80 + (imm12 & 0x7F) as u32;
        return Some(ror_c(unrotated, (imm12 >> 7 & 31) as u8));
    }
    let pattern = imm12 >> 8;
    let byte = (imm12 & 0xFF) as u32;
    if byte == 0 && pattern != 0 {
        return None;
    }
    Some((replicated(pattern, byte), carry))
}

/// Returns a byte at its places in one of the four patterns.
#[inline]
fn replicated(pattern: u16, byte: u32) -> u32
    requires { byte < 256 }
    ensures { result ≡ spec.replicated pattern byte }
{
    match pattern {
        0 => byte,
        1 => byte * 0x0001_0001,
        2 => byte * 0x0100_0100,
        _ => byte * 0x0101_0101,
    }
}
