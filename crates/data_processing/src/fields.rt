//! Bit fields: SBFX, UBFX, BFI and BFC.

ghost use Rattle.std.specs.Prelude.{◌≡◌, ◌<◌, ◌*◌, ◌/◌, ◌%◌, ◌^◌};
ghost use Rattle.instruction_set.specs.Fields.{extended, extract_field, cleared, inserted, insert_field, clear_field};
ghost use Rattle.instruction_set.specs.Words.{bits, sign_extended};

use instruction_set::data_processing::{ClearField, ExtractField, InsertField};
use regs::Regs;

#[inline]
#[tactic(auto, using(crate::proofs::FieldsOfWords::all_bits))]
fn low_bits(x: u32, width: u8) -> u32
    ensures { result ≡ x % 2 ^ width }
{
    if width < 32 { x % (1 << width) } else { x }
}

/// Returns x shifted right by `low`.
#[inline]
#[tactic(auto, using(crate::proofs::FieldsOfWords::none_above))]
fn down(x: u32, low: u8) -> u32
    ensures { result ≡ x / 2 ^ low }
{
    if low < 32 { x >> low } else { 0 }
}

/// Returns x shifted left by `low`.
#[inline]
#[tactic(auto, using(crate::proofs::FieldsOfWords::none_below))]
fn up(x: u32, low: u8) -> u32
    ensures { result ≡ x * 2 ^ low % 2 ^ 32 }
{
    if low < 32 { x << low } else { 0 }
}

/// Returns a number of `width` bits, sign-extended to a word.
#[inline]
#[tactic(auto, using(crate::proofs::FieldsOfWords::sign_lemmas))]
fn sign_extended(width: u8, x: u32) -> u32
    requires { x < 2 ^ width }
    ensures { result ≡ sign_extended width x }
{
    if width == 0 || width >= 32 || x >> (width - 1) == 0 {
        x
    } else {
        x + (u32::MAX << width)
    }
}

/// Returns the lowest `width` bits, extended with their sign or with zeros.
#[inline]
pub fn extended(is_signed: bool, width: u8, x: u32) -> u32
    ensures { result ≡ extended is_signed width x }
{
    let low = low_bits(x, width);
    if is_signed {
        sign_extended(width, low)
    } else {
        low
    }
}

/// SBFX and UBFX.
#[inline]
pub(crate) fn extract_field(operands: &ExtractField, regs: &mut Regs)
    ensures { regs.new ≡ extract_field operands.now regs.old }
{
    let field = down(regs.get(operands.source), operands.low);
    let value = extended(operands.signed, operands.width, field);
    regs.set(operands.destination, value);
}

/// Returns a word with 0 in place of a field.
#[inline]
#[tactic(auto, using(crate::proofs::FieldsOfWords::cleared_lemmas))]
fn cleared(x: u32, low: u8, width: u8) -> u32
    ensures { result ≡ cleared x low width }
{
    x - up(low_bits(down(x, low), width), low)
}

/// Returns a word with the low bits of another in place of a field.
#[inline]
#[tactic(auto, unfolding(instruction_set::specs::Fields::inserted))]
fn inserted(x: u32, y: u32, low: u8, width: u8) -> u32
    ensures { result ≡ inserted x y low width }
{
    cleared(x, low, width).wrapping_add(up(low_bits(y, width), low))
}

/// BFI.
#[inline]
pub(crate) fn insert_field(operands: &InsertField, regs: &mut Regs)
    ensures { regs.new ≡ insert_field operands.now regs.old }
{
    let (x, y) = (regs.get(operands.destination), regs.get(operands.source));
    regs.set(
        operands.destination,
        inserted(x, y, operands.low, operands.width),
    );
}

/// BFC.
#[inline]
pub(crate) fn clear_field(operands: &ClearField, regs: &mut Regs)
    ensures { regs.new ≡ clear_field operands.now regs.old }
{
    let x = regs.get(operands.destination);
    regs.set(
        operands.destination,
        cleared(x, operands.low, operands.width),
    );
}
