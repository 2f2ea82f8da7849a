//! Operands that several rows have in common.

ghost use Rattle.std.specs.Prelude.{◌≡◌, ◌==◌, ◌<◌, ◌^◌};
ghost use Rattle.instruction_set.specs.LongImmediate.{operand_of};
ghost use Rattle.instruction_set.specs.RowOperands.{writes_back, unshifted, shifted_by_number, plain_immediate};
ghost use Rattle.instruction_set.specs.RowOperands.{flags_if, at_offset, signed_offset, indexing_of, byte_or_halfword};
ghost use Rattle.instruction_set.specs.RowOperands.{hint_of};
ghost use Rattle.instruction_set.specs.ShortLoadStore.{is_above_lowest};
ghost use Rattle.instruction_set.specs.Words.{is_bit, negated, sign_extended};

use instruction_set::data_processing::{FlagSetting, Immediate, ShiftedRegister};
use instruction_set::load_store::{ImmediateAddress, Indexing};
use instruction_set::registers::Register;
use instruction_set::shift::{Shift, ShiftType};
use instruction_set::size::Size;
use instruction_set::system::Hint;
use regs::decode_imm_shift;

/// Returns the hint of this number.
#[tactic(auto, unfolding(instruction_set::specs::RowOperands::hint_of))]
pub fn hint(number: u8) -> Hint
    ensures { result ≡ hint_of number }
{
    match number {
        0 => Hint::NoOperation,
        1 => Hint::Yield,
        2 => Hint::WaitForEvent,
        3 => Hint::WaitForInterrupt,
        4 => Hint::SendEvent,
        _ => Hint::Unallocated,
    }
}

/// Returns `SignExtend(number, 32)` of a number of `bits` bits.
pub fn sign_extend(bits: u8, number: u32) -> u32
    requires some { 0 < bits }
    requires narrow { bits < 32 }
    requires fits { number < 2 ^ bits }
    ensures { result ≡ sign_extended bits number }
{
    if number < 1 << (bits - 1) {
        number
    } else {
        number + (0xFFFF_FFFF - (1 << bits) + 1)
    }
}

/// Returns an immediate that leaves the carry flag as it is.
#[inline]
pub fn plain_immediate(value: u32) -> Immediate
    ensures { result ≡ plain_immediate value }
{
    Immediate { value, carry: None }
}

/// Returns a modified immediate as an operand, from its twelve bits and what they expand to: the
/// carry stays in the byte patterns, and otherwise is the last bit shifted out.
#[inline]
pub fn operand_of(imm12: u16, expanded: Option<(u32, bool)>) -> Option<Immediate>
    ensures { result ≡ operand_of imm12 expanded }
{
    let (value, carry) = expanded?;
    Some(Immediate {
        value,
        carry: if imm12 < 1 << 10 { None } else { Some(carry) },
    })
}

/// Returns the two's complement of a word: adding it subtracts the word.
#[inline]
#[tactic(auto, unfolding(instruction_set::specs::Words::negated))]
pub fn negated(offset: u32) -> u32
    ensures { result ≡ negated offset }
{
    offset.wrapping_neg()
}

/// Returns a base and an offset, where the base stays.
pub fn at_offset(n: Register, offset: u32) -> ImmediateAddress
    ensures { result ≡ at_offset n offset }
{
    ImmediateAddress {
        base: n,
        offset,
        indexing: Indexing::Offset,
    }
}

/// Returns whether a register is in a list.
pub fn is_in_list(n: Register, list: u16) -> bool
    ensures { result ≡ is_bit list n }
{
    (list >> n.number()) % 2 == 1
}

/// Returns whether a register is in a list, and not its lowest.
pub fn is_above_lowest(n: Register, list: u16) -> bool
    ensures { result ≡ is_above_lowest n list }
{
    is_in_list(n, list) && list % (1 << n.number()) != 0
}

/// Returns a register that isn't shifted.
#[inline]
pub fn unshifted(m: Register) -> ShiftedRegister
    ensures { result ≡ unshifted m }
{
    ShiftedRegister {
        register: m,
        shift: Shift {
            shift_type: ShiftType::Lsl,
            amount: 0,
        },
    }
}

/// Returns a register shifted by a number.
#[inline]
#[tactic(auto, unfolding(instruction_set::specs::RowOperands::shifted_by_number))]
pub fn shifted(m: Register, shift_type: u8, imm5: u8) -> ShiftedRegister
    ensures { result ≡ shifted_by_number m shift_type imm5 }
{
    ShiftedRegister {
        register: m,
        shift: decode_imm_shift(shift_type, imm5),
    }
}

/// Returns whether an instruction with this S bit sets flags: always or never.
pub fn flags_if(sets: bool) -> FlagSetting
    ensures { result ≡ flags_if sets }
{
    if sets {
        FlagSetting::Always
    } else {
        FlagSetting::Never
    }
}

/// Returns a base, an offset, and what becomes of the base.
pub fn indexed(base: Register, offset: u32, indexing: Indexing) -> ImmediateAddress
    ensures { result ≡ record { base = base; offset = offset; indexing = indexing } }
{
    ImmediateAddress {
        base,
        offset,
        indexing,
    }
}

/// Returns an offset that is added where U is 1, and otherwise subtracted.
#[tactic(auto, unfolding(instruction_set::specs::RowOperands::signed_offset))]
pub fn signed_offset(up: u32, offset: u32) -> u32
    ensures { result ≡ signed_offset up offset }
{
    if up == 1 { offset } else { negated(offset) }
}

/// Returns the indexing. P = 1: the offset is added before the access, and the base is written back
/// where W = 1. P = 0: it is added after the access, and the base is always written back.
pub fn indexing_of(before: u32, write_back: u32) -> Indexing
    ensures { result ≡ indexing_of before write_back }
{
    match (before == 1, write_back == 1) {
        (true, true) => Indexing::PreIndexed,
        (true, false) => Indexing::Offset,
        (false, _) => Indexing::PostIndexed,
    }
}

/// Returns whether the base register is written.
pub fn writes_back(indexing: Indexing) -> bool
    ensures { result ≡ writes_back indexing }
{
    !matches!(indexing, Indexing::Offset)
}

/// Returns byte, or halfword where the bit is 1.
pub fn byte_or_halfword(bit: u32) -> Size
    ensures { result ≡ byte_or_halfword bit }
{
    if bit == 1 { Size::Halfword } else { Size::Byte }
}
