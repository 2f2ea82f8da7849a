//! The rows of 32 bits in "Data processing (plain binary immediate)" (ARM DDI 0403, "32-bit Thumb
//! instruction encoding").

ghost use Rattle.std.specs.Prelude.{◌≡◌, ◌≢◌, ◌==◌, ◌<◌, ◌≤◌, ◌+◌, ◌-◌, ◌*◌, ◌^◌, ◌&&◌, ◌||◌, not, true, false, nat_lt};
ghost use Rattle.encodings.specs.Masks.{by_masks};
ghost use Rattle.instruction_set.specs.declared.instruction.ItPosition.TheVariants.{Anywhere};
ghost use Rattle.instruction_set.specs.declared.unpredictable.UnpredictableCase.TheVariants.{BitField};
ghost use Rattle.instruction_set.specs.LongPlain.{add_wide_row, address_wide_row, clear_field_row, extract_field_row};
ghost use Rattle.instruction_set.specs.LongPlain.{halfword, insert_field_row, move_top_row, move_wide_row, plain_rows};
ghost use Rattle.instruction_set.specs.LongPlain.{saturate_row};
ghost use Rattle.instruction_set.specs.Rows.{long, unless};

use crate::long_immediate::is_refused_destination;
use encodings::operands::{negated, plain_immediate, shifted};
use encodings::outcomes::{is_bad, long, long_unless, unless, unless_refused};
use encodings::rows;
use instruction_set::data_processing::DataOperation::{Add, Subtract};
use instruction_set::data_processing::{
    Address, ClearField, DataImmediate, DataOperation, DataProcessing, ExtractField, FlagSetting,
    InsertField, MoveImmediate, MoveOperation, MoveTop, Saturate, ShiftedRegister,
};
use instruction_set::instruction::{Decoded, Instruction, ItPosition};
use instruction_set::registers::Register;
use instruction_set::unpredictable::UnpredictableCase;

/// Returns the register `n`, shifted left or, where `h` is 1, right with its sign.
macro_rules! source {
    ($f:ident) => {
        shifted($f.register(b'n'), $f.byte(b'h') * 2, $f.byte(b'i'))
    };
}

/// Decodes two halfwords by these rows.
#[tactic(auto, unfolding(encodings::specs::Masks::by_masks))]
pub fn plain_rows(x: u32) -> Option<Decoded>
    ensures { result ≡ by_masks plain_rows x }
{
    rows! { x;
        [11110 i 1 00000 1111 0 iii dddd iiiiiiii]
            => |f| address_wide(f.register(b'd'), f.number(b'i')),
        [11110 i 1 00000 nnnn 0 iii dddd iiiiiiii]
 except [xxxxx x x xxxxx 1111 x xxx xxxx xxxxxxxx]
            => |f| add_wide(Add, f.register(b'n'), f.register(b'd'), f.half(b'i')),
        [11110 i 1 00100 nnnn 0 iii dddd iiiiiiii]
            => |f| move_wide(f.register(b'd'), halfword(f.byte(b'n'), f.half(b'i'))),
        [11110 i 1 01010 1111 0 iii dddd iiiiiiii]
            => |f| address_wide(f.register(b'd'), negated(f.number(b'i'))),
        [11110 i 1 01010 nnnn 0 iii dddd iiiiiiii]
 except [xxxxx x x xxxxx 1111 x xxx xxxx xxxxxxxx]
            => |f| add_wide(Subtract, f.register(b'n'), f.register(b'd'), f.half(b'i')),
        [11110 i 1 01100 nnnn 0 iii dddd iiiiiiii]
            => |f| move_top(f.register(b'd'), halfword(f.byte(b'n'), f.half(b'i'))),
        [11110 z 1 100 h 0 nnnn 0 iii dddd ii z wwwww]
 except [xxxxx x x xxx 1 x xxxx x 000 xxxx 00 x xxxxx]
            => |f| saturate(true, f.register(b'd'), f.byte(b'w') + 1, source!(f)),
        [11110 z 1 10100 nnnn 0 iii dddd ii z wwwww]
            => |f| extract_field(
                true, f.register(b'n'), f.register(b'd'), f.byte(b'i'), f.byte(b'w') + 1
            ),
        [11110 z 1 10110 1111 0 iii dddd ii z wwwww]
            => |f| clear_field(f.register(b'd'), f.byte(b'i'), f.byte(b'w')),
        [11110 z 1 10110 nnnn 0 iii dddd ii z wwwww]
 except [xxxxx x x xxxxx 1111 x xxx xxxx xx x xxxxx]
            => |f| insert_field(f.register(b'n'), f.register(b'd'), f.byte(b'i'), f.byte(b'w')),
        [11110 z 1 110 h 0 nnnn 0 iii dddd ii z wwwww]
 except [xxxxx x x xxx 1 x xxxx x 000 xxxx 00 x xxxxx]
            => |f| saturate(false, f.register(b'd'), f.byte(b'w'), source!(f)),
        [11110 z 1 11100 nnnn 0 iii dddd ii z wwwww]
            => |f| extract_field(
                false, f.register(b'n'), f.register(b'd'), f.byte(b'i'), f.byte(b'w') + 1
            ),
    }
}

/// Returns `imm4:i:imm3:imm8`, a halfword with its top four bits apart.
#[tactic(auto, unfolding(instruction_set::specs::LongPlain::halfword))]
fn halfword(top: u8, imm12: u16) -> u16
    requires small { top < 16 }
    requires narrow { imm12 < 4096 }
    ensures { result ≡ halfword top imm12 }
{
    top as u16 * 0x1000 + imm12
}

/// Returns ADDW or SUBW: a number of twelve bits, which sets no flags.
#[tactic(auto, unfolding(instruction_set::specs::LongPlain::add_wide_row))]
fn add_wide(operation: DataOperation, n: Register, d: Register, imm12: u16) -> Decoded
    ensures { result ≡ add_wide_row operation n d imm12 }
{
    let instruction = Instruction::DataProcessing(DataProcessing::DataImmediate(DataImmediate {
        operation,
        flags: FlagSetting::Never,
        destination: d,
        first: n,
        second: plain_immediate(imm12 as u32),
    }));
    long_unless(is_refused_destination(true, n, d), instruction)
}

#[tactic(auto, unfolding(instruction_set::specs::LongPlain::address_wide_row))]
fn address_wide(d: Register, offset: u32) -> Decoded
    ensures { result ≡ address_wide_row d offset }
{
    let instruction = Instruction::DataProcessing(DataProcessing::Address(Address {
        destination: d,
        offset,
    }));
    long_unless(is_bad(d), instruction)
}

#[tactic(auto, unfolding(instruction_set::specs::LongPlain::move_wide_row))]
fn move_wide(d: Register, imm16: u16) -> Decoded
    ensures { result ≡ move_wide_row d imm16 }
{
    let instruction = Instruction::DataProcessing(DataProcessing::MoveImmediate(MoveImmediate {
        operation: MoveOperation::Move,
        flags: FlagSetting::Never,
        destination: d,
        source: plain_immediate(imm16 as u32),
    }));
    long_unless(is_bad(d), instruction)
}

#[tactic(auto, unfolding(instruction_set::specs::LongPlain::move_top_row))]
fn move_top(d: Register, imm16: u16) -> Decoded
    ensures { result ≡ move_top_row d imm16 }
{
    let instruction = Instruction::DataProcessing(DataProcessing::MoveTop(MoveTop {
        destination: d,
        value: imm16,
    }));
    long_unless(is_bad(d), instruction)
}

/// Returns SSAT or USAT, to `bits` bits.
#[tactic(auto, unfolding(instruction_set::specs::LongPlain::saturate_row))]
fn saturate(signed: bool, destination: Register, bits: u8, source: ShiftedRegister) -> Decoded
    ensures { result ≡ saturate_row
        (record { signed = signed; destination = destination; bits = bits; source = source }) }
{
    let refused = is_bad(destination) || is_bad(source.register);
    let instruction = Instruction::DataProcessing(DataProcessing::Saturate(Saturate {
        signed,
        destination,
        bits,
        source,
    }));
    long_unless(refused, instruction)
}

/// Returns an instruction on a bit field, unless there is no such field.
fn long_within(outside: bool, instruction: Instruction) -> Decoded
    ensures { result ≡ unless outside Anywhere BitField (long instruction) }
{
    unless(
        outside,
        ItPosition::Anywhere,
        UnpredictableCase::BitField,
        long(instruction),
    )
}

/// Returns SBFX or UBFX: the field ends at most at bit 31.
#[tactic(auto, unfolding(instruction_set::specs::LongPlain::extract_field_row))]
fn extract_field(signed: bool, n: Register, d: Register, low: u8, width: u8) -> Decoded
    requires inside { low < 32 }
    requires narrow { width ≤ 32 }
    ensures { result ≡ extract_field_row
        (record { signed = signed; destination = d; source = n; low = low; width = width }) }
{
    let instruction = Instruction::DataProcessing(DataProcessing::ExtractField(ExtractField {
        signed,
        destination: d,
        source: n,
        low,
        width,
    }));
    unless_refused(
        is_bad(d) || is_bad(n),
        long_within(low + width > 32, instruction),
    )
}

/// Returns BFI: the field's last bit isn't below its first.
#[tactic(auto, unfolding(instruction_set::specs::LongPlain::insert_field_row))]
fn insert_field(n: Register, d: Register, low: u8, high: u8) -> Decoded
    requires { high < 32 }
    ensures { result ≡ insert_field_row n d low high }
{
    let instruction = Instruction::DataProcessing(DataProcessing::InsertField(InsertField {
        destination: d,
        source: n,
        low,
        width: (high + 1).saturating_sub(low),
    }));
    unless_refused(is_bad(d) || is_bad(n), long_within(high < low, instruction))
}

/// Returns BFC.
#[tactic(auto, unfolding(instruction_set::specs::LongPlain::clear_field_row))]
fn clear_field(d: Register, low: u8, high: u8) -> Decoded
    requires { high < 32 }
    ensures { result ≡ clear_field_row d low high }
{
    let instruction = Instruction::DataProcessing(DataProcessing::ClearField(ClearField {
        destination: d,
        low,
        width: (high + 1).saturating_sub(low),
    }));
    unless_refused(is_bad(d), long_within(high < low, instruction))
}
