//! The rows of 16 bits in "Data processing" (ARM DDI 0403, "16-bit Thumb instruction encoding").

ghost use Rattle.std.specs.Prelude.{◌≡◌, ◌≢◌, ◌==◌, ◌<◌, ◌≤◌, ◌+◌, ◌-◌, ◌*◌, ◌^◌, ◌&&◌, ◌||◌, not, true, false, nat_lt};
ghost use Rattle.encodings.specs.Masks.{by_masks};
ghost use Rattle.instruction_set.specs.ShortData.{compare_registers_row, data_high_rows, data_low_rows, move_not_row};
ghost use Rattle.instruction_set.specs.ShortData.{multiply_row, shift_register_row};

use crate::short_shifts::{data_number, data_registers};
use encodings::operands::unshifted;
use encodings::outcomes::short;
use encodings::rows;
use instruction_set::data_processing::Comparison::{Compare, CompareNegative, Test};
use instruction_set::data_processing::DataOperation::{
    AddWithCarry, And, BitClear, ExclusiveOr, Or, ReverseSubtract, SubtractWithCarry,
};
use instruction_set::data_processing::{
    CompareRegister, Comparison, DataProcessing, FlagSetting, MoveOperation, MoveRegister,
    Multiply, ShiftByRegister,
};
use instruction_set::instruction::{Decoded, Instruction};
use instruction_set::registers::Register;
use instruction_set::shift::ShiftType;
use instruction_set::shift::ShiftType::{Asr, Lsl, Lsr, Ror};

/// Decodes a halfword by these rows.
#[tactic(auto, unfolding(encodings::specs::Masks::by_masks))]
pub fn data_low_rows(x: u32) -> Option<Decoded>
    ensures { result ≡ by_masks data_low_rows x }
{
    rows! { x;
        [010000 0000 mmm ddd]
            => |f| data_registers(And, f.register(b'd'), f.register(b'd'), f.register(b'm')),
        [010000 0001 mmm ddd]
            => |f| data_registers(
                ExclusiveOr, f.register(b'd'), f.register(b'd'), f.register(b'm')
            ),
        [010000 0010 mmm ddd] => |f| shift_register(Lsl, f.register(b'd'), f.register(b'm')),
        [010000 0011 mmm ddd] => |f| shift_register(Lsr, f.register(b'd'), f.register(b'm')),
        [010000 0100 mmm ddd] => |f| shift_register(Asr, f.register(b'd'), f.register(b'm')),
        [010000 0101 mmm ddd]
            => |f| data_registers(
                AddWithCarry, f.register(b'd'), f.register(b'd'), f.register(b'm')
            ),
        [010000 0110 mmm ddd]
            => |f| data_registers(
                SubtractWithCarry, f.register(b'd'), f.register(b'd'), f.register(b'm')
            ),
        [010000 0111 mmm ddd] => |f| shift_register(Ror, f.register(b'd'), f.register(b'm')),
    }
}

/// Decodes a halfword by these rows.
#[tactic(auto, unfolding(encodings::specs::Masks::by_masks))]
pub fn data_high_rows(x: u32) -> Option<Decoded>
    ensures { result ≡ by_masks data_high_rows x }
{
    rows! { x;
        [010000 1000 mmm ddd] => |f| compare_registers(Test, f.register(b'd'), f.register(b'm')),
        [010000 1001 mmm ddd]
            => |f| data_number(ReverseSubtract, f.register(b'd'), f.register(b'm'), 0),
        [010000 1010 mmm ddd] => |f| compare_registers(Compare, f.register(b'd'), f.register(b'm')),
        [010000 1011 mmm ddd]
            => |f| compare_registers(CompareNegative, f.register(b'd'), f.register(b'm')),
        [010000 1100 mmm ddd]
            => |f| data_registers(Or, f.register(b'd'), f.register(b'd'), f.register(b'm')),
        [010000 1101 mmm ddd] => |f| multiply(f.register(b'd'), f.register(b'm')),
        [010000 1110 mmm ddd]
            => |f| data_registers(BitClear, f.register(b'd'), f.register(b'd'), f.register(b'm')),
        [010000 1111 mmm ddd] => |f| move_not(f.register(b'd'), f.register(b'm')),
    }
}

/// Returns a shift by a register.
#[tactic(auto, unfolding(instruction_set::specs::ShortData::shift_register_row))]
fn shift_register(shift_type: ShiftType, d: Register, m: Register) -> Decoded
    ensures { result ≡ shift_register_row shift_type d m }
{
    short(Instruction::DataProcessing(DataProcessing::ShiftByRegister(ShiftByRegister {
        shift_type,
        flags: FlagSetting::OutsideBlock,
        destination: d,
        source: d,
        amount: m,
    })))
}

#[tactic(auto, unfolding(instruction_set::specs::ShortData::move_not_row))]
fn move_not(d: Register, m: Register) -> Decoded
    ensures { result ≡ move_not_row d m }
{
    short(Instruction::DataProcessing(DataProcessing::MoveRegister(MoveRegister {
        operation: MoveOperation::MoveNot,
        flags: FlagSetting::OutsideBlock,
        destination: d,
        source: unshifted(m),
    })))
}

/// Returns a comparison of two registers.
#[tactic(auto, unfolding(instruction_set::specs::ShortData::compare_registers_row))]
fn compare_registers(operation: Comparison, n: Register, m: Register) -> Decoded
    ensures { result ≡ compare_registers_row operation n m }
{
    short(Instruction::DataProcessing(DataProcessing::CompareRegister(CompareRegister {
        operation,
        first: n,
        second: unshifted(m),
    })))
}

#[tactic(auto, unfolding(instruction_set::specs::ShortData::multiply_row))]
fn multiply(d: Register, m: Register) -> Decoded
    ensures { result ≡ multiply_row d m }
{
    short(Instruction::DataProcessing(DataProcessing::Multiply(Multiply {
        flags: FlagSetting::OutsideBlock,
        destination: d,
        first: m,
        second: d,
    })))
}
