//! The rows of 16 bits in "Shift (immediate), add, subtract, move, and compare" (ARM DDI 0403,
//! "16-bit Thumb instruction encoding").

ghost use Rattle.std.specs.Prelude.{◌≡◌, ◌≢◌, ◌==◌, ◌<◌, ◌≤◌, ◌+◌, ◌-◌, ◌*◌, ◌^◌, ◌&&◌, ◌||◌, not, true, false, nat_lt};
ghost use Rattle.encodings.specs.Masks.{by_masks};
ghost use Rattle.instruction_set.specs.ShortShifts.{compare_number_row, data_number_row, data_registers_row};
ghost use Rattle.instruction_set.specs.ShortShifts.{move_low_row, move_number_row, shift_number_row, shifts_and_moves};

use encodings::operands::{plain_immediate, unshifted};
use encodings::outcomes::{placed, short};
use encodings::rows;
use instruction_set::data_processing::DataOperation::{Add, Subtract};
use instruction_set::data_processing::{
    CompareImmediate, Comparison, DataImmediate, DataOperation, DataProcessing, DataRegister,
    FlagSetting, MoveImmediate, MoveOperation, MoveRegister, ShiftedRegister,
};
use instruction_set::instruction::{Decoded, Instruction, InstructionLength, ItPosition};
use instruction_set::registers::Register;
use regs::decode_imm_shift;

/// Decodes a halfword by these rows.
#[tactic(auto, unfolding(encodings::specs::Masks::by_masks))]
pub fn shifts_and_moves(x: u32) -> Option<Decoded>
    ensures { result ≡ by_masks shifts_and_moves x }
{
    rows! { x;
        [000 00 00000 mmm ddd] => |f| move_low(f.register(b'd'), f.register(b'm')),
        [000 00 iiiii mmm ddd]
 except [xxx xx 00000 xxx xxx]
            => |f| shift_number(0, f.byte(b'i'), f.register(b'd'), f.register(b'm')),
        [000 01 iiiii mmm ddd]
            => |f| shift_number(1, f.byte(b'i'), f.register(b'd'), f.register(b'm')),
        [000 10 iiiii mmm ddd]
            => |f| shift_number(2, f.byte(b'i'), f.register(b'd'), f.register(b'm')),
        [000 11 0 0 mmm nnn ddd]
            => |f| data_registers(Add, f.register(b'd'), f.register(b'n'), f.register(b'm')),
        [000 11 0 1 mmm nnn ddd]
            => |f| data_registers(Subtract, f.register(b'd'), f.register(b'n'), f.register(b'm')),
        [000 11 1 0 iii nnn ddd]
            => |f| data_number(Add, f.register(b'd'), f.register(b'n'), f.number(b'i')),
        [000 11 1 1 iii nnn ddd]
            => |f| data_number(Subtract, f.register(b'd'), f.register(b'n'), f.number(b'i')),
        [001 00 ddd iiiiiiii] => |f| move_number(f.register(b'd'), f.number(b'i')),
        [001 01 nnn iiiiiiii] => |f| compare_number(f.register(b'n'), f.number(b'i')),
        [001 10 ddd iiiiiiii]
            => |f| data_number(Add, f.register(b'd'), f.register(b'd'), f.number(b'i')),
        [001 11 ddd iiiiiiii]
            => |f| data_number(Subtract, f.register(b'd'), f.register(b'd'), f.number(b'i')),
    }
}

/// Returns MOV of a low register, which sets N and Z always.
#[tactic(auto, unfolding(instruction_set::specs::ShortShifts::move_low_row))]
fn move_low(d: Register, m: Register) -> Decoded
    ensures { result ≡ move_low_row d m }
{
    let instruction = Instruction::DataProcessing(DataProcessing::MoveRegister(MoveRegister {
        operation: MoveOperation::Move,
        flags: FlagSetting::Always,
        destination: d,
        source: unshifted(m),
    }));
    placed(InstructionLength::Short, ItPosition::Never, instruction)
}

/// Returns a shift by a number: MOV of a shifted register.
#[tactic(auto, unfolding(instruction_set::specs::ShortShifts::shift_number_row))]
fn shift_number(kind: u8, amount: u8, d: Register, m: Register) -> Decoded
    ensures { result ≡ shift_number_row kind amount d m }
{
    short(Instruction::DataProcessing(DataProcessing::MoveRegister(MoveRegister {
        operation: MoveOperation::Move,
        flags: FlagSetting::OutsideBlock,
        destination: d,
        source: ShiftedRegister {
            register: m,
            shift: decode_imm_shift(kind, amount),
        },
    })))
}

/// Returns an operation on two registers.
#[tactic(auto, unfolding(instruction_set::specs::ShortShifts::data_registers_row))]
pub(crate) fn data_registers(
    operation: DataOperation,
    d: Register,
    n: Register,
    m: Register,
) -> Decoded
    ensures { result ≡ data_registers_row operation d n m }
{
    short(Instruction::DataProcessing(DataProcessing::DataRegister(DataRegister {
        operation,
        flags: FlagSetting::OutsideBlock,
        destination: d,
        first: n,
        second: unshifted(m),
    })))
}

/// Returns an operation on a register and a number.
#[tactic(auto, unfolding(instruction_set::specs::ShortShifts::data_number_row))]
pub(crate) fn data_number(operation: DataOperation, d: Register, n: Register, value: u32) -> Decoded
    ensures { result ≡ data_number_row operation d n value }
{
    short(Instruction::DataProcessing(DataProcessing::DataImmediate(DataImmediate {
        operation,
        flags: FlagSetting::OutsideBlock,
        destination: d,
        first: n,
        second: plain_immediate(value),
    })))
}

#[tactic(auto, unfolding(instruction_set::specs::ShortShifts::move_number_row))]
fn move_number(d: Register, value: u32) -> Decoded
    ensures { result ≡ move_number_row d value }
{
    short(Instruction::DataProcessing(DataProcessing::MoveImmediate(MoveImmediate {
        operation: MoveOperation::Move,
        flags: FlagSetting::OutsideBlock,
        destination: d,
        source: plain_immediate(value),
    })))
}

#[tactic(auto, unfolding(instruction_set::specs::ShortShifts::compare_number_row))]
fn compare_number(n: Register, value: u32) -> Decoded
    ensures { result ≡ compare_number_row n value }
{
    short(Instruction::DataProcessing(DataProcessing::CompareImmediate(CompareImmediate {
        operation: Comparison::Compare,
        first: n,
        second: plain_immediate(value),
    })))
}
