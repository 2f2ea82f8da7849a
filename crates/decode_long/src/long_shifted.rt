//! The rows of 32 bits in "Data processing (shifted register)" (ARM DDI 0403, "32-bit Thumb
//! instruction encoding").

ghost use Rattle.std.specs.Prelude.{◌≡◌, ◌≢◌, ◌==◌, ◌<◌, ◌≤◌, ◌+◌, ◌-◌, ◌*◌, ◌^◌, ◌&&◌, ◌||◌, not, true, false, nat_lt};
ghost use Rattle.encodings.specs.Masks.{by_masks};
ghost use Rattle.instruction_set.specs.LongShifted.{compare_shifted_row, data_shifted_row, is_lsl_below};
ghost use Rattle.instruction_set.specs.LongShifted.{is_refused_move, logical_shifted_rows, move_not_shifted_row};
ghost use Rattle.instruction_set.specs.LongShifted.{move_shifted_row, sum_shifted_rows};

use crate::long_immediate::{compares_sp, is_refused_destination, is_refused_first, takes_sp};
use encodings::operands::{flags_if, shifted};
use encodings::outcomes::{is_bad, long_unless};
use encodings::rows;
use instruction_set::data_processing::Comparison::{
    Compare, CompareNegative, Test, TestEquivalence,
};
use instruction_set::data_processing::DataOperation::{
    Add, AddWithCarry, And, BitClear, ExclusiveOr, Or, OrNot, ReverseSubtract, Subtract,
    SubtractWithCarry,
};
use instruction_set::data_processing::{
    CompareRegister, Comparison, DataOperation, DataProcessing, DataRegister, MoveOperation,
    MoveRegister, ShiftedRegister,
};
use instruction_set::instruction::{Decoded, Instruction};
use instruction_set::registers::Register;
use instruction_set::shift::{Shift, ShiftType};

/// Returns the register `m`, shifted by the number `i`.
macro_rules! second {
    ($f:ident) => {
        shifted($f.register(b'm'), $f.byte(b't'), $f.byte(b'i'))
    };
}

/// Returns an operation on the register `n` and the shifted register `m`.
macro_rules! data {
    ($f:ident, $operation:ident) => {
        data_shifted(
            $operation,
            $f.is_set(b'S'),
            $f.register(b'n'),
            $f.register(b'd'),
            second!($f),
        )
    };
}

/// Decodes two halfwords by these rows.
#[tactic(auto, unfolding(encodings::specs::Masks::by_masks))]
pub fn logical_shifted_rows(x: u32) -> Option<Decoded>
    ensures { result ≡ by_masks logical_shifted_rows x }
{
    rows! { x;
        [1110101 0000 1 nnnn z iii 1111 ii tt mmmm]
            => |f| compare_shifted(Test, f.register(b'n'), second!(f)),
        [1110101 0000 S nnnn z iii dddd ii tt mmmm]
 except [xxxxxxx xxxx 1 xxxx x xxx 1111 xx xx xxxx]
            => |f| data!(f, And),
        [1110101 0001 S nnnn z iii dddd ii tt mmmm] => |f| data!(f, BitClear),
        [1110101 0010 S 1111 z iii dddd ii tt mmmm]
            => |f| move_shifted(f.is_set(b'S'), f.register(b'd'), second!(f)),
        [1110101 0010 S nnnn z iii dddd ii tt mmmm]
 except [xxxxxxx xxxx x 1111 x xxx xxxx xx xx xxxx]
            => |f| data!(f, Or),
        [1110101 0011 S 1111 z iii dddd ii tt mmmm]
            => |f| move_not_shifted(f.is_set(b'S'), f.register(b'd'), second!(f)),
        [1110101 0011 S nnnn z iii dddd ii tt mmmm]
 except [xxxxxxx xxxx x 1111 x xxx xxxx xx xx xxxx]
            => |f| data!(f, OrNot),
        [1110101 0100 1 nnnn z iii 1111 ii tt mmmm]
            => |f| compare_shifted(TestEquivalence, f.register(b'n'), second!(f)),
        [1110101 0100 S nnnn z iii dddd ii tt mmmm]
 except [xxxxxxx xxxx 1 xxxx x xxx 1111 xx xx xxxx]
            => |f| data!(f, ExclusiveOr),
    }
}

/// Decodes two halfwords by these rows.
#[tactic(auto, unfolding(encodings::specs::Masks::by_masks))]
pub fn sum_shifted_rows(x: u32) -> Option<Decoded>
    ensures { result ≡ by_masks sum_shifted_rows x }
{
    rows! { x;
        [1110101 1000 1 nnnn z iii 1111 ii tt mmmm]
            => |f| compare_shifted(CompareNegative, f.register(b'n'), second!(f)),
        [1110101 1000 S nnnn z iii dddd ii tt mmmm]
 except [xxxxxxx xxxx 1 xxxx x xxx 1111 xx xx xxxx]
            => |f| data!(f, Add),
        [1110101 1010 S nnnn z iii dddd ii tt mmmm] => |f| data!(f, AddWithCarry),
        [1110101 1011 S nnnn z iii dddd ii tt mmmm] => |f| data!(f, SubtractWithCarry),
        [1110101 1101 1 nnnn z iii 1111 ii tt mmmm]
            => |f| compare_shifted(Compare, f.register(b'n'), second!(f)),
        [1110101 1101 S nnnn z iii dddd ii tt mmmm]
 except [xxxxxxx xxxx 1 xxxx x xxx 1111 xx xx xxxx]
            => |f| data!(f, Subtract),
        [1110101 1110 S nnnn z iii dddd ii tt mmmm] => |f| data!(f, ReverseSubtract),
    }
}

/// Returns whether a shift is LSL by less than that.
fn is_lsl_below(shift: Shift, bound: u8) -> bool
    ensures { result ≡ is_lsl_below shift bound }
{
    matches!(shift.shift_type, ShiftType::Lsl) && shift.amount < bound
}

/// Returns an operation on two registers, the second shifted. ADD and SUB may write SP only if the
/// first operand is SP and the shift is LSL by at most 3.
#[tactic(auto, unfolding(instruction_set::specs::LongShifted::data_shifted_row))]
fn data_shifted(
    operation: DataOperation,
    s: bool,
    n: Register,
    d: Register,
    second: ShiftedRegister,
) -> Decoded
    ensures { result ≡ data_shifted_row operation s n d second }
{
    let sp = takes_sp(operation);
    let near = sp && is_lsl_below(second.shift, 4);
    let refused = is_bad(second.register)
        || is_refused_first(sp, n)
        || is_refused_destination(near, n, d);
    let instruction = Instruction::DataProcessing(DataProcessing::DataRegister(DataRegister {
        operation,
        flags: flags_if(s),
        destination: d,
        first: n,
        second,
    }));
    long_unless(refused, instruction)
}

/// Returns a comparison of two registers, the second shifted.
#[tactic(auto, unfolding(instruction_set::specs::LongShifted::compare_shifted_row))]
fn compare_shifted(operation: Comparison, n: Register, second: ShiftedRegister) -> Decoded
    ensures { result ≡ compare_shifted_row operation n second }
{
    let refused = is_bad(second.register) || is_refused_first(compares_sp(operation), n);
    let instruction = Instruction::DataProcessing(DataProcessing::CompareRegister(
        CompareRegister {
            operation,
            first: n,
            second,
        },
    ));
    long_unless(refused, instruction)
}

/// Returns whether a MOV refuses its registers: without S and without a shift it may read SP or
/// write SP, but not both.
fn is_refused_move(s: bool, d: Register, m: Register, shift: Shift) -> bool
    ensures { result ≡ is_refused_move s d (record { register = m; shift = shift }) }
{
    if !s && is_lsl_below(shift, 1) {
        d.number() == 15 || m.number() == 15 || d.number() == 13 && m.number() == 13
    } else {
        is_bad(d) || is_bad(m)
    }
}

/// Returns MOV of a shifted register.
#[tactic(auto, unfolding(instruction_set::specs::LongShifted::move_shifted_row))]
fn move_shifted(s: bool, d: Register, source: ShiftedRegister) -> Decoded
    ensures { result ≡ move_shifted_row s d source }
{
    let refused = is_refused_move(s, d, source.register, source.shift);
    let instruction = Instruction::DataProcessing(DataProcessing::MoveRegister(MoveRegister {
        operation: MoveOperation::Move,
        flags: flags_if(s),
        destination: d,
        source,
    }));
    long_unless(refused, instruction)
}

/// Returns MVN of a shifted register.
#[tactic(auto, unfolding(instruction_set::specs::LongShifted::move_not_shifted_row))]
fn move_not_shifted(s: bool, d: Register, source: ShiftedRegister) -> Decoded
    ensures { result ≡ move_not_shifted_row s d source }
{
    let instruction = Instruction::DataProcessing(DataProcessing::MoveRegister(MoveRegister {
        operation: MoveOperation::MoveNot,
        flags: flags_if(s),
        destination: d,
        source,
    }));
    long_unless(is_bad(d) || is_bad(source.register), instruction)
}
