//! The rows of 32 bits in "Data processing (modified immediate)" (ARM DDI 0403, "32-bit Thumb
//! instruction encoding"), and which registers an operation allows.

ghost use Rattle.std.specs.Prelude.{◌≡◌, ◌≢◌, ◌==◌, ◌<◌, ◌≤◌, ◌+◌, ◌-◌, ◌*◌, ◌^◌, ◌&&◌, ◌||◌, not, true, false, nat_lt};
ghost use Rattle.encodings.specs.Masks.{by_masks};
ghost use Rattle.instruction_set.specs.LongImmediate.{modified_immediate, compare_immediate_row, compares_sp};
ghost use Rattle.instruction_set.specs.LongImmediate.{data_immediate_row, is_refused_destination, is_refused_first};
ghost use Rattle.instruction_set.specs.LongImmediate.{logical_immediate_rows, move_immediate_row, sum_immediate_rows};
ghost use Rattle.instruction_set.specs.LongImmediate.{takes_sp};

use encodings::operands::{flags_if, operand_of};
use encodings::outcomes::{is_bad, long, unless_refused};
use encodings::rows;
use instruction_set::data_processing::Comparison::{
    Compare, CompareNegative, Test, TestEquivalence,
};
use instruction_set::data_processing::DataOperation::{
    Add, AddWithCarry, And, BitClear, ExclusiveOr, Or, OrNot, ReverseSubtract, Subtract,
    SubtractWithCarry,
};
use instruction_set::data_processing::MoveOperation::{Move, MoveNot};
use instruction_set::data_processing::{
    CompareImmediate, Comparison, DataImmediate, DataOperation, DataProcessing, Immediate,
    MoveImmediate, MoveOperation,
};
use instruction_set::instruction::{Decoded, Instruction, ItPosition};
use instruction_set::registers::Register;
use instruction_set::unpredictable::UnpredictableCase;
use regs::expand_imm;

/// Returns an operation on the register `n` and the modified immediate `i`.
macro_rules! data {
    ($f:ident, $operation:ident) => {
        data_immediate(
            $operation,
            $f.is_set(b'S'),
            $f.register(b'n'),
            $f.register(b'd'),
            modified_immediate($f.half(b'i')),
        )
    };
}

/// Decodes two halfwords by these rows.
#[tactic(auto, unfolding(encodings::specs::Masks::by_masks))]
pub fn logical_immediate_rows(x: u32) -> Option<Decoded>
    ensures { result ≡ by_masks logical_immediate_rows x }
{
    rows! { x;
        [11110 i 0 0000 1 nnnn 0 iii 1111 iiiiiiii]
            => |f| compare_immediate(Test, f.register(b'n'), modified_immediate(f.half(b'i'))),
        [11110 i 0 0000 S nnnn 0 iii dddd iiiiiiii]
 except [xxxxx x x xxxx 1 xxxx x xxx 1111 xxxxxxxx]
            => |f| data!(f, And),
        [11110 i 0 0001 S nnnn 0 iii dddd iiiiiiii] => |f| data!(f, BitClear),
        [11110 i 0 0010 S 1111 0 iii dddd iiiiiiii]
            => |f| move_immediate(
                Move, f.is_set(b'S'), f.register(b'd'), modified_immediate(f.half(b'i'))
            ),
        [11110 i 0 0010 S nnnn 0 iii dddd iiiiiiii]
 except [xxxxx x x xxxx x 1111 x xxx xxxx xxxxxxxx]
            => |f| data!(f, Or),
        [11110 i 0 0011 S 1111 0 iii dddd iiiiiiii]
            => |f| move_immediate(
                MoveNot, f.is_set(b'S'), f.register(b'd'), modified_immediate(f.half(b'i'))
            ),
        [11110 i 0 0011 S nnnn 0 iii dddd iiiiiiii]
 except [xxxxx x x xxxx x 1111 x xxx xxxx xxxxxxxx]
            => |f| data!(f, OrNot),
        [11110 i 0 0100 1 nnnn 0 iii 1111 iiiiiiii]
            => |f| compare_immediate(
                TestEquivalence, f.register(b'n'), modified_immediate(f.half(b'i'))
            ),
        [11110 i 0 0100 S nnnn 0 iii dddd iiiiiiii]
 except [xxxxx x x xxxx 1 xxxx x xxx 1111 xxxxxxxx]
            => |f| data!(f, ExclusiveOr),
    }
}

/// Decodes two halfwords by these rows.
#[tactic(auto, unfolding(encodings::specs::Masks::by_masks))]
pub fn sum_immediate_rows(x: u32) -> Option<Decoded>
    ensures { result ≡ by_masks sum_immediate_rows x }
{
    rows! { x;
        [11110 i 0 1000 1 nnnn 0 iii 1111 iiiiiiii]
            => |f| compare_immediate(
                CompareNegative, f.register(b'n'), modified_immediate(f.half(b'i'))
            ),
        [11110 i 0 1000 S nnnn 0 iii dddd iiiiiiii]
 except [xxxxx x x xxxx 1 xxxx x xxx 1111 xxxxxxxx]
            => |f| data!(f, Add),
        [11110 i 0 1010 S nnnn 0 iii dddd iiiiiiii] => |f| data!(f, AddWithCarry),
        [11110 i 0 1011 S nnnn 0 iii dddd iiiiiiii] => |f| data!(f, SubtractWithCarry),
        [11110 i 0 1101 1 nnnn 0 iii 1111 iiiiiiii]
            => |f| compare_immediate(Compare, f.register(b'n'), modified_immediate(f.half(b'i'))),
        [11110 i 0 1101 S nnnn 0 iii dddd iiiiiiii]
 except [xxxxx x x xxxx 1 xxxx x xxx 1111 xxxxxxxx]
            => |f| data!(f, Subtract),
        [11110 i 0 1110 S nnnn 0 iii dddd iiiiiiii] => |f| data!(f, ReverseSubtract),
    }
}

/// Returns whether an operation takes SP as its first operand, and writes it.
pub(crate) fn takes_sp(operation: DataOperation) -> bool
    ensures { result ≡ takes_sp operation }
{
    matches!(operation, DataOperation::Add | DataOperation::Subtract)
}

/// Returns whether a comparison takes SP as its first operand.
pub(crate) fn compares_sp(operation: Comparison) -> bool
    ensures { result ≡ compares_sp operation }
{
    matches!(operation, Comparison::Compare | Comparison::CompareNegative)
}

/// Returns whether a first operand is refused: PC always, and SP where it isn't taken.
pub(crate) fn is_refused_first(sp: bool, n: Register) -> bool
    ensures { result ≡ is_refused_first sp n }
{
    n.number() == 15 || n.number() == 13 && !sp
}

/// Returns whether a destination is refused: PC always, and SP unless the operation starts from
/// SP.
pub(crate) fn is_refused_destination(sp: bool, n: Register, d: Register) -> bool
    ensures { result ≡ is_refused_destination sp n d }
{
    d.number() == 15 || d.number() == 13 && !(sp && n.number() == 13)
}

/// Returns `ThumbExpandImm_C(imm12, ..)`, where it isn't UNPREDICTABLE.
#[tactic(auto, unfolding(instruction_set::specs::LongImmediate::modified_immediate))]
fn modified_immediate(imm12: u16) -> Option<Immediate>
    ensures { result ≡ modified_immediate imm12 }
{
    operand_of(imm12, expand_imm(imm12, false))
}

/// Returns an operation on a register and a modified immediate.
#[tactic(auto, unfolding(instruction_set::specs::LongImmediate::data_immediate_row))]
fn data_immediate(
    operation: DataOperation,
    s: bool,
    n: Register,
    d: Register,
    second: Option<Immediate>,
) -> Decoded
    ensures { result ≡ data_immediate_row operation s n d second }
{
    let sp = takes_sp(operation);
    let refused = is_refused_first(sp, n) || is_refused_destination(sp, n, d);
    let expanded = match second {
        None => Decoded::Unpredictable(ItPosition::Anywhere, UnpredictableCase::Immediate),
        Some(second) => long(Instruction::DataProcessing(DataProcessing::DataImmediate(
            DataImmediate {
                operation,
                flags: flags_if(s),
                destination: d,
                first: n,
                second,
            },
        ))),
    };
    unless_refused(refused, expanded)
}

/// Returns a comparison of a register and a modified immediate.
#[tactic(auto, unfolding(instruction_set::specs::LongImmediate::compare_immediate_row))]
fn compare_immediate(operation: Comparison, n: Register, second: Option<Immediate>) -> Decoded
    ensures { result ≡ compare_immediate_row operation n second }
{
    let expanded = match second {
        None => Decoded::Unpredictable(ItPosition::Anywhere, UnpredictableCase::Immediate),
        Some(second) => long(Instruction::DataProcessing(DataProcessing::CompareImmediate(
            CompareImmediate {
                operation,
                first: n,
                second,
            },
        ))),
    };
    unless_refused(is_refused_first(compares_sp(operation), n), expanded)
}

/// Returns MOV or MVN of a modified immediate.
#[tactic(auto, unfolding(instruction_set::specs::LongImmediate::move_immediate_row))]
fn move_immediate(
    operation: MoveOperation,
    s: bool,
    d: Register,
    source: Option<Immediate>,
) -> Decoded
    ensures { result ≡ move_immediate_row operation s d source }
{
    let expanded = match source {
        None => Decoded::Unpredictable(ItPosition::Anywhere, UnpredictableCase::Immediate),
        Some(source) => long(Instruction::DataProcessing(DataProcessing::MoveImmediate(
            MoveImmediate {
                operation,
                flags: flags_if(s),
                destination: d,
                source,
            },
        ))),
    };
    unless_refused(is_bad(d), expanded)
}
