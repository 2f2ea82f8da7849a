//! The rows of 32 bits in "Branches and miscellaneous control" (ARM DDI 0403, "32-bit Thumb
//! instruction encoding").

ghost use Rattle.std.specs.Prelude.{◌≡◌, ◌≢◌, ◌==◌, ◌<◌, ◌≤◌, ◌+◌, ◌-◌, ◌*◌, ◌^◌, ◌&&◌, ◌||◌, not, true, false, nat_lt};
ghost use Rattle.encodings.specs.Masks.{by_masks};
ghost use Rattle.instruction_set.specs.LongControl.{branch_wide_if_row, branch_wide_row, branch_with_link_row};
ghost use Rattle.instruction_set.specs.LongControl.{conditional_offset, long_control_rows, long_hint_of};
ghost use Rattle.instruction_set.specs.LongControl.{move_from_special_row, move_to_special_row, wide_offset};
ghost use Rattle.instruction_set.specs.RowOperands.{plain_immediate};

use encodings::operands::{hint, sign_extend};
use encodings::outcomes::{is_bad, long, placed, unless, unless_refused};
use encodings::rows;
use instruction_set::branch::{Branch, ConditionalBranch, Offset};
use instruction_set::instruction::{Decoded, Instruction, InstructionLength, ItPosition};
use instruction_set::load_store::Exclusive;
use instruction_set::registers::Register;
use instruction_set::system::{Hint, MoveFromSpecial, MoveToSpecial, SpecialRegister, System};
use instruction_set::unpredictable::UnpredictableCase;

/// Returns a branch's offset from its five fields.
macro_rules! offset {
    ($f:ident, $joined:ident) => {
        $joined(
            $f.number(b'S'),
            $f.number(b'J'),
            $f.number(b'K'),
            $f.number(b'j'),
            $f.number(b'i'),
        )
    };
}

/// Decodes two halfwords by these rows.
#[tactic(auto, unfolding(encodings::specs::Masks::by_masks))]
pub fn long_control_rows(x: u32) -> Option<Decoded>
    ensures { result ≡ by_masks long_control_rows x }
{
    rows! { x;
        [11110 0 1110 0 z nnnn 10 z 0 kk zz ssssssss]
            => |f| move_to_special(f.register(b'n'), f.number(b'k'), f.byte(b's')),
        [11110 0 1111 1 z oooo 10 z 0 dddd ssssssss]
            => |f| move_from_special(f.register(b'd'), f.byte(b's')),
        [11110 0 1110 10 oooo 10 z 0 z 000 hhhhhhhh]
            => |f| long(Instruction::System(System::Hint(long_hint(f.byte(b'h'))))),
        [11110 0 1110 11 oooo 10 z 0 oooo 0010 oooo]
            => |f| long(Instruction::Exclusive(Exclusive::Clear)),
        [11110 0 1110 11 oooo 10 z 0 oooo 0100 xxxx]
            => |f| long(Instruction::System(System::Hint(Hint::Barrier))),
        [11110 0 1110 11 oooo 10 z 0 oooo 0101 xxxx]
            => |f| long(Instruction::System(System::Hint(Hint::Barrier))),
        [11110 0 1110 11 oooo 10 z 0 oooo 0110 xxxx]
            => |f| long(Instruction::System(System::Hint(Hint::Barrier))),
        [11110 S jjjjjjjjjj 11 J 1 K iiiiiiiiiii] => |f| branch_with_link(offset!(f, wide_offset)),
        [11110 S jjjjjjjjjj 10 J 1 K iiiiiiiiiii] => |f| branch_wide(offset!(f, wide_offset)),
        [11110 S cccc jjjjjj 10 J 0 K iiiiiiiiiii]
 except [xxxxx x 111x xxxxxx xx x x x xxxxxxxxxxx]
            => |f| branch_wide_if(f.byte(b'c'), offset!(f, conditional_offset)),
    }
}

/// Returns the offset of BL and of the longer B: `S:I1:I2:imm10:imm11:'0'`.
#[tactic(auto, unfolding(instruction_set::specs::LongControl::wide_offset))]
fn wide_offset(sign: u32, j1: u32, j2: u32, imm10: u32, imm11: u32) -> u32
    requires sign { sign < 2 }
    requires imm10 { imm10 < 2 ^ 10 }
    requires imm11 { imm11 < 2 ^ 11 }
    ensures { result ≡ wide_offset (record { sign = sign; j1 = j1; j2 = j2; upper = imm10; imm11 = imm11 }) }
{
    let i1 = if j1 == sign { 1 << 23 } else { 0 };
    let i2 = if j2 == sign { 1 << 22 } else { 0 };
    sign_extend(
        25,
        sign * (1 << 24) + i1 + i2 + imm10 * (1 << 12) + imm11 * 2,
    )
}

/// Returns the offset of B with a condition: `S:J2:J1:imm6:imm11:'0'`.
#[tactic(auto, unfolding(instruction_set::specs::LongControl::conditional_offset))]
fn conditional_offset(sign: u32, j1: u32, j2: u32, imm6: u32, imm11: u32) -> u32
    requires sign { sign < 2 }
    requires j1 { j1 < 2 }
    requires j2 { j2 < 2 }
    requires imm6 { imm6 < 2 ^ 6 }
    requires imm11 { imm11 < 2 ^ 11 }
    ensures { result ≡ conditional_offset (record { sign = sign; j1 = j1; j2 = j2; upper = imm6; imm11 = imm11 }) }
{
    let low = j2 * (1 << 19) + j1 * (1 << 18) + imm6 * (1 << 12) + imm11 * 2;
    sign_extend(21, sign * (1 << 20) + low)
}

#[tactic(auto, unfolding(instruction_set::specs::LongControl::branch_with_link_row))]
fn branch_with_link(offset: u32) -> Decoded
    ensures { result ≡ branch_with_link_row offset }
{
    placed(
        InstructionLength::Long,
        ItPosition::LastOnly,
        Instruction::Branch(Branch::WithLink(Offset { offset })),
    )
}

#[tactic(auto, unfolding(instruction_set::specs::LongControl::branch_wide_row))]
fn branch_wide(offset: u32) -> Decoded
    ensures { result ≡ branch_wide_row offset }
{
    placed(
        InstructionLength::Long,
        ItPosition::LastOnly,
        Instruction::Branch(Branch::Immediate(Offset { offset })),
    )
}

#[tactic(auto, unfolding(instruction_set::specs::LongControl::branch_wide_if_row))]
fn branch_wide_if(condition: u8, offset: u32) -> Decoded
    ensures { result ≡ branch_wide_if_row condition offset }
{
    let instruction = Instruction::Branch(Branch::Conditional(ConditionalBranch {
        condition,
        offset,
    }));
    placed(InstructionLength::Long, ItPosition::Never, instruction)
}

/// Returns MSR: the mask is 10, since there are no GE flags to write.
#[tactic(auto, unfolding(instruction_set::specs::LongControl::move_to_special_row))]
fn move_to_special(n: Register, mask: u32, number: u8) -> Decoded
    ensures { result ≡ move_to_special_row n mask number }
{
    let known = match SpecialRegister::of(number) {
        None => Decoded::Unpredictable(ItPosition::Anywhere, UnpredictableCase::SpecialRegister),
        Some(special) => long(Instruction::System(System::MoveToSpecial(MoveToSpecial {
            special,
            source: n,
        }))),
    };
    let masked = unless(
        mask != 0b10,
        ItPosition::Anywhere,
        UnpredictableCase::SpecialRegister,
        known,
    );
    unless_refused(is_bad(n), masked)
}

#[tactic(auto, unfolding(instruction_set::specs::LongControl::move_from_special_row))]
fn move_from_special(d: Register, number: u8) -> Decoded
    ensures { result ≡ move_from_special_row d number }
{
    let known = match SpecialRegister::of(number) {
        None => Decoded::Unpredictable(ItPosition::Anywhere, UnpredictableCase::SpecialRegister),
        Some(special) => long(Instruction::System(System::MoveFromSpecial(MoveFromSpecial {
            special,
            destination: d,
        }))),
    };
    unless_refused(is_bad(d), known)
}

/// Returns the hint of 32 bits of this number: DBG has the top sixteen.
#[tactic(auto, unfolding(instruction_set::specs::LongControl::long_hint_of))]
fn long_hint(number: u8) -> Hint
    ensures { result ≡ long_hint_of number }
{
    if number < 240 {
        hint(number)
    } else {
        Hint::Debug
    }
}
