//! The rows of 16 bits in "Conditional branch, and Supervisor Call" and "Unconditional Branch" (ARM
//! DDI 0403, "16-bit Thumb instruction encoding").

ghost use Rattle.std.specs.Prelude.{◌≡◌, ◌≢◌, ◌==◌, ◌<◌, ◌≤◌, ◌+◌, ◌-◌, ◌*◌, ◌^◌, ◌&&◌, ◌||◌, not, true, false, nat_lt};
ghost use Rattle.encodings.specs.Masks.{by_masks};
ghost use Rattle.instruction_set.specs.ShortBranches.{branch_if_row, branch_row, branch_rows};

use encodings::operands::sign_extend;
use encodings::outcomes::{placed, short};
use encodings::rows;
use instruction_set::branch::{Branch, ConditionalBranch, Offset};
use instruction_set::instruction::{Decoded, Instruction, InstructionLength, ItPosition};
use instruction_set::system::System;

/// Decodes a halfword by these rows.
#[tactic(auto, unfolding(encodings::specs::Masks::by_masks))]
pub fn branch_rows(x: u32) -> Option<Decoded>
    ensures { result ≡ by_masks branch_rows x }
{
    rows! { x;
        [1101 1110 iiiiiiii] => |f| Decoded::Undefined,
        [1101 1111 iiiiiiii]
            => |f| short(Instruction::System(System::SupervisorCall(f.byte(b'i')))),
        [1101 cccc iiiiiiii]
 except [xxxx 111x xxxxxxxx]
            => |f| branch_if(f.byte(b'c'), f.byte(b'i')),
        [11100 iiiiiiiiiii] => |f| branch(f.number(b'i')),
    }
}

/// Returns B with a condition: the offset counts halfwords, and is signed.
#[tactic(auto, unfolding(instruction_set::specs::ShortBranches::branch_if_row))]
fn branch_if(condition: u8, halfwords: u8) -> Decoded
    ensures { result ≡ branch_if_row condition halfwords }
{
    let instruction = Instruction::Branch(Branch::Conditional(ConditionalBranch {
        condition,
        offset: sign_extend(9, halfwords as u32 * 2),
    }));
    placed(InstructionLength::Short, ItPosition::Never, instruction)
}

/// Returns B: the offset counts halfwords, and is signed.
#[tactic(auto, unfolding(instruction_set::specs::ShortBranches::branch_row))]
fn branch(halfwords: u32) -> Decoded
    requires { halfwords < 2 ^ 11 }
    ensures { result ≡ branch_row halfwords }
{
    let instruction = Instruction::Branch(Branch::Immediate(Offset {
        offset: sign_extend(12, halfwords * 2),
    }));
    placed(InstructionLength::Short, ItPosition::LastOnly, instruction)
}
