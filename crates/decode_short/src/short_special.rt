//! The rows of 16 bits in "Special data instructions and branch and exchange" (ARM DDI 0403,
//! "16-bit Thumb instruction encoding").

ghost use Rattle.std.specs.Prelude.{◌≡◌, ◌≢◌, ◌==◌, ◌<◌, ◌≤◌, ◌+◌, ◌-◌, ◌*◌, ◌^◌, ◌&&◌, ◌||◌, not, true, false, nat_lt};
ghost use Rattle.encodings.specs.Masks.{by_masks};
ghost use Rattle.instruction_set.specs.ShortSpecial.{add_high_row, branch_exchange_row, branch_link_exchange_row};
ghost use Rattle.instruction_set.specs.ShortSpecial.{compare_high_row, move_high_row, special_rows};

use encodings::operands::unshifted;
use encodings::outcomes::{last_only_if, placed, placed_unless, short, unless_refused};
use encodings::rows;
use instruction_set::branch::{Branch, BranchExchange};
use instruction_set::data_processing::{
    CompareRegister, Comparison, DataOperation, DataProcessing, DataRegister, FlagSetting,
    MoveOperation, MoveRegister,
};
use instruction_set::instruction::{Decoded, Instruction, InstructionLength, ItPosition};
use instruction_set::registers::Register;

/// Decodes a halfword by these rows.
#[tactic(auto, unfolding(encodings::specs::Masks::by_masks))]
pub fn special_rows(x: u32) -> Option<Decoded>
    ensures { result ≡ by_masks special_rows x }
{
    rows! { x;
        [010001 00 d mmmm ddd] => |f| add_high(f.register(b'd'), f.register(b'm')),
        [010001 01 n mmmm nnn] => |f| compare_high(f.register(b'n'), f.register(b'm')),
        [010001 10 d mmmm ddd] => |f| move_high(f.register(b'd'), f.register(b'm')),
        [010001 11 0 mmmm zzz] => |f| branch_exchange(f.register(b'm')),
        [010001 11 1 mmmm zzz] => |f| branch_link_exchange(f.register(b'm')),
    }
}

/// Returns ADD of any registers, without flags.
#[tactic(auto, unfolding(instruction_set::specs::ShortSpecial::add_high_row))]
fn add_high(d: Register, m: Register) -> Decoded
    ensures { result ≡ add_high_row d m }
{
    let place = last_only_if(d.number() == 15);
    let instruction = Instruction::DataProcessing(DataProcessing::DataRegister(DataRegister {
        operation: DataOperation::Add,
        flags: FlagSetting::Never,
        destination: d,
        first: d,
        second: unshifted(m),
    }));
    placed_unless(
        d.number() == 15 && m.number() == 15,
        InstructionLength::Short,
        place,
        instruction,
    )
}

/// Returns CMP of any registers, of which at least one is above R7.
#[tactic(auto, unfolding(instruction_set::specs::ShortSpecial::compare_high_row))]
fn compare_high(n: Register, m: Register) -> Decoded
    ensures { result ≡ compare_high_row n m }
{
    let instruction = Instruction::DataProcessing(DataProcessing::CompareRegister(
        CompareRegister {
            operation: Comparison::Compare,
            first: n,
            second: unshifted(m),
        },
    ));
    unless_refused(
        n.number() == 15 || m.number() == 15 || n.number() < 8 && m.number() < 8,
        short(instruction),
    )
}

/// Returns MOV of any registers, without flags.
#[tactic(auto, unfolding(instruction_set::specs::ShortSpecial::move_high_row))]
fn move_high(d: Register, m: Register) -> Decoded
    ensures { result ≡ move_high_row d m }
{
    let instruction = Instruction::DataProcessing(DataProcessing::MoveRegister(MoveRegister {
        operation: MoveOperation::Move,
        flags: FlagSetting::Never,
        destination: d,
        source: unshifted(m),
    }));
    placed(
        InstructionLength::Short,
        last_only_if(d.number() == 15),
        instruction,
    )
}

#[tactic(auto, unfolding(instruction_set::specs::ShortSpecial::branch_exchange_row))]
fn branch_exchange(m: Register) -> Decoded
    ensures { result ≡ branch_exchange_row m }
{
    let instruction = Instruction::Branch(Branch::Exchange(BranchExchange {
        links: false,
        target: m,
    }));
    placed(InstructionLength::Short, ItPosition::LastOnly, instruction)
}

#[tactic(auto, unfolding(instruction_set::specs::ShortSpecial::branch_link_exchange_row))]
fn branch_link_exchange(m: Register) -> Decoded
    ensures { result ≡ branch_link_exchange_row m }
{
    let instruction = Instruction::Branch(Branch::Exchange(BranchExchange {
        links: true,
        target: m,
    }));
    placed_unless(
        m.number() == 15,
        InstructionLength::Short,
        ItPosition::LastOnly,
        instruction,
    )
}
