//! What an instruction does with the values that it read.

ghost use Rattle.std.specs.Prelude.{◌≡◌};
ghost use Rattle.exec.specs.Plans.{finished_as};
ghost use Rattle.reference.specs.Operations.{result_of, effect};

use crate::planning::is_carried_out;
use crate::program_counter::advance;
use crate::{branches, exclusives, load_store, load_store_multiple, processing, system};
use instruction_set::instruction::{CodedInstruction, Instruction, InstructionLength};
use reference::ending::Ending;
use regs::Regs;

/// Carries out an instruction with the values that it read, in the order of its accesses. Where its
/// condition fails it moves on.
#[inline]
#[tactic(auto, unfolding(reference::specs::Operations::result_of))]
pub fn finish(coded: &CodedInstruction, regs: &mut Regs, values: &[u32]) -> Ending
    ensures { finished_as regs.new result ≡ result_of coded.now regs.old values.now }
{
    if is_carried_out(&coded.instruction, regs) {
        return finish_family(coded.length, &coded.instruction, regs, values);
    }
    advance(regs, coded.length)
}

/// Carries out an instruction, whose encoding has this length and whose condition holds.
#[inline]
#[tactic(auto, unfolding(reference::specs::Operations::effect))]
fn finish_family(
    length: InstructionLength,
    instruction: &Instruction,
    regs: &mut Regs,
    values: &[u32],
) -> Ending
    ensures { finished_as regs.new result ≡ effect length instruction.now regs.old values.now }
{
    match instruction {
        Instruction::DataProcessing(i) => processing::finish(length, i, regs),
        Instruction::LoadStore(i) => load_store::finish(length, i, regs, values),
        Instruction::LoadStoreMultiple(i) => load_store_multiple::finish(length, i, regs, values),
        Instruction::Exclusive(i) => exclusives::finish(length, i, regs, values),
        Instruction::Branch(i) => branches::finish(length, i, regs, values),
        Instruction::System(i) => system::finish(length, i, regs),
    }
}
