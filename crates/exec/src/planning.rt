//! The accesses of an instruction, after the checks of its position in an IT block and of its
//! condition.

ghost use Rattle.std.specs.Prelude.{◌≡◌, ◌≤◌, ◌&&◌, [], length, not};
ghost use Rattle.exec.specs.Plans.{planned};
ghost use Rattle.reference.specs.Operations.{plan, requests_of, is_misplaced, is_carried_out, is_unconditional};

use crate::{branches, exclusives, load_store, load_store_multiple, processing, system};
use instruction_set::instruction::{CodedInstruction, Instruction, ItPosition};
use instruction_set::unpredictable::UnpredictableCase;
use platform::access::MAX_REQUESTS;
use platform::stop::Stop;
use reference::accesses::Requests;
use reference::failure::{Failure, Traps};
use regs::Regs;

/// Fills `requests` with the accesses of an instruction, unless it faults or stops. Where its
/// condition fails it has none.
#[inline]
#[tactic(auto, unfolding(reference::specs::Operations::plan))]
pub fn plan(
    coded: &CodedInstruction,
    regs: &Regs,
    traps: Traps,
    requests: &mut Requests,
) -> Result<(), Failure>
    ensures answer { planned requests.new result ≡ plan traps coded.now regs.now }
    ensures few { length requests.new.items ≤ MAX_REQUESTS }
{
    requests.clear();
    if is_misplaced(coded.place, regs) {
        return Err(Failure::Stop(Stop::Unpredictable(UnpredictableCase::ItBlock)));
    }
    if !is_carried_out(&coded.instruction, regs) {
        return Ok(());
    }
    let asked = plan_family(&coded.instruction, regs, traps, requests);
    prove!(requests.len() <= MAX_REQUESTS);
    asked
}

/// Appends the accesses of an instruction that is carried out.
#[inline]
#[tactic(auto, unfolding(reference::specs::Operations::requests_of))]
fn plan_family(
    instruction: &Instruction,
    regs: &Regs,
    traps: Traps,
    requests: &mut Requests,
) -> Result<(), Failure>
    requires { requests.old.items ≡ [] }
    ensures { planned requests.new result ≡ requests_of traps instruction.now regs.now }
{
    match instruction {
        Instruction::DataProcessing(i) => processing::plan(i, regs, traps, requests),
        Instruction::LoadStore(i) => load_store::plan(i, regs, traps, requests),
        Instruction::LoadStoreMultiple(i) => load_store_multiple::plan(i, regs, requests),
        Instruction::Exclusive(i) => exclusives::plan(i, regs, traps.devices, requests),
        Instruction::Branch(i) => branches::plan(i, regs, traps, requests),
        Instruction::System(i) => system::plan(i, requests),
    }
}

/// Returns whether an instruction is allowed at its position in an IT block and its condition
/// holds.
#[inline(always)]
pub fn is_executed(coded: &CodedInstruction, regs: &Regs) -> bool
    ensures { result ≡ (not
        (is_misplaced coded.now.place regs.now.it_state) && is_carried_out coded.now.instruction regs.now) }
{
    !is_misplaced(coded.place, regs) && is_carried_out(&coded.instruction, regs)
}

/// Returns whether an instruction isn't allowed at its position in an IT block.
#[inline]
pub fn is_misplaced(place: ItPosition, regs: &Regs) -> bool
    ensures { result ≡ is_misplaced place regs.now.it_state }
{
    match place {
        ItPosition::Anywhere => false,
        ItPosition::LastOnly => regs.in_it_block() && !regs.last_in_it_block(),
        ItPosition::Never => regs.in_it_block(),
    }
}

/// Returns whether an instruction is carried out: its condition holds, or it has none.
#[inline]
pub fn is_carried_out(instruction: &Instruction, regs: &Regs) -> bool
    ensures { result ≡ is_carried_out instruction.now regs.now }
{
    is_unconditional(instruction) || regs.condition_passed()
}

/// Returns whether an instruction is carried out whatever the condition is.
#[inline]
fn is_unconditional(instruction: &Instruction) -> bool
    ensures { result ≡ is_unconditional instruction.now }
{
    match instruction {
        Instruction::System(i) => system::has_no_condition(i),
        Instruction::DataProcessing(_)
        | Instruction::LoadStore(_)
        | Instruction::LoadStoreMultiple(_)
        | Instruction::Exclusive(_)
        | Instruction::Branch(_) => false,
    }
}
