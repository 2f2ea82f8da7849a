//! The instructions for special registers, the hints, SVC and BKPT (ARM DDI 0403, the operation of
//! CPS, MSR, MRS, SVC, BKPT, WFI and the other hints). None makes an access.

ghost use Rattle.std.specs.Prelude.{◌≡◌, []};
ghost use Rattle.exec.specs.Plans.{finished_as, planned};
ghost use Rattle.reference.specs.SystemInstructions.{has_no_condition, hint_ending, advances_and, system_effect};
ghost use Rattle.reference.specs.SystemInstructions.{system_requests};

use crate::program_counter::advance;
use instruction_set::instruction::InstructionLength;
use instruction_set::system::{Hint, System};
use reference::accesses::Requests;
use reference::ending::Ending;
use reference::failure::Failure;
use regs::Regs;

/// Returns whether an instruction has no condition, not even that of an IT block.
#[inline]
pub fn has_no_condition(instruction: &System) -> bool
    ensures { result ≡ has_no_condition instruction.now }
{
    match instruction {
        System::Breakpoint(_) => true,
        System::ChangeProcessorState(_)
        | System::MoveToSpecial(_)
        | System::MoveFromSpecial(_)
        | System::Hint(_)
        | System::SupervisorCall(_) => false,
    }
}

/// Appends no access, and rejects none: each instruction of this family is carried out without one.
#[inline]
pub fn plan(instruction: &System, requests: &Requests) -> Result<(), Failure>
    requires { requests.now.items ≡ [] }
    ensures { planned requests.now result ≡ system_requests instruction.now }
{
    match instruction {
        System::ChangeProcessorState(_)
        | System::MoveToSpecial(_)
        | System::MoveFromSpecial(_)
        | System::Hint(_)
        | System::SupervisorCall(_)
        | System::Breakpoint(_) => Ok(()),
    }
}

/// Returns the ending of an instruction, whose encoding has this length: what it does besides advancing
/// the PC. SVC and BKPT leave the PC where it is.
#[inline]
#[tactic(auto, unfolding(reference::specs::SystemInstructions::system_effect))]
pub fn finish(length: InstructionLength, instruction: &System, regs: &mut Regs) -> Ending
    ensures { finished_as regs.new result ≡ system_effect length instruction.now regs.old }
{
    match instruction {
        System::ChangeProcessorState(operands) => {
            move_on_and(Ending::ChangeState(*operands), regs, length)
        }
        System::MoveToSpecial(operands) => {
            let value = regs.get(operands.source);
            move_on_and(Ending::WriteSpecial(operands.special, value), regs, length)
        }
        System::MoveFromSpecial(operands) => {
            move_on_and(Ending::ReadSpecial(*operands), regs, length)
        }
        System::Hint(hint) => move_on_and(hint_ending(*hint), regs, length),
        System::SupervisorCall(number) => Ending::SupervisorCall(*number),
        System::Breakpoint(number) => Ending::Breakpoint(*number),
    }
}

/// Advances IT, and the PC past the instruction, and returns this ending.
#[inline]
fn move_on_and(ending: Ending, regs: &mut Regs, length: InstructionLength) -> Ending
    ensures { finished_as regs.new result ≡ advances_and ending length regs.old }
{
    let _ = advance(regs, length);
    ending
}

/// WFI sleeps; all other hints do nothing.
#[inline]
fn hint_ending(hint: Hint) -> Ending
    ensures { result ≡ hint_ending hint }
{
    match hint {
        Hint::WaitForInterrupt => Ending::Sleep,
        Hint::NoOperation
        | Hint::Yield
        | Hint::WaitForEvent
        | Hint::SendEvent
        | Hint::Debug
        | Hint::Preload
        | Hint::Barrier
        | Hint::Unallocated => Ending::Next,
    }
}
