//! Runs of a task: Instruction steps alone, in unprivileged Thread mode.

ghost use Rattle.std.specs.Prelude.{◌≡◌, ◌+◌, IfOk, IfErr, OnOk};
ghost use Rattle.machine.specs.Permits.{PermitHolds};
ghost use Rattle.machine.specs.Tasks.{TaskIsCut, TaskRuns};
ghost use Rattle.task_laws.specs.Tasks.{is_task};

use crate::permit::Permit;
use crate::run::write_step;
use crate::stepping::Processor;
use access::{Decider, Exceptions, KeptCode, SysTickState};
use output::{LineRoom, Out};
use target::{end_of_task, is_instruction};
use task_laws::TaskEnd;

impl<D: Decider, C: KeptCode, L: Exceptions, U: SysTickState> Processor<D, C, L, U> {
    /// Returns whether a task runs: in unprivileged Thread mode, outside the entry phase, while the
    /// regions of the MPU decide.
    pub fn is_task(&self) -> bool
        ensures { result ≡ is_task self.now }
    {
        !self.registers().is_handler()
            && self.registers().npriv()
            && !self.is_in_entry()
            && self.bus().system.uses_regions()
    }
}

/// Makes at most `limit` steps, as long as they are Instruction steps, and writes their lines. A permit for the next
/// step becomes one for the step after them. Where the writer fails, returns how many steps were made.
pub fn run_task_core<D: Decider, C: KeptCode, L: Exceptions, U: SysTickState, W: Out>(
    core: &mut Processor<D, C, L, U>,
    permit: &mut Permit,
    limit: u64,
    out: &mut W,
) -> Result<TaskEnd, u64>
    requires { PermitHolds permit.old core.old }
    ensures permit { PermitHolds permit.new core.new }
    ensures end { IfOk result (TaskRuns limit core.old (W.writing out.old) (W.writing out.new) core.new) }
    ensures quiet { OnOk result ((W.writing out.new).errors ≡ (W.writing out.old).errors) }
    ensures cut { IfErr result (TaskIsCut limit core.old (W.writing out.old) (W.writing out.new) core.new) }
    ensures error { IfErr result (λ steps. (W.writing out.new).errors ≡ (W.writing out.old).errors + 1) }
{
    let mut room = LineRoom::new();
    let mut made = 0;
    'steps: while made < limit {
        if !is_instruction(core.next_kind()) {
            break;
        }
        made += 1;
        match write_step(core, permit, out, &mut room) {
            Ok(()) => {}
            Err(_) => return Err(made),
        }
    }
    Ok(end_of_task(core.stop(), made < limit))
}
