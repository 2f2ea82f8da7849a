//! Runs of a machine in which the steps of unprivileged code are counted by the settings of the MPU under which they
//! run.

ghost use Rattle.std.specs.Prelude.{◌≡◌};
ghost use Rattle.reference.specs.Run.{after, ending_of};
ghost use Rattle.reference.specs.Step.{step};
ghost use Rattle.survey_run.specs.WorldRuns.{with_step, worlds_after};

use crate::world_count::WorldCount;
use crate::writes::SystemWrites;
use machine::{Decider, Exceptions, KeptCode, Machine, Stop, SysTickState};

/// Makes at most `limit` steps, up to the first stop, and counts those that run in a world. Writes nothing. Returns the
/// stop, `StepLimit` where the machine hasn't stopped.
pub fn world_run<D: Decider, C: KeptCode, L: Exceptions, U: SysTickState>(
    machine: &mut Machine<D, C, L, U>,
    limit: u64,
    count: &mut WorldCount,
) -> Stop
    ensures state { machine.new ≡ record machine.old { state = after limit machine.old.state } }
    ensures worlds { count.new.worlds ≡ worlds_after limit machine.old.state count.old.worlds }
    ensures stop { result ≡ ending_of limit machine.old.state }
{
    count.begin(machine);
    let mut made = 0;
    'steps: while made < limit {
        if machine.stop().is_some() {
            break;
        }
        made += 1;
        world_step(machine, count);
    }
    machine.stop().unwrap_or(Stop::StepLimit)
}

/// Makes a step, and counts it if it runs in a world.
#[inline(always)]
#[tactic(auto, using(crate::proofs::Stepping::still_known))]
fn world_step<D: Decider, C: KeptCode, L: Exceptions, U: SysTickState>(
    machine: &mut Machine<D, C, L, U>,
    count: &mut WorldCount,
)
    requires { count.old.mpu ≡ machine.old.state.bus.system.mpu }
    ensures state { machine.new ≡ record machine.old { state = (step machine.old.state).state } }
    ensures worlds { count.new.worlds ≡ with_step machine.old.state count.old.worlds }
    ensures mpu { count.new.mpu ≡ machine.new.state.bus.system.mpu }
{
    count.count_next(machine);
    let mut writes = SystemWrites::new();
    machine.step_with_sink(&mut writes);
    count.follow(machine, writes.some());
}
