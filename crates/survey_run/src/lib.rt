//! Runs of a machine that are counted as they go.
#![tactic(auto)]

ghost use Rattle.std.specs.Prelude.{◌≡◌, None, false};
ghost use Rattle.reference.specs.Run.{after, ending_of};
ghost use Rattle.reference.specs.Step.{step};
ghost use Rattle.survey.specs.RegionLaw.{some_writes_system};
ghost use Rattle.survey.specs.Surveys.{step_start_of, surveyed, with_events, with_made_step};
ghost use Rattle.survey_run.specs.WorldRuns.{with_step, worlds_after};

mod counting;
mod world_count;
mod worlds;
mod writes;

use counting::{Begun, CountedEvents};
use machine::{Decider, Exceptions, KeptCode, Machine, Stop, SysTickState};
use std::marker::Brand;
use survey::{StepStart, Survey};
pub use world_count::WorldCount;
pub use worlds::world_run;

/// Makes at most `limit` steps, up to the first stop, and counts each of them, in the survey and, if it runs in a
/// world, in the worlds. Writes nothing. Returns the stop, `StepLimit` where the machine hasn't stopped.
pub fn survey_run<D: Decider, C: KeptCode, L: Exceptions, U: SysTickState>(
    machine: &mut Machine<D, C, L, U>,
    limit: u64,
    survey: &mut Survey,
    count: &mut WorldCount,
) -> Stop
    ensures state { machine.new ≡ record machine.old { state = after limit machine.old.state } }
    ensures survey { survey.new ≡ surveyed limit machine.old.state survey.old }
    ensures worlds { count.new.worlds ≡ worlds_after limit machine.old.state count.old.worlds }
    ensures stop { result ≡ ending_of limit machine.old.state }
{
    let mut start = step_start_of(machine);
    count.begin(machine);
    let mut made = 0;
    'steps: while made < limit {
        if machine.stop().is_some() {
            break;
        }
        made += 1;
        survey_step(machine, &mut start, survey, count);
    }
    machine.stop().unwrap_or(Stop::StepLimit)
}

/// Makes a step that begins at a moment, and counts it. The moment becomes that of the next step.
#[inline(always)]
#[tactic(auto, using(crate::proofs::OneMore::still_known, crate::proofs::Stepping::still_known))]
fn survey_step<D: Decider, C: KeptCode, L: Exceptions, U: SysTickState>(
    machine: &mut Machine<D, C, L, U>,
    start: &mut StepStart,
    survey: &mut Survey,
    count: &mut WorldCount,
)
    requires start { start.old ≡ step_start_of machine.old.state }
    requires mpu { count.old.mpu ≡ machine.old.state.bus.system.mpu }
    ensures state { machine.new ≡ record machine.old { state = (step machine.old.state).state } }
    ensures survey { survey.new ≡ with_made_step machine.old.state survey.old }
    ensures worlds { count.new.worlds ≡ with_step machine.old.state count.old.worlds }
    ensures start { start.new ≡ step_start_of machine.new.state }
    ensures mpu { count.new.mpu ≡ machine.new.state.bus.system.mpu }
{
    count.count_next(machine);
    survey.begin_step(start);
    let wrote_system = count_step::<Brand, D, C, L, U>(machine, start, survey);
    survey.end_step();
    update_start(machine, start, wrote_system);
    count.follow(machine, wrote_system);
}

/// Makes a step that begins so, and counts its events. Returns whether one of them is a write to the Private
/// Peripheral Bus that was carried out.
#[inline(always)]
fn count_step<K: Begun, D: Decider, C: KeptCode, L: Exceptions, U: SysTickState>(
    machine: &mut Machine<D, C, L, U>,
    start: &StepStart,
    survey: &mut Survey,
) -> bool
    requires start { start.now ≡ K.start }
    requires survey { survey.old ≡ K.survey }
    ensures state { machine.new ≡ record machine.old { state = (step machine.old.state).state } }
    ensures survey { survey.new ≡ with_events K.start K.survey (step machine.old.state).events }
    ensures wrote { result ≡ some_writes_system (step machine.old.state).events }
{
    let mut events = CountedEvents::<K>::new(survey, start);
    events.take_step(machine)
}

/// Brings the moment of a step up to the next one. The registers of the MPU are the same after a step without a write
/// to the Private Peripheral Bus.
#[inline(always)]
#[tactic(auto, unfolding(survey::specs::Surveys::step_start_of))]
fn update_start<D: Decider, C: KeptCode, L: Exceptions, U: SysTickState>(
    machine: &Machine<D, C, L, U>,
    start: &mut StepStart,
    wrote_system: bool,
)
    requires { wrote_system ≡ false → machine.now.state.bus.system.mpu ≡ start.old.mpu }
    ensures { start.new ≡ step_start_of machine.now.state }
{
    let execution = machine.execution();
    start.pc = execution.pc;
    start.exception = execution.exception;
    start.privileged = execution.privileged;
    start.asleep = execution.asleep;
    if wrote_system {
        start.mpu = *machine.mpu();
    }
}

/// Returns what a survey takes from the state in which a step begins.
#[inline]
#[tactic(auto, unfolding(survey::specs::Surveys::step_start_of))]
fn step_start_of<D: Decider, C: KeptCode, L: Exceptions, U: SysTickState>(
    machine: &Machine<D, C, L, U>,
) -> StepStart
    ensures { result ≡ step_start_of machine.now.state }
{
    let execution = machine.execution();
    StepStart {
        pc: execution.pc,
        exception: execution.exception,
        privileged: execution.privileged,
        asleep: execution.asleep,
        mpu: *machine.mpu(),
    }
}
