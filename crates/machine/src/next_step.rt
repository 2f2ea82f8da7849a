//! What the next step will do, and what decides an access: known without a step.

ghost use Rattle.std.specs.Prelude.{◌≡◌, ◌^◌, ◌<◌};
ghost use Rattle.platform.specs.Priorities.{candidate, is_below_zero};
ghost use Rattle.platform.specs.Rules.{decision_of};
ghost use Rattle.reference.specs.State.{ticked};
ghost use Rattle.reference.specs.Step.{sleeps_on};
ghost use Rattle.task_laws.specs.NextStep.{kind_after, next_kind_of};

use crate::stepping::{CLOCK_END, Processor};
use access::{Decider, Exceptions, KeptCode, SysTickState};
use platform::access::{Decision, Kind};
use task_laws::StepKind;

impl<D: Decider, C: KeptCode, L: Exceptions, U: SysTickState> Processor<D, C, L, U> {
    /// Returns what the next step will do, None where it would only stop.
    pub fn next_kind(&self) -> Option<StepKind>
        ensures { result ≡ next_kind_of self.now }
    {
        if self.stop().is_some() || self.bus().system.ticks() >= CLOCK_END {
            None
        } else {
            Some(self.kind_after_tick())
        }
    }

    /// Returns what comes after the next tick: a vector is read in the entry phase; a frame is pushed
    /// where there is a candidate; otherwise the core sleeps on, or an instruction is carried out.
    fn kind_after_tick(&self) -> StepKind
        requires { self.now.bus.system.time.ticks < 2 ^ 48 }
        ensures { result ≡ kind_after (ticked self.now) self.now.entry (candidate (ticked self.now).bus.system.nvic) }
    {
        if self.is_in_entry() {
            StepKind::Vector
        } else if self.candidate_next().is_some() {
            StepKind::Stack
        } else if self.sleeps_next() {
            StepKind::Sleep
        } else {
            StepKind::Instruction
        }
    }

    /// Returns the candidate after the next tick. Where nothing is due at it, that is the one of now.
    #[tactic(auto, using(scs::proofs::Passing::only_time_passes))]
    fn candidate_next(&self) -> Option<u16>
        requires { self.now.bus.system.time.ticks < 2 ^ 48 }
        ensures { result ≡ candidate (ticked self.now).bus.system.nvic }
    {
        if self.quiet_ticks() > 0 {
            return self.bus().system.exceptions().candidate();
        }
        self.candidate_after_due()
    }

    /// Returns the candidate after the next tick, whatever is due at it.
    #[tactic(auto, using(crate::proofs::Foreseen::candidate_foreseen))]
    fn candidate_after_due(&self) -> Option<u16>
        requires { self.now.bus.system.time.ticks < 2 ^ 48 }
        ensures { result ≡ candidate (ticked self.now).bus.system.nvic }
    {
        let system = &self.bus().system;
        let due = system.peek();
        let primask = system.masks().primask;
        system.exceptions().candidate_after(&due, primask)
    }

    /// Returns whether the core sleeps on after the next tick, where there is no candidate: nothing
    /// would preempt if PRIMASK were 0.
    #[tactic(auto, using(crate::proofs::Foreseen::unmasked_foreseen))]
    fn sleeps_next(&self) -> bool
        requires { self.now.bus.system.time.ticks < 2 ^ 48 }
        ensures { result ≡ sleeps_on (ticked self.now) }
    {
        let system = &self.bus().system;
        self.is_asleep()
            && system
                .exceptions()
                .candidate_after(&system.peek(), false)
                .is_none()
    }

    /// Returns the rule that would decide an access of one kind to an address now, by code of that
    /// privilege, and whether the rule would grant it.
    pub fn explain(&self, address: u32, privileged: bool, kind: Kind) -> Decision
        ensures { result ≡ decision_of self.now.bus.system.mpu address kind privileged
            (is_below_zero self.now.bus.system.nvic) }
    {
        let system = &self.bus().system;
        let below_zero = system.exceptions().is_below_zero();
        system
            .decider()
            .decide(address, kind, privileged, below_zero)
    }
}
