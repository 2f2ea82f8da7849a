//! A state of a machine to go back to.

ghost use Rattle.std.specs.Prelude.{◌≡◌, ◌<◌, ◌≤◌, IfOk};
ghost use Rattle.gdb_past.specs.Places.{AreOfOneMachine};
ghost use Rattle.reference.specs.Run.{after};
ghost use Rattle.reference.specs.Step.{step};

use machine::{Decider, Events, Exceptions, KeptCode, Machine, SavedState, SysTickState};
use std::alloc::{AllocError, Global};
use std::marker::Model;

/// The most steps from a copy to the state that it is kept for. Then a new copy is made, so that going back repeats at
/// most this many.
const MAX_STEPS: u32 = 16_384;

/// A state to go back to: a copy of an earlier one, and the number of steps from there.
#[derive(Drop)]
pub struct Position<L: Exceptions, U: SysTickState> {
    saved: SavedState<L, U>,
    steps: u32,
}

impl<L: Exceptions, U: SysTickState> Model for Position<L, U> {
    ghost use Rattle.reference.specs.Run.{after};
    ghost use Rattle.reference.specs.State.{State};

    ghost Value = { State };

    ghost view = { λ p. after p.steps p.saved };
}

impl<L: Exceptions, U: SysTickState> Position<L, U> {
    /// Returns the position of a machine, or fails where memory can't be allocated.
    #[inline(never)]
    pub fn new<D: Decider, C: KeptCode>(
        alloc: Global,
        machine: &Machine<D, C, L, U>,
    ) -> Result<Self, AllocError>
        ensures { IfOk result (λ position. position ≡ machine.now.state) }
    {
        Ok(Position {
            saved: machine.save(alloc)?,
            steps: 0,
        })
    }

    /// Becomes the position of the machine.
    pub fn take<D: Decider, C: KeptCode>(&mut self, machine: &Machine<D, C, L, U>)
        requires { AreOfOneMachine self.old machine.now.state }
        ensures { self.new ≡ machine.now.state }
    {
        machine.save_to(&mut self.saved);
        self.steps = 0;
    }

    /// Follows the machine after a step.
    pub fn follow<D: Decider, C: KeptCode>(&mut self, machine: &Machine<D, C, L, U>)
        requires { machine.now.state ≡ (step self.old).state }
        ensures { self.new ≡ machine.now.state }
    {
        if self.steps < MAX_STEPS {
            self.steps += 1;
        } else {
            self.take(machine);
        }
    }

    /// Takes the machine back to this position.
    pub fn restore<D: Decider, C: KeptCode>(&self, machine: &mut Machine<D, C, L, U>)
        requires { AreOfOneMachine machine.old.state self.now }
        ensures { machine.new ≡ record machine.old { state = self.now } }
    {
        machine.restore(&self.saved);
        make_steps(machine, u64::from(self.steps));
    }
}

/// Makes steps, and writes nothing.
pub fn make_steps<D: Decider, C: KeptCode, L: Exceptions, U: SysTickState>(
    machine: &mut Machine<D, C, L, U>,
    count: u64,
)
    ensures { machine.new ≡ record machine.old { state = after count machine.old.state } }
{
    let mut events = Events::new();
    'steps: for step in 0..count {
        let _ = step;
        let _ = machine.step(&mut events);
    }
}
