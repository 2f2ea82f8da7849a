//! Checkpoints: copies of states on the way from the last mark, so that going back makes few steps twice.

ghost use Rattle.std.specs.Prelude.{◌≡◌, ℕ, ◌<◌, ◌≤◌, All, IfOk, IfSome, None, length, true};
ghost use Rattle.gdb_past.specs.Checkpoints.{AreRight, IsNear};
ghost use Rattle.gdb_past.specs.Places.{AreOfOneMachine};
ghost use Rattle.reference.specs.Run.{after};
ghost use Rattle.reference.specs.State.{State};

use machine::{Decider, Exceptions, KeptCode, Machine, SavedState, SysTickState};
use std::alloc::{AllocError, Global};
use std::marker::Model;

/// Room for a checkpoint: a state, how many steps after the mark it is, and the generation in which it was kept.
#[derive(Drop)]
struct Checkpoint<L: Exceptions, U: SysTickState> {
    kept: SavedState<L, U>,
    steps: u64,
    generation: u64,
}

impl<L: Exceptions, U: SysTickState> Model for Checkpoint<L, U> {
    ghost use Rattle.gdb_past.specs.Checkpoints.{Checkpoint as CheckpointView};

    ghost Value = { CheckpointView };

    ghost view = { λ c. record { state = c.kept; steps = c.steps; generation = c.generation } };
}

impl<L: Exceptions, U: SysTickState> Checkpoint<L, U> {
    /// Returns a checkpoint of the mark itself, where the machine is, or fails where memory can't be allocated.
    fn of<D: Decider, C: KeptCode>(
        alloc: Global,
        machine: &Machine<D, C, L, U>,
    ) -> Result<Self, AllocError>
        ensures { IfOk result (λ c. c ≡ record { state = machine.now.state; steps = 0; generation = 0 }) }
    {
        Ok(Checkpoint {
            kept: machine.save(alloc)?,
            steps: 0,
            generation: 0,
        })
    }

    fn steps(&self) -> u64
        ensures { result ≡ self.now.steps }
    {
        self.steps
    }

    fn generation(&self) -> u64
        ensures { result ≡ self.now.generation }
    {
        self.generation
    }

    /// Becomes the checkpoint of a machine's state.
    fn set<D: Decider, C: KeptCode>(
        &mut self,
        steps: u64,
        generation: u64,
        machine: &Machine<D, C, L, U>,
    )
        requires { AreOfOneMachine self.old.state machine.now.state }
        ensures { self.new ≡ record { state = machine.now.state; steps = steps; generation = generation } }
    {
        machine.save_to(&mut self.kept);
        self.steps = steps;
        self.generation = generation;
    }

    /// Takes the machine back to this state.
    fn restore<D: Decider, C: KeptCode>(&self, machine: &mut Machine<D, C, L, U>)
        requires { AreOfOneMachine machine.old.state self.now.state }
        ensures { machine.new ≡ record machine.old { state = self.now.state } }
    {
        machine.restore(&self.kept);
    }
}

/// Checkpoints on the way from the last mark.
#[derive(Drop)]
pub struct Checkpoints<L: Exceptions, U: SysTickState> {
    slots: Vec<Checkpoint<L, U>>,
    /// How often they were cleared. Those that were kept before that are of an earlier mark.
    generation: u64,
}

impl<L: Exceptions, U: SysTickState> Model for Checkpoints<L, U> {
    ghost use Rattle.gdb_past.specs.Checkpoints.{Checkpoints as CheckpointsView};

    ghost Value = { CheckpointsView };

    ghost view = { λ c. record { slots = c.slots.items; generation = c.generation } };
}

impl<L: Exceptions, U: SysTickState> Checkpoints<L, U> {
    /// Returns room for `count` checkpoints of a mark, where the machine is, or fails where memory can't be allocated.
    #[inline(never)]
    pub fn new<D: Decider, C: KeptCode>(
        alloc: Global,
        count: usize,
        machine: &Machine<D, C, L, U>,
    ) -> Result<Self, AllocError>
        ensures { IfOk result (λ checkpoints. AreRight machine.now.state machine.now.state count checkpoints) }
    {
        let mut slots = Vec::new(alloc);
        'slots: for number in 0..count {
            let _ = number;
            slots.push(Checkpoint::of(alloc, machine)?)?;
        }
        Ok(Checkpoints {
            slots,
            generation: 0,
        })
    }

    /// Returns how many checkpoints there is room for.
    pub fn count(&self) -> usize
        ensures { result ≡ length self.now.slots }
    {
        self.slots.len()
    }

    /// Forgets all checkpoints, for another mark.
    pub fn clear(&mut self)
        ensures { (start m n : State) (count : ℕ) → AreRight start m count self.old → AreRight start n count self.new }
    {
        self.generation = self.generation.saturating_add(1);
    }

    /// Keeps the machine's state, `steps` steps after the mark, in a slot.
    pub fn save_to<D: Decider, C: KeptCode>(
        &mut self,
        slot: usize,
        steps: u64,
        machine: &Machine<D, C, L, U>,
    )
        requires slot { slot < length self.old.slots }
        requires fits { All (λ c. AreOfOneMachine c.state machine.now.state) self.old.slots }
        ensures { (start m : State) (count : ℕ) → AreRight start m count self.old
            → machine.now.state ≡ after steps m → AreOfOneMachine start machine.now.state
            → AreRight start m count self.new }
    {
        self.slots[slot].set(steps, self.generation, machine);
    }

    /// Returns whether a checkpoint is of this mark, from `least` to `most` steps after it.
    fn is_between(&self, number: usize, least: u64, most: u64) -> bool
        requires { number < length self.now.slots }
        ensures { result ≡ true → IsNear self.now most number }
    {
        let slot = &self.slots[number];
        self.generation < u64::MAX
            && slot.generation() == self.generation
            && slot.steps() <= most
            && slot.steps() >= least
    }

    /// Returns the later one of two checkpoints, if the second one is at most `most` steps after the mark.
    fn later(&self, best: Option<usize>, number: usize, most: u64) -> Option<usize>
        requires number { number < length self.now.slots }
        requires best { IfSome best (λ n. IsNear self.now most n) }
        ensures { IfSome result (λ n. IsNear self.now most n) }
    {
        let least = match best {
            Some(best) => self.slots[best].steps(),
            None => 0,
        };
        if self.is_between(number, least, most) {
            Some(number)
        } else {
            best
        }
    }

    /// Returns the last checkpoint that is at most `most` steps after the mark, if there is one.
    fn nearest(&self, most: u64) -> Option<usize>
        ensures { IfSome result (λ number. IsNear self.now most number) }
    {
        let mut best = None;
        'slots: for number in 0..self.slots.len() {
            best = self.later(best, number, most);
        }
        best
    }

    /// Takes the machine to the last checkpoint that is at most `most` steps after the mark, if there is one. Returns
    /// how many.
    pub fn restore<D: Decider, C: KeptCode>(
        &self,
        most: u64,
        machine: &mut Machine<D, C, L, U>,
    ) -> Option<u64>
        requires { All (λ c. AreOfOneMachine machine.old.state c.state) self.now.slots }
        ensures few { IfSome result (λ steps. steps ≤ most) }
        ensures state { (start m : State) (count : ℕ) → AreRight start m count self.now
            → IfSome result (λ steps. machine.new ≡ record machine.old { state = after steps m }) }
        ensures none { result ≡ None → machine.new ≡ machine.old }
    {
        let number = self.nearest(most)?;
        self.slots[number].restore(machine);
        Some(self.slots[number].steps())
    }
}
