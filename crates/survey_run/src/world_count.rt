//! A count of the steps that run in each world.

ghost use Rattle.std.specs.Prelude.{◌≡◌, false, true};
ghost use Rattle.task_laws.specs.NextStep.{is_instruction_next};
ghost use Rattle.access_map.specs.Counting.{counted};
ghost use Rattle.survey_run.specs.WorldRuns.{next_tick, with_step, world_of};

use access_map::{World, Worlds};
use machine::{Decider, Exceptions, KeptCode, Machine, SysTickState, is_instruction};
use mpu::MpuRegs;
use std::marker::Model;

/// Counts the steps of a run by the worlds that they run in. It keeps the registers of the MPU, and the place of the
/// world's row, so that a step costs little as long as neither changes.
#[derive(Drop)]
pub struct WorldCount {
    worlds: Worlds,
    // The registers of the MPU, and whether the execution priority was below 0 when a step was last counted.
    world: World,
    place: Option<usize>,
}

impl Model for WorldCount {
    ghost use Rattle.survey_run.specs.CountModel.{CountModel, IsPlaceOf};

    ghost Value = { CountModel };

    ghost view = { λ c. record { worlds = c.worlds; mpu = c.world.registers } };

    ghost invariant = { λ c. IsPlaceOf c.place c.world c.worlds };
}

impl WorldCount {
    /// Makes a count that goes on from these worlds, before `begin`.
    pub fn new(worlds: Worlds) -> Self
        ensures { result.worlds ≡ worlds }
    {
        WorldCount {
            worlds,
            world: World {
                registers: MpuRegs::new(8),
                below_zero: false,
            },
            place: None,
        }
    }

    pub fn worlds(&self) -> &Worlds
        ensures { result.now ≡ self.now.worlds }
    {
        &self.worlds
    }

    /// Takes the registers of the MPU of a machine before its run.
    pub fn begin<D: Decider, C: KeptCode, L: Exceptions, U: SysTickState>(
        &mut self,
        machine: &Machine<D, C, L, U>,
    )
        ensures { self.new ≡ record self.old { mpu = machine.now.state.bus.system.mpu } }
    {
        self.world.registers = *machine.mpu();
        self.place = None;
    }

    /// Counts the next step of a machine, if it runs in a world.
    #[inline(always)]
    #[tactic(auto, unfolding(crate::specs::WorldRuns::with_step, crate::specs::WorldRuns::runs_in_world))]
    pub fn count_next<D: Decider, C: KeptCode, L: Exceptions, U: SysTickState>(
        &mut self,
        machine: &Machine<D, C, L, U>,
    )
        requires { self.old.mpu ≡ machine.now.state.bus.system.mpu }
        ensures { self.new ≡ record self.old { worlds = with_step machine.now.state self.old.worlds } }
    {
        let execution = machine.execution();
        if !execution.privileged && is_instruction(machine.next_kind()) {
            self.count(machine, execution.pc);
        }
    }

    /// Counts the next step of a machine, an Instruction step at a PC, in the world of the machine.
    #[tactic(auto, using(crate::proofs::Stepping::counted_now, crate::proofs::Stepping::clock_goes_on))]
    fn count<D: Decider, C: KeptCode, L: Exceptions, U: SysTickState>(
        &mut self,
        machine: &Machine<D, C, L, U>,
        pc: u32,
    )
        requires same { self.old.mpu ≡ machine.now.state.bus.system.mpu }
        requires next { is_instruction_next machine.now.state ≡ true }
        ensures { self.new ≡ record self.old {
          worlds = counted self.old.worlds (world_of machine.now.state) (next_tick machine.now.state) pc;
        } }
    {
        let below_zero = machine.is_below_zero();
        if below_zero != self.world.below_zero {
            self.world.below_zero = below_zero;
            self.place = None;
        }
        let place = match self.place {
            Some(place) => place,
            None => self.worlds.place_of(&self.world),
        };
        self.place = Some(place);
        self.worlds
            .count_at(&self.world, machine.ticks() + 1, pc, place);
    }

    /// Follows a machine after a step: takes the registers of the MPU where the step wrote to the Private Peripheral
    /// Bus. Without such a write they are as before.
    #[inline(always)]
    pub fn follow<D: Decider, C: KeptCode, L: Exceptions, U: SysTickState>(
        &mut self,
        machine: &Machine<D, C, L, U>,
        wrote_system: bool,
    )
        requires { wrote_system ≡ false → machine.now.state.bus.system.mpu ≡ self.old.mpu }
        ensures { self.new ≡ record self.old { mpu = machine.now.state.bus.system.mpu } }
    {
        if wrote_system {
            self.begin(machine);
        }
    }
}
