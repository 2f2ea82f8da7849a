//! A machine as a session sees it.

ghost use Rattle.std.specs.Prelude.{◌≡◌, ◌≤◌, length, IfOk};
ghost use Rattle.output.specs.Output.{Put};
ghost use Rattle.platform.specs.Events.{lines};
ghost use Rattle.platform.specs.Priorities.{is_below_zero, is_in};
ghost use Rattle.platform.specs.Regions.{region_registers};
ghost use Rattle.platform.specs.Rules.{decision_of};
ghost use Rattle.platform.specs.Status.{read_status};
ghost use Rattle.reference.specs.Peek.{peek_memory_or_device};
ghost use Rattle.reference.specs.Places.{altered, signalled};
ghost use Rattle.reference.specs.State.{State};
ghost use Rattle.reference.specs.Step.{step};
ghost use Rattle.step_laws.specs.SizeLaw.{AreOfOneBoard};
ghost use Rattle.target.specs.MachineModel.{MachineModel};
ghost use Rattle.target.specs.Placing.{Places};
ghost use Rattle.target.specs.Values.{values_of};
ghost use Rattle.task_laws.specs.NextStep.{next_kind_of};
ghost use Rattle.task_laws.specs.Tasks.{is_task};

use crate::values::RegValues;
use output::{IoError, LineRoom, Out};
use platform::access::{Decision, Kind};
use platform::error::PlaceError;
use platform::event::MAX_EVENTS;
use platform::script::Signal;
use platform::stop::Stop;
use platform::system::StatusRegister;
use reference::place::Place;
use std::alloc::{AllocError, Global};
use task_laws::StepKind;
use trace::sink::Events;

/// A machine as a session sees it: its steps, the changes from outside, copies of its state, and what a debugger reads
/// of it. A contract sees the state, and whether a writer failed in an earlier run.
pub trait Target {
    /// A copy of a state, which `save_to` overwrites and `restore` goes back to.
    type Saved: Drop;

    ghost model: { Self → MachineModel };

    ghost saved_state: { Self.Saved → State };

    /// Makes a step. `events` becomes its events. Returns why the machine has stopped, if it has.
    fn step(&mut self, events: &mut Events) -> Option<Stop>
        ensures state { model self.new ≡ record (model self.old) { state = (step (model self.old).state).state } }
        ensures events { events.new.items ≡ (step (model self.old).state).events }
        ensures stop { result ≡ (model self.new).state.stop }
        ensures few { length events.new.items ≤ MAX_EVENTS };

    /// Makes a step and writes its lines. `room` is a buffer for one line, the same at each step. On an error
    /// a prefix of the lines went out.
    fn write_step<W: Out>(&mut self, room: &mut LineRoom, out: &mut W) -> Result<(), IoError>
        ensures state { model self.new ≡ record (model self.old) { state = (step (model self.old).state).state } }
        ensures put { Put (W.writing out.old) (W.writing out.new) (lines (step (model self.old).state).events) result };

    /// Puts a value into a register or a word, without a tick and without a line: R0 to R12, LR, and words of memory in
    /// Handler mode and in an exception entry too.
    fn alter(&mut self, value: Place) -> Result<(), PlaceError>
        ensures { Places (altered (model self.old).state value) (model self.old) (model self.new) result };

    /// Does what an event of the board's script does, before the first one of the next tick, in Handler mode and in an
    /// exception entry too. Fails with `NoSuchPlace` where the board doesn't have the interrupt, and with `Stopped`
    /// where the machine has stopped.
    fn signal(&mut self, what: &Signal) -> Result<(), PlaceError>
        ensures { Places (signalled (model self.old).state what.now) (model self.old) (model self.new) result };

    /// Returns a copy of the state, or fails where memory can't be allocated.
    fn save(&self, alloc: Global) -> Result<Self::Saved, AllocError>
        ensures { IfOk result (λ saved. saved_state saved ≡ (model self.now).state) };

    /// Saves the state. `saved` is a copy of an earlier state of this machine, or of a machine of the same board.
    fn save_to(&self, saved: &mut Self::Saved)
        requires { AreOfOneBoard (saved_state saved.old).bus (model self.now).state.bus }
        ensures { saved_state saved.new ≡ (model self.now).state };

    /// Goes back to a saved state. A machine whose writer failed stays broken.
    fn restore(&mut self, saved: &Self::Saved)
        requires { AreOfOneBoard (model self.old).state.bus (saved_state saved.now).bus }
        ensures { model self.new ≡ record (model self.old) { state = saved_state saved.now } };

    /// Returns why the machine has stopped, if it has.
    fn stop(&self) -> Option<Stop>
        ensures { result ≡ (model self.now).state.stop };

    /// Returns what the next step will do; None where the machine has stopped, or where the step would only
    /// stop it.
    fn next_kind(&self) -> Option<StepKind>
        ensures { result ≡ next_kind_of (model self.now).state };

    /// Returns whether a task runs: the machine is in unprivileged Thread mode, outside the entry phase,
    /// while the regions of the MPU decide.
    fn is_task(&self) -> bool
        ensures { result ≡ is_task (model self.now).state };

    /// Returns the rule that would decide an access of one kind to an address now, by code of that
    /// privilege, and whether the rule would grant it.
    fn explain(&self, address: u32, privileged: bool, kind: Kind) -> Decision
        ensures { result ≡ decision_of (model self.now).state.bus.system.mpu address kind privileged
            (is_below_zero (model self.now).state.bus.system.nvic) };

    /// Returns the values of the core registers.
    fn regs(&self) -> RegValues
        ensures { result ≡ values_of (model self.now).state.registers (model self.now).state.bus.system.nvic.masks };

    /// Returns the byte at an address that memory or the word of a device has, if one does. Nothing changes: no load
    /// pokes.
    fn peek_memory_or_device(&self, address: u32) -> Option<u8>
        ensures { result ≡ peek_memory_or_device (model self.now).state.bus address };

    /// Returns RBAR (with VALID 0 and REGION `number`) and RASR of a region, if there is one of that
    /// number.
    fn region(&self, number: u8) -> Option<(u32, u32)>
        ensures { result ≡ region_registers (model self.now).state.bus.system.mpu number };

    /// Returns how many ticks have gone by.
    fn ticks(&self) -> u64
        ensures { result ≡ (model self.now).state.bus.system.time.ticks };

    /// Returns VTOR, SCR, CCR or a register of faults, as it reads.
    fn status_word(&self, register: StatusRegister) -> u32
        ensures { result ≡ read_status (model self.now).state.bus.system.status register };

    /// Returns whether an exception is pending.
    fn is_pending(&self, number: u16) -> bool
        ensures { result ≡ is_in (model self.now).state.bus.system.nvic.pending number };

    /// Returns whether an exception is active.
    fn is_active(&self, number: u16) -> bool
        ensures { result ≡ is_in (model self.now).state.bus.system.nvic.active number };
}
