//! The machine that a user has: a core, and whether its trace is still whole.

ghost use Rattle.std.specs.Prelude.{◌≡◌, [], length, ◌↔◌, ◌≤◌, false, true, Ok, Err, IfOk, IfErr, OnOk};
ghost use Rattle.board.specs.Reading.{described};
ghost use Rattle.machine.specs.Runs.{Fails};
ghost use Rattle.reference.specs.Peek.{peek_memory_or_device};
ghost use Rattle.machine.specs.Selected.{SelectedFails};
ghost use Rattle.machine.specs.Starts.{Starts};
ghost use Rattle.machine.specs.Tasks.{CountsErrors, TaskEnds, TaskFails};
ghost use Rattle.platform.specs.Memory.{byte_at, is_in_memory};
ghost use Rattle.reference.specs.Places.{altered, place, signalled};
ghost use Rattle.platform.specs.Priorities.{is_below_zero, is_in};
ghost use Rattle.platform.specs.Regions.{region_registers};
ghost use Rattle.platform.specs.Rules.{decision_of};
ghost use Rattle.reference.specs.Run.{after, ending_of, trace};
ghost use Rattle.reference.specs.Start.{start};
ghost use Rattle.platform.specs.Status.{read_status};
ghost use Rattle.step_laws.specs.SizeLaw.{AreOfOneBoard};
ghost use Rattle.output.specs.Output.{Put, WritesAll};
ghost use Rattle.reference.specs.Step.{step};
ghost use Rattle.platform.specs.Events.{lines};
ghost use Rattle.target.specs.Placing.{Places};
ghost use Rattle.target.specs.Values.{values_of};
ghost use Rattle.task_laws.specs.NextStep.{next_kind_of};
ghost use Rattle.task_laws.specs.Tasks.{is_task};
ghost use Rattle.trace.specs.Emission.{with_emitted};
ghost use Rattle.trace.specs.Selection.{selected_trace};

use crate::permit::Permit;
use crate::readers::Execution;
use crate::run::{run_core, write_step};
use crate::saving::SavedState;
use crate::start::start_core;
use crate::stepping::Processor;
use crate::task::run_task_core;
use access::{
    Decider, EagerSysTick, Exceptions, KeptCode, LazySysTick, PlainExceptions, Search, SysTick,
    SysTickState,
};
use board::Board;
use decode::{BoardDecodeTable, DecodeEachTime};
use elf::Image;
use mpu::MpuRegs;
use mpu_table::{KeptDecisions, LazyTable};
use nvic_levels::{BitLevels, KeptPriorities};
use output::{
    AllEvents, ConsoleBytes, ExceptionEvents, FaultySteps, IoError, LineRoom, NoEvents, Out,
    RefusedEvents, View,
};
use platform::access::{Decision, Kind};
use platform::error::{PlaceError, StartError};
use platform::event::MAX_EVENTS;
use platform::script::Signal;
use platform::stop::Stop;
use platform::system::StatusRegister;
use reference::place::Place;
use std::alloc::{AllocError, Global};
use std::marker::Model;
use target::RegValues;
use task_laws::{StepKind, TaskEnd};
use trace::selection::TraceSelection;
use trace::sink::{Events, Sink};

/// Why a run failed.
#[derive(Clone, Copy)]
pub enum RunError {
    /// One call of the writer failed in this run, which made `steps` steps.
    Write { steps: u64 },
    /// The writer failed in an earlier run.
    Broken,
}

/// A machine, whose accesses are decided by a `D`, whose decoded instructions are kept by a `C`, whose
/// exceptions are kept by an `L`, and whose ticks are counted by a `U`.
#[derive(Drop)]
pub struct Machine<D: Decider, C: KeptCode, L: Exceptions, U: SysTickState> {
    /// On the heap, so that a machine that is moved takes little of the stack.
    core: Box<Processor<D, C, L, U>>,
    /// A permit for the next step. What changes the core between steps takes it away.
    permit: Permit,
    broken: bool,
}

/// The machine that searches the regions at each access, fetches each instruction from memory, tests
/// each exception, and counts each tick.
pub type Slow = Machine<Search, DecodeEachTime, PlainExceptions, EagerSysTick>;

/// The machine that finds the deciding region in a table, made when enough decisions need it, and keeps decisions; keeps
/// decoded instructions by their addresses; keeps the exceptions in sets of bits with three values that each step
/// reads; and knows the next tick at which something is due. Its steps are those of `Slow`, by the same contracts.
pub type Fast = Machine<
    KeptDecisions<LazyTable>,
    BoardDecodeTable,
    KeptPriorities<BitLevels>,
    LazySysTick,
>;

impl<D: Decider, C: KeptCode, L: Exceptions, U: SysTickState> Model for Machine<D, C, L, U> {
    ghost use Rattle.target.specs.MachineModel.{MachineModel};
    ghost use Rattle.machine.specs.Permits.{PermitHolds};

    ghost Value = { MachineModel };

    ghost view = { λ m. record { state = m.core.value; broken = m.broken } };

    ghost invariant = { λ m. PermitHolds m.permit m.core.value };
}

impl<D: Decider, C: KeptCode, L: Exceptions, U: SysTickState> Machine<D, C, L, U> {
    ghost use Rattle.machine.specs.Peek.{peek_byte};
    ghost use Rattle.machine.specs.Execution.{execution_of};

    /// Makes the machine of a board, with an image in its memory, before the first step.
    #[inline(never)]
    pub fn new(alloc: Global, image: &Image<'_>, board: &Board) -> Result<Self, StartError>
        ensures { Starts (start (described board.now) image.now) result }
    {
        let core = start_core(alloc, image, board)?;
        Ok(Machine {
            core,
            permit: Permit::none(),
            broken: false,
        })
    }

    /// Makes a step. `events` becomes its events. Returns why the machine has stopped, if it has.
    pub fn step(&mut self, events: &mut Events) -> Option<Stop>
        ensures state { self.new ≡ record self.old { state = (step self.old.state).state } }
        ensures events { events.new.items ≡ (step self.old.state).events }
        ensures stop { result ≡ self.new.state.stop }
        ensures few { length events.new.items ≤ MAX_EVENTS }
    {
        events.clear();
        self.core.step(events, &mut self.permit);
        prove!(events.len() <= MAX_EVENTS);
        self.core.stop()
    }

    /// Makes a step. `events`, which has taken no event yet, takes its events.
    #[inline]
    pub fn step_with_sink<S: Sink>(&mut self, events: &mut S)
        requires { (S.emitted events.old).events ≡ [] }
        ensures state { self.new ≡ record self.old { state = (step self.old.state).state } }
        ensures events { S.emitted events.new ≡ with_emitted (S.emitted events.old) ((step self.old.state).events) }
    {
        self.core.step(events, &mut self.permit);
    }

    /// Makes a step and writes its lines. `room` is a buffer for one line, the same at each step. On an error
    /// a prefix of the lines went out.
    pub fn write_step<W: Out>(&mut self, room: &mut LineRoom, out: &mut W) -> Result<(), IoError>
        ensures state { self.new ≡ record self.old { state = (step self.old.state).state } }
        ensures put { Put (W.writing out.old) (W.writing out.new) (lines (step self.old.state).events) result }
    {
        write_step(&mut self.core, &mut self.permit, out, room)
    }

    /// Makes at most `limit` steps, up to the first stop, and writes their trace.
    pub fn run<W: Out>(&mut self, limit: u64, out: &mut W) -> Result<Stop, RunError>
        // The whole trace of the reference machine went out, and the machine is in its state.
        ensures written { OnOk result (WritesAll (W.writing out.old) (W.writing out.new) (trace limit self.old.state)) }
        ensures state { OnOk result (self.new ≡ record self.old { state = after limit self.old.state }) }
        ensures stop { IfOk result (λ stop. stop ≡ ending_of limit self.old.state) }

        // Otherwise the writer failed in this run, or in an earlier one.
        ensures error { IfErr result (Fails limit self.old self.new (W.writing out.old) (W.writing out.new)) }
        ensures broken { (result ≡ Err RunError.Broken) ↔ (self.old.broken ≡ true) }
    {
        self.run_view::<AllEvents, W>(limit, out)
    }

    /// Makes at most `limit` steps, up to the first stop, and writes those of their events that are selected, and
    /// then the line of the stop. For `All` that is the trace that `run` writes.
    pub fn run_selected<W: Out>(
        &mut self,
        selection: TraceSelection,
        limit: u64,
        out: &mut W,
    ) -> Result<Stop, RunError>
        // The selected text of the reference machine's run went out, and the machine is in its state.
        ensures written { OnOk result
            (WritesAll (W.writing out.old) (W.writing out.new) (selected_trace selection limit self.old.state)) }
        ensures state { OnOk result (self.new ≡ record self.old { state = after limit self.old.state }) }
        ensures stop { IfOk result (λ stop. stop ≡ ending_of limit self.old.state) }

        // Otherwise the writer failed in this run, or in an earlier one.
        ensures error { IfErr result
            (SelectedFails selection limit self.old self.new (W.writing out.old) (W.writing out.new)) }
        ensures broken { (result ≡ Err RunError.Broken) ↔ (self.old.broken ≡ true) }
    {
        match selection {
            TraceSelection::All => self.run_view::<AllEvents, W>(limit, out),
            TraceSelection::Refused => self.run_view::<RefusedEvents, W>(limit, out),
            TraceSelection::Faults => self.run_view::<FaultySteps, W>(limit, out),
            TraceSelection::Exceptions => self.run_view::<ExceptionEvents, W>(limit, out),
            TraceSelection::Console => self.run_view::<ConsoleBytes, W>(limit, out),
            TraceSelection::Nothing => self.run_view::<NoEvents, W>(limit, out),
        }
    }

    /// Makes at most `limit` steps, up to the first stop, and writes those of their events that the view has, and
    /// then the line of the stop.
    fn run_view<V: View, W: Out>(&mut self, limit: u64, out: &mut W) -> Result<Stop, RunError>
        ensures written { OnOk result
            (WritesAll (W.writing out.old) (W.writing out.new) (selected_trace V.SELECTION limit self.old.state)) }
        ensures state { OnOk result (self.new ≡ record self.old { state = after limit self.old.state }) }
        ensures stop { IfOk result (λ stop. stop ≡ ending_of limit self.old.state) }
        ensures error { IfErr result
            (SelectedFails V.SELECTION limit self.old self.new (W.writing out.old) (W.writing out.new)) }
        ensures broken { (result ≡ Err RunError.Broken) ↔ (self.old.broken ≡ true) }
    {
        if self.broken {
            return Err(RunError::Broken);
        }
        match run_core::<V, D, C, L, U, W>(&mut self.core, &mut self.permit, limit, out) {
            Ok(stop) => Ok(stop),
            Err(steps) => {
                self.broken = true;
                Err(RunError::Write { steps })
            }
        }
    }

    /// Runs a task: makes at most `limit` steps, any number, as long as they are Instruction steps, and
    /// writes their lines. It writes no line of a stop. Returns why the run ended, by the first of these
    /// that applies:
    ///
    /// - `Stopped`: the machine has stopped, before the run or in a step of it.
    /// - `NotTask`: the machine isn't in unprivileged Thread mode, or is in the entry phase, or the
    ///   regions of the MPU don't decide. Then nothing was done.
    /// - `Done`: all `limit` steps were made.
    /// - `Other`: the next step wouldn't be an Instruction step, or would only stop the machine at the
    ///   end of its clock. It wasn't made, nor its tick.
    ///
    /// Fails with `Write` where the writer fails, with a prefix of the lines of the last step written, and
    /// the machine is broken from then on; and with `Broken` where it was broken before, and then
    /// nothing was done.
    pub fn run_task<W: Out>(&mut self, limit: u64, out: &mut W) -> Result<TaskEnd, RunError>
        // The lines of its steps went out, the machine is in the state after them, and that is why they ended.
        ensures end { IfOk result (TaskEnds limit self.old self.new (W.writing out.old) (W.writing out.new)) }
        ensures quiet { OnOk result ((W.writing out.new).errors ≡ (W.writing out.old).errors) }

        // Otherwise the writer failed in this run, or in an earlier one.
        ensures cut { IfErr result (TaskFails limit self.old self.new (W.writing out.old) (W.writing out.new)) }
        ensures error { IfErr result (CountsErrors (W.writing out.old) (W.writing out.new)) }
        ensures broken { (result ≡ Err RunError.Broken) ↔ (self.old.broken ≡ true) }
    {
        if self.broken {
            return Err(RunError::Broken);
        }
        if let Some(stop) = self.core.stop() {
            return Ok(TaskEnd::Stopped(stop));
        }
        if !self.core.is_task() {
            return Ok(TaskEnd::NotTask);
        }
        match run_task_core(&mut self.core, &mut self.permit, limit, out) {
            Ok(end) => Ok(end),
            Err(steps) => {
                self.broken = true;
                Err(RunError::Write { steps })
            }
        }
    }

    /// Returns whether a task runs: the machine is in unprivileged Thread mode, outside the entry phase,
    /// while the regions of the MPU decide.
    pub fn is_task(&self) -> bool
        ensures { result ≡ is_task self.now.state }
    {
        self.core.is_task()
    }

    /// Returns whether a writer failed in an earlier run, so that the bytes that went out aren't a
    /// whole trace.
    pub fn broken(&self) -> bool
        ensures { result ≡ self.now.broken }
    {
        self.broken
    }

    /// Puts a value into a register or a word, without a tick and without a line.
    pub fn place(&mut self, value: Place) -> Result<(), PlaceError>
        ensures { Places (place self.old.state value) self.old self.new result }
    {
        self.permit = Permit::none();
        self.core.place(value)
    }

    /// Puts a value into a register or a word, as `place` does, but takes R0 to R12, LR, and words of memory in
    /// Handler mode and in an exception entry too.
    pub fn alter(&mut self, value: Place) -> Result<(), PlaceError>
        ensures { Places (altered self.old.state value) self.old self.new result }
    {
        self.permit = Permit::none();
        self.core.alter(value)
    }

    /// Does what an event of the board's script does, before the first one of the next tick, in Handler mode and in an
    /// exception entry too. Fails with `NoSuchPlace` where the board doesn't have the interrupt, and with `Stopped`
    /// where the machine has stopped.
    pub fn signal(&mut self, what: &Signal) -> Result<(), PlaceError>
        ensures { Places (signalled self.old.state what.now) self.old self.new result }
    {
        self.permit = Permit::none();
        self.core.signal(what)
    }

    /// Returns a copy of the state, or fails where memory can't be allocated.
    pub fn save(&self, alloc: Global) -> Result<SavedState<L, U>, AllocError>
        ensures { IfOk result (λ saved. saved ≡ self.now.state) }
    {
        self.core.save(alloc)
    }

    /// Saves the state. `saved` is a copy of an earlier state of this machine, or of a machine of the same board.
    pub fn save_to(&self, saved: &mut SavedState<L, U>)
        requires { AreOfOneBoard saved.old.bus self.now.state.bus }
        ensures { saved.new ≡ self.now.state }
    {
        self.core.save_to(saved);
    }

    /// Goes back to a saved state. Decoded instructions stay kept where the bytes of memory are the same. A
    /// machine whose writer failed stays broken.
    pub fn restore(&mut self, saved: &SavedState<L, U>)
        requires { AreOfOneBoard self.old.state.bus saved.now.bus }
        ensures { self.new ≡ record self.old { state = saved.now } }
    {
        self.permit = Permit::none();
        self.core.restore(saved);
    }

    /// Returns why the machine has stopped, if it has.
    pub fn stop(&self) -> Option<Stop>
        ensures { result ≡ self.now.state.stop }
    {
        self.core.stop()
    }

    /// Returns what the next step will do; None where the machine has stopped, or where the step would only
    /// stop it.
    pub fn next_kind(&self) -> Option<StepKind>
        ensures { result ≡ next_kind_of self.now.state }
    {
        self.core.next_kind()
    }

    /// Returns the rule that would decide an access of one kind to an address now, by code of that
    /// privilege, and whether the rule would grant it.
    pub fn explain(&self, address: u32, privileged: bool, kind: Kind) -> Decision
        ensures { result ≡ decision_of self.now.state.bus.system.mpu address kind privileged
            (is_below_zero self.now.state.bus.system.nvic) }
    {
        self.core.explain(address, privileged, kind)
    }

    #[inline]
    pub fn execution(&self) -> Execution
        ensures { result ≡ execution_of self.now.state }
    {
        self.core.execution()
    }

    /// Returns the values of the core registers.
    pub fn regs(&self) -> RegValues
        ensures { result ≡ values_of self.now.state.registers self.now.state.bus.system.nvic.masks }
    {
        self.core.regs()
    }

    /// Returns the byte of memory at an address, if there is one.
    pub fn byte(&self, address: u32) -> Option<u8>
        ensures { result ≡ byte_at self.now.state.bus.memory address }
    {
        self.core.byte(address)
    }

    /// Returns whether `length` bytes from an address on lie wholly in flash, in RAM or in the second RAM.
    pub fn has_memory(&self, address: u32, length: usize) -> bool
        ensures { result ≡ is_in_memory self.now.state.bus.memory address length }
    {
        self.core.has_memory(address, length)
    }

    /// Returns the byte at an address that memory or the word of a device has, if one does. Nothing changes: no load
    /// pokes.
    pub fn peek_memory_or_device(&self, address: u32) -> Option<u8>
        ensures { result ≡ peek_memory_or_device self.now.state.bus address }
    {
        self.core.peek_memory_or_device(address)
    }

    /// Returns the byte at an address as a debugger sees it: that of the word that a load by privileged code would
    /// return there now, and None where the bus would refuse that load. The MPU isn't asked, and nothing changes:
    /// COUNTFLAG stays, and no tick is made.
    pub fn peek_byte(&self, address: u32) -> Option<u8>
        ensures { result ≡ peek_byte self.now.state address }
    {
        self.core.peek_byte(address)
    }

    /// Returns the registers of the MPU.
    #[inline]
    pub fn mpu(&self) -> &MpuRegs
        ensures { result.now ≡ self.now.state.bus.system.mpu }
    {
        self.core.mpu()
    }

    /// Returns RBAR (with VALID 0 and REGION `number`) and RASR of a region, if there is one of that
    /// number.
    pub fn region(&self, number: u8) -> Option<(u32, u32)>
        ensures { result ≡ region_registers self.now.state.bus.system.mpu number }
    {
        self.core.region(number)
    }

    /// Returns how many ticks have gone by.
    pub fn ticks(&self) -> u64
        ensures { result ≡ self.now.state.bus.system.time.ticks }
    {
        self.core.ticks()
    }

    /// Returns SysTick. Nothing is read of its registers, so COUNTFLAG stays.
    pub fn systick(&self) -> SysTick
        ensures { result ≡ self.now.state.bus.system.time.systick }
    {
        self.core.systick()
    }

    /// Returns VTOR, SCR, CCR or a register of faults, as it reads.
    pub fn status_word(&self, register: StatusRegister) -> u32
        ensures { result ≡ read_status self.now.state.bus.system.status register }
    {
        self.core.status_word(register)
    }

    /// Returns whether an exception is pending.
    pub fn is_pending(&self, number: u16) -> bool
        ensures { result ≡ is_in self.now.state.bus.system.nvic.pending number }
    {
        self.core.is_pending(number)
    }

    /// Returns whether an exception is active.
    pub fn is_active(&self, number: u16) -> bool
        ensures { result ≡ is_in self.now.state.bus.system.nvic.active number }
    {
        self.core.is_active(number)
    }

    /// Returns whether the execution priority is below 0.
    #[inline]
    pub fn is_below_zero(&self) -> bool
        ensures { result ≡ is_below_zero self.now.state.bus.system.nvic }
    {
        self.core.is_below_zero()
    }
}
