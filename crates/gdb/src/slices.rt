//! The steps of a run, up to a reason to stop.

ghost use Rattle.std.specs.Prelude.{◌≡◌, ◌+◌, ◌-◌, ◌^◌, ◌<◌, [], ◌∷◌, if◌then◌else◌, IfOk, OnOk};
ghost use Rattle.gdb.specs.Consoles.{ShowsText, console_after, console_from, emptied, flush_text};
ghost use Rattle.gdb.specs.Slices.{Slices, flow, hit_next, one_step, returns_then, slice};
ghost use Rattle.gdb.specs.Watching.{IsReady, state_unless};
ghost use Rattle.gdb.specs.Whys.{why_text};
ghost use Rattle.gdb_past.specs.Places.{AreOfOneMachine};
ghost use Rattle.gdb_past.specs.Ways.{IsAfterMark, StaysAfterMark};
ghost use Rattle.output.specs.Output.{Put};
ghost use Rattle.reference.specs.Step.{step};
ghost use Rattle.serving.specs.Pieces.{Delivers};

use crate::console::Console;
use crate::over::{ReturnPoint, remembered_after};
use crate::steps::{first_hit, is_continue, put_step, reason_after, reason_before, selection_of};
use crate::whys::put_whys;
use gdb_past::{Past, Position};
use gdb_texts::{Breakpoints, Resume, Settings, StopReason, Watchpoints};
use machine::{Decider, Events, Exceptions, KeptCode, Machine, SysTickState, is_instruction};
use output::{IoError, Out};
use platform::stop::Stop;
use std::marker::Model;

/// What a run does: how far it goes, to which tick at most, and what the settings say.
#[derive(Clone, Copy)]
pub struct Plan {
    pub how: Resume,
    pub limit: u64,
    pub settings: Settings,
}

/// Where a run stops.
#[derive(Drop)]
pub struct Points {
    pub breakpoints: Breakpoints,
    pub watchpoints: Watchpoints,
}

/// What a run has made: how many steps, and text; the code that its unit returns to, if it is over a handler; and the
/// events of its last step.
#[derive(Drop)]
pub struct Progress {
    made: u64,
    console: Console,
    returns_to: Option<ReturnPoint>,
    events: Events,
}

impl Model for Progress {
    ghost use Rattle.gdb.specs.Slices.{Progress as ProgressView};

    ghost Value = { ProgressView };

    ghost view = { λ p. record {
      made = p.made;
      console = p.console;
      returns_to = p.returns_to;
      events = p.events.items;
    } };
}

impl Progress {
    /// Returns what a run has made when a turn begins: how many steps, and text with this last byte. `returns_to` is
    /// the code that its unit returns to.
    pub fn new(made: u64, last: Option<u8>, returns_to: Option<ReturnPoint>) -> Self
        ensures { result ≡ record {
          made = made;
          console = console_from last;
          returns_to = returns_to;
          events = [];
        } }
    {
        Progress {
            made,
            console: Console::new(last),
            returns_to,
            events: Events::new(),
        }
    }

    /// Returns how many steps were made.
    pub fn made(&self) -> u64
        ensures { result ≡ self.now.made }
    {
        self.made
    }

    /// Returns the last byte of the text.
    pub fn last(&self) -> Option<u8>
        ensures { result ≡ self.now.console.last }
    {
        self.console.last()
    }

    /// Returns the code that the unit of a run returns to.
    pub fn returns_to(&self) -> Option<ReturnPoint>
        ensures { result ≡ self.now.returns_to }
    {
        self.returns_to
    }

    /// Sends the text that waits, where there is one.
    pub fn flush<W: Out>(&mut self, out: &mut W) -> Result<(), IoError>
        ensures put { Put (W.writing out.old) (W.writing out.new) (flush_text self.old.console) result }
        ensures kept { OnOk result (self.new ≡ record self.old { console = emptied self.old.console }) }
    {
        self.console.flush(out)
    }

    /// Puts the lines that say why a run ended at the last step, or by this stop.
    pub fn put_whys<W: Out>(
        &mut self,
        settings: &Settings,
        watchpoints: &Watchpoints,
        stop: Option<Stop>,
        out: &mut W,
    ) -> Result<(), IoError>
        ensures shows { ShowsText (W.writing out.old) (W.writing out.new) self.old.console self.new.console
            (why_text settings.now watchpoints.now self.old.events stop self.old.console.last) result }
        ensures kept { self.new ≡ record self.old { console = self.new.console } }
    {
        put_whys(
            settings,
            watchpoints,
            self.events.as_slice(),
            stop,
            &mut self.console,
            out,
        )
    }

    /// Makes a step, and keeps its events.
    pub fn repeat<D: Decider, C: KeptCode, L: Exceptions, U: SysTickState>(
        &mut self,
        machine: &mut Machine<D, C, L, U>,
    )
        ensures kept { self.new ≡ record self.old { events = (step machine.old.state).events } }
        ensures state { machine.new ≡ record machine.old { state = (step machine.old.state).state } }
    {
        let _ = machine.step(&mut self.events);
    }

    /// Forgets the events of the last step, unless they are needed.
    pub fn forget_unless(&mut self, is_needed: bool)
        ensures { self.new ≡ record self.old { events = if is_needed then self.old.events else [] } }
    {
        if !is_needed {
            self.forget();
        }
    }

    /// Forgets the events of the last step.
    pub fn forget(&mut self)
        ensures { self.new ≡ record self.old { events = [] } }
    {
        self.events.clear();
    }
}

/// Returns the code that a run's unit returns to after the next step.
fn returns_then<D: Decider, C: KeptCode, L: Exceptions, U: SysTickState>(
    plan: &Plan,
    progress: &Progress,
    machine: &Machine<D, C, L, U>,
) -> Option<ReturnPoint>
    ensures { result ≡ returns_then plan.now (flow progress.now machine.now.state) }
{
    let over = plan.settings.steps_over && !is_continue(plan.how);
    remembered_after(over, progress.returns_to(), machine)
}

/// Makes the machine's state the position to go back to, where there are watchpoints.
fn prepare<D: Decider, C: KeptCode, L: Exceptions, U: SysTickState>(
    watchpoints: &Watchpoints,
    position: &mut Position<L, U>,
    machine: &Machine<D, C, L, U>,
)
    requires { AreOfOneMachine position.old machine.now.state }
    ensures ready { IsReady watchpoints.now position.new machine.now.state }
    ensures fits { AreOfOneMachine position.new machine.now.state }
{
    if !watchpoints.is_empty() {
        position.take(machine);
    }
}

/// Makes a step, unless it hits a watchpoint; then it returns this reason. `events` becomes the step's events.
fn step_unless_hit<D: Decider, C: KeptCode, L: Exceptions, U: SysTickState>(
    points: &Points,
    position: &mut Position<L, U>,
    events: &mut Events,
    machine: &mut Machine<D, C, L, U>,
) -> Option<StopReason>
    requires ready { IsReady points.now.watchpoints position.old machine.old.state }
    requires fits { AreOfOneMachine position.old machine.old.state }
    ensures hit { result ≡ hit_next points.now machine.old.state }
    ensures state { machine.new ≡ record machine.old { state = state_unless result machine.old.state } }
    ensures events { events.new.items ≡ (step machine.old.state).events }
    ensures ready { IsReady points.now.watchpoints position.new machine.new.state }
    ensures fits { AreOfOneMachine position.new machine.new.state }
    ensures same { AreOfOneMachine machine.old.state machine.new.state }
    ensures ahead { StaysAfterMark machine.old.state machine.new.state }
{
    let _ = machine.step(events);
    if points.watchpoints.is_empty() {
        return None;
    }
    match first_hit(&points.watchpoints, events.as_slice()) {
        Some(hit) => {
            position.restore(machine);
            Some(StopReason::Watchpoint(hit.kind, hit.address))
        }
        None => {
            position.follow(machine);
            None
        }
    }
}

/// Makes a step of a run, unless it hits a watchpoint, and puts its text. Returns why the run ends before or after it,
/// if it does.
fn make_step<D: Decider, C: KeptCode, L: Exceptions, U: SysTickState, W: Out>(
    plan: &Plan,
    points: &Points,
    position: &mut Position<L, U>,
    progress: &mut Progress,
    machine: &mut Machine<D, C, L, U>,
    out: &mut W,
) -> Result<Option<StopReason>, IoError>
    requires room { progress.old.made < 2 ^ 64 - 1 }
    requires ready { IsReady points.now.watchpoints position.old machine.old.state }
    requires fits { AreOfOneMachine position.old machine.old.state }
    ensures delivers { Delivers (one_step plan.now points.now (flow progress.old machine.old.state)).pieces machine.old
        machine.new (W.writing out.old) (W.writing out.new) result }
    ensures slices { IfOk result (λ reason.
        Slices (one_step plan.now points.now (flow progress.old machine.old.state)) progress.new reason) }
    ensures ready { IsReady points.now.watchpoints position.new machine.new.state }
    ensures fits { AreOfOneMachine position.new machine.new.state }
    ensures same { AreOfOneMachine machine.old.state machine.new.state }
    ensures ahead { StaysAfterMark machine.old.state machine.new.state }
{
    let counts = !is_continue(plan.how) && is_instruction(machine.next_kind());
    let returns_to = returns_then(plan, progress, machine);
    let hit = step_unless_hit(points, position, &mut progress.events, machine);
    if hit.is_some() {
        return Ok(hit);
    }
    progress.made += 1;
    progress.returns_to = returns_to;
    let events = progress.events.as_slice();
    match put_step(
        selection_of(plan.settings.selection),
        events,
        &mut progress.console,
        out,
    ) {
        Ok(()) => {}
        Err(error) => return Err(error),
    }
    let pc = machine.execution().pc;
    let is_away = returns_to.is_some();
    Ok(reason_after(
        &plan.settings,
        plan.how,
        is_away,
        counts,
        events,
        machine.stop(),
        pc,
    ))
}

/// Makes at most `steps` steps of a run that ends at these points. Returns why it ended, if it did. `past` keeps
/// checkpoints on the way, and `position` is room for a state to go back to.
pub fn run_slice<D: Decider, C: KeptCode, L: Exceptions, U: SysTickState, W: Out>(
    plan: &Plan,
    points: &Points,
    steps: u64,
    past: &mut Past<L, U>,
    position: &mut Position<L, U>,
    progress: &mut Progress,
    machine: &mut Machine<D, C, L, U>,
    out: &mut W,
) -> Result<Option<StopReason>, IoError>
    requires room { progress.old.made + steps < 2 ^ 64 }
    requires fits { AreOfOneMachine position.old machine.old.state }
    requires ahead { IsAfterMark past.old machine.old.state }
    ensures delivers { Delivers (slice plan.now points.now steps (flow progress.old machine.old.state)).pieces
        machine.old
        machine.new (W.writing out.old) (W.writing out.new) result }
    ensures slices { IfOk result (λ reason.
        Slices (slice plan.now points.now steps (flow progress.old machine.old.state)) progress.new reason) }
    ensures fits { AreOfOneMachine position.new machine.new.state }
    ensures same { AreOfOneMachine machine.old.state machine.new.state }
    ensures past { past.new ≡ past.old }
    ensures ahead { IsAfterMark past.new machine.new.state }
{
    prepare(&points.watchpoints, position, machine);
    let mut left = steps;
    'steps: while left > 0 {
        let before = reason_before(
            &points.breakpoints,
            plan.limit,
            plan.how,
            progress.made(),
            progress.returns_to(),
            machine,
        );
        if before.is_some() {
            progress.forget();
            return Ok(before);
        }
        match make_step(plan, points, position, progress, machine, out) {
            Ok(Some(reason)) => return Ok(Some(reason)),
            Ok(None) => {}
            Err(error) => return Err(error),
        }
        past.follow(machine);
        left -= 1;
    }
    progress.forget();
    Ok(None)
}
