//! Turns of going back: up to a question to GDB, or to a place in the past.

ghost use Rattle.std.specs.Prelude.{◌≡◌, ◌-◌, ◌<◌, [], ◌∷◌, false, true, IfOk, OnOk, None, drop, length};
ghost use Rattle.gdb.specs.declared.returns.Return.TheVariants.{Asks, Ends};
ghost use Rattle.gdb.specs.Consoles.{console_from};
ghost use Rattle.gdb.specs.Returns.{Returns, first_search, flow_at, low_of, return};
ghost use Rattle.gdb.specs.Searches.{events_for, is_of_step};
ghost use Rattle.gdb.specs.Turns.{ended, poll_packet, said, stop_packet};
ghost use Rattle.gdb_past.specs.Places.{AreOfOneMachine, mark_of};
ghost use Rattle.gdb_past.specs.Ways.{IsAfterMark};
ghost use Rattle.gdb_texts.specs.Stops.{signal_of};
ghost use Rattle.reference.specs.Run.{after};
ghost use Rattle.reference.specs.State.{State};
ghost use Rattle.serving.specs.Pieces.{Delivers};

use crate::searches::{FoundPlace, ReverseTarget, SearchScope, Way, place_back};
use crate::slices::{Plan, Points, Progress};
use crate::turns::{MAX_SLICE_STEPS, POLL_PACKET, RunContext, SentPacket, end_run, send_packet};
use gdb_past::{Past, Position};
use gdb_texts::{Features, Resume, Signal, StopReason, signal_of};
use machine::{Decider, Exceptions, KeptCode, Machine, SysTickState};
use output::{IoError, Out};

/// A search between two of its turns: what is searched for, and whether GDB has interrupted it.
#[derive(Clone, Copy)]
pub struct Search {
    pub scope: SearchScope,
    pub is_interrupted: bool,
}

/// How a turn of going back ends.
#[derive(Clone, Copy)]
pub enum Return {
    /// GDB is asked, and the search goes on after its reply.
    Asks(Search),
    /// The machine is at a place of its past, and GDB was told this signal.
    Ends(Signal),
}

/// Returns a search before its first turn, where the machine is at the tick `now`.
pub fn first_search(way: Way, now: u64) -> Search
    ensures { result ≡ first_search way now }
{
    Search {
        scope: SearchScope {
            way,
            now,
            end: now,
            continues: false,
        },
        is_interrupted: false,
    }
}

/// Returns the tick down to which a turn searches.
fn low_of(features: Features, end: u64) -> u64
    ensures { result ≡ low_of features end }
{
    if features.is_gdb {
        end.saturating_sub(MAX_SLICE_STEPS)
    } else {
        0
    }
}

/// Returns whether a run ends for what happened in a step.
fn is_of_step(reason: StopReason) -> bool
    ensures { result ≡ is_of_step reason }
{
    match reason {
        StopReason::Watchpoint(_, _)
        | StopReason::Refused(_)
        | StopReason::Fault
        | StopReason::Entered => true,
        StopReason::Done
        | StopReason::Breakpoint(_)
        | StopReason::PastBegins
        | StopReason::StoppedBefore
        | StopReason::Stopped(_)
        | StopReason::Interrupted => false,
    }
}

/// Takes the machine to a place after the last mark. `progress` has the events of the step that ends there, where the
/// run backwards ends for what happened in it.
fn reach<D: Decider, C: KeptCode, L: Exceptions, U: SysTickState>(
    found: FoundPlace,
    past: &mut Past<L, U>,
    progress: &mut Progress,
    machine: &mut Machine<D, C, L, U>,
)
    requires fits { AreOfOneMachine past.old.start machine.old.state }
    requires some { 0 < length past.old.marks }
    requires events { progress.old.events ≡ [] }
    ensures past { past.new ≡ past.old }
    ensures events { (s : State) → progress.new ≡ record progress.old {
      events = events_for found.reason (mark_of past.old 0 s) found.steps;
    } }
    ensures state { (s : State) → machine.new
        ≡ record machine.old { state = after found.steps (mark_of past.old 0 s) } }
    ensures same { AreOfOneMachine past.old.start machine.new.state }
{
    let before = found.steps.saturating_sub(1);
    let _ = past.go_near(0, before, before, machine);
    if found.steps > 0 {
        progress.repeat(machine);
    }
    progress.forget_unless(is_of_step(found.reason));
}

/// Takes the machine to a place in its past, and forgets what was kept from later ones.
fn arrive<D: Decider, C: KeptCode, L: Exceptions, U: SysTickState>(
    target: ReverseTarget,
    past: &mut Past<L, U>,
    progress: &mut Progress,
    machine: &mut Machine<D, C, L, U>,
)
    requires number { target.number < length past.old.marks }
    requires fits { AreOfOneMachine past.old.start machine.old.state }
    requires events { progress.old.events ≡ [] }
    ensures past { past.new ≡ record past.old { marks = drop target.number past.old.marks } }
    ensures events { (s : State) → progress.new ≡ record progress.old {
      events = events_for target.found.reason (mark_of past.old target.number s) target.found.steps;
    } }
    ensures state { (s : State) → machine.new ≡ record machine.old {
      state = after target.found.steps (mark_of past.old target.number s);
    } }
    ensures same { AreOfOneMachine past.old.start machine.new.state }
    ensures ahead { IsAfterMark past.new machine.new.state }
{
    past.forget(target.number);
    reach(target.found, past, progress, machine);
}

/// Ends a run backwards: puts the lines that say why, and the stop reply.
fn end_return<D: Decider, C: KeptCode, L: Exceptions, U: SysTickState, W: Out>(
    reason: StopReason,
    context: &RunContext,
    progress: &mut Progress,
    sent: &mut SentPacket,
    machine: &Machine<D, C, L, U>,
    out: &mut W,
) -> Result<Return, IoError>
    requires { progress.old ≡ record {
      made = 0;
      console = console_from None;
      returns_to = None;
      events = progress.old.events;
    } }
    ensures delivers { Delivers
        (ended context.now.settings context.now.points.now.watchpoints context.now.features reason
        progress.old.events (flow_at machine.now.state)).pieces machine.now machine.now (W.writing out.old)
        (W.writing out.new) result }
    ensures outcome { IfOk result (λ ends. ends ≡ Ends (signal_of reason)) }
    ensures sent { OnOk result (sent.new.items ≡ stop_packet context.now.features reason machine.now.state) }
{
    let plan = Plan {
        how: Resume::Continue,
        limit: context.limit,
        settings: context.settings,
    };
    let watchpoints = &context.points.watchpoints;
    match end_run(
        reason,
        &plan,
        watchpoints,
        context.features,
        progress,
        sent,
        machine,
        out,
    ) {
        Ok(_) => Ok(Return::Ends(signal_of(reason))),
        Err(error) => Err(error),
    }
}

/// Asks GDB, with the machine where it was. The search goes on from the tick `low`.
fn ask<D: Decider, C: KeptCode, L: Exceptions, U: SysTickState, W: Out>(
    scope: SearchScope,
    low: u64,
    position: &Position<L, U>,
    sent: &mut SentPacket,
    machine: &mut Machine<D, C, L, U>,
    out: &mut W,
) -> Result<Return, IoError>
    requires { AreOfOneMachine machine.old.state position.now }
    ensures delivers { Delivers (said (flow_at position.now) poll_packet ∷ []) machine.old machine.new
        (W.writing out.old)
        (W.writing out.new) result }
    ensures outcome { IfOk result (λ ends. ends ≡ Asks (record {
      scope = record scope { end = low; continues = true };
      is_interrupted = false;
    })) }
    ensures sent { OnOk result (sent.new.items ≡ poll_packet) }
    ensures state { machine.new ≡ record machine.old { state = position.now } }
{
    position.restore(machine);
    match send_packet(POLL_PACKET, sent, out) {
        Ok(()) => {
            let mut scope = scope;
            scope.end = low;
            scope.continues = true;
            Ok(Return::Asks(Search {
                scope,
                is_interrupted: false,
            }))
        }
        Err(error) => Err(error),
    }
}

/// Makes the next turn of a search: goes back through at most 1,000,000 steps before GDB is asked whether its user has
/// interrupted; a client that isn't GDB isn't asked. At the end it writes the lines that say why, and the stop reply.
/// `position` is room for a state to go back to.
pub fn go_back<D: Decider, C: KeptCode, L: Exceptions, U: SysTickState, W: Out>(
    search: Search,
    context: &RunContext,
    past: &mut Past<L, U>,
    position: &mut Position<L, U>,
    sent: &mut SentPacket,
    machine: &mut Machine<D, C, L, U>,
    out: &mut W,
) -> Result<Return, IoError>
    requires ahead { IsAfterMark past.old machine.old.state }
    requires fits { AreOfOneMachine position.old machine.old.state }
    ensures returns { Returns (return context.now.settings context.now.points.now context.now.features past.old search
        machine.old.state) machine.old machine.new (W.writing out.old) (W.writing out.new) sent.new.items past.new
        result }
    ensures start { past.new.start ≡ past.old.start }
    ensures fits { AreOfOneMachine position.new machine.new.state }
    ensures same { AreOfOneMachine machine.old.state machine.new.state }
    ensures ahead { IsAfterMark past.new machine.new.state }
{
    let mut progress = Progress::new(0, None, None);
    if search.is_interrupted {
        let reason = StopReason::Interrupted;
        return end_return(reason, context, &mut progress, sent, machine, out);
    }
    position.take(machine);
    let scope = search.scope;
    let low = low_of(context.features, scope.end);
    match place_back(scope, context.points, &context.settings, low, past, machine) {
        Some(target) => {
            arrive(target, past, &mut progress, machine);
            end_return(
                target.found.reason,
                context,
                &mut progress,
                sent,
                machine,
                out,
            )
        }
        None => ask(scope, low, position, sent, machine, out),
    }
}
