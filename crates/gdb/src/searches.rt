//! Searches in the past of a machine, for the last place at which a run backwards ends.

ghost use Rattle.std.specs.Prelude.{◌≡◌, ◌+◌, ◌-◌, ◌<◌, ◌^◌, ◌&&◌, ◌||◌, if◌then◌else◌, nat_lt, IfSome, None, drop};
ghost use Rattle.std.specs.Prelude.{length, option_map};
ghost use Rattle.gdb.specs.Reasons.{first_hit, has_entry, reason_if, reason_of_events, reason_or, watch_reason};
ghost use Rattle.gdb.specs.Searches.{found_from, found_if, last_found, mark_found, place_back, place_of};
ghost use Rattle.gdb.specs.Searches.{reason_of_mark, reason_of_next, reason_of_step, reason_there};
ghost use Rattle.gdb_past.specs.Places.{AreOfOneMachine, mark_of, tick_of};
ghost use Rattle.gdb_texts.specs.declared.stops.StopReason.TheVariants.{Done};
ghost use Rattle.reference.specs.Run.{after};
ghost use Rattle.reference.specs.State.{State};
ghost use Rattle.reference.specs.Step.{step};

use crate::slices::Points;
use crate::steps::{has_entry, reason_at_breakpoint, reason_of_events, reason_of_hit};
use gdb_past::Past;
use gdb_texts::{Settings, StopReason};
use machine::{
    Decider, Event, Events, Exceptions, KeptCode, Machine, SysTickState, is_instruction,
};

/// How far a run backwards goes.
#[derive(Clone, Copy)]
pub enum Way {
    /// By a unit, or to a mark.
    Step,
    /// To the last place at which a run would have ended.
    Continue,
}

/// What is searched for, and where.
#[derive(Clone, Copy)]
pub struct SearchScope {
    pub way: Way,
    /// The tick at which the run backwards began.
    pub now: u64,
    /// The last tick of the places that are left.
    pub end: u64,
    /// Whether the machine made a next step at that tick.
    pub continues: bool,
}

/// A place in the past, by the number of steps after a mark, and why a run backwards ends there.
#[derive(Clone, Copy)]
pub struct FoundPlace {
    pub steps: u64,
    pub reason: StopReason,
}

/// A place in the past, by the number of a mark from the last one.
#[derive(Clone, Copy)]
pub struct ReverseTarget {
    pub number: usize,
    pub found: FoundPlace,
}

/// Returns why a run backwards by a unit ends at the end of a step, which was an Instruction step or not.
fn reason_of_unit(before: bool, was_instruction: bool, events: &[Event]) -> Option<StopReason>
    ensures { result ≡ reason_if (before && (was_instruction || has_entry events.now)) Done }
{
    if before && (was_instruction || has_entry(events)) {
        Some(StopReason::Done)
    } else {
        None
    }
}

/// Returns why a run backwards to a stop ends at the end of a step with these events.
fn reason_of_stop(
    points: &Points,
    settings: &Settings,
    before: bool,
    events: &[Event],
) -> Option<StopReason>
    ensures { result ≡ reason_or (watch_reason (first_hit points.now.watchpoints events.now))
        (if before then reason_of_events settings.now events.now else None) }
{
    match reason_of_hit(&points.watchpoints, events) {
        Some(reason) => Some(reason),
        None => {
            if before {
                reason_of_events(settings, events)
            } else {
                None
            }
        }
    }
}

/// Makes a step. Returns why a run backwards ends at its end, if it does.
fn make_step_back<D: Decider, C: KeptCode, L: Exceptions, U: SysTickState>(
    way: Way,
    points: &Points,
    settings: &Settings,
    before: bool,
    events: &mut Events,
    machine: &mut Machine<D, C, L, U>,
) -> Option<StopReason>
    ensures reason { result ≡ reason_of_step way points.now settings.now before machine.old.state }
    ensures state { machine.new ≡ record machine.old { state = (step machine.old.state).state } }
{
    match way {
        Way::Step => {
            let was_instruction = is_instruction(machine.next_kind());
            let _ = machine.step(events);
            reason_of_unit(before, was_instruction, events.as_slice())
        }
        Way::Continue => {
            let _ = machine.step(events);
            reason_of_stop(points, settings, before, events.as_slice())
        }
    }
}

/// Returns why a run backwards ends before the next step.
fn reason_of_next<D: Decider, C: KeptCode, L: Exceptions, U: SysTickState>(
    way: Way,
    points: &Points,
    machine: &Machine<D, C, L, U>,
) -> Option<StopReason>
    ensures { result ≡ reason_of_next way points.now machine.now.state }
{
    match way {
        Way::Step => None,
        Way::Continue => reason_at_breakpoint(&points.breakpoints, machine),
    }
}

/// Makes a step. Returns why a run backwards ends at the place that it leads to, if it does.
fn reason_there<D: Decider, C: KeptCode, L: Exceptions, U: SysTickState>(
    scope: SearchScope,
    points: &Points,
    settings: &Settings,
    tick: u64,
    events: &mut Events,
    machine: &mut Machine<D, C, L, U>,
) -> Option<StopReason>
    ensures reason { result ≡ reason_there scope.way points.now settings.now (nat_lt tick scope.now)
        (scope.continues || nat_lt tick scope.end) machine.old.state }
    ensures state { machine.new ≡ record machine.old { state = (step machine.old.state).state } }
{
    let before = tick < scope.now;
    match make_step_back(scope.way, points, settings, before, events, machine) {
        Some(reason) => Some(reason),
        None => {
            if scope.continues || tick < scope.end {
                reason_of_next(scope.way, points, machine)
            } else {
                None
            }
        }
    }
}

/// Returns the place after some steps, where there is a reason, or else an earlier one.
fn found_if(
    steps: u64,
    reason: Option<StopReason>,
    earlier: Option<FoundPlace>,
) -> Option<FoundPlace>
    ensures { result ≡ found_if steps reason earlier }
{
    match reason {
        Some(reason) => Some(FoundPlace { steps, reason }),
        None => earlier,
    }
}

/// Returns the last place with a reason among the `count` ones after a place, where the machine is: `steps` steps after
/// a mark, whose tick is `tick`.
fn last_found<D: Decider, C: KeptCode, L: Exceptions, U: SysTickState>(
    scope: SearchScope,
    points: &Points,
    settings: &Settings,
    tick: u64,
    steps: u64,
    count: u64,
    machine: &mut Machine<D, C, L, U>,
) -> Option<FoundPlace>
    requires room { tick + steps + count < 2 ^ 64 }
    ensures found { (m : State) → tick ≡ tick_of m → machine.old.state ≡ after steps m
        → result ≡ last_found scope points.now settings.now m steps count }
    ensures same { AreOfOneMachine machine.old.state machine.new.state }
    ensures kept { machine.new.broken ≡ machine.old.broken }
{
    let mut events = Events::new();
    let mut found = None;
    'steps: for step in 0..count {
        let there = steps + step + 1;
        let at = tick + there;
        let reason = reason_there(scope, points, settings, at, &mut events, machine);
        found = found_if(there, reason, found);
    }
    found
}

/// Returns how many places are searched at first: a unit seldom has more than a few steps, and a stop is often far.
fn first_part(way: Way) -> u64
    ensures { 0 < result }
{
    match way {
        Way::Step => 64,
        Way::Continue => 262_144,
    }
}

/// Returns the last place with a reason after a mark, from the place `low` steps after it to the one `high` steps after
/// it. The last part of the way is searched first, from a checkpoint if there is one.
fn found_between<D: Decider, C: KeptCode, L: Exceptions, U: SysTickState>(
    scope: SearchScope,
    points: &Points,
    settings: &Settings,
    number: usize,
    low: u64,
    high: u64,
    past: &mut Past<L, U>,
    machine: &mut Machine<D, C, L, U>,
) -> Option<FoundPlace>
    requires number { number < length past.old.marks }
    requires fits { AreOfOneMachine past.old.start machine.old.state }
    requires room { (m : State) → tick_of (mark_of past.old number m) + high < 2 ^ 64 }
    ensures found { (m : State) → result ≡ last_found scope points.now settings.now
        (mark_of past.old number m) low (high - low) }
    ensures past { past.new ≡ past.old }
    ensures same { AreOfOneMachine past.old.start machine.new.state }
    ensures kept { machine.new.broken ≡ machine.old.broken }
{
    let tick = past.tick(number);
    let mut end = high;
    let mut part = first_part(scope.way);
    'parts: while low < end {
        let from = past.go_near(number, low.max(end.saturating_sub(part)), end - 1, machine);
        let found = last_found(scope, points, settings, tick, from, end - from, machine);
        if found.is_some() {
            return found;
        }
        end = from;
        part = part.saturating_mul(8);
    }
    None
}

/// Returns why a run backwards ends at a mark, where the machine is.
fn reason_of_mark<D: Decider, C: KeptCode, L: Exceptions, U: SysTickState>(
    way: Way,
    points: &Points,
    before: bool,
    machine: &Machine<D, C, L, U>,
) -> Option<StopReason>
    ensures { result ≡ reason_of_mark way points.now before machine.now.state }
{
    if !before {
        return None;
    }
    match way {
        Way::Step => Some(StopReason::Done),
        Way::Continue => reason_at_breakpoint(&points.breakpoints, machine),
    }
}

/// Returns the place of a mark, where the machine is, if a run backwards ends there.
fn mark_found<D: Decider, C: KeptCode, L: Exceptions, U: SysTickState>(
    scope: SearchScope,
    points: &Points,
    tick: u64,
    machine: &Machine<D, C, L, U>,
) -> Option<FoundPlace>
    requires { tick ≡ tick_of machine.now.state }
    ensures { result ≡ mark_found scope points.now machine.now.state }
{
    found_if(
        0,
        reason_of_mark(scope.way, points, tick < scope.now, machine),
        None,
    )
}

/// Returns the last place with a reason after a mark and after the tick `low`; or the mark.
fn found_from<D: Decider, C: KeptCode, L: Exceptions, U: SysTickState>(
    scope: SearchScope,
    points: &Points,
    settings: &Settings,
    number: usize,
    low: u64,
    past: &mut Past<L, U>,
    machine: &mut Machine<D, C, L, U>,
) -> Option<FoundPlace>
    requires number { number < length past.old.marks }
    requires fits { AreOfOneMachine past.old.start machine.old.state }
    ensures found { (m : State) → result ≡ found_from scope points.now settings.now low
        (mark_of past.old number m) }
    ensures past { past.new ≡ past.old }
    ensures same { AreOfOneMachine past.old.start machine.new.state }
    ensures kept { machine.new.broken ≡ machine.old.broken }
{
    let tick = past.tick(number);
    let skipped = low.saturating_sub(tick);
    let count = scope.end.saturating_sub(tick);
    let later = found_between(
        scope, points, settings, number, skipped, count, past, machine,
    );
    if later.is_some() {
        return later;
    }
    if tick < low {
        return later;
    }
    let _ = past.go_near(number, 0, 0, machine);
    mark_found(scope, points, tick, machine)
}

/// Searches the past down to the tick `low`. Returns the last place with a reason, or the first mark; and None where
/// only earlier places are left.
pub fn place_back<D: Decider, C: KeptCode, L: Exceptions, U: SysTickState>(
    scope: SearchScope,
    points: &Points,
    settings: &Settings,
    low: u64,
    past: &mut Past<L, U>,
    machine: &mut Machine<D, C, L, U>,
) -> Option<ReverseTarget>
    requires { AreOfOneMachine past.old.start machine.old.state }
    ensures place { (s : State) → option_map (λ target. place_of (drop target.number past.old.marks)
        (mark_of past.old target.number s) target.found) result
        ≡ place_back scope points.now settings.now low s past.old.marks }
    ensures number { IfSome result (λ target. target.number < length past.old.marks) }
    ensures past { past.new ≡ past.old }
    ensures same { AreOfOneMachine past.old.start machine.new.state }
    ensures kept { machine.new.broken ≡ machine.old.broken }
{
    let mut scope = scope;
    'marks: for number in 0..past.count() {
        let tick = past.tick(number);
        if tick <= scope.end {
            if let Some(found) = found_from(scope, points, settings, number, low, past, machine) {
                return Some(ReverseTarget { number, found });
            }
            if tick < low {
                return None;
            }
            scope.end = tick;
            scope.continues = false;
        }
    }
    let found = FoundPlace {
        steps: 0,
        reason: StopReason::PastBegins,
    };
    Some(ReverseTarget {
        number: past.count() - 1,
        found,
    })
}
