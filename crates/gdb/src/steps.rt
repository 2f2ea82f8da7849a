//! The text of a step of a run, and whether the run ends before or after it.

ghost use Rattle.std.specs.Prelude.{◌≡◌, [], ◌∷◌, is_some, true};
ghost use Rattle.gdb.specs.Consoles.{ShowsText};
ghost use Rattle.gdb.specs.Reasons.{cause_of, event_hit, first_cause, first_hit, has_entry, has_fault, is_continue};
ghost use Rattle.gdb.specs.Reasons.{is_entry, leaves, reason_after, reason_at_breakpoint, reason_back, reason_before};
ghost use Rattle.gdb.specs.Reasons.{reason_in_unit, reason_of_events, selection_of};
ghost use Rattle.gdb.specs.Reasons.{tests_breakpoints, watch_reason};
ghost use Rattle.gdb_texts.specs.Watchpoints.{hit_of};
ghost use Rattle.platform.specs.Events.{recorded_fault_of};
ghost use Rattle.trace.specs.Selection.{kinds_text, selected_text, selects};

use crate::console::Console;
use crate::over::{ReturnPoint, is_back};
use debugger_commands::LineSelection;
use gdb_texts::{Breakpoints, Resume, Settings, StopReason, WatchHit, Watchpoints};
use machine::{
    Decider, Event, Exceptions, KeptCode, Machine, SysTickState, TraceSelection, event_line,
    is_instruction,
};
use output::{IoError, Out};
use platform::access::{Access, Cause, Kind};
use platform::event::EventKind;
use platform::stop::Stop;

/// Returns the selection of the trace with these lines.
pub fn selection_of(lines: LineSelection) -> TraceSelection
    ensures { result ≡ selection_of lines }
{
    match lines {
        LineSelection::All => TraceSelection::All,
        LineSelection::Refused => TraceSelection::Refused,
        LineSelection::Exceptions => TraceSelection::Exceptions,
        LineSelection::Console => TraceSelection::Console,
        LineSelection::Nothing => TraceSelection::Nothing,
    }
}

/// Puts the text of an event of a kind that a selection has. A call of its own, so that the others, which most events
/// are, cost no room for a line.
#[inline(never)]
fn put_selected<W: Out>(
    selection: TraceSelection,
    event: &Event,
    console: &mut Console,
    out: &mut W,
) -> Result<(), IoError>
    requires { selects selection event.now.what ≡ true }
    ensures { ShowsText (W.writing out.old) (W.writing out.new) console.old console.new
        (kinds_text selection (event.now ∷ [])) result }
{
    if selection.writes_bytes() {
        return match event.what.byte() {
            Some(byte) => console.put(&[byte], out),
            None => Ok(()),
        };
    }
    console.put(event_line(event).as_slice(), out)
}

/// Puts the text of an event, where a selection has events of its kind.
fn put_event<W: Out>(
    selection: TraceSelection,
    event: &Event,
    console: &mut Console,
    out: &mut W,
) -> Result<(), IoError>
    ensures { ShowsText (W.writing out.old) (W.writing out.new) console.old console.new
        (kinds_text selection (event.now ∷ [])) result }
{
    if !selection.selects(&event.what) {
        return Ok(());
    }
    put_selected(selection, event, console, out)
}

/// Puts the text of those events that are of the kinds that a selection has.
fn put_kinds<W: Out>(
    selection: TraceSelection,
    events: &[Event],
    console: &mut Console,
    out: &mut W,
) -> Result<(), IoError>
    ensures { ShowsText (W.writing out.old) (W.writing out.new) console.old console.new
        (kinds_text selection events.now) result }
{
    'events: for event in events {
        match put_event(selection, event, console, out) {
            Ok(()) => {}
            Err(error) => return Err(error),
        }
    }
    Ok(())
}

/// Puts the text that a selection has of the events of a step.
pub fn put_step<W: Out>(
    selection: TraceSelection,
    events: &[Event],
    console: &mut Console,
    out: &mut W,
) -> Result<(), IoError>
    ensures { ShowsText (W.writing out.old) (W.writing out.new) console.old console.new
        (selected_text selection events.now) result }
{
    put_kinds(selection.of_step(events), events, console, out)
}

/// Returns what refused an access, if the event is one that was refused.
fn cause_of(what: &EventKind) -> Option<Cause>
    ensures { result ≡ cause_of what.now }
{
    match what {
        EventKind::Accessed(decided) => decided.refused,
        EventKind::ConsoleByte(_)
        | EventKind::ReturnBegan(_)
        | EventKind::HandlerEntered(_)
        | EventKind::FaultRecorded(_) => None,
    }
}

/// Returns what refused the first access that was refused, if one was.
#[tactic(auto, unfolding(crate::specs::Reasons::first_cause))]
pub fn first_cause(events: &[Event]) -> Option<Cause>
    ensures { result ≡ first_cause events.now }
{
    'events: for event in events {
        match cause_of(&event.what) {
            Some(cause) => return Some(cause),
            None => {}
        }
    }
    None
}

/// Returns what a granted access hits, if it hits a watchpoint. There are none for fetches and probes.
#[tactic(auto, using(crate::proofs::Unwatched::fetch_hits_none, crate::proofs::Unwatched::probe_hits_none))]
fn granted_hit(watchpoints: &Watchpoints, access: &Access) -> Option<WatchHit>
    ensures { result ≡ hit_of watchpoints.now access.now }
{
    match access.kind {
        Kind::Fetch | Kind::Probe => None,
        Kind::Load | Kind::Store | Kind::Push | Kind::Pop | Kind::Vector => {
            watchpoints.hit_of(access)
        }
    }
}

/// Returns what an event hits, if it is a granted access that hits a watchpoint.
pub fn event_hit(watchpoints: &Watchpoints, what: &EventKind) -> Option<WatchHit>
    ensures { result ≡ event_hit watchpoints.now what.now }
{
    match what {
        EventKind::Accessed(decided) => {
            if decided.refused.is_some() {
                None
            } else {
                granted_hit(watchpoints, &decided.access)
            }
        }
        EventKind::ConsoleByte(_)
        | EventKind::ReturnBegan(_)
        | EventKind::HandlerEntered(_)
        | EventKind::FaultRecorded(_) => None,
    }
}

/// Returns what the first access hits that hits a watchpoint, if one does.
#[tactic(auto, unfolding(crate::specs::Reasons::first_hit))]
pub fn first_hit(watchpoints: &Watchpoints, events: &[Event]) -> Option<WatchHit>
    ensures { result ≡ first_hit watchpoints.now events.now }
{
    'events: for event in events {
        match event_hit(watchpoints, &event.what) {
            Some(hit) => return Some(hit),
            None => {}
        }
    }
    None
}

/// Returns why a run ends for what the events of a step hit, if they hit a watchpoint.
#[tactic(auto, using(crate::proofs::Unwatched::none_watched))]
pub fn reason_of_hit(watchpoints: &Watchpoints, events: &[Event]) -> Option<StopReason>
    ensures { result ≡ watch_reason (first_hit watchpoints.now events.now) }
{
    if watchpoints.is_empty() {
        return None;
    }
    match first_hit(watchpoints, events) {
        Some(hit) => Some(StopReason::Watchpoint(hit.kind, hit.address)),
        None => None,
    }
}

/// Returns whether the event is a fault that was recorded.
fn is_fault(what: &EventKind) -> bool
    ensures { result ≡ is_some (recorded_fault_of what.now) }
{
    what.recorded_fault().is_some()
}

/// Returns whether a fault was recorded.
pub fn has_fault(events: &[Event]) -> bool
    ensures { result ≡ has_fault events.now }
{
    events.iter().any(|event| is_fault(&event.what))
}

/// Returns whether a handler was entered.
pub fn is_entry(what: &EventKind) -> bool
    ensures { result ≡ is_entry what.now }
{
    match what {
        EventKind::HandlerEntered(_) => true,
        EventKind::Accessed(_)
        | EventKind::ConsoleByte(_)
        | EventKind::ReturnBegan(_)
        | EventKind::FaultRecorded(_) => false,
    }
}

/// Returns whether a handler was entered in a step with these events.
pub fn has_entry(events: &[Event]) -> bool
    ensures { result ≡ has_entry events.now }
{
    events.iter().any(|event| is_entry(&event.what))
}

/// Returns why a run ends after a step with these events, by the settings.
pub fn reason_of_events(settings: &Settings, events: &[Event]) -> Option<StopReason>
    ensures { result ≡ reason_of_events settings.now events.now }
{
    if settings.refused
        && let Some(cause) = first_cause(events)
    {
        return Some(StopReason::Refused(cause));
    }
    if settings.faults && has_fault(events) {
        return match first_cause(events) {
            Some(cause) => Some(StopReason::Refused(cause)),
            None => Some(StopReason::Fault),
        };
    }
    if settings.exceptions && has_entry(events) {
        return Some(StopReason::Entered);
    }
    None
}

/// Returns whether a run that has made a unit ends at this address.
fn leaves(how: Resume, pc: u32) -> bool
    ensures { result ≡ leaves how pc }
{
    match how {
        Resume::Continue => false,
        Resume::Step => true,
        Resume::Range(first, end) => pc < first || end <= pc,
    }
}

/// Returns why a run ends after a step, which was an Instruction step or not, with these events. `is_away` is whether
/// its unit is away from the code that it returns to, `stop` why the machine has stopped by then, and `pc` the address
/// of the next instruction.
#[tactic(auto, using(std::proofs::lemmas::Bool::and_right))]
pub fn reason_after(
    settings: &Settings,
    how: Resume,
    is_away: bool,
    was_instruction: bool,
    events: &[Event],
    stop: Option<Stop>,
    pc: u32,
) -> Option<StopReason>
    ensures { result ≡ reason_after settings.now how is_away was_instruction events.now stop pc }
{
    if let Some(stop) = stop {
        return Some(StopReason::Stopped(stop));
    }
    if let Some(reason) = reason_of_events(settings, events) {
        return Some(reason);
    }
    if !is_away && (leaves(how, pc) && (was_instruction || has_entry(events))) {
        return Some(StopReason::Done);
    }
    None
}

/// Returns whether a run goes on until something stops it.
pub fn is_continue(how: Resume) -> bool
    ensures { result ≡ is_continue how }
{
    match how {
        Resume::Continue => true,
        Resume::Step | Resume::Range(..) => false,
    }
}

/// Returns whether a run that has made some steps tests breakpoints before its next one.
fn tests_breakpoints(how: Resume, made: u64) -> bool
    ensures { result ≡ tests_breakpoints how made }
{
    made > 0 || is_continue(how)
}

/// Returns the reason of a breakpoint before the next step, if one is there.
#[tactic(auto, using(crate::proofs::Unwatched::no_breakpoint))]
pub fn reason_at_breakpoint<D: Decider, C: KeptCode, L: Exceptions, U: SysTickState>(
    points: &Breakpoints,
    machine: &Machine<D, C, L, U>,
) -> Option<StopReason>
    ensures { result ≡ reason_at_breakpoint points.now machine.now.state }
{
    if points.is_empty() {
        return None;
    }
    match points.kind_at(machine.execution().pc) {
        Some(kind) if is_instruction(machine.next_kind()) => Some(StopReason::Breakpoint(kind)),
        Some(_) | None => None,
    }
}

/// Returns why a run ends before the next step, an instruction of the code that its unit returns to.
fn reason_back<D: Decider, C: KeptCode, L: Exceptions, U: SysTickState>(
    points: &Breakpoints,
    how: Resume,
    point: ReturnPoint,
    machine: &Machine<D, C, L, U>,
) -> Option<StopReason>
    ensures { result ≡ reason_back points.now how machine.now.state point }
{
    let pc = machine.execution().pc;
    if pc == point.pc {
        return None;
    }
    if leaves(how, pc) {
        return Some(StopReason::Done);
    }
    reason_at_breakpoint(points, machine)
}

/// Returns why a run ends before the next step of a unit that returns to a point, or to none.
fn reason_in_unit<D: Decider, C: KeptCode, L: Exceptions, U: SysTickState>(
    points: &Breakpoints,
    how: Resume,
    made: u64,
    returns_to: Option<ReturnPoint>,
    machine: &Machine<D, C, L, U>,
) -> Option<StopReason>
    ensures { result ≡ reason_in_unit points.now how made machine.now.state returns_to }
{
    match returns_to {
        None => {
            if tests_breakpoints(how, made) {
                reason_at_breakpoint(points, machine)
            } else {
                None
            }
        }
        Some(point) => {
            if is_back(machine, point) {
                reason_back(points, how, point, machine)
            } else {
                reason_at_breakpoint(points, machine)
            }
        }
    }
}

/// Returns why a run with these breakpoints, to the tick `limit`, that has made some steps ends before its next one.
/// `returns_to` is what its unit returns to.
pub fn reason_before<D: Decider, C: KeptCode, L: Exceptions, U: SysTickState>(
    points: &Breakpoints,
    limit: u64,
    how: Resume,
    made: u64,
    returns_to: Option<ReturnPoint>,
    machine: &Machine<D, C, L, U>,
) -> Option<StopReason>
    ensures { result ≡ reason_before points.now limit how made returns_to machine.now.state }
{
    if machine.stop().is_some() {
        return Some(StopReason::StoppedBefore);
    }
    if limit <= machine.ticks() {
        return Some(StopReason::Stopped(Stop::StepLimit));
    }
    reason_in_unit(points, how, made, returns_to, machine)
}
