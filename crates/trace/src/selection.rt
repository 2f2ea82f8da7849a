//! Which events of a run are written.

ghost use Rattle.std.specs.Prelude.{◌≡◌, true, false, List, [], ◌∷◌, ◌++◌, is_some};
ghost use Rattle.platform.specs.declared.event.Event.{Event};
ghost use Rattle.trace.specs.Selection.{enters_fault_handler, handles_faults, has_faulty_steps};
ghost use Rattle.trace.specs.Selection.{has_refusal_or_fault, is_done_access, is_refusal_or_fault};
ghost use Rattle.trace.specs.declared.selection.TraceSelection.TheVariants as which;
ghost use Rattle.trace.specs.Selection.{kinds_text, last_printed, selected_text, selects, writes_bytes};

use platform::event::{Event, EventKind};
use platform::exception::{BUS_FAULT, HARD_FAULT, MEM_MANAGE, USAGE_FAULT};

/// Which events of a run are written. The line of the stop always is.
#[derive(Clone, Copy)]
pub enum TraceSelection {
    /// Every event.
    All,
    /// The accesses that were refused, and the faults that were recorded.
    Refused,
    /// Every event of each step with an event of `Refused`, and where the handler of a fault was entered.
    Faults,
    /// Those of `Refused`, and where a handler was entered or a return began.
    Exceptions,
    /// The bytes that the firmware printed: the bytes themselves, without lines.
    Console,
    /// No event.
    Nothing,
}

impl TraceSelection {
    /// Returns whether each event of that kind is written, in whichever step.
    #[inline(always)]
    pub fn selects(self, what: &EventKind) -> bool
        ensures { result ≡ selects self what.now }
    {
        match self {
            TraceSelection::All => true,
            TraceSelection::Refused => is_refusal_or_fault(what),
            TraceSelection::Faults => enters_fault_handler(what),
            TraceSelection::Exceptions => is_refusal_or_fault(what) || what.is_entry_or_return(),
            TraceSelection::Console => what.byte().is_some(),
            TraceSelection::Nothing => false,
        }
    }

    /// Returns whether the accesses that were done are written, all of them; otherwise none of them is.
    #[inline(always)]
    pub fn has_done_accesses(self) -> bool
        ensures some { result ≡ true → self ≡ which.All }
        ensures none { result ≡ false → (e : Event) → is_done_access e ≡ true → selects self e.what ≡ false }
    {
        match self {
            TraceSelection::All => true,
            TraceSelection::Refused
            | TraceSelection::Faults
            | TraceSelection::Exceptions
            | TraceSelection::Console
            | TraceSelection::Nothing => false,
        }
    }

    /// Returns whether each event of a step is written in which an access was refused or a fault was recorded.
    #[inline(always)]
    pub fn has_faulty_steps(self) -> bool
        ensures { result ≡ has_faulty_steps self }
    {
        match self {
            TraceSelection::Faults => true,
            TraceSelection::All
            | TraceSelection::Refused
            | TraceSelection::Exceptions
            | TraceSelection::Console
            | TraceSelection::Nothing => false,
        }
    }

    /// Returns the selection whose kinds of events are written of a step with these events: `All` where this one
    /// has every event of such a step.
    #[tactic(auto, using(crate::proofs::Selecting::whole_step, crate::proofs::Selecting::other_step))]
    pub fn of_step(self, events: &[Event]) -> TraceSelection
        ensures { kinds_text result events.now ≡ selected_text self events.now }
    {
        if self.has_faulty_steps() && has_refusal_or_fault(events) {
            TraceSelection::All
        } else {
            self
        }
    }

    /// Returns whether the bytes that the firmware printed are written themselves, and no lines.
    #[inline(always)]
    pub fn writes_bytes(self) -> bool
        ensures { result ≡ writes_bytes self }
    {
        match self {
            TraceSelection::Console => true,
            TraceSelection::All
            | TraceSelection::Refused
            | TraceSelection::Faults
            | TraceSelection::Exceptions
            | TraceSelection::Nothing => false,
        }
    }

    /// Returns the last byte printed after one more event, from the last one before it. It is None where no
    /// byte was printed, or where the bytes themselves aren't written.
    #[inline(always)]
    pub fn last_after(self, before: Option<u8>, event: &Event) -> Option<u8>
        ensures { (events : List Event) → before ≡ last_printed self events → result
            ≡ last_printed self (events ++ event.now ∷ []) }
    {
        match self {
            TraceSelection::Console => event.what.byte().or(before),
            TraceSelection::All
            | TraceSelection::Refused
            | TraceSelection::Faults
            | TraceSelection::Exceptions
            | TraceSelection::Nothing => before,
        }
    }

    /// Returns the last byte printed by some events and later ones, from the last one of each.
    #[inline(always)]
    pub fn last_of(self, before: Option<u8>, later: Option<u8>) -> Option<u8>
        ensures { (events more : List Event) → before ≡ last_printed self events → later ≡ last_printed self more
            → result ≡ last_printed self (events ++ more) }
    {
        match self {
            TraceSelection::Console => later.or(before),
            TraceSelection::All
            | TraceSelection::Refused
            | TraceSelection::Faults
            | TraceSelection::Exceptions
            | TraceSelection::Nothing => before,
        }
    }
}

/// Returns whether an event is an access that was refused or a fault that was recorded.
#[inline(always)]
fn is_refusal_or_fault(what: &EventKind) -> bool
    ensures { result ≡ is_refusal_or_fault what.now }
{
    what.is_refused() || what.recorded_fault().is_some()
}

/// Returns whether the event is the entry of the handler of a fault.
#[inline(always)]
fn enters_fault_handler(what: &EventKind) -> bool
    ensures { result ≡ enters_fault_handler what.now }
{
    match what {
        EventKind::HandlerEntered(exception) => handles_faults(*exception),
        EventKind::Accessed(_)
        | EventKind::ConsoleByte(_)
        | EventKind::ReturnBegan(_)
        | EventKind::FaultRecorded(_) => false,
    }
}

/// Returns whether an exception is HardFault, MemManage, BusFault or UsageFault.
#[inline(always)]
fn handles_faults(exception: u16) -> bool
    ensures { result ≡ handles_faults exception }
{
    matches!(exception, HARD_FAULT | MEM_MANAGE | BUS_FAULT | USAGE_FAULT)
}

/// Returns whether one of the events is an access that was refused or a fault that was recorded.
fn has_refusal_or_fault(events: &[Event]) -> bool
    ensures { result ≡ has_refusal_or_fault events.now }
{
    'events: for event in events {
        if is_refusal_or_fault(&event.what) {
            return true;
        }
    }
    false
}
