//! Selections of events as types, so that a run that writes less also does less.

ghost use Rattle.trace.specs.declared.selection.TraceSelection.{TraceSelection};
ghost use Rattle.trace.specs.declared.selection.TraceSelection.TheVariants as which;

use trace::selection::TraceSelection;

/// A selection of events, known when the program is built.
pub trait View {
    ghost SELECTION: { TraceSelection };

    const SELECTION: TraceSelection;
}

/// Every event.
#[derive(Drop)]
pub struct AllEvents;

impl View for AllEvents {
    ghost SELECTION = { which.All };

    const SELECTION: TraceSelection = TraceSelection::All;
}

/// The accesses that were refused, and the faults that were recorded.
#[derive(Drop)]
pub struct RefusedEvents;

impl View for RefusedEvents {
    ghost SELECTION = { which.Refused };

    const SELECTION: TraceSelection = TraceSelection::Refused;
}

/// Every event of each step with one of `RefusedEvents`, and where the handler of a fault was entered. What is
/// written of an event depends on those after it in its step, so they are gathered.
#[derive(Drop)]
pub struct FaultySteps;

impl View for FaultySteps {
    ghost SELECTION = { which.Faults };

    const SELECTION: TraceSelection = TraceSelection::Faults;
}

/// Those of `RefusedEvents`, and where a handler was entered or a return began.
#[derive(Drop)]
pub struct ExceptionEvents;

impl View for ExceptionEvents {
    ghost SELECTION = { which.Exceptions };

    const SELECTION: TraceSelection = TraceSelection::Exceptions;
}

/// The bytes that the firmware printed, without lines.
#[derive(Drop)]
pub struct ConsoleBytes;

impl View for ConsoleBytes {
    ghost SELECTION = { which.Console };

    const SELECTION: TraceSelection = TraceSelection::Console;
}

/// No event.
#[derive(Drop)]
pub struct NoEvents;

impl View for NoEvents {
    ghost SELECTION = { which.Nothing };

    const SELECTION: TraceSelection = TraceSelection::Nothing;
}
