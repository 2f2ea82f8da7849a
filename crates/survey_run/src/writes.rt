//! A sink that knows whether a step wrote to the Private Peripheral Bus.

ghost use Rattle.std.specs.Prelude.{◌≡◌, [], ◌||◌};
ghost use Rattle.survey.specs.RegionLaw.{some_writes_system, writes_system};
ghost use Rattle.survey_run.specs.CountModel.{emission, events_of};

use output::History;
use platform::event::{Event, EventKind};
use survey::writes_system;
use trace::sink::Sink;

/// Whether one of the events of a step is a write to the Private Peripheral Bus that was carried out. No event is kept.
#[derive(Drop)]
pub struct SystemWrites {
    some: bool,
    // The events so far.
    history: History<(), Event>,
    ghost some_is: { some ≡ some_writes_system (events_of history.items) },
}

impl SystemWrites {
    /// Makes a sink before the first event of a step.
    #[inline(always)]
    pub fn new() -> Self
        ensures { result.history.items ≡ [] }
    {
        SystemWrites {
            some: false,
            history: History::new(),
        }
    }

    /// Returns whether one of the events so far is such a write.
    #[inline(always)]
    pub fn some(&self) -> bool
        ensures { result ≡ some_writes_system (events_of self.now.history.items) }
    {
        self.some
    }
}

impl Sink for SystemWrites {
    ghost emitted = { λ w. emission w.history.items };

    #[inline(always)]
    fn emit(&mut self, event: Event) {
        let history = self.history.and(&(), &event);
        self.some = or_writes(self.some, &event.what);
        self.history = history;
    }
}

/// Returns whether an event, or one before it, is a write to the Private Peripheral Bus that was carried out.
#[inline(always)]
fn or_writes(before: bool, what: &EventKind) -> bool
    ensures { result ≡ (before || writes_system what.now) }
{
    before || writes_system(what)
}
