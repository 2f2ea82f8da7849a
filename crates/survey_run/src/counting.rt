//! A sink that counts each event as it comes.

ghost use Rattle.std.specs.Prelude.{◌≡◌, [], ◌||◌};
ghost use Rattle.reference.specs.Step.{step};
ghost use Rattle.survey.specs.RegionLaw.{some_writes_system, writes_system};
ghost use Rattle.survey.specs.declared.step_start.StepStart.{StepStart};
ghost use Rattle.survey.specs.declared.survey.Survey.{Survey};
ghost use Rattle.survey.specs.Surveys.{with_events};
ghost use Rattle.survey_run.specs.Begun.{emission, events_of, no_step_start, no_survey};

use machine::{Decider, Exceptions, KeptCode, Machine, SysTickState};
use output::History;
use platform::event::{Event, EventKind};
use std::marker::{Brand, PhantomData};
use survey::{StepStart, Survey, writes_system};
use trace::sink::Sink;

/// What a step begins with: a moment, and a survey. Contracts alone see it.
pub trait Begun {
    ghost start: { StepStart };

    ghost survey: { Survey };
}

// What stands for them where a call picks none.
impl Begun for Brand {
    ghost start = { no_step_start };

    ghost survey = { no_survey };
}

/// Counts the events of a step that began with `K`, each as it comes. None is kept.
#[derive(Drop)]
pub struct CountedEvents<'a, K: Begun> {
    survey: &'a mut Survey,
    start: &'a StepStart,
    // Whether one of the events so far is a write to the Private Peripheral Bus that was carried out.
    wrote_system: bool,
    begun: PhantomData<K>,
    // The events so far.
    history: History<(), Event>,
    ghost start_is: { start.now ≡ K.start },
    ghost survey_is: { survey.now ≡ with_events K.start K.survey (events_of history.items) },
    ghost wrote_is: { wrote_system ≡ some_writes_system (events_of history.items) },
}

impl<'a, K: Begun> CountedEvents<'a, K> {
    /// Makes a sink before the first event of a step.
    #[inline(always)]
    pub fn new(survey: &'a mut Survey, start: &'a StepStart) -> Self
        requires start { start.now ≡ K.start }
        requires survey { survey.old ≡ K.survey }
        ensures same_survey { result.survey.ghost_name ≡ survey.entry.ghost_name }
        ensures none { result.history.items ≡ [] }
    {
        CountedEvents {
            survey,
            start,
            wrote_system: false,
            begun: PhantomData,
            history: History::new(),
        }
    }

    /// Makes a step of a machine, and counts its events. Returns whether one of them is a write to the Private
    /// Peripheral Bus that was carried out.
    #[inline(always)]
    pub fn take_step<D: Decider, C: KeptCode, L: Exceptions, U: SysTickState>(
        &mut self,
        machine: &mut Machine<D, C, L, U>,
    ) -> bool
        requires { self.old.history.items ≡ [] }
        ensures same_survey { self.new.survey.ghost_name ≡ self.old.survey.ghost_name }
        ensures survey { self.new.survey.now ≡ with_events K.start K.survey (step machine.old.state).events }
        ensures state { machine.new ≡ record machine.old { state = (step machine.old.state).state } }
        ensures wrote { result ≡ some_writes_system (step machine.old.state).events }
    {
        machine.step_with_sink(self);
        self.wrote_system
    }
}

impl<'a, K: Begun> Sink for CountedEvents<'a, K> {
    ghost emitted = { λ c. emission c.survey.ghost_name c.history.items };

    #[inline(always)]
    fn emit(&mut self, event: Event) {
        let history = self.history.and(&(), &event);
        self.survey.take(self.start, event.tick, &event.what);
        self.wrote_system = or_writes(self.wrote_system, &event.what);
        self.history = history;
    }
}

/// Returns whether an event, or one before it, is a write to the Private Peripheral Bus that was carried out.
#[inline(always)]
fn or_writes(before: bool, what: &EventKind) -> bool
    ensures { result ≡ (before || writes_system what.now) }
{
    before || writes_system(what)
}
