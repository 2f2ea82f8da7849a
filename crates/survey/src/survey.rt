//! A survey, and what one event adds to it.

ghost use Rattle.std.specs.Prelude.{◌≡◌, IfOk, None, replicate};
ghost use Rattle.platform.specs.Events.{byte_of, recorded_fault_of};
ghost use Rattle.survey.specs.Cells.{IsUntouched};
ghost use Rattle.survey.specs.CodeCounts.{IsUncounted};
ghost use Rattle.survey.specs.Surveys.{with_accessed, with_event, with_events, with_other, with_step_begun};
ghost use Rattle.survey.specs.Surveys.{with_step_end};
ghost use Rattle.survey.specs.Timeline.{HasNoTicks};

use crate::cells::Cells;
use crate::code_counts::CodeCounts;
use crate::console::Console;
use crate::counts::{COUNTERS, Counts};
use crate::faults::Faults;
use crate::settings::Settings;
use crate::step_start::StepStart;
use crate::timeline::Timeline;
use crate::touch::Touch;
use platform::access::DecidedAccess;
use platform::board::Layout;
use platform::event::{Event, EventKind};
use platform::map::RAM_BASE;
use std::alloc::{AllocError, Global};

/// What the steps of a machine did so far, counted.
#[derive(Drop)]
pub struct Survey {
    /// How many accesses there were of each rule, privilege, kind and outcome.
    pub counts: Counts,
    /// The settings under which regions decided accesses.
    pub settings: Settings,
    /// The faults that were recorded.
    pub faults: Faults,
    /// Which cells of flash were touched.
    pub flash: Cells,
    /// Which cells of RAM were touched.
    pub ram: Cells,
    /// How many instructions were carried out at each halfword of flash.
    pub flash_code: CodeCounts,
    /// How many instructions were carried out at each halfword of RAM.
    pub ram_code: CodeCounts,
    /// What ran when.
    pub timeline: Timeline,
    /// What the firmware printed.
    pub console: Console,
    /// How many steps were made. It stays at its highest value, 2^64 - 1.
    pub steps: u64,
}

impl Survey {
    /// Returns the survey of no steps, for a machine of these sizes. It takes no more memory as it grows.
    pub fn new(alloc: Global, layout: &Layout) -> Result<Self, AllocError>
        ensures counts { IfOk result (λ survey. survey.counts ≡ replicate COUNTERS 0) }
        ensures settings { IfOk result (λ survey. survey.settings.used ≡ 0) }
        ensures others { IfOk result (λ survey. survey.settings.others ≡ 0) }
        ensures faults { IfOk result (λ survey. survey.faults.used ≡ 0) }
        ensures recorded { IfOk result (λ survey. survey.faults.number ≡ 0) }
        ensures refused { IfOk result (λ survey. survey.faults.refused ≡ None) }
        ensures flash { IfOk result (λ survey. IsUntouched layout.now.flash_base layout.now.flash_size survey.flash) }
        ensures ram { IfOk result (λ survey. IsUntouched RAM_BASE layout.now.ram_size survey.ram) }
        ensures flash_code { IfOk result (λ survey. IsUncounted layout.now.flash_base layout.now.flash_size
            survey.flash_code) }
        ensures ram_code { IfOk result (λ survey. IsUncounted RAM_BASE layout.now.ram_size survey.ram_code) }
        ensures timeline { IfOk result (λ survey. HasNoTicks survey.timeline) }
        ensures console { IfOk result (λ survey. survey.console.number ≡ 0) }
        ensures bytes { IfOk result (λ survey. survey.console.used ≡ 0) }
        ensures steps { IfOk result (λ survey. survey.steps ≡ 0) }
    {
        let counts = Counts::new(alloc)?;
        let settings = Settings::new(alloc)?;
        let faults = Faults::new(alloc)?;
        let flash = Cells::new(alloc, layout.flash_base, layout.flash_size)?;
        let ram = Cells::new(alloc, RAM_BASE, layout.ram_size)?;
        let flash_code = CodeCounts::new(alloc, layout.flash_base, layout.flash_size)?;
        let ram_code = CodeCounts::new(alloc, RAM_BASE, layout.ram_size)?;
        let timeline = Timeline::new(alloc)?;
        let console = Console::new(alloc)?;
        Ok(Survey {
            counts,
            settings,
            faults,
            flash,
            ram,
            flash_code,
            ram_code,
            timeline,
            console,
            steps: 0,
        })
    }

    /// Begins a step at a moment, and counts it.
    #[inline(always)]
    pub fn begin_step(&mut self, start: &StepStart)
        ensures { self.new ≡ with_step_begun start.now self.old }
    {
        self.timeline.take_tick(start);
        self.steps = self.steps.saturating_add(1);
    }

    /// Counts the events of a step that began at a moment.
    pub fn take_events(&mut self, start: &StepStart, events: &[Event])
        ensures { self.new ≡ with_events start.now self.old events.now }
    {
        for event in events {
            self.take(start, event.tick, &event.what);
        }
    }

    /// Counts an event of a step that began at a moment.
    #[inline(always)]
    #[tactic(auto, unfolding(crate::specs::Surveys::with_event))]
    pub fn take(&mut self, start: &StepStart, tick: u64, what: &EventKind)
        ensures { self.new ≡ with_event start.now self.old tick what.now }
    {
        match what.access() {
            Some(decided) => self.take_access(start, decided),
            None => self.take_other(start, tick, what),
        }
    }

    /// Counts an event that is no access: a byte that was printed, a fault that was recorded, or neither.
    #[inline(always)]
    fn take_other(&mut self, start: &StepStart, tick: u64, what: &EventKind)
        ensures { self.new ≡ with_other start.now self.old tick (byte_of what.now) (recorded_fault_of what.now) }
    {
        self.console.take_any_byte(what.byte());
        self.faults
            .take_any_fault(start.pc, tick, what.recorded_fault());
    }

    /// Counts an access of a step that began at a moment.
    #[inline(always)]
    fn take_access(&mut self, start: &StepStart, decided: &DecidedAccess)
        ensures { self.new ≡ with_accessed start.now self.old decided.now }
    {
        self.counts.count(decided);
        self.settings.take_access(&start.mpu, decided);
        self.faults.take_access(decided);
        let touch = Touch::of(decided.access.kind, decided.refused);
        self.flash.take_touch(decided, touch);
        self.ram.take_touch(decided, touch);
        self.flash_code.take_access(start.pc, decided);
        self.ram_code.take_access(start.pc, decided);
        self.timeline.take_access(decided);
    }

    /// Ends a step.
    #[inline(always)]
    pub fn end_step(&mut self)
        ensures { self.new ≡ with_step_end self.old }
    {
        self.faults.end_step();
    }
}
