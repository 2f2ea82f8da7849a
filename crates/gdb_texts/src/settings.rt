//! The settings of a session, which `monitor` changes.

ghost use Rattle.std.specs.Prelude.{◌≡◌};
ghost use Rattle.gdb_texts.specs.Settings.{first_settings, max_steps, settings_after, steps_in, with_condition};

use crate::monitor::Monitor;
use debugger_commands::{Condition, LineSelection};

/// The most steps of a run of a client that can't interrupt it.
const BOUNDED_RUN: u32 = 50_000_000;

/// Which lines the steps have, and what ends a run.
#[derive(Clone, Copy)]
pub struct Settings {
    /// Which lines the steps have.
    pub selection: LineSelection,
    /// Whether lines tell why a run ended.
    pub has_lines: bool,
    /// Whether a run ends at a refused access.
    pub refused: bool,
    /// Whether a run ends at a recorded fault.
    pub faults: bool,
    /// Whether a run ends where a handler is entered.
    pub exceptions: bool,
    /// Whether a step goes over handlers and other tasks.
    pub steps_over: bool,
    /// The most steps of a run, 0 for no limit; None before the first `budget`.
    pub budget: Option<u32>,
}

/// Returns the settings before the first command.
pub fn first_settings() -> Settings
    ensures { result ≡ first_settings }
{
    Settings {
        selection: LineSelection::Console,
        has_lines: true,
        refused: false,
        faults: false,
        exceptions: false,
        steps_over: false,
        budget: None,
    }
}

/// Returns the settings with whether a run ends at something.
fn with_condition(settings: Settings, what: Condition, on: bool) -> Settings
    ensures { result ≡ with_condition settings what on }
{
    let mut changed = settings;
    match what {
        Condition::Refused => changed.refused = on,
        Condition::Faults => changed.faults = on,
        Condition::Exceptions => changed.exceptions = on,
    }
    changed
}

/// Returns the settings after a command.
pub fn settings_after(settings: Settings, command: Monitor) -> Settings
    ensures { result ≡ settings_after settings command }
{
    let mut changed = settings;
    match command {
        Monitor::Trace(selection) => changed.selection = selection,
        Monitor::Lines(on) => changed.has_lines = on,
        Monitor::Stop(what, on) => changed = with_condition(settings, what, on),
        Monitor::Step(over) => changed.steps_over = over,
        Monitor::Budget(steps) => changed.budget = Some(steps),
        Monitor::Help
        | Monitor::Explain(_, _, _)
        | Monitor::Regions
        | Monitor::State
        | Monitor::Next
        | Monitor::History
        | Monitor::Place(_)
        | Monitor::Restart
        | Monitor::Why => {}
    }
    changed
}

/// Returns the most steps of a budget.
fn steps_in(budget: Option<u32>, is_gdb: bool) -> Option<u32>
    ensures { result ≡ steps_in budget is_gdb }
{
    match budget {
        None => if is_gdb { None } else { Some(BOUNDED_RUN) },
        Some(steps) => if steps == 0 { None } else { Some(steps) },
    }
}

/// Returns the most steps of a run, None where there is no limit.
pub fn max_steps(settings: Settings, is_gdb: bool) -> Option<u32>
    ensures { result ≡ max_steps settings is_gdb }
{
    steps_in(settings.budget, is_gdb)
}
