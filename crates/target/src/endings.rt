//! How a run of a task goes on, and why it ends.

ghost use Rattle.std.specs.Prelude.{◌≡◌};
ghost use Rattle.target.specs.Endings.{end_of};
ghost use Rattle.task_laws.specs.NextStep.{is_instruction};

use platform::stop::Stop;
use task_laws::{StepKind, TaskEnd};

/// Returns whether a step is an Instruction step.
pub fn is_instruction(kind: Option<StepKind>) -> bool
    ensures { result ≡ is_instruction kind }
{
    matches!(kind, Some(StepKind::Instruction))
}

/// Returns why a run of a task has ended, by the stop of the machine and by whether steps of the limit are
/// left.
pub fn end_of_task(stop: Option<Stop>, left: bool) -> TaskEnd
    ensures { result ≡ end_of stop left }
{
    match stop {
        Some(stop) => TaskEnd::Stopped(stop),
        None if left => TaskEnd::Other,
        None => TaskEnd::Done,
    }
}
