//! What the debugger answers to `task n`: the steps of a task, and why they ended.

ghost use Rattle.std.specs.Prelude.{◌≡◌, [], ◌∷◌};
ghost use Rattle.debugger.specs.Answers.{task_on, task_piece, task_pieces};
ghost use Rattle.serving.specs.Pieces.{Delivers};

use crate::runs::{StepRoom, write_step};
use crate::texts::task_text;
use debugger_commands::Settings;
use output::{IoError, Out};
use target::{Target, end_of_task, is_instruction};
use task_laws::TaskEnd;

/// Writes why a run of a task ended.
fn put_task_end<T: Target, W: Out>(machine: &T, end: TaskEnd, out: &mut W) -> Result<(), IoError>
    ensures { Delivers (task_piece (T.model machine.now).state end ∷ [])
        (T.model machine.now) (T.model machine.now) (W.writing out.old) (W.writing out.new) result }
{
    let page = task_text(end);
    match out.put_all(page.as_slice()) {
        Ok(()) => Ok(()),
        Err(error) => Err(error),
    }
}

/// Makes at most `steps` steps, as long as they are Instruction steps, and writes their lines and why
/// the run ended.
fn task_on<T: Target, W: Out>(
    machine: &mut T,
    settings: &Settings,
    steps: u32,
    out: &mut W,
) -> Result<(), IoError>
    ensures { Delivers (task_on settings.now steps (T.model machine.old).state)
        (T.model machine.old) (T.model machine.new) (W.writing out.old) (W.writing out.new) result }
{
    let mut room = StepRoom::new();
    let mut left = steps;
    'steps: while left > 0 {
        if !is_instruction(machine.next_kind()) {
            break;
        }
        match write_step(machine, settings, &mut room, out) {
            Ok(_) => {}
            Err(error) => return Err(error),
        }
        left -= 1;
    }
    let end = end_of_task(machine.stop(), left > 0);
    put_task_end(machine, end, out)
}

/// Makes at most `steps` steps of a task, and writes their lines and why the run ended. A machine that
/// has stopped, or on which no task runs, makes none. Breakpoints and conditions don't end it.
pub fn run_task<T: Target, W: Out>(
    machine: &mut T,
    settings: &Settings,
    steps: u32,
    out: &mut W,
) -> Result<(), IoError>
    ensures { Delivers (task_pieces settings.now steps (T.model machine.old).state)
        (T.model machine.old) (T.model machine.new) (W.writing out.old) (W.writing out.new) result }
{
    if machine.stop().is_none() && !machine.is_task() {
        return put_task_end(machine, TaskEnd::NotTask, out);
    }
    task_on(machine, &settings.without_conditions(), steps, out)
}
