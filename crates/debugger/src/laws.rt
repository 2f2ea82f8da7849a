//! What follows from the definitions of the answers alone.

ghost use Rattle.std.specs.Prelude.{ℕ, List, Option, Result};
ghost use Rattle.debugger.specs.Laws.{BackLaw, PartsLaw, PlainRunLaw, SaveLaw, ShowLaw, TaskAnswersLaw};
ghost use Rattle.debugger.specs.Laws.{TaskLaw};
ghost use Rattle.debugger.specs.Sessions.{SessionData};
ghost use Rattle.debugger_commands.specs.declared.commands.Command.{Command};
ghost use Rattle.debugger_commands.specs.declared.commands.LineError.{LineError};
ghost use Rattle.debugger_commands.specs.declared.commands.Part.{Part};
ghost use Rattle.debugger_commands.specs.Settings.{Settings};
ghost use Rattle.reference.specs.State.{State};
ghost use Rattle.serving.specs.Conduct.{SessionState};

/// Where a task runs, or the machine has stopped, the answer to `task n` has the lines of Instruction
/// steps, at most n, and then why they ended, as `Machine::run_task` does with the same limit.
pub fn task_answers_say_how_it_ran()
    ensures { (k : Settings) (n : ℕ) (s : State) → TaskLaw k n s }
{}

/// The answers to `task n` from two states that look the same to a task have the same text, and the states
/// after them look the same to it.
pub fn task_has_one_answer()
    ensures { (k : Settings) (n : ℕ) (s t : State) → TaskAnswersLaw k n s t }
{}

/// Where every line is chosen and nothing but breakpoints is set, the answer to `run n` in a session without scripts
/// has each line of each step, and then where the machine is.
pub fn plain_runs_have_all_lines()
    ensures { (k : Settings) (n : ℕ) (s : State) → PlainRunLaw k n s }
{}

/// Where nothing is set that ends a run, the answers to `run a` and then to `run b` are that to `run (a + b)`, but for
/// the end of the first one.
pub fn runs_join()
    ensures { (k : Settings) (a b : ℕ) (s : State) → PartsLaw k a b s }
{}

/// A command that shows a part of the machine changes neither its state nor the settings.
pub fn showing_changes_nothing()
    ensures { (k : Settings) (s : State) (saved : List (Option State)) (asked : Result Command LineError) (what : Part)
        → ShowLaw k s saved asked what }
{}

/// `save k` leaves the state of the machine.
pub fn saving_leaves_the_state()
    ensures { (t : SessionState SessionData) (slot : ℕ) → SaveLaw t slot }
{}

/// After `save k`, and any commands that don't save in that slot, `back k` goes back to the state that was saved.
pub fn back_is_to_what_was_saved()
    ensures { (t : SessionState SessionData) (slot : ℕ) (between : List (Result Command LineError))
        → BackLaw t slot between }
{}
