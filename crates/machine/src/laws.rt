//! The laws of a step, of the state and of tasks. Each is the contract of a function that does nothing,
//! over the definitions that the contracts of this crate name.

ghost use Rattle.std.specs.Prelude.{ℕ};
ghost use Rattle.machine.specs.TaskRunLaw.{TaskRun, TaskRunsLaw};

pub use state_laws::{
    alter_keeps_the_invariant, phases_keep_the_invariant, place_keeps_the_invariant,
    signal_keeps_the_invariant, start_gives_the_invariant, step_keeps_the_invariant,
};
pub use step_laws::{
    a_step_takes_a_tick, accesses_of_a_step, board_stays, frame_gives_registers_back,
    regions_change_by_writes, return_gives_registers_back, signals_are_events,
    words_of_devices_change_by_accesses_and_pokes,
};
pub use task_laws::{
    access_of_a_task, runs_of_tasks_end_alike, runs_of_tasks_end_in_one_way, step_of_a_task,
    tasks_are_kept_apart,
};

/// Two calls of `Machine::run_task` with the same limit, of machines whose states look the same to the
/// task, have the same answer where no writer fails: they make equally many steps and write the same
/// text, and the states after them look the same to the task.
pub fn run_task_has_one_answer()
    ensures { (n : ℕ) (one two : TaskRun) → TaskRunsLaw n one two }
{}
