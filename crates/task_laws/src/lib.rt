//! Tasks: what the next step is, what a task is, what it sees and what it may change. Each law is the
//! contract of a function that does nothing.
#![tactic(auto)]

mod next_step;
mod task;

ghost use Rattle.std.specs.Prelude.{ℕ};
ghost use Rattle.instruction_set.specs.Registers.{Registers};
ghost use Rattle.platform.specs.declared.access.Request.{Request};
ghost use Rattle.reference.specs.State.{State};
ghost use Rattle.task_laws.specs.TaskLaw.{AccessLaw, EndsAlike, EndsInOneWay, RequestsLaw, RunLaw, StepLaw};
ghost use Rattle.task_laws.specs.TaskLaw.{TwoRunsLaw, UnprivilegedRunLaw};
ghost use Rattle.task_laws.specs.declared.task.TaskEnd.{TaskEnd as End};

pub use next_step::StepKind;
pub use task::TaskEnd;

/// An access of unprivileged code, of a kind and at an address that an instruction of such code uses, has
/// the same answer in two states that look the same to a task. They look the same after it, and it changes
/// no byte that unprivileged code may not store (ARM DDI 0403, MemA[] and ValidateAddress()). Each access
/// that an instruction of unprivileged code makes, and each of its fetches, is such an access.
pub fn access_of_a_task()
    ensures access { (s t : State) (q : Request) → AccessLaw s t q }
    ensures requests { (r : Registers) → RequestsLaw r }
{}

/// An Instruction step of a task has the same events in two states that look the same to the task, and
/// they look the same after it. It changes no byte that the task may not store, and leaves a task (ARM DDI
/// 0403, "Privileged and unprivileged execution" and "Protected Memory System Architecture").
pub fn step_of_a_task()
    ensures { (s t : State) → StepLaw s t }
{}

/// As long as each step of a task is an Instruction step, so is each step from any state that looks the
/// same to it. The events are the same, and the states look the same after them. In each run no byte that
/// the task may not store differs from before. Likewise for unprivileged code in Thread mode, outside the
/// entry phase, whether or not the regions decide.
pub fn tasks_are_kept_apart()
    ensures task { (s t : State) (n : ℕ) → RunLaw s t n }
    ensures unprivileged { (s t : State) (n : ℕ) → UnprivilegedRunLaw s t n }
{}

/// A run of a task ends alike from two states that look the same to the task: after as many steps, for
/// the same reason, with the same events.
pub fn runs_of_tasks_end_alike()
    ensures { (n : ℕ) (s t : State) (steps : ℕ) (end : End) → EndsAlike n s t steps end }
{}

/// A run of Instruction steps, at most n of them, ends in one way: after one number of steps and for one
/// reason. So two such runs from states that look the same to a task make equally many steps, with equal
/// events, end for the same reason, and the states after them look the same to it.
pub fn runs_of_tasks_end_in_one_way()
    ensures one_way { (n : ℕ) (s : State) (a b : ℕ) (x y : End) → EndsInOneWay n s a b x y }
    ensures two_states { (n : ℕ) (s t : State) (a b : ℕ) (x y : End) → TwoRunsLaw n s t a b x y }
{}
