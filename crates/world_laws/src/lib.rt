//! What a world has written has no effect on the code of a world that is apart from it. Each law is the contract of a
//! function that does nothing but call the laws that it follows from.
#![tactic(auto)]

ghost use Rattle.std.specs.Prelude.{ℕ, List};
ghost use Rattle.access_map.specs.declared.world.World.{World};
ghost use Rattle.platform.specs.Boards.{Described, Numbers, blank};
ghost use Rattle.platform.specs.Images.{Segment};
ghost use Rattle.reference.specs.State.{State};
ghost use Rattle.task_laws.specs.declared.task.TaskEnd.{TaskEnd as End};
ghost use Rattle.world_laws.specs.ReachedLaw.{BeginsIn, CountedLaw, HaveRamsOf, KeepsRams};
ghost use Rattle.world_laws.specs.WorldLaw.{ApartLaw, HasRamsOf, UnseenLaw, WorldEndsLaw, WorldRunLaw, WritesLaw};

use state_laws::{start_gives_the_invariant, step_keeps_the_invariant};
use step_laws::board_stays;
use task_laws::{runs_of_tasks_end_in_one_way, tasks_are_kept_apart};

/// A run of unprivileged code in a world, of Instruction steps, changes no byte of RAM that the world may not write: a
/// state with the RAM before it and the same state with the RAM after it agree in everything but bytes that it may.
pub fn worlds_write_what_they_may()
    ensures { (v : World) (u s : State) (n : ℕ) → WritesLaw v u s n }
{
    tasks_are_kept_apart();
}

/// The memory before a start has the RAMs of its board: each byte that a store may change is in one of them.
pub fn boards_have_their_rams()
    ensures { (board : Numbers) → HasRamsOf board (blank board) }
{}

/// A step keeps the RAMs of a board, so each state of a run on a board has them.
pub fn runs_keep_their_rams()
    ensures step { (board : Numbers) (s : State) → KeepsRams board s }
    ensures run { (board : Described) (image : List Segment) (first : State)
        → BeginsIn board image first → HaveRamsOf board.numbers first }
{
    boards_have_their_rams();
    board_stays();
}

/// Each state from which `marm tasks` counts the next step for a world has what the laws of worlds need of a state in
/// that world: the RAMs of the board, the invariant, and unprivileged code that runs in the world, with an Instruction
/// step next.
pub fn counted_states_are_of_their_worlds()
    ensures { (board : Described) (image : List Segment) (first : State) (steps n : ℕ) (w : World)
        → BeginsIn board image first → CountedLaw board.numbers first steps n w }
{
    runs_keep_their_rams();
    start_gives_the_invariant();
    step_keeps_the_invariant();
}

/// Bytes of RAM that a world may write look the same to the code of a world that is apart from it, whatever they are.
pub fn worlds_apart_see_no_writes()
    ensures { (board : Numbers) (v w : World) (s t : State) → UnseenLaw board v w s t }
{}

/// A run of unprivileged code in a world has no effect on one in a world that is apart from it: with the RAM that the
/// first one left, the second has the same events, and its states look the same to its code.
pub fn worlds_apart_do_not_interfere()
    ensures { (board : Numbers) (v w : World) (u s : State) (m n : ℕ) → ApartLaw board v w u s m n }
{
    worlds_write_what_they_may();
    worlds_apart_run_alike();
}

/// What a world has written to RAM has no effect on the unprivileged code of a world that is apart from it: as long as
/// each step is an Instruction step, the events are the same, and the states look the same to that code after them.
pub fn worlds_apart_run_alike()
    ensures { (board : Numbers) (v w : World) (s t : State) (n : ℕ) → WorldRunLaw board v w s t n }
{
    tasks_are_kept_apart();
}

/// Nor on how a run of a task in that world ends: after how many steps, for which reason, and with which events.
pub fn worlds_apart_end_alike()
    ensures { (n : ℕ) (board : Numbers) (v w : World) (s t : State) (a b : ℕ) (x y : End)
        → WorldEndsLaw n board v w s t a b x y }
{
    runs_of_tasks_end_in_one_way();
}
