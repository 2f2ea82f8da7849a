//! What holds of every state that a machine can be in: each law is the contract of a function that
//! does nothing.
#![tactic(auto)]

ghost use Rattle.std.specs.Prelude.{List};
ghost use Rattle.instruction_set.specs.declared.instruction.CodedInstruction.{CodedInstruction};
ghost use Rattle.platform.specs.declared.access.Request.{Request};
ghost use Rattle.platform.specs.declared.script.Signal.{Signal};
ghost use Rattle.reference.specs.declared.place.Place.{Place};
ghost use Rattle.platform.specs.Boards.{Described};
ghost use Rattle.platform.specs.Images.{Segment};
ghost use Rattle.reference.specs.Invariant.{Invariant};
ghost use Rattle.platform.specs.SystemInvariant.{IsBoard};
ghost use Rattle.reference.specs.Places.{altered, place, signalled};
ghost use Rattle.reference.specs.Start.{start};
ghost use Rattle.reference.specs.State.{State};
ghost use Rattle.reference.specs.Step.{step};
ghost use Rattle.state_laws.specs.StateLaw.{AccessKeeps, IfGiven, InstructionKeeps, TickKeeps};

/// A state in which a machine starts has the invariant.
pub fn start_gives_the_invariant()
    ensures { (board : Described) (image : List Segment) → IsBoard board → IfGiven Invariant (start board image) }
{}

/// A step keeps the invariant.
pub fn step_keeps_the_invariant()
    ensures { (s : State) → Invariant s → Invariant (step s).state }
{}

/// Outside the entry phase a tick before the end of the clock, an access, and the accesses of an
/// instruction with the registers after it keep the invariant. So the states inside a step from which
/// an entry or a return begins have it.
pub fn phases_keep_the_invariant()
    ensures tick { (s : State) → TickKeeps s }
    ensures access { (s : State) (q : Request) → AccessKeeps s q }
    ensures instruction { (s : State) (i : CodedInstruction) (requests : List Request) → InstructionKeeps s i requests }
{}

/// A value that `place` puts into a state keeps the invariant.
pub fn place_keeps_the_invariant()
    ensures { (s : State) (p : Place) → Invariant s → IfGiven Invariant (place s p) }
{}

/// A value that is put into a register or a word keeps it too where R0 to R12, LR and words of memory are taken
/// in Handler mode and in the entry phase.
pub fn alter_keeps_the_invariant()
    ensures { (s : State) (p : Place) → Invariant s → IfGiven Invariant (altered s p) }
{}

/// A signal between two steps keeps it, in a handler and in the entry phase too.
pub fn signal_keeps_the_invariant()
    ensures { (s : State) (what : Signal) → Invariant s → IfGiven Invariant (signalled s what) }
{}
