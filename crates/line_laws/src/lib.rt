//! What holds of the lines of devices in every state that a machine can be in: each law is the contract of a function
//! that does nothing.
#![tactic(auto)]

ghost use Rattle.std.specs.Prelude.{List};
ghost use Rattle.line_laws.specs.LineLaw.{IsSettled};
ghost use Rattle.platform.specs.declared.script.Signal.{Signal};
ghost use Rattle.platform.specs.Boards.{Described};
ghost use Rattle.platform.specs.Images.{Segment};
ghost use Rattle.reference.specs.declared.place.Place.{Place};
ghost use Rattle.reference.specs.Invariant.{Invariant};
ghost use Rattle.reference.specs.Places.{altered, place, signalled};
ghost use Rattle.reference.specs.Start.{start};
ghost use Rattle.reference.specs.State.{State};
ghost use Rattle.reference.specs.Step.{step};
ghost use Rattle.state_laws.specs.StateLaw.{IfGiven};
ghost use Rattle.platform.specs.Wiring.{AreWired};

/// Where the devices of a board and its script go together, the lines of devices have settled in the state in which a
/// machine starts.
pub fn start_settles_the_lines()
    ensures { (board : Described) (image : List Segment) → AreWired board.devices board.script
        → IfGiven IsSettled (start board image) }
{}

/// A step keeps them settled.
pub fn step_keeps_the_lines()
    ensures { (s : State) → Invariant s → IsSettled s → IsSettled (step s).state }
{}

/// A value or a signal that comes from outside keeps them settled.
pub fn outside_keeps_the_lines()
    ensures place { (s : State) (p : Place) → Invariant s → IsSettled s → IfGiven IsSettled (place s p) }
    ensures alter { (s : State) (p : Place) → Invariant s → IsSettled s → IfGiven IsSettled (altered s p) }
    ensures signal { (s : State) (what : Signal) → Invariant s → IsSettled s → IfGiven IsSettled (signalled s what) }
{}
