//! What follows from the definitions of an access alone.

ghost use Rattle.std.specs.Prelude.{ℕ};
ghost use Rattle.reference.specs.Accesses.{perform};
ghost use Rattle.platform.specs.declared.access.Request.{Request};
ghost use Rattle.platform.specs.Outcomes.{LeavesUnlessDone};
ghost use Rattle.reference.specs.State.{Bus};

/// An access that is refused, by a rule or by the bus, or that stops the machine, leaves memory, the system registers
/// and time as they were.
pub fn refused_access_changes_nothing()
    ensures { (exception : ℕ) (bus : Bus) (request : Request)
        → LeavesUnlessDone (perform exception bus request).performed bus (perform exception bus request).after }
{}
