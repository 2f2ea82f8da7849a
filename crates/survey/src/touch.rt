//! What an access does to the memory that it touches.

ghost use Rattle.std.specs.Prelude.{◌≡◌, ◌<◌};
ghost use Rattle.survey.specs.Cells.{touch_number, touch_of};

use platform::access::{Cause, Kind};

/// What an access does to the memory that it touches.
#[derive(Clone, Copy)]
pub enum Touch {
    Read,
    Written,
    /// An instruction was fetched from it.
    Executed,
    /// The access was refused, and nothing was done.
    Refused,
}

impl Touch {
    /// Returns what an access does to the memory that it touches; None for a probe that is granted, which
    /// writes nothing.
    #[inline(always)]
    pub fn of(kind: Kind, refused: Option<Cause>) -> Option<Self>
        ensures { result ≡ touch_of kind refused }
    {
        match (refused, kind) {
            (Some(_), _) => Some(Touch::Refused),
            (None, Kind::Fetch) => Some(Touch::Executed),
            (None, Kind::Load | Kind::Pop | Kind::Vector) => Some(Touch::Read),
            (None, Kind::Store | Kind::Push) => Some(Touch::Written),
            (None, Kind::Probe) => None,
        }
    }

    /// Returns its number, from 0 to 3.
    #[inline(always)]
    pub fn number(self) -> usize
        ensures value { result ≡ touch_number self }
        ensures within { result < 4 }
    {
        match self {
            Touch::Read => 0,
            Touch::Written => 1,
            Touch::Executed => 2,
            Touch::Refused => 3,
        }
    }
}
