//! Places of a board that describes devices.

ghost use Rattle.std.specs.Bool.{Decides};
ghost use Rattle.std.specs.Prelude.{◌≡◌};

/// What a place of a board is.
#[derive(Clone, Copy)]
pub enum PlaceKind {
    Flash,
    /// RAM, or the second RAM where a board has one.
    Ram,
    /// A device that the board describes, or several side by side.
    Device,
    /// The device window, where no device has it.
    Window,
}

/// Neighbouring addresses of a board that are of one kind, from the first to the last, inclusive.
#[derive(Clone, Copy)]
pub struct BoardPlace {
    pub kind: PlaceKind,
    pub first: u32,
    pub last: u32,
}

/// Neighbouring addresses of one kind, or of none.
#[derive(Clone, Copy)]
pub(crate) struct Part {
    pub(crate) kind: Option<PlaceKind>,
    pub(crate) first: u32,
    pub(crate) last: u32,
}

impl PlaceKind {
    /// Returns whether two places are of the same kind.
    pub fn is_same(self, other: PlaceKind) -> bool
        ensures { Decides result (self ≡ other) }
    {
        match self {
            PlaceKind::Flash => matches!(other, PlaceKind::Flash),
            PlaceKind::Ram => matches!(other, PlaceKind::Ram),
            PlaceKind::Device => matches!(other, PlaceKind::Device),
            PlaceKind::Window => matches!(other, PlaceKind::Window),
        }
    }
}
