//! The level of a line (profile).

ghost use Rattle.std.specs.Prelude.{◌≡◌, ◌<◌};

/// The level of a device's line.
#[derive(Clone, Copy)]
pub struct Level {
    /// The number of the interrupt.
    pub number: u8,
    pub is_high: bool,

    // There are at most 240 external interrupts.
    pub ghost number_is_small: { number < 240 },
}

impl Default for Level {
    /// Returns a line that is low.
    fn default() -> Self {
        Level {
            number: 0,
            is_high: false,
        }
    }
}
