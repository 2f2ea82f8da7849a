//! The types for a board's script: what happens on its interrupts, and when.

ghost use Rattle.std.specs.Prelude.{◌≡◌, ◌<◌};

use crate::exception::MAX_INTERRUPTS;
pub use devices::Poke;
use std::marker::Model;

/// The number of an external interrupt, from 0 to 239: IRQ of the manual, whose exception is
/// 16 above it.
#[derive(Clone, Copy)]
pub struct InterruptNumber {
    number: u8,
}

impl Model for InterruptNumber {
    ghost use Rattle.std.specs.Prelude.{ℕ, ◌<◌};
    ghost use Rattle.platform.specs.declared.exception.TheConstants.{MAX_INTERRUPTS};

    ghost Value = { ℕ };

    ghost view = { λ l. l.number };

    ghost invariant = { λ l. l.number < MAX_INTERRUPTS };

    ghost inverse = { λ n. record { number = n } };
}

impl InterruptNumber {
    /// Returns the interrupt of this number.
    pub const fn new(number: u8) -> Self
        requires { number < MAX_INTERRUPTS }
        ensures { result ≡ number }
    {
        InterruptNumber { number }
    }

    /// Returns the number of the interrupt, from 0 to 239.
    pub fn number(self) -> u8
        ensures value { result ≡ self }
        ensures small { result < MAX_INTERRUPTS }
    {
        self.number
    }
}

/// An event of a script.
#[derive(Clone, Copy)]
pub struct ScriptedEvent {
    /// The tick that it applies in, from 1.
    pub at: u64,
    pub what: Signal,
}

/// What happens outside of the core.
#[derive(Clone, Copy)]
pub enum Signal {
    /// The interrupt goes high, and its exception becomes pending.
    Rise(InterruptNumber),
    /// The interrupt goes low, and its exception stays as it is.
    Fall(InterruptNumber),
    /// The interrupt's exception becomes pending, and the interrupt stays as it is.
    Pulse(InterruptNumber),
    /// NMI becomes pending.
    Nmi,
    /// A word of a device gets a content.
    Poke(Poke),
}
