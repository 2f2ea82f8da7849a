//! The types for the core registers.

ghost use Rattle.std.specs.Prelude.{◌≡◌, ◌<◌};

use crate::size::Size;
use std::marker::Model;

/// The number of a core register, from 0 to 15: 13 is SP, 14 is LR, 15 is PC.
#[derive(Clone, Copy)]
pub struct Register {
    number: u8,
}

impl Model for Register {
    ghost use Rattle.std.specs.Prelude.{ℕ, ◌<◌};

    ghost Value = { ℕ };

    ghost view = { λ r. r.number };

    ghost invariant = { λ r. r.number < 16 };

    ghost inverse = { λ n. record { number = n } };
}

impl Register {
    /// The stack pointer.
    pub const SP: Register = Register { number: 13 };

    /// The program counter.
    pub const PC: Register = Register { number: 15 };

    /// Returns the register of this number.
    pub const fn new(number: u8) -> Self
        requires { number < 16 }
        ensures { result ≡ number }
    {
        Register { number }
    }

    /// Returns the number of the register, from 0 to 15.
    pub fn number(self) -> u8
        ensures value { result ≡ self }
        ensures small { result < 16 }
    {
        self.number
    }
}

/// A set of core registers, as a bit for each: `registers<15:0>`.
#[derive(Clone, Copy)]
pub struct RegisterList {
    bits: u16,
}

impl Model for RegisterList {
    ghost use Rattle.std.specs.Prelude.{ℕ};

    ghost Value = { ℕ };

    ghost view = { λ l. l.bits };

    ghost inverse = { λ n. record { bits = n } };
}

impl RegisterList {
    /// Returns the list of the registers whose bits are set.
    pub const fn new(bits: u16) -> Self
        ensures { result ≡ bits }
    {
        RegisterList { bits }
    }

    /// Returns the bits of the list, bit n for register n.
    pub const fn bits(self) -> u16
        ensures { result ≡ self }
    {
        self.bits
    }
}

/// The flags of the Application Program Status Register.
#[derive(Clone, Copy)]
pub struct Flags {
    /// N: the result, read as signed, is negative.
    pub negative: bool,
    /// Z: the result is 0.
    pub zero: bool,
    /// C: the carry out of a sum, or the last bit shifted out.
    pub carry: bool,
    /// V: the signed sum doesn't fit in 32 bits.
    pub overflow: bool,
    /// Q: a saturating instruction changed its value.
    pub saturated: bool,
}

/// What a load exclusive marks for the store exclusive after it: the local monitor in the Exclusive
/// Access state.
#[derive(Clone, Copy)]
pub struct Marked {
    pub address: u32,
    pub size: Size,
}
