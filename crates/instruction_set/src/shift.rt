//! The types for shifts.

/// How a shift moves the bits of a word: `SRType`.
#[derive(Clone, Copy)]
pub enum ShiftType {
    /// Logical shift left.
    Lsl,
    /// Logical shift right.
    Lsr,
    /// Arithmetic shift right: the sign comes in.
    Asr,
    /// Rotate right.
    Ror,
    /// Rotate right with extend: by one place, with the carry as the thirty-third bit.
    Rrx,
}

/// A shift whose amount is in the instruction.
#[derive(Clone, Copy)]
pub struct Shift {
    pub shift_type: ShiftType,
    /// In places, from 0 to 32; 1 for RRX.
    pub amount: u8,
}
