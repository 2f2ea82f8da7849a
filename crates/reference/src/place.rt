//! What may be placed into a machine from outside, in Thread mode, between steps.

/// A place and the value for it.
#[derive(Clone, Copy)]
pub enum Place {
    /// The core register of this number: 13 is the stack pointer in use, 15 the PC.
    Reg(u8, u32),
    /// The special register of this number, as MSR numbers them.
    Special(u8, u32),
    /// The word at this address.
    Word(u32, u32),
}
