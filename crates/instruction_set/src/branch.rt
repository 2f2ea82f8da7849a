//! The instructions that decide where the next one is: the family, one variant for each shape of operands, and then the
//! operands.

use crate::registers::Register;
use crate::size::Size;

/// The instructions that decide where the next one is, and IT.
#[derive(Clone, Copy)]
pub enum Branch {
    /// B.
    Immediate(Offset),
    /// B with a condition.
    Conditional(ConditionalBranch),
    /// BL.
    WithLink(Offset),
    /// BX and BLX.
    Exchange(BranchExchange),
    /// CBZ and CBNZ.
    CompareAndBranch(CompareAndBranch),
    /// TBB and TBH.
    Table(TableBranch),
    /// IT.
    IfThen(IfThen),
}

// ---- operands

/// The operand of B and BL.
#[derive(Clone, Copy)]
pub struct Offset {
    /// In bytes, added modulo 2^32 to the PC as the instruction reads it (its address plus 4).
    pub offset: u32,
}

/// The operands of B with a condition.
#[derive(Clone, Copy)]
pub struct ConditionalBranch {
    /// The four bits of the condition, from 0 to 13.
    pub condition: u8,
    /// In bytes, added modulo 2^32 to the PC as the instruction reads it (its address plus 4).
    pub offset: u32,
}

/// A branch to the address that a register holds.
#[derive(Clone, Copy)]
pub struct BranchExchange {
    /// Whether the address of the next instruction is written to LR.
    pub links: bool,
    pub target: Register,
}

/// A branch forward where a register is 0, or isn't.
#[derive(Clone, Copy)]
pub struct CompareAndBranch {
    /// Whether it is taken where the register isn't 0.
    pub nonzero: bool,
    pub register: Register,
    /// In bytes, 0 to 126.
    pub offset: u32,
}

/// A branch forward by twice a number that is read from a table.
#[derive(Clone, Copy)]
pub struct TableBranch {
    /// Of an entry: a byte or a halfword.
    pub size: Size,
    pub base: Register,
    pub index: Register,
}

/// An IT block begins.
#[derive(Clone, Copy)]
pub struct IfThen {
    /// The four bits of the first condition.
    pub condition: u8,
    /// How many instructions the block has and which have the other condition: four bits, not 0.
    pub mask: u8,
}
