//! The instructions that compute: the family, one variant for each shape of operands, and then the operands, one struct
//! for each shape. Encodings of one operation whose operands have the same shape have the same variant. Immediates are
//! expanded, as the manual's decode pseudocode computes them (`imm32`).

use crate::registers::Register;
use crate::shift::{Shift, ShiftType};
use crate::size::Size;

/// The instructions that compute from registers and make no access.
#[derive(Clone, Copy)]
pub enum DataProcessing {
    /// A `DataOperation` of a register and a number.
    DataImmediate(DataImmediate),
    /// The same operations of two registers, the second shifted.
    DataRegister(DataRegister),
    /// A `MoveOperation` of a number.
    MoveImmediate(MoveImmediate),
    /// A `MoveOperation` of a shifted register; so LSL, LSR, ASR and ROR by a number, and RRX, too.
    MoveRegister(MoveRegister),
    /// MOVT.
    MoveTop(MoveTop),
    /// A `Comparison` of a register and a number.
    CompareImmediate(CompareImmediate),
    /// The same comparisons of two registers, the second shifted.
    CompareRegister(CompareRegister),
    /// LSL, LSR, ASR and ROR by a register.
    ShiftByRegister(ShiftByRegister),
    /// ADR.
    Address(Address),
    /// MUL.
    Multiply(Multiply),
    /// A product and an addend: an `Accumulation`.
    MultiplyAccumulate(MultiplyAccumulate),
    /// SMULL, UMULL, SMLAL and UMLAL.
    MultiplyLong(MultiplyLong),
    /// SDIV and UDIV.
    Divide(Divide),
    /// SSAT and USAT.
    Saturate(Saturate),
    /// SBFX and UBFX.
    ExtractField(ExtractField),
    /// BFI.
    InsertField(InsertField),
    /// BFC.
    ClearField(ClearField),
    /// SXTB, SXTH, UXTB and UXTH.
    Extend(Extend),
    /// A `Rearrangement` of the bits of a register.
    Rearrange(Rearrange),
}

// ---- two operands, moves, comparisons, shifts, addresses

/// When an instruction sets flags: `setflags`.
#[derive(Clone, Copy)]
pub enum FlagSetting {
    Never,
    /// Unless it is in an IT block.
    OutsideBlock,
    Always,
}

/// The operation of a data-processing instruction on its two operands.
#[derive(Clone, Copy)]
pub enum DataOperation {
    /// AND.
    And,
    /// BIC: AND with the second operand inverted.
    BitClear,
    /// ORR.
    Or,
    /// ORN: ORR with the second operand inverted.
    OrNot,
    /// EOR.
    ExclusiveOr,
    /// ADD.
    Add,
    /// ADC.
    AddWithCarry,
    /// SBC.
    SubtractWithCarry,
    /// SUB.
    Subtract,
    /// RSB: the second operand less the first.
    ReverseSubtract,
}

/// The operation whose flags a comparison sets.
#[derive(Clone, Copy)]
pub enum Comparison {
    /// TST: as AND.
    Test,
    /// TEQ: as EOR.
    TestEquivalence,
    /// CMP: as SUB.
    Compare,
    /// CMN: as ADD.
    CompareNegative,
}

/// The operation of a move on its operand.
#[derive(Clone, Copy)]
pub enum MoveOperation {
    /// MOV.
    Move,
    /// MVN: every bit inverted.
    MoveNot,
}

/// A number as an operand, and the carry of its expansion.
#[derive(Clone, Copy)]
pub struct Immediate {
    pub value: u32,
    /// None where the expansion has no carry: a logical operation or a move then leaves C as it is.
    pub carry: Option<bool>,
}

/// A register as an operand, shifted.
#[derive(Clone, Copy)]
pub struct ShiftedRegister {
    pub register: Register,
    pub shift: Shift,
}

/// A destination, a register and a number.
#[derive(Clone, Copy)]
pub struct DataImmediate {
    pub operation: DataOperation,
    pub flags: FlagSetting,
    pub destination: Register,
    pub first: Register,
    pub second: Immediate,
}

/// A destination and two registers, the second shifted.
#[derive(Clone, Copy)]
pub struct DataRegister {
    pub operation: DataOperation,
    pub flags: FlagSetting,
    pub destination: Register,
    pub first: Register,
    pub second: ShiftedRegister,
}

/// The operands of MOV and MVN (immediate).
#[derive(Clone, Copy)]
pub struct MoveImmediate {
    pub operation: MoveOperation,
    pub flags: FlagSetting,
    pub destination: Register,
    pub source: Immediate,
}

/// The operands of MOV and MVN (register), and of shifts by a number.
#[derive(Clone, Copy)]
pub struct MoveRegister {
    pub operation: MoveOperation,
    pub flags: FlagSetting,
    pub destination: Register,
    pub source: ShiftedRegister,
}

/// The operands of MOVT.
#[derive(Clone, Copy)]
pub struct MoveTop {
    pub destination: Register,
    pub value: u16,
}

/// A register and a number set the flags.
#[derive(Clone, Copy)]
pub struct CompareImmediate {
    pub operation: Comparison,
    pub first: Register,
    pub second: Immediate,
}

/// Two registers, the second shifted, set the flags.
#[derive(Clone, Copy)]
pub struct CompareRegister {
    pub operation: Comparison,
    pub first: Register,
    pub second: ShiftedRegister,
}

/// A register shifted by the low byte of another.
#[derive(Clone, Copy)]
pub struct ShiftByRegister {
    pub shift_type: ShiftType,
    pub flags: FlagSetting,
    pub destination: Register,
    pub source: Register,
    pub amount: Register,
}

/// The operands of ADR.
#[derive(Clone, Copy)]
pub struct Address {
    pub destination: Register,
    /// Added modulo 2^32: a negative offset is its two's complement.
    pub offset: u32,
}

// ---- multiplication, division, fields

/// The low word of a product.
#[derive(Clone, Copy)]
pub struct Multiply {
    pub flags: FlagSetting,
    pub destination: Register,
    pub first: Register,
    pub second: Register,
}

/// What becomes of a product and an addend.
#[derive(Clone, Copy)]
pub enum Accumulation {
    /// MLA: their sum.
    Add,
    /// MLS: the addend less the product.
    Subtract,
}

/// A product and an addend.
#[derive(Clone, Copy)]
pub struct MultiplyAccumulate {
    pub operation: Accumulation,
    pub destination: Register,
    pub first: Register,
    pub second: Register,
    pub addend: Register,
}

/// A product of 64 bits.
#[derive(Clone, Copy)]
pub struct MultiplyLong {
    pub signed: bool,
    /// Whether it is added to what the two destinations hold.
    pub accumulates: bool,
    pub low: Register,
    pub high: Register,
    pub first: Register,
    pub second: Register,
}

/// A quotient.
#[derive(Clone, Copy)]
pub struct Divide {
    pub signed: bool,
    pub destination: Register,
    pub dividend: Register,
    pub divisor: Register,
}

/// A shifted value, taken to the nearest of a range.
#[derive(Clone, Copy)]
pub struct Saturate {
    /// Whether the range is a signed one.
    pub signed: bool,
    pub destination: Register,
    /// How many bits the range has: 1 to 32 if signed, else 0 to 31.
    pub bits: u8,
    pub source: ShiftedRegister,
}

/// A bit field of a register, extended to a word.
#[derive(Clone, Copy)]
pub struct ExtractField {
    pub signed: bool,
    pub destination: Register,
    pub source: Register,
    /// The field's lowest bit.
    pub low: u8,
    /// How many bits it has, from 1.
    pub width: u8,
}

/// A bit field of a register, set to the low bits of another.
#[derive(Clone, Copy)]
pub struct InsertField {
    pub destination: Register,
    pub source: Register,
    pub low: u8,
    pub width: u8,
}

/// A bit field of a register, cleared.
#[derive(Clone, Copy)]
pub struct ClearField {
    pub destination: Register,
    pub low: u8,
    pub width: u8,
}

/// The low byte or halfword of a rotated register, extended to a word.
#[derive(Clone, Copy)]
pub struct Extend {
    pub signed: bool,
    pub size: Size,
    pub destination: Register,
    pub source: Register,
    /// How far the register is rotated right: 0, 8, 16 or 24.
    pub rotation: u8,
}

/// What is done to the bits of one register.
#[derive(Clone, Copy)]
pub enum Rearrangement {
    /// REV: the bytes of the word in the other order.
    ReverseWord,
    /// REV16: the bytes of each halfword in the other order.
    ReverseHalfwords,
    /// REVSH: the bytes of the low halfword in the other order, sign-extended.
    ReverseSignedHalfword,
    /// RBIT: the bits in the other order.
    ReverseBits,
    /// CLZ: how many 0 bits are above the highest 1 bit; 32 where no bit is 1.
    CountLeadingZeros,
}

/// A register made from the bits of another.
#[derive(Clone, Copy)]
pub struct Rearrange {
    pub operation: Rearrangement,
    pub destination: Register,
    pub source: Register,
}
