//! The cases that the manual calls UNPREDICTABLE.

/// The cases that stop the machine: UNPREDICTABLE, or a stored value that is UNKNOWN.
#[derive(Clone, Copy, PartialEq, Eq)]
pub enum UnpredictableCase {
    /// A bit that should be 0 or should be 1 isn't.
    Encoding,
    /// An instruction where an IT block doesn't allow it; IT with condition 1111, or 1110 and several mask bits.
    ItBlock,
    /// No register in the list of a 16-bit encoding, or fewer than two in that of a 32-bit one.
    FewRegisters,
    /// Operands that the row doesn't allow: most often a register; also CPS without I and F, and LDRD
    /// (literal) with write-back.
    Registers,
    /// STM of 16 bits whose base is in its list and isn't the lowest there: the value stored is UNKNOWN.
    StoredBase,
    /// A modified immediate that repeats a byte of 0.
    Immediate,
    /// A bit field that ends above bit 31, or before it begins.
    BitField,
    /// MRS or MSR of a special register that isn't there, or MSR with a mask other than 10.
    SpecialRegister,
    /// LDR to the PC from an address that isn't a multiple of 4.
    LoadPc,
    /// LDRD (literal) where the PC isn't a multiple of 4.
    LiteralPc,
    /// A write to RNR or RBAR that selects a missing region, or one to RASR that enables a region with SIZE
    /// below 4, with AP 100, or with SRD not 0 and SIZE below 7.
    MpuRegion,
    /// MPU_CTRL.HFNMIENA without ENABLE.
    MpuControl,
    /// ICSR with a set bit and its clear bit written together.
    Icsr,
    /// An EXC_RETURN whose reserved bits aren't all ones.
    ExceptionReturn,
    /// A popped return address that is odd.
    PoppedPc,
}
