//! An instruction, of the family that says what it does; and what a halfword, or a pair of them, decodes to.

ghost use Rattle.std.specs.Prelude.{◌≡◌};
ghost use Rattle.instruction_set.specs.Sizes.{instruction_bytes};

use crate::branch::Branch;
use crate::data_processing::DataProcessing;
use crate::load_store::{Exclusive, LoadStore, LoadStoreMultiple};
use crate::system::System;
use crate::unpredictable::UnpredictableCase;

/// The decoding of a halfword, or of a pair of them.
#[derive(Clone, Copy)]
pub enum Decoded {
    Instr(CodedInstruction),
    /// The manual calls it UNDEFINED, or no row has it: UsageFault UNDEFINSTR.
    Undefined,
    /// A coprocessor's instruction: UsageFault NOCP.
    NoCoprocessor,
    /// A row that is UNPREDICTABLE: where it may be in an IT block, and its first cause. The stop is
    /// `Encoding` if that is the cause, else `ItBlock` if the position isn't allowed, else the
    /// cause.
    Unpredictable(ItPosition, UnpredictableCase),
}

/// An instruction as a row decodes to it.
#[derive(Clone, Copy)]
pub struct CodedInstruction {
    pub instruction: Instruction,
    pub length: InstructionLength,
    pub place: ItPosition,
}

/// How long an instruction is.
#[derive(Clone, Copy)]
pub enum InstructionLength {
    /// One halfword.
    Short,
    /// Two halfwords.
    Long,
}

impl InstructionLength {
    /// Returns the number of bytes: 2 or 4.
    #[inline]
    pub fn bytes(self) -> u32
        ensures { result ≡ instruction_bytes self }
    {
        match self {
            InstructionLength::Short => 2,
            InstructionLength::Long => 4,
        }
    }
}

/// Where an instruction may be in an IT block.
#[derive(Clone, Copy)]
pub enum ItPosition {
    Anywhere,
    /// As its last instruction alone, since it writes the PC.
    LastOnly,
    Never,
}

/// An instruction with its operands, in the family that says what it does.
#[derive(Clone, Copy)]
pub enum Instruction {
    DataProcessing(DataProcessing),
    LoadStore(LoadStore),
    LoadStoreMultiple(LoadStoreMultiple),
    Exclusive(Exclusive),
    Branch(Branch),
    System(System),
}
