//! What a row says: an instruction, or the cause for which it is UNPREDICTABLE.

ghost use Rattle.std.specs.Prelude.{◌≡◌, ◌==◌};
ghost use Rattle.instruction_set.specs.declared.instruction.ItPosition.TheVariants.{Anywhere};
ghost use Rattle.instruction_set.specs.declared.unpredictable.UnpredictableCase.TheVariants.{Registers};
ghost use Rattle.instruction_set.specs.Rows.{as_printed, short, long, placed, last_only_if, unless, is_bad};

use instruction_set::instruction::{
    CodedInstruction, Decoded, Instruction, InstructionLength, ItPosition,
};
use instruction_set::registers::Register;
use instruction_set::unpredictable::UnpredictableCase;

/// Returns an instruction of one halfword at any position in an IT block.
#[inline]
pub fn short(instruction: Instruction) -> Decoded
    ensures { result ≡ short instruction }
{
    placed(InstructionLength::Short, ItPosition::Anywhere, instruction)
}

/// Returns an instruction of two halfwords at any position in an IT block.
#[inline]
pub fn long(instruction: Instruction) -> Decoded
    ensures { result ≡ long instruction }
{
    placed(InstructionLength::Long, ItPosition::Anywhere, instruction)
}

/// Returns whether a register is SP or PC: `BadReg()`.
#[inline]
pub fn is_bad(register: Register) -> bool
    ensures { result ≡ is_bad register }
{
    register.number() == 13 || register.number() == 15
}

/// Returns an instruction with the length of its encoding and its position in an IT block.
#[inline]
pub fn placed(length: InstructionLength, place: ItPosition, instruction: Instruction) -> Decoded
    ensures { result ≡ placed length place instruction }
{
    Decoded::Instr(CodedInstruction {
        instruction,
        length,
        place,
    })
}

/// Returns where in an IT block an instruction may be: only last if it writes the PC.
#[inline]
pub fn last_only_if(writes_pc: bool) -> ItPosition
    ensures { result ≡ last_only_if writes_pc }
{
    if writes_pc {
        ItPosition::LastOnly
    } else {
        ItPosition::Anywhere
    }
}

/// Returns what a row says unless it is UNPREDICTABLE for that cause.
#[inline]
pub fn unless(
    refused: bool,
    place: ItPosition,
    cause: UnpredictableCase,
    decoded: Decoded,
) -> Decoded
    ensures { result ≡ unless refused place cause decoded }
{
    if refused {
        Decoded::Unpredictable(place, cause)
    } else {
        decoded
    }
}

/// Returns what a row says that may be anywhere in an IT block, unless it refuses its registers.
#[inline]
pub fn unless_refused(refused: bool, decoded: Decoded) -> Decoded
    ensures { result ≡ unless refused Anywhere Registers decoded }
{
    unless(
        refused,
        ItPosition::Anywhere,
        UnpredictableCase::Registers,
        decoded,
    )
}

/// Returns an instruction of two halfwords at any position in an IT block, unless it refuses its
/// registers.
#[inline]
pub fn long_unless(refused: bool, instruction: Instruction) -> Decoded
    ensures { result ≡ unless refused Anywhere Registers (long instruction) }
{
    unless_refused(refused, long(instruction))
}

/// Returns an instruction with the length of its encoding and its position in an IT block, unless it
/// refuses its registers.
#[inline]
pub fn placed_unless(
    refused: bool,
    length: InstructionLength,
    place: ItPosition,
    instruction: Instruction,
) -> Decoded
    ensures { result ≡ unless refused place Registers (placed length place instruction) }
{
    unless(
        refused,
        place,
        UnpredictableCase::Registers,
        placed(length, place, instruction),
    )
}

/// Returns what a row says, or that a bit isn't what it should be.
#[inline]
pub fn as_printed(printed: bool, decoded: Decoded) -> Decoded
    ensures { result ≡ as_printed printed decoded }
{
    if printed {
        decoded
    } else {
        Decoded::Unpredictable(ItPosition::Anywhere, UnpredictableCase::Encoding)
    }
}
