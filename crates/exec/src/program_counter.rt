//! How the PC goes on after an instruction (ARM DDI 0403, BranchWritePC(), BXWritePC(), BLXWritePC()
//! and LoadWritePC()).

ghost use Rattle.std.specs.Prelude.{◌≡◌, ◌==◌};
ghost use Rattle.exec.specs.Plans.{finished_as};
ghost use Rattle.reference.specs.ProgramCounter.{advances, branches, branches_by, is_exception_return, exchanges};
ghost use Rattle.reference.specs.ProgramCounter.{loads_into};

use instruction_set::instruction::InstructionLength;
use instruction_set::registers::Register;
use reference::ending::Ending;
use regs::Regs;

// ---- the end of an instruction

/// Advances IT, and the PC by the length of the instruction.
#[inline]
pub fn advance(regs: &mut Regs, length: InstructionLength) -> Ending
    ensures { finished_as regs.new result ≡ advances length regs.old }
{
    regs.it_advance();
    regs.advance_pc(length.bytes());
    Ending::Next
}

/// Ends an instruction that wrote the PC: advances IT alone.
#[inline]
pub fn branched(regs: &mut Regs) -> Ending
    ensures { finished_as regs.new result ≡ branches regs.old }
{
    regs.it_advance();
    Ending::Next
}

/// Returns whether a register is the PC.
#[inline]
fn is_pc(register: Register) -> bool
    ensures { result ≡ (register == 15) }
{
    register.number() == 15
}

// ---- writes of the PC

/// Branches to the PC as an instruction reads it, plus an offset.
#[inline]
pub fn branch_by(regs: &mut Regs, offset: u32) -> Ending
    ensures { finished_as regs.new result ≡ branches_by offset regs.old }
{
    let from = regs.get(Register::PC);
    regs.branch(from.wrapping_add(offset));
    branched(regs)
}

/// Returns whether a value returns from the exception: in Handler mode, where its bits 31:28 are
/// all ones.
#[inline]
fn is_exception_return(value: u32, regs: &Regs) -> bool
    ensures { result ≡ is_exception_return value regs.now }
{
    regs.is_handler() && value >> 28 == 15
}

/// `BXWritePC(value)` and `LoadWritePC(value)`.
#[inline]
pub fn exchange(regs: &mut Regs, value: u32) -> Ending
    ensures { finished_as regs.new result ≡ exchanges value regs.old }
{
    if is_exception_return(value, regs) {
        return Ending::ExceptionReturn(value);
    }
    regs.branch_exchange(value);
    branched(regs)
}

/// Writes a loaded value to a register: `LoadWritePC(value)` for the PC.
#[inline(always)]
pub fn load_into(regs: &mut Regs, length: InstructionLength, target: Register, value: u32) -> Ending
    ensures { finished_as regs.new result ≡ loads_into length target value regs.old }
{
    if is_pc(target) {
        return exchange(regs, value);
    }
    regs.set(target, value);
    advance(regs, length)
}
