//! The branches and IT (ARM DDI 0403, the operation of B, BL, BX, BLX, CBZ, CBNZ, TBB, TBH and IT).

ghost use Rattle.std.specs.Prelude.{◌≡◌, []};
ghost use Rattle.exec.specs.Plans.{finished_as, planned};
ghost use Rattle.reference.specs.Branches.{branch_requests, branch_effect, conditional_branch, with_link};
ghost use Rattle.reference.specs.Branches.{branch_exchange, takes_branch, compare_and_branch, entry_address};
ghost use Rattle.reference.specs.Branches.{table_branch, it_state_of, if_then};
ghost use Rattle.reference.specs.ProgramCounter.{branches_by};

use crate::load_store::{joined, transfer};
use crate::program_counter::{advance, branch_by, branched, exchange};
use instruction_set::branch::{
    Branch, BranchExchange, CompareAndBranch, ConditionalBranch, IfThen, TableBranch,
};
use instruction_set::instruction::InstructionLength;
use instruction_set::registers::Register;
use platform::access::{Access, Kind};
use reference::accesses::Requests;
use reference::ending::Ending;
use reference::failure::{Failure, Traps};
use regs::Regs;

/// The number of the link register.
const LR: u8 = 14;

// ---- the family

/// Appends the accesses of a branch: the entry of the table for TBB and TBH.
#[inline]
#[tactic(auto, unfolding(reference::specs::Branches::branch_requests))]
pub fn plan(
    branch: &Branch,
    regs: &Regs,
    traps: Traps,
    requests: &mut Requests,
) -> Result<(), Failure>
    requires { requests.old.items ≡ [] }
    ensures { planned requests.new result ≡ branch_requests traps branch.now regs.now }
{
    match branch {
        Branch::Table(operands) => {
            let access = Access {
                address: entry_address(operands, regs),
                kind: Kind::Load,
                size: operands.size,
                privileged: regs.is_privileged(),
            };
            transfer(access, 0, traps, requests)
        }
        Branch::Immediate(_)
        | Branch::Conditional(_)
        | Branch::WithLink(_)
        | Branch::Exchange(_)
        | Branch::CompareAndBranch(_)
        | Branch::IfThen(_) => Ok(()),
    }
}

/// Carries out a branch whose encoding has this length.
#[inline(always)]
#[tactic(auto, unfolding(reference::specs::Branches::branch_effect))]
pub fn finish(length: InstructionLength, branch: &Branch, regs: &mut Regs, values: &[u32]) -> Ending
    ensures { finished_as regs.new result ≡ branch_effect length branch.now regs.old values.now }
{
    match branch {
        Branch::Immediate(operands) => branch_by(regs, operands.offset),
        Branch::Conditional(operands) => conditional_branch(regs, length, operands),
        Branch::WithLink(operands) => branch_with_link(regs, length, operands.offset),
        Branch::Exchange(operands) => branch_exchange(regs, length, operands),
        Branch::CompareAndBranch(operands) => compare_and_branch(regs, length, operands),
        Branch::Table(_) => table_branch(regs, joined(values)),
        Branch::IfThen(operands) => if_then(regs, length, operands),
    }
}

// ---- branches

/// B with a condition of its own.
#[inline]
fn conditional_branch(
    regs: &mut Regs,
    length: InstructionLength,
    operands: &ConditionalBranch,
) -> Ending
    ensures { finished_as regs.new result ≡ conditional_branch length operands.now regs.old }
{
    if regs.condition(operands.condition) {
        return branch_by(regs, operands.offset);
    }
    advance(regs, length)
}

/// Writes the address of the next instruction to LR, with bit 0 set.
#[inline]
fn link(regs: &mut Regs, length: InstructionLength)
    ensures { regs.new ≡ with_link length regs.old }
{
    let next = regs.pc().wrapping_add(length.bytes());
    regs.set(Register::new(LR), (next & !1) + 1);
}

/// BL.
#[inline]
fn branch_with_link(regs: &mut Regs, length: InstructionLength, offset: u32) -> Ending
    ensures { finished_as regs.new result ≡ branches_by offset (with_link length regs.old) }
{
    link(regs, length);
    branch_by(regs, offset)
}

/// BX, and BLX, which never returns from an exception.
#[inline]
fn branch_exchange(regs: &mut Regs, length: InstructionLength, operands: &BranchExchange) -> Ending
    ensures { finished_as regs.new result ≡ branch_exchange length operands.now regs.old }
{
    let target = regs.get(operands.target);
    if !operands.links {
        return exchange(regs, target);
    }
    link(regs, length);
    regs.branch_exchange(target);
    branched(regs)
}

/// Returns whether CBZ or CBNZ is taken.
#[inline]
fn takes_branch(operands: &CompareAndBranch, regs: &Regs) -> bool
    ensures { result ≡ takes_branch operands.now regs.now }
{
    let is_zero = regs.get(operands.register) == 0;
    if operands.nonzero { !is_zero } else { is_zero }
}

/// CBZ and CBNZ.
#[inline]
fn compare_and_branch(
    regs: &mut Regs,
    length: InstructionLength,
    operands: &CompareAndBranch,
) -> Ending
    ensures { finished_as regs.new result ≡ compare_and_branch length operands.now regs.old }
{
    if takes_branch(operands, regs) {
        return branch_by(regs, operands.offset);
    }
    advance(regs, length)
}

/// Returns the address of an entry of a table.
#[inline]
fn entry_address(operands: &TableBranch, regs: &Regs) -> u32
    ensures { result ≡ entry_address operands.now regs.now }
{
    let offset = operands.size.bytes().wrapping_mul(regs.get(operands.index));
    regs.get(operands.base).wrapping_add(offset)
}

/// TBB and TBH, of the entry that was read.
#[inline]
fn table_branch(regs: &mut Regs, halfwords: u32) -> Ending
    ensures { finished_as regs.new result ≡ table_branch halfwords regs.old }
{
    branch_by(regs, halfwords.wrapping_mul(2))
}

// ---- IT

/// Returns ITSTATE of an IT block that begins.
#[inline]
fn it_state_of(operands: &IfThen) -> u8
    ensures { result ≡ it_state_of operands.now }
{
    operands.condition % 16 * 16 + operands.mask % 16
}

/// IT: the block begins with the next instruction, so nothing is advanced.
#[inline]
fn if_then(regs: &mut Regs, length: InstructionLength, operands: &IfThen) -> Ending
    ensures { finished_as regs.new result ≡ if_then length operands.now regs.old }
{
    regs.set_it_state(it_state_of(operands));
    regs.advance_pc(length.bytes());
    Ending::Next
}
