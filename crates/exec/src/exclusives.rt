//! The exclusive loads and stores and CLREX (ARM DDI 0403, "Synchronization and semaphores").

ghost use Rattle.std.specs.Prelude.{◌≡◌, []};
ghost use Rattle.exec.specs.Plans.{planned, finished_as};
ghost use Rattle.instruction_set.specs.Monitor.{with_mark, without_mark};
ghost use Rattle.instruction_set.specs.Registers.{with_register};
ghost use Rattle.reference.specs.Exclusives.{exclusive_requests, exclusive_effect, exclusive_access, exclusive_address};
ghost use Rattle.reference.specs.Exclusives.{store_requests, store_status, passes};
ghost use Rattle.reference.specs.LoadStore.{joined};
ghost use Rattle.reference.specs.ProgramCounter.{advances};

use crate::load_store::joined;
use crate::program_counter::advance;
use instruction_set::instruction::InstructionLength;
use instruction_set::load_store::{Exclusive, LoadExclusive, StoreExclusive};
use instruction_set::registers::Register;
use platform::access::{Access, Kind, Request};
use platform::map::has_side_effects;
use platform::stop::{Stop, Unsupported};
use reference::accesses::Requests;
use reference::ending::Ending;
use reference::failure::{Failure, UsageFault};
use regs::Regs;

// ---- the family

/// Appends the access of an exclusive. `devices` says whether the board describes devices.
#[tactic(auto, unfolding(reference::specs::Exclusives::exclusive_requests))]
pub fn plan(
    instruction: &Exclusive,
    regs: &Regs,
    devices: bool,
    requests: &mut Requests,
) -> Result<(), Failure>
    requires { requests.old.items ≡ [] }
    ensures { planned requests.new result ≡ exclusive_requests devices instruction.now regs.now }
{
    match instruction {
        Exclusive::Load(operands) => {
            let access = Access {
                address: exclusive_address(operands.base, operands.offset, regs),
                kind: Kind::Load,
                size: operands.size,
                privileged: regs.is_privileged(),
            };
            ask(access, 0, devices, requests)
        }
        Exclusive::Store(operands) => plan_store(operands, regs, devices, requests),
        Exclusive::Clear => Ok(()),
    }
}

/// Carries out an exclusive, whose encoding has this length, with the value that it read.
#[tactic(auto, unfolding(reference::specs::Exclusives::exclusive_effect))]
pub fn finish(
    length: InstructionLength,
    instruction: &Exclusive,
    regs: &mut Regs,
    values: &[u32],
) -> Ending
    ensures { finished_as regs.new result ≡ exclusive_effect length instruction.now regs.old values.now }
{
    match instruction {
        Exclusive::Load(operands) => finish_load(operands, regs, values),
        Exclusive::Store(operands) => finish_store(operands, regs),
        Exclusive::Clear => regs.clear_mark(),
    }
    advance(regs, length)
}

// ---- each instruction

/// Appends the store of a store exclusive that passes, and the probe of one that fails.
fn plan_store(
    operands: &StoreExclusive,
    regs: &Regs,
    devices: bool,
    requests: &mut Requests,
) -> Result<(), Failure>
    requires { requests.old.items ≡ [] }
    ensures { planned requests.new result ≡ store_requests devices operands.now regs.now }
{
    let (kind, value) = if passes(operands, regs) {
        (Kind::Store, regs.get(operands.target))
    } else {
        (Kind::Probe, 0)
    };
    let access = Access {
        address: exclusive_address(operands.base, operands.offset, regs),
        kind,
        size: operands.size,
        privileged: regs.is_privileged(),
    };
    ask(access, value, devices, requests)
}

/// Marks the address of a load exclusive, and writes the value to its register.
fn finish_load(operands: &LoadExclusive, regs: &mut Regs, values: &[u32])
    ensures { regs.new ≡ with_register
        (with_mark regs.old (exclusive_address operands.now.base operands.now.offset regs.old) operands.now.size)
        operands.now.target (joined values.now) }
{
    let address = exclusive_address(operands.base, operands.offset, regs);
    regs.mark(address, operands.size);
    regs.set(operands.target, joined(values));
}

/// Clears the mark, and writes the status of a store exclusive to its register.
fn finish_store(operands: &StoreExclusive, regs: &mut Regs)
    ensures { regs.new ≡ with_register (without_mark regs.old) operands.now.status
        (store_status (passes operands.now regs.old)) }
{
    let status = if passes(operands, regs) { 0 } else { 1 };
    regs.clear_mark();
    regs.set(operands.status, status);
}

// ---- addresses and accesses

/// Returns the address: the base and the offset.
fn exclusive_address(base: Register, offset: u32, regs: &Regs) -> u32
    ensures { result ≡ exclusive_address base offset regs.now }
{
    regs.get(base).wrapping_add(offset)
}

/// Returns whether a store exclusive passes.
fn passes(operands: &StoreExclusive, regs: &Regs) -> bool
    ensures { result ≡ passes operands.now regs.now }
{
    let address = exclusive_address(operands.base, operands.offset, regs);
    regs.is_marked(address, operands.size)
}

/// Appends the access of an exclusive, which is a fault where it is unaligned, and stops where an access can have a
/// side effect.
#[tactic(auto, unfolding(reference::specs::Exclusives::exclusive_access))]
fn ask(access: Access, value: u32, devices: bool, requests: &mut Requests) -> Result<(), Failure>
    requires { requests.old.items ≡ [] }
    ensures { planned requests.new result
        ≡ exclusive_access devices access.kind access.privileged access.size access.address value }
{
    if access.address % access.size.bytes() != 0 {
        return Err(Failure::Usage(UsageFault::Unaligned));
    }
    if has_side_effects(devices, access.address) {
        return Err(Failure::Stop(Stop::OutOfProfile(Unsupported::ExclusiveDevice)));
    }
    requests.push(Request { access, value });
    Ok(())
}
