//! What a machine holds, as the lines `after` of a row have it.

use machine::{Decider, Exceptions, KeptCode, Machine, RegValues, SysTickState};
use std::alloc::Global;
use test_tables::{Outcome, byte_at, number, number_at, word};

/// The word for a byte, a word or a region that isn't there.
const NONE: &str = "none";

/// Compares what a line says after `after` with what a machine holds.
pub fn compare<D: Decider, C: KeptCode, L: Exceptions, U: SysTickState>(
    alloc: Global,
    machine: &Machine<D, C, L, U>,
    seen: &str,
) -> Option<Outcome> {
    let place = word(seen, 1);
    match word(seen, 0) {
        "reg" => {
            let held = register(&machine.regs(), place)?;
            compare_number(alloc, seen, Some(held))
        }
        "byte" => {
            let held = machine.byte(number(place)?);
            compare_number(alloc, seen, held.map(u32::from))
        }
        "shown" => compare_number(alloc, seen, shown(machine, number(place)?)),
        "region" => compare_region(alloc, seen, machine.region(byte_at(seen, 1)?)),
        _ => None,
    }
}

/// Compares the third word of a line with a number, where there is one.
fn compare_number(alloc: Global, seen: &str, held: Option<u32>) -> Option<Outcome> {
    let wanted = wanted_number(seen, 2)?;
    if wanted == held {
        return Some(Outcome::Holds);
    }
    let (what, place) = (word(seen, 0), word(seen, 1));
    let came = match held {
        Some(held) => format!(in alloc; "{what} {place} {held:X}"),
        None => format!(in alloc; "{what} {place} {NONE}"),
    };
    Outcome::differs(alloc, seen, came.ok()?.as_str()).ok()
}

/// Compares the third and the fourth word of a line with the registers of a region, where there is one.
fn compare_region(alloc: Global, seen: &str, held: Option<(u32, u32)>) -> Option<Outcome> {
    let wanted = match wanted_number(seen, 2)? {
        Some(base) => Some((base, number_at(seen, 3)?)),
        None => None,
    };
    if wanted == held {
        return Some(Outcome::Holds);
    }
    let place = word(seen, 1);
    let came = match held {
        Some((base, size)) => format!(in alloc; "region {place} {base:X} {size:X}"),
        None => format!(in alloc; "region {place} {NONE}"),
    };
    Outcome::differs(alloc, seen, came.ok()?.as_str()).ok()
}

/// Returns the number at a place of a line, or none for the word `none`.
fn wanted_number(seen: &str, place: usize) -> Option<Option<u32>> {
    if word(seen, place) == NONE {
        Some(None)
    } else {
        Some(Some(number_at(seen, place)?))
    }
}

/// What a register holds.
fn register(values: &RegValues, name: &str) -> Option<u32> {
    match name {
        "lr" => Some(values.lr),
        "pc" => Some(values.pc),
        "xpsr" => Some(values.xpsr),
        "msp" => Some(values.msp),
        "psp" => Some(values.psp),
        "control" => Some(values.control),
        "primask" => Some(values.primask),
        "basepri" => Some(values.basepri),
        "faultmask" => Some(values.faultmask),
        _ => Some(*values.general.get(number(name)? as usize)?),
    }
}

/// The word that a debugger shows at an address, if memory or a device has all of it.
pub fn shown<D: Decider, C: KeptCode, L: Exceptions, U: SysTickState>(
    machine: &Machine<D, C, L, U>,
    address: u32,
) -> Option<u32> {
    Some(u32::from_le_bytes([
        machine.peek_memory_or_device(address)?,
        machine.peek_memory_or_device(address.wrapping_add(1))?,
        machine.peek_memory_or_device(address.wrapping_add(2))?,
        machine.peek_memory_or_device(address.wrapping_add(3))?,
    ]))
}
