//! The registers of the MPU (ARM DDI 0403, "Protected Memory System Architecture, PMSAv7").

use crate::regions::{decision, word_of};
use crate::settings::{setting, write_pairs};
use crate::words::shown;
use instruction_set::unpredictable::UnpredictableCase;
use mpu::{Decider, MpuRegs, MpuStop, Search, mpu_register_at, stop_of};
use platform::stop::Stop;
use std::alloc::Global;
use std::io;
use test_tables::{Outcome, byte_at, compared, number_at, part, rest, word};

/// Returns the outcome of a row of a table of registers.
pub fn outcome(alloc: Global, table: &str, row: &str) -> io::Result<Outcome> {
    match table {
        "read_back" => compared(alloc, rest(row, 3), read_back(alloc, row)),
        "shown" => compared(alloc, rest(row, 2), region(alloc, row)),
        "sixteen" => compared(alloc, rest(row, 2), reloaded(alloc, row)),
        "writes" => compared(alloc, rest(row, 1), written(alloc, row)),
        _ => Ok(Outcome::Unreadable),
    }
}

/// What the register at an address reads as.
fn read(registers: &MpuRegs, address: u32) -> Option<u32> {
    Some(registers.read_reg(mpu_register_at(address)?))
}

/// What a register reads as after writes.
fn read_back(alloc: Global, row: &str) -> Option<String> {
    let mut registers = setting(part(row, 0))?;
    write_pairs(&mut registers, part(row, 1))?;
    shown(alloc, read(&registers, number_at(part(row, 2), 0)?))
}

/// The region that registers show, if they have as many as the row says.
fn region(alloc: Global, row: &str) -> Option<String> {
    let registers = setting(word(part(row, 0), 0))?;
    let count = registers.count();
    if byte_at(part(row, 0), 1)? != count {
        return format!(in alloc; "{count:X} regions").ok();
    }
    match registers.region(byte_at(part(row, 1), 0)?) {
        Some((base, attributes)) => format!(in alloc; "{base:X} {attributes:X}").ok(),
        None => shown(alloc, None),
    }
}

/// What decides an access before a decider has reloaded new registers, and afterwards; the region of the address.
fn reloaded(alloc: Global, row: &str) -> Option<String> {
    let registers = setting(part(row, 0))?;
    let access = part(row, 1);
    let mut search = Search::fresh(&MpuRegs::new(registers.count()));
    let (rule, outcome) = word_of(decision(&search, access)?);
    search.reload(&registers);
    let (rule_then, outcome_then) = word_of(decision(&search, access)?);
    let owner = registers.owner(number_at(access, 1)?)?;
    format!(in alloc; "{rule} {outcome} | {rule_then} {outcome_then} | {owner:X}").ok()
}

/// The word of what became of a write.
fn word_of_write(written: Result<(), MpuStop>) -> &'static str {
    let Err(stop) = written else {
        return "taken";
    };
    match stop_of(stop) {
        Stop::Unpredictable(UnpredictableCase::MpuRegion) => "region",
        Stop::Unpredictable(UnpredictableCase::MpuControl) => "control",
        _ => "another stop",
    }
}

/// Returns whether all registers of eight regions are the same.
fn are_same(registers: &MpuRegs, before: &MpuRegs) -> bool {
    'regions: for number in 0..8 {
        if registers.region(number) != before.region(number) {
            return false;
        }
    }
    let number = 0xE000_ED98;
    registers.control() == before.control() && read(registers, number) == read(before, number)
}

/// What becomes of a write, and whether one that isn't taken changes a register.
fn written(alloc: Global, row: &str) -> Option<String> {
    let before = setting("task")?;
    let mut registers = before;
    let register = mpu_register_at(number_at(part(row, 0), 0)?)?;
    let became = word_of_write(registers.write_reg(register, number_at(part(row, 0), 1)?));
    if became == "taken" || are_same(&registers, &before) {
        return became.to_string(alloc).ok();
    }
    format!(in alloc; "{became}, and a register changed").ok()
}
