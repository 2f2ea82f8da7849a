//! The core registers, and the arithmetic of instructions.

ghost use Rattle.std.specs.Prelude.{◌<◌};

use regs::{
    Register, Regs, ShiftType, add_with_carry, decode_imm_shift, expand_imm, flags_of, shift_c,
};
use std::alloc::Global;
use std::io;
use test_tables::{
    Outcome, byte_at, compared, halfword_at, is_first, meaning, number_at, numbers, part, rest,
    word,
};

/// Returns the outcome of a row of a table of registers or arithmetic.
pub fn outcome(alloc: Global, table: &str, row: &str) -> io::Result<Outcome> {
    let came = match table {
        "resets" => after_a_reset(alloc, row),
        "kept" => kept(alloc, row),
        "next" => next(alloc, row),
        "flags" => flags(alloc, row),
        "sums" => sum(alloc, row),
        "shifts" => shift(alloc, row),
        "row_shifts" => row_shift(alloc, row),
        "immediates" => immediate(alloc, row),
        "conditions" => conditions(alloc, row),
        "it" => it(alloc, row),
        _ => None,
    };
    compared(alloc, rest(row, 1), came)
}

/// The registers after a reset.
fn after_reset() -> Regs {
    Regs::reset(0x2000_1000, 0x101)
}

/// A word where it is so, and otherwise a line.
fn word_if(is_so: bool, word: &'static str) -> &'static str {
    if is_so { word } else { "-" }
}

/// The addresses of the registers after a reset, the mode, xPSR and CONTROL.
fn after_a_reset(alloc: Global, row: &str) -> Option<String> {
    let [stack, entry] = numbers::<2>(part(row, 0))?;
    let registers = Regs::reset(stack, entry);
    let (sp, main, process) = (
        registers.sp(),
        registers.main_stack(),
        registers.process_stack(),
    );
    let (link, pc) = (registers.link(), registers.pc());
    let thumb = word_if(registers.is_thumb(), "T");
    let it = registers.it_state();
    let privileged = word_if(registers.is_privileged(), "privileged");
    let handler = word_if(registers.is_handler(), "handler");
    let (xpsr, control) = (registers.xpsr(), registers.control());
    let mut came = format!(in alloc; "{sp:X} {main:X} {process:X} {link:X} {pc:X}").ok()?;
    write!(
        came,
        " | {thumb} {it:X} {privileged} {handler} | {xpsr:X} {control:X}"
    )
    .ok()?;
    Some(came)
}

/// What a register reads as, once it was written.
fn kept(alloc: Global, row: &str) -> Option<String> {
    let number = byte_at(part(row, 0), 0)?;
    if number > 15 {
        return None;
    }
    let mut registers = after_reset();
    registers.set(Register::new(number), number_at(part(row, 0), 1)?);
    let value = registers.get(Register::new(number));
    format!(in alloc; "{value:X}").ok()
}

/// PC, once it went on or branched.
fn next(alloc: Global, row: &str) -> Option<String> {
    let mut registers = Regs::reset(0, number_at(part(row, 0), 0)?);
    let number = number_at(part(row, 1), 1)?;
    let way = word(part(row, 1), 0);
    if is_first(way, "on", "to")? {
        registers.advance_pc(number);
    } else {
        registers.branch(number);
    }
    let pc = registers.pc();
    format!(in alloc; "{way} {number:X} | {pc:X}").ok()
}

/// The flags of a word, by their letters; APSR and xPSR with them.
fn flags(alloc: Global, row: &str) -> Option<String> {
    let mut registers = after_reset();
    registers.set_flags(flags_of(number_at(part(row, 0), 0)?));
    let flags = registers.flags();
    let [n, z, c, v, q] = [
        word_if(flags.negative, "N"),
        word_if(flags.zero, "Z"),
        word_if(flags.carry, "C"),
        word_if(flags.overflow, "V"),
        word_if(flags.saturated, "Q"),
    ];
    let (apsr, xpsr) = (registers.apsr(), registers.xpsr());
    format!(in alloc; "{n} {z} {c} {v} {q} | {apsr:X} {xpsr:X}").ok()
}

/// The carry at a place of a part, set or clear.
fn carry_at(part: &str, place: usize) -> Option<bool> {
    is_first(word(part, place), "C", "-")
}

/// A word and a carry, as a row has them.
fn word_and_carry(alloc: Global, operand: (u32, bool)) -> Option<String> {
    let (value, carry) = (operand.0, word_if(operand.1, "C"));
    format!(in alloc; "{value:X} {carry}").ok()
}

/// The sum of two words and a carry.
fn sum(alloc: Global, row: &str) -> Option<String> {
    let given = part(row, 0);
    let [first, second] = numbers::<2>(given)?;
    let (value, carry, overflow) = add_with_carry(first, second, carry_at(given, 2)?);
    let (carry, overflow) = (word_if(carry, "C"), word_if(overflow, "V"));
    format!(in alloc; "{value:X} {carry} {overflow}").ok()
}

const SHIFT_TYPES: [(&str, ShiftType); 5] = [
    ("Lsl", ShiftType::Lsl),
    ("Lsr", ShiftType::Lsr),
    ("Asr", ShiftType::Asr),
    ("Ror", ShiftType::Ror),
    ("Rrx", ShiftType::Rrx),
];

/// A word that is shifted.
fn shift(alloc: Global, row: &str) -> Option<String> {
    let given = part(row, 0);
    let shift_type = meaning(&SHIFT_TYPES, word(given, 1))?;
    let (value, amount) = (number_at(given, 0)?, byte_at(given, 2)?);
    word_and_carry(
        alloc,
        shift_c(value, shift_type, amount, carry_at(given, 3)?),
    )
}

/// 80000001, shifted as the bits of an instruction say.
fn row_shift(alloc: Global, row: &str) -> Option<String> {
    let given = part(row, 0);
    let shift = decode_imm_shift(byte_at(given, 0)?, byte_at(given, 1)?);
    word_and_carry(
        alloc,
        shift_c(0x8000_0001, shift.shift_type, shift.amount, true),
    )
}

/// The word that twelve bits mean.
fn immediate(alloc: Global, row: &str) -> Option<String> {
    let given = part(row, 0);
    match expand_imm(halfword_at(given, 0)?, carry_at(given, 1)?) {
        Some(expanded) => word_and_carry(alloc, expanded),
        None => "none".to_string(alloc).ok(),
    }
}

/// A bit for each condition that holds.
fn conditions(alloc: Global, row: &str) -> Option<String> {
    let mut registers = after_reset();
    registers.set_flags(flags_of(number_at(part(row, 0), 0)?));
    let mut holding = 0u16;
    'conditions: for condition in 0..16u8 {
        if registers.condition(condition) {
            holding |= 1 << condition;
        }
    }
    format!(in alloc; "{holding:04X}").ok()
}

/// What IT says with Z alone, and IT after the instruction.
fn it(alloc: Global, row: &str) -> Option<String> {
    let mut registers = after_reset();
    registers.set_flags(flags_of(0x4000_0000));
    registers.set_it_state(byte_at(part(row, 0), 0)?);
    let block = word_if(registers.in_it_block(), "block");
    let last = word_if(registers.last_in_it_block(), "last");
    let condition = registers.current_condition();
    let passed = word_if(registers.condition_passed(), "passed");
    registers.it_advance();
    let after = registers.it_state();
    format!(in alloc; "{block} {last} {condition:X} {passed} | {after:02X}").ok()
}
