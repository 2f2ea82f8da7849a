//! Instructions from their fetch on, and what they leave.

use crate::case::Case;
use crate::memory::Memory;
use arrayvec::ArrayVec;
use decode::{Decoded, decode, is_long};
use exec::{Failure, Requests, Traps, finish, plan};
use nvic::{Exceptions, PlainExceptions};
use platform::stop::{NamedStop, Stop};
use reference::ending::Ending;
use reference::failure::UsageFault;
use regs::Regs;
use scs::{read_special, write_mask, write_special};
use std::alloc::Global;
use std::{io, str};
use test_tables::{Outcome, word};

/// Runs one instruction, from its fetch on.
fn step(regs: &mut Regs, memory: &mut Memory) -> Result<Ending, Failure> {
    let pc = regs.pc();
    let coded = match decode(memory.halfword(pc), memory.halfword(pc.wrapping_add(2))) {
        Decoded::Instr(coded) => coded,
        Decoded::Unpredictable(_, case) => return Err(Failure::Stop(Stop::Unpredictable(case))),
        Decoded::Undefined => return Err(Failure::Usage(UsageFault::UndefinedInstruction)),
        Decoded::NoCoprocessor => return Err(Failure::Usage(UsageFault::NoCoprocessor)),
    };
    let mut requests = Requests::new();
    let traps = Traps {
        unaligned: false,
        divide_by_zero: false,
        devices: false,
    };
    plan(&coded, regs, traps, &mut requests)?;
    let mut values: ArrayVec<u32, 16> = ArrayVec::new();
    'requests: for request in requests.as_slice() {
        let _ = values.try_push(memory.carry_out(request));
    }
    Ok(finish(&coded, regs, values.as_slice()))
}

/// Returns whether an instruction goes on to the next one. MRS and MSR do what is left of them,
/// with masks after a reset.
fn continues(regs: &mut Regs, ending: Ending) -> bool {
    let mut levels = PlainExceptions::fresh(0, 8);
    match ending {
        Ending::Next => {}
        Ending::ReadSpecial(operands) => {
            let value = read_special(regs, levels.masks(), operands.special);
            regs.set(operands.destination, value);
        }
        Ending::WriteSpecial(special, value) => {
            write_mask(&mut levels, regs.is_privileged(), special, value);
            write_special(regs, special, value);
        }
        Ending::ChangeState(_)
        | Ending::Sleep
        | Ending::SupervisorCall(_)
        | Ending::Breakpoint(_)
        | Ending::ExceptionReturn(_) => return false,
    }
    true
}

/// Runs all instructions of a case, one after the other, as far as they go on; returns how the first one ends that
/// doesn't.
fn run(case: &mut Case) -> Option<&'static [u8]> {
    let mut left = case.halfwords;
    'instructions: for _ in 0..case.halfwords {
        if left > 0 {
            let long = is_long(case.memory.halfword(case.regs.pc()));
            left = left.saturating_sub(if long { 2 } else { 1 });
            match step(&mut case.regs, &mut case.memory) {
                Ok(ending) if continues(&mut case.regs, ending) => {}
                Ok(ending) => return Some(word_of_ending(ending)),
                Err(failure) => return Some(word_of(failure)),
            }
        }
    }
    None
}

/// Returns the outcome of a case: the instructions go on to their end, and leave what it wants.
pub fn case_outcome(alloc: Global, row: &str) -> io::Result<Outcome> {
    let Some(mut case) = Case::of(row) else {
        return Ok(Outcome::Unreadable);
    };
    if !case.is_checked {
        return Ok(Outcome::Unreadable);
    }
    if let Some(end) = run(&mut case) {
        return Ok(Outcome::differs(alloc, "goes-on", text_of(end))?);
    }
    match case.difference() {
        None => Ok(Outcome::Holds),
        Some(difference) => difference.outcome(alloc),
    }
}

/// Returns the outcome of a case whose first instruction ends as the first word of its name says.
pub fn stop_outcome(alloc: Global, row: &str) -> io::Result<Outcome> {
    let Some(mut case) = Case::of(row) else {
        return Ok(Outcome::Unreadable);
    };
    let came = match step(&mut case.regs, &mut case.memory) {
        Ok(ending) => word_of_ending(ending),
        Err(failure) => word_of(failure),
    };
    let wanted = word(row, 0);
    if wanted.as_bytes() == came {
        Ok(Outcome::Holds)
    } else {
        Ok(Outcome::differs(alloc, wanted, text_of(came))?)
    }
}

/// The word of a row for what ends an instruction before its end.
fn word_of(failure: Failure) -> &'static [u8] {
    match failure {
        Failure::Stop(Stop::Unpredictable(case)) => case.word(),
        Failure::Stop(Stop::OutOfProfile(case)) => case.word(),
        Failure::Stop(
            Stop::StepLimit | Stop::Breakpoint(_) | Stop::Lockup | Stop::ResetRequested,
        ) => b"another stop",
        Failure::Usage(UsageFault::Unaligned) => b"unaligned",
        Failure::Usage(_) => b"another fault",
        Failure::Refused(_, _) => b"refused",
    }
}

/// The word of a row for what an instruction ends in.
fn word_of_ending(ending: Ending) -> &'static [u8] {
    match ending {
        Ending::Next => b"goes-on",
        Ending::ReadSpecial(_) => b"reads-special",
        Ending::WriteSpecial(_, _) => b"writes-special",
        Ending::ChangeState(_) => b"changes-state",
        Ending::Sleep => b"sleeps",
        Ending::SupervisorCall(_) => b"supervisor-call",
        Ending::Breakpoint(_) => b"breakpoint",
        Ending::ExceptionReturn(_) => b"returns",
    }
}

/// The text of a word.
fn text_of(word: &'static [u8]) -> &'static str {
    str::from_utf8(word).unwrap_or("another word")
}
