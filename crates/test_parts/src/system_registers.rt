//! The system registers (ARM DDI 0403, "System Control Space").

use crate::ticks::script_of;
use crate::words::{request, shown};
use clock::{EagerSysTick, Script};
use devices::Devices;
use instruction_set::size::Size;
use mpu::Search;
use nvic::PlainExceptions;
use platform::access::{Access, Kind, Performed, Request, Rule};
use platform::stop::{NamedStop, Stop};
use scs::System;
use std::alloc::Global;
use std::{io, str};
use test_tables::{
    Lines, Outcome, byte_at, compared, halfword_at, number_at, numbers, part, rest, run_lines, word,
};

type PlainSystem = System<Search, PlainExceptions, EagerSysTick>;

/// Returns the outcome of a row of a table of system registers.
pub fn outcome(alloc: Global, table: &str, row: &str) -> io::Result<Outcome> {
    match table {
        "registers" => match system_of(alloc, row) {
            Some(system) => run_lines(alloc, row, 2, &mut Registers { system }),
            None => Ok(Outcome::Unreadable),
        },
        "accesses" => match system_of(alloc, row) {
            Some(system) => run_lines(alloc, row, 2, &mut Steps { system }),
            None => Ok(Outcome::Unreadable),
        },
        "types" => compared(alloc, rest(row, 1), interrupt_words(alloc, row)),
        _ => Ok(Outcome::Unreadable),
    }
}

/// The system after a reset, on the board that the second line of a row says: the address of flash, interrupts,
/// priority bits, regions and events.
fn system_of(alloc: Global, row: &str) -> Option<PlainSystem> {
    let line = row.lines().nth(1)?;
    let board = line.strip_prefix("board ")?;
    let [flash, interrupts, bits, regions] = numbers::<4>(board)?;
    let sizes = [u8::try_from(interrupts).ok()?, u8::try_from(bits).ok()?];
    let script = script_of(alloc, board, 4)?;
    reset(
        flash,
        sizes,
        regions,
        script,
        Devices::new(alloc, &[]).ok()?,
    )
}

/// The system after a reset, with 8 or 16 regions.
fn reset(
    flash: u32,
    sizes: [u8; 2],
    regions: u32,
    script: Script,
    devices: Devices,
) -> Option<PlainSystem> {
    let [interrupts, bits] = sizes;
    match regions {
        8 => Some(System::reset(flash, interrupts, bits, 8, script, devices)),
        16 => Some(System::reset(flash, interrupts, bits, 16, script, devices)),
        _ => None,
    }
}

/// An access of a size by privileged or unprivileged code.
fn access_of(kind: Kind, size: Size, address: u32, value: u32, privileged: bool) -> Request {
    Request {
        access: Access {
            address,
            kind,
            size,
            privileged,
        },
        value,
    }
}

/// The word of a stop, or `stop` for one that no access makes.
fn stop_word(stop: Stop) -> &'static [u8] {
    match stop {
        Stop::Unpredictable(case) => case.word(),
        Stop::OutOfProfile(case) => case.word(),
        Stop::ResetRequested => b"reset",
        Stop::StepLimit | Stop::Breakpoint(_) | Stop::Lockup => b"stop",
    }
}

/// The outcome of an access while IPSR is `exception`.
fn outcome_of(system: &mut PlainSystem, exception: u16, request: &Request) -> Performed {
    system.access(exception, Rule::PrivatePeripheralBus, request)
}

/// The word of an outcome: a value, `bus`, or the name of a stop.
fn word_of(alloc: Global, performed: Performed) -> Option<String> {
    match performed {
        Performed::Done(done) => shown(alloc, Some(done.value)),
        Performed::Denied(_, _) => "bus".to_string(alloc).ok(),
        Performed::Stop(stop) => str::from_utf8(stop_word(stop)).ok()?.to_string(alloc).ok(),
    }
}

/// The value that a privileged load of a word reads.
fn loaded(system: &mut PlainSystem, address: u32) -> Option<u32> {
    let load = access_of(Kind::Load, Size::Word, address, 0, true);
    match outcome_of(system, 0, &load) {
        Performed::Done(done) => Some(done.value),
        Performed::Denied(_, _) | Performed::Stop(_) => None,
    }
}

// ---- each register

/// The outcomes of a load and of a store of ones.
fn both(
    system: &mut PlainSystem,
    size: Size,
    address: u32,
    privileged: bool,
) -> (Performed, Performed) {
    let load = access_of(Kind::Load, size, address, 0, privileged);
    let store = access_of(Kind::Store, size, address, 0xFFFF_FFFF, privileged);
    (outcome_of(system, 0, &load), outcome_of(system, 0, &store))
}

/// Returns whether a load and a store by unprivileged code are bus errors, whatever their size.
fn are_refused(system: &mut PlainSystem, address: u32) -> bool {
    let mut refused = true;
    'sizes: for size in [Size::Byte, Size::Halfword, Size::Word] {
        let (load, store) = both(system, size, address, false);
        refused = refused
            && matches!(load, Performed::Denied(_, _))
            && matches!(store, Performed::Denied(_, _));
    }
    refused
}

/// Returns whether an outcome is the stop of a width that a register hasn't.
fn is_width_stop(performed: Performed) -> bool {
    match performed {
        Performed::Stop(stop) => stop_word(stop) == b"register-width".as_slice(),
        Performed::Done(_) | Performed::Denied(_, _) => false,
    }
}

/// The widths of a register: `word` if privileged loads and stores of bytes and halfwords stop, `any` if all are done.
fn widths(system: &mut PlainSystem, address: u32) -> &'static str {
    let (mut stopped, mut done) = (true, true);
    'sizes: for size in [Size::Byte, Size::Halfword] {
        let (load, store) = both(system, size, address, true);
        stopped = stopped && is_width_stop(load) && is_width_stop(store);
        done = done && matches!((load, store), (Performed::Done(_), Performed::Done(_)));
    }
    match (stopped, done) {
        (true, _) => "word",
        (false, true) => "any",
        (false, false) => "some",
    }
}

/// A system whose registers are tried one after another.
#[derive(Drop)]
struct Registers {
    system: PlainSystem,
}

impl Registers {
    /// Returns what is wrong with the value after a reset, or with accesses by unprivileged code, which leave it.
    fn wrong_after_reset(&mut self, address: u32, wanted: u32) -> Option<&'static str> {
        if loaded(&mut self.system, address) != Some(wanted) {
            return Some("another value after a reset");
        }
        if !are_refused(&mut self.system, address) {
            return Some("unprivileged code reaches it");
        }
        if loaded(&mut self.system, address) != Some(wanted) {
            return Some("unprivileged code changes it");
        }
        None
    }
}

impl Lines for Registers {
    /// Returns the widths of a register, what a store is answered, and the value then. Where any width is wanted,
    /// widths come after the store, since they store too.
    fn answer(&mut self, alloc: Global, line: &str) -> Option<String> {
        let [address, reset] = numbers::<2>(part(line, 0))?;
        if let Some(wrong) = self.wrong_after_reset(address, reset) {
            return wrong.to_string(alloc).ok();
        }
        let given = number_at(part(line, 2), 2);
        let value = given.unwrap_or(0xFFFF_FFFF);
        let takes_any = part(line, 1) == "any";
        let before = if takes_any {
            "any"
        } else {
            widths(&mut self.system, address)
        };
        let store = access_of(Kind::Store, Size::Word, address, value, true);
        let stored = word_of(alloc, outcome_of(&mut self.system, 0, &store))?;
        let then = loaded(&mut self.system, address)?;
        let widths = if takes_any {
            widths(&mut self.system, address)
        } else {
            before
        };
        let mut answer = format!(in alloc; "{widths} | {stored} {then:X}").ok()?;
        if let Some(given) = given {
            write!(answer, " {given:X}").ok()?;
        }
        Some(answer)
    }
}

// ---- accesses one after another

/// A system that accesses, ticks, and changes of handlers go on.
#[derive(Drop)]
struct Steps {
    system: PlainSystem,
}

impl Steps {
    /// Goes on by some ticks.
    fn run_ticks(&mut self, ticks: u32) -> Option<()> {
        'ticks: for _ in 0..ticks {
            if self.system.ticks() == 1 << 48 {
                return None;
            }
            self.system.tick();
        }
        Some(())
    }

    /// The outcome of an access, while IPSR is the number at its end.
    fn access(&mut self, alloc: Global, asked: &str) -> Option<String> {
        let exception = halfword_at(asked, 5).unwrap_or(0);
        word_of(
            alloc,
            outcome_of(&mut self.system, exception, &request(asked)?),
        )
    }
}

impl Lines for Steps {
    fn answer(&mut self, alloc: Global, line: &str) -> Option<String> {
        let asked = part(line, 0);
        match word(asked, 0) {
            "tick" => self.run_ticks(number_at(asked, 1)?)?,
            "activate" => self.system.activate(halfword_at(asked, 1)?),
            "deactivate" => self.system.deactivate(halfword_at(asked, 1)?),
            "pend" => self.system.pend(halfword_at(asked, 1)?),
            "clear" => self.system.clear(halfword_at(asked, 1)?),
            "fault" => {
                let (cfsr, hfsr) = (number_at(asked, 1)?, number_at(asked, 2)?);
                self.system.set_fault_bits(cfsr, hfsr);
            }
            "mmfar" => self.system.set_mmfar(number_at(asked, 1)?),
            "bfar" => self.system.set_bfar(number_at(asked, 1)?),
            "region" => {
                let (base, attributes) = self.system.region(byte_at(asked, 1)?)?;
                return format!(in alloc; "{base:X} {attributes:X}").ok();
            }
            _ => return self.access(alloc, asked),
        }
        Some(String::new(alloc))
    }
}

// ---- boards with some number of interrupts

/// ICTR of a board with that many interrupts.
fn interrupt_words(alloc: Global, row: &str) -> Option<String> {
    let interrupts = byte_at(part(row, 0), 0)?;
    let (script, devices) = (
        Script::new(alloc, &[]).ok()?,
        Devices::new(alloc, &[]).ok()?,
    );
    let mut system = reset(0, [interrupts, 4], 8, script, devices)?;
    shown(alloc, Some(loaded(&mut system, 0xE000_E004)?))
}
