//! Accesses to one bus, one after another (ARM DDI 0403, MemA[] and MemU[]).

use crate::memory::blank;
use crate::words::{request, rule_word, shown};
use access::{
    Bus, Cause, CodeMemory, EagerSysTick, Performed, PlainExceptions, Script, Search, System,
};
use decode::DecodeEachTime;
use devices::Devices;
use std::alloc::Global;
use std::io;
use test_tables::{Lines, Outcome, byte_at, number_at, part, run_lines, word};

type PlainBus = Bus<Search, DecodeEachTime, PlainExceptions, EagerSysTick>;

/// Returns the outcome of a row of accesses to a bus.
pub fn outcome(alloc: Global, row: &str) -> io::Result<Outcome> {
    match fresh(alloc) {
        Some(bus) => run_lines(alloc, row, 1, &mut Accesses { bus }),
        None => Ok(Outcome::Unreadable),
    }
}

/// A bus after a reset.
fn fresh(alloc: Global) -> Option<PlainBus> {
    let memory = CodeMemory::new(alloc, blank(alloc)?, 0x800).ok()?;
    let (script, devices) = (
        Script::new(alloc, &[]).ok()?,
        Devices::new(alloc, &[]).ok()?,
    );
    Some(Bus::new(memory, System::reset(0, 8, 4, 8, script, devices)))
}

/// How an access was decided: the rule's word, and its outcome.
fn words_of(performed: Performed) -> (&'static str, &'static str) {
    match performed {
        Performed::Done(done) => (rule_word(done.rule), "ok"),
        Performed::Denied(rule, Cause::Mpu) => (rule_word(rule), "mpu"),
        Performed::Denied(rule, Cause::Bus) => (rule_word(rule), "bus"),
        Performed::Stop(_) => ("-", "stop"),
    }
}

/// The bus that the accesses of a row go to.
#[derive(Drop)]
struct Accesses {
    bus: PlainBus,
}

impl Lines for Accesses {
    fn answer(&mut self, alloc: Global, line: &str) -> Option<String> {
        let asked = part(line, 0);
        match word(asked, 0) {
            "region" => match self.bus.system.region(byte_at(asked, 1)?) {
                Some((base, attributes)) => format!(in alloc; "{base:X} {attributes:X}").ok(),
                None => shown(alloc, None),
            },
            "byte" => match self.bus.memory().byte(number_at(asked, 1)?) {
                Some(byte) => shown(alloc, Some(u32::from(byte))),
                None => shown(alloc, None),
            },
            _ => {
                let (rule, outcome) = words_of(self.bus.perform(0, &request(asked)?));
                format!(in alloc; "{rule} {outcome}").ok()
            }
        }
    }
}
