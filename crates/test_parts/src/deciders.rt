//! The table of intervals and the kept decisions beside the search: by registers that are written, and by a bus whose
//! accesses are stores to them.

use crate::memory::blank;
use crate::settings::{registers_of, write_pairs};
use crate::words::{ALL_KINDS, rule_word};
use access::{Bus, CodeMemory, EagerSysTick, Performed, PlainExceptions, Script, System};
use decode::DecodeEachTime;
use devices::Devices;
use instruction_set::size::Size;
use mpu::{Decider, Decision, MpuRegs, Search};
use mpu_table::{KeptDecisions, LazyTable, Table};
use platform::access::{Access, Kind, Request};
use std::alloc::Global;
use std::io;
use test_tables::{Outcome, compared, pair, part};

/// Returns the outcome of a row of registers or of stores to them.
pub fn outcome(alloc: Global, table: &str, row: &str) -> io::Result<Outcome> {
    match table {
        "agreements" => compared(alloc, part(row, 2), agreed(alloc, row)),
        "stores" => compared(alloc, "each store is followed", followed(alloc, row)),
        _ => Ok(Outcome::Unreadable),
    }
}

// ---- registers

/// Returns whether two decisions are the same.
fn is_same(one: Decision, other: Decision) -> bool {
    rule_word(one.rule) == rule_word(other.rule) && one.granted == other.granted
}

/// Returns whether a decider and the search decide each kind of access to an address alike.
fn agree_at<D: Decider>(decider: &D, search: &Search, address: u32) -> bool {
    let mut agrees = true;
    'kinds: for kind in ALL_KINDS.iter() {
        'privileges: for privileged in [false, true].iter() {
            let decided = decider.decide(address, *kind, *privileged, false);
            agrees &= is_same(decided, search.decide(address, *kind, *privileged, false));
        }
    }
    agrees
}

/// Returns whether they do at both ends of each interval, which `find` finds in at most 8 tests.
fn agree(registers: &MpuRegs, table: &Table) -> bool {
    let search = Search::fresh(registers);
    let mut agrees = true;
    'intervals: for (place, interval) in table.intervals().iter().enumerate() {
        let (found, looks) = table.find(interval.last);
        agrees &= found == place
            && looks <= 8
            && agree_at(table, &search, interval.first)
            && agree_at(table, &search, interval.last);
    }
    agrees
}

/// Both ends of an interval, and the addresses beside them.
fn edges(first: u32, last: u32) -> [u32; 6] {
    [
        first.saturating_sub(1),
        first,
        first.saturating_add(1),
        last.saturating_sub(1),
        last,
        last.saturating_add(1),
    ]
}

/// Returns whether kept decisions and the search decide each kind of access to an address alike,
/// below priority 0 too.
fn keep_at(kept: &mut KeptDecisions<LazyTable>, search: &Search, address: u32) -> bool {
    let mut agrees = true;
    'kinds: for kind in ALL_KINDS.iter() {
        'levels: for bits in 0u32..4 {
            let privileged = bits & 1 == 1;
            let below_zero = bits & 2 == 2;
            let wanted = search.decide(address, *kind, privileged, below_zero);
            let first = kept.decide_and_keep(address, *kind, privileged, below_zero);
            let again = kept.decide_and_keep(address, *kind, privileged, below_zero);
            agrees &= is_same(first, wanted) && is_same(again, wanted);
        }
    }
    agrees
}

/// Returns whether they do about both ends of each interval.
fn kept_agree(registers: &MpuRegs, table: &Table, kept: &mut KeptDecisions<LazyTable>) -> bool {
    let search = Search::fresh(registers);
    let mut agrees = true;
    'intervals: for interval in table.intervals().iter() {
        'edges: for address in edges(interval.first, interval.last).iter() {
            agrees &= keep_at(kept, &search, *address);
        }
    }
    agrees
}

/// How many intervals there are after the writes of a row, after each of which the table is made anew; or the write
/// after which a decider decides otherwise than the search.
fn agreed(alloc: Global, row: &str) -> Option<String> {
    let mut registers = registers_of(part(row, 0))?;
    let mut table = Table::fresh(&registers);
    let mut kept = KeptDecisions::<LazyTable>::fresh(&registers);
    if !(agree(&registers, &table) && kept_agree(&registers, &table, &mut kept)) {
        return "other decisions before all writes".to_string(alloc).ok();
    }
    'writes: for write in part(row, 1).split_whitespace() {
        write_pairs(&mut registers, write)?;
        table.reload(&registers);
        kept.reload(&registers);
        if !(agree(&registers, &table) && kept_agree(&registers, &table, &mut kept)) {
            return format!(in alloc; "other decisions after {write}").ok();
        }
    }
    let count = table.intervals().len();
    format!(in alloc; "{count:X}").ok()
}

// ---- stores to a bus

/// A store of a word by privileged code.
fn store(address: u32, value: u32) -> Request {
    Request {
        access: Access {
            kind: Kind::Store,
            size: Size::Word,
            address,
            privileged: true,
        },
        value,
    }
}

/// Returns whether a decider decides as the search of these registers at each boundary, and beside it.
fn agree_beside<D: Decider>(decider: &D, registers: &MpuRegs) -> bool {
    let search = Search::fresh(registers);
    let mut agrees = true;
    'intervals: for interval in Table::fresh(registers).intervals().iter() {
        'edges: for address in edges(interval.first, interval.last).iter() {
            agrees &= agree_at(decider, &search, *address);
        }
    }
    agrees && agree_at(decider, &search, 0) && agree_at(decider, &search, u32::MAX)
}

/// The first store of a row that a bus doesn't take, or that its decider doesn't follow; empty where there is none.
fn unfollowed<'a, D: Decider>(alloc: Global, row: &'a str) -> Option<&'a str> {
    let memory = CodeMemory::new(alloc, blank(alloc)?, 0x800).ok()?;
    let (script, devices) = (
        Script::new(alloc, &[]).ok()?,
        Devices::new(alloc, &[]).ok()?,
    );
    let system = System::reset(0, 8, 4, 8, script, devices);
    let mut bus: Bus<D, DecodeEachTime, PlainExceptions, EagerSysTick> = Bus::new(memory, system);
    let mut registers = MpuRegs::new(8);
    'lines: for line in row.lines().skip(1) {
        'words: for word in line.split_whitespace() {
            let (address, value) = pair(word)?;
            let performed = bus.perform(0, &store(address, value));
            write_pairs(&mut registers, word)?;
            if !matches!(performed, Performed::Done(_))
                || !agree_beside(bus.system.decider(), &registers)
            {
                return Some(word);
            }
        }
    }
    Some("")
}

/// Whether each decider follows the stores of a row.
fn followed(alloc: Global, row: &str) -> Option<String> {
    let search = unfollowed::<Search>(alloc, row)?;
    let table = unfollowed::<Table>(alloc, row)?;
    let kept = unfollowed::<KeptDecisions<LazyTable>>(alloc, row)?;
    match (search, table, kept) {
        ("", "", "") => "each store is followed".to_string(alloc).ok(),
        (_, _, _) => {
            format!(in alloc;
                "unfollowed: Search {search}; Table {table}; KeptDecisions {kept}"
            ).ok()
        }
    }
}
