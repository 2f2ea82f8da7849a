//! The tests of single crates beside and below the machine: tables of rows in `data`, whose values come from the manual
//! (ARM DDI 0403) and from the formats' own texts.
#![tactic(auto)]

use std::alloc::Global;
use std::io;
use std::process::ExitCode;
use test_tables::{Kinds, Outcome, kind_of, run_tables};

mod accesses;
mod board_contents;
mod boards;
mod deciders;
mod device_accesses;
mod device_tables;
mod images;
mod memory;
mod priorities;
mod region_registers;
mod regions;
mod settings;
mod special_registers;
mod survey_counts;
mod survey_rows;
mod survey_timeline;
mod survey_words;
mod system_registers;
mod ticks;
mod trace_lines;
mod words;
mod worlds;

/// What reads the rows of all tables.
#[derive(Drop)]
struct AllTables {
    alloc: Global,
}

impl Kinds for AllTables {
    fn has_line_rows(&self, table: &str) -> bool {
        match kind_of(table) {
            ("accesses" | "board_contents" | "device_accesses", _) => false,
            ("special_registers" | "worlds", _) => false,
            ("boards", "more_lines" | "events" | "texts") => false,
            ("deciders", "stores") | ("device_tables", "more_lines") => false,
            ("images", "listings") | ("memory", "accesses") => false,
            ("system_registers", "registers" | "accesses") => false,
            ("ticks", "clocks") | ("trace_lines", "later" | "fetches") => false,
            (_, _) => true,
        }
    }

    fn check(&mut self, table: &str, row: &str) -> io::Result<Outcome> {
        let alloc = self.alloc;
        match kind_of(table) {
            ("accesses", _) => accesses::outcome(alloc, row),
            ("board_contents", _) => board_contents::outcome(alloc, row),
            ("boards", name) => boards::outcome(alloc, name, row),
            ("deciders", name) => deciders::outcome(alloc, name, row),
            ("device_accesses", _) => device_accesses::outcome(alloc, row),
            ("device_tables", name) => device_tables::outcome(alloc, name, row),
            ("images", name) => images::outcome(alloc, name, row),
            ("memory", name) => memory::outcome(alloc, name, row),
            ("priorities", name) => priorities::outcome(alloc, name, row),
            ("region_registers", name) => region_registers::outcome(alloc, name, row),
            ("regions", name) => regions::outcome(alloc, name, row),
            ("special_registers", _) => special_registers::outcome(alloc, row),
            ("survey_counts", name) => survey_counts::outcome_of(alloc, name, row),
            ("survey_rows", name) => survey_rows::outcome(alloc, name, row),
            ("survey_timeline", name) => survey_timeline::outcome(alloc, name, row),
            ("system_registers", name) => system_registers::outcome(alloc, name, row),
            ("ticks", name) => ticks::outcome(alloc, name, row),
            ("trace_lines", name) => trace_lines::outcome(alloc, name, row),
            ("worlds", name) => worlds::outcome(alloc, name, row),
            (_, _) => Ok(Outcome::Unreadable),
        }
    }
}

fn main(rt: HostRuntime) -> ExitCode {
    let mut tables = AllTables { alloc: rt.alloc() };
    run_tables(&rt, &mut tables)
}
