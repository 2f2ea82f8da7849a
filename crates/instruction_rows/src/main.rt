//! The tests of the crates that an instruction goes through, as tables of rows in `data`: whole instructions, from
//! their halfwords through `decode`, `plan` and `finish` to what they leave; what halfwords mean; instructions that are
//! kept; the core registers.
#![tactic(auto)]

use std::alloc::Global;
use std::io;
use std::process::ExitCode;
use test_tables::{Kinds, Outcome, kind_of, run_tables};

mod case;
mod decoding;
mod kept;
mod memory;
mod operands;
mod registers;
mod steps;

/// What reads the rows of all tables.
#[derive(Drop)]
struct AllTables {
    alloc: Global,
}

impl Kinds for AllTables {
    fn has_line_rows(&self, table: &str) -> bool {
        match kind_of(table) {
            ("case" | "stop", _) | ("kept", "fetches") => false,
            (_, _) => true,
        }
    }

    fn check(&mut self, table: &str, row: &str) -> io::Result<Outcome> {
        match kind_of(table) {
            ("case", _) => steps::case_outcome(self.alloc, row),
            ("stop", _) => steps::stop_outcome(self.alloc, row),
            ("decoding", name) => decoding::outcome(self.alloc, name, row),
            ("kept", name) => kept::outcome(self.alloc, name, row),
            ("registers", name) => registers::outcome(self.alloc, name, row),
            (_, _) => Ok(Outcome::Unreadable),
        }
    }
}

fn main(rt: HostRuntime) -> ExitCode {
    let mut tables = AllTables { alloc: rt.alloc() };
    run_tables(&rt, &mut tables)
}
