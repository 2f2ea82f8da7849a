//! Runs tables of rows: what the command, whole machines and debug sessions are to write, and the words of a page.
//! docs/ROWS.md has the lines of a row.
#![tactic(auto)]

mod boards;
mod case;
mod commands;
mod compared;
mod elf_file;
mod machines;
mod page_words;
mod pairs;
mod seen;
mod sessions;
mod stays;
mod streams;
mod words;

use std::io;
use std::process::ExitCode;
use test_tables::{Kinds, Outcome, kind_of, run_tables};

/// The kinds of tables.
#[derive(Drop)]
struct AllKinds<'a> {
    rt: &'a HostRuntime,
}

impl Kinds for AllKinds<'_> {
    fn has_line_rows(&self, table: &str) -> bool {
        matches!(kind_of(table), ("page_words", _))
    }

    fn check(&mut self, table: &str, row: &str) -> io::Result<Outcome> {
        let alloc = self.rt.alloc();
        let outcome = match kind_of(table) {
            ("command", _) => commands::check(self.rt, row),
            ("machine", _) => machines::check(alloc, row),
            ("page_words", name) => return page_words::outcome(alloc, name, row),
            ("pair", _) => pairs::check(alloc, row),
            ("session", _) => sessions::check(alloc, row),
            (_, _) => None,
        };
        Ok(outcome.unwrap_or(Outcome::Unreadable))
    }
}

fn main(rt: HostRuntime) -> ExitCode {
    run_tables(&rt, &mut AllKinds { rt: &rt })
}
