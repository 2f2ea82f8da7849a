//! Command lines that are taken or refused, and an argument that isn't a text.

use super::cut::Cut;
use super::files::holds;
use command::{refuse_args, words};
use command_line::{Subcommand, subcommand_of};
use std::alloc::Global;
use std::env::FillError;
use std::rt::Env;
use std::test::*;
use test_tables::{Rows, check, part};

/// The steps that a command line asks for: none where it is refused, or out of memory.
fn steps_of(alloc: Global, line: &str) -> Option<u64> {
    let mut words = Vec::new(alloc);
    for word in line.split_whitespace() {
        words.push(word.to_string(alloc).ok()?).ok()?;
    }
    match subcommand_of(alloc, words.as_slice()).ok()? {
        Subcommand::Run(run) => Some(run.steps),
        Subcommand::Report(report) => Some(report.steps),
        Subcommand::Tasks(tasks) => Some(tasks.steps),
        Subcommand::Gdb(gdb) => Some(gdb.steps),
        Subcommand::Debug(_) => None,
    }
}

/// Command lines, and the steps that they ask for.
#[derive(Drop)]
struct Lines {
    alloc: Global,
}

impl Rows for Lines {
    fn holds(&mut self, row: &str) -> Option<bool> {
        let steps = steps_of(self.alloc, part(row, 0));
        let wanted = part(row, 1);
        Some(steps == wanted.parse::<u64>().ok() && steps.is_none() == (wanted == "-"))
    }
}

/// A command line, and the steps that it asks for, `-` where it is refused.
const WORDS: &str = "\
marm run --board b.toml --steps 10 first.elf | 10
marm run first.elf --steps 0 --board b.toml | 0
marm run --steps=4294967296 --board=b.toml first.elf | 4294967296
marm run --board b.toml --steps 4294967297 first.elf | -
marm run --board b.toml --steps ten first.elf | -
marm report --board b.toml --steps 4294967296 first.elf | 4294967296
marm report --board b.toml --steps 4294967297 first.elf | -
marm report --board b.toml first.elf | -
marm report --board b.toml --steps 1 --trace none first.elf | -
marm gdb --board b.toml --steps 10 first.elf | 10
marm gdb --board b.toml first.elf | 4294967296
marm gdb --board b.toml --steps 4294967297 first.elf | -
marm gdb --steps 10 first.elf | -
marm run --board b.toml --steps 10 | -
marm run --board b.toml first.elf | -
marm run --steps 10 first.elf | -
marm run --frob --board b.toml --steps 10 first.elf | -
marm | -";

#[test]
fn words_are_taken_or_refused(rt: HostRuntime) -> Result<(), Fail> {
    check(WORDS, &mut Lines { alloc: rt.alloc() })
}

/// Arguments after `marm` and `run` of which one isn't a text.
#[derive(Clone, Copy)]
enum Given {
    /// The last byte of an argument is in no text.
    LastByte,
    /// The first byte of the second argument of two is in none.
    FirstByte,
}

impl Given {
    /// Returns an argument; the first one is the program's name.
    fn word_at(self, place: usize) -> Option<&'static [u8]> {
        match place {
            0 => Some(b"marm"),
            1 => Some(b"run"),
            2 => self.second(),
            3 => self.third(),
            _ => None,
        }
    }

    /// Returns the argument after `run`.
    fn second(self) -> Option<&'static [u8]> {
        match self {
            Given::LastByte => Some(b"--board=\xFF"),
            Given::FirstByte => Some(b"--board"),
        }
    }

    /// Returns the argument after that.
    fn third(self) -> Option<&'static [u8]> {
        match self {
            Given::LastByte => None,
            Given::FirstByte => Some(b"\xFFa"),
        }
    }
}

impl Env for Given {
    fn arg(&self, i: usize, buf: &mut [u8]) -> Result<usize, FillError> {
        let Some(word) = self.word_at(i) else {
            return Err(FillError::NotPresent);
        };
        let length = word.len();
        if length > buf.len() {
            return Err(FillError::TooLong);
        }
        buf[..length].copy_from_slice(word);
        Ok(length)
    }

    fn var(&self, _name: &str, _buf: &mut [u8]) -> Result<usize, FillError> {
        Err(FillError::NotPresent)
    }

    fn var_at(&self, _i: usize, _buf: &mut [u8]) -> Result<usize, FillError> {
        Err(FillError::NotPresent)
    }
}

/// Returns whether arguments are refused with this text.
fn are_refused(alloc: Global, given: Given, text: &[u8]) -> bool {
    let mut err = Cut::whole();
    let status = match words(&(given, alloc)) {
        Ok(_) => 0,
        Err(error) => refuse_args(&error, &mut err),
    };
    status == 2 && err.text.as_slice() == text
}

#[test]
fn a_word_that_is_no_text_is_numbered(rt: HostRuntime) -> Result<(), Fail> {
    let text =
        b"marm: usage\n  argument 2 isn't a text in UTF-8 (the program's name is argument 0)\n";
    holds(are_refused(rt.alloc(), Given::LastByte, text), "word 2")?;
    let text =
        b"marm: usage\n  argument 3 isn't a text in UTF-8 (the program's name is argument 0)\n";
    holds(are_refused(rt.alloc(), Given::FirstByte, text), "word 3")
}
