//! Commands over files: the status, what goes to both streams, and what the files have that a command writes.

use super::case::Case;
use super::compared::{compare_err, compare_file, compare_out};
use super::stays;
use super::streams::{Input, Output};
use super::words::split_line;
use command::program;
use std::fs;
use test_tables::{Outcome, number_at, word};

/// The paths of the image and of the board of a command.
const IMAGE_PATH: &str = "image.elf";

const BOARD_PATH: &str = "board.toml";

/// How a command ended: its status, and what it wrote.
#[derive(Drop)]
struct Ended {
    status: u8,
    out: Output,
    err: Output,
}

/// Runs the commands of a row.
pub fn check(rt: &HostRuntime, row: &str) -> Option<Outcome> {
    let alloc = rt.alloc();
    let mut case = Case::new(alloc);
    'lines: for line in row.lines().skip(1) {
        if case.read(line).is_none() {
            return Outcome::unreadable(alloc, line).ok();
        }
    }
    if case.commands.is_empty() {
        return None;
    }
    let image = case.image()?;
    'commands: for words in case.commands.iter() {
        put_old(rt, row)?;
        let ended = run(rt, &case, words.as_slice(), image.as_slice())?;
        let outcome = compare(rt, row, &case, &ended)?;
        remove(rt, row);
        if !outcome.holds() {
            return Some(outcome);
        }
    }
    if case.stays {
        return stays::check(alloc, row, image.as_slice(), case.board());
    }
    Some(Outcome::Holds)
}

/// Runs a command over the files of a case.
fn run(rt: &HostRuntime, case: &Case, words: &[String], image: &[u8]) -> Option<Ended> {
    fs::write(rt, IMAGE_PATH, image).ok()?;
    fs::write(rt, BOARD_PATH, case.board()).ok()?;
    let mut out = Output::new(rt.alloc(), case.room);
    out.limit_calls(case.piece, case.fails);
    let mut err = Output::whole(rt.alloc());
    let input = Input {
        text: case.input.as_bytes(),
        left: case.readable,
    };
    let status = program(rt, words, input, &mut out, &mut err);
    fs::remove_file(rt, IMAGE_PATH).ok()?;
    fs::remove_file(rt, BOARD_PATH).ok()?;
    Some(Ended { status, out, err })
}

/// Compares how a command ended with what a row says.
fn compare(rt: &HostRuntime, row: &str, case: &Case, ended: &Ended) -> Option<Outcome> {
    let alloc = rt.alloc();
    let out = compare_out(alloc, row, ended.out.text.as_slice())?;
    if !out.holds() {
        return Some(out);
    }
    let err = compare_err(alloc, row, ended.err.text.as_slice())?;
    if !err.holds() {
        return Some(err);
    }
    let (wanted, came) = (case.status()?, ended.status);
    if wanted != came {
        let wanted = format!(in alloc; "ends {wanted:X}").ok()?;
        let came = format!(in alloc; "ends {came:X}").ok()?;
        return Outcome::differs(alloc, wanted.as_str(), came.as_str()).ok();
    }
    compare_files(rt, row)
}

/// Compares the files that a row names with what it says of them.
fn compare_files(rt: &HostRuntime, row: &str) -> Option<Outcome> {
    'lines: for line in row.lines().skip(1) {
        let path = word(line, 1);
        if word(line, 0) != "file" {
            continue;
        }
        let outcome = if fs::exists(rt, path).ok()? {
            let held = fs::read(rt, path).ok()?;
            compare_file(rt.alloc(), row, path, held.as_slice())?
        } else if word(line, 2) == "none" {
            Outcome::Holds
        } else {
            Outcome::differs(rt.alloc(), line, "(no file)").ok()?
        };
        if !outcome.holds() {
            return Some(outcome);
        }
    }
    Some(Outcome::Holds)
}

/// Writes the files that are there before a command: each line `old` has a path, and a number of bytes.
fn put_old(rt: &HostRuntime, row: &str) -> Option<()> {
    'lines: for line in row.lines().skip(1) {
        if let ("old", rest) = split_line(line) {
            let length = number_at(rest, 1)? as usize;
            let bytes = vec![in rt.alloc(); b'x'; length].ok()?;
            fs::write(rt, word(rest, 0), bytes.as_slice()).ok()?;
        }
    }
    Some(())
}

/// Removes the files that a row names, where they are there.
fn remove(rt: &HostRuntime, row: &str) {
    'lines: for line in row.lines().skip(1) {
        if matches!(word(line, 0), "file" | "old") {
            let _ = fs::remove_file(rt, word(line, 1));
        }
    }
}
