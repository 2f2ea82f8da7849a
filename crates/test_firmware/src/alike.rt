//! One debug session over two images, and which of its answers differ.

ghost use Rattle.std.specs.Prelude.{◌≡◌};
ghost use Rattle.debugger.specs.Slots.{HaveRoom};

use board::Board;
use debugger::{Slots, session};
use elf::load;
use machine::{Decider, Exceptions, Fast, KeptCode, Layout, Machine, Over, SysTickState};
use std::alloc::Global;
use std::io;
use std::io::Write;
use std::marker::Brand;
use std::sync::ledger::{Blank, Ledger};

/// An image, with the path of its file.
#[derive(Clone, Copy)]
pub struct Named<'a> {
    pub path: &'a str,
    pub image: &'a [u8],
}

/// Holds the session of some commands over two images on a board. Writes each line of the answers that
/// isn't the same over both, and of the other lines how each run of a task ended.
pub fn write_unlike<W: Write>(
    alloc: Global,
    board: &Board,
    commands: &[u8],
    one: Named<'_>,
    other: Named<'_>,
    out: &mut W,
) -> io::Result<()> {
    let (Some(answers), Some(others)) = (
        answers_of(alloc, board, commands, one.image),
        answers_of(alloc, board, commands, other.image),
    ) else {
        return out.write_all(b"a session failed\n");
    };
    let mut lines = answers.as_slice().split(|byte| *byte == b'\n');
    let mut other_lines = others.as_slice().split(|byte| *byte == b'\n');
    for line in lines {
        let other_line = other_lines.next().unwrap_or(b"");
        if line != other_line {
            write_line(one.path, line, out)?;
            write_line(other.path, other_line, out)?;
        } else if line.starts_with(b"task ") {
            out.write_all(line)?;
            out.write_all(b"\n")?;
        }
    }
    if other_lines.next().is_some() {
        return out.write_all(b"one session has fewer lines\n");
    }
    Ok(())
}

/// Writes a line after the path of its image.
fn write_line<W: Write>(path: &str, line: &[u8], out: &mut W) -> io::Result<()> {
    out.write_all(path.as_bytes())?;
    out.write_all(b": ")?;
    out.write_all(line)?;
    out.write_all(b"\n")
}

/// Returns the answers of a session over an image.
fn answers_of(alloc: Global, board: &Board, commands: &[u8], image: &[u8]) -> Option<Vec<u8>> {
    let image = load(image).ok()?;
    let mut machine = Fast::new(alloc, &image, board).ok()?;
    run_session(alloc, &mut machine, board.layout, commands)
}

/// Holds a session of a machine, and returns its answers.
fn run_session<D: Decider, C: KeptCode, L: Exceptions, U: SysTickState>(
    alloc: Global,
    machine: &mut Machine<D, C, L, U>,
    layout: Layout,
    commands: &[u8],
) -> Option<Vec<u8>> {
    session_over::<D, C, L, U, Brand>(alloc, machine, layout, commands, Blank::new(1))
}

/// Holds a session of a machine: makes the reader, whose ledger `blank` is of.
fn session_over<D: Decider, C: KeptCode, L: Exceptions, U: SysTickState, K: Ledger>(
    alloc: Global,
    machine: &mut Machine<D, C, L, U>,
    layout: Layout,
    commands: &[u8],
    blank: Blank,
) -> Option<Vec<u8>>
    requires name { blank.name ≡ K.name }
    requires parts { blank.parts ≡ K.parts }
    requires some { blank.parts ≡ 1 }
{
    let mut input: Over<&[u8], K> = Over::new(commands, blank);
    let Ok(slots) = Slots::new(alloc, 0, machine) else {
        return None;
    };
    answer::<D, C, L, U, K, Brand>(
        machine,
        layout,
        slots,
        &mut input,
        Vec::new(alloc),
        Blank::new(1),
    )
}

/// Holds a session of a machine, and returns its answers after those of `answers`.
fn answer<D: Decider, C: KeptCode, L: Exceptions, U: SysTickState, J: Ledger, K: Ledger>(
    machine: &mut Machine<D, C, L, U>,
    layout: Layout,
    slots: Slots<Machine<D, C, L, U>>,
    input: &mut Over<&[u8], J>,
    answers: Vec<u8>,
    blank: Blank,
) -> Option<Vec<u8>>
    requires room { HaveRoom slots machine.old.state.bus }
    requires name { blank.name ≡ K.name }
    requires parts { blank.parts ≡ K.parts }
    requires some { blank.parts ≡ 1 }
{
    let mut out: Over<Vec<u8>, K> = Over::new(answers, blank);
    session(machine, layout, slots, input, &mut out).ok()?;
    Some(out.into_inner())
}
