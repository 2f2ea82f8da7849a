//! A reader that ends early and a writer that takes little, and runs that write to it.

ghost use Rattle.std.specs.Prelude.{◌≡◌};

use machine::{
    Decider, Exceptions, KeptCode, Machine, Over, RunError, Stop, SysTickState, TaskEnd,
    TraceSelection,
};
use std::alloc::Global;
use std::io;
use std::io::{Read, Write};
use std::marker::Brand;
use std::sync::ledger::{Blank, Ledger};

/// A reader that returns `left` bytes of a text, and then fails where the text isn't at its end.
#[derive(Drop)]
pub struct Input<'a> {
    pub text: &'a [u8],
    pub left: usize,
}

impl Read for Input<'_> {
    fn read(&mut self, buf: &mut [u8]) -> io::Result<usize> {
        if self.left == 0 && !self.text.is_empty() {
            return Err(io::Error::from(io::ErrorKind::BrokenPipe));
        }
        let count = buf.len().min(self.left).min(self.text.len());
        let (front, rest) = self.text.split_at(count);
        buf[..count].copy_from_slice(front);
        self.text = rest;
        self.left -= count;
        Ok(count)
    }
}

/// A writer that takes `left` bytes, at most `piece` in a call, and then fails or takes none.
#[derive(Drop)]
pub struct Output {
    pub text: Vec<u8>,
    left: usize,
    piece: usize,
    fails: bool,
}

impl Output {
    pub fn new(alloc: Global, left: usize) -> Self {
        Output {
            text: Vec::new(alloc),
            left,
            piece: usize::MAX,
            fails: true,
        }
    }

    /// Lets a call take at most `piece` bytes, and says whether those after the last byte fail.
    pub fn limit_calls(&mut self, piece: usize, fails: bool) {
        self.piece = piece;
        self.fails = fails;
    }

    /// A writer that takes all.
    pub fn whole(alloc: Global) -> Self {
        Output::new(alloc, usize::MAX)
    }
}

impl Write for Output {
    fn write(&mut self, buf: &[u8]) -> io::Result<usize> {
        let taken = buf.len().min(self.left).min(self.piece);
        if taken == 0 && self.fails {
            return Err(io::Error::from(io::ErrorKind::BrokenPipe));
        }
        self.text.extend_from_slice(&buf[..taken])?;
        self.left -= taken;
        Ok(taken)
    }

    fn flush(&mut self) -> io::Result<()> {
        Ok(())
    }
}

/// A run of at most this number of steps, of which the selected events are written.
pub fn run<D: Decider, C: KeptCode, L: Exceptions, U: SysTickState>(
    machine: &mut Machine<D, C, L, U>,
    selection: TraceSelection,
    steps: u32,
    out: &mut Output,
) -> Result<Stop, RunError> {
    run_over::<D, C, L, U, Brand>(machine, selection, steps, out, Blank::new(1))
}

fn run_over<D: Decider, C: KeptCode, L: Exceptions, U: SysTickState, K: Ledger>(
    machine: &mut Machine<D, C, L, U>,
    selection: TraceSelection,
    steps: u32,
    out: &mut Output,
    blank: Blank,
) -> Result<Stop, RunError>
    requires name { blank.name ≡ K.name }
    requires parts { blank.parts ≡ K.parts }
    requires some { blank.parts ≡ 1 }
{
    let mut out: Over<&mut Output, K> = Over::new(out, blank);
    machine.run_selected(selection, u64::from(steps), &mut out)
}

/// A run of a task, of at most this number of steps.
pub fn run_task<D: Decider, C: KeptCode, L: Exceptions, U: SysTickState>(
    machine: &mut Machine<D, C, L, U>,
    steps: u32,
    out: &mut Output,
) -> Result<TaskEnd, RunError> {
    run_task_over::<D, C, L, U, Brand>(machine, steps, out, Blank::new(1))
}

fn run_task_over<D: Decider, C: KeptCode, L: Exceptions, U: SysTickState, K: Ledger>(
    machine: &mut Machine<D, C, L, U>,
    steps: u32,
    out: &mut Output,
    blank: Blank,
) -> Result<TaskEnd, RunError>
    requires name { blank.name ≡ K.name }
    requires parts { blank.parts ≡ K.parts }
    requires some { blank.parts ≡ 1 }
{
    let mut out: Over<&mut Output, K> = Over::new(out, blank);
    machine.run_task(u64::from(steps), &mut out)
}
