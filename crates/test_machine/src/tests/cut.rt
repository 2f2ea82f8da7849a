//! A writer that takes little, and a run that writes to it.

ghost use Rattle.std.specs.Prelude.{◌≡◌};

use arrayvec::ArrayVec;
use machine::{Decider, Exceptions, KeptCode, Machine, Over, RunError, Stop, SysTickState};
use std::io;
use std::io::Write;
use std::marker::Brand;
use std::sync::ledger::{Blank, Ledger};

/// The most bytes that a run of a test writes.
pub(super) const ROOM: usize = 5120;

/// What a run writes.
pub(super) type Text = ArrayVec<u8, ROOM>;

/// A writer that takes `most` bytes a call and `left` in all, and then fails or takes none.
#[derive(Drop)]
pub(super) struct Cut {
    pub(super) text: Text,
    left: usize,
    most: usize,
    fails: bool,
}

impl Cut {
    pub(super) fn new(left: usize, most: usize, fails: bool) -> Self {
        Cut {
            text: Text::new(),
            left,
            most,
            fails,
        }
    }

    /// A writer that takes all that a run writes.
    pub(super) fn whole() -> Self {
        Cut::new(ROOM, ROOM, true)
    }
}

impl Write for Cut {
    fn write(&mut self, buf: &[u8]) -> io::Result<usize> {
        let taken = buf.len().min(self.left).min(self.most);
        if taken == 0 && self.fails {
            return Err(io::Error::from(io::ErrorKind::BrokenPipe));
        }
        self.left -= taken;
        let _ = self.text.try_extend_from_slice(&buf[..taken]);
        Ok(taken)
    }

    fn flush(&mut self) -> io::Result<()> {
        Ok(())
    }
}

/// A run of at most this number of steps.
pub(super) fn run<D: Decider, C: KeptCode, L: Exceptions, U: SysTickState>(
    machine: &mut Machine<D, C, L, U>,
    steps: u32,
    out: &mut Cut,
) -> Result<Stop, RunError> {
    run_over::<D, C, L, U, Brand>(machine, steps, out, Blank::new(1))
}

fn run_over<D: Decider, C: KeptCode, L: Exceptions, U: SysTickState, K: Ledger>(
    machine: &mut Machine<D, C, L, U>,
    steps: u32,
    out: &mut Cut,
    blank: Blank,
) -> Result<Stop, RunError>
    requires name { blank.name ≡ K.name }
    requires parts { blank.parts ≡ K.parts }
    requires some { blank.parts ≡ 1 }
{
    let mut out: Over<&mut Cut, K> = Over::new(out, blank);
    machine.run(u64::from(steps), &mut out)
}
