//! A run on `Slow`, whose trace is written as `marm run` writes that of `Fast`.

ghost use Rattle.std.specs.Prelude.{◌≡◌};

use board::Board;
use elf::load;
use machine::{Over, Paged, Slow};
use std::alloc::Global;
use std::io;
use std::io::Write;
use std::marker::Brand;
use std::sync::ledger::{Blank, Ledger};

/// Runs an image on a board for at most `steps` steps, and writes its trace.
pub fn run_image<W: Write + Drop>(
    alloc: Global,
    image: &[u8],
    board: &Board,
    steps: u64,
    mut out: W,
) -> io::Result<()> {
    let Ok(image) = load(image) else {
        return out.write_all(b"the image is refused\n");
    };
    let Ok(machine) = Slow::new(alloc, &image, board) else {
        return out.write_all(b"the machine doesn't start\n");
    };
    write_trace::<W, Brand>(machine, steps, out, Blank::new(1))
}

/// Runs a machine for at most `steps` steps, and writes its trace. `blank` counts the calls of `out` that fail.
fn write_trace<W: Write + Drop, K: Ledger>(
    machine: Slow,
    steps: u64,
    out: W,
    blank: Blank,
) -> io::Result<()>
    requires name { blank.name ≡ K.name }
    requires parts { blank.parts ≡ K.parts }
    requires some { blank.parts ≡ 1 }
{
    let mut machine = machine;
    let mut out: Paged<Over<W, K>> = Paged::new(Over::new(out, blank));
    let ran = machine.run(steps, &mut out);
    match (ran, out.flush()) {
        (Ok(_), Ok(())) => Ok(()),
        (Ok(_) | Err(_), Ok(()) | Err(_)) => Err(io::Error::from(io::ErrorKind::Other)),
    }
}
