//! A debug session from the bytes of an image and of a board.

ghost use Rattle.std.specs.Prelude.{◌≡◌};
ghost use Rattle.command.specs.Opening.{board_in_file};
ghost use Rattle.command.specs.Sessions.{SessionTo, RunsSessionOf};
ghost use Rattle.platform.specs.Images.{image_of};

use crate::error::Error;
use crate::files::InputFile;
use crate::opening::{Opened, open};
use crate::reason::refuse;
use debugger::{Slots, session};
use machine::{In, Out, StartError};
use std::alloc::Global;
use std::io::Write;

/// Debugs an image on a board by the commands of `input`, with `slots` slots for states of the machine, and writes
/// their answers to `out`, or the refusal to `err`. Returns the exit status: 0 where the session ended, 3 for a
/// refused image, board or start or where memory runs out, 5 where `input` or `out` failed. No answer waits to be
/// sent at the end, unless `out` failed.
#[inline(never)]
pub fn debug<I: In, O: Out, E: Write>(
    alloc: Global,
    image: InputFile<'_>,
    board: InputFile<'_>,
    slots: u8,
    input: &mut I,
    out: &mut O,
    err: &mut E,
) -> u8
    ensures debugs { SessionTo (image_of image.entry.bytes.now) (board_in_file board.entry.bytes.now) slots
        (I.reading input.old) (I.reading input.new) (O.writing out.old) (O.writing out.new) result }
    ensures quiet { result ≡ 0 → err.new ≡ err.old }
{
    let opened = match open(alloc, image.bytes, board.bytes) {
        Ok(opened) => opened,
        Err(error) => return refuse(alloc, error, image, board, err),
    };
    match hold_session(alloc, opened, slots, input, out) {
        Ok(()) => 0,
        Err(error) => refuse(alloc, error, image, board, err),
    }
}

/// Holds a session of a machine, or fails where memory for the slots can't be allocated.
#[inline(never)]
fn hold_session<I: In, O: Out>(
    alloc: Global,
    opened: Opened,
    slots: u8,
    input: &mut I,
    out: &mut O,
) -> Result<(), Error>
    ensures { RunsSessionOf opened slots (I.reading input.old) (I.reading input.new)
        (O.writing out.old) (O.writing out.new) result }
{
    let Opened {
        mut machine,
        layout,
        ..
    } = opened;
    let Ok(slots) = Slots::new(alloc, slots, &machine) else {
        return Err(Error::Start(StartError::NoMemory));
    };
    match session(&mut machine, layout, slots, input, out) {
        Ok(()) => Ok(()),
        Err(_) => Err(Error::Io),
    }
}
