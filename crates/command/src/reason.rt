//! Why a run is refused, for a person: lines after the error's own.

ghost use Rattle.std.specs.Prelude.{◌≡◌};
ghost use Rattle.command.specs.Statuses.{error_status};

use crate::dumping::are_in_memory;
use crate::error::{Error, write_error};
use crate::files::InputFile;
use crate::opening::{board_of_file, open};
use command_line::Dump;
use messages::Escaped;
use platform::board::Layout;
use platform::error::StartError;
use platform::map::RAM_BASE;
use platform::stop::Stop;
use reasons::{
    write_board_reason, write_image_reason, write_notes, write_second_ram, write_start_reason,
};
use std::alloc::Global;
use std::io;
use std::io::Write;

/// Writes an error and its reason, and returns its status.
#[inline(never)]
pub fn refuse<E: Write>(
    alloc: Global,
    error: Error,
    image: InputFile<'_>,
    board: InputFile<'_>,
    err: &mut E,
) -> u8
    ensures { result ≡ error_status error }
{
    let status = write_error(error, err);
    let _ = write_reason(alloc, error, image, board, err);
    status
}

/// Writes the file of an error and what is wrong in it: a field, a key or an event, its value, and
/// what it takes.
#[inline(never)]
pub fn write_reason<E: Write>(
    alloc: Global,
    error: Error,
    image: InputFile<'_>,
    board: InputFile<'_>,
    err: &mut E,
) -> io::Result<()> {
    match error {
        Error::Load(error) => {
            write_path(image.path, err)?;
            write_image_reason(err, image.bytes, error)
        }
        Error::Board(error) => {
            write_path(board.path, err)?;
            write_board_reason(alloc, err, board.bytes, error)
        }
        Error::Start(error) => {
            write_path(image.path, err)?;
            write_reason_of_start(alloc, error, image.bytes, board.bytes, err)
        }
        Error::Usage | Error::Size | Error::Io => Ok(()),
    }
}

/// Writes what a person may want to know of a run that was made.
#[inline(never)]
pub fn write_run_notes<E: Write>(
    alloc: Global,
    image: InputFile<'_>,
    board: InputFile<'_>,
    stop: Stop,
    err: &mut E,
) -> io::Result<()> {
    match board_of_file(alloc, board.bytes) {
        Ok(board) => write_notes(
            err,
            image.bytes,
            &board.layout,
            board.events.as_slice(),
            stop,
        ),
        Err(_) => Ok(()),
    }
}

/// Writes which dump isn't all in memory, where that is why nothing was run.
#[inline(never)]
pub fn write_dump_reason<E: Write>(
    alloc: Global,
    error: Error,
    image: InputFile<'_>,
    board: InputFile<'_>,
    dumps: &[Dump<'_>],
    err: &mut E,
) {
    if !matches!(error, Error::Usage) {
        return;
    }
    let Ok(opened) = open(alloc, image.bytes, board.bytes) else {
        return;
    };
    'dumps: for dump in dumps {
        if !are_in_memory(&opened.machine, dump) {
            let _ = write_outside(err, dump, &opened.layout);
            return;
        }
    }
}

/// Writes the range of a dump, and the memory of the board.
fn write_outside<E: Write>(err: &mut E, dump: &Dump<'_>, layout: &Layout) -> io::Result<()> {
    let (address, length) = (dump.address, dump.length);
    let (base, flash, ram) = (layout.flash_base, layout.flash_size, layout.ram_size);
    write!(
        err,
        "  --dump: {length} bytes at {address:08X} aren't all in memory, and the board has {flash} bytes of flash at \
         {base:08X} and {ram} bytes of RAM at {RAM_BASE:08X}"
    )?;
    write_second_ram(err, layout)?;
    writeln!(err)
}

/// Writes why a machine of a board doesn't start with an image.
#[inline(never)]
fn write_reason_of_start<E: Write>(
    alloc: Global,
    error: StartError,
    image: &[u8],
    board: &[u8],
    err: &mut E,
) -> io::Result<()> {
    match board_of_file(alloc, board) {
        Ok(board) => write_start_reason(err, image, &board.layout, error),
        Err(_) => writeln!(err, "{error}"),
    }
}

/// Writes the path that a reason begins with.
fn write_path<E: Write>(path: &str, err: &mut E) -> io::Result<()> {
    write!(err, "  {}: ", Escaped(path))
}
