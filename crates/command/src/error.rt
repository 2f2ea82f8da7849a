//! What the program writes to standard error, and the exit status that goes with it.

ghost use Rattle.std.specs.Prelude.{◌≡◌};
ghost use Rattle.command.specs.Statuses.{error_status, stop_status};

use board::BoardError;
use elf::LoadError;
use machine::{StartError, Stop};
use std::io::Write;

/// Why the program doesn't end with a stop.
#[derive(Clone, Copy)]
pub enum Error {
    /// The arguments are wrong.
    Usage,
    Load(LoadError),
    Board(BoardError),
    Start(StartError),
    /// A file is larger than 16 MiB.
    Size,
    /// Input, output, or memory for what is read.
    Io,
}

/// Returns the status that goes with an error.
pub fn error_status(error: Error) -> u8
    ensures { result ≡ error_status error }
{
    match error {
        Error::Usage => 2,
        Error::Load(_) | Error::Board(_) | Error::Start(_) | Error::Size => 3,
        Error::Io => 5,
    }
}

/// Returns the status that goes with a stop: 0 where the steps were made or a breakpoint was met.
pub fn stop_status(stop: Stop) -> u8
    ensures { result ≡ stop_status stop }
{
    match stop {
        Stop::StepLimit | Stop::Breakpoint(_) => 0,
        Stop::Lockup | Stop::Unpredictable(_) | Stop::OutOfProfile(_) | Stop::ResetRequested => 4,
    }
}

/// Writes the error's line, and returns its status, also where the write fails.
pub fn write_error<E: Write>(error: Error, err: &mut E) -> u8
    ensures { result ≡ error_status error }
{
    let _ = match error {
        Error::Usage => writeln!(err, "marm: usage"),
        Error::Load(error) => writeln!(err, "marm: load {} {error:?}", error as u8),
        Error::Board(error) => writeln!(err, "marm: board {} {error:?}", error as u8),
        Error::Start(error) => writeln!(err, "marm: start {} {error:?}", error as u8),
        Error::Size => writeln!(err, "marm: size"),
        Error::Io => writeln!(err, "marm: io"),
    };
    error_status(error)
}
