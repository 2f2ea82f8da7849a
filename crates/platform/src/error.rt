//! The refusals of files and of placed values. Each refusal of a file has a fixed number.

use crate::stop::Stop;
use thiserror::Error;

/// Why a file isn't an image that this machine takes. docs/FILES.md has the order of the tests.
#[derive(Clone, Copy, Debug, Error)]
pub enum LoadError {
    #[error("the file ends within the ELF header or the program headers")]
    Truncated = 1,
    #[error("the file doesn't begin with the ELF magic number")]
    NotElf,
    #[error("the file isn't of 32 bits, little endian")]
    NotElf32Little,
    #[error("the file isn't an executable")]
    NotExecutable,
    #[error("the file isn't for ARM")]
    NotArm,
    #[error("a program header doesn't have 32 bytes")]
    HeaderSize,
    #[error("a segment reaches past the end of the file")]
    SegmentOutsideFile,
    #[error("two segments share an address")]
    SegmentOverlap,
    #[error("there are too many program headers")]
    TooManySegments,
}

/// Why a text isn't a board that this machine takes. docs/FILES.md has the order of the tests.
#[derive(Clone, Copy, Debug, Error)]
pub enum BoardError {
    #[error("the text isn't TOML")]
    NotToml = 1,
    #[error("a key is missing")]
    MissingKey,
    #[error("a value isn't of the kind that its key takes")]
    WrongKind,
    #[error("a value is out of its range")]
    OutOfRange,
    #[error("an event comes before the one that stands ahead of it")]
    EventsOutOfOrder,
    #[error("a key isn't known")]
    UnknownKey,
    #[error("no memory was found for the board")]
    OutOfMemory,
}

/// Why a machine doesn't start.
#[derive(Clone, Copy, Debug, Error)]
pub enum StartError {
    #[error("a segment is neither wholly in flash nor wholly in RAM")]
    SegmentOutsideMemory = 10,
    #[error("no memory was found for the machine")]
    NoMemory,
}

/// Why a value isn't placed.
#[derive(Clone, Copy)]
pub enum PlaceError {
    /// The address of a word isn't a multiple of 4.
    NotAligned,
    /// There is no such register or address.
    NoSuchPlace,
    /// The machine has stopped, is in the entry phase, or is in Handler mode.
    Stopped,
    /// The store of the value would stop the machine with this stop. A bus error is `NoSuchPlace`.
    Refused(Stop),
}
