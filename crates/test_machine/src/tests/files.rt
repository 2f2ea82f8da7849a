//! The command over files that are no texts or large, and its messages for memory that runs out.

ghost use Rattle.std.specs.Prelude.{◌≡◌};

use super::cut::Cut;
use board::BoardError;
use command::{
    ArgsError, Error, FileError, InputFile, answer, program, read_file, refuse_args, write_error,
    write_reason,
};
use machine::{Over, StartError};
use std::alloc::Global;
use std::fs::OpenFile;
use std::marker::Brand;
use std::sync::ledger::{Blank, Ledger};
use std::test::*;
use std::{fs, io};

/// The file examples/first.elf: MOV R0, #5 and BKPT 0 at address 8. Its lines are four of the ELF header, as in
/// `NO_SEGMENTS`; two of the program header; the vector table; and the code.
pub(super) static FIRST: [u8; 96] = *b"\
\x7fELF\x01\x01\x01\0\0\0\0\0\0\0\0\0\
\x02\0\x28\0\x01\0\0\0\0\0\0\0\
\x34\0\0\0\0\0\0\0\0\0\0\x05\
\x34\0\x20\0\x01\0\0\0\0\0\0\0\
\x01\0\0\0\x54\0\0\0\0\0\0\0\0\0\0\0\
\x0c\0\0\0\x0c\0\0\0\x05\0\0\0\x04\0\0\0\
\0\x10\0\x20\x09\0\0\0\
\x05\x20\0\xbe";

/// The small board: 4 KiB of flash at 0 and 8 KiB of RAM.
pub(super) const SMALL: &str =
    "flash_base = 0\nflash_size = 4096\nram_size = 8192\npriority_bits = 4\nlines = 8\n";

/// The same with a second RAM of 16 KiB.
const TWO_RAMS: &str =
    "flash_base = 0\nflash_size = 4096\nram_size = 8192\npriority_bits = 4\nlines = 8\n\
ram = [{ base = 0x1000_0000, size = 16384 }]\n";

/// The paths of the files of a case.
const IMAGE_PATH: &str = "image.elf";

const BOARD_PATH: &str = "board.toml";

/// Standard input without a byte.
pub(super) const NO_INPUT: &[u8] = b"";

/// The words of a case that has none of its own.
const RUN_WORDS: &str = "run --board board.toml --steps 10 image.elf";

/// How the program ended: its status, and what it wrote.
#[derive(Drop)]
struct Ended {
    status: u8,
    out: Cut,
    err: Cut,
}

impl Ended {
    /// Runs the program on the first image and a board.
    fn of(rt: &HostRuntime, words: &str, board: &[u8]) -> io::Result<Self> {
        let mut given = Vec::new(rt.alloc());
        given.push("marm".to_string(rt.alloc())?)?;
        'words: for word in words.split_whitespace() {
            given.push(word.to_string(rt.alloc())?)?;
        }
        fs::write(rt, IMAGE_PATH, FIRST.as_slice())?;
        fs::write(rt, BOARD_PATH, board)?;
        let mut out = Cut::whole();
        let mut err = Cut::whole();
        let status = program(rt, given.as_slice(), NO_INPUT, &mut out, &mut err);
        fs::remove_file(rt, IMAGE_PATH)?;
        fs::remove_file(rt, BOARD_PATH)?;
        Ok(Ended { status, out, err })
    }

    /// Returns whether it ended with this status, nothing on standard output and this on standard error.
    fn is(&self, status: u8, err: &[u8]) -> bool {
        self.status == status && self.out.text.is_empty() && self.err.text.as_slice() == err
    }
}

#[test]
fn a_board_that_is_no_text_is_refused(rt: HostRuntime) -> Result<(), Fail> {
    let ended = Ended::of(&rt, RUN_WORDS, b"# \xFF")?;
    let err = b"marm: board 1 NotToml\n  board.toml: the file isn't a text in UTF-8\n";
    assert!(rt; ended.is(3, err));
    Ok(())
}

/// Fails with a name unless a condition holds: an error, and no failed assertion, where memory ran out.
pub(super) fn holds(is_so: bool, name: &str) -> Result<(), Fail> {
    if is_so { Ok(()) } else { Err(Fail::new(name)) }
}

#[test]
fn too_many_events_are_counted(rt: HostRuntime) -> Result<(), Fail> {
    let mut board = Vec::new(rt.alloc());
    board.extend_from_slice(SMALL.as_bytes())?;
    board.extend_from_slice(b"event = [")?;
    'events: for _ in 0..65537 {
        board.extend_from_slice(b"{},")?;
    }
    board.extend_from_slice(b"]\n")?;
    let ended = Ended::of(&rt, RUN_WORDS, board.as_slice())?;
    let err =
        b"marm: board 4 OutOfRange\n  board.toml: event has 65537 tables: it takes a list of at most 65536 tables, \
each written as [[event]]\n";
    holds(ended.is(3, err), "65537 events")
}

/// Answers arguments that ask for no subcommand.
fn answer_to<K: Ledger>(error: ArgsError, out: &mut Cut, err: &mut Cut, blank: Blank) -> u8
    requires name { blank.name ≡ K.name }
    requires parts { blank.parts ≡ K.parts }
    requires some { blank.parts ≡ 1 }
{
    let mut out: Over<&mut Cut, K> = Over::new(out, blank);
    answer(error, &mut out, err)
}

#[test]
fn words_without_memory_are_io(rt: HostRuntime) {
    let mut out = Cut::whole();
    let mut err = Cut::whole();
    let status = answer_to::<Brand>(ArgsError::OutOfMemory, &mut out, &mut err, Blank::new(1));
    assert!(rt; status == 5 && out.text.is_empty());
    let line = b"marm: io\n  no memory was found for the arguments\n";
    assert!(rt; err.text.as_slice() == line.as_slice());
}

#[test]
fn words_that_cannot_be_read_are_io(rt: HostRuntime) {
    let mut err = Cut::whole();
    let status = refuse_args(&io::Error::from(io::ErrorKind::OutOfMemory), &mut err);
    assert!(rt; status == 5);
    assert!(rt; err.text.as_slice() == b"marm: io\n  the arguments: out of memory\n".as_slice());
    let mut err = Cut::whole();
    let status = refuse_args(&io::Error::from(io::ErrorKind::BrokenPipe), &mut err);
    assert!(rt; status == 5);
    assert!(rt; err.text.as_slice() == b"marm: io\n  the arguments: broken pipe\n".as_slice());
}

/// Returns whether the reason of an error of the first image on a board is this line.
fn is_explained(alloc: Global, board: &str, error: Error, line: &[u8]) -> bool {
    let image = InputFile {
        path: IMAGE_PATH,
        bytes: &FIRST,
    };
    let board = InputFile {
        path: BOARD_PATH,
        bytes: board.as_bytes(),
    };
    let mut err = Cut::whole();
    write_reason(alloc, error, image, board, &mut err).is_ok() && err.text.as_slice() == line
}

#[test]
fn files_without_memory_are_explained(rt: HostRuntime) {
    assert!(rt;
        is_explained(
            rt.alloc(),
            SMALL,
            Error::Board(BoardError::OutOfMemory),
            b"  board.toml: no memory was found for the board\n"
        )
    );
    assert!(rt;
        is_explained(
            rt.alloc(),
            SMALL,
            Error::Start(StartError::NoMemory),
            b"  image.elf: no memory was found for the machine: flash and RAM take 12288 bytes, and events and decoded \
instructions some more\n"
        )
    );
    assert!(rt;
        is_explained(
            rt.alloc(),
            TWO_RAMS,
            Error::Start(StartError::NoMemory),
            b"  image.elf: no memory was found for the machine: flash and RAM take 28672 bytes, and events and decoded \
instructions some more\n"
        )
    );
}

/// Returns whether an error's line and status are these.
fn is_reported(error: Error, line: &[u8], status: u8) -> bool {
    let mut err = Cut::whole();
    write_error(error, &mut err) == status && err.text.as_slice() == line
}

#[test]
fn each_error_has_its_line(rt: HostRuntime) {
    assert!(rt; is_reported(Error::Usage, b"marm: usage\n", 2));
    assert!(rt; is_reported(Error::Size, b"marm: size\n", 3));
    assert!(rt; is_reported(Error::Io, b"marm: io\n", 5));
    assert!(rt;
        is_reported(
            Error::Board(BoardError::OutOfMemory),
            b"marm: board 7 OutOfMemory\n",
            3
        )
    );
    assert!(rt;
        is_reported(
            Error::Start(StartError::NoMemory),
            b"marm: start 11 NoMemory\n",
            3
        )
    );
}

/// A file in the folder in which the tests run.
const BIG: &str = "big.bin";

/// Reads a file of `length` bytes, and returns its length, None where it's too large. Removes the file.
fn read_big(rt: &HostRuntime, length: u64) -> io::Result<Option<usize>> {
    fs::create(rt, BIG)?.set_len(length)?;
    let read = match read_file(rt, BIG) {
        Ok(bytes) => Ok(Some(bytes.len())),
        Err(FileError::Size) => Ok(None),
        Err(FileError::Read(error)) => Err(error),
    };
    fs::remove_file(rt, BIG)?;
    read
}

#[test]
fn a_file_below_16_mebibytes_is_read(rt: HostRuntime) -> Result<(), Fail> {
    assert!(rt; matches!(read_big(&rt, 0xFF_FFFF)?, Some(0xFF_FFFF)));
    Ok(())
}

#[test]
fn a_file_of_16_mebibytes_is_read(rt: HostRuntime) -> Result<(), Fail> {
    assert!(rt; matches!(read_big(&rt, 0x100_0000)?, Some(0x100_0000)));
    Ok(())
}

#[test]
fn a_file_above_16_mebibytes_is_refused(rt: HostRuntime) -> Result<(), Fail> {
    assert!(rt; read_big(&rt, 0x100_0001)?.is_none());
    Ok(())
}

#[test]
fn a_large_file_is_named(rt: HostRuntime) -> Result<(), Fail> {
    fs::create(&rt, BIG)?.set_len(0x100_0001)?;
    let words = "run --board board.toml --steps 10 big.bin";
    let ended = Ended::of(&rt, words, SMALL.as_bytes())?;
    fs::remove_file(&rt, BIG)?;
    let err = b"marm: size\n  big.bin: the file has more than 16777216 bytes (16 MiB)\n";
    assert!(rt; ended.is(3, err));
    Ok(())
}

#[test]
fn files_that_cannot_be_read_are_io(rt: HostRuntime) {
    assert!(rt; matches!(read_file(&rt, "missing.elf"), Err(FileError::Read(_))));
    assert!(rt; matches!(read_file(&rt, "."), Err(FileError::Read(_))));
}
