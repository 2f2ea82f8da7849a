//! Growths of memory that are refused. Each test makes a call twice: where one growth of the two calls is refused,
//! that call gives the answer for memory that ran out, and the other gives the whole answer. In an ordinary run both
//! give the whole answer. fuzz/growths.sh refuses each growth in turn.

use super::cut::Cut;
use super::files::{FIRST, NO_INPUT};
use board::{BoardError, read_board};
use command::{FileError, program, read_file, words};
use command_line::{ArgsError, Subcommand, subcommand_of};
use elf::{Image, load};
use machine::{
    BitLevels, Board, BoardDecodeTable, Decider, DecodeEachTime, EagerSysTick, Exceptions,
    KeptCode, KeptDecisions, KeptPriorities, LazySysTick, LazyTable, Machine, PlainExceptions,
    RegionCount, ScriptedEvent, Search, Signal, StartError, SysTickState,
};
use std::alloc::{AllocError, Global};
use std::env::FillError;
use std::rt::Env;
use std::test::*;
use std::{fs, io};

/// How a call ended.
#[derive(Clone, Copy)]
enum Answer {
    /// With all that it returns where there is memory.
    Whole,
    /// With the error for memory that ran out.
    Refused,
    /// With anything else.
    Wrong,
}

/// Fails unless one of two calls at most was refused, and the other had the whole answer. Writes a line where one was.
fn judge(rt: &HostRuntime, call: &str, first: Answer, second: Answer) -> Result<(), Fail> {
    match (first, second) {
        (Answer::Whole, Answer::Whole) => Ok(()),
        (Answer::Refused, Answer::Whole) | (Answer::Whole, Answer::Refused) => {
            println!(rt; "refused: {call}")?;
            Ok(())
        }
        _ => Err(Fail::new(call)),
    }
}

/// The small board with two events.
const BOARD: &str = "\
flash_base = 0
flash_size = 4096
ram_size = 8192
priority_bits = 4
lines = 8
[[event]]
at = 2
nmi = true
[[event]]
at = 3
line = 7
what = \"pulse\"
";

/// Returns whether a script is that of the board.
fn is_script(events: &[ScriptedEvent]) -> bool {
    let [first, second] = events else {
        return false;
    };
    match (first.what, second.what) {
        (Signal::Nmi, Signal::Pulse(line)) => {
            first.at == 2 && second.at == 3 && line.number() == 7
        }
        _ => false,
    }
}

/// Returns whether a board has the numbers and the script of the text.
fn is_board(board: &Board) -> bool {
    let sizes = (
        board.layout.flash_base,
        board.layout.flash_size,
        board.layout.ram_size,
    );
    let counts = (board.layout.priority_bits, board.layout.interrupts);
    sizes == (0, 4096, 8192)
        && counts == (4, 8)
        && matches!(board.layout.regions, RegionCount::Eight)
        && is_script(board.events.as_slice())
}

/// How the board is read.
fn reading(alloc: Global) -> Answer {
    match read_board(alloc, BOARD) {
        Ok(board) if is_board(&board) => Answer::Whole,
        Err(BoardError::OutOfMemory) => Answer::Refused,
        _ => Answer::Wrong,
    }
}

#[test]
fn growths_of_a_board(rt: HostRuntime) -> Result<(), Fail> {
    judge(&rt, "read_board", reading(rt.alloc()), reading(rt.alloc()))
}

/// The trace of two steps of the first image on the board: NMI is pending in the second one.
const TRACE: &str = "\
1 F 00000008 2 p ok off
2 K 20000FE0 4 p ok off
2 K 20000FE4 4 p ok off
2 K 20000FE8 4 p ok off
2 K 20000FEC 4 p ok off
2 K 20000FF0 4 p ok off
2 K 20000FF4 4 p ok off
2 K 20000FF8 4 p ok off
2 K 20000FFC 4 p ok off
stop steps
";

/// How a machine starts. It is whole where it writes the trace.
fn start<D: Decider, C: KeptCode, L: Exceptions, U: SysTickState>(
    alloc: Global,
    image: &Image<'_>,
    board: &Board,
) -> Answer {
    match Machine::<D, C, L, U>::new(alloc, image, board) {
        Ok(mut machine) => {
            let mut out = Cut::whole();
            let ended = super::cut::run(&mut machine, 2, &mut out).is_ok();
            if ended && out.text.as_slice() == TRACE.as_bytes() {
                Answer::Whole
            } else {
                Answer::Wrong
            }
        }
        Err(StartError::NoMemory) => Answer::Refused,
        Err(StartError::SegmentOutsideMemory) => Answer::Wrong,
    }
}

/// The board, read anew where the first growth of it was refused.
fn ready_board(alloc: Global) -> Result<Board, Fail> {
    match read_board(alloc, BOARD) {
        Ok(board) => Ok(board),
        Err(_) => read_board(alloc, BOARD).map_err(|_| Fail::new("a board")),
    }
}

#[test]
fn growths_of_a_slow_machine(rt: HostRuntime) -> Result<(), Fail> {
    let board = ready_board(rt.alloc())?;
    let image = load(&FIRST).ok().ok_or("an image")?;
    let first = start::<Search, DecodeEachTime, PlainExceptions, EagerSysTick>(
        rt.alloc(),
        &image,
        &board,
    );
    let second = start::<Search, DecodeEachTime, PlainExceptions, EagerSysTick>(
        rt.alloc(),
        &image,
        &board,
    );
    judge(&rt, "Slow::new", first, second)
}

/// How a machine of the types of `Fast` starts.
fn start_fast(alloc: Global, image: &Image<'_>, board: &Board) -> Answer {
    start::<KeptDecisions<LazyTable>, BoardDecodeTable, KeptPriorities<BitLevels>, LazySysTick>(
        alloc, image, board,
    )
}

#[test]
fn growths_of_a_fast_machine(rt: HostRuntime) -> Result<(), Fail> {
    let board = ready_board(rt.alloc())?;
    let image = load(&FIRST).ok().ok_or("an image")?;
    let first = start_fast(rt.alloc(), &image, &board);
    let second = start_fast(rt.alloc(), &image, &board);
    judge(&rt, "Fast::new", first, second)
}

/// Returns whether a machine refuses a segment that is outside of memory.
fn is_outside<D: Decider, C: KeptCode, L: Exceptions, U: SysTickState>(
    alloc: Global,
    image: &Image<'_>,
    board: &Board,
) -> bool {
    match Machine::<D, C, L, U>::new(alloc, image, board) {
        Ok(_) | Err(StartError::NoMemory) => false,
        Err(StartError::SegmentOutsideMemory) => true,
    }
}

/// No growth comes before that refusal, so none can be refused in its place.
#[test]
fn growths_come_after_the_segments(rt: HostRuntime) -> Result<(), Fail> {
    let board = ready_board(rt.alloc())?;
    let mut bytes = FIRST;
    // p_paddr 00300000
    bytes[0x42] = 0x30;
    let image = load(&bytes).ok().ok_or("an image")?;
    let slow = is_outside::<Search, DecodeEachTime, PlainExceptions, EagerSysTick>(
        rt.alloc(),
        &image,
        &board,
    );
    let fast = is_outside::<
        KeptDecisions<LazyTable>,
        BoardDecodeTable,
        KeptPriorities<BitLevels>,
        LazySysTick,
    >(rt.alloc(), &image, &board);
    if slow && fast {
        Ok(())
    } else {
        Err(Fail::new("a segment outside of memory"))
    }
}

/// Writes a file, anew where a growth of the first call was refused.
fn put(rt: &HostRuntime, path: &str, bytes: &[u8]) -> io::Result<()> {
    match fs::write(rt, path, bytes) {
        Ok(()) => Ok(()),
        Err(_) => fs::write(rt, path, bytes),
    }
}

/// The files of these tests.
const IMAGE_PATH: &str = "growths.elf";

const BOARD_PATH: &str = "growths.toml";

/// Removes the files.
fn clear(rt: &HostRuntime) {
    let _ = fs::remove_file(rt, IMAGE_PATH);
    let _ = fs::remove_file(rt, BOARD_PATH);
}

/// How the file of the first image is read.
fn reading_file(rt: &HostRuntime) -> Answer {
    match read_file(rt, IMAGE_PATH) {
        Ok(bytes) if bytes.as_slice() == FIRST.as_slice() => Answer::Whole,
        Err(FileError::Read(error)) if matches!(error.kind(), io::ErrorKind::OutOfMemory) => {
            Answer::Refused
        }
        _ => Answer::Wrong,
    }
}

#[test]
fn growths_of_a_file(rt: HostRuntime) -> Result<(), Fail> {
    put(&rt, IMAGE_PATH, &FIRST)?;
    let first = reading_file(&rt);
    let second = reading_file(&rt);
    clear(&rt);
    judge(&rt, "read_file", first, second)
}

/// The arguments of a run.
const RUN: [&str; 7] = [
    "marm", "run", "--board", BOARD_PATH, "--steps", "2", IMAGE_PATH,
];

/// The arguments of a session.
const DEBUG: [&str; 5] = ["marm", "debug", "--board", BOARD_PATH, IMAGE_PATH];

/// A process with the arguments of a run.
#[derive(Clone, Copy)]
struct Given;

impl Env for Given {
    fn arg(&self, i: usize, buf: &mut [u8]) -> Result<usize, FillError> {
        let Some(word) = RUN.get(i) else {
            return Err(FillError::NotPresent);
        };
        let length = word.len();
        if length > buf.len() {
            return Err(FillError::TooLong);
        }
        buf[..length].copy_from_slice(word.as_bytes());
        Ok(length)
    }

    fn var(&self, _name: &str, _buf: &mut [u8]) -> Result<usize, FillError> {
        Err(FillError::NotPresent)
    }

    fn var_at(&self, _i: usize, _buf: &mut [u8]) -> Result<usize, FillError> {
        Err(FillError::NotPresent)
    }
}

/// Returns whether these are the arguments of a run.
fn are_all(words: &[String]) -> bool {
    let mut agrees = words.len() == RUN.len();
    'words: for (word, wanted) in words.iter().zip(RUN.iter()) {
        agrees &= word.as_str() == *wanted;
    }
    agrees
}

/// How the arguments of the process are taken.
fn taking(alloc: Global) -> Answer {
    match words(&(Given, alloc)) {
        Ok(words) if are_all(words.as_slice()) => Answer::Whole,
        Err(error) if matches!(error.kind(), io::ErrorKind::OutOfMemory) => Answer::Refused,
        _ => Answer::Wrong,
    }
}

#[test]
fn growths_of_the_arguments(rt: HostRuntime) -> Result<(), Fail> {
    judge(&rt, "words", taking(rt.alloc()), taking(rt.alloc()))
}

/// These words as arguments.
fn strings(alloc: Global, words: &[&str]) -> Result<Vec<String>, AllocError> {
    let mut strings = Vec::new(alloc);
    'words: for word in words {
        strings.push(word.to_string(alloc)?)?;
    }
    Ok(strings)
}

/// These words as arguments, made anew where a growth of the first ones was refused.
fn ready_words(alloc: Global, words: &[&str]) -> Result<Vec<String>, AllocError> {
    match strings(alloc, words) {
        Ok(strings) => Ok(strings),
        Err(_) => strings(alloc, words),
    }
}

/// How the arguments of a run are read.
fn reading_words(alloc: Global, words: &[String]) -> Answer {
    match subcommand_of(alloc, words) {
        Ok(subcommand) => answer_of(&subcommand),
        Err(error) => refusal_of(&error),
    }
}

/// What was read is the whole answer if it is the run.
fn answer_of(subcommand: &Subcommand<'_>) -> Answer {
    match subcommand {
        Subcommand::Run(run)
            if run.steps == 2 && run.board == BOARD_PATH && run.image == IMAGE_PATH => {
            Answer::Whole
        }
        Subcommand::Run(_)
        | Subcommand::Report(_)
        | Subcommand::Tasks(_)
        | Subcommand::Debug(_)
        | Subcommand::Gdb(_) => Answer::Wrong,
    }
}

/// The arguments weren't read: memory ran out, or that is wrong.
fn refusal_of(error: &ArgsError) -> Answer {
    if matches!(error, ArgsError::OutOfMemory) {
        Answer::Refused
    } else {
        Answer::Wrong
    }
}

#[test]
fn growths_of_a_command_line(rt: HostRuntime) -> Result<(), Fail> {
    let words = ready_words(rt.alloc(), &RUN)?;
    let first = reading_words(rt.alloc(), words.as_slice());
    let second = reading_words(rt.alloc(), words.as_slice());
    judge(&rt, "subcommand_of", first, second)
}

/// Returns whether a status and the first line on standard error say that memory ran out.
fn is_refusal(status: u8, err: &[u8]) -> bool {
    match status {
        3 => {
            err.starts_with(b"marm: board 7 OutOfMemory\n")
                || err.starts_with(b"marm: start 11 NoMemory\n")
        }
        5 => err.starts_with(b"marm: io\n"),
        _ => false,
    }
}

/// What a run says of its script, unless a growth is refused meanwhile: the first image has two vectors.
const NOTE: &[u8] =
    b"marm: note: the script pends interrupt 7, and the image has no vector for it at 0000005C\n";

/// How the program ends, which is to write `wanted`.
fn ending(rt: &HostRuntime, words: &[String], input: &[u8], wanted: &str) -> Answer {
    let mut out = Cut::whole();
    let mut err = Cut::whole();
    let status = program(rt, words, input, &mut out, &mut err);
    let said = err.text.as_slice();
    if status == 0
        && out.text.as_slice() == wanted.as_bytes()
        && (said.is_empty() || said == NOTE)
    {
        Answer::Whole
    } else if out.text.is_empty() && is_refusal(status, err.text.as_slice()) {
        Answer::Refused
    } else {
        Answer::Wrong
    }
}

#[test]
fn growths_of_a_run(rt: HostRuntime) -> Result<(), Fail> {
    put(&rt, IMAGE_PATH, &FIRST)?;
    put(&rt, BOARD_PATH, BOARD.as_bytes())?;
    let words = ready_words(rt.alloc(), &RUN)?;
    let first = ending(&rt, words.as_slice(), NO_INPUT, TRACE);
    let second = ending(&rt, words.as_slice(), NO_INPUT, TRACE);
    clear(&rt);
    judge(&rt, "marm run", first, second)
}

/// A session of one step, and what it answers.
const STEP: &[u8] = b"step\n";

const STEPPED: &str = "1 F 00000008 2 p ok off\nat 0000000A\n";

#[test]
fn growths_of_a_session(rt: HostRuntime) -> Result<(), Fail> {
    put(&rt, IMAGE_PATH, &FIRST)?;
    put(&rt, BOARD_PATH, BOARD.as_bytes())?;
    let words = ready_words(rt.alloc(), &DEBUG)?;
    let first = ending(&rt, words.as_slice(), STEP, STEPPED);
    let second = ending(&rt, words.as_slice(), STEP, STEPPED);
    clear(&rt);
    judge(&rt, "marm debug", first, second)
}
