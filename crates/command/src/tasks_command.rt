//! The worlds of a run, from the bytes of an image and of a board.

ghost use Rattle.std.specs.Prelude.{◌≡◌};
ghost use Rattle.command.specs.Opening.{board_in_file};
ghost use Rattle.command.specs.Tasks.{TasksTo, WritesTasks, RunsTasks, result_status};
ghost use Rattle.platform.specs.Boards.{numbers_of};
ghost use Rattle.access_map.specs.Names.{shown_name};

use crate::error::{Error, stop_status};
use crate::files::InputFile;
use crate::opening::{Opened, open};
use crate::reason::refuse;
use crate::sending::send;
use access_map::{Span, Worlds, are_all_apart, worlds_text};
use command_line::TasksOptions;
use machine::{Layout, Out, StartError, Stop};
use std::alloc::Global;
use std::io::Write;
use survey_run::{WorldCount, world_run};
use symbols::Symbols;

/// What `marm tasks` reports of a run, besides its text.
#[derive(Clone, Copy)]
pub struct TasksResult {
    /// Why it ended.
    pub stop: Stop,
    /// Whether all worlds are apart.
    pub apart: bool,
}

/// Runs an image on a board for at most `options.steps` steps, and writes the text about its worlds to `out`, or the
/// refusal to `err`, the error first and then its reason. Returns the exit status: 0 after all steps or at a
/// breakpoint, 3 for a refused image, board or start, or where memory runs out, 4 at another stop, 5 where `out`
/// failed. With `options.expect_apart` it is 0 where all worlds are apart and 1 where they aren't, in place of 0 and 4.
#[inline(never)]
pub fn tasks<O: Out, E: Write>(
    alloc: Global,
    image: InputFile<'_>,
    board: InputFile<'_>,
    options: &TasksOptions<'_>,
    out: &mut O,
    err: &mut E,
) -> u8
    ensures { TasksTo image.entry.bytes.now (board_in_file board.entry.bytes.now) options.entry.now
        (O.writing out.old) (O.writing out.new) result }
{
    let opened = match open(alloc, image.bytes, board.bytes) {
        Ok(opened) => opened,
        Err(error) => return refuse(alloc, error, image, board, err),
    };
    match run_tasks(alloc, opened, image.bytes, options, out) {
        Ok(outcome) => end_tasks(outcome, options.expect_apart, err),
        Err(error) => refuse(alloc, error, image, board, err),
    }
}

/// Makes the steps of a machine, and writes the text about its worlds. Memory for the worlds is taken before the first
/// step. `file` is the file of the image.
#[inline(never)]
fn run_tasks<O: Out>(
    alloc: Global,
    opened: Opened,
    file: &[u8],
    options: &TasksOptions<'_>,
    out: &mut O,
) -> Result<TasksResult, Error>
    ensures { RunsTasks (numbers_of opened.layout) file.now options.entry.now opened.machine.state
        (O.writing out.old) (O.writing out.new) result }
{
    let Ok(worlds) = Worlds::new(alloc) else {
        return Err(Error::Start(StartError::NoMemory));
    };
    let Ok(symbols) = Symbols::read(alloc, file) else {
        return Err(Error::Start(StartError::NoMemory));
    };
    let layout = opened.layout;
    let mut machine = opened.machine;
    let mut count = WorldCount::new(worlds);
    let stop = world_run(&mut machine, options.steps, &mut count);
    let allowed = options.allowed.as_slice();
    write_tasks(alloc, &layout, &symbols, allowed, count.worlds(), stop, out)
}

/// Writes the text about the worlds of a run that ended with a stop.
fn write_tasks<O: Out>(
    alloc: Global,
    board: &Layout,
    symbols: &Symbols<'_>,
    allowed: &[Span],
    worlds: &Worlds,
    stop: Stop,
    out: &mut O,
) -> Result<TasksResult, Error>
    ensures { WritesTasks (numbers_of board.now) (shown_name symbols.now.strings.now symbols.now.list.items) allowed.now
        worlds.now stop (O.writing out.old) (O.writing out.new) result }
{
    let Ok(text) = worlds_text(alloc, board, symbols, allowed, worlds, &stop) else {
        return Err(Error::Start(StartError::NoMemory));
    };
    let apart = are_all_apart(board, allowed, worlds);
    match send(text.as_slice(), out) {
        Ok(()) => Ok(TasksResult { stop, apart }),
        Err(_) => Err(Error::Io),
    }
}

/// Returns the status of a run. Writes a line where all worlds are expected to be apart and aren't.
fn end_tasks<E: Write>(outcome: TasksResult, expected: bool, err: &mut E) -> u8
    ensures { result ≡ result_status expected outcome }
{
    if !expected {
        stop_status(outcome.stop)
    } else if outcome.apart {
        0
    } else {
        let _ = writeln!(
            err,
            "marm: expected apart, but a line begins with shares or others"
        );
        1
    }
}
