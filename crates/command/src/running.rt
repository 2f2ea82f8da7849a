//! A run from the bytes of an image and of a board to the bytes of a trace.

ghost use Rattle.std.specs.Prelude.{◌≡◌, ◌⊎◌, false, OnOk};
ghost use Rattle.command.specs.Dumping.{are_all_in_memory};
ghost use Rattle.command.specs.Opening.{board_in_file};
ghost use Rattle.command.specs.Running.{RunsIf, RunsOn, Saved, Traces, state_file, state_shown};
ghost use Rattle.command.specs.Statuses.{ending_status};
ghost use Rattle.command_line.specs.Subcommands.{text_of};
ghost use Rattle.output.specs.Output.{Put};
ghost use Rattle.platform.specs.Images.{image_of};
ghost use Rattle.reference.specs.Run.{after};

use crate::dumping::are_all_in_memory;
use crate::error::{Error, stop_status};
use crate::files::InputFile;
use crate::opening::open;
use command_line::{RunOptions, have_same_words, words_in};
use debugger::write_state;
use machine::{Fast, IoError, Out, Stop};
use std::alloc::Global;
use std::io::Write;
use std::{io, str};
use trace::lines::stop_line;

/// A run that was made.
#[derive(Drop)]
pub struct FinishedRun {
    /// Why it ended.
    pub stop: Stop,
    /// The machine after it.
    pub machine: Fast,
}

/// Runs an image on a board for at most `options.steps` steps and writes its trace, as far as `options.trace`
/// selects it, to `out`, and then, where `options.state` names a file, the state of the machine to `state`; or to
/// `out`, where it is `-`. Nothing is run where a byte of `options.dumps` isn't in memory.
#[inline(never)]
pub fn run<O: Out, S: Out>(
    alloc: Global,
    image: InputFile<'_>,
    board: InputFile<'_>,
    options: &RunOptions<'_>,
    out: &mut O,
    state: &mut S,
) -> Result<FinishedRun, Error>
    ensures { RunsOn (image_of image.entry.bytes.now) (board_in_file board.entry.bytes.now) options.entry.now
        (O.writing out.old) (O.writing out.new) (S.writing state.old) (S.writing state.new) result }
{
    let opened = open(alloc, image.bytes, board.bytes)?;
    run_opened(opened.machine, options, out, state)
}

/// Runs a machine, where all bytes of the dumps are in its memory.
#[inline(never)]
fn run_opened<O: Out, S: Out>(
    machine: Fast,
    options: &RunOptions<'_>,
    out: &mut O,
    state: &mut S,
) -> Result<FinishedRun, Error>
    requires { machine.broken ≡ false }
    ensures { RunsIf (are_all_in_memory machine.state.bus.memory options.entry.now.dumps.items) options.entry.now
        machine.state
        (O.writing out.old) (O.writing out.new) (S.writing state.old) (S.writing state.new) result }
{
    if !are_all_in_memory(&machine, options.dumps.as_slice()) {
        return Err(Error::Usage);
    }
    let mut machine = machine;
    let stop = run_through(&mut machine, options, out)?;
    save(&machine, state_file(options.state), state)?;
    Ok(FinishedRun { stop, machine })
}

/// Returns the status of a stop. Writes what was expected where it is another stop.
pub fn end<E: Write>(stop: Stop, expected: Option<Stop>, err: &mut E) -> u8
    ensures status { result ≡ ending_status expected stop }
    ensures quiet { (result ≡ 0) ⊎ (result ≡ 4) → err.new ≡ err.old }
{
    let Some(expected) = expected else {
        return stop_status(stop);
    };
    if have_same_words(&stop, &expected) {
        0
    } else {
        let _ = write_other_end(&stop, &expected, err);
        1
    }
}

/// Writes the words of the stop that was expected and of the one that came.
fn write_other_end<E: Write>(stop: &Stop, expected: &Stop, err: &mut E) -> io::Result<()> {
    let (expected, ended) = (stop_line(expected), stop_line(stop));
    let expected = str::from_utf8(words_in(expected.as_slice())).unwrap_or("otherwise");
    let ended = str::from_utf8(words_in(ended.as_slice())).unwrap_or("otherwise");
    writeln!(err, "marm: expected {expected}, ended {ended}")
}

/// Returns the path of the file for the state, if it goes to a file.
pub fn state_file(path: Option<&str>) -> Option<&str>
    ensures { text_of result ≡ state_file (text_of path.entry) }
{
    match path {
        Some(path) => { if path == "-" { None } else { Some(path) } }
        None => None,
    }
}

/// Writes the state of a machine, where a file is named for it.
#[inline(never)]
fn save<S: Out>(machine: &Fast, path: Option<&str>, out: &mut S) -> Result<(), Error>
    ensures { Saved (text_of path.entry) machine.now.state (S.writing out.old) (S.writing out.new) result }
{
    match path {
        None => Ok(()),
        Some(_) => match write_state(machine, out) {
            Ok(()) => Ok(()),
            Err(_) => Err(Error::Io),
        },
    }
}

/// Puts the state of a machine, where it is asked for on standard output.
#[tactic(auto, using(crate::proofs::Sent::nothing_put))]
fn put_state<O: Out>(machine: &Fast, path: Option<&str>, out: &mut O) -> Result<(), IoError>
    ensures { Put (O.writing out.old) (O.writing out.new) (state_shown (text_of path.entry) machine.now.state) result }
{
    match path {
        Some(path) => {
            if path == "-" {
                write_state(machine, out)
            } else {
                Ok(())
            }
        }
        None => Ok(()),
    }
}

/// Runs a machine, and sends the whole text of its selected events, and its state where it is asked for there.
#[tactic(auto, using(crate::proofs::Sent::output_lemmas))]
#[inline(never)]
fn run_through<O: Out>(
    machine: &mut Fast,
    options: &RunOptions<'_>,
    out: &mut O,
) -> Result<Stop, Error>
    requires { machine.old.broken ≡ false }
    ensures traces { Traces options.entry.now machine.old.state (O.writing out.old) (O.writing out.new) result }
    ensures state { OnOk result (machine.new.state ≡ after options.entry.now.steps machine.old.state) }
{
    match machine.run_selected(options.trace, options.steps, out) {
        Ok(stop) => match put_state(machine, options.state, out) {
            Ok(()) => match out.flush_all() {
                Ok(()) => Ok(stop),
                Err(_) => Err(Error::Io),
            },
            Err(_) => Err(Error::Io),
        },
        Err(_) => Err(Error::Io),
    }
}
