//! The whole program: from the arguments to the exit status.

ghost use Rattle.std.specs.Prelude.{◌≡◌, ◌≢◌, map, string_bytes};
ghost use Rattle.command.specs.Opening.{board_in_file};
ghost use Rattle.command.specs.Program.{ReportsArgsError, DoesSubcommand, DoesArgs, EndsWith, CarriesOut};
ghost use Rattle.command.specs.Program.{RunsAndSaves};
ghost use Rattle.command.specs.Statuses.{error_status, file_status};
ghost use Rattle.command.specs.declared.error.Error.TheVariants.{Io};
ghost use Rattle.platform.specs.Images.{image_of};
ghost use Rattle.std.specs.IoError.{error_kind};
ghost use Rattle.std.specs.declared.io.ErrorKind.TheVariants as kind;

use crate::debugging::debug;
use crate::dumping::{FailedDump, write_dumps};
use crate::error::{Error, write_error};
use crate::file_writer::{FileOut, FileWriter};
use crate::files::{FileError, InputFile, read_file};
use crate::gdb_session::serve_gdb;
use crate::last_error::LastError;
use crate::reason::{refuse, write_dump_reason, write_run_notes};
use crate::reporting::report;
use crate::running::{end, run, state_file};
use crate::sending::send;
use crate::streams::{Stream, Streams, over_streams};
use crate::tasks_command::tasks;
use command_line::{ArgsError, RunOptions, Subcommand, subcommand_of};
use machine::{In, Out, Over};
use messages::{Escaped, Messages};
use std::alloc::Global;
use std::io;
use std::io::{Read, Write};
use std::marker::Brand;
use std::rt::Files;
use std::sync::ledger::{Blank, Ledger};

/// Does what the arguments ask for; the first one is the program's name. Reads the image, then the board, and writes
/// the trace to `out`, or the answers to the commands or the packets of `input`, or the refusal to `err`, in short
/// lines (`Messages`). Returns the exit status. Help and the version go to `out`.
pub fn program<R: Files + AllocGlobal, I: Read + Drop, W: Write + Drop, E: Write>(
    rt: &R,
    words: &[String],
    input: I,
    out: W,
    err: &mut E,
) -> u8
    ensures { EndsWith (map string_bytes words.now) (I.remaining input) (W.contents out) result }
{
    let blanks = Blanks {
        read: Blank::new(1),
        sent: Blank::new(1),
        saved: Blank::new(1),
    };
    end_streams::<R, I, W, E, Brand, Brand, Brand>(rt, words, input, out, err, blanks)
}

/// Ledgers in which nothing is counted yet: of the failed calls of standard input, of standard output, and of the files
/// after a run.
struct Blanks {
    read: Blank,
    sent: Blank,
    saved: Blank,
}

/// Does what the arguments ask for, and drops the streams. (A caller that opens the ledgers can't be given a value over
/// them, so that `over_streams` can't return them to `program`.)
fn end_streams<
    R: Files + AllocGlobal,
    I: Read + Drop,
    W: Write + Drop,
    E: Write,
    J: Ledger,
    K: Ledger,
    L: Ledger,
>(rt: &R, words: &[String], input: I, out: W, err: &mut E, blanks: Blanks) -> u8
    requires read_name { blanks.read.name ≡ J.name }
    requires read_parts { blanks.read.parts ≡ J.parts }
    requires read_some { blanks.read.parts ≡ 1 }
    requires sent_name { blanks.sent.name ≡ K.name }
    requires sent_parts { blanks.sent.parts ≡ K.parts }
    requires sent_some { blanks.sent.parts ≡ 1 }
    requires saved_name { blanks.saved.name ≡ L.name }
    requires saved_parts { blanks.saved.parts ≡ L.parts }
    requires saved_some { blanks.saved.parts ≡ 1 }
    ensures { EndsWith (map string_bytes words.now) (I.remaining input) (W.contents out) result }
{
    let Blanks { read, sent, saved } = blanks;
    let input: Stream<I, J> = Over::new(LastError::new(input), read);
    let out: Stream<W, K> = Over::new(LastError::new(out), sent);
    let files: FileWriter<'_, R, L> = FileWriter::new(rt, saved);
    over_streams(rt, words, Streams { input, out, files }, err).status
}

/// Does what the arguments ask for.
pub fn do_args<
    'a,
    R: Files + AllocGlobal,
    I: In + Drop,
    O: Out + Drop,
    F: FileOut<'a> + Drop,
    E: Write,
>(rt: &R, words: &'a [String], streams: &mut Streams<I, O, F>, err: &mut E) -> u8
    ensures { DoesArgs (map string_bytes words.now)
        (record {
          input = I.reading streams.old.input;
          out = O.writing streams.old.out;
          files = F.writing streams.old.files;
        })
        (record {
          input = I.reading streams.new.input;
          out = O.writing streams.new.out;
          files = F.writing streams.new.files;
        })
        result }
{
    match subcommand_of(rt.alloc(), words) {
        Ok(subcommand) => do_subcommand(rt, subcommand, streams, err),
        Err(error) => answer(error, &mut streams.out, err),
    }
}

/// Answers arguments that ask for no subcommand. Returns 2; 0 for the version; 5 where the version can't be
/// written or memory ran out.
#[inline(never)]
pub fn answer<O: Out, E: Write>(error: ArgsError, out: &mut O, err: &mut E) -> u8
    ensures { ReportsArgsError error (O.writing out.old) (O.writing out.new) result }
{
    match error {
        ArgsError::Wrong(text) => {
            let status = write_error(Error::Usage, err);
            let _ = err.write_all(text.as_bytes());
            status
        }
        ArgsError::Help(text) => {
            let _ = send(text.as_bytes(), out);
            write_error(Error::Usage, err)
        }
        ArgsError::Version(text) => match send(text.as_bytes(), out) {
            Ok(()) => 0,
            Err(_) => write_error(Error::Io, err),
        },
        ArgsError::OutOfMemory => {
            let status = write_error(Error::Io, err);
            let _ = writeln!(err, "  no memory was found for the arguments");
            status
        }
    }
}

/// Reads the image, then the board, and does what the subcommand says with them.
#[inline(never)]
fn do_subcommand<
    'a,
    R: Files + AllocGlobal,
    I: In + Drop,
    O: Out + Drop,
    F: FileOut<'a> + Drop,
    E: Write,
>(rt: &R, subcommand: Subcommand<'a>, streams: &mut Streams<I, O, F>, err: &mut E) -> u8
    ensures { DoesSubcommand subcommand.entry
        (record {
          input = I.reading streams.old.input;
          out = O.writing streams.old.out;
          files = F.writing streams.old.files;
        })
        (record {
          input = I.reading streams.new.input;
          out = O.writing streams.new.out;
          files = F.writing streams.new.files;
        })
        result }
{
    let image = match read_file(rt, subcommand.image()) {
        Ok(bytes) => bytes,
        Err(error) => return refuse_file("IMAGE", subcommand.image(), &error, err),
    };
    let board = match read_file(rt, subcommand.board()) {
        Ok(bytes) => bytes,
        Err(error) => return refuse_file("--board", subcommand.board(), &error, err),
    };
    let image = InputFile {
        path: subcommand.image(),
        bytes: image.as_slice(),
    };
    let board = InputFile {
        path: subcommand.board(),
        bytes: board.as_slice(),
    };
    perform(rt.alloc(), subcommand, image, board, streams, err)
}

/// Runs, reports, tells the worlds of, or debugs an image on a board, by commands or by GDB, as the subcommand says.
fn perform<'a, I: In + Drop, O: Out + Drop, F: FileOut<'a> + Drop, E: Write>(
    alloc: Global,
    subcommand: Subcommand<'a>,
    image: InputFile<'_>,
    board: InputFile<'_>,
    streams: &mut Streams<I, O, F>,
    err: &mut E,
) -> u8
    ensures { CarriesOut subcommand.entry image.entry.bytes.now (board_in_file board.entry.bytes.now)
        (record {
          input = I.reading streams.old.input;
          out = O.writing streams.old.out;
          files = F.writing streams.old.files;
        })
        (record {
          input = I.reading streams.new.input;
          out = O.writing streams.new.out;
          files = F.writing streams.new.files;
        })
        result }
{
    let Streams { input, out, files } = streams;
    match subcommand {
        Subcommand::Run(options) => { run_and_save(alloc, image, board, options, out, files, err) }
        Subcommand::Report(options) => report(alloc, image, board, options.steps, out, err),
        Subcommand::Tasks(options) => tasks(alloc, image, board, &options, out, err),
        Subcommand::Debug(options) => { debug(alloc, image, board, options.slots, input, out, err) }
        Subcommand::Gdb(options) => {
            serve_gdb(alloc, image, board, options.steps, input, out, err)
        }
    }
}

/// Runs an image on a board, and then writes the files for the state and the memory after the run. A file is closed
/// before a message is written: it may have the number of standard error, where that is closed.
#[inline(never)]
fn run_and_save<'a, O: Out, F: FileOut<'a>, E: Write>(
    alloc: Global,
    image: InputFile<'_>,
    board: InputFile<'_>,
    options: RunOptions<'a>,
    out: &mut O,
    files: &mut F,
    err: &mut E,
) -> u8
    ensures { RunsAndSaves (image_of image.entry.bytes.now) (board_in_file board.entry.bytes.now) options.entry
        (O.writing out.old) (O.writing out.new) (F.writing files.old) (F.writing files.new) result }
{
    let path = state_file(options.state).unwrap_or("");
    files.begin(path);
    let ran = run(alloc, image, board, &options, out, files);
    let failed = files.end();
    match ran {
        Ok(ran) => match write_dumps(alloc, &ran.machine, options.dumps.as_slice(), files) {
            Ok(()) => {
                let status = end(ran.stop, options.expect, err);
                let _ = write_run_notes(alloc, image, board, ran.stop, err);
                status
            }
            Err(failed) => refuse_dump(&failed, err),
        },
        Err(error) => {
            let status = refuse(alloc, error, image, board, err);
            if let Some(error) = failed {
                write_path_error("--state", path, &error, err);
            }
            let dumps = options.dumps.as_slice();
            write_dump_reason(alloc, error, image, board, dumps, err);
            status
        }
    }
}

/// Writes why the file of a dump isn't written, and returns the status.
fn refuse_dump<E: Write>(failed: &FailedDump<'_>, err: &mut E) -> u8
    ensures { result ≡ error_status Io }
{
    let status = write_error(Error::Io, err);
    match &failed.error {
        Some(error) => write_path_error("--dump", failed.path, error, err),
        None => {
            let path = Escaped(failed.path);
            let _ = writeln!(err, "  {path}: no memory was found for its bytes");
        }
    }
    status
}

/// Writes why the file of an argument isn't read, and returns the status.
fn refuse_file<E: Write>(argument: &str, path: &str, error: &FileError, err: &mut E) -> u8
    ensures { result ≡ file_status error.now }
{
    match error {
        FileError::Size => {
            let status = write_error(Error::Size, err);
            let path = Escaped(path);
            let _ = writeln!(
                err,
                "  {path}: the file has more than 16777216 bytes (16 MiB)"
            );
            status
        }
        FileError::Read(error) => {
            let status = write_error(Error::Io, err);
            write_path_error(argument, path, error, err);
            status
        }
    }
}

/// Writes what the system says of the file of an argument, or that its path is empty.
fn write_path_error<E: Write>(argument: &str, path: &str, error: &io::Error, err: &mut E) {
    let _ = if path.is_empty() {
        writeln!(err, "  {argument}: the path is empty")
    } else {
        writeln!(err, "  {}: {error}", Escaped(path))
    };
}

/// Writes why the arguments can't be read, and returns the status: 2 where one isn't a text in UTF-8, else 5.
pub fn refuse_args<E: Write>(error: &io::Error, err: &mut E) -> u8
    ensures text { error_kind error.now ≡ kind.InvalidData → result ≡ 2 }
    ensures other { error_kind error.now ≢ kind.InvalidData → result ≡ 5 }
{
    let mut err = Messages::new(err);
    match error.kind() {
        io::ErrorKind::InvalidData => {
            let status = write_error(Error::Usage, &mut err);
            let _ = writeln!(err, "  {error}");
            status
        }
        _ => {
            let status = write_error(Error::Io, &mut err);
            let _ = writeln!(err, "  the arguments: {error}");
            status
        }
    }
}
