//! What the program reads and writes: standard input and output, and files after a run. What was read ahead, what waits
//! to be written, and why a call failed.

ghost use Rattle.std.specs.Prelude.{map, string_bytes};
ghost use Rattle.command.specs.Program.{DoesOverStreams};

use crate::commands::do_args;
use crate::file_writer::FileOut;
use crate::last_error::LastError;
use machine::{Buffered, In, Out, Over, Paged};
use messages::Messages;
use std::io;
use std::io::{Read, Write};
use std::rt::Files;
use std::sync::ledger::Ledger;

/// A stream of the standard library: its failed calls are counted in contracts alone, and its last error is kept
/// for the message.
pub type Stream<T, K> = Over<LastError<T>, K>;

/// What the program reads and writes: standard input, standard output, and the files for the state and the memory
/// after a run.
#[derive(Drop)]
pub struct Streams<I: Drop, O: Drop, F: Drop> {
    pub input: I,
    pub out: O,
    pub files: F,
}

/// How the program ended: the exit status, and the streams as they are then.
#[derive(Drop)]
pub struct Ended<I: Drop, O: Drop, F: Drop> {
    pub status: u8,
    pub streams: Streams<I, O, F>,
}

/// Does what the arguments ask for: reads ahead in standard input, and gathers what goes to standard output. Writes to
/// `err` why one of these failed.
pub fn over_streams<
    'a,
    R: Files + AllocGlobal,
    I: Read + Drop,
    W: Write + Drop,
    F: FileOut<'a> + Drop,
    E: Write,
    J: Ledger,
    K: Ledger,
>(
    rt: &R,
    words: &'a [String],
    streams: Streams<Stream<I, J>, Stream<W, K>, F>,
    err: &mut E,
) -> Ended<Stream<I, J>, Stream<W, K>, F>
    ensures { DoesOverStreams (map string_bytes words.now)
        (record {
          input = ⟦<Over<LastError<I>, J> as In>⟧.reading streams.input;
          out = ⟦<Over<LastError<W>, K> as Out>⟧.writing streams.out;
          files = F.writing streams.files;
        })
        (record {
          input = ⟦<Over<LastError<I>, J> as In>⟧.reading result.streams.input;
          out = ⟦<Over<LastError<W>, K> as Out>⟧.writing result.streams.out;
          files = F.writing result.streams.files;
        })
        result.status }
{
    let Streams { input, out, files } = streams;
    let mut streams = Streams {
        input: Buffered::new(input),
        out: Paged::new(out),
        files,
    };
    let mut err = Messages::new(err);
    let status = do_args(rt, words, &mut streams, &mut err);
    let Streams { input, out, files } = streams;
    let (input, out) = (input.into_inner(), out.into_inner());
    write_failure("standard output", out.inner().error(), &mut err);
    write_failure("standard input", input.inner().error(), &mut err);
    let _ = err.flush();
    Ended {
        status,
        streams: Streams { input, out, files },
    }
}

/// Writes why a stream failed, if it did.
fn write_failure<E: Write>(name: &str, error: Option<&io::Error>, err: &mut E) {
    if let Some(error) = error {
        let _ = writeln!(err, "  {name}: {error}");
    }
}
