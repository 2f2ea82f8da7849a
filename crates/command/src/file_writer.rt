//! The files that a run writes, one after another.

ghost use Rattle.std.specs.Prelude.{◌≡◌, ◌<◌, false, [], None};

use crate::last_error::LastError;
use machine::{Event, IoError, LineRoom, Out};
use std::io::Write;
use std::rt::Files;
use std::sync::ledger::{Blank, Book, Ledger, Share};
use std::{fs, io, mem};
use trace::line_end::FetchEnd;

/// A writer whose bytes go to files, one after another. A contract sees the bytes of all of them as one text.
pub trait FileOut<'a>: Out {
    /// Closes the file before, and goes on to that of a path, which the first write creates.
    fn begin(&mut self, path: &'a str)
        ensures { Self.writing self.new ≡ Self.writing self.old };

    /// Closes the file. Returns why the last call for it failed, if one did.
    fn end(&mut self) -> Option<io::Error>
        ensures { Self.writing self.new ≡ Self.writing self.old };
}

/// A writer to a file that the first write creates.
#[derive(Drop)]
struct NewFile<'a, R: Files> {
    rt: &'a R,
    path: &'a str,
    file: Option<R::File>,
}

impl<R: Files> Write for NewFile<'_, R> {
    fn write(&mut self, buf: &[u8]) -> io::Result<usize> {
        match &mut self.file {
            Some(file) => file.write(buf),
            None => {
                let mut file = fs::create(self.rt, self.path)?;
                let written = file.write(buf);
                self.file = Some(file);
                written
            }
        }
    }

    fn flush(&mut self) -> io::Result<()> {
        match &mut self.file {
            Some(file) => file.flush(),
            None => Ok(()),
        }
    }
}

/// Files of the system, whose bytes no contract sees. The failed calls for all of them are counted, in contracts alone,
/// and the last error of each is kept for a message.
#[derive(Drop)]
pub struct FileWriter<'a, R: Files, K: Ledger> {
    rt: &'a R,
    file: LastError<NewFile<'a, R>>,
    book: Book<K>,
    share: Share<K>,
    ghost counts: { 0 < share.parts },
}

impl<'a, R: Files, K: Ledger> FileWriter<'a, R, K> {
    /// Returns a writer that has begun no file, with a ledger in which nothing is counted yet.
    pub fn new(rt: &'a R, blank: Blank) -> Self
        requires name { blank.name ≡ K.name }
        requires parts { blank.parts ≡ K.parts }
        requires some { 0 < blank.parts }
        ensures { result.book.total ≡ 0 }
    {
        let (book, share) = blank.open();
        FileWriter {
            rt,
            file: file_of(rt, ""),
            book,
            share,
        }
    }
}

/// Returns the writer to the file of a path. Nothing is created yet.
fn file_of<'a, R: Files>(rt: &'a R, path: &'a str) -> LastError<NewFile<'a, R>> {
    LastError::new(NewFile {
        rt,
        path,
        file: None,
    })
}

impl<R: Files, K: Ledger> Out for FileWriter<'_, R, K> {
    ghost writing = { λ f. record { written = None; errors = f.book.total; waits = [] } };

    ghost gathers = { false };

    ghost room = { λ _. 0 };

    fn put(&mut self, bytes: &[u8]) -> Result<usize, IoError> {
        match self.file.write(bytes) {
            Ok(0) if !bytes.is_empty() => {
                self.book.add(&mut self.share, 1);
                Ok(0)
            }
            Ok(taken) => Ok(taken),
            Err(_) => {
                self.book.add(&mut self.share, 1);
                Err(IoError)
            }
        }
    }

    fn put_fetch(
        &mut self,
        _line_room: &mut LineRoom,
        _tick: u64,
        _address: &[u8; 8],
        _end: &FetchEnd,
    ) {}

    fn put_byte_within(&mut self, _byte: u8) {}

    fn put_within(&mut self, _line_room: &mut LineRoom, _event: &Event) {}

    fn flush_all(&mut self) -> Result<(), IoError> {
        Ok(())
    }
}

impl<'a, R: Files, K: Ledger> FileOut<'a> for FileWriter<'a, R, K> {
    fn begin(&mut self, path: &'a str) {
        self.file = file_of(self.rt, path);
    }

    fn end(&mut self) -> Option<io::Error> {
        mem::replace(&mut self.file, file_of(self.rt, "")).into_error()
    }
}
