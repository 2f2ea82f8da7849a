//! Writers that report what they took, and readers that report what they returned.

ghost use Rattle.std.specs.Prelude.{◌≡◌, ℕ, ◌+◌, ◌<◌, ◌≤◌, Bool, true, false, [], ◌∷◌, None, OnErr};
ghost use Rattle.output.specs.Input.{Reading, Received};
ghost use Rattle.output.specs.Output.{FlushesAll, Put, Took, WritesAll, Writing};
ghost use Rattle.platform.specs.Events.{line};
ghost use Rattle.platform.specs.Text.{hex_word};
ghost use Rattle.reference.specs.Accesses.{accessed};
ghost use Rattle.reference.specs.LoadStore.{fetch_at};

use platform::event::Event;
use std::io::{Read, Write};
use std::marker::Model;
use std::sync::ledger::{Blank, Book, Ledger, Share};
use thiserror::Error;
use trace::digits::LineDigits;
use trace::line_end::FetchEnd;
use trace::lines::LinePage;

/// Room for the text of one line, and its digits, which are kept for later ones.
#[derive(Drop)]
pub struct LineRoom {
    page: LinePage,
    pub(crate) digits: LineDigits,
}

impl LineRoom {
    /// Room without text.
    pub fn new() -> Self {
        LineRoom {
            page: LinePage::new(),
            digits: LineDigits::new(),
        }
    }
}

/// A writer or a reader failed.
#[derive(Clone, Copy, Debug, Error)]
#[error("the writer or the reader failed")]
pub struct IoError;

/// Room for 20 lines of at most 64 bytes. A step of an instruction whose accesses are done has at most 18 lines: two of
/// fetches, and 16 of other accesses.
pub const STEP_ROOM: usize = 0xB00;

/// A writer that reports how many of the bytes it took. A contract sees the bytes that it has
/// taken, where they are known, how many calls failed or took 0 bytes of a nonempty piece, and
/// which of the bytes wait to be sent; and, of a writer that gathers lines, for how many bytes it has room.
pub trait Out {
    ghost writing: { Self → Writing };

    /// Whether it gathers lines, so that some can be put with no call of a writer below.
    ghost gathers: { Bool };

    /// How many bytes there is room for, whatever becomes of the writer below.
    ghost room: { Self → ℕ };

    /// Takes a prefix of the bytes, and returns its length.
    fn put(&mut self, bytes: &[u8]) -> Result<usize, IoError>
        ensures { Took (writing self.old) (writing self.new) bytes.now result };

    /// Puts all of the bytes, piece by piece. On an error a prefix of them went out.
    fn put_all(&mut self, bytes: &[u8]) -> Result<(), IoError>
        ensures { Put (writing self.old) (writing self.new) bytes.now result }
    {
        let mut rest = bytes;
        'pieces: while !rest.is_empty() {
            match self.put(rest) {
                Ok(0) => return Err(IoError),
                Ok(taken) => {
                    let (_, later) = rest.split_at(taken);
                    rest = later;
                }
                Err(error) => return Err(error),
            }
        }
        Ok(())
    }

    /// Puts a byte.
    fn put_byte(&mut self, byte: u8) -> Result<(), IoError>
        ensures { Put (writing self.old) (writing self.new) (byte ∷ []) result }
    {
        self.put_all(&[byte])
    }

    /// Puts the line of an event. `line_room` is room for its text.
    fn put_line(&mut self, line_room: &mut LineRoom, event: &Event) -> Result<(), IoError>
        ensures { Put (writing self.old) (writing self.new) (line event.now) result }
    {
        line_room.page.clear();
        line_room.page.put_event(&mut line_room.digits, event);
        let text = line_room.page.as_slice();
        self.put_all(text)
    }

    /// Returns whether there is room for the lines of any step.
    #[inline(always)]
    fn has_room(&self) -> bool
        ensures { result ≡ true → (gathers ≡ true) × (0xB00 ≤ room self.now) }
    {
        false
    }

    /// Puts the line of a fetch that was done, for which there is room. `line_room` has the digits that are kept. Does
    /// nothing where no lines are gathered.
    fn put_fetch(&mut self, line_room: &mut LineRoom, tick: u64, address: &[u8; 8], end: &FetchEnd)
        requires { gathers ≡ true → 64 ≤ room self.old }
        ensures put { gathers ≡ true → (at : ℕ) → address.now ≡ hex_word at
            → WritesAll (writing self.old) (writing self.new)
            (line (accessed tick (fetch_at at end.now.privileged) end.now.rule None)) }
        ensures room { room self.old ≤ room self.new + 64 }
        ensures none { gathers ≡ false → writing self.new ≡ writing self.old };

    /// Puts the line of an event, for which there is room. Does nothing where no lines are gathered.
    fn put_within(&mut self, line_room: &mut LineRoom, event: &Event)
        requires { gathers ≡ true → 64 ≤ room self.old }
        ensures put { gathers ≡ true → WritesAll (writing self.old) (writing self.new) (line event.now) }
        ensures room { room self.old ≤ room self.new + 64 }
        ensures none { gathers ≡ false → writing self.new ≡ writing self.old };

    /// Puts a byte, for which there is room. Does nothing where no lines are gathered.
    fn put_byte_within(&mut self, byte: u8)
        requires { gathers ≡ true → 64 ≤ room self.old }
        ensures put { gathers ≡ true → WritesAll (writing self.old) (writing self.new) (byte ∷ []) }
        ensures room { room self.old ≤ room self.new + 64 }
        ensures none { gathers ≡ false → writing self.new ≡ writing self.old };

    /// Sends the bytes that wait. On an error some of them may still wait.
    fn flush_all(&mut self) -> Result<(), IoError>
        ensures { FlushesAll (writing self.old) (writing self.new) result };
}

/// A reader that reports how many bytes it returned. A contract sees the bytes that it has left,
/// where they are known, how many calls failed, and whether the next call may wait for input or fail.
pub trait In {
    ghost reading: { Self → Reading };

    /// Puts bytes at the front of the room, and returns how many: 0 at the end of the input, or
    /// where there is no room.
    fn take(&mut self, room: &mut [u8]) -> Result<usize, IoError>
        ensures received { Received (reading self.old) (reading self.new) room.new result }
        ensures failed { OnErr result ((reading self.old).may_wait ≡ true) };

    /// Returns false only where the next call of `take` neither waits for input nor fails.
    fn may_wait(&self) -> bool
        ensures { (reading self.now).may_wait ≡ true → result ≡ true }
    {
        true
    }
}

/// A writer or a reader of the standard library, whose failed calls are counted in contracts alone.
#[derive(Drop)]
pub struct Over<T: Drop, K: Ledger> {
    inner: T,
    book: Book<K>,
    share: Share<K>,
    ghost counts: { 0 < share.parts },
}

impl<T: Drop, K: Ledger> Over<T, K> {
    /// Over a writer or a reader, with a ledger in which nothing is counted yet.
    pub fn new(inner: T, blank: Blank) -> Self
        requires name { blank.name ≡ K.name }
        requires parts { blank.parts ≡ K.parts }
        requires some { 0 < blank.parts }
        ensures inner { result.inner ≡ inner }
        ensures total { result.book.total ≡ 0 }
    {
        let (book, share) = blank.open();
        Over { inner, book, share }
    }

    /// Lends the standard library's writer or reader.
    pub fn inner(&self) -> &T
        ensures { result.now ≡ self.now.inner }
    {
        &self.inner
    }

    /// Returns the standard library's writer or reader.
    pub fn into_inner(self) -> T
        ensures { result ≡ self.inner }
    {
        let Over {
            inner,
            book: _,
            share: _,
        } = self;
        inner
    }
}

impl<W: Write + Drop, K: Ledger> Out for Over<W, K> {
    ghost writing = { λ o. record { written = W.contents o.inner; errors = o.book.total; waits = [] } };

    ghost gathers = { false };

    ghost room = { λ _. 0 };

    fn put(&mut self, bytes: &[u8]) -> Result<usize, IoError> {
        match self.inner.write(bytes) {
            Ok(0) if !bytes.is_empty() => {
                self.book.add(&mut self.share, 1);
                Ok(0)
            }
            Ok(taken) => Ok(taken),
            Err(_) => {
                self.book.add(&mut self.share, 1);
                Err(IoError)
            }
        }
    }

    fn put_fetch(
        &mut self,
        _line_room: &mut LineRoom,
        _tick: u64,
        _address: &[u8; 8],
        _end: &FetchEnd,
    ) {}

    fn put_byte_within(&mut self, _byte: u8) {}

    fn put_within(&mut self, _line_room: &mut LineRoom, _event: &Event) {}

    fn flush_all(&mut self) -> Result<(), IoError> {
        Ok(())
    }
}

impl<R: Read + Drop, K: Ledger> In for Over<R, K> {
    ghost reading = { λ o. record { left = R.remaining o.inner; misses = o.book.total; may_wait = true } };

    fn take(&mut self, room: &mut [u8]) -> Result<usize, IoError> {
        match self.inner.read(room) {
            Ok(given) => Ok(given),
            Err(_) => {
                self.book.add(&mut self.share, 1);
                Err(IoError)
            }
        }
    }
}
