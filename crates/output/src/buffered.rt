//! A reader that reads ahead, so that the reader below is called seldom.

ghost use Rattle.std.specs.Prelude.{◌≡◌, ◌+◌, ◌<◌, ◌≤◌, ◌==◌, ◌&&◌, true, [], ◌++◌, length, take, drop, OnErr};
ghost use Rattle.std.specs.Io.KnownBytes.{prepend_known};
ghost use Rattle.output.specs.Input.{Fills};

use crate::writer::{In, IoError};

/// How many bytes are read ahead at most.
const ROOM: usize = 4096;

/// A reader that returns the bytes of a buffer. Where the buffer is empty, `take` makes one call of the reader
/// below, for as many bytes as there are, up to 4,096.
#[derive(Drop)]
pub struct Buffered<I: In + Drop> {
    inner: I,
    bytes: [u8; ROOM],
    // Where the bytes begin that weren't returned yet, and where they end.
    at: usize,
    end: usize,
    ghost order: { at ≤ end },
    ghost within: { end ≤ length bytes },
}

impl<I: In + Drop> Buffered<I> {
    /// Over a reader, with an empty buffer.
    pub fn new(inner: I) -> Self
        ensures inner { result.inner ≡ inner }
        ensures empty { (result.at ≡ 0) × (result.end ≡ 0) }
    {
        Buffered {
            inner,
            bytes: [0; ROOM],
            at: 0,
            end: 0,
        }
    }

    /// Returns the reader below. What is still in the buffer is lost.
    pub fn into_inner(self) -> I
        ensures { result ≡ self.inner }
    {
        let Buffered {
            inner,
            bytes: _,
            at: _,
            end: _,
        } = self;
        inner
    }

    /// Makes one call of the reader below for an empty buffer.
    fn fill(&mut self) -> Result<(), IoError>
        requires { self.old.at ≡ self.old.end }
        ensures filled { Fills (I.reading self.old.inner) (I.reading self.new.inner)
            (drop self.new.at (take self.new.end self.new.bytes)) result }
        ensures failed { OnErr result ((I.reading self.old.inner).may_wait ≡ true) }
    {
        self.at = 0;
        self.end = 0;
        match self.inner.take(&mut self.bytes) {
            Ok(given) => {
                self.end = given;
                Ok(())
            }
            Err(error) => Err(error),
        }
    }

    /// Copies bytes of the buffer to the front of the room, and returns how many.
    fn give(&mut self, room: &mut [u8]) -> usize
        ensures within { result ≤ length room.new }
        ensures bytes { drop self.old.at (take self.old.end self.old.bytes)
            ≡ take result room.new ++ drop self.new.at (take self.new.end self.new.bytes) }
        ensures none { result ≡ 0 → 0 < length room.new → drop self.new.at (take self.new.end self.new.bytes) ≡ [] }
        ensures same { self.new.inner ≡ self.old.inner }
    {
        let (filled, _) = self.bytes.split_at(self.end);
        let (_, left) = filled.split_at(self.at);
        let count = room.len().min(left.len());
        let (front, _) = left.split_at(count);
        room[..count].copy_from_slice(front);
        self.at += count;
        count
    }
}

impl<I: In + Drop> In for Buffered<I> {
    ghost reading = { λ b. record {
      left = prepend_known (drop b.at (take b.end b.bytes)) (I.reading b.inner).left;
      misses = (I.reading b.inner).misses;
      may_wait = (b.at == b.end) && (I.reading b.inner).may_wait;
    } };

    fn take(&mut self, room: &mut [u8]) -> Result<usize, IoError> {
        if self.at == self.end {
            match self.fill() {
                Ok(()) => {}
                Err(error) => return Err(error),
            }
        }
        Ok(self.give(room))
    }

    fn may_wait(&self) -> bool {
        self.at == self.end && self.inner.may_wait()
    }
}
