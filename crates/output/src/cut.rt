//! A writer or a reader that is cut after a number of bytes, for tests of what a failure leaves.

ghost use Rattle.std.specs.Prelude.{◌≡◌, ◌-◌, ◌^◌, ◌<◌, false, length};
ghost use Rattle.output.specs.Cuts.{EndsAtCut, CountsCall, cut_off, with_errors, with_misses};
ghost use Rattle.output.specs.Input.{Received};
ghost use Rattle.output.specs.Output.{Took};
ghost use Rattle.output.specs.declared.cut.AtCut.TheVariants.{Fails, TakesNone};

use crate::writer::{In, IoError, LineRoom, Out};
use platform::event::Event;
use trace::line_end::FetchEnd;

/// What a call does after the last byte.
#[derive(Clone, Copy)]
pub(crate) enum AtCut {
    /// It fails.
    Fails,
    /// It takes none of the bytes, or returns none.
    TakesNone,
}

/// A writer or a reader over another that passes a number of bytes on. After them each call fails, or
/// takes none of a nonempty piece, up to 2^64 - 1 such calls; a reader that returns none is at its end.
#[derive(Drop)]
pub struct Cut<T: Drop> {
    inner: T,
    // How many bytes are still passed on.
    left: usize,
    at_cut: AtCut,
    // How many calls failed since the last byte.
    failed: u64,
}

impl<T: Drop> Cut<T> {
    /// Over a writer or a reader: passes `count` bytes on, and then fails.
    pub fn failing(inner: T, count: usize) -> Self
        ensures { result ≡ record { inner = inner; left = count; at_cut = Fails; failed = 0 } }
    {
        Cut {
            inner,
            left: count,
            at_cut: AtCut::Fails,
            failed: 0,
        }
    }

    /// Over a writer or a reader: passes `count` bytes on, and then takes or returns none.
    pub fn taking_none(inner: T, count: usize) -> Self
        ensures { result ≡ record { inner = inner; left = count; at_cut = TakesNone; failed = 0 } }
    {
        Cut {
            inner,
            left: count,
            at_cut: AtCut::TakesNone,
            failed: 0,
        }
    }

    /// Returns the writer or the reader below.
    pub fn into_inner(self) -> T
        ensures { result ≡ self.inner }
    {
        let Cut {
            inner,
            left: _,
            at_cut: _,
            failed: _,
        } = self;
        inner
    }
}

impl<O: Out + Drop> Cut<O> {
    /// Passes on as many of the bytes as are left to pass on.
    fn put_front(&mut self, bytes: &[u8]) -> Result<usize, IoError>
        requires { 0 < self.old.left }
        ensures took { Took (O.writing self.old.inner) (O.writing self.new.inner) bytes.now result }
        ensures passes { CountsCall self.old.left self.new.left result }
        ensures same { (self.new.at_cut ≡ self.old.at_cut) × (self.new.failed ≡ self.old.failed) }
    {
        let (front, _) = bytes.split_at(bytes.len().min(self.left));
        match self.inner.put(front) {
            Ok(taken) => {
                self.left -= taken;
                Ok(taken)
            }
            Err(error) => Err(error),
        }
    }
}

impl<O: Out + Drop> Out for Cut<O> {
    ghost writing = { λ c. with_errors c.failed (O.writing c.inner) };

    ghost gathers = { false };

    ghost room = { λ _. 0 };

    fn put(&mut self, bytes: &[u8]) -> Result<usize, IoError>
        ensures took { Took (with_errors self.old.failed (O.writing self.old.inner))
            (with_errors self.new.failed (O.writing self.new.inner)) bytes.now result }
        ensures passes { self.old.failed < 2 ^ 64 - 1 → CountsCall self.old.left self.new.left result }
        ensures ends { self.old.failed < 2 ^ 64 - 1 → self.old.left ≡ 0 → 0 < length bytes.now
            → EndsAtCut self.old.at_cut result }
        ensures same { self.new.at_cut ≡ self.old.at_cut }
    {
        if self.left > 0 {
            return self.put_front(bytes);
        }
        if bytes.is_empty() {
            return Ok(0);
        }
        if self.failed == u64::MAX {
            return self.inner.put(bytes);
        }
        self.failed += 1;
        match self.at_cut {
            AtCut::Fails => Err(IoError),
            AtCut::TakesNone => Ok(0),
        }
    }

    fn put_fetch(
        &mut self,
        _line_room: &mut LineRoom,
        _tick: u64,
        _address: &[u8; 8],
        _end: &FetchEnd,
    ) {}

    fn put_byte_within(&mut self, _byte: u8) {}

    fn put_within(&mut self, _line_room: &mut LineRoom, _event: &Event) {}

    fn flush_all(&mut self) -> Result<(), IoError> {
        self.inner.flush_all()
    }
}

impl<I: In + Drop> Cut<I> {
    /// Takes as many bytes from the reader below as are left to pass on, and as there is room for.
    fn take_front(&mut self, room: &mut [u8]) -> Result<usize, IoError>
        requires { 0 < self.old.left }
        ensures received { Received (I.reading self.old.inner) (I.reading self.new.inner) room.new result }
        ensures passes { CountsCall self.old.left self.new.left result }
        ensures same { (self.new.at_cut ≡ self.old.at_cut) × (self.new.failed ≡ self.old.failed) }
    {
        let most = room.len().min(self.left);
        let (front, _) = room.split_at_mut(most);
        match self.inner.take(front) {
            Ok(given) => {
                self.left -= given;
                Ok(given)
            }
            Err(error) => Err(error),
        }
    }

    /// Fails, unless the count of failed calls is at its highest value.
    fn fail(&mut self, room: &mut [u8]) -> Result<usize, IoError>
        ensures received { Received (with_misses self.old.failed (I.reading self.old.inner))
            (with_misses self.new.failed (I.reading self.new.inner)) room.new result }
        ensures ends { self.old.failed < 2 ^ 64 - 1 → EndsAtCut Fails result }
        ensures same { (self.new.left ≡ self.old.left) × (self.new.at_cut ≡ self.old.at_cut) }
    {
        if self.failed == u64::MAX {
            return self.inner.take(room);
        }
        self.failed += 1;
        Err(IoError)
    }
}

impl<I: In + Drop> In for Cut<I> {
    ghost reading = { λ c. cut_off c.at_cut c.left c.failed (I.reading c.inner) };

    fn take(&mut self, room: &mut [u8]) -> Result<usize, IoError>
        ensures received { Received (cut_off self.old.at_cut self.old.left self.old.failed (I.reading self.old.inner))
            (cut_off self.new.at_cut self.new.left self.new.failed (I.reading self.new.inner)) room.new result }
        ensures passes { self.old.failed < 2 ^ 64 - 1 → CountsCall self.old.left self.new.left result }
        ensures ends { self.old.failed < 2 ^ 64 - 1 → self.old.left ≡ 0 → 0 < length room.new
            → EndsAtCut self.old.at_cut result }
        ensures same { self.new.at_cut ≡ self.old.at_cut }
    {
        if self.left > 0 {
            return self.take_front(room);
        }
        if room.is_empty() {
            return Ok(0);
        }
        match self.at_cut {
            AtCut::Fails => self.fail(room),
            AtCut::TakesNone => Ok(0),
        }
    }
}
