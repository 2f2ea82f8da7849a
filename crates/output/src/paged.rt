//! A writer that gathers the lines of many steps, so that the writer below is called seldom.

ghost use Rattle.std.specs.Prelude.{◌≡◌, ◌+◌, ◌-◌, ◌≤◌, true, [], length, drop, OnOk, OnErr};
ghost use Rattle.output.specs.Output.{with_page};
ghost use Rattle.platform.specs.Events.{line};
ghost use Rattle.std.specs.Io.KnownBytes.{append_known, Keeps};

use crate::writer::{IoError, LineRoom, Out, STEP_ROOM};
use platform::event::Event;
use trace::line_end::FetchEnd;
use trace::page::Page;

/// How many bytes are gathered at most.
const ROOM: usize = 0x4000;

/// The most bytes on a page that leave room for the lines of a step. A page with more is sent before the next line, so
/// that steps can be made again whose lines need no call of the writer below.
const FULL: usize = ROOM - STEP_ROOM;

/// A writer that gathers lines on a page. Bytes on the page count as taken: `flush` sends them at
/// the end, and `flush_all` wherever a caller wants it. Where the writer below fails, the line being put
/// isn't taken.
#[derive(Drop)]
pub struct Paged<O: Out + Drop> {
    inner: O,
    page: Page<ROOM>,
    // How many bytes of the page were sent already, by a call that failed after them.
    at: usize,
    ghost within: { at ≤ length page },
}

impl<O: Out + Drop> Paged<O> {
    /// Over a writer, with an empty page.
    pub fn new(inner: O) -> Self
        ensures inner { result.inner ≡ inner }
        ensures page { (result.page ≡ []) × (result.at ≡ 0) }
    {
        Paged {
            inner,
            page: Page::new(),
            at: 0,
        }
    }

    /// Returns the writer below. What still waits on the page is lost: call `flush` before.
    pub fn into_inner(self) -> O
        ensures { result ≡ self.inner }
    {
        let Paged {
            inner,
            page: _,
            at: _,
        } = self;
        inner
    }

    /// Sends the page to the writer below unless it has room for the lines of a step. On an error a prefix of the page
    /// was sent, and the page still has the rest.
    #[inline(always)]
    fn make_room(&mut self) -> Result<(), IoError>
        ensures known { Keeps (append_known (O.writing self.old.inner).written (drop self.old.at self.old.page))
            (append_known (O.writing self.new.inner).written (drop self.new.at self.new.page)) }
        ensures room { OnOk result (length self.new.page + 64 ≤ 0x4000) }
        ensures quiet { OnOk result ((O.writing self.new.inner).errors ≡ (O.writing self.old.inner).errors) }
        ensures error { OnErr result ((O.writing self.new.inner).errors ≡ (O.writing self.old.inner).errors + 1) }
    {
        if self.page.len() > FULL {
            self.flush()
        } else {
            Ok(())
        }
    }

    /// Sends the page to the writer below. On an error a prefix of it was sent, and the page
    /// still has the rest.
    #[cold]
    #[inline(never)]
    pub fn flush(&mut self) -> Result<(), IoError>
        ensures known { Keeps (append_known (O.writing self.old.inner).written (drop self.old.at self.old.page))
            (append_known (O.writing self.new.inner).written (drop self.new.at self.new.page)) }
        ensures empty { OnOk result ((self.new.page ≡ []) × (self.new.at ≡ 0)) }
        ensures quiet { OnOk result ((O.writing self.new.inner).errors ≡ (O.writing self.old.inner).errors) }
        ensures error { OnErr result ((O.writing self.new.inner).errors ≡ (O.writing self.old.inner).errors + 1) }
    {
        'pieces: while self.at < self.page.len() {
            let (_, rest) = self.page.as_slice().split_at(self.at);
            match self.inner.put(rest) {
                Ok(0) => return Err(IoError),
                Ok(taken) => self.at += taken,
                Err(error) => return Err(error),
            }
        }
        self.page.clear();
        self.at = 0;
        Ok(())
    }
}

impl<O: Out + Drop> Out for Paged<O> {
    ghost writing = { λ p. with_page (drop p.at p.page) (O.writing p.inner) };

    ghost gathers = { true };

    ghost room = { λ p. 0x4000 - length p.page };

    fn put(&mut self, bytes: &[u8]) -> Result<usize, IoError> {
        if bytes.len() <= ROOM - self.page.len() {
            self.page.put_slice(bytes);
            return Ok(bytes.len());
        }
        match self.flush() {
            Ok(()) => self.inner.put(bytes),
            Err(error) => Err(error),
        }
    }

    #[inline(always)]
    fn put_byte(&mut self, byte: u8) -> Result<(), IoError> {
        match self.make_room() {
            Ok(()) => {
                self.page.put(&[byte]);
                Ok(())
            }
            Err(error) => Err(error),
        }
    }

    #[inline(always)]
    fn put_line(&mut self, line_room: &mut LineRoom, event: &Event) -> Result<(), IoError> {
        match self.make_room() {
            Ok(()) => {
                self.page.put_event(&mut line_room.digits, event);
                Ok(())
            }
            Err(error) => Err(error),
        }
    }

    #[inline(always)]
    fn has_room(&self) -> bool {
        self.page.len() <= FULL
    }

    #[inline(always)]
    fn put_fetch(
        &mut self,
        line_room: &mut LineRoom,
        tick: u64,
        address: &[u8; 8],
        end: &FetchEnd,
    ) {
        self.page
            .put_fetch(&mut line_room.digits, tick, address, end);
    }

    #[inline(always)]
    fn put_byte_within(&mut self, byte: u8) {
        self.page.put(&[byte]);
    }

    #[inline(always)]
    fn put_within(&mut self, line_room: &mut LineRoom, event: &Event) {
        self.page.put_event(&mut line_room.digits, event);
    }

    fn flush_all(&mut self) -> Result<(), IoError> {
        match self.flush() {
            Ok(()) => self.inner.flush_all(),
            Err(error) => Err(error),
        }
    }
}
