//! A writer of short lines.

ghost use Rattle.std.specs.Prelude.{◌≡◌, ◌-◌, ◌==◌, if◌then◌else◌, [], ◌∷◌, ◌++◌, length, None, Ok, IsUtf8, OnOk};
ghost use Rattle.std.specs.Io.{WritesAtMost};
ghost use Rattle.std.specs.Io.KnownBytes.{Appends, Keeps, WriteAppends};
ghost use Rattle.std.specs.Str.{chars};
ghost use Rattle.messages.specs.Clips.{empty, left_after, line_feed, shown, with_character, with_characters};

use crate::clipped::Clipped;
use crate::visible::{escape, visible};
use std::io::Write;
use std::{io, str};

/// How many lines go out at most.
const MAX_LINES: u8 = 16;

/// A writer for messages, over another. Each line goes out in one call, with at most 512 bytes before its
/// line feed: a longer one is cut at a character, and ends in `..`. Characters that a display hides are
/// escaped. After 16 lines nothing more goes out. Where the writer below fails, the line is lost, and no
/// call returns an error.
#[derive(Drop)]
pub struct Messages<W: Write + Drop> {
    out: W,
    line: Clipped<510>,
    lines_left: u8,
}

impl<W: Write + Drop> Messages<W> {
    pub fn new(out: W) -> Self
        ensures { result ≡ record { out = out; line = empty; lines_left = MAX_LINES } }
    {
        Messages {
            out,
            line: Clipped::new(),
            lines_left: MAX_LINES,
        }
    }

    /// Returns the writer below. A line that was begun is lost: call `flush` before.
    pub fn into_inner(self) -> W
        ensures { result ≡ self.out }
    {
        let Messages {
            out,
            line: _,
            lines_left: _,
        } = self;
        out
    }

    /// Appends a character to the line, which a line feed ends.
    fn put(&mut self, character: char)
        ensures line { self.new.line ≡ with_character self.old.line character }
        ensures left { self.new.lines_left
            ≡ (if character == line_feed then self.old.lines_left - 1 else self.old.lines_left) }
    {
        if character == '\n' {
            self.end_line();
        } else {
            self.line.push(visible(character).as_str());
        }
    }

    /// Appends the characters of a text.
    fn put_text(&mut self, text: &str)
        ensures line { self.new.line ≡ with_characters self.old.line (chars text.now) }
        ensures left { self.new.lines_left ≡ left_after self.old.lines_left (chars text.now) }
    {
        'characters: for character in text.chars() {
            self.put(character);
        }
    }

    /// Appends bytes that aren't a text: ASCII as it is, and the others escaped.
    fn put_bytes(&mut self, bytes: &[u8]) {
        'bytes: for byte in bytes {
            if byte.is_ascii() {
                self.put(*byte as char);
            } else {
                self.line.push(escape(u32::from(*byte)).as_str());
            }
        }
    }

    /// Sends the line to the writer below, if there is one left.
    fn end_line(&mut self)
        ensures line { self.new.line ≡ empty }
        ensures left { self.new.lines_left ≡ self.old.lines_left - 1 }
    {
        if self.lines_left > 0 {
            self.lines_left -= 1;
            let _ = send(&mut self.out, &self.line);
        }
        self.line = Clipped::new();
    }
}

/// Writes a line in one call.
fn send<W: Write>(out: &mut W, line: &Clipped<510>) -> io::Result<()>
    ensures { OnOk result (Appends (W.contents out.old) (W.contents out.new) (shown line.now ++ line_feed ∷ [])) }
{
    out.write_all(line.line().as_str().as_bytes())
}

impl<W: Write + Drop> Write for Messages<W> {
    /// Takes all bytes. Those that aren't a text in UTF-8 are escaped one by one.
    fn write(&mut self, buf: &[u8]) -> io::Result<usize>
        ensures bound { WritesAtMost result buf.now }
        ensures bytes { WriteAppends None None result buf.now }
        ensures all { result ≡ Ok (length buf.now) }
        ensures line { IsUtf8 buf.now → self.new.line ≡ with_characters self.old.line (chars buf.now) }
        ensures left { IsUtf8 buf.now → self.new.lines_left ≡ left_after self.old.lines_left (chars buf.now) }
    {
        match str::from_utf8(buf) {
            Ok(text) => self.put_text(text),
            Err(_) => self.put_bytes(buf),
        }
        Ok(buf.len())
    }

    /// Ends a line that was begun, and flushes the writer below.
    #[tactic(auto, using(crate::proofs::Joining::nothing_is_empty))]
    fn flush(&mut self) -> io::Result<()>
        ensures bytes { Keeps None None }
        ensures done { result ≡ Ok tt }
        ensures line { self.new.line ≡ empty }
    {
        if !self.line.is_empty() {
            self.end_line();
        }
        let _ = self.out.flush();
        Ok(())
    }
}
