//! A text that is cut where it has no room for what comes next.

ghost use Rattle.std.specs.Prelude.{◌≡◌, [], ◌∷◌, ◌++◌};
ghost use Rattle.messages.specs.Clips.{clipped, empty, is_nothing, line_feed, shown};

use arrayvec::ArrayString;
use std::marker::Model;

/// A text of at most `ROOM` bytes. After the first piece that has no room, nothing is appended.
#[derive(Drop)]
pub struct Clipped<const ROOM: usize> {
    text: ArrayString<ROOM>,
    is_cut: bool,
}

impl<const ROOM: usize> Model for Clipped<ROOM> {
    ghost use Rattle.messages.specs.Clips.{Clip};

    ghost Value = { Clip };

    ghost view = { λ c. record { text = c.text.bytes; is_cut = c.is_cut } };
}

impl<const ROOM: usize> Clipped<ROOM> {
    pub fn new() -> Self
        ensures { result ≡ empty }
    {
        Clipped {
            text: ArrayString::new(),
            is_cut: false,
        }
    }

    /// Appends a piece, or cuts the text.
    pub fn push(&mut self, piece: &str)
        ensures { self.new ≡ clipped ROOM self.old piece.now }
    {
        if self.is_cut {
            return;
        }
        match self.text.try_push_str(piece) {
            Ok(()) => {}
            Err(_) => self.is_cut = true,
        }
    }

    pub fn text(&self) -> &str
        ensures { result.now ≡ self.now.text }
    {
        self.text.as_str()
    }

    /// Returns whether nothing was put, not even cut.
    pub fn is_empty(&self) -> bool
        ensures { result ≡ is_nothing self.now }
    {
        self.text.as_str().is_empty() && !self.is_cut
    }

    /// Returns whether the text was cut.
    pub fn is_cut(&self) -> bool
        ensures { result ≡ self.now.is_cut }
    {
        self.is_cut
    }
}

impl Clipped<510> {
    /// Returns the text as a line.
    pub fn line(&self) -> ArrayString<513>
        ensures { result.bytes ≡ shown self.now ++ line_feed ∷ [] }
    {
        let mut line = ArrayString::new();
        line.push_str(self.text.as_str());
        if self.is_cut {
            line.push_str("..");
        }
        line.push('\n');
        line
    }
}
