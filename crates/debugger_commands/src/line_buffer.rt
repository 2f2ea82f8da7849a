//! The line that is being read.

ghost use Rattle.std.specs.Prelude.{◌≡◌, [], Some, option_map};
ghost use Rattle.debugger_commands.specs.Words.{is_empty, with_byte};

use std::marker::Model;
use trace::page::Page;

/// The most bytes of a line, its line feed not counted.
pub const MAX_BYTES: usize = 80;

/// The bytes of a line so far. A line that is too long is forgotten up to its line feed.
#[derive(Drop)]
pub struct LineBuffer {
    line: Page<MAX_BYTES>,
    is_long: bool,
}

impl Model for LineBuffer {
    ghost use Rattle.std.specs.Prelude.{ℕ, List, Option, Some, None, if◌then◌else◌};

    ghost Value = { Option (List ℕ) };

    ghost view = { λ l. if l.is_long then None else Some l.line };
}

impl LineBuffer {
    /// Returns a line with no byte.
    pub fn new() -> Self
        ensures { result ≡ Some [] }
    {
        LineBuffer {
            line: Page::new(),
            is_long: false,
        }
    }

    /// Begins the next line.
    pub fn clear(&mut self)
        ensures { self.new ≡ Some [] }
    {
        self.line.clear();
        self.is_long = false;
    }

    /// Appends a byte.
    pub fn push(&mut self, byte: u8)
        ensures { self.new ≡ with_byte self.old byte }
    {
        if self.line.len() < MAX_BYTES {
            self.line.put(&[byte]);
        } else {
            self.is_long = true;
        }
    }

    /// Returns whether the line has no byte.
    pub fn is_empty(&self) -> bool
        ensures { result ≡ is_empty self.now }
    {
        !self.is_long && self.line.is_empty()
    }

    /// Returns the line, None where it's too long.
    pub fn line(&self) -> Option<&[u8]>
        ensures { option_map (λ line. line.now) result ≡ self.now }
    {
        if self.is_long {
            None
        } else {
            Some(self.line.as_slice())
        }
    }
}
