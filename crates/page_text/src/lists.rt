//! Lists of names.

use std::io::Write;
use std::{fmt, io};

/// A list of names with commas between them, `none` where it is empty.
#[derive(Clone, Copy)]
pub struct Names {
    is_empty: bool,
}

impl Names {
    /// Returns an empty list.
    pub fn new() -> Self {
        Names { is_empty: true }
    }

    /// Writes a name of the list, if it is in it.
    pub fn write_if<W: Write, N: fmt::Display + Copy>(
        &mut self,
        out: &mut W,
        is_in: bool,
        name: N,
    ) -> io::Result<()> {
        if !is_in {
            return Ok(());
        }
        let separator = if self.is_empty { "" } else { ", " };
        self.is_empty = false;
        write!(out, "{separator}{name}")
    }

    /// Ends the list.
    pub fn end<W: Write>(&self, out: &mut W) -> io::Result<()> {
        if self.is_empty {
            write!(out, "none")
        } else {
            Ok(())
        }
    }
}
