//! Boxes in the path of a drawing.

use std::io;
use std::io::Write;

/// A box of a drawing, in its units.
#[derive(Clone, Copy)]
pub struct Area {
    pub left: usize,
    pub top: usize,
    pub width: usize,
    pub height: usize,
}

/// Writes a box as a part of a path.
pub fn write_area<W: Write>(out: &mut W, area: Area) -> io::Result<()> {
    let Area {
        left,
        top,
        width,
        height,
    } = area;
    write!(out, "M{left} {top}h{width}v{height}h-{width}z")
}
