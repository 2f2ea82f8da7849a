//! Which rows of cells are drawn, and where: those that nothing touched are folded.

use crate::cells::{CELLS_OF_ROW, cells_in, is_used};
use survey::{Cells, MAX_CELLS};

/// How many rows a memory has at most.
const MAX_ROWS: usize = MAX_CELLS / CELLS_OF_ROW;

/// How high a row of cells is, in units of the drawing.
const ROW_HEIGHT: usize = 30;

/// How high the line is that stands for rows that are folded.
const FOLD_HEIGHT: usize = 18;

/// The rows of a memory.
#[derive(Clone, Copy)]
pub struct Rows {
    /// How many there are.
    pub count: usize,
    drawn: [bool; MAX_ROWS],
}

impl Rows {
    /// Returns the rows of a memory: those with a cell that something touched are drawn.
    pub fn of(cells: &Cells) -> Self {
        let mut rows = Rows {
            count: cells_in(cells).div_ceil(CELLS_OF_ROW),
            drawn: [false; MAX_ROWS],
        };
        'cells: for cell in 0..cells_in(cells) {
            let row = cell / CELLS_OF_ROW;
            if row < MAX_ROWS && is_used(cells, cell) {
                rows.drawn[row] = true;
            }
        }
        rows
    }

    /// Returns whether a row is drawn.
    pub fn is_drawn(&self, row: usize) -> bool {
        row < MAX_ROWS && self.drawn[row]
    }

    /// Returns whether a row is the first of rows that are folded into one line.
    pub fn begins_fold(&self, row: usize) -> bool {
        !self.is_drawn(row) && (row == 0 || self.is_drawn(row - 1))
    }

    /// Returns how many rows are folded from one on.
    pub fn folded_from(&self, row: usize) -> usize {
        let mut folded = 0usize;
        'rows: for next in row..self.count {
            if self.is_drawn(next) {
                return folded;
            }
            folded = folded.saturating_add(1);
        }
        folded
    }

    /// Returns where a row begins in the drawing.
    pub fn top(&self, row: usize) -> usize {
        let mut top = 0usize;
        'rows: for before in 0..row {
            if self.is_drawn(before) {
                top = top.saturating_add(ROW_HEIGHT);
            } else if self.begins_fold(before) {
                top = top.saturating_add(FOLD_HEIGHT);
            }
        }
        top
    }
}
