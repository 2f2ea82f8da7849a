//! What a cell of memory was touched by, and what is granted in it.

use machine::{Fast, Kind};
use std::fmt;
use survey::{Cells, MAX_CELLS, Touch};

/// How many cells a row of the drawing has.
pub const CELLS_OF_ROW: usize = 64;

/// Returns how many cells a memory has.
pub fn cells_in(cells: &Cells) -> usize {
    let (_, size) = cells.span();
    let count = size.checked_div(cells.cell_bytes()).unwrap_or(0);
    (count as usize).min(MAX_CELLS)
}

/// Returns whether a cell was touched so by code of a privilege.
fn is_touched(cells: &Cells, privileged: bool, touch: Touch, cell: usize) -> bool {
    cell < MAX_CELLS && cells.is_marked(privileged, touch, cell)
}

/// Returns whether an access in a cell was refused.
pub fn is_refused(cells: &Cells, cell: usize) -> bool {
    is_touched(cells, false, Touch::Refused, cell) || is_touched(cells, true, Touch::Refused, cell)
}

/// Returns whether something touched a cell.
pub(crate) fn is_used(cells: &Cells, cell: usize) -> bool {
    'strips: for strip in Strip::ALL {
        if strip.is_touched(cells, cell) {
            return true;
        }
    }
    is_refused(cells, cell)
}

/// A strip of a cell: a privilege, and a way to touch.
#[derive(Clone, Copy)]
pub enum Strip {
    UnprivilegedRead,
    UnprivilegedWritten,
    UnprivilegedExecuted,
    PrivilegedRead,
    PrivilegedWritten,
    PrivilegedExecuted,
}

impl Strip {
    /// The strips, from above.
    pub const ALL: [Strip; 6] = [
        Strip::UnprivilegedRead,
        Strip::UnprivilegedWritten,
        Strip::UnprivilegedExecuted,
        Strip::PrivilegedRead,
        Strip::PrivilegedWritten,
        Strip::PrivilegedExecuted,
    ];

    /// How high a strip is.
    pub const HEIGHT: usize = 4;

    /// Returns where the strip begins in its row.
    pub fn top(self) -> usize {
        match self {
            Strip::UnprivilegedRead => 0,
            Strip::UnprivilegedWritten => 4,
            Strip::UnprivilegedExecuted => 8,
            Strip::PrivilegedRead => 14,
            Strip::PrivilegedWritten => 18,
            Strip::PrivilegedExecuted => 22,
        }
    }

    /// Returns the class of the strip: its colour.
    pub fn class(self) -> &'static str {
        match self {
            Strip::UnprivilegedRead => "ur",
            Strip::UnprivilegedWritten => "uw",
            Strip::UnprivilegedExecuted => "ux",
            Strip::PrivilegedRead => "pr",
            Strip::PrivilegedWritten => "pw",
            Strip::PrivilegedExecuted => "px",
        }
    }

    /// Returns whether it is a strip of unprivileged code.
    pub fn is_of_unprivileged(self) -> bool {
        match self {
            Strip::UnprivilegedRead => true,
            Strip::UnprivilegedWritten => true,
            Strip::UnprivilegedExecuted => true,
            Strip::PrivilegedRead => false,
            Strip::PrivilegedWritten => false,
            Strip::PrivilegedExecuted => false,
        }
    }

    /// Returns whether a cell was touched so.
    pub fn is_touched(self, cells: &Cells, cell: usize) -> bool {
        match self {
            Strip::UnprivilegedRead => is_touched(cells, false, Touch::Read, cell),
            Strip::UnprivilegedWritten => is_touched(cells, false, Touch::Written, cell),
            Strip::UnprivilegedExecuted => is_touched(cells, false, Touch::Executed, cell),
            Strip::PrivilegedRead => is_touched(cells, true, Touch::Read, cell),
            Strip::PrivilegedWritten => is_touched(cells, true, Touch::Written, cell),
            Strip::PrivilegedExecuted => is_touched(cells, true, Touch::Executed, cell),
        }
    }

    /// Returns whether an access of the strip's privilege and way would be granted at an address now.
    pub fn is_granted(self, machine: &Fast, address: u32) -> bool {
        match self {
            Strip::UnprivilegedRead => machine.explain(address, false, Kind::Load).granted,
            Strip::UnprivilegedWritten => machine.explain(address, false, Kind::Store).granted,
            Strip::UnprivilegedExecuted => machine.explain(address, false, Kind::Fetch).granted,
            Strip::PrivilegedRead => machine.explain(address, true, Kind::Load).granted,
            Strip::PrivilegedWritten => machine.explain(address, true, Kind::Store).granted,
            Strip::PrivilegedExecuted => machine.explain(address, true, Kind::Fetch).granted,
        }
    }
}

/// How code of one privilege touched a cell.
#[derive(Clone, Copy, PartialEq)]
struct Touched {
    read: bool,
    written: bool,
    executed: bool,
    refused: bool,
}

impl Touched {
    /// Returns whether nothing touched the cell.
    fn is_blank(&self) -> bool {
        !self.read && !self.written && !self.executed && !self.refused
    }
}

/// Returns how code of a privilege touched a cell.
fn touched_by(cells: &Cells, privileged: bool, cell: usize) -> Touched {
    Touched {
        read: is_touched(cells, privileged, Touch::Read, cell),
        written: is_touched(cells, privileged, Touch::Written, cell),
        executed: is_touched(cells, privileged, Touch::Executed, cell),
        refused: is_touched(cells, privileged, Touch::Refused, cell),
    }
}

impl fmt::Display for Touched {
    /// Writes a letter for each way: `r`, `w`, `x`, and `!` for a refused access; `-` where there is none.
    fn fmt<W: fmt::Write>(&self, f: &mut fmt::Formatter<W>) -> fmt::Result {
        let read = if self.read { "r" } else { "" };
        let written = if self.written { "w" } else { "" };
        let executed = if self.executed { "x" } else { "" };
        let refused = if self.refused { "!" } else { "" };
        let nothing = if self.is_blank() { "-" } else { "" };
        write!(f, "{read}{written}{executed}{refused}{nothing}")
    }
}

/// The same in words.
#[derive(Clone, Copy)]
struct TouchedWords(Touched);

impl fmt::Display for TouchedWords {
    fn fmt<W: fmt::Write>(&self, f: &mut fmt::Formatter<W>) -> fmt::Result {
        let read = if self.0.read { " read" } else { "" };
        let written = if self.0.written { " wrote" } else { "" };
        let executed = if self.0.executed { " executed" } else { "" };
        let refused = if self.0.refused { " refused" } else { "" };
        let nothing = if self.0.is_blank() { " nothing" } else { "" };
        write!(f, "{read}{written}{executed}{refused}{nothing}")
    }
}

/// How a cell was touched, and what unprivileged code may do in it at the end.
#[derive(Clone, Copy, PartialEq)]
pub struct CellState {
    unprivileged: Touched,
    privileged: Touched,
    granted: Touched,
}

impl CellState {
    /// A cell that nothing touched, and in which nothing is granted.
    pub const BLANK: CellState = CellState {
        unprivileged: Touched {
            read: false,
            written: false,
            executed: false,
            refused: false,
        },
        privileged: Touched {
            read: false,
            written: false,
            executed: false,
            refused: false,
        },
        granted: Touched {
            read: false,
            written: false,
            executed: false,
            refused: false,
        },
    };
}

/// Returns the state of a cell, of which the first byte has an address.
pub fn state_of(cells: &Cells, machine: &Fast, cell: usize, address: u32) -> CellState {
    CellState {
        unprivileged: touched_by(cells, false, cell),
        privileged: touched_by(cells, true, cell),
        granted: Touched {
            read: Strip::UnprivilegedRead.is_granted(machine, address),
            written: Strip::UnprivilegedWritten.is_granted(machine, address),
            executed: Strip::UnprivilegedExecuted.is_granted(machine, address),
            refused: false,
        },
    }
}

impl fmt::Display for CellState {
    /// Writes the rest of the attributes of a cell, and the end of its tag.
    fn fmt<W: fmt::Write>(&self, f: &mut fmt::Formatter<W>) -> fmt::Result {
        let unprivileged = self.unprivileged;
        let privileged = self.privileged;
        let granted = self.granted;
        write!(
            f,
            " data-u='{unprivileged}' data-p='{privileged}' data-may='{granted}'>"
        )
    }
}

/// The state of a cell in words.
#[derive(Clone, Copy)]
pub struct CellWords(pub CellState);

impl fmt::Display for CellWords {
    fn fmt<W: fmt::Write>(&self, f: &mut fmt::Formatter<W>) -> fmt::Result {
        let unprivileged = TouchedWords(self.0.unprivileged);
        let privileged = TouchedWords(self.0.privileged);
        let granted = self.0.granted;
        write!(
            f,
            "unprivileged{unprivileged}; privileged{privileged}; unprivileged may {granted}"
        )
    }
}
