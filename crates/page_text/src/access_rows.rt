//! The rows of the table "Who may touch what": neighbouring addresses of a place, and what worlds may do there.

ghost use Rattle.std.specs.Bool.{Decides};
ghost use Rattle.std.specs.Prelude.{◌≡◌, ◌+◌, ◌≤◌, ◌<◌, length, IfOk, OnOk, [], ◌∷◌};
ghost use Rattle.access_map.specs.Worlds.{end_of, first_of};
ghost use Rattle.page_text.specs.AccessTables.{Describes, ShowsRows, is_ram, is_shared_in};
ghost use Rattle.page_text.specs.Growing.{AddsRows, AddsRowsOf};
ghost use Rattle.platform.specs.Boards.{numbers_of};

use access_map::{Interval, Place, Rights, Span, WorldSteps, places};
use platform::board::Layout;
use std::alloc::{AllocError, Global};

/// How many worlds have a column at most.
pub const MAX_COLUMNS: usize = 8;

/// How many rows the table has at most.
const MAX_ROWS: usize = 32;

/// Neighbouring addresses of a place in which no right of a world that has a column changes.
#[derive(Clone, Copy)]
pub struct AccessRow {
    pub place: Place,
    pub first: u32,
    pub last: u32,
    /// What each of these worlds may do there, in the order of their columns.
    pub rights: [Rights; MAX_COLUMNS],
}

/// The first rows of a table, and how many others there are.
#[derive(Drop)]
pub struct ShownRows {
    pub items: Vec<AccessRow>,
    /// The number stays at its highest value, 2^64 - 1.
    pub others: u64,
}

impl ShownRows {
    /// Returns the rows of a board, place by place in the order of their addresses.
    pub fn of(alloc: Global, columns: &[WorldSteps], board: &Layout) -> Result<Self, AllocError>
        requires { length columns.now ≤ MAX_COLUMNS }
        ensures { IfOk result (λ shown. ShowsRows columns.now (numbers_of board.now) shown) }
    {
        let mut shown = ShownRows {
            items: Vec::new(alloc),
            others: 0,
        };
        let all = places(board);
        'places: for place in all {
            shown.add_place(columns, board, *place)?;
        }
        Ok(shown)
    }

    /// Adds the rows of a place.
    fn add_place(
        &mut self,
        columns: &[WorldSteps],
        board: &Layout,
        place: Place,
    ) -> Result<(), AllocError>
        requires { length columns.now ≤ MAX_COLUMNS }
        ensures { OnOk result (AddsRowsOf columns.now place (first_of (numbers_of board.now) place)
            (end_of (numbers_of board.now) place) self.old self.new) }
    {
        match place.span(board) {
            Some(span) => self.add_span(columns, place, span),
            None => Ok(()),
        }
    }

    /// Adds the rows of the addresses of a span, in which addresses neighbour.
    fn add_span(
        &mut self,
        columns: &[WorldSteps],
        place: Place,
        span: Span,
    ) -> Result<(), AllocError>
        requires few { length columns.now ≤ MAX_COLUMNS }
        requires some { span.first ≤ span.last }
        requires below { span.last < 0xE000_0000 }
        ensures { OnOk result (AddsRowsOf columns.now place span.first (span.last + 1) self.old self.new) }
    {
        let mut current = AccessRow::at(columns, place, span);
        'rows: while current.last < span.last {
            let rest = Span {
                first: current.last + 1,
                last: span.last,
            };
            let next = AccessRow::at(columns, place, rest);
            if current.has_rights_of(&next) {
                current.last = next.last;
            } else {
                self.add(current)?;
                current = next;
            }
        }
        self.add(current)
    }

    /// Adds a row, or counts it where there are as many as are shown.
    fn add(&mut self, row: AccessRow) -> Result<(), AllocError>
        ensures { OnOk result (AddsRows (row ∷ []) self.old self.new) }
    {
        if self.items.len() < MAX_ROWS {
            self.items.push(row)?;
        } else {
            self.others = self.others.saturating_add(1);
        }
        Ok(())
    }
}

impl AccessRow {
    /// Returns the row that begins where a span does, and ends with it or before.
    fn at(columns: &[WorldSteps], place: Place, within: Span) -> Self
        requires few { length columns.now ≤ MAX_COLUMNS }
        requires some { within.first ≤ within.last }
        requires below { within.last < 0xE000_0000 }
        ensures first { result.first ≡ within.first }
        ensures some { result.first ≤ result.last }
        ensures last { result.last ≤ within.last }
        ensures right { Describes columns.now place result }
    {
        let Span { first, last } = within;
        let mut row = AccessRow {
            place,
            first,
            last,
            rights: [NO_RIGHTS; MAX_COLUMNS],
        };
        'columns: for (column, world) in columns.iter().enumerate() {
            let near = Span {
                first,
                last: row.last,
            };
            let interval = Interval::at(&world.world, place, near);
            row.last = interval.last;
            row.rights[column] = interval.rights;
        }
        row
    }

    /// Returns whether each world has the same rights in another row of the place.
    fn has_rights_of(&self, other: &AccessRow) -> bool
        ensures { Decides result (self.now.rights ≡ other.now.rights) }
    {
        'columns: for column in 0..MAX_COLUMNS {
            if !self.rights[column].is_same(other.rights[column]) {
                return false;
            }
        }
        true
    }

    /// Returns whether bytes of the row are shared: the world of one column may write them, and that of another may
    /// read or execute them.
    pub fn is_shared(&self, writer: usize, reader: usize) -> bool
        requires writer { writer < MAX_COLUMNS }
        requires reader { reader < MAX_COLUMNS }
        ensures { result ≡ is_shared_in self.now writer reader }
    {
        let from = self.rights[writer];
        let to = self.rights[reader];
        writer != reader && is_ram(self.place) && from.write && (to.read || to.execute)
    }
}

/// The rights of no world.
const NO_RIGHTS: Rights = Rights {
    read: false,
    write: false,
    execute: false,
};

/// Returns whether a place is RAM or the second RAM.
fn is_ram(place: Place) -> bool
    ensures { result ≡ is_ram place }
{
    match place {
        Place::Ram | Place::SecondRam => true,
        Place::Flash | Place::Window => false,
    }
}
