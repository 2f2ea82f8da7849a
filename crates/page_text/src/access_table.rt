//! What the part "Who may touch what" shows: the rows of its table, and the bytes that worlds share.

ghost use Rattle.std.specs.Prelude.{◌≡◌, IfOk};
ghost use Rattle.page_text.specs.AccessTables.{IsTableOf, columns_of};
ghost use Rattle.platform.specs.Boards.{numbers_of};

use crate::access_rows::ShownRows;
pub use crate::access_rows::{AccessRow, MAX_COLUMNS};
pub use crate::shares::Share;
use crate::shares::ShownShares;
use access_map::{WorldSteps, Worlds};
use platform::board::Layout;
use std::alloc::{AllocError, Global};

/// Who may touch what, of the worlds of a run on a board.
#[derive(Drop)]
pub struct AccessTable {
    rows: ShownRows,
    shares: ShownShares,
}

impl AccessTable {
    /// Returns the table of the worlds of a run on a board.
    pub fn of(alloc: Global, worlds: &Worlds, board: &Layout) -> Result<Self, AllocError>
        ensures { IfOk result (λ table. IsTableOf (numbers_of board.now) worlds.now table) }
    {
        let all = worlds.rows();
        Ok(AccessTable {
            rows: ShownRows::of(alloc, columns_of(all), board)?,
            shares: ShownShares::of(alloc, all, board)?,
        })
    }

    /// Returns the rows, from the lowest address of each place on, place by place in the order of their addresses.
    pub fn rows(&self) -> &[AccessRow]
        ensures { result.now ≡ self.now.rows.items.items }
    {
        &self.rows.items
    }

    /// Returns how many rows were left out.
    pub fn other_rows(&self) -> u64
        ensures { result ≡ self.now.rows.others }
    {
        self.rows.others
    }

    /// Returns the bytes that worlds share.
    pub fn shares(&self) -> &[Share]
        ensures { result.now ≡ self.now.shares.items.items }
    {
        &self.shares.items
    }

    /// Returns how many spans of such bytes were left out.
    pub fn other_shares(&self) -> u64
        ensures { result ≡ self.now.shares.others }
    {
        self.shares.others
    }
}

/// Returns the worlds that have a column: the first ones.
pub fn columns_of(rows: &[WorldSteps]) -> &[WorldSteps]
    ensures { result.now ≡ columns_of rows.now }
{
    &rows[..rows.len().min(MAX_COLUMNS)]
}
