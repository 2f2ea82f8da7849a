//! The bytes that worlds share, as the table "Who may touch what" shows them.

ghost use Rattle.std.specs.Prelude.{◌≡◌, ◌+◌, ◌≤◌, ◌<◌, drop, length, IfOk, OnOk, [], ◌∷◌};
ghost use Rattle.page_text.specs.AccessTables.{ArePairShares, AreSharesTo, AreSharesWith, ShowsShares};
ghost use Rattle.page_text.specs.Growing.{AddsShares, AddsSome};
ghost use Rattle.platform.specs.Boards.{numbers_of};

use access_map::{Span, World, WorldSteps, shared};
use platform::board::Layout;
use std::alloc::{AllocError, Global};

/// How many sentences there are at most of bytes that one world shares with another.
const MAX_SHARES: usize = 64;

/// Bytes that one world may write and another may read or execute.
#[derive(Clone, Copy)]
pub struct Share {
    /// The place of the world that may write them, among the rows of `Worlds`.
    pub writer: usize,
    /// The place of the other world.
    pub reader: usize,
    pub span: Span,
}

/// The first spans of bytes that worlds share, and how many others there are.
#[derive(Drop)]
pub struct ShownShares {
    pub items: Vec<Share>,
    /// The number stays at its highest value, 2^64 - 1.
    pub others: u64,
}

/// A world, and its place among the rows of `Worlds`.
#[derive(Clone, Copy)]
struct PlacedWorld<'a> {
    place: usize,
    world: &'a World,
}

impl ShownShares {
    /// Returns the bytes that worlds share: of each pair, those that the first may write, and then those that the
    /// second may.
    pub fn of(alloc: Global, rows: &[WorldSteps], board: &Layout) -> Result<Self, AllocError>
        requires { length rows.now ≤ 64 }
        ensures { IfOk result (λ shown. ShowsShares rows.now (numbers_of board.now) shown) }
    {
        let mut shown = ShownShares {
            items: Vec::new(alloc),
            others: 0,
        };
        'worlds: for (place, row) in rows.iter().enumerate() {
            let one = PlacedWorld {
                place,
                world: &row.world,
            };
            shown.add_all_of(alloc, board, one, rows_after(rows, place))?;
        }
        Ok(shown)
    }

    /// Adds the bytes that a world and those after it share.
    fn add_all_of(
        &mut self,
        alloc: Global,
        board: &Layout,
        one: PlacedWorld<'_>,
        later: &[WorldSteps],
    ) -> Result<(), AllocError>
        requires { one.place + length later.now ≤ 64 }
        ensures { OnOk result (AddsSome
            (AreSharesWith (numbers_of board.now) one.entry.place one.entry.world.now (one.entry.place + 1) later.now)
            self.old self.new) }
    {
        'others: for (next, row) in later.iter().enumerate() {
            let other = PlacedWorld {
                place: one.place + 1 + next,
                world: &row.world,
            };
            self.add_pair(alloc, board, one, other)?;
        }
        Ok(())
    }

    /// Adds the bytes that two worlds share with one another.
    fn add_pair(
        &mut self,
        alloc: Global,
        board: &Layout,
        one: PlacedWorld<'_>,
        other: PlacedWorld<'_>,
    ) -> Result<(), AllocError>
        ensures { OnOk result (AddsSome
            (ArePairShares (numbers_of board.now) one.entry.place one.entry.world.now other.entry.place
            other.entry.world.now)
            self.old self.new) }
    {
        self.add_spans(alloc, board, one, other)?;
        self.add_spans(alloc, board, other, one)
    }

    /// Adds the bytes that a world shares with another.
    fn add_spans(
        &mut self,
        alloc: Global,
        board: &Layout,
        writer: PlacedWorld<'_>,
        reader: PlacedWorld<'_>,
    ) -> Result<(), AllocError>
        ensures { OnOk result (AddsSome
            (AreSharesTo (numbers_of board.now) writer.entry.place writer.entry.world.now reader.entry.place
            reader.entry.world.now)
            self.old self.new) }
    {
        let spans = shared(alloc, board, writer.world, reader.world, &[])?;
        'spans: for span in &spans {
            self.add(Share {
                writer: writer.place,
                reader: reader.place,
                span: *span,
            })?;
        }
        Ok(())
    }

    /// Adds a span of bytes that worlds share, or counts it where there are as many as are shown.
    fn add(&mut self, share: Share) -> Result<(), AllocError>
        ensures { OnOk result (AddsShares (share ∷ []) self.old self.new) }
    {
        if self.items.len() < MAX_SHARES {
            self.items.push(share)?;
        } else {
            self.others = self.others.saturating_add(1);
        }
        Ok(())
    }
}

/// Returns the rows after the one at a place.
fn rows_after(rows: &[WorldSteps], place: usize) -> &[WorldSteps]
    requires { place < length rows.now }
    ensures { result.now ≡ drop (place + 1) rows.now }
{
    &rows[place + 1..]
}
