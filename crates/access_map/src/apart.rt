//! Whether all worlds are apart.

ghost use Rattle.std.specs.Bool.{Decides};
ghost use Rattle.std.specs.List.{All, AllPairs};
ghost use Rattle.access_map.specs.Sharing.{AreWorldsApart};
ghost use Rattle.platform.specs.Boards.{numbers_of};
ghost use Rattle.access_map.specs.WorldText.{AreAllApart};

use crate::later::rows_after;
use crate::{Span, World, WorldSteps, Worlds, are_apart};
use platform::board::Layout;

/// Returns whether every two worlds are apart, and there are no steps in further ones. Worlds may share the bytes of
/// `allowed`.
pub fn are_all_apart(board: &Layout, allowed: &[Span], worlds: &Worlds) -> bool
    ensures { Decides result (AreAllApart (numbers_of board.now) allowed.now worlds.now) }
{
    worlds.others() == 0 && are_pairs_apart(board, allowed, worlds.rows())
}

/// Returns whether every two of these worlds are apart.
fn are_pairs_apart(board: &Layout, allowed: &[Span], rows: &[WorldSteps]) -> bool
    ensures { Decides result
        (AllPairs (λ row other. AreWorldsApart (numbers_of board.now) row.world other.world allowed.now) rows.now) }
{
    'each: for (place, row) in rows.iter().enumerate() {
        if !is_apart_from_all(board, allowed, &row.world, rows_after(rows, place)) {
            return false;
        }
    }
    true
}

/// Returns whether a world is apart from all others of a list.
fn is_apart_from_all(board: &Layout, allowed: &[Span], world: &World, others: &[WorldSteps]) -> bool
    ensures { Decides result
        (All (λ other. AreWorldsApart (numbers_of board.now) world.now other.world allowed.now) others.now) }
{
    others
        .iter()
        .all(|other| are_apart(board, world, &other.world, allowed))
}
