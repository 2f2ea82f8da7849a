//! The rows after a row.

ghost use Rattle.std.specs.Prelude.{◌≡◌, ◌+◌, ◌<◌, drop, length};

use crate::WorldSteps;

/// Returns the rows after the one at a place.
pub fn rows_after(rows: &[WorldSteps], place: usize) -> &[WorldSteps]
    requires { place < length rows.now }
    ensures { result.now ≡ drop (place + 1) rows.now }
{
    &rows[place + 1..]
}
