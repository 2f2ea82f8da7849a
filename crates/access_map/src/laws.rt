//! What holds of maps and of shared spans: each is the theorem of a function that does nothing.

ghost use Rattle.std.specs.Prelude.{◌≡◌, ◌↔◌, ℕ, [], List};
ghost use Rattle.access_map.specs.Maps.{IsMapOf, IsPlaceMap};
ghost use Rattle.access_map.specs.Places.{ArePlacesOf};
ghost use Rattle.access_map.specs.Settings.{IsSameSetting};
ghost use Rattle.access_map.specs.Worlds.{decision_in};
ghost use Rattle.access_map.specs.Sharing.{AreWorldsApart, AreShared};
ghost use Rattle.access_map.specs.declared.board_place.BoardPlace.{BoardPlace};
ghost use Rattle.access_map.specs.declared.interval.Interval.{Interval};
ghost use Rattle.access_map.specs.declared.world.Place.{Place};
ghost use Rattle.access_map.specs.declared.world.World.{World};
ghost use Rattle.devices.specs.declared.device.Device.{Device};
ghost use Rattle.mpu.specs.declared.spans.Span.{Span};
ghost use Rattle.platform.specs.Boards.{Numbers};
ghost use Rattle.platform.specs.declared.access.Kind.{Kind};

/// A world has one map on a board: a place has one list of intervals that tile it, describe it, and are as long as
/// possible.
pub fn map_is_unique()
    ensures { (w : World) (board : Numbers) (place : Place) (xs ys : List Interval)
        → IsPlaceMap w board place xs → IsPlaceMap w board place ys → xs ≡ ys }
{}

/// A board with some devices has one list of places: two lists that have the same addresses of each kind, rise, and are
/// as long as possible are the same list.
pub fn places_are_unique()
    ensures { (board : Numbers) (devices : List Device) (ps qs : List BoardPlace)
        → ArePlacesOf board devices ps → ArePlacesOf board devices qs → ps ≡ qs }
{}

/// Worlds in which the MPU has the same setting decide each access alike: they have the same rights everywhere, by the
/// same rules.
#[tactic(auto, using(crate::proofs::SameSettings::same_decisions))]
pub fn same_setting_decides_alike()
    ensures { (v w : World) (a : ℕ) (kind : Kind) → IsSameSetting v w → decision_in v a kind ≡ decision_in w a kind }
{}

/// Two worlds are apart exactly where both lists of shared spans are empty.
pub fn apart_exactly_without_spans()
    ensures { (board : Numbers) (v w : World) (allowed there back : List Span)
        → AreShared board v w allowed there → AreShared board w v allowed back
        → AreWorldsApart board v w allowed ↔ ((there ≡ []) × (back ≡ [])) }
{}
