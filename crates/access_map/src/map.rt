//! The access map of a world.

ghost use Rattle.std.specs.Prelude.{◌≤◌, ◌<◌, ◌+◌, IfOk};
ghost use Rattle.std.specs.List.{All};
ghost use Rattle.access_map.specs.Maps.{AreLongest, Describes, IsMapOf, IsPlaceMap, Tiles};
ghost use Rattle.platform.specs.Boards.{numbers_of};

use crate::interval::Interval;
use crate::world::{Place, World, places};
use mpu::Span;
use platform::board::Layout;
use std::alloc::{AllocError, Global};

/// What unprivileged code may do in a place: its intervals, from the lowest address on.
#[derive(Drop)]
pub struct PlaceMap {
    pub place: Place,
    pub intervals: Vec<Interval>,
}

/// What unprivileged code may do in a world: the maps of the places of a board, in the order of their addresses.
#[derive(Drop)]
pub struct AccessMap {
    pub places: Vec<PlaceMap>,
}

impl AccessMap {
    /// Returns the access map of a world on a board.
    pub fn of(alloc: Global, world: &World, board: &Layout) -> Result<Self, AllocError>
        ensures { IfOk result (λ map. IsMapOf world.now (numbers_of board.now) map) }
    {
        let all = places(board);
        let mut maps = Vec::new(alloc);
        'places: for place in all {
            let place = *place;
            let intervals = intervals_of(alloc, world, board, place)?;
            maps.push(PlaceMap { place, intervals })?;
        }
        Ok(AccessMap { places: maps })
    }
}

/// Returns the intervals of a place.
fn intervals_of(
    alloc: Global,
    world: &World,
    board: &Layout,
    place: Place,
) -> Result<Vec<Interval>, AllocError>
    ensures { IfOk result (λ intervals. IsPlaceMap world.now (numbers_of board.now) place intervals.items) }
{
    match place.span(board) {
        Some(span) => intervals_within(alloc, world, place, span),
        None => Ok(Vec::new(alloc)),
    }
}

/// Returns the intervals of the addresses of a span, in which addresses neighbour.
fn intervals_within(
    alloc: Global,
    world: &World,
    place: Place,
    span: Span,
) -> Result<Vec<Interval>, AllocError>
    requires some { span.first ≤ span.last }
    requires below { span.last < 0xE000_0000 }
    ensures tiles { IfOk result (λ intervals. Tiles intervals.items span.first (span.last + 1)) }
    ensures right { IfOk result (λ intervals. All (Describes world.now place) intervals.items) }
    ensures longest { IfOk result (λ intervals. AreLongest intervals.items) }
{
    let mut intervals = Vec::new(alloc);
    let mut current = Interval::at(world, place, span);
    'each: while current.last < span.last {
        let next = Interval::at(
            world,
            place,
            Span {
                first: current.last + 1,
                last: span.last,
            },
        );
        if current.is_alike(&next) {
            current.last = next.last;
        } else {
            intervals.push(current)?;
            current = next;
        }
    }
    intervals.push(current)?;
    Ok(intervals)
}
