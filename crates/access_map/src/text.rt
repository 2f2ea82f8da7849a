//! The text, part by part.

ghost use Rattle.std.specs.Prelude.{◌≡◌, ◌+◌, ◌≤◌, length, IfOk};
ghost use Rattle.platform.specs.Boards.{numbers_of};
ghost use Rattle.access_map.specs.Names.{shown_name};
ghost use Rattle.access_map.specs.WorldText.{AreAllPairTexts, ArePairTexts, AreWorldTexts, IsPairText, IsWorldText};
ghost use Rattle.access_map.specs.WorldText.{IsWorldsText, others_shown};

use crate::later::rows_after;
use crate::names::shown_name;
use crate::{
    AccessMap, Span, World, WorldSteps, Worlds, map_text, others_line, pair_text, shared,
    world_line,
};
use platform::board::Layout;
use platform::stop::Stop;
use std::alloc::{AllocError, Global};
use symbols::Symbols;
use trace::lines::stop_line;

/// Returns the text about the worlds of a run on a board that ended with a stop. `symbols` are those of the image, and
/// the worlds may share the bytes of `allowed`.
pub fn worlds_text(
    alloc: Global,
    board: &Layout,
    symbols: &Symbols<'_>,
    allowed: &[Span],
    worlds: &Worlds,
    stop: &Stop,
) -> Result<Vec<u8>, AllocError>
    ensures { IfOk result (λ text. IsWorldsText (numbers_of board.now)
        (shown_name symbols.now.strings.now symbols.now.list.items) allowed.now worlds.now stop.now text.items) }
{
    let mut text = world_texts(alloc, board, symbols, worlds.rows())?;
    let others = others_shown(alloc, worlds.others())?;
    text.extend_from_slice(others.as_slice())?;
    let pairs = all_pair_texts(alloc, board, allowed, worlds.rows())?;
    text.extend_from_slice(pairs.as_slice())?;
    text.extend_from_slice(stop_line(stop).as_slice())?;
    Ok(text)
}

/// Returns the texts of worlds, the first of which has the number 1.
fn world_texts(
    alloc: Global,
    board: &Layout,
    symbols: &Symbols<'_>,
    rows: &[WorldSteps],
) -> Result<Vec<u8>, AllocError>
    requires { length rows.now ≤ 64 }
    ensures { IfOk result (λ text. AreWorldTexts (numbers_of board.now)
        (shown_name symbols.now.strings.now symbols.now.list.items) 1 rows.now text.items) }
{
    let mut text = Vec::new(alloc);
    'each: for (place, row) in rows.iter().enumerate() {
        let lines = world_text(alloc, board, symbols, place as u8 + 1, row)?;
        text.extend_from_slice(lines.as_slice())?;
    }
    Ok(text)
}

/// Returns the line of a world, and those of its access map.
fn world_text(
    alloc: Global,
    board: &Layout,
    symbols: &Symbols<'_>,
    number: u8,
    row: &WorldSteps,
) -> Result<Vec<u8>, AllocError>
    ensures { IfOk result (λ text. IsWorldText (numbers_of board.now)
        (shown_name symbols.now.strings.now symbols.now.list.items) number row.now text.items) }
{
    let map = AccessMap::of(alloc, &row.world, board)?;
    let mut text = world_line(alloc, number, row, shown_name(symbols, row.pc))?;
    text.extend_from_slice(map_text(alloc, number, &map)?.as_slice())?;
    Ok(text)
}

/// Returns the line of steps in further worlds, where there are any.
fn others_shown(alloc: Global, steps: u64) -> Result<Vec<u8>, AllocError>
    ensures { IfOk result (λ text. text.items ≡ others_shown steps) }
{
    let mut text = Vec::new(alloc);
    if steps != 0 {
        text.extend_from_slice(others_line(steps).as_slice())?;
    }
    Ok(text)
}

/// Returns the texts of all pairs of worlds, the first of which has the number 1.
fn all_pair_texts(
    alloc: Global,
    board: &Layout,
    allowed: &[Span],
    rows: &[WorldSteps],
) -> Result<Vec<u8>, AllocError>
    requires { length rows.now ≤ 64 }
    ensures { IfOk result (λ text. AreAllPairTexts (numbers_of board.now) allowed.now 1 rows.now text.items) }
{
    let mut text = Vec::new(alloc);
    'each: for (place, row) in rows.iter().enumerate() {
        let later = rows_after(rows, place);
        let lines = pair_texts(alloc, board, allowed, place as u8 + 1, &row.world, later)?;
        text.extend_from_slice(lines.as_slice())?;
    }
    Ok(text)
}

/// Returns the texts of the pairs of a world with those that follow it.
fn pair_texts(
    alloc: Global,
    board: &Layout,
    allowed: &[Span],
    number: u8,
    world: &World,
    others: &[WorldSteps],
) -> Result<Vec<u8>, AllocError>
    requires { number + length others.now ≤ 64 }
    ensures { IfOk result (λ text. ArePairTexts (numbers_of board.now) allowed.now number world.now (number + 1)
        others.now text.items) }
{
    let mut text = Vec::new(alloc);
    'each: for (place, other) in others.iter().enumerate() {
        let lines = pair_lines(
            alloc,
            board,
            allowed,
            number,
            world,
            number + 1 + place as u8,
            &other.world,
        )?;
        text.extend_from_slice(lines.as_slice())?;
    }
    Ok(text)
}

/// Returns what two worlds share with one another.
fn pair_lines(
    alloc: Global,
    board: &Layout,
    allowed: &[Span],
    number: u8,
    world: &World,
    other_number: u8,
    other: &World,
) -> Result<Vec<u8>, AllocError>
    ensures { IfOk result (λ text. IsPairText (numbers_of board.now) allowed.now number world.now other_number
        other.now text.items) }
{
    let there = shared(alloc, board, world, other, allowed)?;
    let back = shared(alloc, board, other, world, allowed)?;
    pair_text(
        alloc,
        number,
        other_number,
        there.as_slice(),
        back.as_slice(),
    )
}
