//! The second RAM of a board.

ghost use Rattle.std.specs.Prelude.{◌≡◌, ◌&&◌, true, option_map, unwrap_or, IfOk};
ghost use Rattle.toml.specs.View.{items_view, table_view};
ghost use Rattle.platform.specs.Boards.{is_apart, numbers_of, span_of};
ghost use Rattle.board.specs.Reading.{Gives};
ghost use Rattle.board.specs.Texts.{second_ram_in, second_ram_of, with_second_ram};

use crate::events::tables;
use crate::keys::{SECOND_RAM_KEYS, has_only};
use crate::ranges::{is_second_base, is_second_ram};
use crate::values::{find, number};
use platform::board::{Layout, SecondRam};
use platform::error::BoardError;
use toml::{Table, Value};

/// The most tables of a second RAM that a board can have.
pub const MAX_SECOND_RAMS: usize = 1;

/// Returns the layout with the second RAM of a document, if it has one, or the first refusal.
#[tactic(auto, unfolding(crate::specs::Texts::with_second_ram))]
pub fn with_second_ram(layout: Layout, document: &Table) -> Result<Layout, BoardError>
    ensures { Gives numbers_of result (with_second_ram (numbers_of layout) (table_view document.now)) }
{
    let rams = tables(find(document, "ram"), MAX_SECOND_RAMS)?;
    let second_ram = second_ram_of(&layout, rams)?;
    Ok(Layout {
        flash_base: layout.flash_base,
        flash_size: layout.flash_size,
        ram_size: layout.ram_size,
        second_ram,
        priority_bits: layout.priority_bits,
        interrupts: layout.interrupts,
        regions: layout.regions,
    })
}

// The second RAM, if there is a table of one.
fn second_ram_of(layout: &Layout, values: &[Value]) -> Result<Option<SecondRam>, BoardError>
    ensures read { Gives (option_map span_of) result
        (second_ram_of (numbers_of layout.now) (items_view values.now)) }
    ensures apart { IfOk result (λ second.
        unwrap_or (option_map (λ s. is_apart (numbers_of layout.now) (span_of s)) second) true ≡ true) }
{
    let [value, ..] = values else {
        return Ok(None);
    };
    let Some(table) = value.as_table() else {
        return Err(BoardError::WrongKind);
    };
    let second = second_ram_in(layout, table)?;
    Ok(Some(second))
}

// The second RAM of a table.
#[tactic(auto, unfolding(crate::specs::Texts::second_ram_in))]
fn second_ram_in(layout: &Layout, table: &Table) -> Result<SecondRam, BoardError>
    ensures read { Gives span_of result (second_ram_in (numbers_of layout.now) (table_view table.now)) }
    ensures apart { IfOk result (λ second. is_apart (numbers_of layout.now) (span_of second) ≡ true) }
{
    let base = number(find(table, "base"))?;
    if !is_second_base(base) {
        return Err(BoardError::OutOfRange);
    }
    let size = number(find(table, "size"))?;
    if !is_second_ram(layout, base, size) {
        return Err(BoardError::OutOfRange);
    }
    if !has_only(&SECOND_RAM_KEYS, table) {
        return Err(BoardError::UnknownKey);
    }
    Ok(SecondRam {
        base: base as u32,
        size: size as u32,
    })
}
