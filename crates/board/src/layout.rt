//! The numbers of a board.

ghost use Rattle.std.specs.Prelude.{◌≡◌, Ok};
ghost use Rattle.toml.specs.View.{table_view};
ghost use Rattle.platform.specs.Boards.{is_region_count, numbers_of};
ghost use Rattle.platform.specs.Regions.{region_number};
ghost use Rattle.board.specs.Reading.{Gives};
ghost use Rattle.board.specs.Texts.{numbers_in};
ghost use Rattle.board.specs.Values.{where_ok};

use crate::ranges::{is_flash, is_interrupt_count, is_priority_bits, is_size, is_whole_blocks};
use crate::values::{find, number, number_or};
use platform::board::Layout;
use platform::error::BoardError;
use platform::mpu::RegionCount;
use toml::Table;

/// How many regions there are where the text doesn't say it.
pub const DEFAULT_REGIONS: u64 = 8;

/// Returns the layout that a document describes, without its second RAM, or the first refusal of its six numbers.
#[tactic(auto, unfolding(crate::specs::Texts::numbers_in))]
pub fn layout_of(document: &Table) -> Result<Layout, BoardError>
    ensures { Gives numbers_of result (numbers_in (table_view document.now)) }
{
    let flash_base = number(find(document, "flash_base"))?;
    if !is_whole_blocks(flash_base) {
        return Err(BoardError::OutOfRange);
    }
    let flash_size = number(find(document, "flash_size"))?;
    if !is_flash(flash_base, flash_size) {
        return Err(BoardError::OutOfRange);
    }
    let ram_size = number(find(document, "ram_size"))?;
    if !is_size(ram_size) {
        return Err(BoardError::OutOfRange);
    }
    let priority_bits = number(find(document, "priority_bits"))?;
    if !is_priority_bits(priority_bits) {
        return Err(BoardError::OutOfRange);
    }
    let interrupts = number(find(document, "lines"))?;
    if !is_interrupt_count(interrupts) {
        return Err(BoardError::OutOfRange);
    }
    let regions = number_or(find(document, "regions"), DEFAULT_REGIONS)?;
    let regions = region_count(regions)?;
    Ok(Layout {
        flash_base: flash_base as u32,
        flash_size: flash_size as u32,
        ram_size: ram_size as u32,
        second_ram: None,
        priority_bits: priority_bits as u8,
        interrupts: interrupts as u8,
        regions,
    })
}

/// Returns the region count of a number, or OutOfRange where that is neither 8 nor 16.
pub fn region_count(regions: u64) -> Result<RegionCount, BoardError>
    ensures { Gives region_number result (where_ok is_region_count (Ok regions)) }
{
    match regions {
        8 => Ok(RegionCount::Eight),
        16 => Ok(RegionCount::Sixteen),
        _ => Err(BoardError::OutOfRange),
    }
}
