//! Boards by texts that no row can have, and the small board of the reference.

use super::files::SMALL;
use board::{BoardError, Layout, read_board};
use platform::board::SMALL_BOARD;
use std::alloc::Global;
use std::test::*;

/// The numbers of a layout.
fn numbers(layout: Layout) -> [u32; 5] {
    [
        layout.flash_base,
        layout.flash_size,
        layout.ram_size,
        layout.priority_bits as u32,
        layout.interrupts as u32,
    ]
}

/// Returns whether the small board of the reference is that of its text, and has no event.
fn is_small_board(alloc: Global) -> Option<bool> {
    let board = read_board(alloc, SMALL).ok()?;
    Some(numbers(board.layout) == numbers(SMALL_BOARD) && board.events.is_empty())
}

#[test]
fn small_board(rt: HostRuntime) {
    assert!(rt; is_small_board(rt.alloc()) == Some(true), "the small board");
}

/// The small board, whose first line ends in a carriage return.
const CARRIAGE_RETURN: &str =
    "flash_base = 0\r\nflash_size = 4096\nram_size = 8192\npriority_bits = 4\nlines = 8\n";

#[test]
fn a_line_can_end_in_a_carriage_return(rt: HostRuntime) {
    assert!(rt; read_board(rt.alloc(), CARRIAGE_RETURN).is_ok());
}

#[test]
fn a_text_that_ends_in_a_blank(rt: HostRuntime) -> Result<(), Fail> {
    let mut text = SMALL.to_string(rt.alloc())?;
    text.push_str("event = 1\nx = ")?;
    let answer = read_board(rt.alloc(), text.as_str());
    assert!(rt; matches!(answer, Err(BoardError::NotToml)));
    Ok(())
}
