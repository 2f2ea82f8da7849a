//! The machine of an image on a board, before its first step.

ghost use Rattle.command.specs.Opening.{Opens, ReadsBoard, board_in_file};
ghost use Rattle.platform.specs.Images.{image_of};

use crate::error::Error;
use board::{Board, BoardError, read_board};
use devices::Device;
use elf::load;
use machine::{Fast, Layout};
use std::alloc::Global;
use std::str;

/// An image on a board.
#[derive(Drop)]
pub struct Opened {
    /// The machine before its first step.
    pub machine: Fast,
    /// The sizes and numbers of the board.
    pub layout: Layout,
    /// The devices of the board.
    pub devices: Vec<Device>,
}

/// Reads an image and a board, and makes their machine. The image is refused first, then the board, then the
/// start. Memory that runs out for the board or the machine is an error of the board or of the start.
#[inline(never)]
pub fn open(alloc: Global, image: &[u8], board: &[u8]) -> Result<Opened, Error>
    ensures { Opens (image_of image.now) (board_in_file board.now) result }
{
    let image = load(image).map_err(Error::Load)?;
    let board = board_of_file(alloc, board).map_err(Error::Board)?;
    let machine = Fast::new(alloc, &image, &board).map_err(Error::Start)?;
    Ok(Opened {
        machine,
        layout: board.layout,
        devices: board.devices,
    })
}

/// Returns the board that the bytes of a file describe.
#[inline(never)]
pub fn board_of_file(alloc: Global, bytes: &[u8]) -> Result<Board, BoardError>
    ensures { ReadsBoard (board_in_file bytes.now) result }
{
    match str::from_utf8(bytes) {
        Ok(text) => read_board(alloc, text),
        Err(_) => Err(BoardError::NotToml),
    }
}
