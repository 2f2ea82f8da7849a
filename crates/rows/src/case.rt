//! The commands of a row, and the files and the input that they read.

use super::boards::SMALL;
use super::elf_file::{ElfFile, FIRST};
use super::words::{push_line, split_line, words_of};
use std::alloc::Global;
use test_tables::{byte_at, number_at};

/// The commands of a row, which are to end alike, and what they read. Where a row has no line of an image or of a board,
/// the image is the first one, and the board the small one.
#[derive(Drop)]
pub struct Case {
    alloc: Global,
    /// The words of each command; the first one is the program's name.
    pub commands: Vec<Vec<String>>,
    first: [u8; 96],
    /// How many bytes of the first image there are.
    length: usize,
    file: ElfFile,
    board: String,
    pub input: String,
    /// After how many bytes standard input fails.
    pub readable: usize,
    /// How many bytes standard output takes, and how many of them in a call.
    pub room: usize,
    pub piece: usize,
    /// Whether standard output fails after these, and doesn't take none.
    pub fails: bool,
    /// The status, once a line has it.
    status: Option<u8>,
    /// Whether both machines are to stop as the command does.
    pub stays: bool,
}

impl Case {
    /// No command over the first image and the small board.
    pub fn new(alloc: Global) -> Self {
        Case {
            alloc,
            commands: Vec::new(alloc),
            first: FIRST,
            length: 96,
            file: ElfFile::new(alloc),
            board: String::new(alloc),
            input: String::new(alloc),
            readable: usize::MAX,
            room: usize::MAX,
            piece: usize::MAX,
            fails: true,
            status: None,
            stays: false,
        }
    }

    /// The status that the commands are to have.
    pub fn status(&self) -> Option<u8> {
        self.status
    }

    /// The text of the board.
    pub fn board(&self) -> &str {
        if self.board.is_empty() {
            SMALL
        } else {
            self.board.as_str()
        }
    }

    /// The bytes of the image.
    pub fn image(&self) -> Option<Vec<u8>> {
        if !self.file.is_empty() {
            return self.file.bytes(self.alloc);
        }
        let mut bytes = Vec::new(self.alloc);
        bytes
            .extend_from_slice(self.first.get(..self.length)?)
            .ok()?;
        Some(bytes)
    }

    /// Reads a line of a row. None where it can't be read.
    pub fn read(&mut self, line: &str) -> Option<()> {
        let (word, rest) = split_line(line);
        match word {
            "marm" => self.commands.push(words_of(self.alloc, line)?).ok(),
            "board" => push_line(&mut self.board, rest),
            "with" => self.read_more(rest),
            "vectors" | "data" | "code" => self.file.add(line),
            "in" => push_line(&mut self.input, rest),
            "in-tail" => self.input.push_str(rest).ok(),
            "stays" => {
                self.stays = true;
                Some(())
            }
            "out"
            | "out-tail"
            | "has"
            | "not"
            | "first"
            | "last"
            | "err"
            | "any"
            | "from"
            | "file"
            | "old" => Some(()),
            _ => self.read_numbers(word, rest),
        }
    }

    /// Puts a line after those of the small board.
    fn read_more(&mut self, line: &str) -> Option<()> {
        if self.board.is_empty() {
            self.board.push_str(SMALL).ok()?;
        }
        push_line(&mut self.board, line)
    }

    /// Reads a line of numbers.
    fn read_numbers(&mut self, word: &str, numbers: &str) -> Option<()> {
        let number = number_at(numbers, 0)? as usize;
        match word {
            "byte" => *self.first.get_mut(number)? = byte_at(numbers, 1)?,
            "length" => self.length = number,
            "room" => self.room = number,
            "piece" => self.piece = number,
            "takes" => {
                self.room = number;
                self.fails = false;
            }
            "reads" => self.readable = number,
            "ends" => self.status = byte_at(numbers, 0),
            _ => return None,
        }
        Some(())
    }
}
