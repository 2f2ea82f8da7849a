//! A memory of a few bytes, and what it answers.

use arrayvec::ArrayVec;
use instruction_set::size::Size;
use platform::access::Request;

/// A byte at an address.
#[derive(Clone, Copy)]
struct Cell {
    address: u32,
    byte: u8,
}

impl Default for Cell {
    fn default() -> Self {
        Cell {
            address: 0,
            byte: 0,
        }
    }
}

/// The bytes that were put there, the latest last. All others are 0.
#[derive(Drop)]
pub struct Memory {
    cells: ArrayVec<Cell, 256>,
}

impl Memory {
    pub fn new() -> Self {
        Memory {
            cells: ArrayVec::new(),
        }
    }

    /// A byte is put there.
    pub fn put(&mut self, address: u32, byte: u8) {
        let _ = self.cells.try_push(Cell { address, byte });
    }

    /// The lower halfword of a word is put there.
    pub fn put_halfword(&mut self, address: u32, word: u32) {
        let [first, second, _, _] = word.to_le_bytes();
        self.put(address, first);
        self.put(address.wrapping_add(1), second);
    }

    /// A word is put there.
    pub fn put_word(&mut self, address: u32, word: u32) {
        self.put_halfword(address, word);
        self.put_halfword(address.wrapping_add(2), word >> 16);
    }

    /// The byte at an address.
    pub fn byte(&self, address: u32) -> u8 {
        let mut byte = 0;
        'cells: for cell in self.cells.as_slice() {
            if cell.address == address {
                byte = cell.byte;
            }
        }
        byte
    }

    /// The halfword at an address.
    pub fn halfword(&self, address: u32) -> u16 {
        u16::from_le_bytes([self.byte(address), self.byte(address.wrapping_add(1))])
    }

    /// The address of the first byte that another memory hasn't, or else of the first stray one that it has.
    pub fn first_difference(&self, other: &Memory) -> Option<u32> {
        self.first_other(other).or(other.first_other(self))
    }

    /// The address of the first byte that was put here and that another memory hasn't.
    fn first_other(&self, other: &Memory) -> Option<u32> {
        'cells: for cell in self.cells.as_slice() {
            if self.byte(cell.address) != other.byte(cell.address) {
                return Some(cell.address);
            }
        }
        None
    }

    /// A value of that size is stored.
    fn store(&mut self, address: u32, value: u32, size: Size) {
        match size {
            Size::Byte => self.put(address, value.to_le_bytes()[0]),
            Size::Halfword => self.put_halfword(address, value),
            Size::Word => self.put_word(address, value),
        }
    }

    /// A value of that size is loaded.
    fn load(&self, address: u32, size: Size) -> u32 {
        match size {
            Size::Byte => u32::from(self.byte(address)),
            Size::Halfword => u32::from(self.halfword(address)),
            Size::Word => {
                let lower = u32::from(self.halfword(address));
                lower | u32::from(self.halfword(address.wrapping_add(2))) << 16
            }
        }
    }

    /// Carries out an access; returns the value of a load, and 0 for a store.
    pub fn carry_out(&mut self, request: &Request) -> u32 {
        if request.access.kind.is_store() {
            self.store(request.access.address, request.value, request.access.size);
            0
        } else {
            self.load(request.access.address, request.access.size)
        }
    }
}
