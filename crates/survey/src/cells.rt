//! Which cells of a memory were touched, by whom and how.

ghost use Rattle.std.specs.Prelude.{◌≡◌, ◌<◌, ◌≤◌, ◌+◌, ◌*◌, ◌^◌, IfOk, replicate, false};
ghost use Rattle.survey.specs.Cells.{is_marked, mark_of, touched, touched_at, touched_both, width_of};

use crate::counts::privilege_number;
use crate::touch::Touch;
use platform::access::DecidedAccess;
use std::alloc::{AllocError, Global};
use std::marker::Model;

/// How many cells a memory has at most.
pub const MAX_CELLS: usize = 1024;

/// How many marks there are: 2 privileges and 4 ways to touch each cell.
pub const MARKS: usize = 8192;

/// Which cells of a memory were touched, by whom and how.
#[derive(Drop)]
pub struct Cells {
    /// The address of the first byte.
    base: u32,
    /// The bytes of the memory.
    size: u32,
    /// A cell has 2^width bytes.
    width: u32,
    marks: Vec<bool>,
}

impl Model for Cells {
    ghost use Rattle.std.specs.Prelude.{◌≡◌, ◌≤◌, ◌*◌, ◌^◌, length};
    ghost use Rattle.survey.specs.Cells.{Cells as CellsView};

    ghost Value = { CellsView };

    ghost view = { λ c. record { base = c.base; size = c.size; width = c.width; marks = c.marks.items } };

    ghost invariant = { λ c. (length c.marks.items ≡ 8192) × (c.size ≤ 1024 * 2 ^ c.width) × (c.width ≤ 10) };
}

impl Cells {
    /// Returns the cells of a memory of at most a mebibyte, none of them touched.
    pub fn new(alloc: Global, base: u32, size: u32) -> Result<Self, AllocError>
        requires { size ≤ 0x10_0000 }
        ensures base { IfOk result (λ cells. cells.base ≡ base) }
        ensures size { IfOk result (λ cells. cells.size ≡ size) }
        ensures width { IfOk result (λ cells. cells.width ≡ width_of size) }
        ensures marks { IfOk result (λ cells. cells.marks ≡ replicate MARKS false) }
    {
        let marks = vec![in alloc; false; MARKS]?;
        let width = width_of(size);
        Ok(Cells {
            base,
            size,
            width,
            marks,
        })
    }

    /// Marks the cells of an access that touches memory in a way, if it touches any.
    #[inline(always)]
    pub fn take_touch(&mut self, decided: &DecidedAccess, touch: Option<Touch>)
        ensures { self.new ≡ touched self.old decided.now touch }
    {
        match touch {
            None => {}
            Some(touch) => {
                let first = u64::from(decided.access.address);
                let last = first + u64::from(decided.access.size.bytes() - 1);
                self.mark_both(decided.access.privileged, touch, first, last);
            }
        }
    }

    /// Marks the cells of the first and the last address of an access, if the memory has a byte there.
    #[inline(always)]
    fn mark_both(&mut self, privileged: bool, touch: Touch, first: u64, last: u64)
        requires { first ≤ last }
        ensures { self.new ≡ touched_both self.old privileged touch first last }
    {
        let base = u64::from(self.base);
        if base <= first {
            if last - base < u64::from(self.size) {
                self.mark_within(privileged, touch, first - base, last - base);
            } else if first - base < u64::from(self.size) {
                self.mark_partly(privileged, touch, first, last);
            }
        } else if base <= last {
            self.mark_partly(privileged, touch, first, last);
        }
    }

    /// Marks the cells of two bytes of the memory, by their places in it.
    #[inline(always)]
    fn mark_within(&mut self, privileged: bool, touch: Touch, first: u64, last: u64)
        requires first { first < self.old.size }
        requires last { last < self.old.size }
        ensures { self.new ≡ touched_both self.old privileged touch (self.old.base + first) (self.old.base + last) }
    {
        let width = self.width;
        let one = mark_of(privileged, touch, (first >> width) as usize);
        let other = mark_of(privileged, touch, (last >> width) as usize);
        let marks = self.marks.as_mut_slice();
        marks[one] = true;
        marks[other] = true;
    }

    /// Marks the cells of the first and the last address of an access, of which the memory may not have all bytes.
    #[cold]
    #[inline(never)]
    fn mark_partly(&mut self, privileged: bool, touch: Touch, first: u64, last: u64)
        ensures { self.new ≡ touched_both self.old privileged touch first last }
    {
        self.mark_at(privileged, touch, first);
        self.mark_at(privileged, touch, last);
    }

    /// Marks the cell of an address, if the memory has a byte there.
    fn mark_at(&mut self, privileged: bool, touch: Touch, address: u64)
        ensures { self.new ≡ touched_at self.old privileged touch address }
    {
        let base = u64::from(self.base);
        if base <= address && address < base + u64::from(self.size) {
            let cell = (address - base) >> self.width;
            let mark = mark_of(privileged, touch, cell as usize);
            self.marks[mark] = true;
        }
    }

    /// Returns whether code of a privilege touched a byte of a cell in a way.
    pub fn is_marked(&self, privileged: bool, touch: Touch, cell: usize) -> bool
        requires { cell < MAX_CELLS }
        ensures { result ≡ is_marked self.now privileged touch cell }
    {
        self.marks[mark_of(privileged, touch, cell)]
    }

    /// Returns how many bytes a cell has.
    pub fn cell_bytes(&self) -> u32
        ensures { result ≡ 2 ^ self.now.width }
    {
        1 << self.width
    }

    /// Returns the address of the first byte of the memory, and how many bytes it has.
    pub fn span(&self) -> (u32, u32)
        ensures { result ≡ record { 0 = self.now.base; 1 = self.now.size } }
    {
        (self.base, self.size)
    }
}

/// Returns the place of the mark of a cell that code of a privilege touched so.
#[inline(always)]
fn mark_of(privileged: bool, touch: Touch, cell: usize) -> usize
    requires { cell < MAX_CELLS }
    ensures value { result ≡ mark_of privileged touch cell }
    ensures within { result < MARKS }
{
    (privilege_number(privileged) * 4 + touch.number()) * MAX_CELLS + cell
}

/// Returns the width of the cells of a memory: the least for which there are enough cells.
fn width_of(size: u32) -> u32
    requires { size ≤ 0x10_0000 }
    ensures value { result ≡ width_of size }
    ensures enough { size ≤ 1024 * 2 ^ result }
    ensures few { result ≤ 10 }
{
    if size <= 32 * 1024 {
        5
    } else if size <= 64 * 1024 {
        6
    } else if size <= 128 * 1024 {
        7
    } else if size <= 256 * 1024 {
        8
    } else if size <= 512 * 1024 {
        9
    } else {
        10
    }
}
