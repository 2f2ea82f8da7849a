//! A case as text: its name, and lines of a word and of hexadecimal numbers.
//!
//! | Word | Numbers |
//! |---|---|
//! | `code` | the address, and the halfwords there |
//! | `registers`, `higher` | R0 to R7, and R8 to LR, before |
//! | `before`, `after` | a register's number and its value, and so on; 15 is the address of the next instruction |
//! | `flags`, `flags_after` | APSR |
//! | `it`, `it_after` | ITSTATE |
//! | `thumb_after` | EPSR.T |
//! | `memory`, `memory_after` | an address, and the words there |
//! | `bytes` | an address, and the bytes there |
//! | `unchanged` | none: nothing but the PC changes |
//!
//! What has no line with `after` is to be as before, memory too; the PC is to be after the code. A case
//! without code, or without a line of what is checked, is refused.

ghost use Rattle.std.specs.Prelude.{◌<◌};

use crate::memory::Memory;
use arrayvec::ArrayVec;
use instruction_set::registers::Register;
use regs::{Regs, flags_of};
use std::alloc::{AllocError, Global};
use std::io;
use test_tables::{Outcome, number, word};

/// What is to be there afterwards.
#[derive(Drop)]
pub struct Wanted {
    /// R0 to LR, and the address of the next instruction.
    pub registers: [u32; 16],
    pub flags: u32,
    pub it: u8,
    pub thumb: bool,
    pub memory: Memory,
}

/// A case: the machine before, how many halfwords of code it runs, and what is wanted.
#[derive(Drop)]
pub struct Case {
    pub regs: Regs,
    pub memory: Memory,
    pub halfwords: usize,
    pub wanted: Wanted,
    /// Whether a line says what is to be afterwards.
    pub is_checked: bool,
}

/// A part of what a case leaves.
#[derive(Clone, Copy, Drop)]
enum Place {
    Register(u8),
    Flags,
    It,
    Thumb,
    Byte(u32),
}

/// The first place that has another value than the one wanted.
#[derive(Drop)]
pub struct Difference {
    place: Place,
    wanted: u32,
    came: u32,
}

impl Difference {
    /// The difference of two values, where they differ.
    fn between(place: Place, wanted: u32, came: u32) -> Option<Self> {
        if wanted == came {
            None
        } else {
            Some(Difference {
                place,
                wanted,
                came,
            })
        }
    }

    /// Returns the outcome of a case with this difference.
    pub fn outcome(&self, alloc: Global) -> io::Result<Outcome> {
        Ok(Outcome::Differs {
            wanted: self.place.with(alloc, self.wanted)?,
            came: self.place.with(alloc, self.came)?,
        })
    }
}

impl Place {
    /// The text of a place and its value.
    fn with(self, alloc: Global, value: u32) -> Result<String, AllocError> {
        match self {
            Place::Register(15) => format!(in alloc; "the next instruction is at {value:08X}"),
            Place::Register(number) => format!(in alloc; "R{number} {value:08X}"),
            Place::Flags => format!(in alloc; "flags {value:08X}"),
            Place::It => format!(in alloc; "it {value:02X}"),
            Place::Thumb => format!(in alloc; "thumb {value}"),
            Place::Byte(address) => format!(in alloc; "the byte at {address:08X} is {value:02X}"),
        }
    }
}

/// The numbers of a line.
type Numbers = ArrayVec<u32, 24>;

/// The numbers after the first word of a line.
fn numbers_of(line: &str) -> Option<Numbers> {
    let mut numbers = Numbers::new();
    'words: for word in line.split_whitespace().skip(1) {
        numbers.try_push(number(word)?).ok()?;
    }
    Some(numbers)
}

/// The number at a place of a line, 0 where it has none.
fn number_at(numbers: &Numbers, place: usize) -> u32 {
    match numbers.as_slice().get(place) {
        Some(number) => *number,
        None => 0,
    }
}

/// Returns whether a line says what is to be afterwards.
fn is_check(word: &str) -> bool {
    matches!(
        word,
        "after" | "flags_after" | "it_after" | "thumb_after" | "memory_after" | "unchanged"
    )
}

impl Case {
    /// A machine after a reset, whose registers and flags are 0.
    pub fn new() -> Self {
        let mut regs = Regs::reset(0, 1);
        regs.set(Register::new(14), 0);
        Case {
            regs,
            memory: Memory::new(),
            halfwords: 0,
            wanted: Wanted {
                registers: [0; 16],
                flags: 0,
                it: 0,
                thumb: true,
                memory: Memory::new(),
            },
            is_checked: false,
        }
    }

    /// The case of a text whose first line is a name.
    pub fn of(text: &str) -> Option<Self> {
        let mut case = Case::new();
        'lines: for line in text.lines().skip(1) {
            case.read(line)?;
        }
        if case.halfwords == 0 {
            return None;
        }
        Some(case)
    }

    /// The first place that hasn't what is wanted, once the code has run: registers, then flags, IT and T, then memory.
    pub fn difference(&self) -> Option<Difference> {
        let wanted = &self.wanted;
        self.register_difference()
            .or(Difference::between(Place::Flags, wanted.flags, self.regs.apsr()))
            .or(Difference::between(
                Place::It,
                u32::from(wanted.it),
                u32::from(self.regs.it_state()),
            ))
            .or(Difference::between(
                Place::Thumb,
                u32::from(wanted.thumb),
                u32::from(self.regs.is_thumb()),
            ))
            .or(self.memory_difference())
    }

    /// The first register that hasn't what is wanted.
    fn register_difference(&self) -> Option<Difference> {
        'registers: for number in 0..15 {
            let came = self.regs.get(Register::new(number));
            let wanted = self.wanted.registers[number as usize];
            if wanted != came {
                return Difference::between(Place::Register(number), wanted, came);
            }
        }
        Difference::between(
            Place::Register(15),
            self.wanted.registers[15],
            self.regs.pc(),
        )
    }

    /// The first byte that isn't what is wanted, a stray one too.
    fn memory_difference(&self) -> Option<Difference> {
        let address = self.wanted.memory.first_difference(&self.memory)?;
        Difference::between(
            Place::Byte(address),
            u32::from(self.wanted.memory.byte(address)),
            u32::from(self.memory.byte(address)),
        )
    }

    /// A line is read.
    fn read(&mut self, line: &str) -> Option<()> {
        let numbers = numbers_of(line)?;
        if is_check(word(line, 0)) {
            self.is_checked = true;
        }
        match word(line, 0) {
            "unchanged" => {}
            "code" => self.read_code(&numbers),
            "registers" => self.read_registers(0, &numbers),
            "higher" => self.read_registers(8, &numbers),
            "before" => return self.read_before(&numbers),
            "after" => return self.read_after(&numbers),
            "memory" => self.read_words(true, &numbers),
            "memory_after" => self.read_words(false, &numbers),
            "bytes" => self.read_bytes(&numbers),
            word => return self.read_status(word, number_at(&numbers, 0)),
        }
        Some(())
    }

    /// Flags, IT and T.
    fn read_status(&mut self, word: &str, value: u32) -> Option<()> {
        let byte = (value & 0xFF) as u8;
        match word {
            "flags" => {
                self.regs.set_flags(flags_of(value));
                self.wanted.flags = value;
            }
            "flags_after" => self.wanted.flags = value,
            "it" => {
                self.regs.set_it_state(byte);
                self.wanted.it = byte;
            }
            "it_after" => self.wanted.it = byte,
            "thumb_after" => self.wanted.thumb = value == 1,
            _ => return None,
        }
        Some(())
    }

    /// The code, after which the PC is to be.
    fn read_code(&mut self, numbers: &Numbers) {
        let mut at = number_at(numbers, 0);
        self.regs.branch(at);
        'halfwords: for halfword in numbers.as_slice().iter().skip(1) {
            self.memory.put_halfword(at, *halfword);
            self.wanted.memory.put_halfword(at, *halfword);
            at = at.wrapping_add(2);
        }
        self.halfwords = numbers.len().saturating_sub(1);
        self.wanted.registers[15] = at;
    }

    /// Registers upward from that one, as far as LR.
    fn read_registers(&mut self, lowest: u8, numbers: &Numbers) {
        'registers: for number in 0..15 {
            if number >= lowest && number < lowest.saturating_add(8) {
                let place = number.saturating_sub(lowest);
                self.set(number, number_at(numbers, usize::from(place)));
            }
        }
    }

    /// Registers with their numbers.
    fn read_before(&mut self, numbers: &Numbers) -> Option<()> {
        'pairs: for pair in 0..12 {
            if 2 * pair < numbers.len() {
                let number = number_at(numbers, 2 * pair);
                if number >= 15 {
                    return None;
                }
                self.set(number as u8, number_at(numbers, 2 * pair + 1));
            }
        }
        Some(())
    }

    /// Sets a register to a value, which it is to keep.
    fn set(&mut self, number: u8, value: u32)
        requires { number < 15 }
    {
        self.regs.set(Register::new(number), value);
        self.wanted.registers[number as usize] = value;
    }

    /// Registers that are to have other values.
    fn read_after(&mut self, numbers: &Numbers) -> Option<()> {
        'pairs: for pair in 0..12 {
            if 2 * pair < numbers.len() {
                let number = number_at(numbers, 2 * pair);
                if number >= 16 {
                    return None;
                }
                self.wanted.registers[number as usize] = number_at(numbers, 2 * pair + 1);
            }
        }
        Some(())
    }

    /// Words of memory, before or afterwards.
    fn read_words(&mut self, before: bool, numbers: &Numbers) {
        let mut at = number_at(numbers, 0);
        'words: for word in numbers.as_slice().iter().skip(1) {
            if before {
                self.memory.put_word(at, *word);
            }
            self.wanted.memory.put_word(at, *word);
            at = at.wrapping_add(4);
        }
    }

    /// Bytes of memory.
    fn read_bytes(&mut self, numbers: &Numbers) {
        let mut at = number_at(numbers, 0);
        'bytes: for byte in numbers.as_slice().iter().skip(1) {
            self.memory.put(at, (*byte & 0xFF) as u8);
            self.wanted.memory.put(at, (*byte & 0xFF) as u8);
            at = at.wrapping_add(1);
        }
    }
}
