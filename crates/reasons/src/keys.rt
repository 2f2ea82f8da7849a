//! The keys of a board and of its events, and what each takes. The numbers are those of the tests of `board`.

ghost use Rattle.std.specs.Prelude.{◌≡◌};
ghost use Rattle.reasons.specs.Problems.{takes};

use board::device_ranges::{
    LAST_WORD, MAX_DEVICE_BYTES, has_32_bits, is_device_base, is_device_bytes,
};
use board::ranges::{
    BLOCK, FIRST_TICK, LAST_BLOCK, LAST_TICK, MAX_BYTES, MAX_PRIORITY_BITS, MAX_SECOND_BYTES,
    MIN_PRIORITY_BITS, is_second_base, is_second_size, is_size, is_whole_blocks,
};
use board::{MAX_SCRIPT_EVENTS, PLACES, region_count};
use platform::exception::MAX_INTERRUPTS;
use platform::map::RAM_BASE;
use std::fmt;
use std::fmt::Display;

/// A key, and the values that it takes.
#[derive(Clone, Copy)]
pub struct Key {
    pub name: &'static str,
    pub takes: Takes,
}

/// The values that a key takes.
#[derive(Clone, Copy)]
pub enum Takes {
    /// The integers from one to another.
    Integers(u64, u64),
    /// The multiples of `BLOCK`.
    Blocks,
    /// The sizes of RAM.
    RamSizes,
    /// The sizes of flash: those of RAM, as far as flash ends where RAM begins, or before.
    FlashSizes,
    /// The bases of a second RAM.
    SecondBases,
    /// The sizes of a second RAM.
    SecondSizes,
    /// The bases of a device.
    DeviceBases,
    /// The sizes of a device, and 4 where the key is missing.
    DeviceSizes,
    /// The numbers of 32 bits.
    Bits,
    /// The numbers of places by which bits follow others.
    Places,
    /// 8 and 16, and 8 where the key is missing.
    Regions,
    /// A list of tables.
    Tables,
    /// Values of another type, in words.
    Words(&'static str),
}

impl Takes {
    /// Returns whether a number is one of those that the message for a key names. That flash may end too high is a
    /// problem of its own.
    pub fn includes(self, number: u64) -> bool
        ensures { result ≡ takes self number }
    {
        match self {
            Takes::Integers(least, most) => least <= number && number <= most,
            Takes::Blocks => is_whole_blocks(number),
            Takes::RamSizes | Takes::FlashSizes => is_size(number),
            Takes::SecondBases => is_second_base(number),
            Takes::SecondSizes => is_second_size(number),
            Takes::DeviceBases => is_device_base(number),
            Takes::DeviceSizes => is_device_bytes(number),
            Takes::Bits => has_32_bits(number),
            Takes::Places => number < PLACES,
            Takes::Regions => region_count(number).is_ok(),
            Takes::Tables | Takes::Words(_) => false,
        }
    }
}

impl Display for Takes {
    fn fmt<W: fmt::Write>(&self, f: &mut fmt::Formatter<W>) -> fmt::Result {
        match *self {
            Takes::Integers(least, most) => write!(f, "an integer from {least} to {most}"),
            Takes::Blocks => write!(f, "a multiple of {BLOCK}, at least 0"),
            Takes::RamSizes => write!(f, "a multiple of {BLOCK} from {BLOCK} to {MAX_BYTES}"),
            Takes::FlashSizes => write!(
                f,
                "a multiple of {BLOCK} from {BLOCK} to {MAX_BYTES}, with flash_base + flash_size \
                 at most {RAM_BASE}"
            ),
            Takes::SecondBases => write!(f, "a multiple of {BLOCK} from 0 to {LAST_BLOCK}"),
            Takes::SecondSizes => write!(
                f,
                "a multiple of {BLOCK} from {BLOCK} to {MAX_SECOND_BYTES}"
            ),
            Takes::DeviceBases => write!(f, "a multiple of 4 from 0 to {LAST_WORD}"),
            Takes::DeviceSizes => write!(
                f,
                "a multiple of 4 from 4 to {MAX_DEVICE_BYTES} (4 where the key is missing)"
            ),
            Takes::Bits => write!(f, "an integer from 0 to {}", u32::MAX),
            Takes::Places => write!(f, "an integer from 0 to {}", PLACES - 1),
            Takes::Regions => write!(f, "8 or 16 (8 where the key is missing)"),
            Takes::Tables => write!(
                f,
                "a list of at most {MAX_SCRIPT_EVENTS} tables, each written as [[event]]"
            ),
            Takes::Words(words) => write!(f, "{words}"),
        }
    }
}

/// The keys of a board, as a message lists them.
pub const BOARD_KEY_NAMES: &str =
    "flash_base, flash_size, ram_size, priority_bits, lines, regions, ram, device and event";

pub const FLASH_BASE: Key = Key {
    name: "flash_base",
    takes: Takes::Blocks,
};

pub const FLASH_SIZE: Key = Key {
    name: "flash_size",
    takes: Takes::FlashSizes,
};

pub const RAM_SIZE: Key = Key {
    name: "ram_size",
    takes: Takes::RamSizes,
};

pub const PRIORITY_BITS: Key = Key {
    name: "priority_bits",
    takes: Takes::Integers(MIN_PRIORITY_BITS, MAX_PRIORITY_BITS),
};

pub const LINES: Key = Key {
    name: "lines",
    takes: Takes::Integers(0, MAX_INTERRUPTS as u64),
};

pub const REGIONS: Key = Key {
    name: "regions",
    takes: Takes::Regions,
};

pub const RAM: Key = Key {
    name: "ram",
    takes: Takes::Words("a list of one table at most, written as [[ram]]"),
};

pub const RAM_TABLE: Key = Key {
    name: "ram",
    takes: Takes::Words("a table, written as [[ram]]"),
};

/// The keys of a second RAM, as a message lists them.
pub const SECOND_RAM_KEY_NAMES: &str = "base and size";

pub const SECOND_BASE: Key = Key {
    name: "base",
    takes: Takes::SecondBases,
};

pub const SECOND_SIZE: Key = Key {
    name: "size",
    takes: Takes::SecondSizes,
};

pub const EVENT: Key = Key {
    name: "event",
    takes: Takes::Tables,
};

pub const EVENT_TABLE: Key = Key {
    name: "event",
    takes: Takes::Words("a table, written as [[event]]"),
};

pub const AT: Key = Key {
    name: "at",
    takes: Takes::Integers(FIRST_TICK, LAST_TICK),
};

/// The key of the line of an event or of a device: what it takes depends on the board.
pub const LINE_NAME: &str = "line";

pub const WHAT: Key = Key {
    name: "what",
    takes: Takes::Words("\"rise\", \"fall\" or \"pulse\""),
};

pub const NMI: Key = Key {
    name: "nmi",
    takes: Takes::Words("true (or leave the key out)"),
};
