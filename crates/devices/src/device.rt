//! What a board says of a device (profile).

ghost use Rattle.std.specs.Prelude.{◌≡◌, ◌<◌, ◌+◌, ◌≤◌, ◌%◌, ◌^◌};

/// The most devices that a board can have.
pub const MAX_DEVICES: usize = 256;

/// What a store does to the bits that it covers.
#[derive(Clone, Copy)]
pub enum Stores {
    /// The bits take the stored value.
    Kept,
    /// The bits stay.
    Ignored,
    /// A 1 clears its bit, and a 0 leaves it.
    OnesClear,
    /// A 0 clears its bit, and a 1 leaves it.
    ZerosClear,
}

/// A word that gets a content.
#[derive(Clone, Copy)]
pub struct Poke {
    /// The address of the word, a multiple of 4.
    pub address: u32,
    pub value: u32,
}

/// An external interrupt that is high while a bit is 1 both in the device's first word and in another one.
#[derive(Clone, Copy)]
pub struct Line {
    /// The number of the interrupt, at most 239.
    pub number: u8,
    /// The address of the other word, which enables bits of the first.
    pub enable: u32,

    // There are at most 240 external interrupts.
    pub ghost number_is_small: { number < 240 },
}

/// A device: words side by side that follow one rule.
#[derive(Clone, Copy)]
pub struct Device {
    /// The address of the first word, a multiple of 4.
    pub base: u32,
    /// How many bytes the words have, a multiple of 4.
    pub size: u32,
    /// What each word holds at the start.
    pub start: u32,
    /// The bits that read 1.
    pub ones: u32,
    /// The bits that read 0.
    pub zeros: u32,
    pub stores: Stores,
    /// The bits that read what bits of a content hold that are `by` places lower.
    pub follows: u32,
    pub by: u8,
    /// The address of the word whose content they follow; none is their own.
    pub of: Option<u32>,
    /// Whether the words count the ticks.
    pub counts: bool,
    /// Whether the lowest byte of a word goes to the console where it's stored.
    pub console: bool,
    /// What a load from the device pokes.
    pub load_poke: Option<Poke>,
    /// What a store to the device pokes.
    pub store_poke: Option<Poke>,
    pub line: Option<Line>,

    // Bits follow bits at most 31 places lower.
    pub ghost near: { by < 32 },
    // The device is whole words of the address space.
    pub ghost base_is_whole: { base % 4 ≡ 0 },
    pub ghost size_is_whole: { size % 4 ≡ 0 },
    pub ghost within: { base + size ≤ 2 ^ 32 },
}
