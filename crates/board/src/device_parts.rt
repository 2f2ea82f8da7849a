//! The parts of a device's table.

ghost use Rattle.std.specs.Prelude.{◌≡◌, ◌<◌, ◌≤◌, ◌+◌, ◌%◌, ◌^◌};

use devices::{Poke, Stores};

/// Where a device begins, and how many bytes it has.
#[derive(Clone, Copy)]
pub struct Span {
    pub base: u32,
    pub size: u32,

    pub ghost base_is_whole: { base % 4 ≡ 0 },
    pub ghost size_is_whole: { size % 4 ≡ 0 },
    pub ghost within: { base + size ≤ 2 ^ 32 },
}

/// What the words of a device read as.
#[derive(Clone, Copy)]
pub struct Values {
    pub start: u32,
    pub ones: u32,
    pub zeros: u32,
    pub stores: Stores,
    pub follows: u32,
    pub by: u8,
    pub of: Option<u32>,
    pub counts: bool,

    pub ghost near: { by < 32 },
}

/// What a load from a device and a store to it do.
#[derive(Clone, Copy)]
pub struct Effects {
    pub console: bool,
    pub load_poke: Option<Poke>,
    pub store_poke: Option<Poke>,
}
