//! The keys of devices and of pokes, and what each takes.

use crate::keys::{Key, Takes};

pub const DEVICE: Key = Key {
    name: "device",
    takes: Takes::Words("a list of at most 256 tables, each written as [[device]]"),
};

pub const DEVICE_TABLE: Key = Key {
    name: "device",
    takes: Takes::Words("a table, written as [[device]]"),
};

/// The keys of a device, as a message lists them.
pub const DEVICE_KEY_NAMES: &str = "base, size, start, ones, zeros, stores, follows, by, of, \
     counts, console, load_poke, load_value, store_poke, store_value, line and enable";

pub const DEVICE_BASE: Key = Key {
    name: "base",
    takes: Takes::DeviceBases,
};

pub const DEVICE_SIZE: Key = Key {
    name: "size",
    takes: Takes::DeviceSizes,
};

pub const START: Key = Key {
    name: "start",
    takes: Takes::Bits,
};

pub const ONES: Key = Key {
    name: "ones",
    takes: Takes::Bits,
};

pub const ZEROS: Key = Key {
    name: "zeros",
    takes: Takes::Bits,
};

pub const STORES: Key = Key {
    name: "stores",
    takes: Takes::Words("\"kept\", \"ignored\", \"ones-clear\" or \"zeros-clear\""),
};

pub const FOLLOWS: Key = Key {
    name: "follows",
    takes: Takes::Bits,
};

pub const BY: Key = Key {
    name: "by",
    takes: Takes::Places,
};

pub const OF: Key = Key {
    name: "of",
    takes: Takes::Words(FOLLOWED),
};

pub const COUNTS: Key = Key {
    name: "counts",
    takes: Takes::Words("true or false"),
};

pub const CONSOLE: Key = Key {
    name: "console",
    takes: Takes::Words("true or false"),
};

pub const LOAD_POKE: Key = Key {
    name: "load_poke",
    takes: Takes::Words(NAMED),
};

pub const LOAD_VALUE: Key = Key {
    name: "load_value",
    takes: Takes::Bits,
};

pub const STORE_POKE: Key = Key {
    name: "store_poke",
    takes: Takes::Words(NAMED),
};

pub const STORE_VALUE: Key = Key {
    name: "store_value",
    takes: Takes::Bits,
};

pub const ENABLE: Key = Key {
    name: "enable",
    takes: Takes::Words(FOLLOWED),
};

pub const POKE: Key = Key {
    name: "poke",
    takes: Takes::Words("the address of a word of a device, a multiple of 4"),
};

pub const POKE_VALUE: Key = Key {
    name: "value",
    takes: Takes::Bits,
};

/// The words that the table of a device can name.
const NAMED: &str = "the address of a word of this device or of one before it, a multiple of 4";

/// The words that bits can follow, or that can enable a line.
const FOLLOWED: &str =
    "the address of a word of this device or of one before it that doesn't count, a multiple of 4";
