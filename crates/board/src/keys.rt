//! The keys that a table may have.

ghost use Rattle.std.specs.Prelude.{◌≡◌, map, bytes_eq};
ghost use Rattle.std.specs.List.{list_any};
ghost use Rattle.toml.specs.View.{table_view};
ghost use Rattle.board.specs.Values.{has_only};

use toml::Table;

/// The keys of a board.
pub const BOARD_KEYS: [&str; 9] = [
    "flash_base",
    "flash_size",
    "ram_size",
    "priority_bits",
    "lines",
    "regions",
    "ram",
    "device",
    "event",
];

/// The keys of a second RAM.
pub const SECOND_RAM_KEYS: [&str; 2] = ["base", "size"];

/// The keys of a device.
pub const DEVICE_KEYS: [&str; 17] = [
    "base",
    "size",
    "start",
    "ones",
    "zeros",
    "stores",
    "follows",
    "by",
    "of",
    "counts",
    "console",
    "load_poke",
    "load_value",
    "store_poke",
    "store_value",
    "line",
    "enable",
];

/// The keys of an event on an interrupt.
pub const INTERRUPT_KEYS: [&str; 3] = ["at", "line", "what"];

/// The keys of an event that pokes a word of a device.
pub const POKE_KEYS: [&str; 3] = ["at", "poke", "value"];

/// The keys of an event of NMI.
pub const NMI_KEYS: [&str; 2] = ["at", "nmi"];

/// Returns whether a table has no other keys than these.
pub fn has_only(known: &[&str], table: &Table) -> bool
    ensures { result ≡ has_only (map (λ key. key.now) known.now) (table_view table.now) }
{
    'members: for (key, _value) in table.iter() {
        if !is_known(known, key.as_str()) {
            return false;
        }
    }
    true
}

/// Returns whether a key is one of these.
pub fn is_known(known: &[&str], key: &str) -> bool
    ensures { result ≡ list_any (bytes_eq key.now) (map (λ key. key.now) known.now) }
{
    'keys: for other in known {
        if key == *other {
            return true;
        }
    }
    false
}
