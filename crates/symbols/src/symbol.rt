//! A symbol.

/// A symbol that names an address.
#[derive(Clone, Copy)]
pub struct Symbol {
    /// Its address: that of a function without its Thumb bit.
    pub address: u32,
    /// How many bytes it covers, 0 for a function whose size the table doesn't say.
    pub size: u32,
    /// Where its name begins in the string table.
    pub name: u32,
}
