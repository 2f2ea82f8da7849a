//! An interval of addresses that belong to one region.

/// Addresses that belong to one region, or to none.
#[derive(Clone, Copy)]
pub struct Interval {
    /// The first address.
    pub first: u32,
    /// The last address.
    pub last: u32,
    /// The number of the region, below 16.
    pub region: Option<u8>,
}

// A blank interval: the value of the unused elements of a fixed-size list.
impl Default for Interval {
    fn default() -> Self {
        Interval {
            first: 0,
            last: 0,
            region: None,
        }
    }
}

/// The most intervals that a table has.
pub const CAPACITY: usize = 192;
