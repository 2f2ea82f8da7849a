//! Numbers as the page has them.

use std::fmt;

/// The value of the last digit of each group of three, from the highest group of a `u64` on.
const GROUPS: [u64; 7] = [
    1_000_000_000_000_000_000,
    1_000_000_000_000_000,
    1_000_000_000_000,
    1_000_000_000,
    1_000_000,
    1_000,
    1,
];

/// A number with a comma before each group of three digits.
#[derive(Clone, Copy)]
pub struct Thousands(pub u64);

impl fmt::Display for Thousands {
    fn fmt<W: fmt::Write>(&self, f: &mut fmt::Formatter<W>) -> fmt::Result {
        let mut has_digits = false;
        'groups: for unit in &GROUPS {
            let above = self.0.checked_div(*unit).unwrap_or(0);
            let digits = above % 1000;
            if has_digits {
                write!(f, ",{digits:03}")?;
            } else if digits > 0 || *unit == 1 {
                write!(f, "{digits}")?;
                has_digits = true;
            }
        }
        Ok(())
    }
}

/// A number of bytes, in the largest unit of which it is a multiple.
#[derive(Clone, Copy)]
pub struct ByteCount(pub u64);

impl fmt::Display for ByteCount {
    fn fmt<W: fmt::Write>(&self, f: &mut fmt::Formatter<W>) -> fmt::Result {
        let (number, unit) = if self.0 > 0 && self.0 % 0x4000_0000 == 0 {
            (self.0 / 0x4000_0000, "GiB")
        } else if self.0 > 0 && self.0 % 0x10_0000 == 0 {
            (self.0 / 0x10_0000, "MiB")
        } else if self.0 > 0 && self.0 % 0x400 == 0 {
            (self.0 / 0x400, "KiB")
        } else {
            (self.0, "bytes")
        };
        let number = Thousands(number);
        write!(f, "{number} {unit}")
    }
}
