//! Keys of a file, as a message has them.

use messages::{Escaped, Quoted};
use std::io;
use std::io::Write;

/// Writes a key as TOML has it: in quotes where it isn't a bare key. A long one is cut.
pub fn write_key<W: Write>(out: &mut W, key: &str) -> io::Result<()> {
    if is_bare(key) {
        write!(out, "{}", Escaped(key))
    } else {
        write!(out, "{}", Quoted(key))
    }
}

/// Returns whether a key needs no quotes.
fn is_bare(key: &str) -> bool {
    !key.is_empty() && key.bytes().all(is_bare_byte)
}

/// Returns whether a bare key can have a byte.
fn is_bare_byte(byte: u8) -> bool {
    byte.is_ascii_alphanumeric() || byte == b'-' || byte == b'_'
}
