//! Bytes as hexadecimal digits, two for each.

ghost use Rattle.std.specs.Prelude.{◌≡◌, ◌+◌, ◌*◌, ◌<◌, ◌≤◌, ◌++◌, length, slice_index};
ghost use Rattle.arrayvec.specs.ArrayVec.{array_vec_len};
ghost use Rattle.gdb_packets.specs.Digits.{two_digits};
ghost use Rattle.gdb_texts.specs.Bytes.{byte_at, bytes_text, digit_value, first_bytes};

use arrayvec::ArrayVec;
use gdb_packets::{digit_of, put_digits};

/// Appends a text.
pub fn put_text<const ROOM: usize>(page: &mut ArrayVec<u8, ROOM>, text: &[u8])
    requires { array_vec_len page.old + length text.now ≤ ROOM }
    ensures text { page.new.items ≡ page.old.items ++ text.now }
    ensures len { array_vec_len page.new ≡ array_vec_len page.old + length text.now }
{
    let _ = page.try_extend_from_slice(text);
}

/// Appends the two lower-case digits of a byte.
pub fn put_byte<const ROOM: usize>(page: &mut ArrayVec<u8, ROOM>, byte: u8)
    requires { array_vec_len page.old + 2 ≤ ROOM }
    ensures text { page.new.items ≡ page.old.items ++ two_digits byte }
    ensures len { array_vec_len page.new ≡ array_vec_len page.old + 2 }
{
    put_digits(page, byte);
}

/// Appends the lower-case digits of bytes.
#[tactic(auto, unfolding(crate::specs::Bytes::bytes_text))]
pub fn put_bytes<const ROOM: usize>(page: &mut ArrayVec<u8, ROOM>, bytes: &[u8])
    requires { array_vec_len page.old + 2 * length bytes.now ≤ ROOM }
    ensures text { page.new.items ≡ page.old.items ++ bytes_text bytes.now }
    ensures len { array_vec_len page.new ≡ array_vec_len page.old + 2 * length bytes.now }
{
    'bytes: for byte in bytes {
        put_byte(page, *byte);
    }
}

/// Returns the value of a digit, and 0 of any other byte.
fn digit_value(byte: u8) -> u8
    ensures value { result ≡ digit_value byte }
    ensures small { result < 16 }
{
    match digit_of(byte) {
        Some(value) => value,
        None => 0,
    }
}

/// Returns the byte at an index, or 0 beyond the end.
fn text_at(text: &[u8], index: usize) -> u8
    ensures { result ≡ slice_index text.now index }
{
    if index < text.len() { text[index] } else { 0 }
}

/// Returns byte `index` of some digits, two for each byte. What isn't a digit counts as 0, also beyond the end.
#[tactic(auto, unfolding(crate::specs::Bytes::byte_at))]
pub fn byte_at(digits: &[u8], index: u32) -> u8
    ensures { result ≡ byte_at digits.now index }
{
    let at = 2 * index as usize;
    digit_value(text_at(digits, at)) * 16 + digit_value(text_at(digits, at + 1))
}

/// Appends the first `count` bytes of some digits, two for each byte.
#[tactic(auto, using(crate::proofs::Appending::one_byte_more), unfolding(crate::specs::Bytes::first_bytes))]
pub fn put_first_bytes<const ROOM: usize>(page: &mut ArrayVec<u8, ROOM>, digits: &[u8], count: u32)
    requires { array_vec_len page.old + count ≤ ROOM }
    ensures { page.new.items ≡ page.old.items ++ first_bytes digits.now count }
{
    'indexes: for index in 0..count {
        page.push(byte_at(digits, index));
    }
}
