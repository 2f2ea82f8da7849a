//! The numbers of a packet: 1 to 8 hexadecimal digits in either case.

ghost use Rattle.std.specs.Prelude.{◌≡◌};
ghost use Rattle.std.specs.List.{list_all};
ghost use Rattle.gdb_packets.specs.Numbers.{are_digits, digits, if_word, is_digit, number, two_numbers};
ghost use Rattle.gdb_packets.specs.Numbers.{with_digit};

use crate::digits::digit_of;
use crate::parts::parted;

/// Returns a number that fits a word.
fn if_word(number: u64) -> Option<u32>
    ensures { result ≡ if_word number }
{
    if number < 0x1_0000_0000 {
        Some(number as u32)
    } else {
        None
    }
}

/// Returns a number with one digit more.
fn with_digit(number: Option<u32>, byte: u8) -> Option<u32>
    ensures { result ≡ with_digit number byte }
{
    let number = number?;
    let value = digit_of(byte)?;
    if_word(number as u64 * 16 + value as u64)
}

/// Returns the number of some digits.
fn digits(text: &[u8]) -> Option<u32>
    ensures { result ≡ digits text.now }
{
    let mut number = Some(0);
    'bytes: for byte in text {
        number = with_digit(number, *byte);
    }
    number
}

/// Returns the number of 1 to 8 hexadecimal digits.
pub fn number(text: &[u8]) -> Option<u32>
    ensures { result ≡ number text.now }
{
    if text.is_empty() || text.len() > 8 {
        None
    } else {
        digits(text)
    }
}

/// Returns two numbers with a comma between.
pub fn two_numbers(text: &[u8]) -> Option<(u32, u32)>
    ensures { result ≡ two_numbers text.now }
{
    let parts = parted(b',', text)?;
    match (number(parts.front), number(parts.rest)) {
        (Some(first), Some(second)) => Some((first, second)),
        _ => None,
    }
}

/// Returns whether a text is this many hexadecimal digits.
pub fn are_digits(count: u64, text: &[u8]) -> bool
    ensures { result ≡ are_digits count text.now }
{
    text.len() as u64 == count && all_digits(text)
}

/// Returns whether each byte is a hexadecimal digit.
fn all_digits(text: &[u8]) -> bool
    ensures { result ≡ list_all is_digit text.now }
{
    text.iter().all(|byte| matches!(*byte, b'0'..=b'9' | b'A'..=b'F' | b'a'..=b'f'))
}
