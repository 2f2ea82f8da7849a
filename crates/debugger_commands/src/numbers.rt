//! The numbers of a line: decimal, or hexadecimal after `0x`, at most 2^32 - 1.

ghost use Rattle.std.specs.Prelude.{◌≡◌, ◌^◌, ◌<◌, ◌≤◌, IfSome};
ghost use Rattle.debugger_commands.specs.Words.{digit, digits, if_word, in_range, number, number_within, shifted};
ghost use Rattle.debugger_commands.specs.Words.{with_digit};

/// Returns the value of a digit, hexadecimal or decimal.
fn digit(is_hex: bool, byte: u8) -> Option<u8>
    ensures value { result ≡ digit is_hex byte }
    ensures small { IfSome result (λ value. value < 16) }
{
    match byte {
        b'0'..=b'9' => Some(byte - b'0'),
        b'A'..=b'F' if is_hex => Some(byte - b'A' + 10),
        b'a'..=b'f' if is_hex => Some(byte - b'a' + 10),
        _ => None,
    }
}

/// Returns a number that fits a word.
fn if_word(number: u64) -> Option<u32>
    ensures { result ≡ if_word number }
{
    if number < 0x1_0000_0000 {
        Some(number as u32)
    } else {
        None
    }
}

/// Returns a number in front of a digit: ten or sixteen times as much.
fn shifted(is_hex: bool, number: u32) -> u64
    ensures value { result ≡ shifted is_hex number }
    ensures small { result < 2 ^ 36 }
{
    if is_hex {
        number as u64 * 16
    } else {
        number as u64 * 10
    }
}

/// Returns a number with one digit more.
fn with_digit(is_hex: bool, number: Option<u32>, byte: u8) -> Option<u32>
    ensures { result ≡ with_digit is_hex number byte }
{
    let number = number?;
    let value = digit(is_hex, byte)?;
    if_word(shifted(is_hex, number) + value as u64)
}

/// Returns the number of some digits, at least one.
fn digits(is_hex: bool, text: &[u8]) -> Option<u32>
    ensures { result ≡ digits is_hex text.now }
{
    if text.is_empty() {
        return None;
    }
    let mut number = Some(0);
    'bytes: for byte in text {
        number = with_digit(is_hex, number, *byte);
    }
    number
}

/// Returns the number of a word.
pub fn number(word: &[u8]) -> Option<u32>
    ensures { result ≡ number word.now }
{
    match word {
        [b'0', b'x', rest @ ..] => digits(true, rest),
        _ => digits(false, word),
    }
}

/// Returns the number of a word, from `low` to `high`.
pub fn number_within(low: u32, high: u32, word: &[u8]) -> Option<u32>
    ensures value { result ≡ number_within low high word.now }
    ensures within { IfSome result (λ n. low ≤ n × n ≤ high) }
{
    match number(word) {
        Some(number) if low <= number && number <= high => Some(number),
        _ => None,
    }
}
