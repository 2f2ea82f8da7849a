//! A character as a message has it.

ghost use Rattle.std.specs.Prelude.{◌≡◌, ◌+◌, ◌<◌, ◌≤◌, ◌++◌, length};
ghost use Rattle.std.specs.List.{list_any};
ghost use Rattle.messages.specs.Visible.{is_hidden, is_in, is_noncharacter, hex_digit, hex_byte, short_escape};
ghost use Rattle.messages.specs.Visible.{escape, long_escape, visible};

use arrayvec::ArrayString;

/// Characters from the first to the last, both in it.
#[derive(Clone, Copy)]
pub struct Range {
    pub first: char,
    pub last: char,
}

/// What a display hides or acts on.
const HIDDEN: [Range; 19] = [
    Range {
        first: '\u{0}',
        last: '\u{1F}',
    },
    Range {
        first: '\u{7F}',
        last: '\u{9F}',
    },
    Range {
        first: '\u{AD}',
        last: '\u{AD}',
    },
    Range {
        first: '\u{34F}',
        last: '\u{34F}',
    },
    Range {
        first: '\u{61C}',
        last: '\u{61C}',
    },
    Range {
        first: '\u{115F}',
        last: '\u{1160}',
    },
    Range {
        first: '\u{17B4}',
        last: '\u{17B5}',
    },
    Range {
        first: '\u{180B}',
        last: '\u{180F}',
    },
    Range {
        first: '\u{200B}',
        last: '\u{200F}',
    },
    Range {
        first: '\u{2028}',
        last: '\u{202E}',
    },
    Range {
        first: '\u{2060}',
        last: '\u{206F}',
    },
    Range {
        first: '\u{3164}',
        last: '\u{3164}',
    },
    Range {
        first: '\u{FE00}',
        last: '\u{FE0F}',
    },
    Range {
        first: '\u{FEFF}',
        last: '\u{FEFF}',
    },
    Range {
        first: '\u{FFA0}',
        last: '\u{FFA0}',
    },
    Range {
        first: '\u{FFF0}',
        last: '\u{FFFB}',
    },
    Range {
        first: '\u{1BCA0}',
        last: '\u{1BCA3}',
    },
    Range {
        first: '\u{1D173}',
        last: '\u{1D17A}',
    },
    Range {
        first: '\u{E0000}',
        last: '\u{E0FFF}',
    },
];

/// A character, or the escape that a message has in its place.
pub type Visible = ArrayString<10>;

/// Returns a character as a message has it: itself, or its escape where a display hides it or no text has it.
pub fn visible(character: char) -> Visible
    ensures { result.bytes ≡ visible character }
{
    if is_hidden(character) {
        return escape(u32::from(character));
    }
    let mut buffer = [0; 4];
    let mut text = Visible::new();
    text.push_str(character.encode_utf8(&mut buffer));
    text
}

/// The noncharacters that aren't at the end of a plane.
const NONCHARACTERS: Range = Range {
    first: '\u{FDD0}',
    last: '\u{FDEF}',
};

/// Returns whether a message escapes a character: a display hides it or acts on it, or it is a noncharacter.
#[tactic(auto, unfolding(crate::specs::Visible::is_hidden))]
pub fn is_hidden(character: char) -> bool
    ensures { result ≡ is_hidden character }
{
    is_in_one(character, &HIDDEN) || is_noncharacter(character)
}

/// Returns whether a character is a noncharacter of Unicode.
fn is_noncharacter(character: char) -> bool
    ensures { result ≡ is_noncharacter character }
{
    is_in(character, &NONCHARACTERS) || u32::from(character) % 0x1_0000 >= 0xFFFE
}

/// Returns whether a character is in one of these ranges.
fn is_in_one(character: char, ranges: &[Range]) -> bool
    ensures { result ≡ list_any (is_in character) ranges.now }
{
    'each: for range in ranges {
        if is_in(character, range) {
            return true;
        }
    }
    false
}

/// Returns whether a character is in a range.
fn is_in(character: char, range: &Range) -> bool
    ensures { result ≡ is_in character range.now }
{
    range.first <= character && character <= range.last
}

/// Returns the escape of a code as a basic string of TOML has it: `\u` and four hexadecimal digits, or
/// `\U` and eight.
pub fn escape(code: u32) -> Visible
    ensures { result.bytes ≡ escape code }
{
    if code < 0x1_0000 {
        escape_short(code)
    } else {
        escape_long(code)
    }
}

/// Returns the escape of a code with four digits.
fn escape_short(code: u32) -> Visible
    ensures { result.bytes ≡ short_escape code }
{
    let mut text = Visible::new();
    text.push_str("\\u");
    put_byte(&mut text, (code / 0x100 % 0x100) as u8);
    put_byte(&mut text, (code % 0x100) as u8);
    text
}

/// Returns the escape of a code with eight digits.
fn escape_long(code: u32) -> Visible
    ensures { result.bytes ≡ long_escape code }
{
    let mut text = Visible::new();
    text.push_str("\\U");
    put_byte(&mut text, (code / 0x100_0000) as u8);
    put_byte(&mut text, (code / 0x1_0000 % 0x100) as u8);
    put_byte(&mut text, (code / 0x100 % 0x100) as u8);
    put_byte(&mut text, (code % 0x100) as u8);
    text
}

/// Appends the two hexadecimal digits of a byte.
fn put_byte(text: &mut Visible, byte: u8)
    requires { length text.old.bytes + 2 ≤ 10 }
    ensures digits { text.new.bytes ≡ text.old.bytes ++ hex_byte byte }
    ensures len { length text.new.bytes ≡ length text.old.bytes + 2 }
{
    text.push(hex_digit(byte / 16));
    text.push(hex_digit(byte % 16));
}

/// Returns a hexadecimal digit.
fn hex_digit(value: u8) -> char
    requires { value < 16 }
    ensures digit { result ≡ hex_digit value }
    ensures ascii { result < 128 }
{
    if value < 10 {
        (b'0' + value) as char
    } else {
        (b'A' + (value - 10)) as char
    }
}
