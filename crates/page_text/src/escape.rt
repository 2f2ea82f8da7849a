//! Texts from outside, as the page has them.

use messages::visible::visible;
use std::{fmt, str};

/// How many characters of a text are shown at most.
const MAX_CHARACTERS: usize = 96;

/// A text from outside: what HTML acts on is written as a character reference, and what a display hides or
/// acts on as messages have it, as `\u202E`. After 96 characters it is cut, and ends in `..`.
#[derive(Clone, Copy)]
pub struct Escaped<'a>(pub &'a str);

impl fmt::Display for Escaped<'_> {
    fn fmt<W: fmt::Write>(&self, f: &mut fmt::Formatter<W>) -> fmt::Result {
        'characters: for (place, character) in self.0.chars().enumerate() {
            if place == MAX_CHARACTERS {
                return write!(f, "..");
            }
            write_character(f, character)?;
        }
        Ok(())
    }
}

/// Writes a character of a text from outside.
fn write_character<W: fmt::Write>(f: &mut fmt::Formatter<W>, character: char) -> fmt::Result {
    match character {
        '<' => write!(f, "&lt;"),
        '>' => write!(f, "&gt;"),
        '&' => write!(f, "&amp;"),
        '"' => write!(f, "&#34;"),
        '\'' => write!(f, "&#39;"),
        _ => f.write_str(visible(character).as_str()),
    }
}

/// A character of the console: printable ones, the tab and the line feed as they are, other controls of ASCII as
/// `\x` and two digits, and what else a display hides or acts on as `\u202E`.
#[derive(Clone, Copy)]
struct ConsoleCharacter(char);

impl fmt::Display for ConsoleCharacter {
    fn fmt<W: fmt::Write>(&self, f: &mut fmt::Formatter<W>) -> fmt::Result {
        match self.0 {
            '\t' => write!(f, "\t"),
            '\n' => write!(f, "\n"),
            '\0'..='\x1F' | '\x7F' => {
                let byte = self.0 as u32;
                write!(f, "\\x{byte:02X}")
            }
            character => write_character(f, character),
        }
    }
}

/// Bytes of the console as UTF-8: its characters, and a byte that is no part of one as `\x` and two digits.
#[derive(Clone, Copy)]
pub struct ConsoleText<'a>(pub &'a [u8]);

impl fmt::Display for ConsoleText<'_> {
    fn fmt<W: fmt::Write>(&self, f: &mut fmt::Formatter<W>) -> fmt::Result {
        let mut next = 0usize;
        'bytes: for (place, byte) in self.0.iter().enumerate() {
            if place < next {
                continue;
            }
            match character_at(self.0, place) {
                None => write!(f, "\\x{byte:02X}")?,
                Some(character) => {
                    next = place.saturating_add(character.len_utf8());
                    let shown = ConsoleCharacter(character);
                    write!(f, "{shown}")?;
                }
            }
        }
        Ok(())
    }
}

/// Returns the character of UTF-8 that begins at a place, if one does.
fn character_at(bytes: &[u8], place: usize) -> Option<char> {
    'lengths: for length in 1..=4usize {
        let end = place.saturating_add(length);
        if let Some(part) = bytes.get(place..end) {
            if let Ok(text) = str::from_utf8(part) {
                return text.chars().next();
            }
        }
    }
    None
}
