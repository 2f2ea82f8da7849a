//! What messages have of strings, and what goes out.

use messages::visible::is_hidden;
use messages::{Escaped, Messages, Quoted};
use std::io;
use std::io::Write;
use std::test::*;

/// A name, a string, and what `Escaped` and `Quoted` have of it. Escapes are those of TOML 1.1.
const STRINGS: [(&str, &str, &str, &str); 18] = [
    ("nothing", "", "", "\"\""),
    ("a path", "a/b c.elf", "a/b c.elf", "\"a/b c.elf\""),
    ("letters of two to four bytes", "é€😀", "é€😀", "\"é€😀\""),
    ("a quote", "a\"b", "a\"b", "\"a\\\"b\""),
    ("a backslash", "a\\b", "a\\b", "\"a\\\\b\""),
    ("a line feed", "a\nb", "a\\u000Ab", "\"a\\u000Ab\""),
    ("a carriage return", "a\rb", "a\\u000Db", "\"a\\u000Db\""),
    (
        "an escape character",
        "\u{1B}[31m",
        "\\u001B[31m",
        "\"\\u001B[31m\"",
    ),
    ("delete", "\u{7F}", "\\u007F", "\"\\u007F\""),
    (
        "a control of eight bits",
        "\u{9B}",
        "\\u009B",
        "\"\\u009B\"",
    ),
    ("a soft hyphen", "\u{AD}", "\\u00AD", "\"\\u00AD\""),
    (
        "an override of direction",
        "\u{202E}",
        "\\u202E",
        "\"\\u202E\"",
    ),
    (
        "separators",
        "\u{2028}\u{2029}",
        "\\u2028\\u2029",
        "\"\\u2028\\u2029\"",
    ),
    ("a byte order mark", "\u{FEFF}", "\\uFEFF", "\"\\uFEFF\""),
    (
        "a space of no width",
        "a\u{200B}b",
        "a\\u200Bb",
        "\"a\\u200Bb\"",
    ),
    ("a tag", "\u{E0041}", "\\U000E0041", "\"\\U000E0041\""),
    ("a noncharacter", "\u{FDD0}", "\\uFDD0", "\"\\uFDD0\""),
    (
        "a noncharacter at the end of a plane",
        "\u{1FFFF}",
        "\\U0001FFFF",
        "\"\\U0001FFFF\"",
    ),
];

#[test]
fn strings_are_escaped(rt: HostRuntime) -> Result<(), Fail> {
    'strings: for (name, text, escaped, quoted) in &STRINGS {
        let shown = Escaped(text).to_string(rt.alloc())?;
        assert_eq!(rt; shown.as_str(), *escaped, "{name}");
        let shown = Quoted(text).to_string(rt.alloc())?;
        assert_eq!(rt; shown.as_str(), *quoted, "{name}");
    }
    Ok(())
}

/// A name, a piece, how often it is there, and how many bytes the string has where it is shown.
const LENGTHS: [(&str, &str, usize, usize); 8] = [
    ("the longest string", "a", 198, 198),
    ("one byte too many", "a", 199, 200),
    ("a long one", "a", 100_000, 200),
    ("letters of two bytes", "é", 99, 198),
    ("one letter of two bytes too many", "é", 100, 200),
    ("letters of three bytes", "€", 100, 200),
    ("letters of four bytes", "😀", 50, 198),
    ("escapes", "\n", 34, 200),
];

#[test]
fn long_strings_are_cut_at_a_character(rt: HostRuntime) -> Result<(), Fail> {
    'strings: for (name, piece, count, length) in &LENGTHS {
        let text = piece.repeat(rt.alloc(), *count)?;
        let shown = Escaped(text.as_str()).to_string(rt.alloc())?;
        assert_eq!(rt; shown.len(), *length, "{name}");
        let is_cut = shown.as_str().ends_with("..");
        assert_eq!(rt;
            is_cut,
            *name != "the longest string" && *name != "letters of two bytes",
            "{name}"
        );
    }
    Ok(())
}

#[test]
fn what_unicode_hides_or_keeps_out_is_escaped(rt: HostRuntime) -> Result<(), Fail> {
    'codes: for code in 0..0x11_0000u32 {
        if let Some(character) = char::from_u32(code) {
            let is_mark =
                matches!(code, 0..=0x1F | 0x7F..=0x9F | 0x2028 | 0x2029 | 0xFFF9..=0xFFFB);
            let is_ignorable = ucd_derived::is_default_ignorable_code_point(character);
            let is_nonchar = ucd_props::is_noncharacter_code_point(character);
            let expected = is_mark || is_ignorable || is_nonchar;
            assert_eq!(rt; is_hidden(character), expected, "U+{code:04X}");
        }
    }
    Ok(())
}

/// Keeps what it takes, and counts the calls.
#[derive(Drop)]
struct Calls {
    bytes: Vec<u8>,
    count: usize,
}

impl Write for Calls {
    fn write(&mut self, buf: &[u8]) -> io::Result<usize> {
        self.count = self.count.saturating_add(1);
        self.bytes.write(buf)
    }

    fn flush(&mut self) -> io::Result<()> {
        Ok(())
    }
}

/// Returns a writer that has taken nothing.
fn counted(rt: &HostRuntime) -> Calls {
    Calls {
        bytes: Vec::new(rt.alloc()),
        count: 0,
    }
}

/// A name, what is written, how often, and how many bytes and calls go out.
const LINES: [(&str, &str, usize, usize, usize); 9] = [
    ("a line", "marm: io\n", 1, 9, 1),
    ("two lines in one piece", "marm: io\n  x\n", 1, 13, 2),
    ("a line without its end", "marm: io", 1, 9, 1),
    ("an empty line", "\n", 1, 1, 1),
    ("nothing", "", 1, 0, 0),
    ("the longest line", "a", 510, 511, 1),
    ("a line that is cut", "a", 511, 513, 1),
    ("a very long line", "a", 100_000, 513, 1),
    ("more than 16 lines", "a\n", 40, 32, 16),
];

#[test]
fn lines_go_out_whole(rt: HostRuntime) -> Result<(), Fail> {
    'lines: for (name, piece, times, length, count) in &LINES {
        let mut messages = Messages::new(counted(&rt));
        'pieces: for _ in 0..*times {
            messages.write_all(piece.as_bytes())?;
        }
        messages.flush()?;
        let out = messages.into_inner();
        assert_eq!(rt; out.bytes.len(), *length, "{name}");
        assert_eq!(rt; out.count, *count, "{name}");
    }
    Ok(())
}

#[test]
fn formats_are_gathered(rt: HostRuntime) -> Result<(), Fail> {
    let mut messages = Messages::new(counted(&rt));
    let path = "a\u{202E}b";
    writeln!(messages, "  {path}: it has {} bytes", 7)?;
    let out = messages.into_inner();
    assert_eq!(rt; out.count, 1);
    assert_eq!(rt;
        out.bytes.as_slice(),
        b"  a\\u202Eb: it has 7 bytes\n".as_slice()
    );
    Ok(())
}

#[test]
fn bytes_that_are_no_text_are_escaped(rt: HostRuntime) -> Result<(), Fail> {
    let mut messages = Messages::new(counted(&rt));
    messages.write_all(b"a\xFF\xC3b\n")?;
    let out = messages.into_inner();
    assert_eq!(rt; out.bytes.as_slice(), b"a\\u00FF\\u00C3b\n".as_slice());
    Ok(())
}

/// Fails at each call.
#[derive(Clone, Copy)]
struct Closed;

impl Write for Closed {
    fn write(&mut self, _buf: &[u8]) -> io::Result<usize> {
        Err(io::Error::from(io::ErrorKind::BrokenPipe))
    }

    fn flush(&mut self) -> io::Result<()> {
        Err(io::Error::from(io::ErrorKind::BrokenPipe))
    }
}

#[test]
fn a_closed_writer_is_no_error(rt: HostRuntime) -> Result<(), Fail> {
    let mut messages = Messages::new(Closed);
    assert!(rt; writeln!(messages, "marm: io").is_ok());
    assert!(rt; messages.write_all(b"more").is_ok());
    assert!(rt; messages.flush().is_ok());
    Ok(())
}
