//! The console: the bytes that went out.

use crate::page::{Part, Report, write_part};
use page_text::escape::ConsoleText;
use page_text::numbers::Thousands;
use std::io;
use std::io::Write;

const CAPTION: &str =
    "The bytes that the program stored to OUT, or to a device that is a console, as UTF-8. A byte that is no part of a \
character, and a control character other than tab and line feed, is shown as <code>\\x</code> and two hexadecimal \
digits.";

/// Writes the part.
pub fn write_console<W: Write>(out: &mut W, report: &Report<'_>) -> io::Result<()> {
    let bytes = report.survey.console.bytes();
    let number = report.survey.console.number();
    let all = Thousands(number);
    write_part(out, Part::Console, CAPTION)?;
    write!(
        out,
        "<p id='console-bytes' data-number='{number}'>Bytes in all: {all}"
    )?;
    if number > bytes.len() as u64 {
        let shown = Thousands(bytes.len() as u64);
        write!(out, ", of which the first {shown} are shown")?;
    }
    write!(out, ".</p>\n<pre id='console-text'>")?;
    let text = ConsoleText(bytes);
    write!(out, "{text}")?;
    writeln!(out, "</pre>\n</section>")
}
