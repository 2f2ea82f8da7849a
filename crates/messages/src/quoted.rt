//! Strings from outside, as a message has them.

ghost use Rattle.std.specs.Prelude.{◌≡◌, Some};
ghost use Rattle.std.specs.Fmt.{DisplaysOnOk};
ghost use Rattle.std.specs.Str.{chars};
ghost use Rattle.messages.specs.Clips.{clipped, empty, escaped, in_quotes, joined, quoted, shown};
ghost use Rattle.messages.specs.Visible.{visible};

use crate::clipped::Clipped;
use crate::visible::visible;
use std::fmt;

/// A string from outside, for a message: each character that a display hides is escaped, line feeds among
/// them. What would have more than 198 bytes is cut at a character, and ends in `..`.
#[derive(Clone, Copy)]
pub struct Escaped<'a>(pub &'a str);

impl fmt::Display for Escaped<'_> {
    ghost output = { λ e. Some (escaped e.0.now) };

    fn fmt<W: fmt::Write>(&self, f: &mut fmt::Formatter<W>) -> fmt::Result {
        write_clipped(&escape_all(self.0), f)
    }
}

/// The same as a basic string of TOML: in quotes, with quotes and backslashes escaped too.
#[derive(Clone, Copy)]
pub struct Quoted<'a>(pub &'a str);

impl fmt::Display for Quoted<'_> {
    ghost output = { λ q. Some (quoted q.0.now) };

    fn fmt<W: fmt::Write>(&self, f: &mut fmt::Formatter<W>) -> fmt::Result {
        f.write_str("\"")?;
        write_clipped(&quote_all(self.0), f)?;
        f.write_str("\"")
    }
}

/// Returns the characters of a string, each as a message has it.
fn escape_all(text: &str) -> Clipped<198>
    ensures { result ≡ joined 198 visible empty (chars text.now) }
{
    let mut shown = Clipped::new();
    'characters: for character in text.chars() {
        shown.push(visible(character).as_str());
        if shown.is_cut() {
            return shown;
        }
    }
    shown
}

/// Returns the characters of a string, each as it is in the quotes of a basic string.
fn quote_all(text: &str) -> Clipped<198>
    ensures { result ≡ joined 198 in_quotes empty (chars text.now) }
{
    let mut shown = Clipped::new();
    'characters: for character in text.chars() {
        push_quoted(&mut shown, character);
        if shown.is_cut() {
            return shown;
        }
    }
    shown
}

/// Appends a character as it is in the quotes of a basic string.
fn push_quoted(shown: &mut Clipped<198>, character: char)
    ensures { shown.new ≡ clipped 198 shown.old (in_quotes character) }
{
    match character {
        '"' => shown.push("\\\""),
        '\\' => shown.push("\\\\"),
        _ => shown.push(visible(character).as_str()),
    }
}

/// Writes a text, with `..` where it was cut.
fn write_clipped<W: fmt::Write>(text: &Clipped<198>, f: &mut fmt::Formatter<W>) -> fmt::Result
    ensures { DisplaysOnOk W.write_str_gives f.old result (Some (shown text.now)) f.new }
{
    f.write_str(text.text())?;
    if text.is_cut() {
        f.write_str("..")?;
    }
    Ok(())
}
