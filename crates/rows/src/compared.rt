//! What a text that a command wrote is compared with: all of it, or what the lines of a row say of it.

use super::words::{lines_of, push_line, split_line};
use std::alloc::Global;
use std::str;
use test_tables::{Outcome, first_difference_of_bytes, number};

/// Compares standard output with the lines of a row.
pub fn compare_out(alloc: Global, row: &str, out: &[u8]) -> Option<Outcome> {
    let from = lines_of(alloc, row, "from")?;
    if from.is_empty() {
        return compare(alloc, row, "out", out);
    }
    let later = from_tick(alloc, from.as_str().trim_end(), str::from_utf8(out).ok()?)?;
    compare(alloc, row, "out", later.as_bytes())
}

/// Compares standard error with the lines of a row.
pub fn compare_err(alloc: Global, row: &str, err: &[u8]) -> Option<Outcome> {
    if has_line(row, "any err") {
        return Some(Outcome::Holds);
    }
    let wanted = lines_of(alloc, row, "err")?;
    first_difference_of_bytes(alloc, wanted.as_bytes(), err).ok()
}

/// Compares the bytes of a file with the lines of a row that have its path: all lines, parts of them, or its bytes.
pub fn compare_file(alloc: Global, row: &str, path: &str, held: &[u8]) -> Option<Outcome> {
    let mut lines = String::new(alloc);
    push_line(&mut lines, path)?;
    'lines: for line in row.lines() {
        if let Some(rest) = line_of_file(line, path) {
            push_line(&mut lines, rest)?;
        }
    }
    let wanted = lines_of(alloc, lines.as_str(), "bytes")?;
    if wanted.is_empty() {
        return compare(alloc, lines.as_str(), "line", held);
    }
    compare_bytes(alloc, wanted.as_str().trim_end(), held)
}

/// Returns what a line `file` says of the file at a path.
fn line_of_file<'a>(line: &'a str, path: &str) -> Option<&'a str> {
    line.strip_prefix("file ")?
        .strip_prefix(path)?
        .strip_prefix(" ")
}

/// Compares a text with the lines of a row: those of a word are the whole text, and `has`, `not`, `first` and `last` say
/// what is in it.
fn compare(alloc: Global, row: &str, word: &str, text: &[u8]) -> Option<Outcome> {
    if has_line(row, "any out") {
        return Some(Outcome::Holds);
    }
    if has_parts(row) {
        return compare_parts(alloc, row, str::from_utf8(text).ok()?);
    }
    let mut wanted = lines_of(alloc, row, word)?;
    let tail = lines_of(alloc, row, "out-tail")?;
    wanted.push_str(tail.as_str().trim_end_matches('\n')).ok()?;
    first_difference_of_bytes(alloc, wanted.as_bytes(), text).ok()
}

/// Returns whether a row has a line.
fn has_line(row: &str, wanted: &str) -> bool {
    row.lines().any(|line| line == wanted)
}

/// Returns whether a row says what is in a text.
fn has_parts(row: &str) -> bool {
    row.lines().skip(1).any(|line| matches!(split_line(line).0, "has" | "not" | "first" | "last"))
}

/// Compares what is in a text with what a row says of it.
fn compare_parts(alloc: Global, row: &str, text: &str) -> Option<Outcome> {
    'lines: for line in row.lines().skip(1) {
        let (word, part) = split_line(line);
        let holds = match word {
            "has" => text.contains(part),
            "not" => !text.contains(part),
            "first" => text.lines().next() == Some(part),
            _ => true,
        };
        if !holds {
            let came = nearest(alloc, word, part, text)?;
            return Outcome::differs(alloc, line, came.as_str()).ok();
        }
    }
    let mut last = String::new(alloc);
    last.push('\n').ok()?;
    last.push_str(lines_of(alloc, row, "last")?.as_str()).ok()?;
    if last.len() == 1 || text.ends_with(last.as_str()) {
        return Some(Outcome::Holds);
    }
    let came = nearest(alloc, "last", "", text)?;
    Outcome::differs(alloc, last.as_str().trim(), came.as_str()).ok()
}

/// Returns what is shown of a text in which a part isn't as it is wanted.
fn nearest(alloc: Global, word: &str, part: &str, text: &str) -> Option<String> {
    let shown = match word {
        "first" => text.lines().next().unwrap_or("(no line)"),
        "last" => text.lines().last().unwrap_or("(no line)"),
        "not" => "(the text has it)",
        _ => return nearest_part(alloc, part, text),
    };
    shown.to_string(alloc).ok()
}

/// Returns the place of a text that has the longest beginning of a part: that, and as many bytes of its line after it
/// as the part has, or all of them.
fn nearest_part(alloc: Global, part: &str, text: &str) -> Option<String> {
    'lengths: for less in 1..part.len() {
        let Some(beginning) = part.get(..part.len() - less) else {
            continue;
        };
        if let Some((_, after)) = text.split_once(beginning) {
            let line = after.lines().next().unwrap_or("");
            let rest = line.get(..part.len()).unwrap_or(line);
            return format!(in alloc; "{beginning}{rest}").ok();
        }
    }
    "(the text has nothing like it)".to_string(alloc).ok()
}

/// Compares bytes with those of a line.
fn compare_bytes(alloc: Global, wanted: &str, held: &[u8]) -> Option<Outcome> {
    let mut came = String::new(alloc);
    let mut count = 0_usize;
    let mut holds = true;
    'words: for word in wanted.split_whitespace() {
        let byte = held.get(count).copied().map(u32::from);
        holds &= byte == Some(number(word)?);
        count = count.saturating_add(1);
    }
    if holds && count == held.len() {
        return Some(Outcome::Holds);
    }
    'bytes: for byte in held {
        let byte = *byte;
        came.push_str(format!(in alloc; "{byte:02X} ").ok()?.as_str())
            .ok()?;
    }
    Outcome::differs(alloc, wanted, came.as_str().trim_end()).ok()
}

/// Returns the lines of a trace from the first line of a tick on.
fn from_tick(alloc: Global, tick: &str, trace: &str) -> Option<String> {
    let mut later = String::new(alloc);
    let mut is_later = false;
    'lines: for line in trace.lines() {
        is_later |= split_line(line).0 == tick;
        if is_later {
            push_line(&mut later, line)?;
        }
    }
    Some(later)
}
