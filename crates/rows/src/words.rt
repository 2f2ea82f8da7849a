//! The lines of a row, and the words of a command as it is typed.

use std::alloc::Global;

/// Splits a line after its first word.
pub fn split_line(line: &str) -> (&str, &str) {
    line.split_once(' ').unwrap_or((line, ""))
}

/// Appends a line to a text.
pub fn push_line(text: &mut String, line: &str) -> Option<()> {
    text.push_str(line).ok()?;
    text.push('\n').ok()
}

/// Returns the lines of a row that begin with a word, without it.
pub fn lines_of(alloc: Global, row: &str, first: &str) -> Option<String> {
    let mut lines = String::new(alloc);
    'lines: for line in row.lines().skip(1) {
        let (word, rest) = split_line(line);
        if word == first {
            push_line(&mut lines, rest)?;
        }
    }
    Some(lines)
}

/// Splits a command into words: blanks part two of them, but not between single quotes.
pub fn words_of(alloc: Global, command: &str) -> Option<Vec<String>> {
    let mut words = Vec::new(alloc);
    let mut word = String::new(alloc);
    let mut is_word = false;
    let mut is_quoted = false;
    'characters: for character in command.chars() {
        if character == '\'' {
            is_quoted = !is_quoted;
            is_word = true;
        } else if character != ' ' || is_quoted {
            word.push(character).ok()?;
            is_word = true;
        } else if is_word {
            words.push(word).ok()?;
            word = String::new(alloc);
            is_word = false;
        }
    }
    if is_word {
        words.push(word).ok()?;
    }
    Some(words)
}
