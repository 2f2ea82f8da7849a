//! The number in the texts of `--steps`, beside the constant that they repeat, and the words of `gdb`.

use command_line::{LIMIT_HELP, MAX_STEPS, STEPS_ADVICE, STEPS_HELP, Subcommand, subcommand_of};
use std::alloc::Global;
use std::test::*;

#[test]
fn the_texts_of_steps_have_the_most_steps(rt: HostRuntime) -> Result<(), Fail> {
    let range = format!(in rt.alloc(); "from 0 to {MAX_STEPS}")?;
    assert!(rt; STEPS_HELP.ends_with(range.as_str()));
    let advice = format!(in rt.alloc(); "--steps takes a decimal number {}.\n", range.as_str())?;
    assert!(rt; STEPS_ADVICE == advice.as_str());
    let default = format!(in rt.alloc(); "{} (the default)", range.as_str())?;
    assert!(rt; LIMIT_HELP.ends_with(default.as_str()));
    Ok(())
}

/// The board, the image and the limit of the session that a command line asks for, as a text; none where it is refused,
/// or out of memory.
fn session_of(alloc: Global, line: &str) -> Option<String> {
    let mut words = Vec::new(alloc);
    'words: for word in line.split_whitespace() {
        words.push(word.to_string(alloc).ok()?).ok()?;
    }
    match subcommand_of(alloc, words.as_slice()).ok()? {
        Subcommand::Gdb(gdb) => format!(in alloc; "{} {} {}", gdb.board, gdb.image, gdb.steps).ok(),
        Subcommand::Run(_) | Subcommand::Report(_) | Subcommand::Tasks(_) | Subcommand::Debug(_) =>
            None,
    }
}

/// Command lines, and the board, the image and the limit of the session that they ask for; none where they are refused.
const SESSIONS: [(&str, &str); 9] = [
    ("marm gdb --board b.toml a.elf", "b.toml a.elf 4294967296"),
    ("marm gdb --steps 0 --board b.toml a.elf", "b.toml a.elf 0"),
    (
        "marm gdb a.elf --steps=4294967296 --board=b.toml",
        "b.toml a.elf 4294967296",
    ),
    (
        "marm gdb a.elf --board b.toml --steps 4294967295",
        "b.toml a.elf 4294967295",
    ),
    ("marm gdb --board b.toml --steps 4294967297 a.elf", ""),
    ("marm gdb --board b.toml --steps=+5 a.elf", ""),
    ("marm gdb a.elf", ""),
    ("marm gdb --board b.toml", ""),
    ("marm gdb --board b.toml --slots 1 a.elf", ""),
];

#[test]
fn the_words_of_gdb_are_taken_or_refused(rt: HostRuntime) -> Result<(), Fail> {
    'rows: for (line, wanted) in SESSIONS.iter() {
        let session = session_of(rt.alloc(), line);
        assert!(rt; session.as_ref().map_or("", |s| s.as_str()) == *wanted);
    }
    Ok(())
}
