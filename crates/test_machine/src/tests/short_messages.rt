//! Messages on arguments and paths that are long or that a display hides in part.

use super::cut::Cut;
use super::files::NO_INPUT;
use command::program;
use std::test::*;
use std::{io, str};

/// How the program ended: its status, and what it wrote to standard error.
#[derive(Drop)]
struct Ended {
    status: u8,
    err: Cut,
}

impl Ended {
    /// Runs the program with words after its name, and a last one, which name no files that are there.
    fn of(rt: &HostRuntime, given: &[&str], last: &str) -> io::Result<Self> {
        let mut words = Vec::new(rt.alloc());
        words.push("marm".to_string(rt.alloc())?)?;
        'words: for word in given {
            words.push(word.to_string(rt.alloc())?)?;
        }
        words.push(last.to_string(rt.alloc())?)?;
        let mut err = Cut::whole();
        let status = program(rt, words.as_slice(), NO_INPUT, Cut::whole(), &mut err);
        Ok(Ended { status, err })
    }

    /// Returns whether it ended with this status, and with this on standard error.
    fn is(&self, status: u8, err: &str) -> bool {
        self.status == status && self.err.text.as_slice() == err.as_bytes()
    }
}

/// A name, the status, what is on standard error, the words after the program's name, and the last one.
const HIDDEN: [(&str, u8, &str, &[&str], &str); 5] = [
    (
        "a path with an escape character and a line feed",
        5,
        "marm: io\n  a\\u001B[31m\\u000Ab: No such file or directory (os error 2)\n",
        &["debug", "--board", "board.toml"],
        "a\u{1B}[31m\nb",
    ),
    (
        "a command with a line feed and an override of direction",
        2,
        "marm: usage\nerror: unrecognized subcommand 'frob\\u000Amarm: size\\u202E'\n\nUsage: marm <COMMAND>\n\nFor \
more information, try '--help'.\nThe commands are run, report, tasks, debug, gdb and help.\n",
        &[],
        "frob\nmarm: size\u{202E}",
    ),
    (
        "a number with a line feed",
        2,
        "marm: usage\nerror: invalid value '1\\u000A' for '--steps <N>': invalid digit found in string\n\nFor more \
information, try '--help'.\n--steps takes a decimal number from 0 to 4294967296.\n",
        &["run", "--board=board.toml", "image.elf"],
        "--steps=1\n",
    ),
    (
        "a selection with a carriage return",
        2,
        "marm: usage\nerror: invalid value 'all\\u000D' for '--trace <WHICH>'\n--trace takes all, refused, faults, \
exceptions, console or none.\n",
        &["run", "--board=board.toml", "--steps=1", "image.elf"],
        "--trace=all\r",
    ),
    (
        "an expected stop with separators",
        2,
        "marm: usage\nerror: invalid value 'steps\\u2028\\u2029' for '--expect <STOP>'\n--expect takes the words of a \
stop line, with or without `stop`: steps, breakpoint N (N from 0 to 255), reset,\nlockup, or unpredictable or \
outofprofile and a name.\n",
        &["run", "--board=board.toml", "--steps=1", "image.elf"],
        "--expect=steps\u{2028}\u{2029}",
    ),
];

#[test]
fn what_a_display_hides_is_escaped(rt: HostRuntime) -> Result<(), Fail> {
    'rows: for (name, status, err, words, last) in HIDDEN.iter() {
        assert!(rt; Ended::of(&rt, words, last)?.is(*status, err), "{name}");
    }
    Ok(())
}

/// How many bytes the longest word has: 1 MiB.
const LONGEST: usize = 0x10_0000;

/// How many bytes of a word Linux passes at most: 128 KiB.
const LONG: usize = 0x2_0000;

/// How many bytes of a string from outside a message has at most, and what it has after them.
const SHOWN: usize = 198;

/// A name, how many bytes the long word has, the status, the words before it, and what standard error has before it and
/// after it.
const CUT: [(&str, usize, u8, &[&str], &str, &str); 3] = [
    (
        "a command",
        LONGEST,
        2,
        &[],
        "marm: usage\nerror: unrecognized subcommand '",
        "..'\n\nUsage: marm <COMMAND>\n\nFor more information, try '--help'.\nThe commands are run, report, tasks, \
debug, gdb and help.\n",
    ),
    (
        "a path",
        LONG,
        5,
        &["debug", "--board", "board.toml"],
        "marm: io\n  ",
        "..: File name too long (os error 36)\n",
    ),
    (
        "a second image",
        LONG,
        2,
        &["debug", "--board", "board.toml", "image.elf"],
        "marm: usage\nerror: unexpected argument '",
        "..' found\n\nUsage: marm debug [OPTIONS] --board <FILE> <IMAGE>\n\nFor more information, try '--help'.\n",
    ),
];

#[test]
fn a_long_word_is_cut(rt: HostRuntime) -> Result<(), Fail> {
    let shown = "a".repeat(rt.alloc(), SHOWN)?;
    'rows: for (name, length, status, before, front, end) in CUT.iter() {
        let word = "a".repeat(rt.alloc(), *length)?;
        let ended = Ended::of(&rt, before, word.as_str())?;
        let err = format!(in rt.alloc(); "{front}{}{end}", shown.as_str())?;
        assert!(rt; ended.is(*status, err.as_str()), "{name}");
    }
    Ok(())
}
