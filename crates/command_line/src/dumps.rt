//! The dumps of a run: ranges of memory, and the files for their bytes.

ghost use Rattle.std.specs.Prelude.{◌≡◌, ◌⊎◌, ◌<◌, map, option_map};
ghost use Rattle.command_line.specs.Dumps.{AreDumps, dump_named, parts_at, parts_of, value_of};
ghost use Rattle.command_line.specs.Notices.{ReadsValue, memory, notice_of, usage};
ghost use Rattle.command_line.specs.Subcommands.{texts_in};

use crate::subcommands::wrong_value;
use crate::words::ArgsError;
use debugger_commands::{number, number_within};
use std::alloc::Global;

/// The most dumps of a run.
const MAX_DUMPS: usize = 16;

/// What `--dump` takes.
const DUMP_ADVICE: &str = "\
--dump takes ADDR:LENGTH=FILE, at most 16 times: two numbers, decimal or hexadecimal after 0x, the length from 1,
and a path.
";

/// Bytes of memory after a run, and the file for them.
#[derive(Clone, Copy)]
pub struct Dump<'a> {
    /// The address of the first byte.
    pub address: u32,
    /// How many bytes there are, at least one.
    pub length: u32,
    /// The path of the file.
    pub path: &'a str,
}

/// Returns the dumps that texts ask for, in their order.
pub fn dumps_in<'a>(alloc: Global, texts: Option<&[&'a str]>) -> Result<Vec<Dump<'a>>, ArgsError>
    ensures { ReadsValue (λ dumps. AreDumps (texts_in texts.entry) dumps.items) result }
{
    match texts {
        Some(texts) => dumps_named(alloc, texts),
        None => Ok(Vec::new(alloc)),
    }
}

/// Returns the dumps that texts ask for, in their order.
#[tactic(auto, using(crate::proofs::Dumping::dumping))]
fn dumps_named<'a>(alloc: Global, texts: &[&'a str]) -> Result<Vec<Dump<'a>>, ArgsError>
    ensures { ReadsValue (λ dumps. AreDumps (map (λ t. t.now) texts.entry.now) dumps.items) result }
{
    if texts.len() > MAX_DUMPS {
        return Err(wrong_dump(alloc, texts[MAX_DUMPS]));
    }
    let mut dumps = Vec::new(alloc);
    'texts: for text in texts {
        match dump_named(text) {
            Some(dump) => {
                if dumps.push(dump).is_err() {
                    return Err(ArgsError::OutOfMemory);
                }
            }
            None => return Err(wrong_dump(alloc, text)),
        }
    }
    Ok(dumps)
}

/// Returns the error of a text that asks for no dump, or is one too many.
fn wrong_dump(alloc: Global, text: &str) -> ArgsError
    ensures { (notice_of result ≡ usage) ⊎ (notice_of result ≡ memory) }
{
    wrong_value(alloc, text, "--dump <ADDR:LENGTH=FILE>", DUMP_ADVICE)
}

/// Returns the dump that a text asks for.
fn dump_named<'a>(text: &'a str) -> Option<Dump<'a>>
    ensures { option_map value_of result ≡ dump_named text.entry.now }
{
    let (range, path) = parts_at(text, '=')?;
    let (address, length) = parts_at(range, ':')?;
    let address = number(address.as_bytes())?;
    let length = number_within(1, u32::MAX, length.as_bytes())?;
    Some(Dump {
        address,
        length,
        path,
    })
}

/// Returns the text around the first of these ASCII characters, if it has one.
pub fn parts_at<'a>(text: &'a str, character: char) -> Option<(&'a str, &'a str)>
    requires { character < 128 }
    ensures { option_map parts_of result ≡ parts_at character text.entry.now }
{
    text.split_once(character)
}
