//! The arguments of the program, as `clap` reads them.

ghost use Rattle.std.specs.Prelude.{map, string_bytes};
ghost use Rattle.command_line.specs.Notices.{TakesArguments};

use crate::commands::marm;
use crate::refusals::error_of;
use crate::subcommands::{Subcommand, subcommand_in};
use std::alloc::Global;

/// Why the arguments ask for no subcommand.
#[derive(Drop)]
pub enum ArgsError {
    /// They are wrong: why, and the usage.
    Wrong(String),
    /// They ask for help: its text.
    Help(String),
    /// They ask for the version: its text.
    Version(String),
    /// Out of memory while they were read.
    OutOfMemory,
}

/// Returns the subcommand that the arguments ask for; the first one is the program's name.
pub fn subcommand_of<'a>(alloc: Global, words: &'a [String]) -> Result<Subcommand<'a>, ArgsError>
    ensures { TakesArguments (map string_bytes words.entry.now) result }
{
    let Ok(command) = marm(alloc) else {
        return Err(ArgsError::OutOfMemory);
    };
    match command.try_get_matches_from(words) {
        Ok(matches) => subcommand_in(alloc, &matches),
        Err(error) => Err(error_of(alloc, &error, words)),
    }
}
