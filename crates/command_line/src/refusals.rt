//! What the program says of arguments that `clap` doesn't take.

ghost use Rattle.std.specs.Prelude.{◌≡◌, ◌⊎◌};
ghost use Rattle.clap.specs.Values.{kind_of};
ghost use Rattle.command_line.specs.Notices.{Refuses, memory, notice_of, usage};

use crate::commands::marm;
use crate::subcommands::STEPS_ADVICE;
use crate::texts::{COMMANDS_ADVICE, DASH_ADVICE, DASH_TIP};
use crate::words::ArgsError;
use clap::Error;
use clap::error::ErrorKind;
use messages::Escaped;
use std::alloc::{AllocError, Global};

/// Returns the notice for an error that `clap` finds in arguments, with its text.
pub fn error_of(alloc: Global, error: &Error, words: &[String]) -> ArgsError
    ensures { Refuses (kind_of error.now) result }
{
    let Ok(text) = text_of(alloc, error, words) else {
        return ArgsError::OutOfMemory;
    };
    match error.kind() {
        ErrorKind::OutOfMemory => ArgsError::OutOfMemory,
        ErrorKind::DisplayHelp | ErrorKind::DisplayHelpOnMissingArgumentOrSubcommand => {
            ArgsError::Help(text)
        }
        ErrorKind::DisplayVersion => ArgsError::Version(text),
        ErrorKind::ValueValidation => advised(text, STEPS_ADVICE),
        ErrorKind::InvalidSubcommand => advised(text, COMMANDS_ADVICE),
        ErrorKind::UnknownArgument => advised_of_dash(text),
        ErrorKind::InvalidValue
        | ErrorKind::NoEquals
        | ErrorKind::TooManyValues
        | ErrorKind::TooFewValues
        | ErrorKind::WrongNumberOfValues
        | ErrorKind::ArgumentConflict
        | ErrorKind::MissingRequiredArgument
        | ErrorKind::MissingSubcommand
        | ErrorKind::Io
        | ErrorKind::Format => ArgsError::Wrong(text),
    }
}

/// Returns the text of an error that `clap` finds in arguments. It has the arguments as a message has them:
/// it is the text of the same error in these.
fn text_of(alloc: Global, error: &Error, words: &[String]) -> Result<String, AllocError> {
    let shown = shown(alloc, words)?;
    match error_in(alloc, shown.as_slice()) {
        Some(other) if other.kind() == error.kind() => other.to_string(alloc),
        Some(_) | None => error.to_string(alloc),
    }
}

/// Returns the error that `clap` finds in arguments, or None where it finds none.
fn error_in(alloc: Global, words: &[String]) -> Option<Error> {
    let Ok(command) = marm(alloc) else {
        return None;
    };
    match command.try_get_matches_from(words) {
        Ok(_) => None,
        Err(error) => Some(error),
    }
}

/// Returns arguments as a message has them: escaped, and cut where they are long.
fn shown(alloc: Global, words: &[String]) -> Result<Vec<String>, AllocError> {
    let mut shown = Vec::new(alloc);
    'words: for word in words {
        shown.push(Escaped(word.as_str()).to_string(alloc)?)?;
    }
    Ok(shown)
}

/// Returns the notice for an error whose text doesn't say what to write instead.
fn advised(text: String, advice: &str) -> ArgsError
    ensures { (notice_of result ≡ usage) ⊎ (notice_of result ≡ memory) }
{
    let mut text = text;
    match text.push_str(advice) {
        Ok(()) => ArgsError::Wrong(text),
        Err(_) => ArgsError::OutOfMemory,
    }
}

/// Returns the notice for a word that isn't taken. `clap` says of one that begins with `-` that it can be
/// a value, which is so for an image alone.
fn advised_of_dash(text: String) -> ArgsError
    ensures { (notice_of result ≡ usage) ⊎ (notice_of result ≡ memory) }
{
    if text.as_str().contains(DASH_TIP) {
        advised(text, DASH_ADVICE)
    } else {
        ArgsError::Wrong(text)
    }
}
