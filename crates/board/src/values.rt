//! The values of a document, each with the kind that its key takes.

ghost use Rattle.std.specs.Prelude.{◌≡◌, ◌<◌, ◌^◌, option_map, IfOk};
ghost use Rattle.toml.specs.Data.{get_member};
ghost use Rattle.toml.specs.View.{table_view, view};
ghost use Rattle.board.specs.Reading.{Gives};
ghost use Rattle.board.specs.Values.{number, number_or, whole, word};

use platform::error::BoardError;
use toml::{Table, Value};

/// Returns the value at a key, if the table has the key.
pub fn find<'a>(table: &'a Table, key: &str) -> Option<&'a Value>
    ensures { option_map (λ v. view v.now) result ≡ get_member key.now (table_view table.now) }
{
    table.get(key)
}

/// Returns the whole number that a key has to have, or why its value isn't one: MissingKey, WrongKind where it is no
/// integer, and OutOfRange where it is below 0.
pub fn number(value: Option<&Value>) -> Result<u64, BoardError>
    ensures number { result ≡ number (option_map (λ v. view v.now) value.entry) }
    ensures small { IfOk result (λ n. n < 2 ^ 63) }
{
    match value {
        None => Err(BoardError::MissingKey),
        Some(value) => whole(value.as_integer()),
    }
}

// The whole number of a key that may be missing, which then is the default.
pub fn number_or(value: Option<&Value>, default: u64) -> Result<u64, BoardError>
    requires { default < 2 ^ 63 }
    ensures number { result ≡ number_or default (option_map (λ v. view v.now) value.entry) }
    ensures small { IfOk result (λ n. n < 2 ^ 63) }
{
    match value {
        None => Ok(default),
        Some(value) => whole(value.as_integer()),
    }
}

// An integer that isn't negative.
fn whole(integer: Option<i64>) -> Result<u64, BoardError>
    ensures number { result ≡ whole integer }
    ensures small { IfOk result (λ n. n < 2 ^ 63) }
{
    match integer {
        None => Err(BoardError::WrongKind),
        Some(integer) if integer < 0 => Err(BoardError::OutOfRange),
        Some(integer) => Ok(integer as u64),
    }
}

/// Returns the word that a key has to have, or why its value isn't one: MissingKey or WrongKind.
pub fn word(value: Option<&Value>) -> Result<&str, BoardError>
    ensures { Gives (λ name. name.now) result (word (option_map (λ v. view v.now) value.entry)) }
{
    match value {
        None => Err(BoardError::MissingKey),
        Some(value) => match value.as_str() {
            None => Err(BoardError::WrongKind),
            Some(name) => Ok(name),
        },
    }
}
