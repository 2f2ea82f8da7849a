//! What the words of a device read as.

ghost use Rattle.std.specs.Prelude.{◌≡◌, ◌<◌, ◌==◌, bit_and, codes, nat_lt, option_map, IfOk};
ghost use Rattle.toml.specs.Data.{get_member};
ghost use Rattle.toml.specs.View.{table_view, view};
ghost use Rattle.board.specs.Devices.{address_where, bits_at, flag, is_followed, stores_at, stores_named, values_in};
ghost use Rattle.board.specs.Reading.{Gives, span_read, values_read};
ghost use Rattle.board.specs.Values.{number_or, where_ok};

use crate::device_parts::{Span, Values};
use crate::device_ranges::{has_32_bits, share_no_bit};
use crate::device_span::is_followed;
use crate::values::{find, number, number_or};
use devices::{Device, Stores};
use platform::error::BoardError;
use toml::{Table, Value};

/// By how many places bits follow where the text doesn't say it.
pub const DEFAULT_PLACES: u64 = 1;

/// Bits can follow others that are fewer places lower.
pub const PLACES: u64 = 32;

/// Returns what the words of a table's device read as, after the devices before it, or the first refusal.
#[tactic(auto, unfolding(crate::specs::Devices::values_in))]
pub fn values_in(devices: &[Device], span: &Span, table: &Table) -> Result<Values, BoardError>
    ensures { Gives values_read result (values_in devices.now (span_read span.now) (table_view table.now)) }
{
    let start = bits_at("start", table)?;
    let ones = bits_at("ones", table)?;
    let zeros = zeros_at(ones, table)?;
    let stores = stores_at(find(table, "stores"))?;
    let follows = bits_at("follows", table)?;
    let by = places_at(table)?;
    let of = followed_at(devices, span, find(table, "of"))?;
    let counts = flag(find(table, "counts"))?;
    Ok(Values {
        start,
        ones,
        zeros,
        stores,
        follows,
        by,
        of,
        counts,
    })
}

// The 32 bits at a key that may be missing: then they are 0.
fn bits_at(key: &str, table: &Table) -> Result<u32, BoardError>
    ensures { result ≡ bits_at key.now (table_view table.now) }
{
    let bits = number_or(find(table, key), 0)?;
    if !has_32_bits(bits) {
        return Err(BoardError::OutOfRange);
    }
    Ok(bits as u32)
}

// The bits that read 0, none of which reads 1.
fn zeros_at(ones: u32, table: &Table) -> Result<u32, BoardError>
    ensures { result ≡ where_ok (λ n. bit_and n ones == 0) (bits_at (codes "zeros") (table_view table.now)) }
{
    let zeros = bits_at("zeros", table)?;
    if !share_no_bit(zeros, ones) {
        return Err(BoardError::OutOfRange);
    }
    Ok(zeros)
}

// By how many places bits follow.
fn places_at(table: &Table) -> Result<u8, BoardError>
    ensures read { result ≡ where_ok (λ n. nat_lt n 32) (number_or 1 (get_member (codes "by") (table_view table.now))) }
    ensures near { IfOk result (λ n. n < 32) }
{
    let places = number_or(find(table, "by"), DEFAULT_PLACES)?;
    if places >= PLACES {
        return Err(BoardError::OutOfRange);
    }
    Ok(places as u8)
}

// What a store does, at a key that may be missing.
fn stores_at(value: Option<&Value>) -> Result<Stores, BoardError>
    ensures { result ≡ stores_at (option_map (λ v. view v.now) value.entry) }
{
    let Some(value) = value else {
        return Ok(Stores::Kept);
    };
    match value.as_str() {
        None => Err(BoardError::WrongKind),
        Some(name) => stores_named(name),
    }
}

/// Returns what a store does that has this name, or OutOfRange where none has it.
pub fn stores_named(name: &str) -> Result<Stores, BoardError>
    ensures { result ≡ stores_named name.now }
{
    match name {
        "kept" => Ok(Stores::Kept),
        "ignored" => Ok(Stores::Ignored),
        "ones-clear" => Ok(Stores::OnesClear),
        "zeros-clear" => Ok(Stores::ZerosClear),
        _ => Err(BoardError::OutOfRange),
    }
}

// The word that bits follow, at a key that may be missing.
fn followed_at(
    devices: &[Device],
    span: &Span,
    value: Option<&Value>,
) -> Result<Option<u32>, BoardError>
    ensures { result ≡ address_where (is_followed devices.now (span_read span.now))
        (option_map (λ v. view v.now) value.entry) }
{
    let Some(value) = value else {
        return Ok(None);
    };
    let address = number(Some(value))?;
    if !is_followed(devices, span, address) {
        return Err(BoardError::OutOfRange);
    }
    Ok(Some(address as u32))
}

/// Returns the boolean at a key that may be missing, which then is false.
pub fn flag(value: Option<&Value>) -> Result<bool, BoardError>
    ensures { result ≡ flag (option_map (λ v. view v.now) value.entry) }
{
    let Some(value) = value else {
        return Ok(false);
    };
    match value.as_bool() {
        None => Err(BoardError::WrongKind),
        Some(flag) => Ok(flag),
    }
}
