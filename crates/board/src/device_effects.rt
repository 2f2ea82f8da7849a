//! What a load from a device and a store to it do, and its line.

ghost use Rattle.std.specs.Prelude.{◌≡◌, ◌<◌, ◌≤◌, option_map, Ok, Some};
ghost use Rattle.std.specs.Bool.{OnTrue};
ghost use Rattle.toml.specs.View.{table_view, view};
ghost use Rattle.platform.specs.declared.exception.TheConstants.{MAX_INTERRUPTS};
ghost use Rattle.board.specs.Devices.{effects_in, is_device_line, is_named, line_in, line_of, poke_where};
ghost use Rattle.board.specs.Reading.{span_read};

use crate::device_parts::{Effects, Span};
use crate::device_ranges::has_32_bits;
use crate::device_span::{is_driven, is_followed, is_in_device, is_named};
use crate::device_values::flag;
use crate::values::{find, number};
use devices::{Device, Line, Poke};
use platform::error::BoardError;
use toml::{Table, Value};

/// Returns what a load from a table's device and a store to it do, after the devices before it, or the first refusal.
#[tactic(auto, unfolding(crate::specs::Devices::effects_in))]
pub fn effects_in(devices: &[Device], span: &Span, table: &Table) -> Result<Effects, BoardError>
    ensures { result ≡ effects_in devices.now (span_read span.now) (table_view table.now) }
{
    let console = flag(find(table, "console"))?;
    let load_poke = poke_where(devices, span, "load_value", table, find(table, "load_poke"))?;
    let store_poke = poke_where(
        devices,
        span,
        "store_value",
        table,
        find(table, "store_poke"),
    )?;
    Ok(Effects {
        console,
        load_poke,
        store_poke,
    })
}

// The poke whose address is at one key, where there is one, and its value at another.
fn poke_where(
    devices: &[Device],
    span: &Span,
    key: &str,
    table: &Table,
    value: Option<&Value>,
) -> Result<Option<Poke>, BoardError>
    ensures { result ≡ poke_where (is_named devices.now (span_read span.now)) key.now (table_view table.now)
        (option_map (λ v. view v.now) value.entry) }
{
    let Some(value) = value else {
        return Ok(None);
    };
    let address = number(Some(value))?;
    if !is_named(devices, span, address) {
        return Err(BoardError::OutOfRange);
    }
    let content = number(find(table, key))?;
    if !has_32_bits(content) {
        return Err(BoardError::OutOfRange);
    }
    Ok(Some(Poke {
        address: address as u32,
        value: content as u32,
    }))
}

/// Returns whether a device can drive an interrupt of a board with `interrupts`: one that no device before it drives,
/// if its first word is its own and doesn't count.
pub fn is_device_line(
    interrupts: u8,
    devices: &[Device],
    span: &Span,
    counts: bool,
    interrupt: u64,
) -> bool
    ensures test { result ≡ is_device_line interrupts devices.now (span_read span.now) counts interrupt }
    ensures small { OnTrue result (interrupt < interrupts) }
{
    interrupt < u64::from(interrupts)
        && !is_driven(devices, interrupt)
        && !counts
        && !is_in_device(devices, u64::from(span.base))
}

/// Returns the line of a table's device, or the first refusal.
#[tactic(auto, unfolding(crate::specs::Devices::line_in))]
pub fn line_in(
    interrupts: u8,
    devices: &[Device],
    span: &Span,
    counts: bool,
    table: &Table,
    value: Option<&Value>,
) -> Result<Option<Line>, BoardError>
    requires { interrupts ≤ MAX_INTERRUPTS }
    ensures { result ≡ line_in interrupts devices.now (span_read span.now) counts (table_view table.now)
        (option_map (λ v. view v.now) value.entry) }
{
    let Some(value) = value else {
        return Ok(None);
    };
    let interrupt = number(Some(value))?;
    if !is_device_line(interrupts, devices, span, counts, interrupt) {
        return Err(BoardError::OutOfRange);
    }
    let enable = number(find(table, "enable"))?;
    if !is_followed(devices, span, enable) {
        return Err(BoardError::OutOfRange);
    }
    Ok(Some(line_of(interrupt as u8, enable as u32)))
}

// The line of its parts.
fn line_of(number: u8, enable: u32) -> Line
    requires { number < MAX_INTERRUPTS }
    ensures { line_of number enable ≡ Ok (Some result) }
{
    Line { number, enable }
}
