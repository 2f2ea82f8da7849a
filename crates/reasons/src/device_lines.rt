//! Why the effects of a load or a store, or the line of a device, are refused.

ghost use Rattle.std.specs.Prelude.{◌≡◌, ◌<◌, ◌≤◌, codes, IfOk};
ghost use Rattle.toml.specs.Data.{get_member};
ghost use Rattle.toml.specs.View.{table_view};
ghost use Rattle.board.specs.Devices.{effects_in, is_device_line, is_named, line_in, poke_where};
ghost use Rattle.board.specs.Reading.{span_read};
ghost use Rattle.board.specs.Values.{number, where_ok};
ghost use Rattle.reasons.specs.declared.keys.Takes.TheVariants.{Bits};
ghost use Rattle.reasons.specs.Problems.{Explained, Passes};

use crate::device_keys::{CONSOLE, ENABLE, LOAD_POKE, LOAD_VALUE, STORE_POKE, STORE_VALUE};
use crate::device_values::check_flag;
use crate::events::{check_address, check_line_number};
use crate::keys::{Key, LINE_NAME};
use crate::problem::{DeviceFault, Problem};
use crate::settings::check_number;
use board::{Device, Span, find, is_driven, is_followed, is_in_device, is_named};
use platform::exception::MAX_INTERRUPTS;
use toml::Table;

/// Checks what a load from a table's device and a store to it do, after the devices before it.
#[tactic(auto, unfolding(board::specs::Devices::effects_in))]
pub fn check_effects<'a>(
    devices: &[Device],
    span: &Span,
    table: &'a Table,
) -> Result<(), Problem<'a>>
    ensures { Passes result (effects_in devices.now (span_read span.now) (table_view table.now)) }
{
    check_flag(table, CONSOLE)?;
    check_device_poke(devices, span, table, LOAD_POKE, LOAD_VALUE)?;
    check_device_poke(devices, span, table, STORE_POKE, STORE_VALUE)
}

/// Checks a poke: the address at one key, if there is one, and then the value at another.
fn check_device_poke<'a>(
    devices: &[Device],
    span: &Span,
    table: &'a Table,
    key: Key,
    value_key: Key,
) -> Result<(), Problem<'a>>
    requires { value_key.takes ≡ Bits }
    ensures { Passes result (poke_where (is_named devices.now (span_read span.now)) value_key.name.now
        (table_view table.now) (get_member key.name.now (table_view table.now))) }
{
    let Some(value) = find(table, key.name) else {
        return Ok(());
    };
    let address = check_address(value, key)?;
    if !is_named(devices, span, address) {
        return Err(Problem::Value(key, value));
    }
    check_number(table, value_key)?;
    Ok(())
}

/// Checks the line of a table's device, after the devices before it.
#[tactic(auto, using(crate::proofs::Devices::is_line), unfolding(board::specs::Devices::line_in))]
pub fn check_device_line<'a>(
    interrupts: u8,
    devices: &[Device],
    span: &Span,
    counts: bool,
    table: &'a Table,
) -> Result<(), Problem<'a>>
    requires { interrupts ≤ MAX_INTERRUPTS }
    ensures { Passes result (line_in interrupts devices.now (span_read span.now) counts (table_view table.now)
        (get_member (codes "line") (table_view table.now))) }
{
    if find(table, LINE_NAME).is_none() {
        return Ok(());
    }
    check_own_line(interrupts, devices, span, counts, table)?;
    let Some(value) = find(table, ENABLE.name) else {
        return Err(Problem::Missing(ENABLE));
    };
    let enable = check_address(value, ENABLE)?;
    if !is_followed(devices, span, enable) {
        return Err(Problem::Value(ENABLE, value));
    }
    Ok(())
}

/// Returns the line of a device that can have it, or what is wrong with it.
#[tactic(auto, using(crate::proofs::SecondRam::refused_too))]
fn check_own_line<'a>(
    interrupts: u8,
    devices: &[Device],
    span: &Span,
    counts: bool,
    table: &'a Table,
) -> Result<u64, Problem<'a>>
    ensures read { Explained result
        (where_ok (is_device_line interrupts devices.now (span_read span.now) counts)
        (number (get_member (codes "line") (table_view table.now)))) }
    ensures few { IfOk result (λ line. line < interrupts) }
{
    let line = check_line_number(table, u64::from(interrupts))?;
    if is_driven(devices, line) {
        return Err(Problem::Device(DeviceFault::Driven(line)));
    }
    if counts {
        return Err(Problem::Device(DeviceFault::Counting(line)));
    }
    if is_in_device(devices, u64::from(span.base)) {
        return Err(Problem::Device(DeviceFault::Hidden(line)));
    }
    Ok(line)
}
