//! The devices of a board, in the order of the text.

ghost use Rattle.std.specs.Prelude.{◌≡◌, ◌≤◌, ◌+◌, [], length, IfOk, Ok};
ghost use Rattle.toml.specs.View.{items_view, table_view, view};
ghost use Rattle.platform.specs.Boards.{numbers_of};
ghost use Rattle.board.specs.Devices.{device_in, device_of, devices_at, devices_in, goes_with, has_device_keys};
ghost use Rattle.board.specs.Devices.{listed_device};
ghost use Rattle.board.specs.Reading.{Gives, span_read, values_read};

use crate::device_effects::{effects_in, line_in};
use crate::device_parts::{Effects, Span, Values};
use crate::device_span::span_in;
use crate::device_values::values_in;
use crate::events::tables;
use crate::found_devices::FoundDevices;
use crate::keys::{DEVICE_KEYS, has_only};
use crate::values::find;
use devices::{Device, Line, MAX_DEVICES};
use platform::board::Layout;
use platform::error::BoardError;
use toml::{Table, Value};

/// Returns the devices of a document, on a board with this layout, or the first refusal among them.
pub fn devices_at(layout: &Layout, document: &Table) -> Result<FoundDevices, BoardError>
    ensures { Gives (λ found. found) result (devices_at (numbers_of layout.now) (table_view document.now)) }
{
    let mut found = FoundDevices::new();
    find_devices(layout, document, &mut found)?;
    Ok(found)
}

/// Finds the devices of a document, as `devices_at` returns them, in a place that has none yet: the caller's frame has
/// them once.
#[tactic(auto, unfolding(crate::specs::Devices::devices_at))]
pub fn find_devices(
    layout: &Layout,
    document: &Table,
    found: &mut FoundDevices,
) -> Result<(), BoardError>
    requires { found.old ≡ [] }
    ensures { Gives (λ _. found.new) result (devices_at (numbers_of layout.now) (table_view document.now)) }
{
    let values = tables(find(document, "device"), MAX_DEVICES)?;
    devices_of(layout, values, found)
}

// Finds the devices of a list of tables.
fn devices_of(layout: &Layout, values: &[Value], found: &mut FoundDevices) -> Result<(), BoardError>
    requires few { length values.now ≤ 256 }
    requires none { found.old ≡ [] }
    ensures { Gives (λ _. found.new) result (devices_in (numbers_of layout.now) 0 [] (items_view values.now)) }
{
    let mut before = 0;
    'values: for value in values {
        let device = listed_device(layout, before, found.devices(), value)?;
        before += u64::from(device.size);
        found.push(&device);
    }
    Ok(())
}

/// Returns the device of a list of tables that a value describes, after the devices before it, which have `before`
/// bytes.
#[tactic(auto, unfolding(crate::specs::Devices::listed_device))]
pub fn listed_device(
    layout: &Layout,
    before: u64,
    devices: &[Device],
    value: &Value,
) -> Result<Device, BoardError>
    requires { before ≤ 0x10_0000 }
    ensures read { result ≡ listed_device (numbers_of layout.now) before devices.now (view value.now) }
    ensures few { IfOk result (λ device. before + device.size ≤ 0x10_0000) }
{
    match value.as_table() {
        None => Err(BoardError::WrongKind),
        Some(table) => device_in(layout, before, devices, table),
    }
}

// The device of a table, after the devices before it, which have `before` bytes.
#[tactic(auto, unfolding(crate::specs::Devices::device_in))]
fn device_in(
    layout: &Layout,
    before: u64,
    devices: &[Device],
    table: &Table,
) -> Result<Device, BoardError>
    requires { before ≤ 0x10_0000 }
    ensures read { result ≡ device_in (numbers_of layout.now) before devices.now (table_view table.now) }
    ensures few { IfOk result (λ device. before + device.size ≤ 0x10_0000) }
{
    let span = span_in(layout, before, table)?;
    let values = values_in(devices, &span, table)?;
    let effects = effects_in(devices, &span, table)?;
    let value = find(table, "line");
    let line = line_in(
        layout.interrupts,
        devices,
        &span,
        values.counts,
        table,
        value,
    )?;
    if !has_device_keys(table) {
        return Err(BoardError::UnknownKey);
    }
    Ok(device_of(&span, &values, &effects, line))
}

/// Returns whether each key of a table is one of a device, and beside the one that it goes with.
pub fn has_device_keys(table: &Table) -> bool
    ensures { result ≡ has_device_keys (table_view table.now) }
{
    has_only(&DEVICE_KEYS, table)
        && goes_with("load_poke", "load_value", table)
        && goes_with("store_poke", "store_value", table)
        && goes_with("line", "enable", table)
}

/// Returns whether a table has a key only beside another one.
pub fn goes_with(other: &str, key: &str, table: &Table) -> bool
    ensures { result ≡ goes_with other.now key.now (table_view table.now) }
{
    find(table, other).is_some() || find(table, key).is_none()
}

// The device of its parts.
#[tactic(auto, unfolding(crate::specs::Devices::device_of))]
fn device_of(span: &Span, values: &Values, effects: &Effects, line: Option<Line>) -> Device
    ensures parts { device_of (span_read span.now) (values_read values.now) effects.now line ≡ Ok result }
    ensures size { result.size ≡ span.now.size }
{
    Device {
        base: span.base,
        size: span.size,
        start: values.start,
        ones: values.ones,
        zeros: values.zeros,
        stores: values.stores,
        follows: values.follows,
        by: values.by,
        of: values.of,
        counts: values.counts,
        console: effects.console,
        load_poke: effects.load_poke,
        store_poke: effects.store_poke,
        line,
    }
}
