//! Why the devices of a board are refused: the table by its place in the file, and its problem.

ghost use Rattle.std.specs.Prelude.{◌≡◌, ◌<◌, ◌≤◌, ◌^◌, [], codes, length, option_map};
ghost use Rattle.toml.specs.Data.{get_member};
ghost use Rattle.toml.specs.View.{items_view, table_view, view};
ghost use Rattle.board.specs.Devices.{device_in, devices_at, devices_in, is_device_size, known_keys, listed_device};
ghost use Rattle.board.specs.Devices.{span_in};
ghost use Rattle.board.specs.Values.{number_or, where_ok};
ghost use Rattle.platform.specs.Boards.{numbers_of};
ghost use Rattle.reasons.specs.Problems.{Explained, Finds, Passes};

use crate::device_keys::{
    DEVICE, DEVICE_BASE, DEVICE_KEY_NAMES, DEVICE_SIZE, DEVICE_TABLE, ENABLE, LOAD_POKE,
    LOAD_VALUE, STORE_POKE, STORE_VALUE,
};
use crate::device_lines::{check_device_line, check_effects};
use crate::device_values::check_values;
use crate::events::tables_problem;
use crate::keys::LINE_NAME;
use crate::problem::{DeviceFault, Part, PartProblem, Problem};
use crate::second_ram::of_board;
use crate::settings::{check_number, check_number_or, unknown};
use board::device_ranges::{SPACE, is_device_size, is_outside};
use board::keys::DEVICE_KEYS;
use board::{
    DEFAULT_DEVICE_BYTES, Device, FoundDevices, Layout, MAX_DEVICES, find, goes_with,
    listed_device, span_in, values_in,
};
use toml::{Table, Value};

/// Returns the first problem of the devices of a document, on a board with this layout.
#[tactic(auto, using(board::proofs::Scripts::count_is), unfolding(board::specs::Devices::devices_at, board::specs::Devices::devices_in))]
pub fn devices_problem<'a>(document: &'a Table, layout: &Layout) -> Option<PartProblem<'a>>
    ensures { Finds (option_map (λ p. p.problem) result)
        (devices_at (numbers_of layout.now) (table_view document.now)) }
{
    let value = find(document, DEVICE.name)?;
    let Some(values) = value.as_array() else {
        return Some(of_board(Problem::Kind(DEVICE, value)));
    };
    let values = values.as_slice();
    if let Some(found) = tables_problem(values, DEVICE_TABLE) {
        return Some(of_board(found.problem));
    }
    if values.len() > MAX_DEVICES {
        return Some(of_board(Problem::Count(DEVICE, values.len())));
    }
    listed_problem(values, layout)
}

/// Returns the first problem of a list of tables.
fn listed_problem<'a>(values: &'a [Value], layout: &Layout) -> Option<PartProblem<'a>>
    requires { length values.now ≤ 256 }
    ensures { Finds (option_map (λ p. p.problem) result)
        (devices_in (numbers_of layout.now) 0 [] (items_view values.now)) }
{
    let mut found = FoundDevices::new();
    let mut before = 0;
    'values: for (index, value) in values.iter().enumerate() {
        if let Err(problem) = check_device(layout, before, found.devices(), value) {
            return Some(PartProblem {
                part: Part::Device(index + 1),
                problem,
            });
        }
        let Ok(device) = listed_device(layout, before, found.devices(), value) else {
            return None;
        };
        before += u64::from(device.size);
        found.push(&device);
    }
    None
}

/// Checks a device of a list, after the devices before it, which have `before` bytes.
#[tactic(auto, unfolding(board::specs::Devices::listed_device))]
fn check_device<'a>(
    layout: &Layout,
    before: u64,
    devices: &[Device],
    value: &'a Value,
) -> Result<(), Problem<'a>>
    requires { before ≤ 0x10_0000 }
    ensures { Passes result (listed_device (numbers_of layout.now) before devices.now (view value.now)) }
{
    match value.as_table() {
        None => Err(Problem::Kind(DEVICE_TABLE, value)),
        Some(table) => check_table(layout, before, devices, table),
    }
}

/// Checks the table of a device, part by part.
#[tactic(auto, unfolding(board::specs::Devices::device_in))]
fn check_table<'a>(
    layout: &Layout,
    before: u64,
    devices: &[Device],
    table: &'a Table,
) -> Result<(), Problem<'a>>
    requires { before ≤ 0x10_0000 }
    ensures { Passes result (device_in (numbers_of layout.now) before devices.now (table_view table.now)) }
{
    check_span(layout, before, table)?;
    let Ok(span) = span_in(layout, before, table) else {
        return Ok(());
    };
    check_values(devices, &span, table)?;
    let Ok(values) = values_in(devices, &span, table) else {
        return Ok(());
    };
    check_effects(devices, &span, table)?;
    check_device_line(layout.interrupts, devices, &span, values.counts, table)?;
    check_device_keys(table)
}

/// Checks where a device is, after devices that have `before` bytes.
#[tactic(auto, unfolding(board::specs::Devices::span_in))]
fn check_span<'a>(layout: &Layout, before: u64, table: &'a Table) -> Result<(), Problem<'a>>
    requires { before ≤ 0x10_0000 }
    ensures { Passes result (span_in (numbers_of layout.now) before (table_view table.now)) }
{
    let base = check_number(table, DEVICE_BASE)?;
    check_device_size(layout, before, base, table)?;
    Ok(())
}

/// Returns the size of a device at a base, or what is wrong with it.
fn check_device_size<'a>(
    layout: &Layout,
    before: u64,
    base: u64,
    table: &'a Table,
) -> Result<u64, Problem<'a>>
    requires before { before ≤ 0x10_0000 }
    requires base { base < 2 ^ 63 }
    ensures { Explained result (where_ok (is_device_size (numbers_of layout.now) before base)
        (number_or 4 (get_member (codes "size") (table_view table.now)))) }
{
    let size = check_number_or(table, DEVICE_SIZE, DEFAULT_DEVICE_BYTES)?;
    if base + size > SPACE || !is_outside(layout, base, size) {
        return Err(Problem::Device(DeviceFault::Span(base, size)));
    }
    if !is_device_size(layout, before, base, size) {
        return Err(Problem::Device(DeviceFault::Bytes(before, size)));
    }
    Ok(size)
}

/// Checks that a table has no other keys than those of a device, and each beside the one that it goes with.
fn check_device_keys(table: &Table) -> Result<(), Problem<'_>>
    ensures { Passes result (known_keys (table_view table.now)) }
{
    if let Some(name) = unknown(table, &DEVICE_KEYS) {
        return Err(Problem::Unknown(name, DEVICE_KEY_NAMES));
    }
    if !goes_with(LOAD_POKE.name, LOAD_VALUE.name, table) {
        return Err(Problem::Alone(LOAD_VALUE.name, LOAD_POKE.name));
    }
    if !goes_with(STORE_POKE.name, STORE_VALUE.name, table) {
        return Err(Problem::Alone(STORE_VALUE.name, STORE_POKE.name));
    }
    if !goes_with(LINE_NAME, ENABLE.name, table) {
        return Err(Problem::Alone(ENABLE.name, LINE_NAME));
    }
    Ok(())
}
