//! Where a device is, and the words that its table names.

ghost use Rattle.std.specs.Prelude.{◌≡◌, ◌<◌, ◌≤◌, ◌+◌, ◌%◌, ◌^◌, option_map, IfOk};
ghost use Rattle.std.specs.Bool.{OnTrue};
ghost use Rattle.toml.specs.View.{table_view};
ghost use Rattle.devices.specs.Lines.{is_line_of};
ghost use Rattle.devices.specs.Table.{device_at};
ghost use Rattle.platform.specs.Boards.{numbers_of};
ghost use Rattle.platform.specs.Wiring.{is_driven};
ghost use Rattle.board.specs.Devices.{counts_in, is_device_word, is_followed, is_in_device, is_named};
ghost use Rattle.board.specs.Devices.{is_own, span_in};
ghost use Rattle.board.specs.Reading.{Gives, span_read};

use crate::device_parts::Span;
use crate::device_ranges::{has_32_bits, is_device_base, is_device_size};
use crate::values::{find, number, number_or};
use devices::{Device, Line, device_at};
use platform::board::Layout;
use platform::error::BoardError;
use toml::Table;

/// How many bytes a device has where the text doesn't say it.
pub const DEFAULT_DEVICE_BYTES: u64 = 4;

/// Returns where a table's device is, after devices that have `before` bytes, or the first refusal.
#[tactic(auto, unfolding(crate::specs::Devices::span_in))]
pub fn span_in(layout: &Layout, before: u64, table: &Table) -> Result<Span, BoardError>
    requires { before ≤ 0x10_0000 }
    ensures read { Gives span_read result (span_in (numbers_of layout.now) before (table_view table.now)) }
    ensures few { IfOk result (λ span. before + span.size ≤ 0x10_0000) }
{
    let base = number(find(table, "base"))?;
    if !is_device_base(base) {
        return Err(BoardError::OutOfRange);
    }
    let size = number_or(find(table, "size"), DEFAULT_DEVICE_BYTES)?;
    if !is_device_size(layout, before, base, size) {
        return Err(BoardError::OutOfRange);
    }
    Ok(Span {
        base: base as u32,
        size: size as u32,
    })
}

/// Returns whether a device has a byte at an address.
pub fn is_own(span: &Span, address: u64) -> bool
    ensures { result ≡ is_own (span_read span.now) address }
{
    let base = u64::from(span.base);
    base <= address && address < base + u64::from(span.size)
}

// The first of some devices that has an address.
#[tactic(auto, using(crate::proofs::Devices::none_past))]
fn device_with(devices: &[Device], address: u64) -> Option<&Device>
    ensures { option_map (λ d. d.now) result ≡ device_at devices.now address }
{
    if !has_32_bits(address) {
        return None;
    }
    device_at(devices, address as u32)
}

/// Returns whether one of some devices has an address.
#[tactic(auto, using(crate::proofs::Devices::none_past))]
pub fn is_in_device(devices: &[Device], address: u64) -> bool
    ensures test { result ≡ is_in_device devices.now address }
    ensures small { OnTrue result (address < 2 ^ 32) }
{
    if !has_32_bits(address) {
        return false;
    }
    device_at(devices, address as u32).is_some()
}

/// Returns whether an address is that of a word of one of some devices.
pub fn is_device_word(devices: &[Device], address: u64) -> bool
    ensures test { result ≡ is_device_word devices.now address }
    ensures small { OnTrue result (address < 2 ^ 32) }
{
    address % 4 == 0 && is_in_device(devices, address)
}

/// Returns whether the table of a device can name an address: that of a word of its own or of a device before it.
pub fn is_named(devices: &[Device], span: &Span, address: u64) -> bool
    ensures test { result ≡ is_named devices.now (span_read span.now) address }
    ensures small { OnTrue result (address < 2 ^ 32) }
{
    address % 4 == 0 && (is_in_device(devices, address) || is_own(span, address))
}

// Whether a device, if there is one, counts.
fn counts_in(device: Option<&Device>) -> bool
    ensures { result ≡ counts_in (option_map (λ d. d.now) device.entry) }
{
    match device {
        None => false,
        Some(device) => device.counts,
    }
}

/// Returns whether bits can follow the word at an address: one that can be named and doesn't count.
pub fn is_followed(devices: &[Device], span: &Span, address: u64) -> bool
    ensures test { result ≡ is_followed devices.now (span_read span.now) address }
    ensures small { OnTrue result (address < 2 ^ 32) }
{
    is_named(devices, span, address) && !counts_in(device_with(devices, address))
}

// Whether a line, if there is one, has this number.
fn is_line_of(line: Option<Line>, interrupt: u64) -> bool
    ensures { result ≡ is_line_of line interrupt }
{
    match line {
        None => false,
        Some(line) => u64::from(line.number) == interrupt,
    }
}

/// Returns whether one of some devices drives an interrupt.
pub fn is_driven(devices: &[Device], interrupt: u64) -> bool
    ensures { result ≡ is_driven devices.now interrupt }
{
    'devices: for device in devices {
        if is_line_of(device.line, interrupt) {
            return true;
        }
    }
    false
}
