//! The script of a board: its events, in the order of the text.

ghost use Rattle.std.specs.Prelude.{◌≡◌, ◌≤◌, ◌<◌, ◌++◌, ◌∷◌, [], true, false, option_map, IfOk, IsOk, length};
ghost use Rattle.std.specs.Bool.{OnTrue};
ghost use Rattle.toml.specs.Data.{get_member, as_table};
ghost use Rattle.toml.specs.View.{table_view, view, items_view};
ghost use Rattle.platform.specs.Boards.{IsScript, IsScriptFrom};
ghost use Rattle.board.specs.Reading.{Answers, Gives};
ghost use Rattle.board.specs.Texts.{change, device_signal, event_in, interrupt_signal, is_free_line, nmi, nmi_signal};
ghost use Rattle.board.specs.Texts.{poke_signal, script_in, signal_in, timely_event};
ghost use Rattle.board.specs.Values.{are_tables, is_table, tables_at};

use crate::device_ranges::has_32_bits;
use crate::device_span::{is_device_word, is_driven};
use crate::keys::{INTERRUPT_KEYS, NMI_KEYS, POKE_KEYS, has_only};
use crate::ranges::{FIRST_TICK, is_tick};
use crate::values::{find, number, word};
use devices::{Device, Poke};
use platform::error::BoardError;
use platform::exception::MAX_INTERRUPTS;
use platform::script::{InterruptNumber, ScriptedEvent, Signal};
use std::alloc::Global;
use toml::{Table, Value};

/// The most events that a board can have.
pub const MAX_SCRIPT_EVENTS: usize = 65_536;

// The tables at a key, which may be missing: a list of tables, at most `most`.
#[tactic(auto, using(crate::proofs::Scripts::count_is))]
pub fn tables(value: Option<&Value>, most: usize) -> Result<&[Value], BoardError>
    ensures read { Gives (λ values. items_view values.now) result
        (tables_at most (option_map (λ v. view v.now) value.entry)) }
    ensures few { IfOk result (λ values. length values.now ≤ most) }
{
    let Some(value) = value else {
        return Ok(&[]);
    };
    let Some(values) = value.as_array() else {
        return Err(BoardError::WrongKind);
    };
    if !are_tables(values.as_slice()) {
        return Err(BoardError::WrongKind);
    }
    if values.len() > most {
        return Err(BoardError::OutOfRange);
    }
    Ok(values.as_slice())
}

// Whether each value is a table.
fn are_tables(values: &[Value]) -> bool
    ensures { result ≡ are_tables (items_view values.now) }
{
    'values: for value in values {
        if value.as_table().is_none() {
            return false;
        }
    }
    true
}

// The events of a list of tables, on a board of `interrupts` interrupts with these devices. A refusal comes before out
// of memory: where an event has no room, those after it are still checked.
pub fn script_of(
    alloc: Global,
    interrupts: u8,
    devices: &[Device],
    values: &[Value],
) -> Result<Vec<ScriptedEvent>, BoardError>
    requires { interrupts ≤ MAX_INTERRUPTS }
    ensures { Answers (λ events. events.items) result
        (script_in interrupts devices.now FIRST_TICK (items_view values.now)) }
{
    let mut events = Vec::new(alloc);
    let mut is_complete = true;
    let mut before = FIRST_TICK;
    'values: for value in values {
        let ScriptedEvent { at, what } = timely_event(interrupts, devices, before, value)?;
        before = at;
        is_complete = gather(&mut events, is_complete, ScriptedEvent { at, what });
    }
    if !is_complete {
        return Err(BoardError::OutOfMemory);
    }
    Ok(events)
}

// Appends an event to those that were gathered, if none is missing there. Returns whether none is
// missing then.
fn gather(events: &mut Vec<ScriptedEvent>, is_complete: bool, event: ScriptedEvent) -> bool
    ensures { result ≡ true → (is_complete ≡ true) × (events.new.items ≡ events.old.items ++ event ∷ []) }
{
    if !is_complete {
        return false;
    }
    let ScriptedEvent { at, what } = event;
    match events.push(ScriptedEvent { at, what }) {
        Ok(()) => true,
        Err(_) => false,
    }
}

// An event that is no earlier than a tick.
#[tactic(auto, unfolding(crate::specs::Texts::timely_event))]
fn timely_event(
    interrupts: u8,
    devices: &[Device],
    before: u64,
    value: &Value,
) -> Result<ScriptedEvent, BoardError>
    requires { interrupts ≤ MAX_INTERRUPTS }
    ensures { result ≡ timely_event interrupts devices.now before (view value.now) }
{
    let Some(fields) = value.as_table() else {
        return Err(BoardError::WrongKind);
    };
    let event = event_of(interrupts, devices, fields)?;
    if event.at < before {
        return Err(BoardError::EventsOutOfOrder);
    }
    Ok(event)
}

// One event.
#[tactic(auto, unfolding(crate::specs::Texts::event_in))]
fn event_of(interrupts: u8, devices: &[Device], event: &Table) -> Result<ScriptedEvent, BoardError>
    requires { interrupts ≤ MAX_INTERRUPTS }
    ensures { result ≡ event_in interrupts devices.now (table_view event.now) }
{
    let at = number(find(event, "at"))?;
    if !is_tick(at) {
        return Err(BoardError::OutOfRange);
    }
    let what = signal_of(interrupts, devices, event, find(event, "nmi"))?;
    Ok(ScriptedEvent { at, what })
}

// The signal of an event, by whether it has `nmi`.
fn signal_of(
    interrupts: u8,
    devices: &[Device],
    event: &Table,
    value: Option<&Value>,
) -> Result<Signal, BoardError>
    requires { interrupts ≤ MAX_INTERRUPTS }
    ensures { result ≡ signal_in interrupts devices.now (table_view event.now)
        (option_map (λ v. view v.now) value.entry) }
{
    match value {
        None => device_signal(interrupts, devices, event, find(event, "poke")),
        Some(value) => nmi_signal(value, event),
    }
}

// The signal of an event without `nmi`, by whether it has `poke`.
fn device_signal(
    interrupts: u8,
    devices: &[Device],
    event: &Table,
    value: Option<&Value>,
) -> Result<Signal, BoardError>
    requires { interrupts ≤ MAX_INTERRUPTS }
    ensures { result ≡ device_signal interrupts devices.now (table_view event.now)
        (option_map (λ v. view v.now) value.entry) }
{
    match value {
        None => interrupt_signal(interrupts, devices, event),
        Some(value) => poke_signal(devices, value, event),
    }
}

// The signal of an event that pokes a word of a device.
#[tactic(auto, unfolding(crate::specs::Texts::poke_signal))]
fn poke_signal(devices: &[Device], value: &Value, event: &Table) -> Result<Signal, BoardError>
    ensures { result ≡ poke_signal devices.now (view value.now) (table_view event.now) }
{
    let address = number(Some(value))?;
    if !is_device_word(devices, address) {
        return Err(BoardError::OutOfRange);
    }
    let content = number(find(event, "value"))?;
    if !has_32_bits(content) {
        return Err(BoardError::OutOfRange);
    }
    if !has_only(&POKE_KEYS, event) {
        return Err(BoardError::UnknownKey);
    }
    Ok(Signal::Poke(Poke {
        address: address as u32,
        value: content as u32,
    }))
}

/// Returns whether an interrupt is one of the board, which has `interrupts`, and no device drives it.
pub fn is_free_line(interrupts: u8, devices: &[Device], interrupt: u64) -> bool
    ensures test { result ≡ is_free_line interrupts devices.now interrupt }
    ensures few { OnTrue result (interrupt < interrupts) }
{
    interrupt < u64::from(interrupts) && !is_driven(devices, interrupt)
}

// The signal of an event that names an interrupt of the board.
#[tactic(auto, unfolding(crate::specs::Texts::interrupt_signal))]
fn interrupt_signal(interrupts: u8, devices: &[Device], event: &Table) -> Result<Signal, BoardError>
    requires { interrupts ≤ MAX_INTERRUPTS }
    ensures { result ≡ interrupt_signal interrupts devices.now (table_view event.now) }
{
    let interrupt = number(find(event, "line"))?;
    if !is_free_line(interrupts, devices, interrupt) {
        return Err(BoardError::OutOfRange);
    }
    let name = word(find(event, "what"))?;
    let signal = change(InterruptNumber::new(interrupt as u8), name)?;
    if !has_only(&INTERRUPT_KEYS, event) {
        return Err(BoardError::UnknownKey);
    }
    Ok(signal)
}

/// Returns the signal on an interrupt that a word names, or OutOfRange where it names none.
pub fn change(interrupt: InterruptNumber, name: &str) -> Result<Signal, BoardError>
    ensures { result ≡ change interrupt name.now }
{
    match name {
        "rise" => Ok(Signal::Rise(interrupt)),
        "fall" => Ok(Signal::Fall(interrupt)),
        "pulse" => Ok(Signal::Pulse(interrupt)),
        _ => Err(BoardError::OutOfRange),
    }
}

// The signal of an event with `nmi`.
#[tactic(auto, unfolding(crate::specs::Texts::nmi_signal))]
fn nmi_signal(value: &Value, event: &Table) -> Result<Signal, BoardError>
    ensures { result ≡ nmi_signal (view value.now) (table_view event.now) }
{
    let signal = nmi(value.as_bool())?;
    if !has_only(&NMI_KEYS, event) {
        return Err(BoardError::UnknownKey);
    }
    Ok(signal)
}

/// Returns the signal of NMI where `nmi` is true, WrongKind where it is no boolean, and OutOfRange where it is false.
pub fn nmi(value: Option<bool>) -> Result<Signal, BoardError>
    ensures { result ≡ nmi value }
{
    match value {
        None => Err(BoardError::WrongKind),
        Some(false) => Err(BoardError::OutOfRange),
        Some(true) => Ok(Signal::Nmi),
    }
}
