//! Why the script of a board is refused: the event by its place in the file, and its problem.

ghost use Rattle.std.specs.Prelude.{◌≡◌, ◌≤◌, ◌<◌, ◌^◌, codes, map, nat_lt, option_map, IfOk, Some};
ghost use Rattle.toml.specs.Data.{get_member};
ghost use Rattle.toml.specs.View.{items_view, table_view, view};
ghost use Rattle.board.specs.Texts.{device_signal, interrupt_signal, is_free_line, nmi_signal, poke_signal, script_in};
ghost use Rattle.board.specs.Texts.{signal_in, timely_event};
ghost use Rattle.board.specs.Values.{are_tables, number, only, where_ok};
ghost use Rattle.reasons.specs.Events.{event_with, first_refused, first_untabled, first_with, has_key, of_tables};
ghost use Rattle.reasons.specs.Events.{refusal_in, script_of};
ghost use Rattle.reasons.specs.Problems.{Explained, Finds, Passes, change_in, tick_of};

use crate::device_keys::{POKE, POKE_VALUE};
use crate::keys::{AT, EVENT, EVENT_TABLE, Key, LINE_NAME, NMI, WHAT};
use crate::problem::{DeviceFault, Problem};
use crate::settings::{check_number, unknown};
use board::keys::{BOARD_KEYS, INTERRUPT_KEYS, NMI_KEYS, POKE_KEYS, is_known};
use board::ranges::FIRST_TICK;
use board::{
    Device, InterruptNumber, MAX_SCRIPT_EVENTS, change, find, is_device_word, is_driven, nmi,
    number,
};
use platform::exception::MAX_INTERRUPTS;
use toml::{Table, Value};

/// A problem of a board, or of one of its events.
#[derive(Clone, Copy)]
pub struct EventProblem<'a> {
    /// Which event it is, from 1; 0 for the board itself, and for the list of events.
    pub number: usize,
    pub problem: Problem<'a>,
}

/// Returns the first problem of the script of a board with this many lines and these devices.
#[tactic(auto, using(board::proofs::Scripts::count_is), unfolding(board::specs::Texts::script_in))]
pub fn events_problem<'a>(
    document: &'a Table,
    lines: u64,
    devices: &[Device],
) -> Option<EventProblem<'a>>
    requires { lines ≤ MAX_INTERRUPTS }
    ensures { Finds (option_map (λ p. p.problem) result) (script_of lines devices.now (table_view document.now)) }
{
    let value = find(document, EVENT.name)?;
    let Some(values) = value.as_array() else {
        return Some(EventProblem {
            number: 0,
            problem: Problem::Kind(EVENT, value),
        });
    };
    let values = values.as_slice();
    if let Some(problem) = tables_problem(values, EVENT_TABLE) {
        return Some(problem);
    }
    if values.len() > MAX_SCRIPT_EVENTS {
        return Some(EventProblem {
            number: 0,
            problem: Problem::Count(EVENT, values.len()),
        });
    }
    script_problem(values, lines, devices)
}

/// Returns the number of the first event, from 1, that has a key.
pub fn event_with(document: &Table, key: &str) -> Option<usize>
    ensures { result ≡ event_with key.now (get_member (codes "event") (table_view document.now)) }
{
    let values = find(document, EVENT.name)?.as_array()?;
    first_with(values.as_slice(), key)
}

/// Returns the number of the first value, from 1, that is a table with a key.
fn first_with(values: &[Value], key: &str) -> Option<usize>
    ensures { result ≡ first_with key.now 1 (items_view values.now) }
{
    'values: for (index, value) in values.iter().enumerate() {
        if has_key(value.as_table(), key) {
            return Some(index + 1);
        }
    }
    None
}

/// Returns whether there is a table, and it has a key.
fn has_key(fields: Option<&Table>, key: &str) -> bool
    ensures { result ≡ has_key key.now (option_map (λ t. table_view t.now) fields.entry) }
{
    match fields {
        Some(fields) => find(fields, key).is_some(),
        None => false,
    }
}

/// Returns the first value of a list that isn't a table, as a problem of a key.
pub fn tables_problem(values: &[Value], key: Key) -> Option<EventProblem<'_>>
    ensures names { option_map (λ p. p.number) result ≡ first_untabled 1 (items_view values.now) }
    ensures explains { Finds (option_map (λ p. p.problem) result) (of_tables (are_tables (items_view values.now))) }
{
    'values: for (index, value) in values.iter().enumerate() {
        if value.as_table().is_none() {
            return Some(EventProblem {
                number: index + 1,
                problem: Problem::Kind(key, value),
            });
        }
    }
    None
}

/// Returns the first problem of a list of tables, on a board with this many lines and these devices.
fn script_problem<'a>(
    values: &'a [Value],
    lines: u64,
    devices: &[Device],
) -> Option<EventProblem<'a>>
    requires { lines ≤ MAX_INTERRUPTS }
    ensures names { option_map refusal_in result
        ≡ first_refused lines devices.now FIRST_TICK 1 (items_view values.now) }
    ensures explains { Finds (option_map (λ p. p.problem) result)
        (script_in lines devices.now FIRST_TICK (items_view values.now)) }
{
    let mut before = FIRST_TICK;
    'values: for (index, value) in values.iter().enumerate() {
        match check_event(value, lines, devices, before) {
            Ok(at) => before = at,
            Err(problem) => {
                return Some(EventProblem {
                    number: index + 1,
                    problem,
                });
            }
        }
    }
    None
}

/// Returns the tick of an event, or what is wrong with the event.
#[tactic(auto, unfolding(board::specs::Texts::timely_event, board::specs::Texts::event_in))]
fn check_event<'a>(
    value: &'a Value,
    lines: u64,
    devices: &[Device],
    before: u64,
) -> Result<u64, Problem<'a>>
    requires { lines ≤ MAX_INTERRUPTS }
    ensures { Explained result (tick_of (timely_event lines devices.now before (view value.now))) }
{
    let Some(fields) = value.as_table() else {
        return Err(Problem::Kind(EVENT_TABLE, value));
    };
    let at = check_number(fields, AT)?;
    check_signal(fields, lines, devices)?;
    if at < before {
        return Err(Problem::Order(at, before));
    }
    Ok(at)
}

/// Checks the signal of an event, by whether it has `nmi`.
fn check_signal<'a>(fields: &'a Table, lines: u64, devices: &[Device]) -> Result<(), Problem<'a>>
    requires { lines ≤ MAX_INTERRUPTS }
    ensures { Passes result
        (signal_in lines devices.now (table_view fields.now) (get_member (codes "nmi") (table_view fields.now))) }
{
    match find(fields, NMI.name) {
        Some(value) => check_nmi(fields, value),
        None => check_device_signal(fields, lines, devices),
    }
}

/// Checks the signal of an event without `nmi`, by whether it has `poke`.
fn check_device_signal<'a>(
    fields: &'a Table,
    lines: u64,
    devices: &[Device],
) -> Result<(), Problem<'a>>
    requires { lines ≤ MAX_INTERRUPTS }
    ensures { Passes result
        (device_signal lines devices.now (table_view fields.now) (get_member (codes "poke") (table_view fields.now))) }
{
    match find(fields, POKE.name) {
        Some(value) => check_poke(fields, devices, value),
        None => check_line(fields, lines, devices),
    }
}

/// Checks an event that pokes a word of a device.
#[tactic(auto, using(crate::proofs::Numbers::integer_lemmas), unfolding(board::specs::Texts::poke_signal))]
fn check_poke<'a>(
    fields: &'a Table,
    devices: &[Device],
    value: &'a Value,
) -> Result<(), Problem<'a>>
    ensures { Passes result (poke_signal devices.now (view value.now) (table_view fields.now)) }
{
    let address = check_address(value, POKE)?;
    if !is_device_word(devices, address) {
        return Err(Problem::Value(POKE, value));
    }
    check_number(fields, POKE_VALUE)?;
    check_keys(fields, &POKE_KEYS, "at, poke and value")
}

/// Returns the address that a value is, or what is wrong with it.
#[tactic(auto, using(crate::proofs::Numbers::below_zero, crate::proofs::Numbers::no_integer))]
pub fn check_address(value: &Value, key: Key) -> Result<u64, Problem<'_>>
    ensures read { Explained result (number (Some (view value.now))) }
    ensures small { IfOk result (λ n. n < 2 ^ 63) }
{
    match number(Some(value)) {
        Ok(address) => Ok(address),
        Err(_) if value.is_integer() => Err(Problem::Value(key, value)),
        Err(_) => Err(Problem::Integer(key, value)),
    }
}

/// Checks an event with `nmi`.
#[tactic(auto, using(crate::proofs::Numbers::nmi_lemmas), unfolding(board::specs::Texts::nmi_signal))]
fn check_nmi<'a>(fields: &'a Table, value: &'a Value) -> Result<(), Problem<'a>>
    ensures { Passes result (nmi_signal (view value.now) (table_view fields.now)) }
{
    match nmi(value.as_bool()) {
        Ok(_) => check_keys(fields, &NMI_KEYS, "at and nmi"),
        Err(_) if value.is_bool() => Err(Problem::Value(NMI, value)),
        Err(_) => Err(Problem::Kind(NMI, value)),
    }
}

/// Checks an event that names a line of the board.
#[tactic(auto, unfolding(board::specs::Texts::interrupt_signal))]
fn check_line<'a>(fields: &'a Table, lines: u64, devices: &[Device]) -> Result<(), Problem<'a>>
    requires { lines ≤ MAX_INTERRUPTS }
    ensures { Passes result (interrupt_signal lines devices.now (table_view fields.now)) }
{
    let line = check_free_line(fields, lines, devices)?;
    check_change(fields, InterruptNumber::new(line as u8))?;
    check_keys(fields, &INTERRUPT_KEYS, "at, line and what")
}

/// Returns the line that an event names, which no device drives, or what is wrong with it.
fn check_free_line<'a>(
    fields: &'a Table,
    lines: u64,
    devices: &[Device],
) -> Result<u64, Problem<'a>>
    ensures read { Explained result
        (where_ok (is_free_line lines devices.now) (number (get_member (codes "line") (table_view fields.now)))) }
    ensures few { IfOk result (λ line. line < lines) }
{
    let line = check_line_number(fields, lines)?;
    if is_driven(devices, line) {
        return Err(Problem::Device(DeviceFault::Driven(line)));
    }
    Ok(line)
}

/// Returns the line that an event or a device names, or what is wrong with it.
#[tactic(auto, using(crate::proofs::Numbers::integer_lemmas))]
pub fn check_line_number(fields: &Table, lines: u64) -> Result<u64, Problem<'_>>
    ensures read { Explained result
        (where_ok (λ n. nat_lt n lines) (number (get_member (codes "line") (table_view fields.now)))) }
    ensures few { IfOk result (λ line. line < lines) }
{
    let Some(value) = find(fields, LINE_NAME) else {
        return Err(Problem::Line(None, lines));
    };
    match number(Some(value)) {
        Ok(line) if line < lines => Ok(line),
        Ok(_) | Err(_) => Err(Problem::Line(Some(value), lines)),
    }
}

/// Checks the word that says what happens on a line.
#[tactic(auto, using(crate::proofs::Numbers::no_change))]
fn check_change(fields: &Table, line: InterruptNumber) -> Result<(), Problem<'_>>
    ensures { Passes result (change_in line (table_view fields.now)) }
{
    let Some(value) = find(fields, WHAT.name) else {
        return Err(Problem::Missing(WHAT));
    };
    match value.as_str() {
        Some(name) => match change(line, name) {
            Ok(_) => Ok(()),
            Err(_) => Err(Problem::Value(WHAT, value)),
        },
        None => Err(Problem::Kind(WHAT, value)),
    }
}

/// Checks that an event has no other keys than these.
fn check_keys<'a>(fields: &'a Table, known: &[&str], names: &'static str) -> Result<(), Problem<'a>>
    ensures { Passes result (only (map (λ key. key.now) known.now) (table_view fields.now)) }
{
    match unknown(fields, known) {
        None => Ok(()),
        Some(name) if is_known(&BOARD_KEYS, name) && name != EVENT.name => {
            Err(Problem::Misplaced(name))
        }
        Some(name) => Err(Problem::Unknown(name, names)),
    }
}
