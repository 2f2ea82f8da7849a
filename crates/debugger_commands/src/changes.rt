//! The commands that change the machine's state, or save it.

ghost use Rattle.std.specs.Prelude.{◌≡◌, option_map};
ghost use Rattle.debugger_commands.specs.Changes.{change_in, edge_of, nmi_of, place_named, read_back, read_edge};
ghost use Rattle.debugger_commands.specs.Changes.{read_place, read_save, read_signal, reg_place, slot_in};
ghost use Rattle.debugger_commands.specs.Changes.{special_place};
ghost use Rattle.debugger_commands.specs.TwoWords.{seen_two, seen_three};

use crate::choices::is_same;
use crate::commands::LineError;
use crate::numbers::number;
use crate::words::{ThreeWords, TwoWords, one_word, three_words, two_words};
use reference::place::Place;

/// What a command changes: the machine's state, or a slot for a copy of it.
#[derive(Clone, Copy)]
pub enum Change {
    /// Put a value into a register or a word: `place reg|special n v`, `place word a v`. None stands for a register
    /// whose number is 256 or more, which no machine has.
    Place(Option<Place>),
    /// Do what an event of a board's script does on the interrupt of this number: `signal pulse|rise|fall k`.
    Signal(Edge, u32),
    /// Make NMI pending: `signal nmi`.
    Nmi,
    /// Save the state in the slot of this number: `save k`.
    Save(u8),
    /// Go back to the state in the slot of this number: `back k`.
    Back(u8),
}

/// What happens on an interrupt.
#[derive(Clone, Copy)]
pub enum Edge {
    /// Its exception becomes pending, and the interrupt stays as it is.
    Pulse,
    /// It goes high, and its exception becomes pending.
    Rise,
    /// It goes low, and its exception stays as it is.
    Fall,
}

/// Returns the change of a first word, with the words after it.
#[tactic(auto, unfolding(crate::specs::Changes::change_in))]
pub fn read_change(slots: u8, word: &[u8], more: Option<&[u8]>) -> Result<Change, LineError>
    ensures { result ≡ change_in slots word.now (option_map (λ m. m.now) more.entry) }
{
    if is_same(word, b"place") {
        read_place(three_words(more))
    } else if is_same(word, b"signal") {
        read_signal(one_word(more), two_words(more))
    } else if is_same(word, b"save") {
        read_save(slots, one_word(more))
    } else if is_same(word, b"back") {
        read_back(slots, one_word(more))
    } else {
        Err(LineError::Command)
    }
}

/// Reads the words after `place`.
fn read_place(words: Option<ThreeWords<'_>>) -> Result<Change, LineError>
    ensures { result ≡ read_place (option_map seen_three words.entry) }
{
    let Some(words) = words else {
        return Err(LineError::Command);
    };
    match (number(words.others.first), number(words.others.second)) {
        (Some(number), Some(value)) => place_named(words.first, number, value),
        _ => Err(LineError::Word),
    }
}

/// Returns the change that puts a value into what `word` names, by its number.
fn place_named(word: &[u8], number: u32, value: u32) -> Result<Change, LineError>
    ensures { result ≡ place_named word.now number value }
{
    if is_same(word, b"reg") {
        Ok(Change::Place(reg_place(number, value)))
    } else if is_same(word, b"special") {
        Ok(Change::Place(special_place(number, value)))
    } else if is_same(word, b"word") {
        Ok(Change::Place(Some(Place::Word(number, value))))
    } else {
        Err(LineError::Word)
    }
}

/// Returns the place of a core register, with a value for it.
fn reg_place(number: u32, value: u32) -> Option<Place>
    ensures { result ≡ reg_place number value }
{
    if number < 256 {
        Some(Place::Reg(number as u8, value))
    } else {
        None
    }
}

/// Returns the place of a special register, with a value for it.
fn special_place(number: u32, value: u32) -> Option<Place>
    ensures { result ≡ special_place number value }
{
    if number < 256 {
        Some(Place::Special(number as u8, value))
    } else {
        None
    }
}

/// Reads the words after `signal`, which are one or two.
fn read_signal(word: Option<&[u8]>, words: Option<TwoWords<'_>>) -> Result<Change, LineError>
    ensures { result ≡ read_signal (option_map (λ w. w.now) word.entry) (option_map seen_two words.entry) }
{
    match word {
        Some(word) => read_nmi(word),
        None => read_edge(words),
    }
}

/// Reads a lone word after `signal`.
fn read_nmi(word: &[u8]) -> Result<Change, LineError>
    ensures { result ≡ nmi_of word.now }
{
    if is_same(word, b"nmi") {
        Ok(Change::Nmi)
    } else {
        Err(LineError::Word)
    }
}

/// Reads two words after `signal`.
fn read_edge(words: Option<TwoWords<'_>>) -> Result<Change, LineError>
    ensures { result ≡ read_edge (option_map seen_two words.entry) }
{
    let Some(words) = words else {
        return Err(LineError::Command);
    };
    match (edge_of(words.first), number(words.second)) {
        (Some(edge), Some(number)) => Ok(Change::Signal(edge, number)),
        _ => Err(LineError::Word),
    }
}

/// Returns what a word after `signal` says that happens on an interrupt.
fn edge_of(text: &[u8]) -> Option<Edge>
    ensures { result ≡ edge_of text.now }
{
    if is_same(text, b"pulse") {
        Some(Edge::Pulse)
    } else if is_same(text, b"rise") {
        Some(Edge::Rise)
    } else if is_same(text, b"fall") {
        Some(Edge::Fall)
    } else {
        None
    }
}

/// Returns the number of a slot, which is below the number of slots.
fn slot_in(slots: u8, word: &[u8]) -> Option<u8>
    ensures { result ≡ slot_in slots word.now }
{
    match number(word) {
        Some(number) if number < u32::from(slots) => Some(number as u8),
        _ => None,
    }
}

/// Reads the word after `save`.
fn read_save(slots: u8, word: Option<&[u8]>) -> Result<Change, LineError>
    ensures { result ≡ read_save slots (option_map (λ w. w.now) word.entry) }
{
    let Some(word) = word else {
        return Err(LineError::Command);
    };
    match slot_in(slots, word) {
        Some(slot) => Ok(Change::Save(slot)),
        None => Err(LineError::Word),
    }
}

/// Reads the word after `back`.
fn read_back(slots: u8, word: Option<&[u8]>) -> Result<Change, LineError>
    ensures { result ≡ read_back slots (option_map (λ w. w.now) word.entry) }
{
    let Some(word) = word else {
        return Err(LineError::Command);
    };
    match slot_in(slots, word) {
        Some(slot) => Ok(Change::Back(slot)),
        None => Err(LineError::Word),
    }
}
