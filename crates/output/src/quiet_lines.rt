//! A sink that writes the text of each event at once, where there is room for it.

ghost use Rattle.std.specs.Prelude.{◌≡◌, ◌≤◌, ◌+◌, ◌*◌, true, false, [], ◌∷◌, None, length, Option};
ghost use Rattle.output.specs.Emitting.{BeforeStep, WritesSoFar, emission};
ghost use Rattle.output.specs.Output.{WritesAll};
ghost use Rattle.platform.specs.Text.{hex_word};
ghost use Rattle.reference.specs.Accesses.{accessed};
ghost use Rattle.reference.specs.LoadStore.{fetch_at};
ghost use Rattle.trace.specs.Selection.{kinds_text, last_printed};

use crate::history::History;
use crate::view::View;
use crate::writer::{LineRoom, Out};
use platform::event::Event;
use std::marker::PhantomData;
use trace::line_end::FetchEnd;
use trace::selection::TraceSelection;
use trace::sink::{Sink, fetch_event};

/// Writes the text of one step's events that are of the kinds that a view has, of each as it comes, where there is room
/// for all of them.
#[derive(Drop)]
pub struct QuietLines<'a, O: Out, V: View> {
    out: &'a mut O,
    room: &'a mut LineRoom,
    // The last byte that these events printed, where the view writes the bytes themselves.
    last: Option<u8>,
    view: PhantomData<V>,
    // The writer before each event, and the event.
    history: History<O, Event>,
    ghost gathers: { O.gathers ≡ true },
    ghost writes: { ∥ WritesSoFar V.SELECTION (emission O.writing out.ghost_name out.now history.items)
        (O.writing out.now) false ∥₁ },
    ghost ends: { last ≡ last_printed V.SELECTION
        (emission O.writing out.ghost_name out.now history.items).events },
    ghost fits: { 0xB00 ≤ O.room out.now
        + 64 * length (emission O.writing out.ghost_name out.now history.items).events },
}

impl<'a, O: Out, V: View> QuietLines<'a, O, V> {
    /// Makes a sink over a writer, before the first event of a step.
    #[inline(always)]
    pub fn new(out: &'a mut O, room: &'a mut LineRoom) -> QuietLines<'a, O, V>
        requires gathers { O.gathers ≡ true }
        requires room { 0xB00 ≤ O.room out.old }
        ensures same_writer { result.out.ghost_name ≡ out.entry.ghost_name }
        ensures now { result.out.now ≡ out.old }
        ensures empty { BeforeStep O.writing result.out.ghost_name result.out.now result.history.items }
    {
        QuietLines {
            out,
            room,
            last: None,
            view: PhantomData,
            history: History::new(),
        }
    }

    /// Shows that the text of all events went out, and how much room is left.
    #[inline(always)]
    pub fn end(&self)
        ensures text { WritesSoFar V.SELECTION
            (emission O.writing self.now.out.ghost_name self.now.out.now self.now.history.items)
            (O.writing self.now.out.now) false }
        ensures room { 0xB00 ≤ O.room self.now.out.now + 64 * length
            (emission O.writing self.now.out.ghost_name self.now.out.now self.now.history.items).events }
    {}

    /// Returns the last byte that the events printed, where the view writes the bytes themselves.
    #[inline(always)]
    pub fn last(&self) -> Option<u8>
        ensures { result ≡ last_printed V.SELECTION
            (emission O.writing self.now.out.ghost_name self.now.out.now self.now.history.items).events }
    {
        self.last
    }
}

impl<'a, O: Out, V: View> Sink for QuietLines<'a, O, V> {
    ghost emitted = { λ l. emission O.writing l.out.ghost_name l.out.now l.history.items };

    #[inline(always)]
    fn emit(&mut self, event: Event) {
        let history = self.history.and(self.out, &event);
        put_within(V::SELECTION, self.out, self.room, &event);
        self.last = V::SELECTION.last_after(self.last, &event);
        self.history = history;
    }

    #[inline(always)]
    fn emit_fetch(&mut self, tick: u64, address: u32, digits: &[u8; 8], end: &FetchEnd) {
        let event = fetch_event(tick, address, end);
        let history = self.history.and(self.out, &event);
        put_fetch(
            V::SELECTION,
            self.out,
            self.room,
            tick,
            address,
            digits,
            end,
        );
        self.last = V::SELECTION.last_after(self.last, &event);
        self.history = history;
    }
}

/// Puts the text of an event if its kind is selected. There is room for it.
#[inline(always)]
fn put_within<O: Out>(selection: TraceSelection, out: &mut O, room: &mut LineRoom, event: &Event)
    requires gathers { O.gathers ≡ true }
    requires room { 64 ≤ O.room out.old }
    ensures put { WritesAll (O.writing out.old) (O.writing out.new) (kinds_text selection (event.now ∷ [])) }
    ensures room { O.room out.old ≤ O.room out.new + 64 }
{
    if !selection.selects(&event.what) {
        return;
    }
    if !selection.writes_bytes() {
        out.put_within(room, event);
        return;
    }
    match event.what.byte() {
        Some(byte) => out.put_byte_within(byte),
        None => {}
    }
}

/// Puts the line of a fetch that was done, if lines of such accesses are written. There is room for it.
#[inline(always)]
fn put_fetch<O: Out>(
    selection: TraceSelection,
    out: &mut O,
    room: &mut LineRoom,
    tick: u64,
    address: u32,
    digits: &[u8; 8],
    end: &FetchEnd,
)
    requires gathers { O.gathers ≡ true }
    requires room { 64 ≤ O.room out.old }
    requires digits { digits.now ≡ hex_word address }
    ensures put { WritesAll (O.writing out.old) (O.writing out.new)
        (kinds_text selection (accessed tick (fetch_at address end.now.privileged) end.now.rule None ∷ [])) }
    ensures room { O.room out.old ≤ O.room out.new + 64 }
{
    let _address = address;
    if selection.has_done_accesses() {
        out.put_fetch(room, tick, digits, end);
    }
}
