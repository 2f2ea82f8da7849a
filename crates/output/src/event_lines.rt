//! A sink that writes the text of each event at once, and what writes that of a step's events when it is over.

ghost use Rattle.std.specs.Prelude.{◌≡◌, [], ◌∷◌, Option};
ghost use Rattle.output.specs.Emitting.{BeforeStep, PutsText, PutsUnless, WritesSoFar, emission};
ghost use Rattle.output.specs.Output.{Put};
ghost use Rattle.trace.specs.Selection.{kinds_text, last_printed, selected_text};

use crate::history::History;
use crate::view::View;
use crate::writer::{IoError, LineRoom, Out};
use platform::event::Event;
use std::marker::PhantomData;
use trace::selection::TraceSelection;
use trace::sink::Sink;

/// Writes the text of one step's events that are of the kinds that a view has, of each as it comes. After a text that
/// didn't go out whole, no further one is begun.
#[derive(Drop)]
pub struct EventLines<'a, O: Out, V: View> {
    out: &'a mut O,
    room: &'a mut LineRoom,
    failed: bool,
    // The last byte that these events printed, where the view writes the bytes themselves.
    last: Option<u8>,
    view: PhantomData<V>,
    // The writer before each event, and the event.
    history: History<O, Event>,
    ghost writes: { ∥ WritesSoFar V.SELECTION (emission O.writing out.ghost_name out.now history.items)
        (O.writing out.now) failed ∥₁ },
    ghost ends: { last ≡ last_printed V.SELECTION
        (emission O.writing out.ghost_name out.now history.items).events },
}

impl<'a, O: Out, V: View> EventLines<'a, O, V> {
    /// Makes a sink over a writer, before the first event of a step.
    #[inline(always)]
    pub fn new(out: &'a mut O, room: &'a mut LineRoom) -> EventLines<'a, O, V>
        ensures same_writer { result.out.ghost_name ≡ out.entry.ghost_name }
        ensures now { result.out.now ≡ out.old }
        ensures empty { BeforeStep O.writing result.out.ghost_name result.out.now result.history.items }
    {
        EventLines {
            out,
            room,
            failed: false,
            last: None,
            view: PhantomData,
            history: History::new(),
        }
    }

    /// Returns whether the text of all events went out.
    #[inline(always)]
    pub fn end(&self) -> Result<(), IoError>
        ensures { PutsText V.SELECTION
            (emission O.writing self.now.out.ghost_name self.now.out.now self.now.history.items)
            (O.writing self.now.out.now) result }
    {
        if self.failed { Err(IoError) } else { Ok(()) }
    }

    /// Returns the last byte that the events printed, where the view writes the bytes themselves.
    #[inline(always)]
    pub fn last(&self) -> Option<u8>
        ensures { result ≡ last_printed V.SELECTION
            (emission O.writing self.now.out.ghost_name self.now.out.now self.now.history.items).events }
    {
        self.last
    }
}

impl<'a, O: Out, V: View> Sink for EventLines<'a, O, V> {
    ghost emitted = { λ l. emission O.writing l.out.ghost_name l.out.now l.history.items };

    #[inline(always)]
    fn emit(&mut self, event: Event) {
        let history = self.history.and(self.out, &event);
        self.failed = put_unless(V::SELECTION, self.failed, self.out, self.room, &event);
        self.last = V::SELECTION.last_after(self.last, &event);
        self.history = history;
    }
}

/// Puts the text of an event if its kind is selected, unless an earlier text failed. Returns whether either failed.
#[inline(always)]
fn put_unless<O: Out>(
    selection: TraceSelection,
    failed: bool,
    out: &mut O,
    room: &mut LineRoom,
    event: &Event,
) -> bool
    ensures { PutsUnless failed (O.writing out.old) (O.writing out.new)
        (kinds_text selection (event.now ∷ [])) result }
{
    failed || put_selected(selection, out, room, event).is_err()
}

/// Puts the text of an event if its kind is selected.
#[inline(always)]
fn put_selected<O: Out>(
    selection: TraceSelection,
    out: &mut O,
    room: &mut LineRoom,
    event: &Event,
) -> Result<(), IoError>
    ensures { Put (O.writing out.old) (O.writing out.new) (kinds_text selection (event.now ∷ [])) result }
{
    if !selection.selects(&event.what) {
        return Ok(());
    }
    if !selection.writes_bytes() {
        return out.put_line(room, event);
    }
    match event.what.byte() {
        Some(byte) => out.put_byte(byte),
        None => Ok(()),
    }
}

/// Puts the text of those events of one step that are selected, when the step is over.
pub fn put_step<O: Out>(
    selection: TraceSelection,
    out: &mut O,
    room: &mut LineRoom,
    events: &[Event],
) -> Result<(), IoError>
    ensures { Put (O.writing out.old) (O.writing out.new) (selected_text selection events.now) result }
{
    put_kinds(selection.of_step(events), out, room, events)
}

/// Puts the text of those events whose kinds are selected, of one after another.
fn put_kinds<O: Out>(
    selection: TraceSelection,
    out: &mut O,
    room: &mut LineRoom,
    events: &[Event],
) -> Result<(), IoError>
    ensures { Put (O.writing out.old) (O.writing out.new) (kinds_text selection events.now) result }
{
    'events: for event in events {
        match put_selected(selection, out, room, event) {
            Ok(()) => {}
            Err(error) => return Err(error),
        }
    }
    Ok(())
}
