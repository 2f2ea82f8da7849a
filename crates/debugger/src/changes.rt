//! What the debugger answers to the commands that change the machine, or save its state.

ghost use Rattle.std.specs.Prelude.{◌≡◌, ◌≤◌, ◌++◌, length};
ghost use Rattle.debugger.specs.Answers.{after_edge, change_piece, change_text, placed, refusal_text};
ghost use Rattle.debugger.specs.Slots.{HaveRoom, saved_in, slots_by};
ghost use Rattle.target.specs.Placing.{Places};
ghost use Rattle.platform.specs.Text.{line_feed, stop_text};

use crate::slots::Slots;
use debugger_commands::{Change, Edge, Reply, ok_text};
use platform::error::PlaceError;
use platform::exception::MAX_INTERRUPTS;
use platform::script::{InterruptNumber, Signal};
use platform::stop::Stop;
use reference::place::Place;
use target::Target;

/// Changes a machine, or saves its state in a slot. Returns the text of the answer.
pub fn change<T: Target>(machine: &mut T, slots: &mut Slots<T>, what: Change) -> Reply
    requires { HaveRoom slots.old (T.model machine.old).state.bus }
    ensures text { result ≡ (change_piece (T.model machine.old).state (saved_in slots.old) what).text }
    ensures state { T.model machine.new ≡ record (T.model machine.old) {
      state = (change_piece (T.model machine.old).state (saved_in slots.old) what).state;
    } }
    ensures slots { slots.new ≡ slots_by (T.model machine.old).state slots.old what }
{
    match what {
        Change::Place(value) => change_text(place(machine, value)),
        Change::Signal(how, number) => change_text(signal(machine, how, number)),
        Change::Nmi => change_text(machine.signal(&Signal::Nmi)),
        Change::Save(slot) => {
            slots.save(slot, machine);
            ok_text()
        }
        Change::Back(slot) => slots.go_back(slot, machine),
    }
}

/// Puts a value into a register or a word, None into a register that no machine has.
fn place<T: Target>(machine: &mut T, value: Option<Place>) -> Result<(), PlaceError>
    ensures { Places (placed (T.model machine.old).state value) (T.model machine.old) (T.model machine.new) result }
{
    match value {
        Some(value) => machine.alter(value),
        None => Err(PlaceError::NoSuchPlace),
    }
}

/// Does what an event of a script does on the interrupt of a number.
fn signal<T: Target>(machine: &mut T, how: Edge, number: u32) -> Result<(), PlaceError>
    ensures { Places (after_edge (T.model machine.old).state how number)
        (T.model machine.old) (T.model machine.new) result }
{
    if number >= u32::from(MAX_INTERRUPTS) {
        return Err(PlaceError::NoSuchPlace);
    }
    let interrupt = InterruptNumber::new(number as u8);
    machine.signal(&match how {
        Edge::Pulse => Signal::Pulse(interrupt),
        Edge::Rise => Signal::Rise(interrupt),
        Edge::Fall => Signal::Fall(interrupt),
    })
}

/// Returns the text of a change that was made or refused.
fn change_text(changed: Result<(), PlaceError>) -> Reply
    ensures { result ≡ change_text changed }
{
    match changed {
        Ok(()) => ok_text(),
        Err(error) => refusal_text(error),
    }
}

/// Returns the number of a refusal, and its name.
pub fn refusal_text(error: PlaceError) -> Reply
    ensures { result ≡ refusal_text error }
{
    let mut page = Reply::new();
    match error {
        PlaceError::NotAligned => page.put(b"refused 1 NotAligned\n"),
        PlaceError::NoSuchPlace => page.put(b"refused 2 NoSuchPlace\n"),
        PlaceError::Stopped => page.put(b"refused 3 Stopped\n"),
        PlaceError::Refused(stop) => {
            page.put(b"refused 4 Refused ");
            put_stop_words(&mut page, &stop);
        }
    }
    page
}

/// Appends the words of a stop, and a line feed: the line of the stop without its first word.
fn put_stop_words(page: &mut Reply, stop: &Stop)
    requires { length page.old ≤ 64 }
    ensures { page.new ≡ page.old ++ (stop_text stop.now ++ line_feed) }
{
    let mut line = Reply::new();
    line.put_stop(stop);
    let (_, words) = line.as_slice().split_at(5);
    page.put_slice(words);
}
