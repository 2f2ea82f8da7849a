//! Slots for states of the machine, whose memory is allocated before a session begins.

ghost use Rattle.std.specs.Prelude.{◌≡◌, ◌<◌, ◌++◌, true, length, slice_index_or, IfErr, IfOk, None, option_map};
ghost use Rattle.std.specs.Prelude.{codes, replicate};
ghost use Rattle.debugger.specs.Answers.{back_piece};
ghost use Rattle.debugger.specs.Slots.{HaveRoom, saved_in, with_saved};
ghost use Rattle.platform.specs.Text.{line_feed};
ghost use Rattle.step_laws.specs.SizeLaw.{AreOfOneBoard};

use debugger_commands::{Reply, ok_text};
use std::alloc::{AllocError, Global};
use std::marker::Model;
use target::Target;

/// Room for a state, and whether one was saved there.
#[derive(Drop)]
struct Slot<T: Target> {
    saved: T::Saved,
    is_saved: bool,
}

impl<T: Target> Model for Slot<T> {
    ghost use Rattle.debugger.specs.Slots.{Slot as TheSlot};

    ghost Value = { TheSlot };

    ghost view = { λ s. record { state = T.saved_state s.saved; is_saved = s.is_saved } };
}

impl<T: Target> Slot<T> {
    /// Saves the state of a machine.
    fn save(&mut self, machine: &T)
        requires { AreOfOneBoard self.old.state.bus (T.model machine.now).state.bus }
        ensures { self.new ≡ record { state = (T.model machine.now).state; is_saved = true } }
    {
        machine.save_to(&mut self.saved);
        self.is_saved = true;
    }
}

/// Slots for states of a machine, each with room for one.
#[derive(Drop)]
pub struct Slots<T: Target> {
    slots: Vec<Slot<T>>,
}

impl<T: Target> Model for Slots<T> {
    ghost use Rattle.std.specs.Prelude.{List, length, ◌<◌};
    ghost use Rattle.debugger.specs.Slots.{Slot as TheSlot};

    ghost Value = { List TheSlot };

    ghost view = { λ s. s.slots.items };

    ghost invariant = { λ s. length s.slots.items < 256 };
}

impl<T: Target> Slots<T> {
    /// Makes `count` slots in which nothing was saved, with room for the states of a machine, or fails where memory
    /// can't be allocated.
    pub fn new(alloc: Global, count: u8, machine: &T) -> Result<Self, AllocError>
        ensures saved { IfOk result (λ slots. saved_in slots ≡ replicate count None) }
        ensures room { IfOk result (λ slots. HaveRoom slots (T.model machine.now).state.bus) }
        ensures some { IfErr result (λ _. 0 < count) }
    {
        let mut slots = Vec::new(alloc);
        'slots: for number in 0..count {
            let _ = number;
            let slot = Slot {
                saved: machine.save(alloc)?,
                is_saved: false,
            };
            slots.push(slot)?;
        }
        Ok(Slots { slots })
    }

    /// Returns how many slots there are.
    pub fn count(&self) -> u8
        ensures { result ≡ length self.now }
    {
        self.slots.len() as u8
    }

    /// Saves the state of a machine in a slot. A slot that isn't there keeps nothing.
    pub fn save(&mut self, slot: u8, machine: &T)
        requires { HaveRoom self.old (T.model machine.now).state.bus }
        ensures { self.new ≡ with_saved self.old slot (T.model machine.now).state }
    {
        let slot = slot as usize;
        if slot < self.slots.len() {
            self.slots[slot].save(machine);
        }
    }

    /// Returns the state that was saved in a slot, if one was.
    fn saved(&self, slot: u8) -> Option<&T::Saved>
        ensures { option_map (λ saved. T.saved_state saved.now) result ≡ slice_index_or (saved_in self.now) slot None }
    {
        let slot = self.slots.get(slot as usize)?;
        if slot.is_saved {
            Some(&slot.saved)
        } else {
            None
        }
    }

    /// Takes a machine back to the state that was saved in a slot. Returns the text of the answer.
    pub fn go_back(&self, slot: u8, machine: &mut T) -> Reply
        requires { HaveRoom self.now (T.model machine.old).state.bus }
        ensures text { result
            ≡ (back_piece (T.model machine.old).state (slice_index_or (saved_in self.now) slot None)).text }
        ensures state { T.model machine.new ≡ record (T.model machine.old) {
          state = (back_piece (T.model machine.old).state (slice_index_or (saved_in self.now) slot None)).state;
        } }
    {
        match self.saved(slot) {
            Some(saved) => {
                machine.restore(saved);
                ok_text()
            }
            None => not_saved_text(),
        }
    }
}

/// Returns the answer to `back` where nothing was saved.
fn not_saved_text() -> Reply
    ensures { result ≡ codes "error 3" ++ line_feed }
{
    let mut page = Reply::new();
    page.put(b"error 3\n");
    page
}
