//! A machine as a session sees it.

use crate::machine::Machine;
use crate::saving::SavedState;
use access::{Decider, Exceptions, KeptCode, SysTickState};
use output::{IoError, LineRoom, Out};
use platform::access::{Decision, Kind};
use platform::error::PlaceError;
use platform::script::Signal;
use platform::stop::Stop;
use platform::system::StatusRegister;
use reference::place::Place;
use std::alloc::{AllocError, Global};
use target::{RegValues, Target};
use task_laws::StepKind;
use trace::sink::Events;

impl<D: Decider, C: KeptCode, L: Exceptions, U: SysTickState> Target for Machine<D, C, L, U> {
    type Saved = SavedState<L, U>;

    ghost model = { λ m. m };

    ghost saved_state = { λ saved. saved };

    fn step(&mut self, events: &mut Events) -> Option<Stop> {
        Machine::step(self, events)
    }

    fn write_step<W: Out>(&mut self, room: &mut LineRoom, out: &mut W) -> Result<(), IoError> {
        Machine::write_step(self, room, out)
    }

    fn alter(&mut self, value: Place) -> Result<(), PlaceError> {
        Machine::alter(self, value)
    }

    fn signal(&mut self, what: &Signal) -> Result<(), PlaceError> {
        Machine::signal(self, what)
    }

    fn save(&self, alloc: Global) -> Result<SavedState<L, U>, AllocError> {
        Machine::save(self, alloc)
    }

    fn save_to(&self, saved: &mut SavedState<L, U>) {
        Machine::save_to(self, saved);
    }

    fn restore(&mut self, saved: &SavedState<L, U>) {
        Machine::restore(self, saved);
    }

    fn stop(&self) -> Option<Stop> {
        Machine::stop(self)
    }

    fn next_kind(&self) -> Option<StepKind> {
        Machine::next_kind(self)
    }

    fn is_task(&self) -> bool {
        Machine::is_task(self)
    }

    fn explain(&self, address: u32, privileged: bool, kind: Kind) -> Decision {
        Machine::explain(self, address, privileged, kind)
    }

    fn regs(&self) -> RegValues {
        Machine::regs(self)
    }

    fn peek_memory_or_device(&self, address: u32) -> Option<u8> {
        Machine::peek_memory_or_device(self, address)
    }

    fn region(&self, number: u8) -> Option<(u32, u32)> {
        Machine::region(self, number)
    }

    fn ticks(&self) -> u64 {
        Machine::ticks(self)
    }

    fn status_word(&self, register: StatusRegister) -> u32 {
        Machine::status_word(self, register)
    }

    fn is_pending(&self, number: u16) -> bool {
        Machine::is_pending(self, number)
    }

    fn is_active(&self, number: u16) -> bool {
        Machine::is_active(self, number)
    }
}
