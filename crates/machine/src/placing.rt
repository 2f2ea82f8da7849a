//! Values that `place` puts into a core between its steps.

ghost use Rattle.std.specs.Prelude.{◌≡◌, true};
ghost use Rattle.instruction_set.specs.RowOperands.{special_of};
ghost use Rattle.target.specs.Placing.{PlacesAt};
ghost use Rattle.reference.specs.declared.place.Place.TheVariants.{Word};
ghost use Rattle.platform.specs.Map.{is_in_ppb};
ghost use Rattle.reference.specs.Places.{place, altered, is_there, is_plain, is_wired, is_word_aligned, signalled};
ghost use Rattle.reference.specs.Places.{special_taken, store_of, taken};

use crate::stepping::Processor;
use access::{Decider, Exceptions, KeptCode, SysTickState};
use instruction_set::registers::Register;
use instruction_set::size::Size;
use instruction_set::system::SpecialRegister;
use platform::access::{Access, Kind, Performed, Request, Rule};
use platform::error::PlaceError;
use platform::map::is_in_ppb;
use platform::script::{Poke, Signal};
use reference::place::Place;

/// The number of the stack pointer.
const SP: u8 = 13;

/// The number of the link register.
const LR: u8 = 14;

impl<D: Decider, C: KeptCode, L: Exceptions, U: SysTickState> Processor<D, C, L, U> {
    /// Puts a value into a register or a word.
    #[tactic(auto, unfolding(reference::specs::Places::place))]
    pub fn place(&mut self, value: Place) -> Result<(), PlaceError>
        ensures { PlacesAt (place self.old value) self.old self.new result }
    {
        if !is_word_aligned(value) {
            return Err(PlaceError::NotAligned);
        }
        if !self.is_there(value) {
            return Err(PlaceError::NoSuchPlace);
        }
        if self.stop().is_some() || self.is_in_entry() || self.registers().is_handler() {
            return Err(PlaceError::Stopped);
        }
        self.take(value)
    }

    /// Puts a value into a register or a word, one that neither the mode nor an exception depends on in Handler mode
    /// and in the entry phase too.
    #[tactic(auto, unfolding(reference::specs::Places::altered))]
    pub fn alter(&mut self, value: Place) -> Result<(), PlaceError>
        ensures { PlacesAt (altered self.old value) self.old self.new result }
    {
        if !is_word_aligned(value) {
            return Err(PlaceError::NotAligned);
        }
        if !self.is_there(value) {
            return Err(PlaceError::NoSuchPlace);
        }
        if self.stop().is_some()
            || (!self.is_plain(value) && (self.is_in_entry() || self.registers().is_handler()))
        {
            return Err(PlaceError::Stopped);
        }
        self.take(value)
    }

    /// Does what an event of the script does, without its tick.
    #[tactic(auto, unfolding(reference::specs::Places::signalled))]
    pub fn signal(&mut self, what: &Signal) -> Result<(), PlaceError>
        ensures { PlacesAt (signalled self.old what.now) self.old self.new result }
    {
        if !self.is_wired(what) {
            return Err(PlaceError::NoSuchPlace);
        }
        if self.stop().is_some() {
            return Err(PlaceError::Stopped);
        }
        self.take_signal(what);
        Ok(())
    }

    /// Returns whether there is such a register or such a word.
    fn is_there(&self, value: Place) -> bool
        ensures { result ≡ is_there self.now.bus value }
    {
        match value {
            Place::Reg(number, _) => number < 16,
            Place::Special(number, _) => SpecialRegister::of(number).is_some(),
            Place::Word(address, _) => {
                self.bus().memory().is_in_memory(address, 4)
                    || is_in_ppb(address)
                    || self.bus().system.has_device_at(address)
            }
        }
    }

    /// Returns whether neither the mode nor an exception depends on a place: R0 to R12, LR, or a word of memory.
    fn is_plain(&self, value: Place) -> bool
        ensures { result ≡ is_plain self.now.bus.memory value }
    {
        match value {
            Place::Reg(number, _) => number < SP || number == LR,
            Place::Special(_, _) => false,
            Place::Word(address, _) => {
                self.bus().memory().is_in_memory(address, 4) && !is_in_ppb(address)
            }
        }
    }

    /// Returns whether the board has what a signal is for: an interrupt that no device drives, or the word of a device.
    fn is_wired(&self, what: &Signal) -> bool
        ensures { result ≡ is_wired self.now.bus.system what.now }
    {
        match what {
            Signal::Rise(interrupt) | Signal::Fall(interrupt) | Signal::Pulse(interrupt) => {
                self.bus().system.is_free(interrupt.number())
            }
            Signal::Nmi => true,
            Signal::Poke(poke) => self.bus().system.has_device_at(poke.address),
        }
    }

    /// Puts a value into a register or a word that exists.
    fn take(&mut self, value: Place) -> Result<(), PlaceError>
        requires { is_there self.old.bus value ≡ true }
        ensures { PlacesAt (taken self.old value) self.old self.new result }
    {
        match value {
            Place::Reg(number, value) => {
                self.set_register(Register::new(number), value);
                Ok(())
            }
            Place::Special(number, value) => self.take_special(number, value),
            Place::Word(address, value) => {
                if is_in_ppb(address) {
                    return self.take_register(address, value);
                }
                if self.bus().memory().is_in_memory(address, 4) {
                    self.put_word(address, value);
                } else {
                    self.take_signal(&Signal::Poke(Poke { address, value }));
                }
                Ok(())
            }
        }
    }

    /// Writes a special register as MSR by privileged code in Thread mode does.
    fn take_special(&mut self, number: u8, value: u32) -> Result<(), PlaceError>
        ensures { PlacesAt (special_taken self.old (special_of number) value) self.old self.new result }
    {
        let Some(special) = SpecialRegister::of(number) else {
            return Err(PlaceError::NoSuchPlace);
        };
        self.set_special(special, value);
        Ok(())
    }

    /// Stores a word to the Private Peripheral Bus, as privileged code does. No region decides it.
    fn take_register(&mut self, address: u32, value: u32) -> Result<(), PlaceError>
        requires { is_in_ppb address ≡ true }
        ensures { PlacesAt (taken self.old (Word address value)) self.old self.new result }
    {
        match self.carry_out(Rule::PrivatePeripheralBus, &store_of(address, value)) {
            Performed::Done(_) => Ok(()),
            Performed::Denied(_, _) => Err(PlaceError::NoSuchPlace),
            Performed::Stop(why) => Err(PlaceError::Refused(why)),
        }
    }
}

fn is_word_aligned(value: Place) -> bool
    ensures { result ≡ is_word_aligned value }
{
    match value {
        Place::Reg(_, _) | Place::Special(_, _) => true,
        Place::Word(address, _) => address % 4 == 0,
    }
}

/// Returns a store of a word by privileged code.
fn store_of(address: u32, value: u32) -> Request
    ensures { result ≡ store_of address value }
{
    Request {
        access: Access {
            address,
            kind: Kind::Store,
            size: Size::Word,
            privileged: true,
        },
        value,
    }
}
