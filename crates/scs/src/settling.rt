//! The board's devices: accesses to them, pokes, and what their lines do to interrupts (profile).

ghost use Rattle.std.specs.Prelude.{◌≡◌, ◌+◌, ◌^◌, ◌<◌, ◌∷◌, ◌&&◌, [], nat_lt, not, true, IfSome, Some};
ghost use Rattle.devices.specs.Laws.{has_device_at};
ghost use Rattle.devices.specs.Devices.{position_from, read_at};
ghost use Rattle.devices.specs.Lines.{drives};
ghost use Rattle.devices.specs.Pokes.{poked_all};
ghost use Rattle.instruction_set.specs.Sizes.{bytes_in};
ghost use Rattle.platform.specs.Kinds.{is_store};
ghost use Rattle.platform.specs.Outcomes.{IsOf, LeavesUnlessDone};
ghost use Rattle.platform.specs.Priorities.{with_due};
ghost use Rattle.platform.specs.System.{after_pokes, after_signal, after_tick, has_devices, device_access};
ghost use Rattle.platform.specs.System.{loaded_from_device};
ghost use Rattle.platform.specs.System.{on_interrupts, pokes_of, settled, stored_to_device, with_level, with_levels};
ghost use Rattle.scs.specs.LineLevels.{are_pokes, with_due_and_high};

use crate::system::System;
use clock::{Due, HighInterrupts, InterruptNumber, ScriptedEvent, Signal, SysTickState};
use devices::{Devices, Level, Poke, Pokes};
use instruction_set::size::Size;
use mpu::Decider;
use nvic::Exceptions;
use platform::access::{DoneAccess, Performed, Request, Rule};

/// The pokes of events.
#[derive(Clone, Copy)]
struct EventPokes<'a> {
    events: &'a [ScriptedEvent],
}

impl<'a> Pokes for EventPokes<'a> {
    ghost use Rattle.platform.specs.System.{pokes_of};

    ghost pokes = { λ p. pokes_of p.events.now };

    fn last(&self, address: u32) -> Option<u32> {
        let mut last = None;
        'events: for event in self.events {
            if let Signal::Poke(poke) = event.what {
                if poke.address / 4 == address / 4 {
                    last = Some(poke.value);
                }
            }
        }
        last
    }
}

impl<D: Decider, L: Exceptions, U: SysTickState> System<D, L, U> {
    /// Returns whether the board describes devices.
    #[inline]
    #[tactic(auto, using(crate::proofs::Devices::any_by_length))]
    pub fn has_devices(&self) -> bool
        ensures { result ≡ has_devices self.now.devices }
    {
        !self.devices.is_empty()
    }

    /// Returns whether a device has an address.
    pub fn has_device_at(&self, address: u32) -> bool
        ensures { result ≡ has_device_at self.now.devices address }
    {
        self.devices.has_device_at(address)
    }

    /// Returns whether the board has an interrupt, and no device drives it.
    pub fn is_free(&self, interrupt: u8) -> bool
        ensures { result ≡ (nat_lt interrupt self.now.nvic.interrupts && not (drives self.now.devices interrupt)) }
    {
        interrupt < self.exceptions.interrupts() && !self.devices.drives(interrupt)
    }

    /// Returns what a load of this size would read of a device now, if one has the address. Nothing is poked.
    pub fn peek_device(&self, address: u32, size: Size) -> Option<u32>
        ensures value { result ≡ read_at self.now.devices self.now.time.ticks address size }
        ensures small { IfSome result (λ value. value < 256 ^ bytes_in size) }
    {
        self.devices.read(self.clock.now(), address, size)
    }

    /// Returns the number of the first device that has an address.
    pub fn device_at(&self, address: u32) -> Option<usize>
        ensures { result ≡ position_from 0 self.now.devices address }
    {
        self.devices.position(address)
    }

    /// Carries out a load or a store that a rule granted, to a word of the device of this number, the first that has
    /// the address. Then the lines settle.
    #[tactic(auto, using(crate::proofs::Devices::device_leaves_at), unfolding(platform::specs::System::device_access))]
    pub fn access_device(&mut self, at: usize, rule: Rule, request: &Request) -> Performed
        requires { position_from 0 self.old.devices request.now.access.address ≡ Some at }
        ensures system { self.new ≡ (device_access self.old rule request.now).after }
        ensures performed { result ≡ (device_access self.old rule request.now).performed }
        ensures of_request { IsOf request.now result }
        ensures refused { LeavesUnlessDone result self.old self.new }
    {
        if request.access.kind.is_store() {
            self.store_to_device(at, rule, request)
        } else {
            self.load_from_device(at, rule, request)
        }
    }

    /// Loads from the device of this number, the first that has the address.
    fn load_from_device(&mut self, at: usize, rule: Rule, request: &Request) -> Performed
        requires { position_from 0 self.old.devices request.now.access.address ≡ Some at }
        ensures system { self.new ≡ (loaded_from_device self.old rule request.now).after }
        ensures performed { result ≡ (loaded_from_device self.old rule request.now).performed }
        ensures of_request { IsOf request.now result }
    {
        let access = &request.access;
        let value = self
            .devices
            .load_at(at, self.clock.now(), access.address, access.size);
        self.settle();
        Performed::done(rule, value)
    }

    /// Stores to the device of this number, the first that has the address.
    fn store_to_device(&mut self, at: usize, rule: Rule, request: &Request) -> Performed
        requires there { position_from 0 self.old.devices request.now.access.address ≡ Some at }
        requires store { is_store request.now.access.kind ≡ true }
        ensures system { self.new ≡ (stored_to_device self.old rule request.now).after }
        ensures performed { result ≡ (stored_to_device self.old rule request.now).performed }
        ensures of_request { IsOf request.now result }
    {
        let access = &request.access;
        let sent = self.devices.store_at(
            at,
            self.clock.now(),
            access.address,
            access.size,
            request.value,
        );
        self.settle();
        Performed::Done(DoneAccess {
            rule,
            value: 0,
            sent,
        })
    }

    /// Does what an event of the script does, without a tick.
    #[tactic(auto, unfolding(platform::specs::System::after_signal))]
    pub fn signal(&mut self, what: &Signal)
        ensures { self.new ≡ after_signal self.old what.now }
    {
        self.signal_interrupts(what);
        if let Signal::Poke(poke) = what {
            self.poke(*poke);
        }
    }

    /// Pokes a word, after which the lines settle.
    fn poke(&mut self, poke: Poke)
        ensures { self.new ≡ after_pokes self.old (poke ∷ []) }
    {
        self.devices.poke(self.clock.now(), poke);
        self.settle();
    }

    /// Does what a signal does to the exceptions and the interrupts.
    #[tactic(auto, using(nvic::proofs::Due::due_is_pended))]
    fn signal_interrupts(&mut self, what: &Signal)
        ensures { self.new ≡ on_interrupts self.old what.now }
    {
        let due = self.clock.signal(what);
        self.exceptions.pend_due(&due);
    }

    /// Settles the lines of all devices, in the order of the board.
    #[tactic(auto, unfolding(platform::specs::System::settled))]
    pub(crate) fn settle(&mut self)
        ensures { self.new ≡ settled self.old }
    {
        if !self.devices.has_lines() {
            return;
        }
        let levels = self.devices.levels(self.clock.now());
        'levels: for level in levels.as_slice() {
            self.take_level(*level);
        }
    }

    /// An interrupt goes high or low, as the level of its line is. It pends where it goes high.
    fn take_level(&mut self, level: Level)
        ensures { self.new ≡ with_level self.old level }
    {
        let interrupt = InterruptNumber::new(level.number);
        if !level.is_high {
            self.signal_interrupts(&Signal::Fall(interrupt));
        } else if !self.clock.high(level.number) {
            self.signal_interrupts(&Signal::Rise(interrupt));
        }
    }

    /// Returns what the next tick makes pending, with what the lines of devices pend after its pokes.
    #[tactic(auto, using(nvic::proofs::Due::due_is_pended, crate::proofs::Devices::peeked, crate::proofs::Devices::peeked_levels))]
    pub fn peek(&self) -> Due
        requires { self.now.time.ticks < 2 ^ 48 }
        ensures { with_due self.now.nvic result ≡ (after_tick self.now).nvic }
    {
        let due = self.clock.peek();
        let events = self.clock.events_next();
        if !has_pokes(events) {
            return due;
        }
        let levels = self
            .devices
            .levels_after(self.clock.now() + 1, &EventPokes { events });
        self.peek_levels(due, self.clock.high_next(), levels.as_slice())
    }

    /// Returns these exceptions with those that levels of lines make pending after them.
    fn peek_levels(&self, due: Due, high: HighInterrupts, levels: &[Level]) -> Due
        ensures { with_due self.now.nvic result ≡ (with_levels (with_due_and_high self.now due high) levels.now).nvic }
    {
        let mut due = due;
        let mut high = high;
        'levels: for level in levels {
            self.peek_level(&mut due, &mut high, *level);
        }
        due
    }

    /// Applies the level of a line to the exceptions that are due and to the interrupts whose input is high.
    #[tactic(auto, using(crate::proofs::Devices::seen_lemmas))]
    fn peek_level(&self, due: &mut Due, high: &mut HighInterrupts, level: Level)
        ensures { with_level (with_due_and_high self.now due.old high.old) level
            ≡ with_due_and_high self.now due.new high.new }
    {
        let interrupt = InterruptNumber::new(level.number);
        if !level.is_high {
            clock::take_signal(high, Signal::Fall(interrupt));
        } else if !clock::is_high(high, level.number) {
            clock::take_signal(high, Signal::Rise(interrupt));
            clock::put_signal(due, Signal::Rise(interrupt));
        }
    }
}

/// Makes the pokes of events, in their order. Returns whether there were any.
pub(crate) fn poke_by(devices: &mut Devices, ticks: u64, events: &[ScriptedEvent]) -> bool
    ensures after { devices.new ≡ poked_all devices.old ticks (pokes_of events.now) }
    ensures poked { result ≡ are_pokes (pokes_of events.now) }
{
    let mut poked = false;
    'events: for event in events {
        if let Signal::Poke(poke) = event.what {
            devices.poke(ticks, poke);
            poked = true;
        }
    }
    poked
}

/// Returns whether one of some events pokes.
fn has_pokes(events: &[ScriptedEvent]) -> bool
    ensures { result ≡ are_pokes (pokes_of events.now) }
{
    'events: for event in events {
        if let Signal::Poke(_) = event.what {
            return true;
        }
    }
    false
}
