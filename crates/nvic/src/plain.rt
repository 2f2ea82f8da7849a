//! The exceptions as plain sets, which are searched exception by exception.

ghost use Rattle.std.specs.Prelude.{◌≡◌};
ghost use Rattle.platform.specs.Priorities as spec;

use crate::exceptions::Exceptions;
use crate::numbers::is_always_enabled;
use crate::priorities::{fixed_or, implemented_bits};
use crate::settings::Settings;
use platform::exception::{EXCEPTIONS, Masks, Priority};
use std::marker::Model;

/// The exceptions as plain sets. A contract sees them as the reference's `Nvic`.
#[derive(Drop)]
pub struct PlainExceptions {
    pending: [bool; EXCEPTIONS as usize],
    enabled: [bool; EXCEPTIONS as usize],
    active: [bool; EXCEPTIONS as usize],
    settings: Settings,
    /// The number of pending exceptions.
    waiting: u16,
}

impl Model for PlainExceptions {
    ghost use Rattle.std.specs.Prelude.{◌≡◌, ◌<◌, ◌≤◌};
    ghost use Rattle.nvic.specs.Waiting.{count_in};
    ghost use Rattle.platform.specs.Priorities.{Nvic};
    ghost use Rattle.platform.specs.declared.exception.TheConstants.{MAX_INTERRUPTS};

    ghost Value = { Nvic };

    ghost view = { λ l. record {
      pending = l.pending;
      enabled = l.enabled;
      active = l.active;
      priorities = l.settings.priorities;
      group = l.settings.group;
      masks = l.settings.masks;
      interrupts = l.settings.interrupts;
      priority_bits = l.settings.priority_bits;
    } };

    ghost invariant = { λ l. (l.settings.group < 8) × (l.settings.interrupts ≤ MAX_INTERRUPTS)
        × (l.waiting ≡ count_in l.pending) };
}

impl Exceptions for PlainExceptions {
    ghost content = { λ l. l };

    #[tactic(auto, using(crate::proofs::Waiting::none_at_first))]
    fn fresh(interrupts: u8, priority_bits: u8) -> Self {
        PlainExceptions {
            pending: [false; EXCEPTIONS as usize],
            enabled: [false; EXCEPTIONS as usize],
            active: [false; EXCEPTIONS as usize],
            settings: Settings::fresh(interrupts, priority_bits),
            waiting: 0,
        }
    }

    #[inline]
    #[tactic(auto, using(crate::proofs::Waiting::waiting_set, crate::proofs::Waiting::waiting_room))]
    fn put_pending(&mut self, number: u8, on: bool) {
        self.waiting += u16::from(on);
        self.waiting -= u16::from(self.pending[number as usize]);
        self.pending[number as usize] = on;
    }

    fn put_enabled(&mut self, number: u8, on: bool) {
        self.enabled[number as usize] = on;
    }

    fn put_active(&mut self, number: u8, on: bool) {
        self.active[number as usize] = on;
    }

    fn put_priority(&mut self, number: u8, byte: u8) {
        self.settings.priorities[number as usize] = implemented_bits(
            self.settings.priority_bits,
            byte,
        );
    }

    fn set_group(&mut self, group: u8) {
        self.settings.group = group % 8;
    }

    fn set_masks(&mut self, masks: Masks) {
        self.settings.masks = masks;
    }

    #[inline]
    fn is_pending(&self, number: u16) -> bool {
        number < EXCEPTIONS && self.pending[number as usize]
    }

    #[inline]
    fn is_enabled(&self, number: u16) -> bool {
        is_always_enabled(number) || (number < EXCEPTIONS && self.enabled[number as usize])
    }

    fn is_active(&self, number: u16) -> bool {
        number < EXCEPTIONS && self.active[number as usize]
    }

    #[inline]
    fn settings(&self) -> &Settings {
        &self.settings
    }

    #[tactic(auto, using(crate::proofs::Waiting::none_best), unfolding(platform::specs::Priorities::best))]
    fn best(&self) -> Option<u16> {
        if self.waiting == 0 {
            return None;
        }
        let mut best: Option<u16> = None;
        #[tactic(auto, unfolding(platform::specs::Priorities::best_below))]
        'each: for number in 0..EXCEPTIONS {
            best = self.with_ready(best, number);
        }
        best
    }

    fn copied(&self) -> Self {
        PlainExceptions {
            pending: self.pending,
            enabled: self.enabled,
            active: self.active,
            settings: self.settings,
            waiting: self.waiting,
        }
    }
}

impl PlainExceptions {
    /// Returns the priority of an exception.
    #[inline]
    fn priority_of(&self, number: u16) -> Priority
        ensures { result ≡ spec.priority_of self.now number }
    {
        fixed_or(number, self.priority(number))
    }

    /// Returns whether the exception is pending and enabled.
    #[inline]
    fn is_ready(&self, number: u16) -> bool
        ensures { result ≡ spec.is_ready self.now number }
    {
        self.is_pending(number) && self.is_enabled(number)
    }

    /// Returns the better of one exception, if there is one, and another with a higher number,
    /// where that is pending and enabled.
    #[tactic(auto, unfolding(platform::specs::Priorities::with_ready))]
    #[inline]
    fn with_ready(&self, before: Option<u16>, number: u16) -> Option<u16>
        ensures { result ≡ spec.with_ready self.now number before }
    {
        if self.is_ready(number) {
            self.better_of(before, number)
        } else {
            before
        }
    }

    /// Returns the better of one exception, if there is one, and another with a higher number.
    #[inline]
    fn better_of(&self, before: Option<u16>, number: u16) -> Option<u16>
        ensures { result ≡ spec.better_of self.now before number }
    {
        match before {
            Some(first) if !self.priority_of(number).is_below(self.priority_of(first)) => before,
            _ => Some(number),
        }
    }
}
