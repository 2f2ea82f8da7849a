//! Exceptions with three cached values that each step reads.

ghost use Rattle.std.specs.Prelude.{◌≡◌};
ghost use Rattle.platform.specs.declared.exception.TheConstants.{EXCEPTIONS};
ghost use Rattle.platform.specs.Priorities as spec;
ghost use Rattle.platform.specs.Priorities.{highest_active};

use nvic::{Exceptions, Settings};
use platform::exception::{Masks, Priority};

/// The exceptions of an `L`, and three cached values: the best of them, the highest group priority (the
/// least number) of the active ones, and whether the execution priority is below 0. They always equal
/// what the `L` would return: each change computes anew what it may change.
#[derive(Drop)]
pub struct KeptPriorities<L: Exceptions> {
    levels: L,
    best: Option<u16>,
    active_priority: Priority,
    below_zero: bool,
    ghost best_known: { best ≡ spec.best (L.content levels) },
    ghost active_known: { active_priority ≡ highest_active (L.content levels) EXCEPTIONS },
    ghost below_known: { below_zero ≡ spec.is_below_zero (L.content levels) },
}

impl<L: Exceptions> KeptPriorities<L> {
    pub fn levels(&self) -> &L
        ensures { result.now ≡ self.now.levels }
    {
        &self.levels
    }
}

impl<L: Exceptions> Exceptions for KeptPriorities<L> {
    ghost content = { λ k. L.content k.levels };

    fn fresh(interrupts: u8, priority_bits: u8) -> Self {
        let levels = L::fresh(interrupts, priority_bits);
        let best = levels.best();
        let active_priority = levels.active_priority();
        let below_zero = levels.is_below_zero();
        KeptPriorities {
            levels,
            best,
            active_priority,
            below_zero,
        }
    }

    #[tactic(auto, using(crate::proofs::Alike::best_of_idle, crate::proofs::Alike::least_of_pending))]
    fn put_pending(&mut self, number: u8, on: bool) {
        self.levels.put_pending(number, on);
        self.below_zero = self.levels.is_below_zero();
        if self.levels.is_enabled(u16::from(number)) {
            self.best = self.levels.best();
        }
    }

    #[tactic(auto, using(crate::proofs::Alike::least_of_enabled))]
    fn put_enabled(&mut self, number: u8, on: bool) {
        self.levels.put_enabled(number, on);
        self.below_zero = self.levels.is_below_zero();
        self.best = self.levels.best();
    }

    #[tactic(auto, using(crate::proofs::Alike::best_of_active))]
    fn put_active(&mut self, number: u8, on: bool) {
        self.levels.put_active(number, on);
        self.below_zero = self.levels.is_below_zero();
        self.active_priority = self.levels.active_priority();
    }

    fn put_priority(&mut self, number: u8, byte: u8) {
        self.levels.put_priority(number, byte);
        self.below_zero = self.levels.is_below_zero();
        self.best = self.levels.best();
        self.active_priority = self.levels.active_priority();
    }

    #[tactic(auto, using(crate::proofs::Alike::best_of_group))]
    fn set_group(&mut self, group: u8) {
        self.levels.set_group(group);
        self.below_zero = self.levels.is_below_zero();
        self.active_priority = self.levels.active_priority();
    }

    #[tactic(auto, using(crate::proofs::Alike::best_of_masks, crate::proofs::Alike::least_of_masks))]
    fn set_masks(&mut self, masks: Masks) {
        self.levels.set_masks(masks);
        self.below_zero = self.levels.is_below_zero();
    }

    #[inline]
    fn is_pending(&self, number: u16) -> bool {
        self.levels.is_pending(number)
    }

    #[inline]
    fn is_enabled(&self, number: u16) -> bool {
        self.levels.is_enabled(number)
    }

    #[inline]
    fn is_active(&self, number: u16) -> bool {
        self.levels.is_active(number)
    }

    fn is_other_active(&self, number: u16) -> bool {
        self.levels.is_other_active(number)
    }

    #[inline]
    fn settings(&self) -> &Settings {
        self.levels.settings()
    }

    #[inline]
    fn active_priority(&self) -> Priority {
        self.active_priority
    }

    #[inline]
    fn best(&self) -> Option<u16> {
        self.best
    }

    #[inline]
    fn is_below_zero(&self) -> bool {
        self.below_zero
    }

    fn copied(&self) -> Self {
        KeptPriorities {
            levels: self.levels.copied(),
            best: self.best,
            active_priority: self.active_priority,
            below_zero: self.below_zero,
        }
    }
}
