//! The exceptions as sets of bits, one for each priority byte.

ghost use Rattle.std.specs.Prelude.{◌≡◌, ◌&&◌, ◌==◌, ◌<◌, ◌+◌, ◌*◌, min, false, not, slice_index, slice_set};
ghost use Rattle.nvic_levels.specs.Sets as sets;
ghost use Rattle.nvic_levels.specs.Sets.{IsWordOf};
ghost use Rattle.platform.specs.declared.exception.TheConstants.{NMI, HARD_FAULT};
ghost use Rattle.platform.specs.Priorities as spec;
ghost use Rattle.platform.specs.Priorities.{is_in_words, is_fixed, is_in, is_ready, highest_active};

use crate::level_sets::LevelSets;
use crate::sets::{Set, empty, has, has_other, put};
use nvic::{Exceptions, Settings, implemented_bits, is_always_enabled};
use platform::exception::{EXCEPTIONS, HARD_FAULT, Masks, NMI, Priority};
use std::marker::Model;

/// The exceptions as sets of bits. A contract sees them as the reference's `Nvic`.
#[derive(Drop)]
pub struct BitLevels {
    /// For each priority byte, the exceptions that are pending and enabled and have it, NMI and
    /// HardFault excepted.
    levels: LevelSets,
    /// What else is pending.
    held: Set,
    enabled: Set,
    active: Set,
    settings: Settings,
}

impl Model for BitLevels {
    ghost use Rattle.std.specs.Prelude.{◌<◌, ◌≤◌};
    ghost use Rattle.nvic_levels.specs.Sets.{flags, is_waiting, IsKept};
    ghost use Rattle.platform.specs.Priorities.{Nvic, is_in_words};
    ghost use Rattle.platform.specs.declared.exception.TheConstants.{MAX_INTERRUPTS};

    ghost Value = { Nvic };

    ghost view = { λ l. record {
      pending = flags (is_waiting l.levels l.held l.settings.priorities);
      enabled = flags (is_in_words l.enabled);
      active = flags (is_in_words l.active);
      priorities = l.settings.priorities;
      group = l.settings.group;
      masks = l.settings.masks;
      interrupts = l.settings.interrupts;
      priority_bits = l.settings.priority_bits;
    } };

    ghost invariant = { λ l. (l.settings.group < 8) × (l.settings.interrupts ≤ MAX_INTERRUPTS)
        × IsKept l.levels l.held l.enabled l.settings.priorities };
}

impl BitLevels {
    /// Returns the set of the exceptions that are pending and enabled and have a priority byte, NMI
    /// and HardFault excepted.
    pub fn level(&self, priority: u8) -> &Set
        ensures { (x : _) → x < 256 → is_in_words result.now x
            ≡ (is_ready self.now x && not (is_fixed x) && (slice_index self.now.priorities x == priority)) }
    {
        self.levels.of(priority)
    }

    /// Makes an exception pending, or not pending any more, in the set where it belongs.
    #[tactic(auto, using(crate::proofs::KeptLevels::put_lemmas))]
    fn put(&mut self, number: u8, on: bool)
        ensures { self.new ≡ record self.old { pending = slice_set self.old.pending number on } }
    {
        if is_levelled(&self.enabled, number) {
            self.levels
                .put_at(self.settings.priorities[number as usize], number, on);
        } else {
            put(&mut self.held, number, on);
        }
    }

    /// Enables or disables an exception that isn't pending.
    #[tactic(auto, using(crate::proofs::KeptLevels::flags_put))]
    fn switch_idle(&mut self, number: u8, on: bool)
        requires { is_in self.old.pending number ≡ false }
        ensures { self.new ≡ record self.old { enabled = slice_set self.old.enabled number on } }
    {
        put(&mut self.enabled, number, on);
    }

    /// Changes the priority byte of an exception that isn't pending.
    fn move_idle(&mut self, number: u8, byte: u8)
        requires { is_in self.old.pending number ≡ false }
        ensures { self.new ≡ record self.old { priorities = slice_set self.old.priorities number byte } }
    {
        self.settings.priorities[number as usize] = byte;
    }

    /// Enables or disables an exception.
    #[tactic(auto, using(crate::proofs::Lists::put_back, crate::proofs::Lists::now_out))]
    fn switch(&mut self, number: u8, on: bool)
        ensures { self.new ≡ record self.old { enabled = slice_set self.old.enabled number on } }
    {
        let waiting = self.is_pending(u16::from(number));
        self.put(number, false);
        self.switch_idle(number, on);
        self.put(number, waiting);
    }

    /// Returns the best exception, where neither NMI nor HardFault is pending.
    fn best_levelled(&self) -> Option<u16>
        requires nmi { is_in self.now.pending NMI ≡ false }
        requires hard_fault { is_in self.now.pending HARD_FAULT ≡ false }
        ensures { result ≡ spec.best self.now }
    {
        match self.levels.first() {
            Some(number) => Some(u16::from(number)),
            None => None,
        }
    }

    /// Returns the highest group priority of the active exceptions up to the last one of a word, from that
    /// of those before the word.
    fn raised_in_word(&self, before: Priority, word: u16, bits: u32) -> Priority
        requires small { word < 8 }
        requires active { IsWordOf self.now.active word bits }
        requires found { before ≡ highest_active self.now (word * 32) }
        ensures { result ≡ highest_active self.now ((word + 1) * 32) }
    {
        let mut least = before;
        let mut number = word * 32;
        let mut rest = bits;
        'bits: while rest != 0 {
            let gap = rest.trailing_zeros();
            number += gap as u16;
            least = self.raised_by(least, number);
            number += 1;
            rest = rest >> gap >> 1;
        }
        least
    }

    /// Returns the higher one of a priority and the group priority of an exception.
    #[inline]
    fn raised_by(&self, before: Priority, number: u16) -> Priority
        ensures { result ≡ min (spec.group_priority self.now number) before }
    {
        let priority = self.group_priority(number);
        if priority.is_below(before) {
            priority
        } else {
            before
        }
    }
}

/// Returns whether an exception is in the set of its priority byte where it's pending: it's
/// enabled, and its priority isn't fixed.
fn is_levelled(enabled: &Set, number: u8) -> bool
    ensures { result ≡ sets.is_levelled enabled.now number }
{
    let is_enabled = is_always_enabled(u16::from(number)) || has(enabled, number);
    is_enabled && !matches!(u16::from(number), NMI | HARD_FAULT)
}

impl Exceptions for BitLevels {
    ghost content = { λ l. l };

    fn fresh(interrupts: u8, priority_bits: u8) -> Self {
        let levels = LevelSets::empty();
        let held = empty();
        let enabled = empty();
        let active = empty();
        BitLevels {
            levels,
            held,
            enabled,
            active,
            settings: Settings::fresh(interrupts, priority_bits),
        }
    }

    fn put_pending(&mut self, number: u8, on: bool) {
        self.put(number, on);
    }

    fn put_enabled(&mut self, number: u8, on: bool) {
        self.switch(number, on);
    }

    #[tactic(auto, using(crate::proofs::KeptLevels::flags_put))]
    fn put_active(&mut self, number: u8, on: bool) {
        put(&mut self.active, number, on);
    }

    #[tactic(auto, using(crate::proofs::Lists::move_lemmas))]
    fn put_priority(&mut self, number: u8, byte: u8) {
        let waiting = self.is_pending(u16::from(number));
        self.put(number, false);
        self.move_idle(number, implemented_bits(self.settings.priority_bits, byte));
        self.put(number, waiting);
    }

    fn set_group(&mut self, group: u8) {
        self.settings.group = group % 8;
    }

    fn set_masks(&mut self, masks: Masks) {
        self.settings.masks = masks;
    }

    #[inline]
    #[tactic(auto, using(crate::proofs::Lists::flag, crate::proofs::Lists::no_flag))]
    fn is_pending(&self, number: u16) -> bool {
        number < EXCEPTIONS
            && (has(&self.held, number as u8)
                || has(
                    self.levels.of(self.settings.priorities[number as usize]),
                    number as u8,
                ))
    }

    #[inline]
    #[tactic(auto, using(crate::proofs::Lists::flag, crate::proofs::Lists::no_flag))]
    fn is_enabled(&self, number: u16) -> bool {
        is_always_enabled(number) || (number < EXCEPTIONS && has(&self.enabled, number as u8))
    }

    #[inline]
    #[tactic(auto, using(crate::proofs::Lists::flag, crate::proofs::Lists::no_flag))]
    fn is_active(&self, number: u16) -> bool {
        number < EXCEPTIONS && has(&self.active, number as u8)
    }

    fn is_other_active(&self, number: u16) -> bool {
        has_other(&self.active, number)
    }

    #[inline]
    fn settings(&self) -> &Settings {
        &self.settings
    }

    #[tactic(auto, using(crate::proofs::First::best_nmi, crate::proofs::First::best_hard_fault))]
    fn best(&self) -> Option<u16> {
        if self.is_pending(NMI) {
            Some(NMI)
        } else if self.is_pending(HARD_FAULT) {
            Some(HARD_FAULT)
        } else {
            self.best_levelled()
        }
    }

    fn active_priority(&self) -> Priority {
        let mut least = Priority::LOWEST;
        #[tactic(auto, using(crate::proofs::Active::word_lemmas))]
        'words: for word in 0..8u16 {
            let bits = self.active[word as usize];
            if bits != 0 {
                least = self.raised_in_word(least, word, bits);
            }
        }
        least
    }

    fn copied(&self) -> Self {
        let BitLevels {
            levels,
            held,
            enabled,
            active,
            settings,
        } = self;
        BitLevels {
            levels: levels.copied(),
            held: *held,
            enabled: *enabled,
            active: *active,
            settings: *settings,
        }
    }
}
