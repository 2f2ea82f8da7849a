//! The state of the exceptions, however it is kept: a trait with one contract.

ghost use Rattle.std.specs.Prelude.{◌≡◌, ◌+◌, ◌*◌, ◌<◌, ◌≤◌, true, false, min, nat_lt, slice_index, IfSome};
ghost use Rattle.nvic.specs.Settings.{settings_of};
ghost use Rattle.platform.specs.declared.exception.TheConstants.{EXCEPTIONS, MAX_INTERRUPTS};
ghost use Rattle.platform.specs.Priorities as spec;
ghost use Rattle.platform.specs.Priorities.{Nvic, is_in, highest_active, escalation, with_pending, with_active};
ghost use Rattle.platform.specs.Priorities.{with_enabled, with_priority, with_group, with_primask, with_faultmask};
ghost use Rattle.platform.specs.Priorities.{with_basepri, with_due, with_due_at, with_due_below, reset_nvic};

use crate::numbers::{
    can_be_disabled, has_priority_byte, is_empty, is_exception, is_in_words, is_interrupt,
};
use crate::priorities::{boosted, fixed_or, grouped, implemented_bits};
use crate::settings::Settings;
use platform::exception::{EXCEPTIONS, Escalation, HARD_FAULT, Masks, NMI, Priority};

/// The exceptions of a board: which are pending, enabled and active, their priorities, the masks.
///
/// A `number` is that of an exception, as IPSR has it: 2 to 6, 11, 14, 15, and 16 + k for interrupt k of
/// the board. Any other number is accepted too: it's in no set, and nothing puts it into one.
pub trait Exceptions: Drop {
    ghost content: { Self → Nvic };

    /// Returns the state after a reset, on a board with `interrupts` interrupts (240 at most; the others are
    /// ignored) whose priority bytes keep their top `priority_bits` bits.
    fn fresh(interrupts: u8, priority_bits: u8) -> Self
        ensures { content result ≡ reset_nvic interrupts priority_bits };

    /// Makes an exception of the board pending, or no longer pending.
    fn put_pending(&mut self, number: u8, on: bool)
        requires { spec.is_exception (content self.old).interrupts number ≡ true }
        ensures { content self.new ≡ with_pending (content self.old) number on };

    /// Enables or disables an exception of the board that can be disabled.
    fn put_enabled(&mut self, number: u8, on: bool)
        requires { spec.can_be_disabled (content self.old).interrupts number ≡ true }
        ensures { content self.new ≡ with_enabled (content self.old) number on };

    /// Makes an exception of the board active, or inactive.
    fn put_active(&mut self, number: u8, on: bool)
        requires { spec.is_exception (content self.old).interrupts number ≡ true }
        ensures { content self.new ≡ with_active (content self.old) number on };

    /// Sets the priority byte of an exception that has one. The board keeps its top bits.
    fn put_priority(&mut self, number: u8, byte: u8)
        requires { spec.has_priority_byte (content self.old).interrupts number ≡ true }
        ensures { content self.new ≡ with_priority (content self.old) number byte };

    /// Sets AIRCR.PRIGROUP from the low three bits.
    fn set_group(&mut self, group: u8)
        ensures { content self.new ≡ with_group (content self.old) group };

    /// Sets PRIMASK, FAULTMASK and BASEPRI.
    fn set_masks(&mut self, masks: Masks)
        ensures { content self.new ≡ record (content self.old) { masks = masks } };

    /// Returns whether the exception is pending.
    fn is_pending(&self, number: u16) -> bool
        ensures { result ≡ is_in (content self.now).pending number };

    /// Returns whether the exception is enabled.
    fn is_enabled(&self, number: u16) -> bool
        ensures { result ≡ spec.is_enabled (content self.now) number };

    /// Returns whether the exception is active.
    fn is_active(&self, number: u16) -> bool
        ensures { result ≡ is_in (content self.now).active number };

    /// Returns the priority bytes, the masks and the numbers of the board.
    fn settings(&self) -> &Settings
        ensures value { result.now ≡ settings_of (content self.now) }
        ensures small { result.now.group < 8 }
        ensures few { result.now.interrupts ≤ MAX_INTERRUPTS };

    /// Returns the best of the exceptions that are pending and enabled, whatever is active or
    /// masked.
    fn best(&self) -> Option<u16>
        ensures { result ≡ spec.best (content self.now) };

    fn copied(&self) -> Self
        ensures { content result ≡ content self.now };

    /// Makes the exception pending.
    #[inline]
    fn pend(&mut self, number: u16)
        ensures { content self.new ≡ with_pending (content self.old) number true }
    {
        if is_exception(self.interrupts(), number) {
            self.put_pending(number as u8, true);
        }
    }

    /// Makes the exception no longer pending.
    fn clear(&mut self, number: u16)
        ensures { content self.new ≡ with_pending (content self.old) number false }
    {
        if is_exception(self.interrupts(), number) {
            self.put_pending(number as u8, false);
        }
    }

    /// Enables MemManage, BusFault, UsageFault or an interrupt. The others always are enabled.
    fn enable(&mut self, number: u16)
        ensures { content self.new ≡ with_enabled (content self.old) number true }
    {
        if can_be_disabled(self.interrupts(), number) {
            self.put_enabled(number as u8, true);
        }
    }

    /// Disables MemManage, BusFault, UsageFault or an interrupt. The others don't change.
    fn disable(&mut self, number: u16)
        ensures { content self.new ≡ with_enabled (content self.old) number false }
    {
        if can_be_disabled(self.interrupts(), number) {
            self.put_enabled(number as u8, false);
        }
    }

    /// Makes the exception active.
    fn activate(&mut self, number: u16)
        ensures { content self.new ≡ with_active (content self.old) number true }
    {
        if is_exception(self.interrupts(), number) {
            self.put_active(number as u8, true);
        }
    }

    /// Makes the exception inactive.
    fn deactivate(&mut self, number: u16)
        ensures { content self.new ≡ with_active (content self.old) number false }
    {
        if is_exception(self.interrupts(), number) {
            self.put_active(number as u8, false);
        }
    }

    /// Sets the exception's priority byte, of which the board keeps the top bits. The priorities of
    /// NMI and HardFault don't change.
    fn set_priority(&mut self, number: u16, byte: u8)
        ensures { content self.new ≡ with_priority (content self.old) number byte }
    {
        if has_priority_byte(self.interrupts(), number) {
            self.put_priority(number as u8, byte);
        }
    }

    /// Sets PRIMASK.
    fn set_primask(&mut self, on: bool)
        ensures { content self.new ≡ with_primask (content self.old) on }
    {
        let mut masks = self.masks();
        masks.primask = on;
        self.set_masks(masks);
    }

    /// Sets FAULTMASK, whatever the execution priority is.
    fn set_faultmask(&mut self, on: bool)
        ensures { content self.new ≡ with_faultmask (content self.old) on }
    {
        let mut masks = self.masks();
        masks.faultmask = on;
        self.set_masks(masks);
    }

    /// Sets BASEPRI, of which the board keeps the top bits.
    fn set_basepri(&mut self, byte: u8)
        ensures { content self.new ≡ with_basepri (content self.old) byte }
    {
        let mut masks = self.masks();
        masks.basepri = implemented_bits(self.priority_bits(), byte);
        self.set_masks(masks);
    }

    /// Returns the priority byte of the exception, 0 where it has none.
    #[inline]
    fn priority(&self, number: u16) -> u8
        ensures { result ≡ slice_index (content self.now).priorities number }
    {
        self.settings().priority(number)
    }

    /// Returns AIRCR.PRIGROUP, from 0 to 7.
    #[inline]
    fn group(&self) -> u8
        ensures value { result ≡ (content self.now).group }
        ensures small { result < 8 }
    {
        self.settings().group
    }

    #[inline]
    fn masks(&self) -> Masks
        ensures { result ≡ (content self.now).masks }
    {
        self.settings().masks
    }

    /// Returns how many interrupts the board has, at most 240.
    #[inline]
    fn interrupts(&self) -> u8
        ensures value { result ≡ (content self.now).interrupts }
        ensures few { result ≤ MAX_INTERRUPTS }
    {
        self.settings().interrupts
    }

    /// Returns how many of the top bits of a priority byte the board keeps.
    #[inline]
    fn priority_bits(&self) -> u8
        ensures { result ≡ (content self.now).priority_bits }
    {
        self.settings().priority_bits
    }

    /// Returns the highest group priority (the least number) of the active exceptions, or the
    /// lowest priority if none is active.
    fn active_priority(&self) -> Priority
        ensures { result ≡ highest_active (content self.now) EXCEPTIONS }
    {
        let mut least = Priority::LOWEST;
        #[tactic(auto, unfolding(platform::specs::Priorities::highest_active))]
        'each: for number in 0..EXCEPTIONS {
            if self.is_active(number) {
                let priority = self.group_priority(number);
                if priority.is_below(least) {
                    least = priority;
                }
            }
        }
        least
    }

    /// Pends each exception in `due`: exception n is bit n mod 32 of word n / 32.
    #[tactic(auto, using(crate::proofs::Sets::none_added))]
    fn pend_due(&mut self, due: &[u32; 8])
        ensures { content self.new ≡ with_due (content self.old) due.now }
    {
        if is_empty(due) {
            return;
        }
        #[tactic(auto, using(crate::proofs::Sets::empty_word), unfolding(platform::specs::Priorities::with_due_below))]
        'words: for word in 0..8u16 {
            if due[word as usize] != 0 {
                self.pend_word(due, word);
            }
        }
    }

    /// Pends the exceptions of one word that are due, after those of the words before it.
    fn pend_word(&mut self, due: &[u32; 8], word: u16)
        requires { word < 8 }
        ensures { (n : Nvic) → content self.old ≡ with_due_below n due.now (word * 32) → content self.new
            ≡ with_due_below n due.now ((word + 1) * 32) }
    {
        #[tactic(auto, unfolding(platform::specs::Priorities::with_due_below))]
        'each: for number in word * 32..(word + 1) * 32 {
            self.pend_if_due(due, number);
        }
    }

    /// Pends an exception where it is in `due`.
    #[tactic(auto, unfolding(platform::specs::Priorities::with_due_at))]
    #[inline]
    fn pend_if_due(&mut self, due: &[u32; 8], number: u16)
        requires { number < 256 }
        ensures { content self.new ≡ with_due_at (content self.old) due.now number }
    {
        if is_in_words(due, number) {
            self.pend(number);
        }
    }

    /// Returns whether an interrupt is pending, enabled or not: ICSR.ISRPENDING.
    #[tactic(auto, unfolding(platform::specs::Priorities::is_interrupt_pending))]
    fn is_interrupt_pending(&self) -> bool
        ensures { result ≡ spec.is_interrupt_pending (content self.now) }
    {
        let mut found = false;
        #[tactic(auto, unfolding(platform::specs::Priorities::some_below))]
        'each: for number in 0..EXCEPTIONS {
            found = found || (is_interrupt(self.interrupts(), number) && self.is_pending(number));
        }
        found
    }

    /// Returns whether another exception than this one is active.
    #[tactic(auto, unfolding(platform::specs::Priorities::is_other_active))]
    fn is_other_active(&self, number: u16) -> bool
        ensures { result ≡ spec.is_other_active (content self.now) number }
    {
        let mut found = false;
        #[tactic(auto, unfolding(platform::specs::Priorities::some_below))]
        'each: for other in 0..EXCEPTIONS {
            found = found || (other != number && self.is_active(other));
        }
        found
    }

    /// Returns what would be the candidate with these exceptions pending too (bit n mod 32 of word
    /// n / 32 for exception n), and with this PRIMASK.
    #[tactic(auto, unfolding(platform::specs::Priorities::candidate_after))]
    fn candidate_after(&self, due: &[u32; 8], primask: bool) -> Option<u16>
        ensures { result ≡ spec.candidate_after (content self.now) due.now primask }
    {
        let mut after = self.copied();
        after.pend_due(due);
        after.set_primask(primask);
        after.candidate()
    }

    /// `ExecutionPriority()`.
    #[tactic(auto, unfolding(platform::specs::Priorities::execution_priority))]
    fn execution_priority(&self) -> Priority
        ensures { result ≡ spec.execution_priority (content self.now) }
    {
        self.priority_under(self.masks())
    }

    /// Returns the execution priority under these masks.
    fn priority_under(&self, masks: Masks) -> Priority
        ensures { result ≡ min (highest_active (content self.now) EXCEPTIONS)
            (spec.boosted (content self.now).group masks) }
    {
        let held = self.active_priority();
        let masked = boosted(self.group(), masks);
        if masked.is_below(held) { masked } else { held }
    }

    /// Returns whether the execution priority is below 0: where FAULTMASK is set, or NMI or HardFault is
    /// active.
    #[tactic(auto, using(crate::proofs::BelowZero::below_zero))]
    fn is_below_zero(&self) -> bool
        ensures { result ≡ spec.is_below_zero (content self.now) }
    {
        self.masks().faultmask || self.is_active(NMI) || self.is_active(HARD_FAULT)
    }

    /// Returns the group priority of an exception.
    fn group_priority(&self, number: u16) -> Priority
        ensures { result ≡ spec.group_priority (content self.now) number }
    {
        fixed_or(number, grouped(self.group(), self.priority(number)))
    }

    /// Returns whether an exception preempts: its group priority is a lower number than the execution
    /// priority.
    fn preempts(&self, number: u16) -> bool
        ensures { result ≡ nat_lt (spec.group_priority (content self.now) number)
            (spec.execution_priority (content self.now)) }
    {
        let limit = self.execution_priority();
        self.group_priority(number).is_below(limit)
    }

    /// Returns the exception that is taken next: the best one, where it preempts.
    #[tactic(auto, unfolding(platform::specs::Priorities::candidate))]
    fn candidate(&self) -> Option<u16>
        ensures value { result ≡ spec.candidate (content self.now) }
        ensures small { IfSome result (λ number. number < EXCEPTIONS) }
    {
        let best = self.best()?;
        if self.preempts(best) {
            Some(best)
        } else {
            None
        }
    }

    /// Returns what would be the candidate if PRIMASK were 0. Below priority 0 only NMI can be it, so
    /// only NMI is tested there.
    #[tactic(auto, using(crate::proofs::Unmasked::unmasked, crate::proofs::Unmasked::below_zero_nmi))]
    fn candidate_unmasked(&self) -> Option<u16>
        ensures { result ≡ spec.candidate_unmasked (content self.now) }
    {
        if self.is_below_zero() {
            return if self.is_pending(NMI) && !self.is_active(NMI) {
                Some(NMI)
            } else {
                None
            };
        }
        let best = self.best()?;
        let mut masks = self.masks();
        masks.primask = false;
        if self
            .group_priority(best)
            .is_below(self.priority_under(masks))
        {
            Some(best)
        } else {
            None
        }
    }

    /// Returns how a fault or SVC of the exception of this number escalates.
    #[tactic(auto, unfolding(platform::specs::Priorities::escalation))]
    fn escalate(&self, number: u16) -> Escalation
        ensures { result ≡ escalation (content self.now) number }
    {
        if self.is_enabled(number) && self.preempts(number) {
            Escalation::Itself
        } else if self.is_below_zero() {
            Escalation::Lockup
        } else {
            Escalation::HardFault
        }
    }
}
