//! Which numbers exceptions have, and what can be done with each.

ghost use Rattle.std.specs.Prelude.{◌≡◌, ◌+◌, ◌<◌, ◌≤◌, ℕ, true, false};
ghost use Rattle.platform.specs.declared.exception.TheConstants.{EXCEPTIONS};
ghost use Rattle.platform.specs.Priorities as spec;

use platform::exception::{
    FIRST_INTERRUPT, HARD_FAULT, MEM_MANAGE, NMI, PEND_SV, SV_CALL, SYS_TICK, USAGE_FAULT,
};

/// Returns whether an exception's priority is fixed: that of NMI or HardFault.
#[inline]
fn is_fixed(number: u16) -> bool
    ensures { result ≡ spec.is_fixed number }
{
    matches!(number, NMI | HARD_FAULT)
}

/// Returns whether an exception can't be disabled: NMI, HardFault, SVCall, PendSV or SysTick.
#[inline]
pub fn is_always_enabled(number: u16) -> bool
    ensures { result ≡ spec.is_always_enabled number }
{
    is_fixed(number) || matches!(number, SV_CALL | PEND_SV | SYS_TICK)
}

/// Returns whether an exception is an external interrupt, that of an interrupt of the board.
#[inline]
pub fn is_interrupt(interrupts: u8, number: u16) -> bool
    ensures { result ≡ spec.is_interrupt interrupts number }
{
    number >= FIRST_INTERRUPT && number - FIRST_INTERRUPT < interrupts as u16
}

/// Returns whether an exception can be disabled: MemManage, BusFault, UsageFault or an interrupt of
/// the board.
#[inline]
pub fn can_be_disabled(interrupts: u8, number: u16) -> bool
    ensures { result ≡ spec.can_be_disabled interrupts number }
{
    matches!(number, MEM_MANAGE..=USAGE_FAULT) || is_interrupt(interrupts, number)
}

/// Returns whether an exception of the board has that number.
#[inline]
pub fn is_exception(interrupts: u8, number: u16) -> bool
    ensures { result ≡ spec.is_exception interrupts number }
{
    is_always_enabled(number) || can_be_disabled(interrupts, number)
}

/// Returns whether an exception has a priority byte.
#[inline]
pub fn has_priority_byte(interrupts: u8, number: u16) -> bool
    ensures { result ≡ spec.has_priority_byte interrupts number }
{
    is_exception(interrupts, number) && !is_fixed(number)
}

/// Returns whether a set of bits has a number: bit n mod 32 of word n / 32.
#[inline]
pub fn is_in_words(due: &[u32; 8], number: u16) -> bool
    requires { number < 256 }
    ensures { result ≡ spec.is_in_words due.now number }
{
    due[(number / 32) as usize] >> (number % 32) & 1 == 1
}

/// Returns whether such a set has no number.
#[inline]
#[tactic(auto, using(crate::proofs::Sets::none_in_zeros))]
pub fn is_empty(set: &[u32; 8]) -> bool
    ensures { result ≡ true → (x : ℕ) → x < EXCEPTIONS → spec.is_in_words set.now x ≡ false }
{
    set[0] | set[1] | set[2] | set[3] | set[4] | set[5] | set[6] | set[7] == 0
}
