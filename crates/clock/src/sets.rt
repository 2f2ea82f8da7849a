//! Sets of exceptions, and what a tick puts into one.

ghost use Rattle.std.specs.Prelude.{◌≡◌, ◌==◌, ◌||◌, ◌<◌, ℕ};
ghost use Rattle.std.specs.List.{list_any};
ghost use Rattle.platform.specs.Priorities.{is_in_words};
ghost use Rattle.platform.specs.Time.{IsSetOf, pends, interrupt_exception, timer_pends};

use crate::timer::SysTick;
use platform::exception::{FIRST_INTERRUPT, NMI, SYS_TICK};
use platform::script::{InterruptNumber, ScriptedEvent, Signal};

/// A set of exceptions: bit n mod 32 of word n / 32 says whether exception n is in it.
pub type Due = [u32; 8];

/// The empty set.
pub const NOTHING: Due = [0; 8];

/// Puts an exception into a set.
#[inline]
#[tactic(auto, using(crate::proofs::Words::put_in))]
fn put(due: &mut Due, number: u8)
    ensures { (n : ℕ) → n < 256 → is_in_words due.new n ≡ ((n == number) || is_in_words due.old n) }
{
    let word = (number / 32) as usize;
    due[word] |= 1 << (number % 32);
}

/// Puts the exception that a signal pends into a set, if there is one.
#[inline]
pub fn put_signal(due: &mut Due, signal: Signal)
    ensures { (n : ℕ) → n < 256 → is_in_words due.new n ≡ (pends signal n || is_in_words due.old n) }
{
    match signal {
        Signal::Rise(interrupt) | Signal::Pulse(interrupt) => put(due, exception_of(interrupt)),
        Signal::Fall(_) | Signal::Poke(_) => {}
        Signal::Nmi => put(due, NMI as u8),
    }
}

fn exception_of(interrupt: InterruptNumber) -> u8
    ensures { result ≡ interrupt_exception interrupt }
{
    FIRST_INTERRUPT as u8 + interrupt.number()
}

/// Returns the set of the exception that a signal pends, if there is one.
pub fn due_by(what: Signal) -> Due
    ensures { IsSetOf result (pends what) }
{
    let mut due = NOTHING;
    put_signal(&mut due, what);
    due
}

/// Returns the set of the exceptions that events pend, and SysTick's next count.
pub fn due_of(events: &[ScriptedEvent], timer: &SysTick) -> Due
    ensures { IsSetOf result (λ n. timer_pends timer.now n || list_any (λ e. pends e.what n) events.now) }
{
    let mut due = NOTHING;
    put_events(&mut due, events);
    put_timer(&mut due, timer);
    due
}

/// Puts the exceptions that events pend into a set.
fn put_events(due: &mut Due, events: &[ScriptedEvent])
    ensures { (n : ℕ) → n < 256 → is_in_words due.new n
        ≡ (list_any (λ e. pends e.what n) events.now || is_in_words due.old n) }
{
    for event in events {
        put_signal(due, event.what);
    }
}

/// Puts SysTick's exception into a set, where its next count pends it.
#[inline]
fn put_timer(due: &mut Due, timer: &SysTick)
    ensures { (n : ℕ) → n < 256 → is_in_words due.new n ≡ (timer_pends timer.now n || is_in_words due.old n) }
{
    if timer.will_pend() {
        put(due, SYS_TICK as u8);
    }
}
