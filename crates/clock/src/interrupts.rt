//! Which external interrupts are high.

ghost use Rattle.std.specs.Prelude.{◌≡◌, false, slice_index_or};
ghost use Rattle.platform.specs.Time.{with_signal, with_events};

use platform::exception::MAX_INTERRUPTS;
use platform::script::{InterruptNumber, ScriptedEvent, Signal};

/// How many interrupts there can be.
pub const INTERRUPTS: usize = MAX_INTERRUPTS as usize;

/// For each interrupt, whether it is high.
pub type HighInterrupts = [bool; INTERRUPTS];

/// Returns whether an interrupt is high: never for a number from 240 on.
#[inline]
pub fn is_high(high: &HighInterrupts, interrupt: u8) -> bool
    ensures { result ≡ slice_index_or high.now interrupt false }
{
    if (interrupt as usize) < INTERRUPTS {
        high[interrupt as usize]
    } else {
        false
    }
}

/// Applies a signal to the interrupts.
pub fn take_signal(high: &mut HighInterrupts, signal: Signal)
    ensures { high.new ≡ with_signal high.old signal }
{
    match signal {
        Signal::Rise(interrupt) => high[interrupt.number() as usize] = true,
        Signal::Fall(interrupt) => high[interrupt.number() as usize] = false,
        Signal::Pulse(_) | Signal::Nmi | Signal::Poke(_) => {}
    }
}

/// Applies the signals of events to the interrupts, one after another.
pub fn take_events(high: &mut HighInterrupts, events: &[ScriptedEvent])
    ensures { high.new ≡ with_events high.old events.now }
{
    for event in events {
        take_signal(high, event.what);
    }
}
