//! How a clock counts: on each tick, or only where something is due.

ghost use Rattle.std.specs.Prelude.{◌≡◌, ℕ, ◌+◌, ◌-◌, ◌^◌, ◌<◌, ◌≤◌, Option, None, true, false, IfSome};
ghost use Rattle.clock.specs.DueTick.{is_before};
ghost use Rattle.platform.specs.Time.{SysTick as Timer, counted, next_current, next_due, reset_systick, reaches_zero};

use crate::timer::SysTick;
use std::marker::Model;

/// The state of SysTick in a clock. An implementation may also keep the next tick at which
/// something is due.
pub trait SysTickState: Drop {
    ghost use Rattle.std.specs.Prelude.{ℕ, Option};
    ghost use Rattle.platform.specs.Time.{SysTick as Timer};

    /// SysTick after this many ticks, while no register is written and nothing is due.
    ghost systick_at: { Self → ℕ → Timer };

    /// The tick from which on that is known.
    ghost since: { Self → ℕ };

    /// The tick that is kept as the next one at which something is due, if one is kept.
    ghost due: { Self → Option ℕ };

    /// SysTick after a reset, where the script's first event is at `next_event`.
    fn fresh(next_event: u64) -> Self
        ensures systick { systick_at result 0 ≡ reset_systick }
        ensures since { since result ≡ 0 }
        ensures due { IfSome (due result) (λ tick. tick ≡ next_due 0 reset_systick next_event) };

    /// Returns whether a due tick is kept and is after the next tick, so that nothing is due at that one.
    fn is_quiet_after(&self, now: u64) -> bool
        requires known { since self.now ≤ now }
        requires bounded { now ≤ 2 ^ 48 }
        ensures answer { result ≡ is_before (now + 1) (due self.now) }
        ensures passes { result ≡ true → systick_at self.now (now + 1)
            ≡ record (systick_at self.now now) { current = next_current (systick_at self.now now) } };

    /// Returns a tick before the due tick, the last of them; 0 if no due tick is kept.
    fn quiet_until(&self) -> u64
        ensures before { 0 < result → is_before result (due self.now) ≡ true }
        ensures last { IfSome (due self.now) (λ tick. result ≡ tick - 1) };

    /// Makes the next tick, at which nothing is due.
    fn pass(&mut self, now: u64)
        requires known { since self.old ≤ now }
        requires bounded { now < 2 ^ 48 }
        requires counts { reaches_zero (systick_at self.old now) ≡ false }
        requires before { IfSome (due self.old) (λ tick. now + 1 < tick) }
        ensures systick { systick_at self.new (now + 1)
            ≡ record (systick_at self.old now) { current = next_current (systick_at self.old now) } }
        ensures since { since self.new ≤ now + 1 }
        ensures due { due self.new ≡ due self.old };

    /// SysTick at a tick.
    fn systick(&self, now: u64) -> SysTick
        requires known { since self.now ≤ now }
        requires bounded { now ≤ 2 ^ 48 }
        ensures { result ≡ systick_at self.now now };

    /// SysTick counts once, to the tick after this one. The script goes on at `next_event`.
    fn count(&mut self, now: u64, next_event: u64)
        requires known { since self.old ≤ now }
        requires bounded { now < 2 ^ 48 }
        ensures systick { systick_at self.new (now + 1) ≡ counted (systick_at self.old now) }
        ensures since { since self.new ≤ now + 1 }
        ensures due { IfSome (due self.new)
            (λ tick. tick ≡ next_due (now + 1) (counted (systick_at self.old now)) next_event) };

    /// Sets the state of SysTick at a tick. The script's next event is at `next_event`.
    fn set(&mut self, now: u64, systick: SysTick, next_event: u64)
        requires { now ≤ 2 ^ 48 }
        ensures systick { systick_at self.new now ≡ systick }
        ensures since { since self.new ≤ now }
        ensures due { IfSome (due self.new) (λ tick. tick ≡ next_due now systick next_event) };
}

/// Counts SysTick on each tick, and keeps no due tick.
#[derive(Drop)]
pub struct EagerSysTick {
    systick: SysTick,
}

impl SysTickState for EagerSysTick {
    ghost systick_at = { λ c _. c.systick };

    ghost since = { λ _. 0 };

    ghost due = { λ _. None };

    fn fresh(_next_event: u64) -> Self {
        EagerSysTick {
            systick: SysTick::reset(),
        }
    }

    #[inline]
    fn is_quiet_after(&self, _now: u64) -> bool {
        false
    }

    #[inline(always)]
    fn quiet_until(&self) -> u64 {
        0
    }

    #[inline(always)]
    fn pass(&mut self, _now: u64) {
        self.systick.count();
    }

    #[inline]
    fn systick(&self, _now: u64) -> SysTick {
        self.systick
    }

    #[inline]
    fn count(&mut self, _now: u64, _next_event: u64) {
        self.systick.count();
    }

    #[inline]
    fn set(&mut self, _now: u64, systick: SysTick, _next_event: u64) {
        self.systick = systick;
    }
}
