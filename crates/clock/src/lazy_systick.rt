//! A clock that keeps the next tick at which something is due, and computes SysTick's counter where
//! it's read.

ghost use Rattle.std.specs.Prelude.{◌≡◌, ◌-◌, ◌≤◌, ◌^◌, Some};
ghost use Rattle.clock.specs.AfterTicks.{after_ticks};
ghost use Rattle.platform.specs.Time.{next_due};

use crate::Clock;
use crate::script::NEVER;
use crate::systick_state::SysTickState;
use crate::timer::SysTick;

/// Keeps the state that SysTick had at one tick, and the next tick at which something is due.
#[derive(Drop)]
pub struct LazySysTick {
    /// SysTick at the tick `since`.
    stored: SysTick,
    since: u64,
    due: u64,
}

impl LazySysTick {
    /// Returns the next tick at which SYST_CVR goes from 1 to 0 or an event applies, if no register
    /// is written before; 2^48 + 1 where no tick up to 2^48 is one.
    pub fn due(&self) -> &u64
        ensures { result.now ≡ self.now.due }
    {
        &self.due
    }
}

impl SysTickState for LazySysTick {
    ghost systick_at = { λ a now. after_ticks a.stored (now - a.since) };

    ghost since = { λ a. a.since };

    ghost due = { λ a. Some a.due };

    #[tactic(auto, using(crate::proofs::Counts::after_no_ticks))]
    fn fresh(next_event: u64) -> Self {
        let stored = SysTick::reset();
        LazySysTick {
            stored,
            since: 0,
            due: next_due(0, &stored, next_event),
        }
    }

    #[inline]
    #[tactic(auto, using(crate::proofs::Counts::after_tick_since))]
    fn is_quiet_after(&self, now: u64) -> bool {
        now + 1 < self.due
    }

    #[inline(always)]
    fn quiet_until(&self) -> u64 {
        self.due.saturating_sub(1)
    }

    #[inline(always)]
    #[tactic(auto, using(crate::proofs::Counts::after_tick_since))]
    fn pass(&mut self, _now: u64) {}

    fn systick(&self, now: u64) -> SysTick {
        self.stored.after_ticks(now - self.since)
    }

    fn count(&mut self, now: u64, next_event: u64) {
        let mut systick = self.systick(now);
        systick.count();
        self.set(now + 1, systick, next_event);
    }

    #[tactic(auto, using(crate::proofs::Counts::after_ticks_now))]
    fn set(&mut self, now: u64, systick: SysTick, next_event: u64) {
        self.stored = systick;
        self.since = now;
        self.due = next_due(now, &systick, next_event);
    }
}

impl Clock<LazySysTick> {
    /// Returns the next tick at which something is due, as it's kept.
    pub fn due(&self) -> &u64
        ensures { self.now.due ≡ Some result.now }
    {
        self.timer.due()
    }

    /// Replaces that tick by another, for a test: before the other tick nothing becomes pending.
    pub fn with_due(self, due: u64) -> Self
        ensures { result ≡ record self { due = Some due } }
    {
        let mut clock = self;
        clock.timer.due = due;
        clock
    }
}

/// Returns the next tick at which something is due, where the script's next event is at `next_event`.
fn next_due(now: u64, systick: &SysTick, next_event: u64) -> u64
    requires { now ≤ 2 ^ 48 }
    ensures { result ≡ next_due now systick.now next_event }
{
    NEVER.min(systick.due(now).min(next_event))
}
