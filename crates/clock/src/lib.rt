//! Time: the clock, SysTick, the external interrupts and the script of events (ARM DDI 0403, "System
//! timer, SysTick"; the rest is this project's profile).
#![tactic(auto)]

ghost use Rattle.std.specs.Prelude.{◌≡◌, ◌↔◌, ℕ, ◌+◌, ◌-◌, ◌^◌, ◌<◌, ◌≤◌, [], true, false, IfOk, IfSome, IsTrue};
ghost use Rattle.clock.specs.DueTick.{DueTickIsExact, IsBeforeDueTick};
ghost use Rattle.platform.specs.Time.{time_after_tick, counted, events_at, tick_pends, script_due, due_of};
ghost use Rattle.platform.specs.Time.{passed, is_high, start_time, csr, after_csr_read, with_csr};
ghost use Rattle.platform.specs.Time.{pends, with_events, with_rvr, with_cvr_cleared, with_signal, IsSetOf};

mod interrupts;
pub mod laws;
mod lazy_systick;
mod script;
mod sets;
mod systick_state;
#[cfg(test)]
mod tests;
mod timer;

use interrupts::take_events;
pub use interrupts::{HighInterrupts, is_high, take_signal};
pub use lazy_systick::LazySysTick;
pub use platform::script::{InterruptNumber, ScriptedEvent, Signal};
pub use script::Script;
use sets::NOTHING;
pub use sets::{Due, put_signal};
use std::alloc::{AllocError, Global};
use std::marker::Model;
pub use systick_state::{EagerSysTick, SysTickState};
pub use timer::SysTick;

/// Time. A contract sees it as the reference's `Time`, and beside it the tick that it keeps as the
/// next one at which something is due.
#[derive(Drop)]
pub struct Clock<U: SysTickState> {
    ticks: u64,
    timer: U,
    high: HighInterrupts,
    script: Script,
}

impl<U: SysTickState> Model for Clock<U> {
    ghost use Rattle.std.specs.Prelude.{◌≤◌, ◌^◌};
    ghost use Rattle.clock.specs.DueTick.{TimeAndDue};

    ghost Value = { TimeAndDue };

    ghost view = { λ c. record {
      time = record {
        ticks = c.ticks;
        systick = U.systick_at c.timer c.ticks;
        high = c.high;
        script = c.script;
      };
      due = U.due c.timer;
    } };

    ghost invariant = { λ c. (U.since c.timer ≤ c.ticks) × (c.ticks ≤ 2 ^ 48) };
}

impl<U: SysTickState> Clock<U> {
    /// Returns a clock before its first tick, with a script.
    pub fn new(script: Script) -> Self
        ensures time { result.time ≡ start_time script }
        ensures right { DueTickIsExact result }
    {
        Clock {
            ticks: 0,
            timer: U::fresh(script::script_due(script.events())),
            high: [false; interrupts::INTERRUPTS],
            script,
        }
    }

    /// Returns a copy, or fails where memory can't be allocated.
    pub fn copied(&self, alloc: Global) -> Result<Self, AllocError>
        ensures time { IfOk result (λ clock. clock.time ≡ self.now.time) }
        ensures right { IfOk result (λ clock. DueTickIsExact clock) }
    {
        let script = Script::new(alloc, self.script.events())?;
        let mut copy = Clock::new(script);
        copy.copy_from(self);
        Ok(copy)
    }

    /// Takes the time of another clock in place of its own.
    pub fn copy_from(&mut self, other: &Self)
        ensures time { self.new.time ≡ other.now.time }
        ensures right { DueTickIsExact self.new }
    {
        let next_event = other.next_event();
        let mut timer = U::fresh(next_event);
        timer.set(other.ticks, other.systick(), next_event);
        self.ticks = other.ticks;
        self.timer = timer;
        self.high = other.high;
        self.script.copy_from(&other.script);
    }

    /// Does what a signal does to the interrupts, without a tick. Returns the exceptions that it pends.
    pub fn signal(&mut self, what: &Signal) -> Due
        ensures time { self.new.time ≡ record self.old.time { high = with_signal self.old.time.high what.now } }
        ensures due { IsSetOf result (pends what.now) }
        ensures right { DueTickIsExact self.old → DueTickIsExact self.new }
    {
        take_signal(&mut self.high, *what);
        sets::due_by(*what)
    }

    /// Returns how many ticks have gone by, at most 2^48.
    #[inline]
    pub fn now(&self) -> u64
        ensures value { result ≡ self.now.time.ticks }
        ensures small { result ≤ 2 ^ 48 }
    {
        self.ticks
    }

    /// Returns whether an interrupt is high.
    pub fn high(&self, interrupt: u8) -> bool
        ensures { result ≡ is_high self.now.time interrupt }
    {
        is_high(&self.high, interrupt)
    }

    /// Returns what the next tick would pend. The clock mustn't be at its end, as for `tick_due`.
    #[inline]
    #[tactic(auto, using(crate::proofs::Quiet::right_pends))]
    pub fn peek(&self) -> Due
        requires { self.now.time.ticks < 2 ^ 48 }
        ensures due { DueTickIsExact self.now → IsSetOf result (tick_pends self.now.time) }
        ensures quiet { IsBeforeDueTick self.now → IsSetOf result (λ _. false) }
    {
        if self.timer.is_quiet_after(self.ticks) {
            NOTHING
        } else {
            self.due_next()
        }
    }

    /// Returns the events that apply in the next tick.
    pub fn events_next(&self) -> &[ScriptedEvent]
        requires { self.now.time.ticks < 2 ^ 48 }
        ensures { result.now ≡ events_at (self.now.time.ticks + 1) self.now.time.script }
    {
        let script = self.script.events();
        let count = script::due_count(self.ticks + 1, script);
        &script[..count]
    }

    /// Returns which interrupts will be high after the next tick.
    pub fn high_next(&self) -> HighInterrupts
        requires { self.now.time.ticks < 2 ^ 48 }
        ensures { result
            ≡ with_events self.now.time.high (events_at (self.now.time.ticks + 1) self.now.time.script) }
    {
        let mut high = self.high;
        take_events(&mut high, self.events_next());
        high
    }

    /// Returns what the next tick pends, by the script and SysTick.
    #[tactic(auto, unfolding(platform::specs::Time::tick_pends))]
    fn due_next(&self) -> Due
        requires { self.now.time.ticks < 2 ^ 48 }
        ensures { IsSetOf result (tick_pends self.now.time) }
    {
        sets::due_of(self.events_next(), &self.systick())
    }

    /// Makes the next tick if the due tick that is kept says that nothing is due at it. Returns whether it did.
    #[inline]
    #[tactic(auto, using(crate::proofs::Quiet::right_lemmas))]
    pub fn tick_quietly(&mut self) -> bool
        requires { self.old.time.ticks < 2 ^ 48 }
        ensures answer { IsTrue result ↔ IsBeforeDueTick self.old }
        ensures same { result ≡ false → self.new ≡ self.old }
        ensures passes { result ≡ true → self.new ≡ record self.old { time = passed self.old.time } }
        ensures time { result ≡ true → DueTickIsExact self.old → self.new.time ≡ time_after_tick self.old.time }
        ensures quiet { result ≡ true → DueTickIsExact self.old → (number : ℕ) → tick_pends self.old.time number
            ≡ false }
        ensures silent { result ≡ true → DueTickIsExact self.old
            → events_at (self.old.time.ticks + 1) self.old.time.script ≡ [] }
        ensures right { DueTickIsExact self.old → DueTickIsExact self.new }
    {
        if self.timer.is_quiet_after(self.ticks) {
            self.ticks += 1;
            return true;
        }
        false
    }

    /// Returns for how many ticks from now on nothing is due, by the due tick that is kept; 0 if that isn't known.
    #[inline]
    #[tactic(auto, using(crate::proofs::Quiet::right_until))]
    pub fn quiet_ticks(&self) -> u64
        ensures quiet { DueTickIsExact self.now → 0 < result → self.now.time.ticks + result < due_of self.now.time }
        ensures last { IfSome self.now.due (λ due. result ≡ due - 1 - self.now.time.ticks) }
    {
        self.timer.quiet_until().saturating_sub(self.ticks)
    }

    /// Makes the next tick, at which nothing is due.
    #[inline(always)]
    #[tactic(auto, using(crate::proofs::Quiet::passing))]
    pub fn pass(&mut self)
        requires right { DueTickIsExact self.old }
        requires before { self.old.time.ticks + 1 < due_of self.old.time }
        ensures time { self.new.time ≡ passed self.old.time }
        ensures right { DueTickIsExact self.new }
    {
        self.timer.pass(self.ticks);
        self.ticks += 1;
    }

    /// Makes the next tick, whatever is due at it. Returns the exceptions that it pends.
    #[tactic(auto, unfolding(platform::specs::Time::tick_pends, platform::specs::Time::time_after_tick))]
    pub fn tick_due(&mut self) -> Due
        requires { self.old.time.ticks < 2 ^ 48 }
        ensures time { self.new.time ≡ time_after_tick self.old.time }
        ensures due { IsSetOf result (tick_pends self.old.time) }
        ensures right { DueTickIsExact self.new }
    {
        let systick = self.systick();
        let script = self.script.events();
        let count = script::due_count(self.ticks + 1, script);
        let due = sets::due_of(&script[..count], &systick);
        take_events(&mut self.high, &script[..count]);
        self.script.skip(count);
        self.count_on();
        due
    }

    /// Advances the clock and SysTick by one. Its caller has applied the events of that tick.
    #[inline]
    fn count_on(&mut self)
        requires { self.old.time.ticks < 2 ^ 48 }
        ensures time { self.new.time
            ≡ record self.old.time { ticks = self.old.time.ticks + 1; systick = counted self.old.time.systick } }
        ensures right { DueTickIsExact self.new }
    {
        let next_event = self.next_event();
        self.timer.count(self.ticks, next_event);
        self.ticks += 1;
    }

    /// Reads SYST_CSR, SysTick's Control and Status Register, and clears COUNTFLAG.
    pub fn read_csr(&mut self) -> u32
        ensures value { result ≡ csr self.old.time.systick }
        ensures time { self.new.time ≡ record self.old.time { systick = after_csr_read self.old.time.systick } }
        ensures right { DueTickIsExact self.new }
    {
        let mut systick = self.systick();
        let value = systick.csr();
        systick.clear_countflag();
        self.set_systick(systick);
        value
    }

    /// Writes SYST_CSR.
    pub fn write_csr(&mut self, value: u32)
        ensures time { self.new.time ≡ record self.old.time { systick = with_csr self.old.time.systick value } }
        ensures right { DueTickIsExact self.new }
    {
        let mut systick = self.systick();
        systick.write_csr(value);
        self.set_systick(systick);
    }

    /// Reads SYST_RVR, SysTick's Reload Value Register.
    pub fn read_rvr(&self) -> u32
        ensures { result ≡ self.now.time.systick.reload }
    {
        self.systick().rvr()
    }

    /// Writes SYST_RVR, of which 24 bits are kept.
    pub fn write_rvr(&mut self, value: u32)
        ensures time { self.new.time ≡ record self.old.time { systick = with_rvr self.old.time.systick value } }
        ensures right { DueTickIsExact self.new }
    {
        let mut systick = self.systick();
        systick.write_rvr(value);
        self.set_systick(systick);
    }

    /// Reads SYST_CVR, SysTick's Current Value Register.
    pub fn read_cvr(&self) -> u32
        ensures { result ≡ self.now.time.systick.current }
    {
        self.systick().cvr()
    }

    /// Writes SYST_CVR: any value clears it, and COUNTFLAG.
    pub fn write_cvr(&mut self)
        ensures time { self.new.time ≡ record self.old.time { systick = with_cvr_cleared self.old.time.systick } }
        ensures right { DueTickIsExact self.new }
    {
        let mut systick = self.systick();
        systick.clear_cvr();
        self.set_systick(systick);
    }

    /// Returns the state of SysTick. Nothing is read of its registers, so COUNTFLAG stays.
    #[inline]
    pub fn systick(&self) -> SysTick
        ensures { result ≡ self.now.time.systick }
    {
        self.timer.systick(self.ticks)
    }

    /// Sets the state of SysTick.
    #[inline]
    fn set_systick(&mut self, systick: SysTick)
        ensures time { self.new.time ≡ record self.old.time { systick = systick } }
        ensures right { DueTickIsExact self.new }
    {
        let next_event = self.next_event();
        self.timer.set(self.ticks, systick, next_event);
    }

    /// Returns the tick of the script's next event.
    #[inline]
    fn next_event(&self) -> u64
        ensures { result ≡ script_due self.now.time.script }
    {
        script::script_due(self.script.events())
    }
}
