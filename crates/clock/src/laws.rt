//! Laws of the definitions of time. The functions do nothing: their contracts are the laws.

ghost use Rattle.std.specs.Prelude.{ℕ, List};
ghost use Rattle.clock.specs.Laws.{QuietBeforeDue, HappensWhenDue, AppliesThoseOfTheTick, HasThePeriod};
ghost use Rattle.platform.specs.declared.script.ScriptedEvent.{ScriptedEvent as TheEvent};
ghost use Rattle.platform.specs.Time.{Time as TheTime, SysTick as Timer};

/// A tick before the one at which something is due changes the clock and the counter alone.
pub fn ticks_are_quiet_before_what_is_due()
    ensures { (t : TheTime) → QuietBeforeDue t }
{}

/// In the tick that is due, SysTick reaches 0 or an event applies.
pub fn what_is_due_happens()
    ensures { (t : TheTime) → HappensWhenDue t }
{}

/// A tick applies the events of the script that name it.
pub fn events_apply_in_their_tick()
    ensures { (tick : ℕ) (script : List TheEvent) → AppliesThoseOfTheTick tick script }
{}

/// SysTick comes back to 0 every RVR + 1 counts.
pub fn systick_has_its_period()
    ensures { (t : Timer) → HasThePeriod t }
{}
