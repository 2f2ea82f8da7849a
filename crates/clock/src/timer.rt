//! SysTick (ARM DDI 0403, "System timer, SysTick"): its registers, and how it counts.

ghost use Rattle.std.specs.Prelude.{◌≡◌, ◌&&◌, ◌^◌, ◌<◌, ◌≤◌};
ghost use Rattle.clock.specs.AfterTicks.{after_ticks, current_after};
ghost use Rattle.instruction_set.specs.Registers as registers;
ghost use Rattle.platform.specs.Time as spec;
ghost use Rattle.platform.specs.Time.{counted, reaches_zero, after_csr_read, with_csr, with_rvr};
ghost use Rattle.platform.specs.Time.{with_cvr_cleared, reset_systick, timer_due};

use crate::script::NEVER;
use std::marker::Model;

/// The bits that RVR and CVR have.
const COUNTER_MASK: u32 = 0x00FF_FFFF;

/// SysTick. A contract sees it as the reference's `SysTick`.
#[derive(Clone, Copy)]
pub struct SysTick {
    enable: bool,
    tickint: bool,
    countflag: bool,
    reload: u32,
    current: u32,
}

impl Model for SysTick {
    ghost use Rattle.std.specs.Prelude.{◌<◌, ◌^◌};
    ghost use Rattle.platform.specs.Time.{SysTick as Timer};

    ghost Value = { Timer };

    ghost view = { λ t. record
        { enable = t.enable; tickint = t.tickint; countflag = t.countflag; reload = t.reload; current = t.current } };

    ghost invariant = { λ t. (t.reload < 2 ^ 24) × (t.current < 2 ^ 24) };

    ghost inverse = { λ t. record
        { enable = t.enable; tickint = t.tickint; countflag = t.countflag; reload = t.reload; current = t.current } };
}

impl SysTick {
    pub(crate) const fn reset() -> Self
        ensures { result ≡ reset_systick }
    {
        SysTick {
            enable: false,
            tickint: false,
            countflag: false,
            reload: 0,
            current: 0,
        }
    }

    /// Returns whether the next count goes from 1 to 0.
    #[inline]
    pub(crate) fn reaches_zero(&self) -> bool
        ensures { result ≡ reaches_zero self.now }
    {
        self.enable && self.current == 1
    }

    /// Returns whether the next count pends SysTick's exception.
    #[inline]
    pub(crate) fn will_pend(&self) -> bool
        ensures { result ≡ (reaches_zero self.now && self.now.tickint) }
    {
        self.reaches_zero() && self.tickint
    }

    /// Counts once.
    #[inline]
    pub(crate) fn count(&mut self)
        ensures { self.new ≡ counted self.old }
    {
        if self.enable {
            if self.current == 1 {
                self.countflag = true;
            }
            self.current = if self.current == 0 {
                self.reload
            } else {
                self.current - 1
            };
        }
    }

    /// Returns SysTick after some ticks, at none of which anything is due.
    pub(crate) fn after_ticks(&self, ticks: u64) -> Self
        ensures { result ≡ after_ticks self.now ticks }
    {
        let mut after = *self;
        if self.enable {
            after.current = current_after(self.reload, self.current, ticks);
        }
        after
    }

    /// Returns the tick at which the counter will go from 1 to 0, if no register is written before.
    pub(crate) fn due(&self, now: u64) -> u64
        requires { now ≤ 2 ^ 48 }
        ensures { result ≡ timer_due now self.now }
    {
        if !self.enable {
            NEVER
        } else if self.current > 0 {
            now + u64::from(self.current)
        } else if self.reload > 0 {
            now + u64::from(self.reload) + 1
        } else {
            NEVER
        }
    }

    /// Returns SYST_CSR, as a read finds it.
    pub fn csr(&self) -> u32
        ensures { result ≡ spec.csr self.now }
    {
        mask_if(self.enable, 1)
            + mask_if(self.tickint, 1 << 1)
            + (1 << 2)
            + mask_if(self.countflag, 1 << 16)
    }

    /// Clears COUNTFLAG, as a read of SYST_CSR does.
    pub(crate) fn clear_countflag(&mut self)
        ensures { self.new ≡ after_csr_read self.old }
    {
        self.countflag = false;
    }

    /// Writes SYST_CSR.
    pub(crate) fn write_csr(&mut self, value: u32)
        ensures { self.new ≡ with_csr self.old value }
    {
        self.enable = value % 2 == 1;
        self.tickint = value / 2 % 2 == 1;
    }

    pub fn rvr(&self) -> u32
        ensures { result ≡ self.now.reload }
    {
        self.reload
    }

    /// Writes SYST_RVR.
    pub(crate) fn write_rvr(&mut self, value: u32)
        ensures { self.new ≡ with_rvr self.old value }
    {
        self.reload = value & COUNTER_MASK;
    }

    pub fn cvr(&self) -> u32
        ensures { result ≡ self.now.current }
    {
        self.current
    }

    /// Clears SYST_CVR, as a write of any value does.
    pub(crate) fn clear_cvr(&mut self)
        ensures { self.new ≡ with_cvr_cleared self.old }
    {
        self.current = 0;
        self.clear_countflag();
    }
}

/// What a bit of this weight adds to a word.
fn mask_if(bit: bool, weight: u32) -> u32
    ensures { result ≡ registers.mask_if bit weight }
{
    if bit { weight } else { 0 }
}

/// Returns the counter some counts after it had a value.
fn current_after(reload: u32, current: u32, counts: u64) -> u32
    requires reload { reload < 2 ^ 24 }
    requires current { current < 2 ^ 24 }
    ensures value { result ≡ current_after reload current counts }
    ensures small { result < 2 ^ 24 }
{
    if counts <= u64::from(current) {
        return current - counts as u32;
    }
    let period = u64::from(reload) + 1;
    let phase = (counts - u64::from(current)) % period;
    if phase == 0 {
        0
    } else {
        (period - phase) as u32
    }
}
