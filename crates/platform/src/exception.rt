//! The types for exceptions: their numbers, their priorities, the masks, and what becomes of a
//! fault.

ghost use Rattle.std.specs.Prelude.{◌≡◌, ◌+◌, ◌≤◌, pos, ◌+ℤ◌, nat_lt};

use std::marker::Model;

/// The number of NMI.
pub const NMI: u16 = 2;

/// The number of HardFault.
pub const HARD_FAULT: u16 = 3;

/// The number of MemManage.
pub const MEM_MANAGE: u16 = 4;

/// The number of BusFault.
pub const BUS_FAULT: u16 = 5;

/// The number of UsageFault.
pub const USAGE_FAULT: u16 = 6;

/// The number of SVCall.
pub const SV_CALL: u16 = 11;

/// The number of PendSV.
pub const PEND_SV: u16 = 14;

/// The number of SysTick.
pub const SYS_TICK: u16 = 15;

/// The number of the exception of external interrupt 0. That of interrupt k is k more.
pub const FIRST_INTERRUPT: u16 = 16;

/// The most interrupts that a board can have here, of the 496 that the manual allows (profile).
pub const MAX_INTERRUPTS: u8 = 240;

/// One more than the greatest number of an exception here.
pub const EXCEPTIONS: u16 = 256;

/// A priority: -2 for NMI, -1 for HardFault, 0 to 255 for a byte, 256 where nothing is active or
/// masked. A lower number is more urgent. Contracts see the number plus 2.
#[derive(Clone, Copy)]
pub struct Priority {
    raised: u16,
}

impl Model for Priority {
    ghost use Rattle.std.specs.Prelude.{ℕ, ◌≤◌};

    ghost Value = { ℕ };

    ghost view = { λ p. p.raised };

    ghost invariant = { λ p. p.raised ≤ 258 };

    ghost inverse = { λ n. record { raised = n } };
}

impl Priority {
    /// -2, of NMI.
    pub const NMI: Priority = Priority { raised: 0 };

    /// -1, of HardFault and of FAULTMASK.
    pub const HARD_FAULT: Priority = Priority { raised: 1 };

    /// 256, where nothing is active and nothing is masked.
    pub const LOWEST: Priority = Priority { raised: 258 };

    /// Returns the priority of this byte.
    #[inline]
    pub fn of_byte(byte: u8) -> Self
        ensures { result ≡ byte + 2 }
    {
        Priority {
            raised: byte as u16 + 2,
        }
    }

    /// Returns the number of the priority, from -2 to 256.
    pub fn number(self) -> i16
        ensures { result +ℤ pos 2 ≡ pos self }
    {
        self.raised as i16 - 2
    }

    /// Returns whether the priority is below 0, as those of NMI and HardFault are.
    #[inline]
    pub fn is_negative(self) -> bool
        ensures { result ≡ nat_lt self 2 }
    {
        self.raised < 2
    }

    /// Returns whether the priority has a lower number than the other, and so is more urgent.
    #[inline]
    pub fn is_below(self, other: Priority) -> bool
        ensures { result ≡ nat_lt self other }
    {
        self.raised < other.raised
    }
}

/// The masks: the registers that raise the execution priority.
#[derive(Clone, Copy)]
pub struct Masks {
    pub primask: bool,
    pub faultmask: bool,
    /// The priority byte in BASEPRI; where it's 0, nothing is masked by it.
    pub basepri: u8,
}

/// How a fault or SVC escalates.
#[derive(Clone, Copy)]
pub enum Escalation {
    /// Its own exception becomes pending.
    Itself,
    /// HardFault becomes pending in its place, and HFSR.FORCED is set.
    HardFault,
    /// No fault can be taken: lockup.
    Lockup,
}
