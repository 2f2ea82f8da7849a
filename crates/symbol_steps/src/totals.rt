//! Numbers of instructions, by privilege, and their shares.

ghost use Rattle.std.specs.Prelude.{◌≡◌, ◌<◌};
ghost use Rattle.survey.specs.CodeCounts.{code_number};
ghost use Rattle.symbol_steps.specs.Totals.{joined, memory_totals, number_at, share_of, survey_totals, totals_by};
ghost use Rattle.symbol_steps.specs.Totals.{totals_sum, without};

use crate::cover::address_of;
use std::fmt;
use survey::{CodeCounts, Survey};

/// Numbers of instructions. Each stays at its highest value, 2^64 - 1.
#[derive(Clone, Copy)]
pub struct Totals {
    pub unprivileged: u64,
    pub privileged: u64,
}

impl Totals {
    /// No instructions.
    pub const NONE: Totals = Totals {
        unprivileged: 0,
        privileged: 0,
    };

    /// Returns how many there were at an address of a memory.
    pub fn at(code: &CodeCounts, address: u32) -> Self
        ensures { result ≡ totals_by (λ privileged. code_number code.now privileged address) }
    {
        Totals {
            unprivileged: code.number(false, address),
            privileged: code.number(true, address),
        }
    }

    /// Returns how many there were in all.
    pub fn of_all(survey: &Survey) -> Self
        ensures { result ≡ survey_totals survey.now }
    {
        Totals::of_memory(&survey.flash_code).and(Totals::of_memory(&survey.ram_code))
    }

    /// Returns how many there were in a memory.
    #[tactic(auto, unfolding(crate::specs::Totals::memory_totals))]
    fn of_memory(code: &CodeCounts) -> Self
        ensures { result ≡ memory_totals code.now }
    {
        let (_, halfwords) = code.span();
        let mut sum = Totals::NONE;
        'halfwords: for halfword in 0..halfwords {
            sum = sum.and(Totals::at_halfword(code, halfword));
        }
        sum
    }

    /// Returns how many there were at a halfword of a memory.
    fn at_halfword(code: &CodeCounts, halfword: usize) -> Self
        requires { halfword < code.now.halfwords }
        ensures { result ≡ totals_by (λ privileged. number_at code.now privileged halfword) }
    {
        Totals::at(code, address_of(code, halfword))
    }

    pub fn and(self, more: Totals) -> Self
        ensures { result ≡ joined self more }
    {
        Totals {
            unprivileged: self.unprivileged.saturating_add(more.unprivileged),
            privileged: self.privileged.saturating_add(more.privileged),
        }
    }

    /// Returns these without some, 0 where there are more of those.
    pub fn less(self, some: Totals) -> Self
        ensures { result ≡ without self some }
    {
        Totals {
            unprivileged: self.unprivileged.saturating_sub(some.unprivileged),
            privileged: self.privileged.saturating_sub(some.privileged),
        }
    }

    pub fn sum(self) -> u64
        ensures { result ≡ totals_sum self }
    {
        self.unprivileged.saturating_add(self.privileged)
    }
}

/// A share in tenths of a percent, rounded down.
#[derive(Clone, Copy)]
pub struct Share(u64);

impl Share {
    /// Returns the share that a number is of all, at most 1,000: 0 where there is nothing.
    pub fn of(number: u64, all: u64) -> Self
        ensures { result ≡ record { 0 = share_of number all } }
    {
        if all == 0 {
            return Share(0);
        }
        let tenths = u128::from(number) * 1000 / u128::from(all);
        Share(tenths.min(1000) as u64)
    }
}

impl fmt::Display for Share {
    fn fmt<W: fmt::Write>(&self, f: &mut fmt::Formatter<W>) -> fmt::Result {
        let percent = self.0 / 10;
        let tenth = self.0 % 10;
        write!(f, "{percent}.{tenth}")
    }
}
