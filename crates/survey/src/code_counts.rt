//! How many instructions were carried out at each halfword of a memory, by code of each privilege.

ghost use Rattle.std.specs.Prelude.{◌≡◌, ◌<◌, ◌≤◌, ◌-◌, ◌*◌, ◌/◌, IfOk, replicate};
ghost use Rattle.survey.specs.CodeCounts.{begins_instruction, code_number, code_place, counted_code, has_halfword};
ghost use Rattle.survey.specs.CodeCounts.{with_fetch};

use crate::counts::privilege_number;
use platform::access::DecidedAccess;
use std::alloc::{AllocError, Global};
use std::marker::Model;

/// How many instructions were carried out at each halfword of a memory, by code of each privilege.
#[derive(Drop)]
pub struct CodeCounts {
    /// The address of the first byte.
    base: u32,
    halfwords: usize,
    /// The counters of unprivileged code, and then those of privileged code.
    counters: Vec<u64>,
}

impl Model for CodeCounts {
    ghost use Rattle.std.specs.Prelude.{◌≡◌, ◌≤◌, ◌*◌, length};
    ghost use Rattle.survey.specs.CodeCounts.{CodeCounts as CodeCountsView};

    ghost Value = { CodeCountsView };

    ghost view = { λ c. record { base = c.base; halfwords = c.halfwords; counters = c.counters.items } };

    ghost invariant = { λ c. (length c.counters.items ≡ 2 * c.halfwords) × (c.halfwords ≤ 0x8_0000) };
}

impl CodeCounts {
    /// Returns the counters of a memory of at most a mebibyte, all of them 0.
    pub fn new(alloc: Global, base: u32, size: u32) -> Result<Self, AllocError>
        requires { size ≤ 0x10_0000 }
        ensures base { IfOk result (λ code. code.base ≡ base) }
        ensures halfwords { IfOk result (λ code. code.halfwords ≡ size / 2) }
        ensures counters { IfOk result (λ code. code.counters ≡ replicate (2 * (size / 2)) 0) }
    {
        let halfwords = (size / 2) as usize;
        let counters = vec![in alloc; 0; 2 * halfwords]?;
        Ok(CodeCounts {
            base,
            halfwords,
            counters,
        })
    }

    /// Takes an access of a step that began at `pc`. An instruction is counted with the fetch of its first halfword.
    #[inline(always)]
    pub fn take_access(&mut self, pc: u32, decided: &DecidedAccess)
        ensures { self.new ≡ with_fetch pc self.old decided.now }
    {
        if begins_instruction(pc, decided) {
            self.count(decided.access.privileged, decided.access.address);
        }
    }

    /// Counts an instruction at an address, if the memory has a halfword there. A counter stays at its highest value,
    /// 2^64 - 1.
    #[inline(always)]
    fn count(&mut self, privileged: bool, address: u32)
        ensures { self.new ≡ counted_code self.old privileged address }
    {
        if self.has_halfword(address) {
            let place = self.place(privileged, address);
            self.counters[place] = self.counters[place].saturating_add(1);
        }
    }

    /// Returns how many instructions of code of a privilege were carried out at an address, 0 outside of the memory.
    pub fn number(&self, privileged: bool, address: u32) -> u64
        ensures { result ≡ code_number self.now privileged address }
    {
        if self.has_halfword(address) {
            self.counters[self.place(privileged, address)]
        } else {
            0
        }
    }

    /// Returns the address of the first byte of the memory, and how many halfwords it has, at most those of a mebibyte.
    pub fn span(&self) -> (u32, usize)
        ensures value { result ≡ record { 0 = self.now.base; 1 = self.now.halfwords } }
        ensures few { result.1 ≤ 0x8_0000 }
    {
        (self.base, self.halfwords)
    }

    /// Returns whether the memory has a halfword at an address.
    #[inline(always)]
    fn has_halfword(&self, address: u32) -> bool
        ensures { result ≡ has_halfword self.now address }
    {
        self.base <= address && halfword(address - self.base) < self.halfwords
    }

    /// Returns the place of the counter of an address and a privilege.
    #[inline(always)]
    fn place(&self, privileged: bool, address: u32) -> usize
        requires base { self.now.base ≤ address }
        requires within { (address - self.now.base) / 2 < self.now.halfwords }
        ensures value { result ≡ code_place self.now privileged address }
        ensures within { result < 2 * self.now.halfwords }
    {
        privilege_number(privileged) * self.halfwords + halfword(address - self.base)
    }
}

/// Returns the number of the halfword that has a byte of a memory.
#[inline(always)]
fn halfword(offset: u32) -> usize
    ensures { result ≡ offset / 2 }
{
    (offset / 2) as usize
}

/// Returns whether an access is the fetch with which the instruction at `pc` begins, and was carried out.
#[inline(always)]
fn begins_instruction(pc: u32, decided: &DecidedAccess) -> bool
    ensures { result ≡ begins_instruction pc decided.now }
{
    decided.access.kind.is_fetch() && (decided.refused.is_none() && decided.access.address == pc)
}
