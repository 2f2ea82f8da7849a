//! Conditions and the IT block (ARM DDI 0403, "Conditional execution" and "ITSTATE").

ghost use Rattle.std.specs.Prelude.{◌≡◌};
ghost use Rattle.instruction_set.specs.Arithmetic as spec;

use crate::{Flags, Regs};

impl Regs {
    /// Returns whether the flags meet this condition, as its four bits: 0 to 14 are EQ, NE, CS, CC,
    /// MI, PL, VS, VC, HI, LS, GE, LT, GT, LE and AL, and 15 always holds.
    #[inline]
    pub fn condition(&self, condition: u8) -> bool
        ensures { result ≡ spec.condition_holds condition self.now.flags }
    {
        condition_holds(condition, self.flags())
    }

    /// `ConditionPassed()` of an instruction that has no condition of its own: that of the IT
    /// block, and outside one it always holds.
    #[inline]
    pub fn condition_passed(&self) -> bool
        ensures { result ≡ spec.condition_passed self.now.it_state self.now.flags }
    {
        // Most instructions are outside an IT block, so that is tested first.
        !self.in_it_block() || self.condition(self.current_condition())
    }

    /// `CurrentCond()` of an instruction that has none of its own: bits 7:4 of IT in an IT block,
    /// 14 (AL) outside one.
    #[inline]
    pub fn current_condition(&self) -> u8
        ensures { result ≡ spec.current_condition self.now.it_state }
    {
        if self.in_it_block() {
            self.it_state() >> 4
        } else {
            14
        }
    }

    /// `InITBlock()`.
    #[inline]
    pub fn in_it_block(&self) -> bool
        ensures { result ≡ spec.in_it_block self.now.it_state }
    {
        self.it_state() & 0b1111 != 0
    }

    /// `LastInITBlock()`.
    #[inline]
    pub fn last_in_it_block(&self) -> bool
        ensures { result ≡ spec.last_in_it_block self.now.it_state }
    {
        self.it_state() & 0b1111 == 0b1000
    }

    /// `ITAdvance()`, which changes nothing outside an IT block.
    #[inline]
    pub fn it_advance(&mut self)
        ensures { self.new ≡ record self.old { it_state = spec.it_advance self.old.it_state } }
    {
        self.set_it_state(it_advanced(self.it_state()));
    }
}

/// Returns the eight bits of IT after an instruction.
#[inline]
fn it_advanced(it: u8) -> u8
    ensures { result ≡ spec.it_advance it }
{
    if it & 0b1111 == 0 {
        it
    } else if it & 0b111 == 0 {
        0
    } else {
        (it & 0b1110_0000) + (it << 1 & 0b1_1111)
    }
}

/// `ConditionHolds(condition)`.
#[inline]
fn condition_holds(condition: u8, flags: Flags) -> bool
    ensures { result ≡ spec.condition_holds condition flags }
{
    let base = base_condition(condition >> 1, flags);
    if condition & 1 == 1 && condition != 15 {
        !base
    } else {
        base
    }
}

/// Returns the condition that the upper three bits name.
#[inline]
fn base_condition(base: u8, flags: Flags) -> bool
    ensures { result ≡ spec.base_condition base flags }
{
    match base {
        0 => flags.zero,
        1 => flags.carry,
        2 => flags.negative,
        3 => flags.overflow,
        4 => flags.carry && !flags.zero,
        5 => flags.negative == flags.overflow,
        6 => flags.negative == flags.overflow && !flags.zero,
        _ => true,
    }
}
