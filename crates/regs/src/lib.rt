//! The core registers (ARM DDI 0403, "Registers" of the programmers' model): R0 to R12, the two
//! stack pointers, LR, PC, and what xPSR and CONTROL hold.
#![tactic(auto)]

ghost use Rattle.std.specs.Prelude.{◌≡◌, ◌<◌, ◌-◌, ◌*◌, ◌/◌, ◌^◌};
ghost use Rattle.instruction_set.specs.Registers as spec;
ghost use Rattle.instruction_set.specs.Registers.{with_register, with_pc, with_exchange, reset_registers};
ghost use Rattle.instruction_set.specs.Words.{word_sum};

use instruction_set::registers::Marked;
pub use instruction_set::registers::{Flags, Register};
use std::marker::Model;

mod arithmetic;
mod conditions;
mod flags;
mod frames;
mod monitor;
mod stack_pointers;

pub use arithmetic::{
    Shift, ShiftType, add_with_carry, decode_imm_shift, difference, expand_imm, reverse_difference,
    shift_c, sum,
};
pub use flags::flags_of;
pub use frames::{returns_on_psp, returns_to_handler};

/// The number of the stack pointer.
const SP: u8 = 13;

/// The number of the link register.
const LR: u8 = 14;

/// The core registers. A contract sees them as the reference's `Registers`.
#[derive(Drop)]
pub struct Regs {
    /// R0 to R12, the stack pointer in use and LR, each at its number. The word at 15 isn't used: PC is `pc`.
    words: [u32; 16],
    /// The stack pointer that isn't in use.
    other_sp: u32,
    pc: u32,
    /// A word whose bit 31 is N.
    negative_result: u32,
    /// A word that is 0 if Z is set, and only then.
    zero_result: u32,
    carry: bool,
    overflow: bool,
    saturated: bool,
    it_state: u8,
    thumb: bool,
    exception: u16,
    unprivileged: bool,
    process_stack: bool,
    /// Whether the stack pointer in use is PSP.
    on_psp: bool,
    monitor: Option<Marked>,
}

impl Model for Regs {
    ghost use Rattle.std.specs.Prelude.{◌≡◌, ◌==◌, ◌&&◌, ◌<◌, not, take, slice_index, if◌then◌else◌};
    ghost use Rattle.instruction_set.specs.Registers.{Registers};
    ghost use Rattle.instruction_set.specs.Words.{is_bit};

    ghost Value = { Registers };

    ghost view = { λ r. record {
      general = take 13 r.words;
      msp = if r.on_psp then r.other_sp else slice_index r.words 13;
      psp = if r.on_psp then slice_index r.words 13 else r.other_sp;
      lr = slice_index r.words 14;
      pc = r.pc;
      flags = record {
        negative = is_bit r.negative_result 31;
        zero = r.zero_result == 0;
        carry = r.carry;
        overflow = r.overflow;
        saturated = r.saturated;
      };
      it_state = r.it_state;
      thumb = r.thumb;
      exception = r.exception;
      unprivileged = r.unprivileged;
      process_stack = r.process_stack;
      monitor = r.monitor;
    } };

    ghost invariant = { λ r. (r.exception < 512)
        × (r.on_psp ≡ (not (not (r.exception == 0)) && r.process_stack)) };
}

impl Regs {
    /// Returns the registers after `TakeReset()`, from the first two entries of the vector table.
    pub fn reset(stack: u32, entry: u32) -> Self
        ensures { result ≡ reset_registers stack entry }
    {
        let mut words = [0; 16];
        words[SP as usize] = stack & !3;
        words[LR as usize] = 0xFFFF_FFFF;
        Regs {
            words,
            other_sp: 0,
            pc: entry & !1,
            negative_result: 0,
            zero_result: 1,
            carry: false,
            overflow: false,
            saturated: false,
            it_state: 0,
            thumb: entry & 1 == 1,
            exception: 0,
            unprivileged: false,
            process_stack: false,
            on_psp: false,
            monitor: None,
        }
    }

    pub fn copied(&self) -> Self
        ensures { result ≡ self.now }
    {
        Regs {
            words: self.words,
            other_sp: self.other_sp,
            pc: self.pc,
            negative_result: self.negative_result,
            zero_result: self.zero_result,
            carry: self.carry,
            overflow: self.overflow,
            saturated: self.saturated,
            it_state: self.it_state,
            thumb: self.thumb,
            exception: self.exception,
            unprivileged: self.unprivileged,
            process_stack: self.process_stack,
            on_psp: self.on_psp,
            monitor: self.monitor,
        }
    }

    /// `R[n]`, where PC reads as the address of the instruction and 4 more.
    #[inline]
    pub fn get(&self, register: Register) -> u32
        ensures { result ≡ spec.register self.now register }
    {
        let number = register.number();
        if number <= LR {
            self.word(number)
        } else {
            self.pc.wrapping_add(4)
        }
    }

    /// `R[n]` of a register other than the PC.
    #[inline(always)]
    pub fn word(&self, number: u8) -> u32
        requires { number < 15 }
        ensures { result ≡ spec.register self.now number }
    {
        self.words[number as usize]
    }

    /// `R[n] = value`, of a register other than SP and the PC.
    #[inline(always)]
    pub fn set_word(&mut self, number: u8, value: u32)
        requires below { number < 15 }
        requires other { number ≡ 13 → ⊥ }
        ensures { self.new ≡ with_register self.old number value }
    {
        self.words[number as usize] = value;
    }

    /// `R[n] = value`, where a write to SP clears its bits 1:0, and one to PC branches.
    #[inline]
    pub fn set(&mut self, register: Register, value: u32)
        ensures { self.new ≡ with_register self.old register value }
    {
        let number = register.number();
        if number < SP {
            self.words[number as usize] = value;
        } else if number == SP {
            self.set_sp(value);
        } else if number == LR {
            self.set_link(value);
        } else {
            self.branch(value);
        }
    }

    /// R0 to R12.
    pub fn general(&self) -> [u32; 13]
        ensures { result ≡ self.now.general }
    {
        let w = &self.words;
        [
            w[0], w[1], w[2], w[3], w[4], w[5], w[6], w[7], w[8], w[9], w[10], w[11], w[12],
        ]
    }

    /// Returns the address of the instruction that is executed; between steps, of the next one.
    #[inline]
    pub fn pc(&self) -> u32
        ensures { result ≡ self.now.pc }
    {
        self.pc
    }

    /// `BranchWritePC(address)`.
    #[inline]
    pub fn branch(&mut self, address: u32)
        ensures { self.new ≡ with_pc self.old address }
    {
        self.pc = address & !1;
    }

    /// `BLXWritePC(address)`: bit 0 becomes EPSR.T.
    #[inline]
    pub fn branch_exchange(&mut self, address: u32)
        ensures { self.new ≡ with_exchange self.old address }
    {
        self.branch(address);
        self.thumb = address & 1 == 1;
    }

    /// Advances the PC past an instruction of this length.
    #[inline]
    pub fn advance_pc(&mut self, length: u32)
        ensures { self.new ≡ record self.old { pc = word_sum self.old.pc length } }
    {
        self.pc = self.pc.wrapping_add(length);
    }

    /// Sets the eight bits of EPSR.IT.
    #[inline]
    pub fn set_it_state(&mut self, it_state: u8)
        ensures { self.new ≡ record self.old { it_state = it_state } }
    {
        self.it_state = it_state;
    }

    /// Returns whether a handler runs: Handler mode.
    #[inline]
    pub fn is_handler(&self) -> bool
        ensures { result ≡ spec.is_handler self.now }
    {
        self.exception != 0
    }

    /// IPSR: the number of the exception whose handler runs, 0 in Thread mode.
    #[inline]
    pub fn exception(&self) -> u16
        ensures value { result ≡ self.now.exception }
        ensures small { result < 512 }
    {
        self.exception
    }

    /// `CurrentModeIsPrivileged()`.
    #[inline]
    pub fn is_privileged(&self) -> bool
        ensures { result ≡ spec.is_privileged self.now }
    {
        self.is_handler() || !self.unprivileged
    }

    /// CONTROL.nPRIV.
    pub fn npriv(&self) -> bool
        ensures { result ≡ self.now.unprivileged }
    {
        self.unprivileged
    }

    /// EPSR.T.
    #[inline]
    pub fn is_thumb(&self) -> bool
        ensures { result ≡ self.now.thumb }
    {
        self.thumb
    }

    /// EPSR.IT.
    #[inline]
    pub fn it_state(&self) -> u8
        ensures { result ≡ self.now.it_state }
    {
        self.it_state
    }

    /// LR, the link register.
    #[inline]
    pub fn link(&self) -> u32
        ensures { result ≡ self.now.lr }
    {
        self.words[LR as usize]
    }

    /// Sets LR.
    #[inline]
    fn set_link(&mut self, value: u32)
        ensures { self.new ≡ record self.old { lr = value } }
    {
        self.words[LR as usize] = value;
    }

    /// xPSR: APSR, EPSR and IPSR in one word.
    pub fn xpsr(&self) -> u32
        ensures value { result ≡ spec.xpsr self.now }
        ensures room { result < 2 ^ 32 - 2 ^ 9 }
    {
        let it_state = self.it_state as u32;
        self.apsr()
            + (it_state % 4 << 25)
            + mask_if(self.thumb, 1 << 24)
            + (it_state / 4 << 10)
            + self.exception as u32
    }
}

/// What a bit of this weight adds to a word.
fn mask_if(bit: bool, weight: u32) -> u32
    ensures { result ≡ spec.mask_if bit weight }
{
    if bit { weight } else { 0 }
}
