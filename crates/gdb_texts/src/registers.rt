//! Registers as hexadecimal digits: eight for each, the lowest byte first.

ghost use Rattle.std.specs.Prelude.{◌≡◌, ◌+◌, ◌<◌, ◌≤◌, ◌++◌};
ghost use Rattle.arrayvec.specs.ArrayVec.{array_vec_len};
ghost use Rattle.gdb_texts.specs.Registers.{registers_text, word_at, word_digits, written_register};

use crate::bytes::{byte_at, put_byte};
use arrayvec::ArrayVec;

/// How many registers GDB sees: R0 to R12, SP, LR, PC, xPSR, MSP, PSP, PRIMASK, BASEPRI, FAULTMASK and CONTROL.
pub const REGISTERS: usize = 23;

/// Appends the eight digits of a word.
pub fn put_word<const ROOM: usize>(page: &mut ArrayVec<u8, ROOM>, word: u32)
    requires { array_vec_len page.old + 8 ≤ ROOM }
    ensures text { page.new.items ≡ page.old.items ++ word_digits word }
    ensures len { array_vec_len page.new ≡ array_vec_len page.old + 8 }
{
    put_byte(page, (word % 0x100) as u8);
    put_byte(page, (word / 0x100 % 0x100) as u8);
    put_byte(page, (word / 0x1_0000 % 0x100) as u8);
    put_byte(page, (word / 0x100_0000) as u8);
}

/// Appends the digits of all registers.
#[tactic(auto, unfolding(crate::specs::Registers::registers_text))]
pub fn put_registers<const ROOM: usize>(page: &mut ArrayVec<u8, ROOM>, values: &[u32; REGISTERS])
    requires { array_vec_len page.old + 184 ≤ ROOM }
    ensures { page.new.items ≡ page.old.items ++ registers_text values.now }
{
    'values: for value in values {
        put_word(page, *value);
    }
}

/// Returns word `index` of some digits, eight for each word. What isn't a digit counts as 0, also beyond the end.
#[tactic(auto, unfolding(crate::specs::Registers::word_at))]
pub fn word_at(digits: &[u8], index: u32) -> u32
    requires { index < 64 }
    ensures { result ≡ word_at digits.now index }
{
    let at = 4 * index;
    byte_at(digits, at) as u32
        + byte_at(digits, at + 1) as u32 * 0x100
        + byte_at(digits, at + 2) as u32 * 0x1_0000
        + byte_at(digits, at + 3) as u32 * 0x100_0000
}

/// Returns the number of the register that `G` writes after `index` others: 16 to 22, then 0 to 15.
pub fn written_register(index: u32) -> u32
    requires { index < 23 }
    ensures value { result ≡ written_register index }
    ensures within { result < 23 }
{
    if index < 7 { 16 + index } else { index - 7 }
}
