//! ICTR, ISER, ICER, ISPR, ICPR, IABR, IPR and STIR.

ghost use Rattle.std.specs.Prelude.{◌≡◌, ◌<◌, ◌^◌};
ghost use Rattle.platform.specs.Interrupts as spec;

use crate::bits::is_bit;
use nvic::Exceptions;
use platform::exception::{FIRST_INTERRUPT, MAX_INTERRUPTS};
use platform::system::InterruptRegister;

// The address of the first byte of IPR. There is one byte for each interrupt.
const IPR_BASE: u32 = 0xE000_E400;

/// Reads ICTR.
pub fn ictr<L: Exceptions>(exceptions: &L) -> u32
    ensures { result ≡ spec.ictr (L.content exceptions.now) }
{
    u32::from(exceptions.interrupts().saturating_sub(1)) / 32
}

/// Returns the register that has a word at this address, if it is one of these.
#[tactic(auto, unfolding(platform::specs::Interrupts::interrupts_at))]
pub fn interrupts_at(word: u32) -> Option<InterruptRegister>
    ensures { result ≡ spec.interrupts_at word }
{
    match word / 32 * 32 {
        0xE000_E100 => Some(InterruptRegister::Iser),
        0xE000_E180 => Some(InterruptRegister::Icer),
        0xE000_E200 => Some(InterruptRegister::Ispr),
        0xE000_E280 => Some(InterruptRegister::Icpr),
        0xE000_E300 => Some(InterruptRegister::Iabr),
        _ => None,
    }
}

/// Returns the number of a word in its register, from 0 to 7.
pub fn word_number(word: u32) -> u8
    ensures { result ≡ spec.word_number word }
{
    (word / 4 % 8) as u8
}

/// Returns the exception of bit 0 in a word.
fn first_exception(word: u8) -> u16
    ensures value { result ≡ spec.first_exception word }
    ensures small { result < 2 ^ 15 }
{
    FIRST_INTERRUPT + 32 * u16::from(word)
}

/// Returns whether a register reads 1 at the bit of an exception.
fn reads_one<L: Exceptions>(exceptions: &L, register: InterruptRegister, number: u16) -> bool
    ensures { result ≡ spec.reads_one (L.content exceptions.now) register number }
{
    match register {
        InterruptRegister::Iser | InterruptRegister::Icer => exceptions.is_enabled(number),
        InterruptRegister::Ispr | InterruptRegister::Icpr => exceptions.is_pending(number),
        InterruptRegister::Iabr => exceptions.is_active(number),
    }
}

/// Reads a word of a register.
#[tactic(auto, unfolding(platform::specs::Interrupts::read_interrupts))]
pub fn read_interrupts<L: Exceptions>(exceptions: &L, register: InterruptRegister, word: u8) -> u32
    ensures { result ≡ spec.read_interrupts (L.content exceptions.now) register word }
{
    let first = first_exception(word);
    let mut value = 0;
    #[tactic(auto, unfolding(platform::specs::Interrupts::read_below))]
    'each: for bit in 0..32u16 {
        if reads_one(exceptions, register, first + bit) {
            value += 1 << bit;
        }
    }
    value
}

/// Writes 1 to the bit of an exception.
#[tactic(auto, unfolding(platform::specs::Interrupts::with_one))]
fn write_one<L: Exceptions>(exceptions: &mut L, register: InterruptRegister, number: u16)
    ensures { L.content exceptions.new ≡ spec.with_one (L.content exceptions.old) register number }
{
    match register {
        InterruptRegister::Iser => exceptions.enable(number),
        InterruptRegister::Icer => exceptions.disable(number),
        InterruptRegister::Ispr => exceptions.pend(number),
        InterruptRegister::Icpr => exceptions.clear(number),
        InterruptRegister::Iabr => {}
    }
}

/// Writes one bit of a value, whose bit 0 is that of the exception `first`.
#[tactic(auto, unfolding(platform::specs::Interrupts::with_bit))]
fn write_bit<L: Exceptions>(
    exceptions: &mut L,
    register: InterruptRegister,
    first: u16,
    value: u32,
    bit: u16,
)
    requires of_word { bit < 32 }
    requires small { first < 2 ^ 15 }
    ensures { L.content exceptions.new ≡ spec.with_bit (L.content exceptions.old) register first value bit }
{
    if is_bit(value, u32::from(bit)) {
        write_one(exceptions, register, first + bit);
    }
}

/// Writes a word of a register.
#[tactic(auto, unfolding(platform::specs::Interrupts::write_interrupts))]
pub fn write_interrupts<L: Exceptions>(
    exceptions: &mut L,
    register: InterruptRegister,
    word: u8,
    value: u32,
)
    ensures { L.content exceptions.new ≡ spec.write_interrupts (L.content exceptions.old) register word value }
{
    let first = first_exception(word);
    #[tactic(auto, unfolding(platform::specs::Interrupts::with_bits_below))]
    'each: for bit in 0..32u16 {
        write_bit(exceptions, register, first, value, bit);
    }
}

/// Returns the exception whose priority is the lowest byte of a word of IPR.
#[tactic(auto, unfolding(platform::specs::Interrupts::interrupt_priority_at))]
pub fn interrupt_priority_at(word: u32) -> Option<u8>
    ensures { result ≡ spec.interrupt_priority_at word }
{
    let end = IPR_BASE + u32::from(MAX_INTERRUPTS);
    if IPR_BASE <= word && word < end {
        Some((word - IPR_BASE) as u8 + FIRST_INTERRUPT as u8)
    } else {
        None
    }
}

/// Reads the priority bytes of four exceptions, the first of them lowest.
#[tactic(auto, unfolding(platform::specs::Interrupts::read_priorities))]
pub fn read_priorities<L: Exceptions>(exceptions: &L, first: u8) -> u32
    ensures { result ≡ spec.read_priorities (L.content exceptions.now) first }
{
    let first = u16::from(first);
    u32::from(exceptions.priority(first))
        + u32::from(exceptions.priority(first + 1)) * 0x100
        + u32::from(exceptions.priority(first + 2)) * 0x1_0000
        + u32::from(exceptions.priority(first + 3)) * 0x100_0000
}

/// Writes the priorities of `count` exceptions from `first` on, the first from the lowest byte.
pub fn write_priorities<L: Exceptions>(exceptions: &mut L, first: u16, value: u32, count: u32)
    requires small { first < 2 ^ 15 }
    requires few { count < 5 }
    ensures { L.content exceptions.new ≡ spec.write_priorities (L.content exceptions.old) first value count }
{
    #[tactic(auto, unfolding(platform::specs::Interrupts::write_priorities))]
    'each: for index in 0..count {
        let byte = (value >> (8 * index) & 0xFF) as u8;
        exceptions.set_priority(first + index as u16, byte);
    }
}

/// Writes STIR: the interrupt whose number is in bits 8:0 becomes pending.
#[tactic(auto, unfolding(platform::specs::Interrupts::triggered))]
pub fn trigger<L: Exceptions>(exceptions: &mut L, value: u32)
    ensures { L.content exceptions.new ≡ spec.triggered (L.content exceptions.old) value }
{
    exceptions.pend(FIRST_INTERRUPT + (value % 512) as u16);
}
