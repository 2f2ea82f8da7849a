//! The register at an address, and the bytes of it that an access takes.

ghost use Rattle.std.specs.Prelude.{◌≡◌, ◌<◌, ◌%◌, ◌^◌};
ghost use Rattle.instruction_set.specs.Sizes.{bytes_in};
ghost use Rattle.platform.specs.System as spec;

use crate::control::control_at;
use crate::handlers::handler_priority_at;
use crate::interrupts::{interrupt_priority_at, interrupts_at, word_number};
use crate::status::{has_parts, status_at};
use crate::systick::systick_at;
use instruction_set::size::Size;
use mpu::mpu_register_at;
use platform::access::Request;
use platform::system::SystemRegister;

/// Returns the register at the address of a word of the Private Peripheral Bus.
#[tactic(auto, unfolding(platform::specs::System::register_at))]
pub fn register_at(word: u32) -> SystemRegister
    ensures { result ≡ spec.register_at word }
{
    if let Some(register) = systick_at(word) {
        return SystemRegister::SysTick(register);
    }
    if let Some(register) = interrupts_at(word) {
        return SystemRegister::Interrupts(register, word_number(word));
    }
    if let Some(first) = interrupt_priority_at(word) {
        return SystemRegister::Priorities(first);
    }
    if let Some(register) = control_at(word) {
        return SystemRegister::Control(register);
    }
    if let Some(register) = status_at(word) {
        return SystemRegister::Status(register);
    }
    if let Some(first) = handler_priority_at(word) {
        return SystemRegister::Priorities(first);
    }
    if let Some(register) = mpu_register_at(word) {
        return SystemRegister::Mpu(register);
    }
    SystemRegister::Unlisted
}

/// Returns whether a register takes accesses of a size.
#[tactic(auto, unfolding(platform::specs::System::has_width))]
pub fn has_width(register: SystemRegister, size: Size) -> bool
    ensures { result ≡ spec.has_width register size }
{
    match register {
        SystemRegister::Priorities(_) | SystemRegister::Unlisted => true,
        SystemRegister::Status(register) => size.is_word() || has_parts(register),
        SystemRegister::SysTick(_)
        | SystemRegister::Interrupts(..)
        | SystemRegister::Control(_)
        | SystemRegister::Mpu(_) => size.is_word(),
    }
}

/// Returns the first byte of a word that an access moves, from 0 to 3.
pub fn first_byte(request: &Request) -> u32
    ensures value { result ≡ spec.first_byte request.now.access.size request.now.access.address }
    ensures small { result < 4 }
{
    match request.access.size {
        Size::Byte => request.access.address % 4,
        Size::Halfword => request.access.address / 2 % 2 * 2,
        Size::Word => 0,
    }
}

/// Returns the lowest bytes of a value, as many as an access moves.
fn lowest_bytes(size: Size, value: u32) -> u32
    ensures value { result ≡ value % 256 ^ bytes_in size }
    ensures narrow { result < 256 ^ bytes_in size }
{
    match size {
        Size::Byte => value & 0xFF,
        Size::Halfword => value & 0xFFFF,
        Size::Word => value,
    }
}

/// Returns the bytes of a word that an access reads.
pub fn part_of(request: &Request, word: u32) -> u32
    ensures value { result ≡ spec.part_of request.now word }
    ensures narrow { result < 256 ^ bytes_in request.now.access.size }
{
    lowest_bytes(request.access.size, word >> (8 * first_byte(request)))
}

/// Returns a word with the bytes that an access writes in their place, and 0 in the others.
#[tactic(auto, using(crate::proofs::Places::placed))]
pub fn in_place(request: &Request) -> u32
    ensures { result ≡ spec.in_place request.now }
{
    lowest_bytes(request.access.size, request.value) << (8 * first_byte(request))
}
