//! SHPR1 to SHPR3, and SHCSR.

ghost use Rattle.std.specs.Prelude.{◌≡◌, ◌<◌, ◌^◌};
ghost use Rattle.platform.specs.Handlers as spec;
ghost use Rattle.platform.specs.Priorities.{with_pending, with_enabled};
ghost use Rattle.scs.specs.Writes.{after_write, answered};

use crate::bits::{is_bit, mask_if};
use nvic::Exceptions;
use platform::exception::{BUS_FAULT, MEM_MANAGE, PEND_SV, SV_CALL, SYS_TICK, USAGE_FAULT};
use platform::stop::{Stop, Unsupported};

/// The active bits of SHCSR.
const ACTIVE: u32 = 0xC8B;

/// Returns the exception whose priority is the lowest byte of a word of SHPR1 to SHPR3.
#[tactic(auto, unfolding(platform::specs::Handlers::handler_priority_at))]
pub fn handler_priority_at(word: u32) -> Option<u8>
    ensures { result ≡ spec.handler_priority_at word }
{
    match word {
        0xE000_ED18..=0xE000_ED23 => Some((word - 0xE000_ED18) as u8 + MEM_MANAGE as u8),
        _ => None,
    }
}

/// Reads the active bits of SHCSR.
#[tactic(auto, unfolding(platform::specs::Handlers::handlers_active))]
fn handlers_active<L: Exceptions>(exceptions: &L) -> u32
    ensures value { result ≡ spec.handlers_active (L.content exceptions.now) }
    ensures small { result < 2 ^ 12 }
{
    mask_if(exceptions.is_active(MEM_MANAGE), 1)
        + mask_if(exceptions.is_active(BUS_FAULT), 1 << 1)
        + mask_if(exceptions.is_active(USAGE_FAULT), 1 << 3)
        + mask_if(exceptions.is_active(SV_CALL), 1 << 7)
        + mask_if(exceptions.is_active(PEND_SV), 1 << 10)
        + mask_if(exceptions.is_active(SYS_TICK), 1 << 11)
}

/// Reads the pending bits of SHCSR.
#[tactic(auto, unfolding(platform::specs::Handlers::handlers_pending))]
fn handlers_pending<L: Exceptions>(exceptions: &L) -> u32
    ensures value { result ≡ spec.handlers_pending (L.content exceptions.now) }
    ensures small { result < 2 ^ 16 }
{
    mask_if(exceptions.is_pending(USAGE_FAULT), 1 << 12)
        + mask_if(exceptions.is_pending(MEM_MANAGE), 1 << 13)
        + mask_if(exceptions.is_pending(BUS_FAULT), 1 << 14)
        + mask_if(exceptions.is_pending(SV_CALL), 1 << 15)
}

/// Reads the enable bits of SHCSR.
#[tactic(auto, unfolding(platform::specs::Handlers::handlers_enabled))]
fn handlers_enabled<L: Exceptions>(exceptions: &L) -> u32
    ensures value { result ≡ spec.handlers_enabled (L.content exceptions.now) }
    ensures small { result < 2 ^ 19 }
{
    mask_if(exceptions.is_enabled(MEM_MANAGE), 1 << 16)
        + mask_if(exceptions.is_enabled(BUS_FAULT), 1 << 17)
        + mask_if(exceptions.is_enabled(USAGE_FAULT), 1 << 18)
}

/// Reads SHCSR.
#[tactic(auto, unfolding(platform::specs::Handlers::read_shcsr))]
pub fn read_shcsr<L: Exceptions>(exceptions: &L) -> u32
    ensures { result ≡ spec.read_shcsr (L.content exceptions.now) }
{
    handlers_active(exceptions) + handlers_pending(exceptions) + handlers_enabled(exceptions)
}

/// Makes an exception pending, or clears it.
fn set_pending<L: Exceptions>(exceptions: &mut L, number: u16, on: bool)
    ensures { L.content exceptions.new ≡ with_pending (L.content exceptions.old) number on }
{
    if on {
        exceptions.pend(number);
    } else {
        exceptions.clear(number);
    }
}

/// Enables an exception, or disables it.
fn set_enabled<L: Exceptions>(exceptions: &mut L, number: u16, on: bool)
    ensures { L.content exceptions.new ≡ with_enabled (L.content exceptions.old) number on }
{
    if on {
        exceptions.enable(number);
    } else {
        exceptions.disable(number);
    }
}

/// Writes the pending bits of SHCSR.
#[tactic(auto, unfolding(platform::specs::Handlers::with_handlers_pending))]
fn set_handlers_pending<L: Exceptions>(exceptions: &mut L, value: u32)
    ensures { L.content exceptions.new ≡ spec.with_handlers_pending (L.content exceptions.old) value }
{
    set_pending(exceptions, USAGE_FAULT, is_bit(value, 12));
    set_pending(exceptions, MEM_MANAGE, is_bit(value, 13));
    set_pending(exceptions, BUS_FAULT, is_bit(value, 14));
    set_pending(exceptions, SV_CALL, is_bit(value, 15));
}

/// Writes the enable bits of SHCSR.
#[tactic(auto, unfolding(platform::specs::Handlers::with_handlers_enabled))]
fn set_handlers_enabled<L: Exceptions>(exceptions: &mut L, value: u32)
    ensures { L.content exceptions.new ≡ spec.with_handlers_enabled (L.content exceptions.old) value }
{
    set_enabled(exceptions, MEM_MANAGE, is_bit(value, 16));
    set_enabled(exceptions, BUS_FAULT, is_bit(value, 17));
    set_enabled(exceptions, USAGE_FAULT, is_bit(value, 18));
}

/// Writes SHCSR; a value with a changed active bit stops, and changes nothing.
#[tactic(auto, unfolding(platform::specs::Handlers::write_shcsr))]
pub fn write_shcsr<L: Exceptions>(exceptions: &mut L, value: u32) -> Result<(), Stop>
    ensures state { L.content exceptions.new
        ≡ after_write (L.content exceptions.old) (spec.write_shcsr (L.content exceptions.old) value) }
    ensures answer { result ≡ answered (spec.write_shcsr (L.content exceptions.old) value) }
{
    if value & ACTIVE != handlers_active(exceptions) {
        return Err(Stop::OutOfProfile(Unsupported::ActiveBit));
    }
    set_handlers_pending(exceptions, value);
    set_handlers_enabled(exceptions, value);
    Ok(())
}
