//! ICTR, CPUID, ICSR, AIRCR, SHCSR and STIR.

ghost use Rattle.std.specs.Prelude.{◌≡◌};
ghost use Rattle.platform.specs.Control as spec;
ghost use Rattle.scs.specs.Writes.{after_write, answered};

use crate::bits::{is_bit, mask_if};
use crate::handlers::{read_shcsr, write_shcsr};
use crate::interrupts::{ictr, trigger};
use instruction_set::unpredictable::UnpredictableCase;
use nvic::Exceptions;
use platform::exception::{NMI, PEND_SV, SYS_TICK};
use platform::stop::{Stop, Unsupported};
use platform::system::ControlRegister;

/// CPUID: implementer 0, and ARCHITECTURE F (the CPUID registers describe it).
const CPUID: u32 = 0x000F_0000;

/// AIRCR.VECTKEYSTAT.
const VECTKEYSTAT: u32 = 0xFA05_0000;

/// AIRCR.VECTKEY, without which a write is ignored.
const VECTKEY: u32 = 0x05FA;

/// Returns the register at the address of a word, if it is one of these.
#[tactic(auto, unfolding(platform::specs::Control::control_at))]
pub fn control_at(word: u32) -> Option<ControlRegister>
    ensures { result ≡ spec.control_at word }
{
    match word {
        0xE000_E004 => Some(ControlRegister::Ictr),
        0xE000_ED00 => Some(ControlRegister::Cpuid),
        0xE000_ED04 => Some(ControlRegister::Icsr),
        0xE000_ED0C => Some(ControlRegister::Aircr),
        0xE000_ED24 => Some(ControlRegister::Shcsr),
        0xE000_EF00 => Some(ControlRegister::Stir),
        _ => None,
    }
}

/// Reads a register while IPSR is `exception`.
#[tactic(auto, unfolding(platform::specs::Control::read_control))]
pub fn read_control<L: Exceptions>(exceptions: &L, exception: u16, register: ControlRegister) -> u32
    ensures { result ≡ spec.read_control exception (L.content exceptions.now) register }
{
    match register {
        ControlRegister::Ictr => ictr(exceptions),
        ControlRegister::Cpuid => CPUID,
        ControlRegister::Icsr => icsr(exceptions, exception),
        ControlRegister::Aircr => VECTKEYSTAT + u32::from(exceptions.group()) * 256,
        ControlRegister::Shcsr => read_shcsr(exceptions),
        ControlRegister::Stir => 0,
    }
}

/// Writes a register. A write that stops changes nothing.
#[tactic(auto, unfolding(platform::specs::Control::write_control))]
pub fn write_control<L: Exceptions>(
    exceptions: &mut L,
    register: ControlRegister,
    value: u32,
) -> Result<(), Stop>
    ensures state { L.content exceptions.new
        ≡ after_write (L.content exceptions.old) (spec.write_control (L.content exceptions.old) register value) }
    ensures answer { result ≡ answered (spec.write_control (L.content exceptions.old) register value) }
{
    match register {
        ControlRegister::Ictr | ControlRegister::Cpuid => Ok(()),
        ControlRegister::Icsr => write_icsr(exceptions, value),
        ControlRegister::Aircr => write_aircr(exceptions, value),
        ControlRegister::Shcsr => write_shcsr(exceptions, value),
        ControlRegister::Stir => {
            trigger(exceptions, value);
            Ok(())
        }
    }
}

/// Returns ICSR.RETTOBASE: a handler runs, and no exception but its own is active.
fn rettobase<L: Exceptions>(exceptions: &L, exception: u16) -> bool
    ensures { result ≡ spec.rettobase (L.content exceptions.now) exception }
{
    exception != 0 && !exceptions.is_other_active(exception)
}

/// Reads ICSR while IPSR is `exception`.
#[tactic(auto, unfolding(platform::specs::Control::icsr))]
fn icsr<L: Exceptions>(exceptions: &L, exception: u16) -> u32
    ensures { result ≡ spec.icsr (L.content exceptions.now) exception }
{
    u32::from(exception % 512)
        + mask_if(rettobase(exceptions, exception), 1 << 11)
        + u32::from(exceptions.best().unwrap_or(0)) * 4096
        + mask_if(exceptions.is_interrupt_pending(), 1 << 22)
        + mask_if(exceptions.is_pending(SYS_TICK), 1 << 26)
        + mask_if(exceptions.is_pending(PEND_SV), 1 << 28)
        + mask_if(exceptions.is_pending(NMI), 1 << 31)
}

/// Makes an exception pending or clears it, by its set bit and its clear bit in ICSR.
fn set_or_clear<L: Exceptions>(exceptions: &mut L, number: u16, set: bool, clear: bool)
    ensures { L.content exceptions.new ≡ spec.set_or_cleared (L.content exceptions.old) number set clear }
{
    if set {
        exceptions.pend(number);
    } else if clear {
        exceptions.clear(number);
    }
}

/// Writes ICSR; a set bit and its clear bit together stop.
#[tactic(auto, unfolding(platform::specs::Control::write_icsr))]
fn write_icsr<L: Exceptions>(exceptions: &mut L, value: u32) -> Result<(), Stop>
    ensures state { L.content exceptions.new
        ≡ after_write (L.content exceptions.old) (spec.write_icsr (L.content exceptions.old) value) }
    ensures answer { result ≡ answered (spec.write_icsr (L.content exceptions.old) value) }
{
    if is_bit(value, 28) && is_bit(value, 27) || is_bit(value, 26) && is_bit(value, 25) {
        return Err(Stop::Unpredictable(UnpredictableCase::Icsr));
    }
    set_or_clear(exceptions, NMI, is_bit(value, 31), false);
    set_or_clear(exceptions, PEND_SV, is_bit(value, 28), is_bit(value, 27));
    set_or_clear(exceptions, SYS_TICK, is_bit(value, 26), is_bit(value, 25));
    Ok(())
}

/// Writes AIRCR: PRIGROUP, or a request that stops.
#[tactic(auto, unfolding(platform::specs::Control::write_aircr))]
fn write_aircr<L: Exceptions>(exceptions: &mut L, value: u32) -> Result<(), Stop>
    ensures state { L.content exceptions.new
        ≡ after_write (L.content exceptions.old) (spec.write_aircr (L.content exceptions.old) value) }
    ensures answer { result ≡ answered (spec.write_aircr (L.content exceptions.old) value) }
{
    if value >> 16 != VECTKEY {
        return Ok(());
    }
    if is_bit(value, 0) || is_bit(value, 1) {
        return Err(Stop::OutOfProfile(Unsupported::ResetControl));
    }
    if is_bit(value, 2) {
        return Err(Stop::ResetRequested);
    }
    exceptions.set_group((value >> 8 & 7) as u8);
    Ok(())
}
