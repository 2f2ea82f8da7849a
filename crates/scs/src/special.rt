//! The special registers: what MRS reads, and what MSR and CPS write.

ghost use Rattle.std.specs.Prelude.{◌≡◌};
ghost use Rattle.platform.specs.Priorities as priorities;
ghost use Rattle.platform.specs.SpecialRegisters as spec;

use instruction_set::system::{ChangeProcessorState, SpecialRegister};
use nvic::{Exceptions, Masks, Priority};
use regs::{Regs, flags_of};

/// Returns whether unprivileged code reads a register as 0.
fn is_read_as_zero(special: SpecialRegister) -> bool
    ensures { result ≡ spec.is_read_as_zero special }
{
    matches!(
        special,
        SpecialRegister::Msp
            | SpecialRegister::Psp
            | SpecialRegister::Primask
            | SpecialRegister::Basepri
            | SpecialRegister::BasepriMax
            | SpecialRegister::Faultmask
    )
}

/// Reads a register as MRS does.
#[tactic(auto, unfolding(platform::specs::SpecialRegisters::read_special))]
pub fn read_special(regs: &Regs, masks: Masks, special: SpecialRegister) -> u32
    ensures { result ≡ spec.read_special regs.now masks special }
{
    if is_read_as_zero(special) && !regs.is_privileged() {
        return 0;
    }
    special_value(regs, masks, special)
}

/// Reads a register as privileged code does.
#[tactic(auto, unfolding(platform::specs::SpecialRegisters::special_value))]
fn special_value(regs: &Regs, masks: Masks, special: SpecialRegister) -> u32
    ensures { result ≡ spec.special_value regs.now masks special }
{
    let exception = u32::from(regs.exception());
    match special {
        SpecialRegister::Apsr | SpecialRegister::Eapsr => regs.apsr(),
        SpecialRegister::Iapsr | SpecialRegister::Xpsr => regs.apsr() + exception,
        SpecialRegister::Ipsr | SpecialRegister::Iepsr => exception,
        SpecialRegister::Epsr => 0,
        SpecialRegister::Msp => regs.main_stack(),
        SpecialRegister::Psp => regs.process_stack(),
        SpecialRegister::Primask => u32::from(masks.primask),
        SpecialRegister::Basepri | SpecialRegister::BasepriMax => u32::from(masks.basepri),
        SpecialRegister::Faultmask => u32::from(masks.faultmask),
        SpecialRegister::Control => regs.control(),
    }
}

/// Returns whether unprivileged code writes a register: APSR, alone or with others.
fn is_written_unprivileged(special: SpecialRegister) -> bool
    ensures { result ≡ spec.is_written_unprivileged special }
{
    matches!(
        special,
        SpecialRegister::Apsr
            | SpecialRegister::Iapsr
            | SpecialRegister::Eapsr
            | SpecialRegister::Xpsr
    )
}

/// Writes the core registers as MSR does.
#[tactic(auto, unfolding(platform::specs::SpecialRegisters::write_special))]
pub fn write_special(regs: &mut Regs, special: SpecialRegister, value: u32)
    ensures { regs.new ≡ spec.write_special regs.old special value }
{
    if regs.is_privileged() || is_written_unprivileged(special) {
        set_special(regs, special, value);
    }
}

/// Writes the core registers as MSR of privileged code does.
#[tactic(auto, unfolding(platform::specs::SpecialRegisters::with_special))]
pub fn set_special(regs: &mut Regs, special: SpecialRegister, value: u32)
    ensures { regs.new ≡ spec.with_special regs.old special value }
{
    match special {
        SpecialRegister::Apsr
        | SpecialRegister::Iapsr
        | SpecialRegister::Eapsr
        | SpecialRegister::Xpsr => regs.set_flags(flags_of(value)),
        SpecialRegister::Msp => regs.set_main_stack(value),
        SpecialRegister::Psp => regs.set_process_stack(value),
        SpecialRegister::Control => regs.write_control(value),
        SpecialRegister::Ipsr
        | SpecialRegister::Epsr
        | SpecialRegister::Iepsr
        | SpecialRegister::Primask
        | SpecialRegister::Basepri
        | SpecialRegister::BasepriMax
        | SpecialRegister::Faultmask => {}
    }
}

/// Writes the masks as MSR does, by code that is privileged or not.
#[tactic(auto, unfolding(platform::specs::SpecialRegisters::write_mask))]
pub fn write_mask<L: Exceptions>(
    exceptions: &mut L,
    privileged: bool,
    special: SpecialRegister,
    value: u32,
)
    ensures { L.content exceptions.new ≡ spec.write_mask privileged (L.content exceptions.old) special value }
{
    if privileged {
        set_mask(exceptions, special, value);
    }
}

/// Writes the masks as MSR of privileged code does.
#[tactic(auto, unfolding(platform::specs::SpecialRegisters::with_mask))]
pub fn set_mask<L: Exceptions>(exceptions: &mut L, special: SpecialRegister, value: u32)
    ensures { L.content exceptions.new ≡ spec.with_mask (L.content exceptions.old) special value }
{
    match special {
        SpecialRegister::Primask => exceptions.set_primask(value & 1 == 1),
        SpecialRegister::Basepri => exceptions.set_basepri((value & 0xFF) as u8),
        SpecialRegister::BasepriMax => write_basepri_max(exceptions, (value & 0xFF) as u8),
        SpecialRegister::Faultmask => write_faultmask(exceptions, value & 1 == 1),
        SpecialRegister::Apsr
        | SpecialRegister::Iapsr
        | SpecialRegister::Eapsr
        | SpecialRegister::Xpsr
        | SpecialRegister::Ipsr
        | SpecialRegister::Epsr
        | SpecialRegister::Iepsr
        | SpecialRegister::Msp
        | SpecialRegister::Psp
        | SpecialRegister::Control => {}
    }
}

/// Writes FAULTMASK, which becomes 1 only at an execution priority above -1.
#[tactic(auto, unfolding(platform::specs::SpecialRegisters::faultmask_written))]
fn write_faultmask<L: Exceptions>(exceptions: &mut L, on: bool)
    ensures { L.content exceptions.new ≡ spec.faultmask_written (L.content exceptions.old) on }
{
    if !on || Priority::HARD_FAULT.is_below(exceptions.execution_priority()) {
        exceptions.set_faultmask(on);
    }
}

/// Returns whether a write of `value` to BASEPRI_MAX sets BASEPRI, which is `basepri` now.
fn is_tighter(basepri: u8, value: u8) -> bool
    ensures { result ≡ spec.is_tighter basepri value }
{
    value != 0 && (value < basepri || basepri == 0)
}

/// Writes BASEPRI_MAX, which only makes BASEPRI mask more.
#[tactic(auto, unfolding(platform::specs::SpecialRegisters::basepri_max_written))]
fn write_basepri_max<L: Exceptions>(exceptions: &mut L, byte: u8)
    ensures { L.content exceptions.new ≡ spec.basepri_max_written (L.content exceptions.old) byte }
{
    let value = implemented_bits(exceptions.priority_bits(), byte);
    if is_tighter(exceptions.masks().basepri, value) {
        exceptions.set_basepri(byte);
    }
}

/// Returns the top bits of a priority byte that a board implements.
fn implemented_bits(priority_bits: u8, byte: u8) -> u8
    ensures { result ≡ priorities.implemented_bits priority_bits byte }
{
    let dropped = 8u8.saturating_sub(priority_bits);
    (byte as u16 >> dropped << dropped) as u8
}

/// Changes the masks as CPS does, by code that is privileged or not.
#[tactic(auto, unfolding(platform::specs::SpecialRegisters::change_state))]
pub fn change_state<L: Exceptions>(
    exceptions: &mut L,
    privileged: bool,
    operands: &ChangeProcessorState,
)
    ensures { L.content exceptions.new ≡ spec.change_state privileged (L.content exceptions.old) operands.now }
{
    if !privileged {
        return;
    }
    if operands.primask {
        exceptions.set_primask(operands.disables);
    }
    if operands.faultmask {
        write_faultmask(exceptions, operands.disables);
    }
}
