//! What a survey takes from the state in which a step begins.

ghost use Rattle.std.specs.Prelude.{◌≡◌};
ghost use Rattle.survey.specs.RegionLaw.{writes_system};

use mpu::MpuRegs;
use platform::event::EventKind;
use platform::map::is_in_ppb;

/// What a survey takes from the state in which a step begins.
#[derive(Clone, Copy)]
pub struct StepStart {
    /// The address of the next instruction.
    pub pc: u32,
    /// The exception whose handler runs, 0 in Thread mode: IPSR.
    pub exception: u16,
    /// Whether privileged code runs.
    pub privileged: bool,
    /// Whether WFI has put the core to sleep.
    pub asleep: bool,
    /// The registers of the MPU: the settings of the regions.
    pub mpu: MpuRegs,
}

/// Returns whether an event is a write to the Private Peripheral Bus that was carried out. Without one a step leaves
/// the registers of the MPU as they are.
#[inline(always)]
pub fn writes_system(what: &EventKind) -> bool
    ensures { result ≡ writes_system what.now }
{
    match what.access() {
        Some(decided) => {
            decided.access.kind.is_write()
                && is_in_ppb(decided.access.address)
                && decided.refused.is_none()
        }
        None => false,
    }
}
