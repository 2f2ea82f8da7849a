//! The rules: what decides before the regions, what a region grants, and what follows the regions.

ghost use Rattle.std.specs.Prelude.{◌≡◌, ◌&&◌, not};
ghost use Rattle.platform.specs.declared.access.Rule.TheVariants.{Region};
ghost use Rattle.platform.specs.Regions.{is_on, permission, never_executes};
ghost use Rattle.platform.specs.Rules.{default_map, is_executable, is_off_below_zero, before_regions, may_read};
ghost use Rattle.platform.specs.Rules.{may_write, permission_grants, after_regions};

use crate::regions::{is_bit, permission};
use crate::registers::{ENABLE, HFNMIENA, PRIVDEFENA};
use platform::access::{Decision, Kind, Rule};
use platform::map::is_in_ppb;

/// Where the system address space begins, from which nothing is fetched.
const SYSTEM_BASE: u32 = 0xE000_0000;

/// The eighths of the address space from which the default memory map lets code be fetched, a bit
/// for each.
const EXECUTABLE: u32 = 0b0001_1011;

/// The bit of RASR for XN.
const XN: u32 = 28;

/// Returns the decision of the rules before the regions, by MPU_CTRL, if one of them applies.
/// `below_zero` says whether the execution priority is below 0.
#[inline]
#[tactic(auto, unfolding(platform::specs::Rules::before_regions))]
pub fn before_regions(control: u32, address: u32, kind: Kind, below_zero: bool) -> Option<Decision>
    ensures { result ≡ before_regions control address kind below_zero }
{
    let (rule, granted) = if kind.is_fetch() && address >= SYSTEM_BASE {
        (Rule::ExecuteNever, false)
    } else if kind.is_vector() {
        (Rule::VectorRead, true)
    } else if !kind.is_fetch() && is_in_ppb(address) {
        (Rule::PrivatePeripheralBus, true)
    } else if !is_bit(control, ENABLE) {
        (Rule::MpuOff, default_map(address, kind))
    } else if is_off_below_zero(control, below_zero) {
        (Rule::NegativePriority, default_map(address, kind))
    } else {
        return None;
    };
    Some(Decision { rule, granted })
}

/// Returns whether the regions decide, by MPU_CTRL: ENABLE is 1, and HFNMIENA is 1 or the execution
/// priority isn't below 0. `below_zero` says whether it is.
pub fn uses_regions(control: u32, below_zero: bool) -> bool
    ensures { result ≡ (is_on control && not (is_off_below_zero control below_zero)) }
{
    is_bit(control, ENABLE) && !is_off_below_zero(control, below_zero)
}

/// Returns whether the MPU is off for code whose execution priority is below 0.
#[inline]
fn is_off_below_zero(control: u32, below_zero: bool) -> bool
    ensures { result ≡ is_off_below_zero control below_zero }
{
    below_zero && !is_bit(control, HFNMIENA)
}

/// Returns whether the default memory map grants an access: all but fetches, and fetches from an
/// executable address.
#[inline]
fn default_map(address: u32, kind: Kind) -> bool
    ensures { result ≡ default_map address kind }
{
    match kind {
        Kind::Fetch => is_executable(address),
        Kind::Load | Kind::Store | Kind::Push | Kind::Pop | Kind::Vector | Kind::Probe => true,
    }
}

/// Returns whether the default memory map lets code be fetched from an address, by its bits 31:29.
#[inline]
#[tactic(auto, using(crate::proofs::Eighths::executable_bits))]
fn is_executable(address: u32) -> bool
    ensures { result ≡ is_executable address }
{
    is_bit(EXECUTABLE, address >> 29)
}

/// What a region grants: the fields AP and XN of its RASR.
#[derive(Clone, Copy)]
pub struct Rights {
    /// AP, from 0 to 7.
    pub permission: u8,
    /// XN.
    pub never_executes: bool,
}

impl Rights {
    /// Returns the fields of these attributes.
    #[inline]
    pub fn of(attributes: u32) -> Self
        ensures permission { result.permission ≡ permission attributes }
        ensures never_executes { result.never_executes ≡ never_executes attributes }
    {
        Rights {
            permission: permission(attributes),
            never_executes: is_bit(attributes, XN),
        }
    }

    /// Returns whether they grant an access of that kind to code of that privilege:
    /// `CheckPermission()`.
    #[inline]
    pub fn grants(self, kind: Kind, privileged: bool) -> bool
        ensures { result ≡ permission_grants self.permission self.never_executes kind privileged }
    {
        match kind {
            Kind::Fetch => self.may_read(privileged) && !self.never_executes,
            Kind::Load | Kind::Pop | Kind::Vector => self.may_read(privileged),
            Kind::Store | Kind::Push | Kind::Probe => self.may_write(privileged),
        }
    }

    #[inline]
    fn may_read(self, privileged: bool) -> bool
        ensures { result ≡ may_read self.permission privileged }
    {
        if privileged {
            !matches!(self.permission, 0 | 4)
        } else {
            matches!(self.permission, 2 | 3 | 6 | 7)
        }
    }

    #[inline]
    fn may_write(self, privileged: bool) -> bool
        ensures { result ≡ may_write self.permission privileged }
    {
        if privileged {
            matches!(self.permission, 1 | 2 | 3)
        } else {
            self.permission == 3
        }
    }
}

/// Returns the decision of the region of this number, which has these rights.
#[inline]
pub fn by_region(number: u8, rights: Rights, kind: Kind, privileged: bool) -> Decision
    ensures rule { result.rule ≡ Region number }
    ensures granted { result.granted ≡ permission_grants rights.permission rights.never_executes kind privileged }
{
    Decision {
        rule: Rule::Region(number),
        granted: rights.grants(kind, privileged),
    }
}

/// Returns the decision where an address belongs to no region, by MPU_CTRL.
#[inline]
pub fn without_region(control: u32, address: u32, kind: Kind, privileged: bool) -> Decision
    ensures { result ≡ after_regions control address kind privileged }
{
    if privileged && is_bit(control, PRIVDEFENA) {
        Decision {
            rule: Rule::Background,
            granted: default_map(address, kind),
        }
    } else {
        Decision {
            rule: Rule::NoRegion,
            granted: false,
        }
    }
}
