//! When two worlds are one.

ghost use Rattle.std.specs.Bool.{Decides};
ghost use Rattle.std.specs.Prelude.{◌≡◌, ◌<◌, ℕ};
ghost use Rattle.access_map.specs.Settings.{IsSameSetting, is_negative, is_same_setting};
ghost use Rattle.platform.specs.Regions.{region};

use crate::world::World;
use mpu::{MpuRegs, Region, uses_regions};

impl World {
    /// Returns whether the MPU has the same setting in another world: MPU_CTRL, ADDR of RBAR and RASR of each region,
    /// and whether the rule `neg` holds. What MPU_RNR selects is no part of it.
    pub fn is_same(&self, other: &World) -> bool
        ensures exactly { Decides result (IsSameSetting self.now other.now) }
        ensures test { result ≡ is_same_setting self.now other.now }
    {
        self.has_setting_of(other)
    }

    /// Returns whether the MPU has the same setting in another world.
    fn has_setting_of(&self, other: &World) -> bool
        ensures { Decides result (IsSameSetting self.now other.now) }
    {
        self.registers.control() == other.registers.control()
            && self.is_negative() == other.is_negative()
            && have_same_regions(&self.registers, &other.registers)
    }

    /// Returns whether the regions don't decide, though the MPU is on.
    fn is_negative(&self) -> bool
        ensures { result ≡ is_negative self.now }
    {
        let control = self.registers.control();
        uses_regions(control, false) && !uses_regions(control, self.below_zero)
    }
}

/// Returns whether two MPUs have as many regions, and the same.
fn have_same_regions(registers: &MpuRegs, others: &MpuRegs) -> bool
    ensures { Decides result ((registers.now.count ≡ others.now.count)
        × ((k : ℕ) → k < registers.now.count → region registers.now k ≡ region others.now k)) }
{
    if registers.count() != others.count() {
        return false;
    }
    'numbers: for number in 0..registers.count() {
        if !is_same_region(registers.at(number), others.at(number)) {
            return false;
        }
    }
    true
}

/// Returns whether two regions are the same.
fn is_same_region(region: Region, other: Region) -> bool
    ensures { Decides result (region ≡ other) }
{
    region.base == other.base && region.attributes == other.attributes
}
