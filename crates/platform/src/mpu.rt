//! The types for the registers of the Memory Protection Unit.

ghost use Rattle.std.specs.Prelude.{◌≡◌, ◌⊎◌};
ghost use Rattle.platform.specs.Regions.{region_number};

/// A register of the MPU. RBAR and RASR have three aliases each.
#[derive(Clone, Copy)]
pub enum MpuRegister {
    /// MPU_TYPE: how many regions there are.
    Type,
    /// MPU_CTRL: ENABLE, HFNMIENA and PRIVDEFENA.
    Control,
    /// MPU_RNR: the region that RBAR and RASR access.
    Number,
    /// MPU_RBAR: where the region begins.
    Base,
    /// MPU_RASR: how large the region is, and what it grants.
    Attributes,
}

/// A write that the manual calls UNPREDICTABLE, and that stops the machine with a named stop.
#[derive(Clone, Copy)]
pub enum MpuStop {
    /// A region number, SIZE, AP or SRD that the manual doesn't allow.
    Region,
    /// MPU_CTRL.HFNMIENA without ENABLE.
    Control,
}

/// What the registers hold of one region.
#[derive(Clone, Copy)]
pub struct Region {
    /// RBAR.ADDR: a multiple of 32.
    pub base: u32,
    /// RASR.
    pub attributes: u32,
}

/// The most regions that an MPU can have here, of the 255 that MPU_TYPE.DREGION can say (profile).
pub const MAX_REGIONS: u8 = 16;

/// How many regions an MPU has: MPU_TYPE.DREGION.
#[derive(Clone, Copy)]
pub enum RegionCount {
    Eight,
    Sixteen,
}

impl RegionCount {
    /// Returns the number, 8 or 16.
    pub fn number(self) -> u8
        ensures value { result ≡ region_number self }
        ensures either { (result ≡ 8) ⊎ (result ≡ 16) }
    {
        match self {
            RegionCount::Eight => 8,
            RegionCount::Sixteen => MAX_REGIONS,
        }
    }
}
