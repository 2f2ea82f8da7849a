//! A setting of a region, and what it decided.

ghost use Rattle.std.specs.Prelude.{◌≡◌, ◌<◌, slice_index};
ghost use Rattle.survey.specs.Counts.{way_of};
ghost use Rattle.survey.specs.Settings.{blank_row, counted_row, is_of};

use crate::counts::{WAYS, way};
use platform::access::{Cause, Kind};

/// The setting of a region.
#[derive(Clone, Copy)]
pub struct RegionSetting {
    /// The number of the region.
    pub number: u8,
    /// RBAR, with VALID 0 and REGION the number.
    pub base: u32,
    /// RASR.
    pub attributes: u32,
}

/// A setting of a region, and how many accesses it decided.
#[derive(Clone, Copy)]
pub struct Setting {
    pub region: RegionSetting,
    /// How many accesses it decided, by privilege, kind and outcome.
    pub ways: [u64; WAYS],
}

impl Setting {
    /// Returns a row that counts nothing so far.
    pub fn blank(region: &RegionSetting) -> Self
        ensures { result ≡ blank_row region.now }
    {
        Setting {
            region: *region,
            ways: [0; WAYS],
        }
    }

    /// Returns whether it is the row of a region's setting.
    #[inline]
    pub fn is_of(&self, region: &RegionSetting) -> bool
        ensures { result ≡ is_of region.now self.now }
    {
        self.region.number == region.number
            && self.region.base == region.base
            && self.region.attributes == region.attributes
    }

    /// Counts an access of a way. A counter stays at its highest value, 2^64 - 1.
    #[inline]
    pub fn count(&mut self, way: usize)
        requires { way < WAYS }
        ensures { self.new ≡ counted_row self.old way }
    {
        self.ways[way] = self.ways[way].saturating_add(1);
    }

    /// Returns how many accesses of a privilege, kind and outcome it decided.
    pub fn number(&self, privileged: bool, kind: Kind, refused: Option<Cause>) -> u64
        ensures { result ≡ slice_index self.now.ways (way_of privileged kind refused) }
    {
        self.ways[way(privileged, kind, refused)]
    }
}
