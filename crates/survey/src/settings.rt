//! The settings under which regions decided accesses.

ghost use Rattle.std.specs.Prelude.{◌≡◌, ◌<◌, length, take, IfOk};
ghost use Rattle.platform.specs.Regions.{region_registers};
ghost use Rattle.survey.specs.Settings.{added, counted_from, place_in, setting_of, with_decision, with_setting};

use crate::counts::{WAYS, way};
use crate::setting::{RegionSetting, Setting};
use mpu::MpuRegs;
use platform::access::{DecidedAccess, Rule};
use std::alloc::{AllocError, Global};
use std::marker::Model;

/// How many settings have rows at most.
pub const MAX_SETTINGS: usize = 64;

/// The settings under which regions decided accesses, and how many each decided.
#[derive(Drop)]
pub struct Settings {
    rows: Vec<Setting>,
    used: usize,
    others: u64,
}

impl Model for Settings {
    ghost use Rattle.std.specs.Prelude.{◌≡◌, ◌≤◌, length};
    ghost use Rattle.survey.specs.Settings.{Settings as SettingsView};

    ghost Value = { SettingsView };

    ghost view = { λ s. record { rows = s.rows.items; used = s.used; others = s.others } };

    ghost invariant = { λ s. (length s.rows.items ≡ 64) × (s.used ≤ 64) };
}

impl Settings {
    /// Returns no settings.
    pub fn new(alloc: Global) -> Result<Self, AllocError>
        ensures none { IfOk result (λ settings. settings.used ≡ 0) }
        ensures others { IfOk result (λ settings. settings.others ≡ 0) }
    {
        let blank = Setting::blank(&RegionSetting {
            number: 0,
            base: 0,
            attributes: 0,
        });
        let rows = vec![in alloc; blank; MAX_SETTINGS]?;
        Ok(Settings {
            rows,
            used: 0,
            others: 0,
        })
    }

    /// Returns the rows, in the order in which their settings first decided.
    pub fn rows(&self) -> &[Setting]
        ensures { result.now ≡ take self.now.used self.now.rows }
    {
        &self.rows[..self.used]
    }

    /// Returns how many accesses were decided by a setting that has no row.
    pub fn others(&self) -> u64
        ensures { result ≡ self.now.others }
    {
        self.others
    }

    /// Takes an access that was decided while the MPU had these registers.
    #[inline(always)]
    pub fn take_access(&mut self, mpu: &MpuRegs, decided: &DecidedAccess)
        ensures { self.new ≡ with_decision mpu.now self.old decided.now }
    {
        match decided.rule {
            Rule::ExecuteNever => {}
            Rule::VectorRead => {}
            Rule::PrivatePeripheralBus => {}
            Rule::MpuOff => {}
            Rule::NegativePriority => {}
            Rule::Background => {}
            Rule::NoRegion => {}
            Rule::Region(number) => {
                if let Some(region) = setting_of(mpu, number) {
                    let access = &decided.access;
                    let way = way(access.privileged, access.kind, decided.refused);
                    self.count(&region, way);
                }
            }
        }
    }

    /// Counts an access of a way that a region's setting decided.
    #[tactic(auto, unfolding(crate::specs::Settings::with_setting))]
    #[inline(never)]
    fn count(&mut self, region: &RegionSetting, way: usize)
        requires { way < WAYS }
        ensures { self.new ≡ with_setting self.old region.now way }
    {
        let place = place_in(region, self.rows());
        self.count_from(region, way, place);
    }

    /// Counts an access of a way that a region's setting decided, where the place of its row is known.
    fn count_from(&mut self, region: &RegionSetting, way: usize, place: usize)
        requires { way < WAYS }
        ensures { self.new ≡ counted_from self.old region.now way place }
    {
        if place < self.used {
            self.rows[place].count(way);
        } else {
            self.add(region, way);
        }
    }

    /// Counts an access of a way in a new row where there is a place for it, otherwise with the others.
    fn add(&mut self, region: &RegionSetting, way: usize)
        requires { way < WAYS }
        ensures { self.new ≡ added self.old region.now way }
    {
        let used = self.used;
        if used < MAX_SETTINGS {
            let mut row = Setting::blank(region);
            row.count(way);
            self.rows[used] = row;
            self.used = used + 1;
        } else {
            self.others = self.others.saturating_add(1);
        }
    }
}

/// Returns the place of the first row of a region's setting, or the number of rows where there is none.
fn place_in(region: &RegionSetting, rows: &[Setting]) -> usize
    ensures { result ≡ place_in region.now rows.now }
{
    for (place, row) in rows.iter().enumerate() {
        if row.is_of(region) {
            return place;
        }
    }
    rows.len()
}

/// Returns the setting of the region of a number, if there is one.
#[inline]
fn setting_of(mpu: &MpuRegs, number: u8) -> Option<RegionSetting>
    ensures { result ≡ setting_of number (region_registers mpu.now number) }
{
    if number >= mpu.count() {
        return None;
    }
    let region = mpu.at(number);
    Some(RegionSetting {
        number,
        base: region.base + u32::from(number),
        attributes: region.attributes,
    })
}
