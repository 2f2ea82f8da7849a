//! The table, and how it decides.

ghost use Rattle.std.specs.Prelude.{◌≡◌, ◌^◌, ◌<◌, ◌≤◌, length, slice_index_or};
ghost use Rattle.std.specs.List.{All};
ghost use Rattle.mpu_table.specs.Intervals.{HasAddress, NamesOwner, Tiles, interval};
ghost use Rattle.mpu_table.specs.Tables.{HasRights, DecidesFor};
ghost use Rattle.platform.specs.Regions.{owner};
ghost use Rattle.platform.specs.Rules.{by_owner};

use crate::interval::Interval;
use crate::search::find_in;
use crate::sweep::{Intervals, intervals_of};
use mpu::{
    Decider, Decision, Kind, MpuRegs, Rights, Span, before_regions, by_region, without_region,
};
use platform::mpu::MAX_REGIONS;
use std::marker::Model;

/// The intervals of the addresses, and the rights of the regions.
#[derive(Drop)]
pub struct Table {
    /// The intervals of all addresses, in order.
    spans: Intervals,
    /// AP and XN of each region.
    rights: [Rights; MAX_REGIONS as usize],
    /// MPU_CTRL.
    control: u32,
}

impl Model for Table {
    ghost use Rattle.mpu_table.specs.Tables.{IsTable, View};

    ghost Value = { View };

    ghost view = { λ t. record { spans = t.spans.items; rights = t.rights; control = t.control } };

    ghost invariant = { λ t. IsTable (record { spans = t.spans.items; rights = t.rights; control = t.control }) };
}

impl Table {
    /// Returns the table of these registers.
    fn of(registers: &MpuRegs) -> Self
        ensures { DecidesFor result registers.now }
    {
        Table {
            spans: intervals_of(registers),
            rights: rights_of(registers),
            control: registers.control(),
        }
    }

    /// Returns the intervals of all addresses, in order.
    pub fn intervals(&self) -> &[Interval]
        ensures value { result.now ≡ self.now.spans }
        ensures tiles { Tiles result.now 0 (2 ^ 32) }
        ensures few { length result.now ≤ 192 }
        ensures names { (m : _) → DecidesFor self.now m → All (NamesOwner m) result.now }
    {
        let Table {
            spans,
            rights: _,
            control: _,
        } = self;
        spans.as_slice()
    }

    /// Returns the index of the interval of an address, and how many intervals were tested, at most
    /// 8.
    pub fn find(&self, address: u32) -> (usize, u32)
        ensures within { result.0 < length self.now.spans }
        ensures there { HasAddress (interval self.now.spans result.0) address }
        ensures looks { result.1 ≤ 8 }
    {
        find_in(self.intervals(), address)
    }
}

/// Returns AP and XN of each region.
fn rights_of(registers: &MpuRegs) -> [Rights; MAX_REGIONS as usize]
    ensures { HasRights result registers.now 16 }
{
    let mut rights = [Rights::of(0); MAX_REGIONS as usize];
    for number in 0..MAX_REGIONS {
        rights[number as usize] = Rights::of(registers.at(number).attributes);
    }
    rights
}

impl Decider for Table {
    ghost decides_for = { λ t m. DecidesFor t m };

    fn fresh(registers: &MpuRegs) -> Self {
        Table::of(registers)
    }

    fn reload(&mut self, registers: &MpuRegs) {
        *self = Table::of(registers);
    }

    #[inline]
    #[tactic(auto, unfolding(platform::specs::Rules::decision_of))]
    fn decide(&self, address: u32, kind: Kind, privileged: bool, below_zero: bool) -> Decision {
        match before_regions(self.control, address, kind, below_zero) {
            Some(decision) => decision,
            None => self.by_interval(address, kind, privileged),
        }
    }

    fn span(&self, address: u32) -> Span {
        let (place, _) = self.find(address);
        let Interval {
            first,
            last,
            region: _,
        } = self.spans[place];
        Span { first, last }
    }
}

impl Table {
    /// Returns the decision of the region of an address, or of the rules after the regions where it has none.
    #[inline(never)]
    fn by_interval(&self, address: u32, kind: Kind, privileged: bool) -> Decision
        ensures { (m : _) → DecidesFor self.now m → result ≡ by_owner m kind address privileged (owner m address) }
    {
        let (place, _) = self.find(address);
        match self.spans[place].region {
            Some(number) => by_region(number, self.rights[number as usize], kind, privileged),
            None => without_region(self.control, address, kind, privileged),
        }
    }
}
