//! Intervals of addresses with the same rights and the same rule.

ghost use Rattle.std.specs.Bool.{Decides};
ghost use Rattle.std.specs.Prelude.{◌≡◌, ◌≤◌, ◌<◌, ◌^◌, ◌/◌};
ghost use Rattle.access_map.specs.Maps.{Describes, IsAlike};

use crate::world::{Place, Rights, World};
use mpu::{Rule, Span};

/// The bytes of an eighth of the address space.
const EIGHTH: u32 = 0x2000_0000;

/// Addresses of a place, from the first to the last, inclusive, at which unprivileged code has the same rights by the
/// same rule.
#[derive(Clone, Copy)]
pub struct Interval {
    pub first: u32,
    pub last: u32,
    /// What it may do with each byte.
    pub rights: Rights,
    /// The rule that decides its loads.
    pub rule: Rule,
}

impl Interval {
    /// Returns an interval that begins where a span does, and ends with it or before. All its addresses have one owner,
    /// and are in one eighth of the address space, in which the default memory map is the same (B3.1).
    pub fn at(world: &World, place: Place, within: Span) -> Self
        requires some { within.first ≤ within.last }
        requires below { within.last < 0xE000_0000 }
        ensures first { result.first ≡ within.first }
        ensures some { result.first ≤ result.last }
        ensures last { result.last ≤ within.last }
        ensures right { Describes world.now place result }
    {
        let Span { first, last } = within;
        Interval {
            first,
            last: world
                .registers
                .span(first)
                .last
                .min(last)
                .min(end_of_eighth(first)),
            rights: world.rights_at(place, first),
            rule: world.rule_at(first),
        }
    }

    /// Returns whether two intervals have the same rights and the same rule.
    pub fn is_alike(&self, other: &Interval) -> bool
        ensures { Decides result (IsAlike self.now other.now) }
    {
        self.rights.is_same(other.rights) && is_same_rule(self.rule, other.rule)
    }
}

/// Returns the last address of the eighth of the address space in which an address is.
fn end_of_eighth(address: u32) -> u32
    ensures same { result / 2 ^ 29 ≡ address / 2 ^ 29 }
    ensures after { address ≤ result }
{
    address / EIGHTH * EIGHTH + (EIGHTH - 1)
}

/// Returns whether two rules are the same.
fn is_same_rule(rule: Rule, other: Rule) -> bool
    ensures { Decides result (rule ≡ other) }
{
    match rule {
        Rule::ExecuteNever => matches!(other, Rule::ExecuteNever),
        Rule::VectorRead => matches!(other, Rule::VectorRead),
        Rule::PrivatePeripheralBus => matches!(other, Rule::PrivatePeripheralBus),
        Rule::MpuOff => matches!(other, Rule::MpuOff),
        Rule::NegativePriority => matches!(other, Rule::NegativePriority),
        Rule::Region(number) => matches!(other, Rule::Region(another) if another == number),
        Rule::Background => matches!(other, Rule::Background),
        Rule::NoRegion => matches!(other, Rule::NoRegion),
    }
}
