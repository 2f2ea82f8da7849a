//! Counters of accesses, by rule, privilege, kind and outcome.

ghost use Rattle.std.specs.Prelude.{◌≡◌, ◌<◌, ◌+◌, length, replicate, IfOk};
ghost use Rattle.survey.specs.Counts.{counted_at, kind_number, number_of, outcome_number, place_of, place_of_access};
ghost use Rattle.survey.specs.Counts.{privilege_number, rule_number, way_of, with_access};

use platform::access::{Cause, DecidedAccess, Kind, Rule};
use std::alloc::{AllocError, Global};
use std::marker::Model;

/// How many counters a rule has: 2 privileges, 7 kinds and 3 outcomes.
pub const WAYS: usize = 42;

/// How many counters there are: 7 rules that are no region, and 256 numbers of regions.
pub const COUNTERS: usize = 11046;

/// How many accesses there were of each rule, privilege, kind and outcome.
#[derive(Drop)]
pub struct Counts {
    counters: Vec<u64>,
}

impl Model for Counts {
    ghost use Rattle.std.specs.Prelude.{◌≡◌, List, ℕ, length};

    ghost Value = { List ℕ };

    ghost view = { λ c. c.counters.items };

    ghost invariant = { λ c. length c.counters.items ≡ 11046 };
}

impl Counts {
    /// Returns counters that are all 0.
    pub fn new(alloc: Global) -> Result<Self, AllocError>
        ensures { IfOk result (λ counts. counts ≡ replicate COUNTERS 0) }
    {
        let counters = vec![in alloc; 0; COUNTERS]?;
        Ok(Counts { counters })
    }

    /// Counts an access. A counter stays at its highest value, 2^64 - 1.
    #[inline(always)]
    pub fn count(&mut self, decided: &DecidedAccess)
        ensures { self.new ≡ with_access self.old decided.now }
    {
        let place = place_of_access(decided);
        self.counters[place] = self.counters[place].saturating_add(1);
    }

    /// Returns how many accesses there were of a rule, privilege, kind and outcome.
    pub fn number(&self, rule: Rule, privileged: bool, kind: Kind, refused: Option<Cause>) -> u64
        ensures { result ≡ number_of self.now rule privileged kind refused }
    {
        self.counters[place(rule, privileged, kind, refused)]
    }
}

/// Returns the place of the counter of an access.
#[inline(always)]
pub fn place_of_access(decided: &DecidedAccess) -> usize
    ensures value { result ≡ place_of_access decided.now }
    ensures within { result < COUNTERS }
{
    place(
        decided.rule,
        decided.access.privileged,
        decided.access.kind,
        decided.refused,
    )
}

/// Returns the place of the counter of a rule, privilege, kind and outcome.
#[inline(always)]
fn place(rule: Rule, privileged: bool, kind: Kind, refused: Option<Cause>) -> usize
    ensures value { result ≡ place_of rule privileged kind refused }
    ensures within { result < COUNTERS }
{
    rule_number(rule) * WAYS + way(privileged, kind, refused)
}

/// Returns the place of the counter of a privilege, kind and outcome, among those of one rule.
#[inline(always)]
pub fn way(privileged: bool, kind: Kind, refused: Option<Cause>) -> usize
    ensures value { result ≡ way_of privileged kind refused }
    ensures within { result < WAYS }
{
    (privilege_number(privileged) * 7 + kind_number(kind)) * 3 + outcome_number(refused)
}

/// Returns the number of a rule: the regions follow the seven others.
#[inline(always)]
fn rule_number(rule: Rule) -> usize
    ensures value { result ≡ rule_number rule }
    ensures within { result < 263 }
{
    match rule {
        Rule::ExecuteNever => 0,
        Rule::VectorRead => 1,
        Rule::PrivatePeripheralBus => 2,
        Rule::MpuOff => 3,
        Rule::NegativePriority => 4,
        Rule::Background => 5,
        Rule::NoRegion => 6,
        Rule::Region(number) => 7 + number as usize,
    }
}

/// Returns the number of a privilege.
#[inline(always)]
pub fn privilege_number(privileged: bool) -> usize
    ensures value { result ≡ privilege_number privileged }
    ensures within { result < 2 }
{
    if privileged { 1 } else { 0 }
}

/// Returns the number of a kind of access.
#[inline(always)]
fn kind_number(kind: Kind) -> usize
    ensures value { result ≡ kind_number kind }
    ensures within { result < 7 }
{
    match kind {
        Kind::Fetch => 0,
        Kind::Load => 1,
        Kind::Store => 2,
        Kind::Push => 3,
        Kind::Pop => 4,
        Kind::Vector => 5,
        Kind::Probe => 6,
    }
}

/// Returns the number of an outcome.
#[inline(always)]
fn outcome_number(refused: Option<Cause>) -> usize
    ensures value { result ≡ outcome_number refused }
    ensures within { result < 3 }
{
    match refused {
        None => 0,
        Some(Cause::Mpu) => 1,
        Some(Cause::Bus) => 2,
    }
}
