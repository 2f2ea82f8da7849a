//! The trait `Decider`: it decides accesses by the registers of the MPU, however it keeps them.

ghost use Rattle.std.specs.Prelude.{◌≡◌, ◌≤◌, ◌<◌, true, false, IfSome};
ghost use Rattle.mpu.specs.Spans.{BelongTo, GrantsSpan};
ghost use Rattle.platform.specs.declared.access.Kind.TheVariants.{Fetch, Load, Store};
ghost use Rattle.platform.specs.Regions.{Mpu, owner};
ghost use Rattle.platform.specs.Rules.{by_owner, decision_of};

use crate::registers::MpuRegs;
use crate::rules::{Rights, before_regions, by_region, without_region};
use crate::spans::{GrantedSpan, Span};
use platform::access::{Decision, Kind, Rule};

/// The decisions on a fetch, a load and a store to an address, by code of one privilege.
#[derive(Clone, Copy)]
pub struct KindDecisions {
    pub fetch: Decision,
    pub load: Decision,
    pub store: Decision,
}

/// Decides each access by the MPU's registers as they were last loaded.
pub trait Decider: Drop {
    /// Whether it decides as registers with this content say.
    ghost decides_for: { Self → Mpu → Type 0 };

    /// Makes a decider with these registers.
    fn fresh(registers: &MpuRegs) -> Self
        ensures { decides_for result registers.now };

    /// Loads these registers: it decides by them from now on.
    fn reload(&mut self, registers: &MpuRegs)
        ensures { decides_for self.new registers.now };

    /// Returns the rule that decides an access of that kind to an address, by code of that
    /// privilege, and whether it grants it. `below_zero` says whether the execution priority is
    /// below 0.
    fn decide(&self, address: u32, kind: Kind, privileged: bool, below_zero: bool) -> Decision
        ensures { (m : Mpu) → decides_for self.now m → result ≡ decision_of m address kind privileged below_zero };

    /// Decides as `decide` does, and may keep the decision for the addresses near this one.
    #[inline(always)]
    fn decide_and_keep(
        &mut self,
        address: u32,
        kind: Kind,
        privileged: bool,
        below_zero: bool,
    ) -> Decision
        ensures value { (m : Mpu) → decides_for self.old m → result ≡ decision_of m address kind privileged below_zero }
        ensures kept { (m : Mpu) → decides_for self.old m → decides_for self.new m }
    {
        self.decide(address, kind, privileged, below_zero)
    }

    /// Decides a fetch, a load and a store as `decide` does, while the execution priority isn't below 0.
    fn decide_kinds(&self, address: u32, privileged: bool) -> KindDecisions
        ensures fetch { (m : Mpu) → decides_for self.now m
            → result.fetch ≡ decision_of m address Fetch privileged false }
        ensures load { (m : Mpu) → decides_for self.now m
            → result.load ≡ decision_of m address Load privileged false }
        ensures store { (m : Mpu) → decides_for self.now m
            → result.store ≡ decision_of m address Store privileged false }
    {
        KindDecisions {
            fetch: self.decide(address, Kind::Fetch, privileged, false),
            load: self.decide(address, Kind::Load, privileged, false),
            store: self.decide(address, Kind::Store, privileged, false),
        }
    }

    /// Returns the rule that grants an access of that kind to an address, by code of that privilege, while the
    /// execution priority isn't below 0, if that is kept.
    #[inline(always)]
    fn kept_rule(&self, address: u32, kind: Kind, privileged: bool) -> Option<Rule>
        ensures { (m : Mpu) → decides_for self.now m
            → IfSome result
            (λ rule. decision_of m address kind privileged false ≡ record { rule = rule; granted = true }) }
    {
        let _unused = (address, kind, privileged);
        None
    }

    /// Returns addresses near one, to each of which a rule grants an access of that kind, by code of that privilege,
    /// while the execution priority isn't below 0, if such addresses are kept.
    #[inline(always)]
    fn kept_span(&self, address: u32, kind: Kind, privileged: bool) -> Option<GrantedSpan>
        ensures { (m : Mpu) → decides_for self.now m
            → IfSome result (λ span. GrantsSpan m false span kind privileged) }
    {
        let _unused = (address, kind, privileged);
        None
    }

    /// Returns an interval around an address in which each address has the same region, or none has
    /// one.
    fn span(&self, address: u32) -> Span
        ensures first { result.first ≤ address }
        ensures last { address ≤ result.last }
        ensures alike { (m : Mpu) → decides_for self.now m → BelongTo m result.first result.last (owner m address) };
}

/// Keeps the registers, and searches the regions at each access, from the highest downward.
#[derive(Drop)]
pub struct Search {
    registers: MpuRegs,
}

impl Search {
    /// Returns the registers.
    #[inline(always)]
    pub fn registers(&self) -> &MpuRegs
        ensures { result.now ≡ self.now.registers }
    {
        &self.registers
    }
}

impl Decider for Search {
    ghost decides_for = { λ s m. s.registers ≡ m };

    fn fresh(registers: &MpuRegs) -> Self {
        Search {
            registers: *registers,
        }
    }

    fn reload(&mut self, registers: &MpuRegs) {
        self.registers = *registers;
    }

    #[inline(always)]
    #[tactic(auto, unfolding(platform::specs::Rules::decision_of))]
    fn decide(&self, address: u32, kind: Kind, privileged: bool, below_zero: bool) -> Decision {
        let registers = &self.registers;
        match before_regions(registers.control(), address, kind, below_zero) {
            Some(decision) => decision,
            None => by_regions(registers, address, kind, privileged),
        }
    }

    /// Searches the regions once for all three.
    fn decide_kinds(&self, address: u32, privileged: bool) -> KindDecisions {
        let registers = &self.registers;
        let region = registers.owner(address);
        KindDecisions {
            fetch: decide_of(registers, region, address, Kind::Fetch, privileged),
            load: decide_of(registers, region, address, Kind::Load, privileged),
            store: decide_of(registers, region, address, Kind::Store, privileged),
        }
    }

    fn span(&self, address: u32) -> Span {
        self.registers.span(address)
    }
}

/// Returns the decision on an access while the execution priority isn't below 0, where this is the highest region to
/// which the address belongs.
#[tactic(auto, unfolding(platform::specs::Rules::decision_of))]
fn decide_of(
    registers: &MpuRegs,
    region: Option<u8>,
    address: u32,
    kind: Kind,
    privileged: bool,
) -> Decision
    requires of_address { region ≡ owner registers.now address }
    requires within { IfSome region (λ number. number < 16) }
    ensures { result ≡ decision_of registers.now address kind privileged false }
{
    match before_regions(registers.control(), address, kind, false) {
        Some(decision) => decision,
        None => by_owner(registers, region, address, kind, privileged),
    }
}

/// Returns the decision of the highest region to which an address belongs, or of the rules that
/// follow the regions.
#[inline(never)]
fn by_regions(registers: &MpuRegs, address: u32, kind: Kind, privileged: bool) -> Decision
    ensures { result ≡ by_owner registers.now kind address privileged (owner registers.now address) }
{
    by_owner(
        registers,
        registers.owner(address),
        address,
        kind,
        privileged,
    )
}

/// Returns the decision of a region, or where there is none, of the rules that follow the regions.
#[inline(always)]
fn by_owner(
    registers: &MpuRegs,
    region: Option<u8>,
    address: u32,
    kind: Kind,
    privileged: bool,
) -> Decision
    requires within { IfSome region (λ number. number < 16) }
    ensures { result ≡ by_owner registers.now kind address privileged region }
{
    match region {
        Some(number) => {
            let rights = Rights::of(registers.at(number).attributes);
            by_region(number, rights, kind, privileged)
        }
        None => without_region(registers.control(), address, kind, privileged),
    }
}
