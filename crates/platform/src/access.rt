//! The types for one access to memory: what it is for, how wide it is, and what became of it.

ghost use Rattle.std.specs.Prelude.{◌≡◌};
ghost use Rattle.platform.specs.Kinds.{is_fetch, is_load, is_probe, is_store, is_vector, is_write};
ghost use Rattle.platform.specs.Outcomes.{bus_error, done};

use crate::stop::Stop;
use instruction_set::size::Size;

/// No instruction has more accesses than this.
pub const MAX_REQUESTS: usize = 16;

/// What an access is for.
#[derive(Clone, Copy)]
pub enum Kind {
    /// A halfword of an instruction.
    Fetch,
    Load,
    Store,
    /// A word of the frame that exception entry pushes. The instruction PUSH makes stores.
    Push,
    /// A word of the frame that exception return pops. The instruction POP makes loads.
    Pop,
    /// An entry of the vector table, read on exception entry.
    Vector,
    /// A store exclusive that fails: it is decided as a store, and writes nothing (profile).
    Probe,
}

impl Kind {
    /// Returns whether the access is a fetch.
    #[inline]
    pub fn is_fetch(self) -> bool
        ensures { result ≡ is_fetch self }
    {
        matches!(self, Kind::Fetch)
    }

    /// Returns whether the access is a load.
    #[inline]
    pub fn is_load(self) -> bool
        ensures { result ≡ is_load self }
    {
        matches!(self, Kind::Load)
    }

    /// Returns whether the access is a store.
    #[inline]
    pub fn is_store(self) -> bool
        ensures { result ≡ is_store self }
    {
        matches!(self, Kind::Store)
    }

    /// Returns whether the access is a store, or a push of exception entry.
    #[inline]
    pub fn is_write(self) -> bool
        ensures { result ≡ is_write self }
    {
        matches!(self, Kind::Store | Kind::Push)
    }

    /// Returns whether the access is a read of a vector.
    #[inline]
    pub fn is_vector(self) -> bool
        ensures { result ≡ is_vector self }
    {
        matches!(self, Kind::Vector)
    }

    /// Returns whether the access is a probe.
    #[inline]
    pub fn is_probe(self) -> bool
        ensures { result ≡ is_probe self }
    {
        matches!(self, Kind::Probe)
    }
}

/// The rule that decided an access: the first that fits, in the order of docs/TRACE.md, "The rule".
#[derive(Clone, Copy)]
pub enum Rule {
    /// A fetch at or above 0xE0000000 is never granted.
    ExecuteNever,
    /// A vector read is always granted.
    VectorRead,
    /// A data access to the Private Peripheral Bus, which the regions don't decide.
    PrivatePeripheralBus,
    /// The MPU is off: the default memory map decides.
    MpuOff,
    /// The execution priority is below 0 and MPU_CTRL.HFNMIENA is 0: the default map decides.
    NegativePriority,
    /// The region of this number decides, from 0 to 15.
    Region(u8),
    /// No region matches, and privileged code has the default map.
    Background,
    /// No region matches, and the code has no default map: it is unprivileged, or PRIVDEFENA is 0.
    NoRegion,
}

/// What the rules say of an access.
#[derive(Clone, Copy)]
pub struct Decision {
    pub rule: Rule,
    pub granted: bool,
}

/// An access: where it is, what it is for, how wide it is, and for whom it is made.
#[derive(Clone, Copy)]
pub struct Access {
    pub address: u32,
    pub kind: Kind,
    pub size: Size,
    pub privileged: bool,
}

/// An access before it is decided.
#[derive(Clone, Copy)]
pub struct Request {
    pub access: Access,
    /// What a store or a push writes, in its low bytes. Otherwise 0.
    pub value: u32,
}

/// An access that was decided, as its line of the trace names it.
#[derive(Clone, Copy)]
pub struct DecidedAccess {
    pub access: Access,
    /// The rule that decided it.
    pub rule: Rule,
    /// What refused it, if it was refused.
    pub refused: Option<Cause>,
}

/// What refused an access.
#[derive(Clone, Copy)]
pub enum Cause {
    /// The rule that decided it.
    Mpu,
    /// The bus, though the rule had granted it.
    Bus,
}

/// An access that a rule granted and that was carried out.
#[derive(Clone, Copy)]
pub struct DoneAccess {
    pub rule: Rule,
    /// The value of a read, and 0 for a write.
    pub value: u32,
    /// The byte that a store sends to the console.
    pub sent: Option<u8>,
}

/// What became of an access.
#[derive(Clone, Copy)]
pub enum Performed {
    /// It was carried out.
    Done(DoneAccess),
    /// It was refused, and nothing is changed.
    Denied(Rule, Cause),
    /// The machine stops before the access.
    Stop(Stop),
}

impl Performed {
    /// Returns an access that a rule granted, and that was carried out with this value; nothing goes to the console.
    #[inline]
    pub fn done(rule: Rule, value: u32) -> Self
        ensures { result ≡ done rule value }
    {
        Performed::Done(DoneAccess {
            rule,
            value,
            sent: None,
        })
    }

    /// Returns an access that a rule granted, and that the bus refused.
    #[inline]
    pub fn bus_error(rule: Rule) -> Self
        ensures { result ≡ bus_error rule }
    {
        Performed::Denied(rule, Cause::Bus)
    }
}

// A blank request: the value of the unused elements of a fixed-size list.
impl Default for Request {
    fn default() -> Self {
        Request {
            access: Access {
                address: 0,
                kind: Kind::Load,
                size: Size::Byte,
                privileged: false,
            },
            value: 0,
        }
    }
}
