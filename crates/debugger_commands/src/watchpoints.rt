//! The watchpoints of a session.

ghost use Rattle.std.specs.Prelude.{◌≡◌, ◌+◌, ◌==◌, [], length};
ghost use Rattle.debugger_commands.specs.Watchpoints.{is_same, is_set, met, shares_byte, watches, watches_kind};
ghost use Rattle.debugger_commands.specs.Watchpoints.{watchpoint_text, with_watchpoint};

use crate::texts::Reply;
use arrayvec::ArrayVec;
use platform::access::{Access, Kind};
use std::marker::Model;

/// The most watchpoints.
pub const MAX_WATCHPOINTS: usize = 16;

/// The bytes that are watched, and the accesses to them that end a run.
#[derive(Clone, Copy, Default)]
pub struct Watchpoint {
    /// Whether loads, pops and vector reads do.
    pub reads: bool,
    /// Whether stores and pushes do.
    pub writes: bool,
    /// The address of the first byte.
    pub address: u32,
    /// The number of bytes.
    pub size: u32,
}

impl Watchpoint {
    /// Returns whether another watchpoint is for the same accesses to the same bytes.
    fn is_same(&self, other: &Watchpoint) -> bool
        ensures { result ≡ is_same self.now other.now }
    {
        (self.reads == other.reads && self.writes == other.writes)
            && (self.address == other.address && self.size == other.size)
    }

    /// Returns whether the watchpoint is for accesses of a kind.
    fn watches_kind(&self, kind: Kind) -> bool
        ensures { result ≡ watches_kind self.now kind }
    {
        match kind {
            Kind::Load | Kind::Pop | Kind::Vector => self.reads,
            Kind::Store | Kind::Push => self.writes,
            Kind::Fetch | Kind::Probe => false,
        }
    }

    /// Returns whether an access has a byte that is watched.
    fn shares_byte(&self, access: &Access) -> bool
        ensures { result ≡ shares_byte self.now access.now }
    {
        let end = end_of(self.address, self.size);
        let access_end = end_of(access.address, access.size.bytes());
        u64::from(access.address) < end && u64::from(self.address) < access_end
    }

    /// Returns whether an access meets the watchpoint.
    fn watches(&self, access: &Access) -> bool
        ensures { result ≡ watches self.now access.now }
    {
        self.watches_kind(access.kind) && self.shares_byte(access)
    }
}

/// Returns the address after some bytes, at most 2^33.
fn end_of(address: u32, size: u32) -> u64
    ensures { result ≡ address + size }
{
    u64::from(address) + u64::from(size)
}

/// The watchpoints that are set, in their order.
#[derive(Drop)]
pub struct Watchpoints {
    items: ArrayVec<Watchpoint, MAX_WATCHPOINTS>,
}

impl Model for Watchpoints {
    ghost use Rattle.std.specs.Prelude.{List};
    ghost use Rattle.debugger_commands.specs.declared.watchpoints.Watchpoint.{Watchpoint};

    ghost Value = { List Watchpoint };

    ghost view = { λ w. w.items.items };
}

impl Watchpoints {
    pub fn new() -> Self
        ensures { result ≡ [] }
    {
        Watchpoints {
            items: ArrayVec::new(),
        }
    }

    /// Returns whether no watchpoint is set.
    pub fn is_empty(&self) -> bool
        ensures { result ≡ (length self.now == 0) }
    {
        self.items.len() == 0
    }

    /// Returns whether a watchpoint is set.
    fn is_set(&self, watchpoint: &Watchpoint) -> bool
        ensures { result ≡ is_set self.now watchpoint.now }
    {
        self.items
            .as_slice()
            .iter()
            .any(|other| watchpoint.is_same(other))
    }

    /// Returns the number of the watchpoint that an access meets: the first one set.
    pub fn met(&self, access: &Access) -> Option<usize>
        ensures { result ≡ met self.now access.now }
    {
        self.items
            .as_slice()
            .iter()
            .position(|watchpoint| watchpoint.watches(access))
    }

    /// Sets a watchpoint, and returns the answer.
    pub fn set(&mut self, watchpoint: Watchpoint) -> Reply
        ensures text { result ≡ watchpoint_text self.old watchpoint }
        ensures kept { self.new ≡ with_watchpoint self.old watchpoint }
    {
        let mut page = Reply::new();
        if self.is_set(&watchpoint) {
            page.put(b"ok\n");
        } else if self.items.len() < MAX_WATCHPOINTS {
            self.items.push(watchpoint);
            page.put(b"ok\n");
        } else {
            page.put(b"error 3\n");
        }
        page
    }
}
