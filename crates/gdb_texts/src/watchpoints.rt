//! Watchpoints.

ghost use Rattle.std.specs.Prelude.{◌≡◌, ◌+◌, ◌==◌, ◌<◌, [], length, position, find, IfSome};
ghost use Rattle.gdb_texts.specs.Watchpoints.{hit_by, hit_of, insertion, is_same, is_same_kind, is_set, reads};
ghost use Rattle.gdb_texts.specs.Watchpoints.{shares_byte, watches, watches_kind, with_watchpoint};
ghost use Rattle.gdb_texts.specs.Watchpoints.{without_watchpoint, writes};

use crate::points::WatchKind;
use crate::replies::{ErrorCode, Reply};
use arrayvec::ArrayVec;
use platform::access::{Access, Kind};
use std::marker::Model;

/// The most watchpoints.
pub const MAX_WATCHPOINTS: usize = 16;

impl Default for WatchKind {
    fn default() -> Self {
        WatchKind::Write
    }
}

/// A watchpoint: the bytes that are watched, and for which accesses.
#[derive(Clone, Copy, Default)]
pub struct Watchpoint {
    pub kind: WatchKind,
    /// The address of the first byte.
    pub address: u32,
    /// The number of bytes.
    pub length: u32,
}

/// What an access hits: the kind of the watchpoint, and the address of the first byte of both.
#[derive(Clone, Copy)]
pub struct WatchHit {
    pub kind: WatchKind,
    pub address: u32,
}

/// Returns whether two kinds are equal.
fn is_same_kind(kind: WatchKind, other: WatchKind) -> bool
    ensures { result ≡ is_same_kind kind other }
{
    match (kind, other) {
        (WatchKind::Write, WatchKind::Write) => true,
        (WatchKind::Read, WatchKind::Read) => true,
        (WatchKind::Access, WatchKind::Access) => true,
        (WatchKind::Write, WatchKind::Read | WatchKind::Access) => false,
        (WatchKind::Read, WatchKind::Write | WatchKind::Access) => false,
        (WatchKind::Access, WatchKind::Write | WatchKind::Read) => false,
    }
}

/// Returns whether two watchpoints are equal.
fn is_same(watchpoint: Watchpoint, other: Watchpoint) -> bool
    ensures { result ≡ is_same watchpoint other }
{
    is_same_kind(watchpoint.kind, other.kind)
        && (watchpoint.address == other.address && watchpoint.length == other.length)
}

/// Returns whether a kind is for writes.
fn writes(kind: WatchKind) -> bool
    ensures { result ≡ writes kind }
{
    match kind {
        WatchKind::Write | WatchKind::Access => true,
        WatchKind::Read => false,
    }
}

/// Returns whether a kind is for reads.
fn reads(kind: WatchKind) -> bool
    ensures { result ≡ reads kind }
{
    match kind {
        WatchKind::Read | WatchKind::Access => true,
        WatchKind::Write => false,
    }
}

/// Returns whether a kind of watchpoint is for a kind of access.
fn watches_kind(kind: WatchKind, access: Kind) -> bool
    ensures { result ≡ watches_kind kind access }
{
    match access {
        Kind::Load | Kind::Pop | Kind::Vector => reads(kind),
        Kind::Store | Kind::Push => writes(kind),
        Kind::Fetch | Kind::Probe => false,
    }
}

/// Returns the address after some bytes, at most 2^33.
fn end_of(address: u32, length: u32) -> u64
    ensures { result ≡ address + length }
{
    u64::from(address) + u64::from(length)
}

/// Returns whether a watchpoint and an access have a byte in common.
fn shares_byte(watchpoint: Watchpoint, access: &Access) -> bool
    ensures { result ≡ shares_byte watchpoint access.now }
{
    let end = end_of(watchpoint.address, watchpoint.length);
    let access_end = end_of(access.address, access.size.bytes());
    u64::from(access.address) < end && u64::from(watchpoint.address) < access_end
}

/// Returns whether a watchpoint is for an access.
fn watches(watchpoint: Watchpoint, access: &Access) -> bool
    ensures { result ≡ watches watchpoint access.now }
{
    watches_kind(watchpoint.kind, access.kind) && shares_byte(watchpoint, access)
}

/// Returns what an access hits of a watchpoint that is for it.
fn hit_by(access: &Access, watchpoint: Option<Watchpoint>) -> Option<WatchHit>
    ensures { result ≡ hit_by access.now watchpoint }
{
    let watchpoint = watchpoint?;
    Some(WatchHit {
        kind: watchpoint.kind,
        address: watchpoint.address.max(access.address),
    })
}

/// The watchpoints that are set, in the order in which they were.
#[derive(Drop)]
pub struct Watchpoints {
    items: ArrayVec<Watchpoint, MAX_WATCHPOINTS>,
}

impl Model for Watchpoints {
    ghost use Rattle.std.specs.Prelude.{List};
    ghost use Rattle.gdb_texts.specs.declared.watchpoints.Watchpoint.{Watchpoint};

    ghost Value = { List Watchpoint };

    ghost view = { λ w. w.items.items };
}

impl Watchpoints {
    pub fn new() -> Self
        ensures { result ≡ [] }
    {
        Watchpoints {
            items: ArrayVec::new(),
        }
    }

    /// Returns whether no watchpoint is set.
    pub fn is_empty(&self) -> bool
        ensures { result ≡ (length self.now == 0) }
    {
        self.items.len() == 0
    }

    /// Returns whether a watchpoint is set.
    pub fn is_set(&self, watchpoint: Watchpoint) -> bool
        ensures { result ≡ is_set self.now watchpoint }
    {
        self.items
            .as_slice()
            .iter()
            .any(|other| is_same(watchpoint, *other))
    }

    /// Sets a watchpoint, and returns the reply.
    pub fn insert(&mut self, watchpoint: Watchpoint) -> Reply
        ensures reply { result ≡ insertion self.old watchpoint }
        ensures kept { self.new ≡ with_watchpoint self.old watchpoint }
    {
        if self.is_set(watchpoint) {
            Reply::Done
        } else if self.items.len() < MAX_WATCHPOINTS {
            self.items.push(watchpoint);
            Reply::Done
        } else {
            Reply::Error(ErrorCode::NoRoom)
        }
    }

    /// Returns the place of a watchpoint in the list.
    fn index_of(&self, watchpoint: Watchpoint) -> Option<usize>
        ensures value { result ≡ position (λ other. is_same watchpoint other) self.now }
        ensures within { IfSome result (λ index. index < length self.now) }
    {
        self.items
            .as_slice()
            .iter()
            .position(|other| is_same(watchpoint, *other))
    }

    /// Takes a watchpoint away, where it is set.
    pub fn remove(&mut self, watchpoint: Watchpoint)
        ensures { self.new ≡ without_watchpoint self.old watchpoint }
    {
        if let Some(index) = self.index_of(watchpoint) {
            let _removed = self.items.remove(index);
        }
    }

    /// Returns the first watchpoint that is for an access.
    fn first_watching(&self, access: &Access) -> Option<Watchpoint>
        ensures { result ≡ find (λ w. watches w access.now) self.now }
    {
        self.items
            .as_slice()
            .iter()
            .copied()
            .find(|watchpoint| watches(*watchpoint, access))
    }

    /// Returns what a granted access hits: the first watchpoint set that is for it.
    pub fn hit_of(&self, access: &Access) -> Option<WatchHit>
        ensures { result ≡ hit_of self.now access.now }
    {
        hit_by(access, self.first_watching(access))
    }
}
