//! Breakpoints, and the kinds of watchpoints.

ghost use Rattle.std.specs.Prelude.{◌≡◌, ◌==◌, ◌<◌, [], length, position, IfSome};
ghost use Rattle.gdb_texts.specs.Points.{insertion, is_same, is_same_kind, is_set, kind_at, with_breakpoint};
ghost use Rattle.gdb_texts.specs.Points.{without_breakpoint};

use crate::replies::{ErrorCode, Reply};
use arrayvec::ArrayVec;
use std::marker::Model;

/// The most breakpoints, of both kinds together.
pub const MAX_BREAKPOINTS: usize = 64;

/// How a breakpoint was set.
#[derive(Clone, Copy)]
pub enum BreakpointKind {
    /// By `Z0`.
    Software,
    /// By `Z1`.
    Hardware,
}

/// Which accesses a watchpoint is for.
#[derive(Clone, Copy)]
pub enum WatchKind {
    /// Writes: `Z2`.
    Write,
    /// Reads: `Z3`.
    Read,
    /// Both: `Z4`.
    Access,
}

impl Default for BreakpointKind {
    fn default() -> Self {
        BreakpointKind::Software
    }
}

/// A breakpoint: the machine stops before the instruction at its address.
#[derive(Clone, Copy, Default)]
pub struct Breakpoint {
    pub kind: BreakpointKind,
    pub address: u32,
}

/// Returns whether two kinds are equal.
fn is_same_kind(kind: BreakpointKind, other: BreakpointKind) -> bool
    ensures { result ≡ is_same_kind kind other }
{
    match (kind, other) {
        (BreakpointKind::Software, BreakpointKind::Software) => true,
        (BreakpointKind::Software, BreakpointKind::Hardware) => false,
        (BreakpointKind::Hardware, BreakpointKind::Software) => false,
        (BreakpointKind::Hardware, BreakpointKind::Hardware) => true,
    }
}

/// Returns whether two breakpoints are equal.
fn is_same(breakpoint: Breakpoint, other: Breakpoint) -> bool
    ensures { result ≡ is_same breakpoint other }
{
    is_same_kind(breakpoint.kind, other.kind) && breakpoint.address == other.address
}

/// The breakpoints that are set, in the order in which they were.
#[derive(Drop)]
pub struct Breakpoints {
    items: ArrayVec<Breakpoint, MAX_BREAKPOINTS>,
}

impl Model for Breakpoints {
    ghost use Rattle.std.specs.Prelude.{List};
    ghost use Rattle.gdb_texts.specs.declared.points.Breakpoint.{Breakpoint};

    ghost Value = { List Breakpoint };

    ghost view = { λ b. b.items.items };
}

impl Breakpoints {
    pub fn new() -> Self
        ensures { result ≡ [] }
    {
        Breakpoints {
            items: ArrayVec::new(),
        }
    }

    /// Returns whether no breakpoint is set.
    pub fn is_empty(&self) -> bool
        ensures { result ≡ (length self.now == 0) }
    {
        self.items.len() == 0
    }

    /// Returns whether a breakpoint is set.
    pub fn is_set(&self, breakpoint: Breakpoint) -> bool
        ensures { result ≡ is_set self.now breakpoint }
    {
        self.items
            .as_slice()
            .iter()
            .any(|other| is_same(breakpoint, *other))
    }

    /// Sets a breakpoint, and returns the reply.
    pub fn insert(&mut self, breakpoint: Breakpoint) -> Reply
        ensures reply { result ≡ insertion self.old breakpoint }
        ensures kept { self.new ≡ with_breakpoint self.old breakpoint }
    {
        if self.is_set(breakpoint) {
            Reply::Done
        } else if self.items.len() < MAX_BREAKPOINTS {
            self.items.push(breakpoint);
            Reply::Done
        } else {
            Reply::Error(ErrorCode::NoRoom)
        }
    }

    /// Returns the place of a breakpoint in the list.
    fn index_of(&self, breakpoint: Breakpoint) -> Option<usize>
        ensures value { result ≡ position (λ other. is_same breakpoint other) self.now }
        ensures within { IfSome result (λ index. index < length self.now) }
    {
        self.items
            .as_slice()
            .iter()
            .position(|other| is_same(breakpoint, *other))
    }

    /// Takes a breakpoint away, where it is set.
    pub fn remove(&mut self, breakpoint: Breakpoint)
        ensures { self.new ≡ without_breakpoint self.old breakpoint }
    {
        if let Some(index) = self.index_of(breakpoint) {
            let _removed = self.items.remove(index);
        }
    }

    /// Returns the kind of the breakpoint at an address: `Software` where both are set.
    pub fn kind_at(&self, address: u32) -> Option<BreakpointKind>
        ensures { result ≡ kind_at self.now address }
    {
        let software = Breakpoint {
            kind: BreakpointKind::Software,
            address,
        };
        let hardware = Breakpoint {
            kind: BreakpointKind::Hardware,
            address,
        };
        if self.is_set(software) {
            Some(BreakpointKind::Software)
        } else if self.is_set(hardware) {
            Some(BreakpointKind::Hardware)
        } else {
            None
        }
    }
}
