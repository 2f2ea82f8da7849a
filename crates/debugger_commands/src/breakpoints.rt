//! The breakpoints of a session.

ghost use Rattle.std.specs.Prelude.{◌≡◌, []};
ghost use Rattle.debugger_commands.specs.Breakpoints.{breakpoint_text, has, with_breakpoint};

use crate::texts::Reply;
use arrayvec::ArrayVec;
use std::marker::Model;

/// The most breakpoints.
pub const MAX_BREAKPOINTS: usize = 16;

/// The addresses at which a breakpoint is set.
#[derive(Drop)]
pub struct Breakpoints {
    addresses: ArrayVec<u32, MAX_BREAKPOINTS>,
}

impl Model for Breakpoints {
    ghost use Rattle.std.specs.Prelude.{ℕ, List};

    ghost Value = { List ℕ };

    ghost view = { λ b. b.addresses.items };
}

impl Breakpoints {
    pub fn new() -> Self
        ensures { result ≡ [] }
    {
        Breakpoints {
            addresses: ArrayVec::new(),
        }
    }

    /// Returns whether a breakpoint is set at an address.
    pub fn has(&self, address: u32) -> bool
        ensures { result ≡ has self.now address }
    {
        self.addresses
            .as_slice()
            .iter()
            .any(|breakpoint| *breakpoint == address)
    }

    /// Sets a breakpoint, and returns the answer.
    pub fn set(&mut self, address: u32) -> Reply
        ensures text { result ≡ breakpoint_text self.old address }
        ensures kept { self.new ≡ with_breakpoint self.old address }
    {
        let mut page = Reply::new();
        if self.has(address) {
            page.put(b"ok\n");
        } else if self.addresses.len() < MAX_BREAKPOINTS {
            self.addresses.push(address);
            page.put(b"ok\n");
        } else {
            page.put(b"error 3\n");
        }
        page
    }
}
