//! A world, the places of a board, and what unprivileged code may do at an address.

ghost use Rattle.std.specs.Bool.{Decides};
ghost use Rattle.std.specs.Prelude.{◌≡◌, ◌+◌, ◌≤◌, ◌<◌, IfNone, IfSome};
ghost use Rattle.access_map.specs.Worlds.{decision_in, end_of, first_of, holds_code, is_in_place, places};
ghost use Rattle.access_map.specs.Worlds.{rights_at, rule_at, size_of, takes_stores};
ghost use Rattle.platform.specs.Boards.{numbers_of};

use mpu::{Decider, Decision, Kind, MpuRegs, Rule, Search, Span};
use platform::board::Layout;
use platform::map::RAM_BASE;

/// Returns the places of a board, in the order of their addresses.
pub fn places(board: &Layout) -> &'static [Place]
    ensures { result.now ≡ places (numbers_of board.now) }
{
    let Some(second) = board.second_ram else {
        return &[Place::Flash, Place::Ram, Place::Window];
    };
    if second.base < board.flash_base {
        &[Place::SecondRam, Place::Flash, Place::Ram, Place::Window]
    } else if second.base < RAM_BASE {
        &[Place::Flash, Place::SecondRam, Place::Ram, Place::Window]
    } else if second.base < WINDOW_BASE {
        &[Place::Flash, Place::Ram, Place::SecondRam, Place::Window]
    } else {
        &[Place::Flash, Place::Ram, Place::Window, Place::SecondRam]
    }
}

/// Where the device window begins.
const WINDOW_BASE: u32 = 0x4000_0000;

/// The bytes of the device window.
const WINDOW_SIZE: u32 = 0x1000;

/// A setting of the MPU under which unprivileged code runs.
#[derive(Clone, Copy)]
pub struct World {
    /// MPU_CTRL, and RBAR and RASR of each region.
    pub registers: MpuRegs,
    /// Whether the execution priority is below 0.
    pub below_zero: bool,
}

/// What unprivileged code may do with a byte.
#[derive(Clone, Copy)]
pub struct Rights {
    pub read: bool,
    pub write: bool,
    pub execute: bool,
}

/// A part of a board in which addresses neighbour.
#[derive(Clone, Copy)]
pub enum Place {
    Flash,
    Ram,
    /// The second RAM, where a board has one.
    SecondRam,
    /// The device window.
    Window,
}

impl World {
    /// Returns the decision on an access of that kind by unprivileged code.
    pub fn decide(&self, address: u32, kind: Kind) -> Decision
        ensures { result ≡ decision_in self.now address kind }
    {
        Search::fresh(&self.registers).decide(address, kind, false, self.below_zero)
    }

    /// Returns what unprivileged code may do with the byte at an address of a place.
    #[tactic(auto, unfolding(crate::specs::Worlds::rights_at))]
    pub fn rights_at(&self, place: Place, address: u32) -> Rights
        ensures { result ≡ rights_at self.now place address }
    {
        Rights {
            read: self.decide(address, Kind::Load).granted,
            write: place.takes_stores() && self.decide(address, Kind::Store).granted,
            execute: place.holds_code() && self.decide(address, Kind::Fetch).granted,
        }
    }

    /// Returns the rule that decides a load of unprivileged code.
    #[tactic(auto, unfolding(crate::specs::Worlds::rule_at))]
    pub fn rule_at(&self, address: u32) -> Rule
        ensures { result ≡ rule_at self.now address }
    {
        self.decide(address, Kind::Load).rule
    }
}

impl Rights {
    /// Returns whether these are the same rights.
    pub fn is_same(self, other: Rights) -> bool
        ensures { Decides result (self ≡ other) }
    {
        self.read == other.read && self.write == other.write && self.execute == other.execute
    }
}

impl Place {
    /// Returns whether a store changes the place.
    fn takes_stores(self) -> bool
        ensures { result ≡ takes_stores self }
    {
        match self {
            Place::Flash => false,
            Place::Ram | Place::SecondRam | Place::Window => true,
        }
    }

    /// Returns whether code is fetched from the place.
    fn holds_code(self) -> bool
        ensures { result ≡ holds_code self }
    {
        match self {
            Place::Flash | Place::Ram | Place::SecondRam => true,
            Place::Window => false,
        }
    }

    /// Returns the addresses of the place on a board, None where it is a second RAM that the board doesn't have.
    #[tactic(auto, using(crate::proofs::Spanning::memory_ends))]
    pub fn span(self, board: &Layout) -> Option<Span>
        ensures none { IfNone result (size_of (numbers_of board.now) self ≡ 0) }
        ensures first { IfSome result (λ span. span.first ≡ first_of (numbers_of board.now) self) }
        ensures last { IfSome result (λ span. span.last + 1 ≡ end_of (numbers_of board.now) self) }
        ensures some { IfSome result (λ span. span.first ≤ span.last) }
        ensures below { IfSome result (λ span. span.last < 0xE000_0000) }
    {
        let (first, size) = match self {
            Place::Flash => (board.flash_base, board.flash_size),
            Place::Ram => (RAM_BASE, board.ram_size),
            Place::SecondRam => match board.second_ram {
                Some(second) => (second.base, second.size),
                None => return None,
            },
            Place::Window => (WINDOW_BASE, WINDOW_SIZE),
        };
        Some(Span {
            first,
            last: first + (size - 1),
        })
    }

    /// Returns whether an address is in the place on a board.
    #[tactic(auto, using(crate::proofs::Spanning::has_lemmas))]
    pub fn has(self, board: &Layout, address: u32) -> bool
        ensures { result ≡ is_in_place (numbers_of board.now) self address }
    {
        match self.span(board) {
            Some(span) => span.first <= address && address <= span.last,
            None => false,
        }
    }
}
