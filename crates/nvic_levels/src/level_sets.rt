//! A set of exceptions for each priority byte, and a summary of which of them have an exception.

ghost use Rattle.std.specs.Prelude.{◌≡◌, ◌==◌, ◌&&◌, ◌<◌, ℕ, false, if◌then◌else◌};
ghost use Rattle.nvic_levels.specs.Sets.{IsFirstLevelled, level};
ghost use Rattle.platform.specs.Priorities.{is_in_words};

use crate::sets::{Set, empty, first, has_some, put};
use platform::exception::EXCEPTIONS;
use std::marker::Model;

/// A set for each priority byte. A contract sees the sets alone.
#[derive(Drop)]
pub struct LevelSets {
    sets: [Set; EXCEPTIONS as usize],
    /// The priority bytes whose sets have an exception.
    filled: Set,
}

impl Model for LevelSets {
    ghost use Rattle.std.specs.Prelude.{ℕ, List};
    ghost use Rattle.nvic_levels.specs.Sets.{IsSummaryOf};

    ghost Value = { List (List ℕ) };

    ghost view = { λ l. l.sets };

    ghost invariant = { λ l. IsSummaryOf l.sets l.filled };
}

impl LevelSets {
    /// Returns an empty set for each priority byte.
    pub fn empty() -> Self
        ensures { (p : ℕ) (x : ℕ) → is_in_words (level result p) x ≡ false }
    {
        let set = empty();
        LevelSets {
            sets: [set; EXCEPTIONS as usize],
            filled: empty(),
        }
    }

    /// Returns the set of a priority byte.
    #[inline]
    pub fn of(&self, priority: u8) -> &Set
        ensures { result.now ≡ level self.now priority }
    {
        &self.sets[priority as usize]
    }

    /// Puts an exception into the set of a priority byte, or takes it out.
    #[tactic(auto, using(crate::proofs::Bits::put_level))]
    pub fn put_at(&mut self, priority: u8, number: u8, on: bool)
        ensures { (p : ℕ) (y : ℕ) → y < 256 → is_in_words (level self.new p) y
            ≡ (if (p == priority) && (y == number) then on else is_in_words (level self.old p) y) }
    {
        let mut set = self.sets[priority as usize];
        put(&mut set, number, on);
        self.sets[priority as usize] = set;
        put(&mut self.filled, priority, has_some(&set));
    }

    /// Returns the first exception of the first set that isn't empty.
    pub fn first(&self) -> Option<u8>
        ensures { IsFirstLevelled self.now result }
    {
        match first(&self.filled) {
            Some(priority) => first(&self.sets[priority as usize]),
            None => None,
        }
    }

    pub fn copied(&self) -> Self
        ensures { result ≡ self.now }
    {
        LevelSets {
            sets: self.sets,
            filled: self.filled,
        }
    }
}
