//! The worlds of a run, and how many steps each of them had.

ghost use Rattle.std.specs.Prelude.{◌≡◌, ◌<◌, ◌≤◌, length, take, IfOk};
ghost use Rattle.access_map.specs.Counting.{counted, counted_from, counted_row, added, first_row, no_worlds};
ghost use Rattle.access_map.specs.Counting.{place_in, place_of};

use crate::world::World;
use mpu::MpuRegs;
use std::alloc::{AllocError, Global};
use std::marker::Model;

/// How many worlds have rows at most.
pub const MAX_WORLDS: usize = 64;

/// A world, and the steps in it.
#[derive(Clone, Copy)]
pub struct WorldSteps {
    pub world: World,
    /// How many there were. The number stays at its highest value, 2^64 - 1.
    pub steps: u64,
    /// The tick in which the first began.
    pub tick: u64,
    /// The PC of the first.
    pub pc: u32,
    /// The lowest PC of all.
    pub lowest: u32,
    /// The highest PC of all.
    pub highest: u32,
}

/// The worlds of a run, in the order of their first steps.
#[derive(Drop)]
pub struct Worlds {
    rows: Vec<WorldSteps>,
    used: usize,
    others: u64,
}

impl Model for Worlds {
    ghost use Rattle.std.specs.Prelude.{◌≡◌, ◌≤◌, length};
    ghost use Rattle.access_map.specs.Counting.{Worlds as WorldsView};

    ghost Value = { WorldsView };

    ghost view = { λ w. record { rows = w.rows.items; used = w.used; others = w.others } };

    ghost invariant = { λ w. (length w.rows.items ≡ 64) × (w.used ≤ 64) };
}

impl Worlds {
    /// Returns no worlds.
    pub fn new(alloc: Global) -> Result<Self, AllocError>
        ensures { IfOk result (λ worlds. worlds ≡ no_worlds) }
    {
        let blank = WorldSteps::first(
            &World {
                registers: MpuRegs::new(8),
                below_zero: false,
            },
            0,
            0,
        );
        let rows = vec![in alloc; blank; MAX_WORLDS]?;
        Ok(Worlds {
            rows,
            used: 0,
            others: 0,
        })
    }

    /// Returns the rows, in the order of the worlds' first steps: the world of number 1 is the first.
    pub fn rows(&self) -> &[WorldSteps]
        ensures rows { result.now ≡ take self.now.used self.now.rows }
        ensures few { length result.now ≤ 64 }
    {
        &self.rows[..self.used]
    }

    /// Returns how many steps there were in worlds that have no row.
    pub fn others(&self) -> u64
        ensures { result ≡ self.now.others }
    {
        self.others
    }

    /// Returns the place of the row of a world, or the number of rows where it has none.
    pub fn place_of(&self, world: &World) -> usize
        ensures { result ≡ place_of world.now self.now }
    {
        place_in(world, self.rows())
    }

    /// Counts a step of a world, which began in a tick at a PC.
    pub fn count(&mut self, world: &World, tick: u64, pc: u32)
        ensures { self.new ≡ counted self.old world.now tick pc }
    {
        let place = self.place_of(world);
        self.count_at(world, tick, pc, place);
    }

    /// Counts a step of a world as `count` does, where the place of its row is known. The place stays, so steps of one
    /// world one after another need it once.
    #[tactic(auto, unfolding(crate::specs::Counting::counted))]
    pub fn count_at(&mut self, world: &World, tick: u64, pc: u32, place: usize)
        requires { place ≡ place_of world.now self.old }
        ensures value { self.new ≡ counted self.old world.now tick pc }
        ensures stays { place_of world.now self.new ≡ place }
    {
        self.count_from(world, tick, pc, place);
    }

    /// Counts a step of a world in the row at a place, or in a new row where there is none.
    fn count_from(&mut self, world: &World, tick: u64, pc: u32, place: usize)
        ensures value { self.new ≡ counted_from self.old world.now tick pc place }
        ensures rooms { length self.old.rows ≡ 64 }
    {
        if place < self.used {
            self.rows[place].count(pc);
        } else {
            self.add(world, tick, pc);
        }
    }

    /// Counts the first step of a world in a new row where there is a place for it, otherwise with the others.
    fn add(&mut self, world: &World, tick: u64, pc: u32)
        ensures { self.new ≡ added self.old world.now tick pc }
    {
        let used = self.used;
        if used < MAX_WORLDS {
            self.rows[used] = WorldSteps::first(world, tick, pc);
            self.used = used + 1;
        } else {
            self.others = self.others.saturating_add(1);
        }
    }
}

impl WorldSteps {
    /// Returns the row of a world after its first step.
    fn first(world: &World, tick: u64, pc: u32) -> Self
        ensures { result ≡ first_row world.now tick pc }
    {
        WorldSteps {
            world: *world,
            steps: 1,
            tick,
            pc,
            lowest: pc,
            highest: pc,
        }
    }

    /// Counts one more step, which began at a PC.
    fn count(&mut self, pc: u32)
        ensures { self.new ≡ counted_row self.old pc }
    {
        self.steps = self.steps.saturating_add(1);
        self.lowest = self.lowest.min(pc);
        self.highest = self.highest.max(pc);
    }
}

/// Returns the place of the first row of a world, or the number of rows where it has none.
fn place_in(world: &World, rows: &[WorldSteps]) -> usize
    ensures { result ≡ place_in world.now rows.now }
{
    'rows: for (place, row) in rows.iter().enumerate() {
        if world.is_same(&row.world) {
            return place;
        }
    }
    rows.len()
}
