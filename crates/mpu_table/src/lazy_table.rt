//! The table of the registers, made when enough decisions need it.

ghost use Rattle.std.specs.Prelude.{◌≡◌, true};
ghost use Rattle.mpu_table.specs.Tables.{DecidesFor};
ghost use Rattle.platform.specs.Regions.{Mpu};

use crate::table::Table;
use mpu::{Decider, Decision, Kind, KindDecisions, MpuRegs, Search, Span, before_regions};

/// How many decisions of regions are made by a search before the table is made: it takes as long as some of them.
const SEARCHES: u8 = 8;

/// The registers, and their table from the ninth decision of a region on. Loading registers copies them and makes no
/// table, so that a kernel which sets eight regions up at a switch pays for one at most, and not for one at each of its
/// writes.
#[derive(Drop)]
pub struct LazyTable {
    /// The registers, which it searches as long as their table isn't made.
    search: Search,
    /// The table of these registers, where it was made, and otherwise that of earlier ones.
    table: Table,
    is_made: bool,
    /// How many decisions were made by a search since the registers were loaded.
    searches: u8,
}

impl LazyTable {
    /// Makes the table, if it wasn't made since the registers were loaded, the regions decide such an access, and
    /// enough decisions were made by a search.
    fn make_table_for(&mut self, address: u32, kind: Kind, below_zero: bool)
        ensures { (m : Mpu) → ⟦<LazyTable as Decider>⟧.decides_for self.old m
            → ⟦<LazyTable as Decider>⟧.decides_for self.new m }
    {
        let registers = self.search.registers();
        if self.is_made
            || before_regions(registers.control(), address, kind, below_zero).is_some()
        {
            return;
        }
        if self.searches < SEARCHES {
            self.searches += 1;
        } else {
            self.table.reload(registers);
            self.is_made = true;
        }
    }
}

impl Decider for LazyTable {
    ghost decides_for = { λ t m. ⟦<Search as Decider>⟧.decides_for t.search m × (t.is_made ≡ true → DecidesFor t.table m) };

    fn fresh(registers: &MpuRegs) -> Self {
        LazyTable {
            search: Search::fresh(registers),
            table: Table::fresh(registers),
            is_made: true,
            searches: 0,
        }
    }

    fn reload(&mut self, registers: &MpuRegs) {
        self.search.reload(registers);
        self.is_made = false;
        self.searches = 0;
    }

    fn decide(&self, address: u32, kind: Kind, privileged: bool, below_zero: bool) -> Decision {
        if self.is_made {
            self.table.decide(address, kind, privileged, below_zero)
        } else {
            self.search.decide(address, kind, privileged, below_zero)
        }
    }

    fn decide_and_keep(
        &mut self,
        address: u32,
        kind: Kind,
        privileged: bool,
        below_zero: bool,
    ) -> Decision {
        self.make_table_for(address, kind, below_zero);
        self.decide(address, kind, privileged, below_zero)
    }

    fn decide_kinds(&self, address: u32, privileged: bool) -> KindDecisions {
        if self.is_made {
            self.table.decide_kinds(address, privileged)
        } else {
            self.search.decide_kinds(address, privileged)
        }
    }

    fn span(&self, address: u32) -> Span {
        if self.is_made {
            self.table.span(address)
        } else {
            self.search.span(address)
        }
    }
}
