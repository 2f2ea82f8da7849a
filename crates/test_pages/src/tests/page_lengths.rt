//! How long a page is at most: the page of a survey in which each part is filled.

use super::page_worlds::world_of;
use super::pages::IMAGE;
use super::worlds::EVERYWHERE;
use access_map::Worlds;
use elf::load;
use machine::{Board, Events, Fast, Kind, Layout, Place, RegionCount, Rule, Stop};
use page_text::access_table::AccessTable;
use page_text::words::{KINDS, OUTCOMES, RULE_ROWS, rule_of_row};
use platform::access::{Access, Cause, DecidedAccess};
use platform::event::RecordedFault;
use report::{Report, write_page};
use std::str;
use std::test::*;
use survey::{
    MAX_BYTES, MAX_CELLS, MAX_COLUMNS, MAX_ROWS, MAX_SETTINGS, StepStart, Survey, Touch, WAYS,
};
use symbols::{Symbol, Symbols};

/// The most bytes of a page: 2 MiB, for which `marm report` takes memory before the run.
const MAX_PAGE_BYTES: usize = 0x20_0000;

/// How many characters a number of 20 digits has more than one of a single digit: 19 in its attribute, and 25 with its
/// commas.
const MORE_DIGITS: usize = 44;

/// The most that is added by what the survey of this test leaves short: the names of 256 pending and of 256 active
/// exceptions, of 14 bytes each with a comma; the lane of sleep, of 512 boxes of 17 bytes; the strips of what is
/// granted, which 16 regions of 8 subregions cut in 128 places, of 3 strips, with two boxes of 20 bytes each; the bits
/// of CFSR and HFSR, MMFAR and BFAR, of 4,096 bytes; and 12 numbers without an attribute, of 26 bytes.
const LEFT_SHORT: usize = 2 * 256 * 14 + 512 * 17 + 128 * 3 * 2 * 20 + 4096 + 12 * 26;

/// A board of the largest sizes.
const LARGEST_BOARD: Layout = Layout {
    flash_base: 0,
    flash_size: 0x10_0000,
    ram_size: 0x10_0000,
    second_ram: None,
    priority_bits: 8,
    interrupts: 240,
    regions: RegionCount::Sixteen,
};

/// How many symbols have instructions: one more than have rows.
const SYMBOLS: u32 = 21;

/// How many ticks a column has, so that each lane can be marked in it.
const COLUMN_TICKS: usize = 32;

/// RASR of a region of 256 bytes with the longest words: all may be done, and all subregions are off.
const LONGEST_SETTING: u32 = 0x0300_FF0F;

/// How many worlds there are: one more than have columns.
const WORLDS: u32 = 9;

/// RASR of a region of 256 bytes that may be read, written and executed, with every second subregion off.
const EVERY_SECOND: u32 = 3 << 24 | 0xAA << 8 | 7 << 1 | 1;

/// A survey that is filled, its machine, and an access of two bytes.
#[derive(Drop)]
struct Filled {
    survey: Survey,
    machine: Fast,
    access: Access,
}

impl Filled {
    /// Returns a survey of a step on the largest board.
    fn new(rt: &HostRuntime) -> Result<Self, Fail> {
        let board = Board {
            layout: LARGEST_BOARD,
            events: Vec::new(rt.alloc()),
            devices: Vec::new(rt.alloc()),
        };
        let mut machine = Fast::new(rt.alloc(), &load(&IMAGE)?, &board)?;
        let survey = Survey::new(rt.alloc(), &LARGEST_BOARD)?;
        let mut events = Events::new();
        let _ = machine.step(&mut events);
        let event = events.as_slice().first().ok_or("an event")?;
        let access = event.what.access().ok_or("an access")?.access;
        Ok(Filled {
            survey,
            machine,
            access,
        })
    }

    /// Returns an access of a rule in one of the ways: a privilege, a kind and an outcome.
    fn of_way(&self, rule: Rule, way: usize) -> DecidedAccess {
        DecidedAccess {
            access: Access {
                kind: KINDS[way / 3 % 7],
                privileged: way >= WAYS / 2,
                ..self.access
            },
            rule,
            refused: OUTCOMES[way % 3],
        }
    }

    /// Returns an access at an address that the default map refuses.
    fn refused_at(&self, address: u32, privileged: bool) -> DecidedAccess {
        DecidedAccess {
            access: Access {
                address,
                kind: Kind::Pop,
                privileged,
                ..self.access
            },
            rule: Rule::MpuOff,
            refused: Some(Cause::Mpu),
        }
    }

    /// Counts an access of each way by a rule.
    fn count_ways(&mut self, rule: Rule) {
        'ways: for way in 0..WAYS {
            let decided = self.of_way(rule, way);
            self.survey.counts.count(&decided);
        }
    }

    /// Places a word.
    fn place(&mut self, address: u32, value: u32) -> Result<(), Fail> {
        match self.machine.place(Place::Word(address, value)) {
            Ok(()) => Ok(()),
            Err(_) => Err(Fail::new("a word that is placed")),
        }
    }

    /// Sets a region, by RBAR with VALID and by RASR, and takes an access of each way that it decides.
    fn take_setting(&mut self, number: u8, base: u32) -> Result<(), Fail> {
        let selected = base | 0x10 | u32::from(number);
        self.place(0xE000_ED9C, selected)?;
        self.place(0xE000_EDA0, LONGEST_SETTING)?;
        let mpu = *self.machine.mpu();
        'ways: for way in 0..WAYS {
            let decided = self.of_way(Rule::Region(number), way);
            self.survey.settings.take_access(&mpu, &decided);
        }
        Ok(())
    }

    /// Takes accesses by one setting more than have rows.
    fn take_settings(&mut self) -> Result<(), Fail> {
        'settings: for setting in 0..=MAX_SETTINGS as u32 {
            let base = setting.wrapping_mul(256).wrapping_add(0x2000_0000);
            self.take_setting((setting % 16) as u8, base)?;
        }
        Ok(())
    }

    /// Takes one fault more than have rows, each with a refused access and all bits of CFSR and HFSR.
    fn take_faults(&mut self) {
        'rows: for pc in 0..=MAX_ROWS as u32 {
            let decided = self.refused_at(0x2000_0000, false);
            let recorded = RecordedFault {
                exception: 12,
                cfsr: u32::MAX,
                hfsr: u32::MAX,
            };
            self.survey.faults.take_access(&decided);
            self.survey.faults.take_fault(pc, u64::MAX, &recorded);
            self.survey.faults.end_step();
        }
    }

    /// Takes an instruction of code of both privileges at the address of each symbol.
    fn take_instructions(&mut self) {
        'symbols: for symbol in 0..SYMBOLS {
            let address = symbol.wrapping_mul(2);
            'privileges: for privileged in [false, true] {
                let fetched = DecidedAccess {
                    access: Access {
                        address,
                        kind: Kind::Fetch,
                        privileged,
                        ..self.access
                    },
                    rule: Rule::MpuOff,
                    refused: None,
                };
                self.survey.flash_code.take_access(address, &fetched);
            }
        }
    }

    /// Touches the cell of an address, by code of both privileges.
    fn touch(&mut self, address: u32, touch: Touch) {
        'privileges: for privileged in [false, true] {
            let decided = self.refused_at(address, privileged);
            self.survey.flash.take_touch(&decided, Some(touch));
            self.survey.ram.take_touch(&decided, Some(touch));
        }
    }

    /// Touches each cell of a memory, neighbours in different ways.
    fn touch_cells(&mut self, base: u32) {
        'cells: for cell in 0..MAX_CELLS as u32 {
            let address = cell.wrapping_mul(1024).wrapping_add(base);
            self.touch(address, Touch::Refused);
            if cell % 2 == 0 {
                self.touch(address, Touch::Read);
                self.touch(address, Touch::Written);
                self.touch(address, Touch::Executed);
            }
        }
    }

    /// Returns what runs at a tick of a column: code of both privileges, 25 handlers, and sleep.
    fn moment(&self, tick: usize) -> StepStart {
        let exception = match tick {
            2..27 => tick as u16 + 200,
            _ => 0,
        };
        StepStart {
            pc: 0,
            exception,
            privileged: tick != 0,
            asleep: tick >= 27,
            mpu: *self.machine.mpu(),
        }
    }

    /// Marks every second column in each lane, and the others in that of sleep.
    fn take_ticks(&mut self) {
        let refused = self.refused_at(0, false);
        let written = DecidedAccess {
            access: Access {
                address: 0xE000_ED9C,
                kind: Kind::Store,
                ..self.access
            },
            rule: Rule::PrivatePeripheralBus,
            refused: None,
        };
        'ticks: for tick in 0..MAX_COLUMNS * COLUMN_TICKS {
            let is_marked = tick / COLUMN_TICKS % 2 == 0;
            let moment = self.moment(if is_marked { tick % COLUMN_TICKS } else { 31 });
            self.survey.begin_step(&moment);
            if is_marked {
                self.survey.timeline.take_access(&refused);
                self.survey.timeline.take_access(&written);
            }
        }
    }

    /// Prints one byte more than is shown, each of which HTML acts on.
    fn print(&mut self) {
        'bytes: for _ in 0..=MAX_BYTES {
            self.survey.console.take_byte(b'"');
        }
    }

    /// Fills each part.
    fn fill(&mut self) -> Result<(), Fail> {
        'rules: for row in 0..RULE_ROWS {
            self.count_ways(rule_of_row(row));
        }
        self.take_settings()?;
        self.take_faults();
        self.take_instructions();
        self.touch_cells(0);
        self.touch_cells(0x2000_0000);
        self.take_ticks();
        self.print();
        Ok(())
    }
}

/// Returns steps of one world more than have columns. Each may read and write all of RAM, and may execute subregions of
/// its own.
fn shared_worlds(rt: &HostRuntime) -> Result<Worlds, Fail> {
    let mut worlds = Worlds::new(rt.alloc())?;
    'worlds: for world in 0..WORLDS {
        let base = world.wrapping_mul(256).wrapping_add(0x2000_0000);
        let regions = [(0, EVERYWHERE), (base, EVERY_SECOND)];
        worlds.count(&world_of(&regions)?, u64::MAX, 0);
    }
    Ok(worlds)
}

/// Returns the page of a filled survey, in which each name is one that is cut, of characters of the longest escapes.
fn longest_page(rt: &HostRuntime, filled: &Filled) -> Result<Vec<u8>, Fail> {
    let name = "\u{E0001}".repeat(rt.alloc(), 97)?;
    let mut list = Vec::new(rt.alloc());
    list.push(Symbol {
        address: 0,
        size: u32::MAX,
        name: 0,
    })?;
    'symbols: for symbol in 0..SYMBOLS {
        list.push(Symbol {
            address: symbol.wrapping_mul(2),
            size: 2,
            name: 0,
        })?;
    }
    let symbols = Symbols {
        strings: name.as_bytes(),
        list,
        damaged: false,
    };
    let worlds = shared_worlds(rt)?;
    let access_table = AccessTable::of(rt.alloc(), &worlds, &LARGEST_BOARD)?;
    let report = Report {
        image: name.as_str(),
        board: name.as_str(),
        limit: u64::MAX,
        stop: Stop::Breakpoint(255),
        survey: &filled.survey,
        machine: &filled.machine,
        symbols: &symbols,
        worlds: &worlds,
        access_table: &access_table,
    };
    let mut page = Vec::new(rt.alloc());
    write_page(&mut page, &report)?;
    Ok(page)
}

/// Each counter has a digit here: the bound adds the digits that it may have.
#[test]
fn the_longest_page_has_less_than_2_mebibytes(rt: HostRuntime) -> Result<(), Fail> {
    let mut filled = Filled::new(&rt)?;
    filled.fill()?;
    let page = longest_page(&rt, &filled)?;
    let text = str::from_utf8(page.as_slice())?;
    let numbers = text.split("data-number='").count();
    let digits = numbers.saturating_mul(MORE_DIGITS);
    let most = page.len().saturating_add(digits).saturating_add(LEFT_SHORT);
    assert!(rt; numbers > 23 * 42 + 64 * 42);
    assert!(rt; text.contains("<div class='lanes' data-columns='1024' data-column-ticks='32'>"));
    assert!(rt; text.contains("id='other-settings' data-number='42'"));
    assert!(rt; text.contains("<tr id='code-19'") && text.contains("<tr id='code-others'"));
    assert!(rt; text.contains("id='lane-other-handlers' data-columns='512'"));
    assert!(rt; text.contains("<tr id='may-31'") && text.contains("id='other-rows'"));
    assert!(rt; text.contains("id='shares-63'") && text.contains("id='other-shares'"));
    assert!(rt;
        text.contains(
            "<td class='changes' data-label='world 8'><code>rw-</code> <b>→ 1 2 3 4 5 6 7</b>"
        )
    );
    assert!(rt;
        most < MAX_PAGE_BYTES,
        "{most} bytes, of which {digits} are of digits"
    );
    Ok(())
}
