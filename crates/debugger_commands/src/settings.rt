//! What a session keeps beside the machine and the line: which lines steps have, and what ends a run.

ghost use Rattle.std.specs.Prelude.{◌≡◌, ◌+◌, ◌≤◌, ◌++◌, length};
ghost use Rattle.debugger_commands.specs.Breakpoints.{has};
ghost use Rattle.debugger_commands.specs.Conditions.{access_hit, first_hit, has_line, hit_if, hit_of, is_printed};
ghost use Rattle.debugger_commands.specs.Conditions.{is_plain, run_end_text};
ghost use Rattle.debugger_commands.specs.Settings.{block_line, facts_text, number_line, ok_text, opened_settings};
ghost use Rattle.debugger_commands.specs.Settings.{memory_lines, second_ram_line, settings_after, settings_text};
ghost use Rattle.debugger_commands.specs.Settings.{with_condition};
ghost use Rattle.debugger_commands.specs.Settings.{without_conditions};
ghost use Rattle.platform.specs.Boards.{numbers_of};

use crate::breakpoints::Breakpoints;
use crate::commands::{Command, LineError};
use crate::conditions::{Condition, Hit, LineSelection, put_hits};
use crate::texts::{Reply, end_text, error_text};
use crate::watchpoints::Watchpoints;
use platform::access::DecidedAccess;
use platform::board::Layout;
use platform::event::{Event, EventKind};
use platform::stop::Stop;
use std::marker::Model;

/// Where RAM begins.
const RAM_BASE: u32 = 0x2000_0000;

/// Which lines steps have, what ends a run, whether the session has scripts, the board's numbers, and how many slots
/// there are for states of the machine.
#[derive(Drop)]
pub struct Settings {
    layout: Layout,
    slots: u8,
    breakpoints: Breakpoints,
    watchpoints: Watchpoints,
    refused: bool,
    faults: bool,
    exceptions: bool,
    selection: LineSelection,
    is_script: bool,
}

impl Model for Settings {
    ghost use Rattle.debugger_commands.specs.Settings.{Settings as Chosen};
    ghost use Rattle.platform.specs.Boards.{numbers_of};

    ghost Value = { Chosen };

    ghost view = { λ k. record {
      board = numbers_of k.layout;
      slots = k.slots;
      breakpoints = k.breakpoints;
      watchpoints = k.watchpoints;
      refused = k.refused;
      faults = k.faults;
      exceptions = k.exceptions;
      selection = k.selection;
      is_script = k.is_script;
    } };
}

impl Settings {
    /// Returns the settings before the first line of a session on a board, with slots for states of the machine.
    pub fn new(layout: Layout, slots: u8) -> Self
        ensures { result ≡ opened_settings (numbers_of layout) slots }
    {
        Settings {
            layout,
            slots,
            breakpoints: Breakpoints::new(),
            watchpoints: Watchpoints::new(),
            refused: false,
            faults: false,
            exceptions: false,
            selection: LineSelection::All,
            is_script: false,
        }
    }

    /// Returns the same settings with nothing that ends a run.
    pub fn without_conditions(&self) -> Self
        ensures { result ≡ without_conditions self.now }
    {
        Settings {
            layout: self.layout,
            slots: self.slots,
            breakpoints: Breakpoints::new(),
            watchpoints: Watchpoints::new(),
            refused: false,
            faults: false,
            exceptions: false,
            selection: self.selection,
            is_script: self.is_script,
        }
    }

    /// Returns how many slots there are for states of the machine.
    pub fn slots(&self) -> u8
        ensures { result ≡ self.now.slots }
    {
        self.slots
    }

    /// Returns whether the session has scripts.
    pub fn is_script(&self) -> bool
        ensures { result ≡ self.now.is_script }
    {
        self.is_script
    }

    /// Returns whether a breakpoint is set at an address.
    pub fn has_breakpoint(&self, address: u32) -> bool
        ensures { result ≡ has self.now.breakpoints address }
    {
        self.breakpoints.has(address)
    }

    /// Takes a line that neither makes a step, nor shows or changes the machine, and returns its answer.
    pub fn take(&mut self, asked: Result<Command, LineError>) -> Reply
        ensures text { result ≡ settings_text self.old asked }
        ensures kept { self.new ≡ settings_after self.old asked }
    {
        match asked {
            Ok(Command::Break(address)) => self.breakpoints.set(address),
            Ok(Command::Watch(watchpoint)) => self.watchpoints.set(watchpoint),
            Ok(Command::Trace(selection)) => {
                self.selection = selection;
                ok_text()
            }
            Ok(Command::Stop(what, on)) => {
                self.set_condition(what, on);
                ok_text()
            }
            Ok(Command::Clear) => {
                self.clear();
                ok_text()
            }
            Ok(Command::Script) => {
                self.is_script = true;
                facts_text(&self.layout, self.slots)
            }
            Ok(
                Command::Run(_)
                | Command::Task(_)
                | Command::Show(_)
                | Command::Quit
                | Command::Change(_),
            ) => Reply::new(),
            Err(error) => error_text(error),
        }
    }

    /// Sets whether a run ends at something.
    fn set_condition(&mut self, what: Condition, on: bool)
        ensures { self.new ≡ with_condition self.old what on }
    {
        match what {
            Condition::Refused => self.refused = on,
            Condition::Faults => self.faults = on,
            Condition::Exceptions => self.exceptions = on,
        }
    }

    /// Forgets what ends a run.
    fn clear(&mut self)
        ensures { self.new ≡ without_conditions self.old }
    {
        self.breakpoints = Breakpoints::new();
        self.watchpoints = Watchpoints::new();
        self.refused = false;
        self.faults = false;
        self.exceptions = false;
    }

    /// Returns what an event hits that ends a run.
    fn hit_of(&self, what: &EventKind) -> Option<Hit>
        ensures { result ≡ hit_of self.now what.now }
    {
        match what {
            EventKind::Accessed(decided) => self.access_hit(decided),
            EventKind::HandlerEntered(_) => hit_if(self.exceptions, Hit::Exception),
            EventKind::FaultRecorded(_) => hit_if(self.faults, Hit::Fault),
            EventKind::ConsoleByte(_) | EventKind::ReturnBegan(_) => None,
        }
    }

    /// Returns what an access hits that ends a run: a watchpoint is met by a granted access alone.
    fn access_hit(&self, decided: &DecidedAccess) -> Option<Hit>
        ensures { result ≡ access_hit self.now decided.now decided.now.refused }
    {
        match decided.refused {
            Some(_) => hit_if(self.refused, Hit::Refused),
            None => match self.watchpoints.met(&decided.access) {
                Some(number) => Some(Hit::Watch(number)),
                None => None,
            },
        }
    }

    /// Returns what is hit by the first event that ends a run.
    pub fn first_hit(&self, events: &[Event]) -> Option<Hit>
        ensures { result ≡ first_hit self.now events.now }
    {
        'events: for event in events {
            match self.hit_of(&event.what) {
                Some(hit) => return Some(hit),
                None => {}
            }
        }
        None
    }

    /// Returns whether a printed byte has a line that the selection of a whole run hasn't.
    fn is_printed(&self, what: &EventKind) -> bool
        ensures { result ≡ is_printed self.now what.now }
    {
        self.is_script && self.selection.has_lines() && what.byte().is_some()
    }

    /// Returns whether an event has its line.
    pub fn has_line(&self, what: &EventKind) -> bool
        ensures { result ≡ has_line self.now what.now }
    {
        self.selection.traced().selects(what)
            || self.is_printed(what)
            || self.hit_of(what).is_some()
    }

    /// Returns whether every event has its line, and none ends a run.
    pub fn is_plain(&self) -> bool
        ensures { result ≡ is_plain self.now }
    {
        self.selection.is_all()
            && self.watchpoints.is_empty()
            && !(self.refused || self.faults || self.exceptions)
    }

    /// Returns the text of the end of a run: what was hit, in a session with scripts, and where the machine is.
    pub fn run_end_text(&self, hit: Option<Hit>, stop: Option<Stop>, pc: u32) -> Reply
        ensures { result ≡ run_end_text self.now hit pc stop }
    {
        let mut page = Reply::new();
        put_hits(&mut page, self.is_script, hit);
        page.put_slice(end_text(stop, pc).as_slice());
        page
    }
}

/// Returns what is hit, where it ends a run.
fn hit_if(on: bool, hit: Hit) -> Option<Hit>
    ensures { result ≡ hit_if on hit }
{
    if on { Some(hit) } else { None }
}

/// Returns the answer to a command that is carried out.
pub fn ok_text() -> Reply
    ensures { result ≡ ok_text }
{
    let mut page = Reply::new();
    page.put(b"ok\n");
    page
}

/// Appends the line of a block of memory, by its name with a space.
fn put_block(page: &mut Reply, name: &[u8], base: u32, size: u32)
    requires name { length name.now ≤ 14 }
    requires room { length page.old + 44 ≤ 1024 }
    ensures text { page.new ≡ page.old ++ block_line name.now base size }
    ensures short { length page.new ≤ length page.old + 44 }
{
    page.put_slice(name);
    page.put_word(base);
    page.put(b" ");
    page.put_decimal(u64::from(size));
    page.put(b"\n");
}

/// Appends the lines of the blocks of memory.
#[tactic(auto, unfolding(crate::specs::Settings::memory_lines))]
fn put_memory(page: &mut Reply, layout: &Layout)
    requires { length page.old + 132 ≤ 1024 }
    ensures text { page.new ≡ page.old ++ memory_lines (numbers_of layout.now) }
    ensures short { length page.new ≤ length page.old + 132 }
{
    put_block(page, b"flash ", layout.flash_base, layout.flash_size);
    put_block(page, b"ram ", RAM_BASE, layout.ram_size);
    put_second_ram(page, layout);
}

/// Appends the line of the second RAM, where the board has one.
fn put_second_ram(page: &mut Reply, layout: &Layout)
    requires { length page.old + 44 ≤ 1024 }
    ensures text { page.new ≡ page.old ++ second_ram_line (numbers_of layout.now).second_ram }
    ensures short { length page.new ≤ length page.old + 44 }
{
    if let Some(second) = layout.second_ram {
        put_block(page, b"second_ram ", second.base, second.size);
    }
}

/// Appends the line of a number, by its name with a space.
fn put_number(page: &mut Reply, name: &[u8], number: u8)
    requires name { length name.now ≤ 14 }
    requires room { length page.old + 35 ≤ 1024 }
    ensures text { page.new ≡ page.old ++ number_line name.now number }
    ensures short { length page.new ≤ length page.old + 35 }
{
    page.put_slice(name);
    page.put_decimal(u64::from(number));
    page.put(b"\n");
}

/// Returns the numbers of the board, and how many states of the machine can be saved.
#[tactic(auto, unfolding(crate::specs::Settings::facts_text))]
fn facts_text(layout: &Layout, slots: u8) -> Reply
    ensures { result ≡ facts_text (numbers_of layout.now) slots }
{
    let mut page = Reply::new();
    put_number(&mut page, b"script ", 1);
    put_memory(&mut page, layout);
    put_number(&mut page, b"priority_bits ", layout.priority_bits);
    put_number(&mut page, b"lines ", layout.interrupts);
    put_number(&mut page, b"regions ", layout.regions.number());
    put_number(&mut page, b"slots ", slots);
    page
}
