//! The faults that were recorded.

ghost use Rattle.std.specs.Prelude.{◌≡◌, ◌<◌, ◌≤◌, length, take, IfOk, None, false, option_copied};
ghost use Rattle.survey.specs.Faults.{is_same, is_same_access, is_same_record, is_same_refused, with_any_fault};
ghost use Rattle.survey.specs.Faults.{with_decided, with_end, with_fault, with_row};

use crate::counts::place_of_access;
use crate::fault::Fault;
use platform::access::DecidedAccess;
use platform::event::RecordedFault;
use std::alloc::{AllocError, Global};
use std::marker::Model;

/// How many rows there are at most.
pub const MAX_ROWS: usize = 64;

/// The first faults, each with how often it came, and the number of all.
#[derive(Drop)]
pub struct Faults {
    rows: Vec<Fault>,
    used: usize,
    number: u64,
    /// Whether a fault came for which there was no row.
    missed: bool,
    /// The access that the step that is being counted had refused since its last fault.
    refused: Option<DecidedAccess>,
}

impl Model for Faults {
    ghost use Rattle.std.specs.Prelude.{◌≡◌, ◌≤◌, length};
    ghost use Rattle.survey.specs.Faults.{Faults as FaultsView};

    ghost Value = { FaultsView };

    ghost view = { λ f. record { rows = f.rows.items; used = f.used; number = f.number; missed = f.missed; refused = f.refused } };

    ghost invariant = { λ f. (length f.rows.items ≡ 64) × (f.used ≤ 64) };
}

impl Faults {
    /// Returns no faults.
    pub fn new(alloc: Global) -> Result<Self, AllocError>
        ensures none { IfOk result (λ faults. faults.used ≡ 0) }
        ensures number { IfOk result (λ faults. faults.number ≡ 0) }
        ensures missed { IfOk result (λ faults. faults.missed ≡ false) }
        ensures refused { IfOk result (λ faults. faults.refused ≡ None) }
    {
        let rows = vec![in alloc; Fault::default(); MAX_ROWS]?;
        Ok(Faults {
            rows,
            used: 0,
            number: 0,
            missed: false,
            refused: None,
        })
    }

    /// Returns the rows, in the order in which they came first.
    pub fn rows(&self) -> &[Fault]
        ensures { result.now ≡ take self.now.used self.now.rows }
    {
        &self.rows[..self.used]
    }

    /// Returns how many faults were recorded. It stays at its highest value, 2^64 - 1.
    pub fn number(&self) -> u64
        ensures { result ≡ self.now.number }
    {
        self.number
    }

    /// Takes an access: a refused one is that of the fault that its step records next.
    #[inline(always)]
    pub fn take_access(&mut self, decided: &DecidedAccess)
        ensures { self.new ≡ with_decided self.old decided.now }
    {
        match decided.refused {
            None => {}
            Some(_) => self.refused = Some(*decided),
        }
    }

    /// Takes a fault that an instruction at `pc` recorded, if there is one.
    #[inline(always)]
    pub fn take_any_fault(&mut self, pc: u32, tick: u64, recorded: Option<&RecordedFault>)
        ensures { self.new ≡ with_any_fault pc self.old tick (option_copied recorded.entry) }
    {
        if let Some(recorded) = recorded {
            self.take_fault(pc, tick, recorded);
        }
    }

    /// Takes a fault that an instruction at `pc` recorded.
    #[inline(never)]
    pub fn take_fault(&mut self, pc: u32, tick: u64, recorded: &RecordedFault)
        ensures { self.new ≡ with_fault pc self.old tick recorded.now }
    {
        let fault = Fault {
            tick,
            pc,
            refused: self.refused,
            recorded: *recorded,
            times: 1,
        };
        self.count(&fault);
    }

    /// Ends a step: what it had refused is that of no later fault.
    #[inline(always)]
    pub fn end_step(&mut self)
        ensures { self.new ≡ with_end self.old }
    {
        self.refused = None;
    }

    /// Counts a fault: in the last row where it comes again at once, otherwise in a new row where there is a place for
    /// one.
    fn count(&mut self, fault: &Fault)
        ensures { self.new ≡ with_row self.old fault.now }
    {
        self.number = self.number.saturating_add(1);
        self.refused = None;
        let used = self.used;
        if !self.missed && used > 0 && is_same(&self.rows[used - 1], fault) {
            let times = self.rows[used - 1].times;
            self.rows[used - 1].times = times.saturating_add(1);
        } else if used < MAX_ROWS {
            self.rows[used] = *fault;
            self.used = used + 1;
        } else {
            self.missed = true;
        }
    }
}

/// Returns whether two faults are the same, the tick and the number of times apart.
fn is_same(one: &Fault, other: &Fault) -> bool
    ensures { result ≡ is_same one.now other.now }
{
    one.pc == other.pc
        && is_same_refused(&one.refused, &other.refused)
        && is_same_record(&one.recorded, &other.recorded)
}

/// Returns whether two accesses are the same, or both are none.
fn is_same_refused(one: &Option<DecidedAccess>, other: &Option<DecidedAccess>) -> bool
    ensures { result ≡ is_same_refused one.now other.now }
{
    match (one, other) {
        (None, None) => true,
        (None, Some(_)) => false,
        (Some(_), None) => false,
        (Some(one), Some(other)) => is_same_access(one, other),
    }
}

/// Returns whether two accesses have the same rule, privilege, kind, outcome, address and size.
fn is_same_access(one: &DecidedAccess, other: &DecidedAccess) -> bool
    ensures { result ≡ is_same_access one.now other.now }
{
    one.access.address == other.access.address
        && one.access.size.bytes() == other.access.size.bytes()
        && place_of_access(one) == place_of_access(other)
}

/// Returns whether two faults left the same status registers, and made the same exception pending.
fn is_same_record(one: &RecordedFault, other: &RecordedFault) -> bool
    ensures { result ≡ is_same_record one.now other.now }
{
    one.cfsr == other.cfsr && one.hfsr == other.hfsr && one.exception == other.exception
}
