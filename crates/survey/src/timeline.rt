//! What ran when: the ticks of a run in at most 1,024 columns.

ghost use Rattle.std.specs.Prelude.{◌≡◌, ◌<◌, ◌≤◌, ◌+◌, ◌^◌, [], length, IfOk, replicate};
ghost use Rattle.instruction_set.specs.Words.{is_bit};
ghost use Rattle.survey.specs.Timeline.{begun, has_mark, joined, handled, joined_to, lane_in, mark_number, marked, ran};
ghost use Rattle.survey.specs.Timeline.{with_accessed_mark, with_column, with_handler, with_tick};

use crate::mark::{MAX_LANES, Mark};
use crate::step_start::StepStart;
use platform::access::DecidedAccess;
use platform::bounded::Bounded;
use std::alloc::{AllocError, Global};
use std::marker::Model;

/// How many columns there are at most.
pub const MAX_COLUMNS: usize = 1024;

/// What ran when. A column stands for 1, 2, 4, .. ticks: where all columns have begun and a tick more comes,
/// neighbours are joined.
#[derive(Drop)]
pub struct Timeline {
    /// The bits of a column are its marks, by their numbers.
    columns: Vec<u32>,
    /// How many columns have begun.
    used: usize,
    /// How many ticks a column stands for.
    column_ticks: u64,
    /// How many ticks the last column that has begun stands for so far.
    filled: u64,
    /// The exceptions that have lanes, in the order in which their handlers first ran.
    handlers: Bounded<u16, MAX_LANES>,
}

impl Model for Timeline {
    ghost use Rattle.std.specs.Prelude.{◌≡◌, ◌≤◌, length};
    ghost use Rattle.survey.specs.Timeline.{Timeline as TimelineView};

    ghost Value = { TimelineView };

    ghost view = { λ t. record {
      columns = t.columns.items;
      used = t.used;
      column_ticks = t.column_ticks;
      filled = t.filled;
      handlers = t.handlers.items;
    } };

    ghost invariant = { λ t. (length t.columns.items ≡ 1024) × (t.used ≤ 1024) };
}

impl Timeline {
    /// Returns the timeline of no ticks. It takes no more memory as it grows.
    pub fn new(alloc: Global) -> Result<Self, AllocError>
        ensures used { IfOk result (λ timeline. timeline.used ≡ 0) }
        ensures ticks { IfOk result (λ timeline. timeline.column_ticks ≡ 1) }
        ensures filled { IfOk result (λ timeline. timeline.filled ≡ 1) }
        ensures handlers { IfOk result (λ timeline. timeline.handlers ≡ []) }
        ensures columns { IfOk result (λ timeline. timeline.columns ≡ replicate MAX_COLUMNS 0) }
    {
        let columns = vec![in alloc; 0; MAX_COLUMNS]?;
        Ok(Timeline {
            columns,
            used: 0,
            column_ticks: 1,
            filled: 1,
            handlers: Bounded::new(),
        })
    }

    /// Returns how many ticks a column stands for: 1, 2, 4, ..
    pub fn column_ticks(&self) -> u64
        ensures { result ≡ self.now.column_ticks }
    {
        self.column_ticks
    }

    /// Returns how many columns have begun.
    pub fn used(&self) -> usize
        ensures { result ≡ self.now.used }
    {
        self.used
    }

    /// Returns whether a column has a mark: a tick that it stands for made it.
    pub fn is_marked(&self, column: usize, mark: Mark) -> bool
        ensures { result ≡ has_mark self.now column mark }
    {
        let number = mark.number();
        column < self.used && number < 30 && is_bit(self.columns[column], number as u32)
    }

    /// Returns the exceptions that have lanes of their own, in the order in which their handlers first ran.
    pub fn handlers(&self) -> &[u16]
        ensures { result.now ≡ self.now.handlers }
    {
        self.handlers.as_slice()
    }

    /// Takes the tick of a step that begins at a moment.
    #[inline(always)]
    #[tactic(auto, unfolding(crate::specs::Timeline::with_tick))]
    pub fn take_tick(&mut self, start: &StepStart)
        ensures { self.new ≡ with_tick self.old start.now }
    {
        self.begin_tick();
        self.take_running(start);
    }

    /// Takes an access of the step whose tick came last.
    #[inline(always)]
    pub fn take_access(&mut self, decided: &DecidedAccess)
        ensures { self.new ≡ with_accessed_mark self.old decided.now }
    {
        if let Some(mark) = Mark::of_access(decided) {
            self.mark(mark);
        }
    }

    /// Begins a tick, and a column where the last one has all its ticks.
    #[inline(always)]
    fn begin_tick(&mut self)
        ensures { self.new ≡ begun self.old }
    {
        if self.filled < self.column_ticks {
            self.filled += 1;
        } else {
            self.begin_column();
        }
    }

    /// Begins a column, after joining neighbours where all columns have begun.
    #[inline(never)]
    fn begin_column(&mut self)
        ensures { self.new ≡ with_column self.old }
    {
        if self.used == MAX_COLUMNS {
            self.join();
        }
        let used = self.used;
        self.columns[used] = 0;
        self.used = used + 1;
        self.filled = 1;
    }

    /// Joins neighbours, so that half of the columns are used.
    fn join(&mut self)
        ensures { self.new ≡ joined self.old }
    {
        join_columns(&mut self.columns);
        self.used = MAX_COLUMNS / 2;
        self.column_ticks = self.column_ticks.saturating_mul(2);
    }

    /// Marks the last tick with what the core runs when its step begins.
    #[inline(always)]
    fn take_running(&mut self, start: &StepStart)
        ensures { self.new ≡ ran self.old start.now }
    {
        if start.asleep {
            self.mark(Mark::Sleep);
        } else if start.exception == 0 {
            if start.privileged {
                self.mark(Mark::Privileged);
            } else {
                self.mark(Mark::Unprivileged);
            }
        } else {
            self.mark_handler(start.exception);
        }
    }

    /// Marks the last tick as one of a handler. Its exception gets a lane, if it has none and there is room for one.
    #[inline(never)]
    fn mark_handler(&mut self, exception: u16)
        ensures { self.new ≡ handled self.old exception }
    {
        let lane = self.take_handler(exception);
        self.mark(Mark::of_handler(lane));
    }

    /// Returns the lane of an exception whose handler runs. It gets one, if it has none and there is room for one.
    fn take_handler(&mut self, exception: u16) -> usize
        ensures lane { result ≡ lane_in exception self.old.handlers }
        ensures lanes { self.new ≡ with_handler self.old exception }
    {
        let lane = lane_in(exception, self.handlers.as_slice());
        if lane == self.handlers.len() && lane < MAX_LANES {
            self.handlers.push(exception);
        }
        lane
    }

    /// Marks the last column that has begun.
    #[inline(always)]
    fn mark(&mut self, mark: Mark)
        requires { mark_number mark < 30 }
        ensures { self.new ≡ marked self.old mark }
    {
        if self.used > 0 {
            let last = self.used - 1;
            self.columns[last] = self.columns[last] | 1 << mark.number() as u32;
        }
    }
}

/// Joins each column of the first half with its neighbour.
fn join_columns(columns: &mut [u32])
    requires { length columns.old ≡ 1024 }
    ensures value { columns.new ≡ joined_to 512 columns.old }
    ensures long { length columns.new ≡ 1024 }
{
    for column in 0..512 {
        columns[column] = columns[2 * column] | columns[2 * column + 1];
    }
}

/// Returns the lane of an exception, or the number of lanes where it has none.
fn lane_in(exception: u16, handlers: &[u16]) -> usize
    ensures { result ≡ lane_in exception handlers.now }
{
    for (lane, handler) in handlers.iter().enumerate() {
        if *handler == exception {
            return lane;
        }
    }
    handlers.len()
}

/// Returns whether a bit of a column is 1.
fn is_bit(column: u32, number: u32) -> bool
    requires { number < 32 }
    ensures { result ≡ is_bit column number }
{
    column >> number & 1 == 1
}
