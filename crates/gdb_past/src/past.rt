//! What a session keeps of a machine's past.

ghost use Rattle.std.specs.Prelude.{◌≡◌, ℕ, ◌+◌, ◌-◌, ◌<◌, ◌≤◌, ◌∷◌, drop, length, take, IfOk, None};
ghost use Rattle.gdb_past.specs.Copies.{checkpoints_for, copies_for, max_marks};
ghost use Rattle.gdb_past.specs.Places.{AreOfOneMachine, below, mark_of, marked, past_anew, past_from, tick_of};
ghost use Rattle.gdb_past.specs.Ways.{IsAfterMark};
ghost use Rattle.reference.specs.Run.{after};
ghost use Rattle.reference.specs.State.{State};

use crate::checkpoints::Checkpoints;
use crate::position::make_steps;
use machine::{Decider, Exceptions, KeptCode, Machine, SavedState, SysTickState};
use std::alloc::{AllocError, Global};
use std::marker::Model;
use step_laws::a_step_takes_a_tick;

/// How many checkpoints there are for each mark.
const CHECKPOINTS: usize = 2;

/// The shortest distance between two checkpoints that are spread over a long way.
const MIN_SPACING: u64 = 262_144;

/// The distance of the checkpoints of a machine that goes forward: one is kept at each tick that it divides, if only
/// for a while.
const FORWARD_SPACING: u64 = 131_072;

/// The distance of the first checkpoint near a place that is gone to. That of the next one is an eighth of it, and so
/// on.
const FIRST_DISTANCE: u64 = 32_768;

/// Room for a mark: a state to which a session can go back, and its tick.
#[derive(Drop)]
struct Mark<L: Exceptions, U: SysTickState> {
    saved: SavedState<L, U>,
    tick: u64,
}

impl<L: Exceptions, U: SysTickState> Model for Mark<L, U> {
    ghost use Rattle.std.specs.Prelude.{◌≡◌};
    ghost use Rattle.gdb_past.specs.Places.{tick_of};
    ghost use Rattle.reference.specs.State.{State};

    ghost Value = { State };

    ghost view = { λ m. m.saved };

    ghost invariant = { λ m. m.tick ≡ tick_of m.saved };
}

impl<L: Exceptions, U: SysTickState> Mark<L, U> {
    /// Returns the mark of a machine's state, or fails where memory can't be allocated.
    fn of<D: Decider, C: KeptCode>(
        alloc: Global,
        machine: &Machine<D, C, L, U>,
    ) -> Result<Self, AllocError>
        ensures { IfOk result (λ mark. mark ≡ machine.now.state) }
    {
        Ok(Mark {
            saved: machine.save(alloc)?,
            tick: machine.ticks(),
        })
    }

    fn tick(&self) -> u64
        ensures { result ≡ tick_of self.now }
    {
        self.tick
    }

    /// Becomes the mark of a machine's state.
    fn set<D: Decider, C: KeptCode>(&mut self, machine: &Machine<D, C, L, U>)
        requires { AreOfOneMachine self.old machine.now.state }
        ensures { self.new ≡ machine.now.state }
    {
        machine.save_to(&mut self.saved);
        self.tick = machine.ticks();
    }

    /// Takes the machine back to this state.
    fn restore<D: Decider, C: KeptCode>(&self, machine: &mut Machine<D, C, L, U>)
        requires { AreOfOneMachine machine.old.state self.now }
        ensures { machine.new ≡ record machine.old { state = self.now } }
    {
        machine.restore(&self.saved);
    }
}

/// Returns how many of the slots are for checkpoints near the place that is gone to: the last quarter, or one. The
/// others are for checkpoints that are spread over a long way.
fn near_slots(slots: usize) -> usize
    requires { 0 < slots }
    ensures { result ≤ slots }
{
    (slots / 4).max(1)
}

/// Returns the slot of the checkpoint of a tick, for a machine that goes forward. A quarter of the slots, rounded down,
/// is the number of levels that have three slots each, in turn, those of the lowest level at the end. At the ticks that
/// four times the spacing of a level divides are those of the next level. The highest level has the slots that are
/// left.
fn slot_ahead(tick: u64, slots: usize) -> usize
    requires { 0 < slots }
    ensures { result < slots }
{
    let levels = slots / 4;
    let mut rank = tick / FORWARD_SPACING;
    let mut level = 0;
    'levels: for lower in 0..levels {
        if rank % 4 == 0 {
            rank /= 4;
            level = lower + 1;
        }
    }
    if level < levels {
        slots - 1 - (3 * level + ((rank % 4) as usize).saturating_sub(1))
    } else {
        (rank % (slots - 3 * levels) as u64) as usize
    }
}

/// What a session keeps of a machine's past.
#[derive(Drop)]
pub struct Past<L: Exceptions, U: SysTickState> {
    start: SavedState<L, U>,
    /// Room for the marks, of which the first `count` are set.
    marks: Vec<Mark<L, U>>,
    count: usize,
    /// States on the way from the last mark.
    checkpoints: Checkpoints<L, U>,
}

impl<L: Exceptions, U: SysTickState> Model for Past<L, U> {
    ghost use Rattle.std.specs.Prelude.{length, slice_index_or, take};
    ghost use Rattle.gdb_past.specs.Checkpoints.{AreRight};
    ghost use Rattle.gdb_past.specs.Copies.{checkpoints_for};
    ghost use Rattle.gdb_past.specs.Places.{Past as PastView};
    ghost use Rattle.gdb_past.specs.Rooms.{HasRoom};

    ghost Value = { PastView };

    ghost view = { λ p. record {
      start = p.start;
      marks = take p.count p.marks.items;
      room = length p.marks.items;
    } };

    ghost invariant = { λ p. HasRoom p.start p.marks.items p.count
        × AreRight p.start (slice_index_or p.marks.items 0 p.start) (checkpoints_for (length p.marks.items))
        p.checkpoints };
}

impl<L: Exceptions, U: SysTickState> Past<L, U> {
    /// Returns what is kept before the first step, with room for so many marks, or fails where memory can't be
    /// allocated.
    #[inline(never)]
    pub fn new<D: Decider, C: KeptCode>(
        alloc: Global,
        room: usize,
        machine: &Machine<D, C, L, U>,
    ) -> Result<Self, AllocError>
        requires some { 0 < room }
        requires few { room ≤ max_marks }
        ensures { IfOk result (λ past. past ≡ past_from room machine.now.state) }
    {
        let checkpoints = Checkpoints::new(alloc, CHECKPOINTS * room, machine)?;
        let start = machine.save(alloc)?;
        let mut marks = Vec::new(alloc);
        'marks: for number in 0..room {
            let _ = number;
            marks.push(Mark::of(alloc, machine)?)?;
        }
        Ok(Past {
            start,
            marks,
            count: 1,
            checkpoints,
        })
    }

    /// Returns how many marks there are.
    pub fn count(&self) -> usize
        ensures count { result ≡ length self.now.marks }
        ensures some { 0 < result }
        ensures few { result ≤ max_marks }
    {
        self.count
    }

    /// Returns how many copies of the machine's state are kept, or have room: that of the state before the first step,
    /// and those for marks and checkpoints.
    pub fn copies(&self) -> usize
        ensures { result ≡ 1 + copies_for self.now.room }
    {
        1 + self.marks.len() + self.checkpoints.count()
    }

    /// Returns how many slots there are for checkpoints.
    fn slots(&self) -> usize
        ensures slots { result ≡ checkpoints_for self.now.room }
        ensures some { 0 < result }
        ensures few { result ≤ checkpoints_for max_marks }
    {
        self.checkpoints.count()
    }

    /// Returns the tick of a mark, by its number from the last one.
    pub fn tick(&self, number: usize) -> u64
        requires { number < length self.now.marks }
        ensures { (m : State) → result ≡ tick_of (mark_of self.now number m) }
    {
        self.marks[number].tick()
    }

    /// Takes the machine to a place at most `most` steps after a mark, of which a copy is kept: a checkpoint, or the
    /// mark. Returns how many steps after the mark it is.
    fn restore_near<D: Decider, C: KeptCode>(
        &self,
        number: usize,
        most: u64,
        machine: &mut Machine<D, C, L, U>,
    ) -> u64
        requires number { number < length self.now.marks }
        requires fits { AreOfOneMachine self.now.start machine.old.state }
        ensures few { result ≤ most }
        ensures state { (m : State) → machine.new
            ≡ record machine.old { state = after result (mark_of self.now number m) } }
        ensures same { AreOfOneMachine self.now.start machine.new.state }
    {
        if number > 0 {
            self.marks[number].restore(machine);
            return 0;
        }
        match self.checkpoints.restore(most, machine) {
            Some(steps) => steps,
            None => {
                self.marks[0].restore(machine);
                0
            }
        }
    }

    /// Keeps a checkpoint in a slot where the machine is, `steps` steps after the last mark.
    fn save_to<D: Decider, C: KeptCode>(
        &mut self,
        slot: usize,
        steps: u64,
        machine: &Machine<D, C, L, U>,
    )
        requires slot { slot < checkpoints_for self.old.room }
        requires state { (m : State) → machine.now.state ≡ after steps (mark_of self.old 0 m) }
        ensures { self.new ≡ self.old }
    {
        self.checkpoints.save_to(slot, steps, machine);
    }

    /// Makes the steps to a place after the last mark, unless the machine is there or later, and keeps a checkpoint.
    /// Returns how many steps after the mark the machine is.
    fn keep_at<D: Decider, C: KeptCode>(
        &mut self,
        slot: usize,
        from: u64,
        to: u64,
        machine: &mut Machine<D, C, L, U>,
    ) -> u64
        requires slot { slot < checkpoints_for self.old.room }
        requires state { (m : State) → machine.old.state ≡ after from (mark_of self.old 0 m) }
        ensures past { self.new ≡ self.old }
        ensures few { (n : ℕ) → from ≤ n → to ≤ n → result ≤ n }
        ensures state { (m : State) → machine.new
            ≡ record machine.old { state = after result (mark_of self.old 0 m) } }
    {
        if to <= from {
            return from;
        }
        make_steps(machine, to - from);
        self.save_to(slot, to, machine);
        to
    }

    /// Makes the steps from a place after the last mark to a later one, as far as `count` checkpoints are spread over the
    /// way. Returns how many steps after the mark the machine is.
    fn spread<D: Decider, C: KeptCode>(
        &mut self,
        count: usize,
        from: u64,
        to: u64,
        machine: &mut Machine<D, C, L, U>,
    ) -> u64
        requires count { count ≤ checkpoints_for self.old.room }
        requires order { from ≤ to }
        requires state { (m : State) → machine.old.state ≡ after from (mark_of self.old 0 m) }
        ensures past { self.new ≡ self.old }
        ensures few { result ≤ to }
        ensures state { (m : State) → machine.new
            ≡ record machine.old { state = after result (mark_of self.old 0 m) } }
    {
        let spacing = (to - from) / (count as u64).saturating_add(1);
        let mut at = from;
        if spacing < MIN_SPACING {
            return at;
        }
        'slots: for slot in 0..count {
            at = self.keep_at(slot, at, at + spacing.min(to - at), machine);
        }
        at
    }

    /// Makes the steps from a place after the last mark to a later one, and keeps checkpoints on the way.
    fn advance<D: Decider, C: KeptCode>(
        &mut self,
        from: u64,
        to: u64,
        machine: &mut Machine<D, C, L, U>,
    )
        requires order { from ≤ to }
        requires state { (m : State) → machine.old.state ≡ after from (mark_of self.old 0 m) }
        ensures past { self.new ≡ self.old }
        ensures state { (m : State) → machine.new
            ≡ record machine.old { state = after to (mark_of self.old 0 m) } }
    {
        let slots = self.slots();
        let spread = slots - near_slots(slots);
        let mut at = self.spread(spread, from, to, machine);
        let mut distance = FIRST_DISTANCE;
        'slots: for slot in spread..slots {
            at = self.keep_at(slot, at, to.saturating_sub(distance), machine);
            distance /= 8;
        }
        make_steps(machine, to - at);
    }

    /// Takes the machine to a place from `least` to `most` steps after a mark. Returns how many steps after it the
    /// machine is.
    pub fn go_near<D: Decider, C: KeptCode>(
        &mut self,
        number: usize,
        least: u64,
        most: u64,
        machine: &mut Machine<D, C, L, U>,
    ) -> u64
        requires number { number < length self.old.marks }
        requires order { least ≤ most }
        requires fits { AreOfOneMachine self.old.start machine.old.state }
        ensures past { self.new ≡ self.old }
        ensures least { least ≤ result }
        ensures most { result ≤ most }
        ensures state { (m : State) → machine.new
            ≡ record machine.old { state = after result (mark_of self.old number m) } }
        ensures same { AreOfOneMachine self.old.start machine.new.state }
    {
        let at = self.restore_near(number, most, machine);
        if least <= at {
            return at;
        }
        if number > 0 {
            make_steps(machine, least - at);
            return least;
        }
        self.advance(at, least, machine);
        least
    }

    /// Keeps a checkpoint where a machine is that goes forward, unless it has stopped.
    fn keep_ahead<D: Decider, C: KeptCode>(&mut self, tick: u64, machine: &Machine<D, C, L, U>)
        requires ahead { IsAfterMark self.old machine.now.state }
        requires tick { tick ≡ tick_of machine.now.state }
        ensures { self.new ≡ self.old }
    {
        match machine.stop() {
            Some(_) => {}
            None => {
                a_step_takes_a_tick();
                let marks = self.count();
                prove!(marks > 0);
                let steps = tick.saturating_sub(self.tick(0));
                self.save_to(slot_ahead(tick, self.slots()), steps, machine);
            }
        }
    }

    /// Follows a machine that goes forward: keeps checkpoints on its way from the last mark.
    pub fn follow<D: Decider, C: KeptCode>(&mut self, machine: &Machine<D, C, L, U>)
        requires { IsAfterMark self.old machine.now.state }
        ensures { self.new ≡ self.old }
    {
        let tick = machine.ticks();
        if tick % FORWARD_SPACING == 0 {
            self.keep_ahead(tick, machine);
        }
    }

    /// Forgets the last marks, so many.
    pub fn forget(&mut self, count: usize)
        requires { count < length self.old.marks }
        ensures { self.new ≡ record self.old { marks = drop count self.old.marks } }
    {
        if count == 0 {
            return;
        }
        self.checkpoints.clear();
        self.marks.rotate_left(count);
        self.count -= count;
    }

    /// Returns how many marks there are from a tick on.
    fn number_from(&self, tick: u64) -> usize
        ensures few { result ≤ length self.now.marks }
        ensures rest { drop result self.now.marks ≡ below tick self.now.marks }
    {
        let count = self.count();
        'marks: for number in 0..count {
            if self.tick(number) < tick {
                return number;
            }
        }
        count
    }

    /// Makes the machine's state the last mark in the place of the last `count` ones. Where there is room for no other,
    /// the first mark is forgotten.
    fn put_after<D: Decider, C: KeptCode>(&mut self, count: usize, machine: &Machine<D, C, L, U>)
        requires few { count ≤ length self.old.marks }
        requires fits { AreOfOneMachine self.old.start machine.now.state }
        ensures { self.new ≡ record self.old {
          marks = machine.now.state ∷ take (self.old.room - 1) (drop count self.old.marks);
        } }
    {
        let room = self.marks.len();
        self.checkpoints.clear();
        self.marks.rotate_left(count);
        self.marks.rotate_right(1);
        self.marks[0].set(machine);
        self.count = (self.count - count + 1).min(room);
    }

    /// Marks the machine's state after a write.
    pub fn mark<D: Decider, C: KeptCode>(&mut self, machine: &Machine<D, C, L, U>)
        requires { AreOfOneMachine self.old.start machine.now.state }
        ensures { self.new ≡ marked self.old machine.now.state }
    {
        let count = self.number_from(machine.ticks());
        self.put_after(count, machine);
    }

    /// Takes the machine back to the state before the first step, which becomes the only mark.
    pub fn restart<D: Decider, C: KeptCode>(&mut self, machine: &mut Machine<D, C, L, U>)
        requires { AreOfOneMachine machine.old.state self.old.start }
        ensures machine { machine.new ≡ record machine.old { state = self.old.start } }
        ensures past { self.new ≡ past_anew self.old }
    {
        machine.restore(&self.start);
        let count = self.count();
        self.put_after(count, machine);
    }
}
