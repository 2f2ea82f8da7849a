//! The events of a script that are still to come, and when the next one is due.

ghost use Rattle.std.specs.Prelude.{◌≡◌, ◌≤◌, length, drop, IfOk};
ghost use Rattle.platform.specs.Time.{due_count, script_due};

use platform::script::ScriptedEvent;
use std::alloc::{AllocError, Global};
use std::marker::Model;

/// The most events that a script can have, as many as the reader of boards takes.
const MAX_EVENTS: usize = 65_536;

/// A tick that a clock never reaches.
pub const NEVER: u64 = (1 << 48) + 1;

/// The events of a script that are still to come, with room for as many as a script can have, so that one takes the
/// events of another without an allocation. A contract sees the list of the events.
#[derive(Drop)]
pub struct Script {
    events: Vec<ScriptedEvent>,
    /// How many of the events have applied.
    done: usize,
}

impl Model for Script {
    ghost use Rattle.std.specs.Prelude.{List, ◌≤◌, length, drop};
    ghost use Rattle.std.specs.Vec.{vec_capacity};
    ghost use Rattle.platform.specs.declared.script.ScriptedEvent.{ScriptedEvent as Event};

    ghost Value = { List Event };

    ghost view = { λ s. drop s.done s.events.items };

    ghost invariant = { λ s. (s.done ≤ length s.events.items) × (length s.events.items ≤ 65536)
        × (65536 ≤ vec_capacity s.events) };
}

impl Script {
    /// Returns a script of these events. Fails where memory can't be allocated, and where there are more than 65,536.
    pub fn new(alloc: Global, events: &[ScriptedEvent]) -> Result<Self, AllocError>
        ensures { IfOk result (λ script. script ≡ events.now) }
    {
        if events.len() > MAX_EVENTS {
            return Err(AllocError);
        }
        let mut room = Vec::with_capacity(alloc, MAX_EVENTS)?;
        room.extend_from_slice(events)?;
        Ok(Script {
            events: room,
            done: 0,
        })
    }

    /// Returns the events that are still to come, at most 65,536.
    #[inline]
    pub fn events(&self) -> &[ScriptedEvent]
        ensures value { result.now ≡ self.now }
        ensures few { length result.now ≤ 65536 }
    {
        &self.events[self.done..]
    }

    /// Drops the first `count` events.
    pub(crate) fn skip(&mut self, count: usize)
        requires { count ≤ length self.old }
        ensures { self.new ≡ drop count self.old }
    {
        self.done += count;
    }

    /// Takes the events of another script in place of its own.
    pub(crate) fn copy_from(&mut self, other: &Script)
        ensures { self.new ≡ other.now }
    {
        self.done = 0;
        self.events.clear();
        match self.events.extend_from_slice(other.events()) {
            Ok(()) => {}
            Err(_) => unreachable!(),
        }
    }
}

/// Returns how many events at the head of a script are due by a tick.
#[inline]
pub fn due_count(tick: u64, script: &[ScriptedEvent]) -> usize
    ensures value { result ≡ due_count tick script.now }
    ensures within { result ≤ length script.now }
{
    for (count, event) in script.iter().enumerate() {
        if event.at > tick {
            return count;
        }
    }
    script.len()
}

/// Returns the tick of the next event of a script.
#[inline]
pub fn script_due(script: &[ScriptedEvent]) -> u64
    ensures { result ≡ script_due script.now }
{
    match script.first() {
        Some(event) => event.at,
        None => NEVER,
    }
}
