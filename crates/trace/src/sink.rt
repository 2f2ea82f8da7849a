//! What takes the events of a step, one by one.

ghost use Rattle.std.specs.Prelude.{◌≡◌, ◌<◌, [], ◌∷◌, ◌++◌, length, None};
ghost use Rattle.platform.specs.Text.{hex_word};
ghost use Rattle.reference.specs.Accesses.{accessed};
ghost use Rattle.reference.specs.LoadStore.{fetch_at};
ghost use Rattle.trace.specs.Emission.{Emission, with_emitted};

use crate::line_end::FetchEnd;
use instruction_set::size::Size;
use platform::access::{Access, DecidedAccess, Kind};
use platform::bounded::Bounded;
use platform::event::{Event, EventKind, MAX_EVENTS};

/// What takes the events of a step, one by one. A contract sees the events that it has taken so far.
pub trait Sink {
    ghost emitted: { Self → Emission };

    /// Takes an event. There must be room for it.
    fn emit(&mut self, event: Event)
        requires { length (emitted self.old).events < MAX_EVENTS }
        ensures { emitted self.new ≡ with_emitted (emitted self.old) ((emitted self.old).events ++ event ∷ []) };

    /// Takes the event of a fetch that was done, from the digits of its address and the end of its line.
    #[inline(always)]
    fn emit_fetch(&mut self, tick: u64, address: u32, digits: &[u8; 8], end: &FetchEnd)
        requires room { length (emitted self.old).events < MAX_EVENTS }
        requires digits { digits.now ≡ hex_word address }
        ensures { emitted self.new ≡ with_emitted (emitted self.old) ((emitted self.old).events
            ++ accessed tick (fetch_at address end.now.privileged) end.now.rule None ∷ []) }
    {
        let _digits = digits;
        self.emit(fetch_event(tick, address, end));
    }
}

/// Returns the event of a fetch that was done.
#[inline(always)]
pub fn fetch_event(tick: u64, address: u32, end: &FetchEnd) -> Event
    ensures { result ≡ accessed tick (fetch_at address end.now.privileged) end.now.rule None }
{
    Event {
        tick,
        what: EventKind::Accessed(DecidedAccess {
            access: Access {
                address,
                kind: Kind::Fetch,
                size: Size::Halfword,
                privileged: end.privileged,
            },
            rule: end.rule,
            refused: None,
        }),
    }
}

/// The events of one step, in their order.
pub type Events = Bounded<Event, MAX_EVENTS>;

impl Sink for Bounded<Event, MAX_EVENTS> {
    ghost emitted = { λ list. record { writer = 0; written = None; errors = 0; events = list.items } };

    #[inline(always)]
    fn emit(&mut self, event: Event) {
        self.push(event);
    }
}
