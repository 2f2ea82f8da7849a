//! The lines of events and of stops.

ghost use Rattle.std.specs.Prelude.{◌≡◌, ℕ, ◌+◌, ◌≤◌, ◌++◌, length, codes, decimal, None};
ghost use Rattle.platform.specs.declared.event.EventKind.TheVariants.{Accessed, ConsoleByte, ReturnBegan};
ghost use Rattle.platform.specs.declared.event.EventKind.TheVariants.{HandlerEntered, FaultRecorded};
ghost use Rattle.platform.specs.Events.{line};
ghost use Rattle.platform.specs.Text as spec;
ghost use Rattle.platform.specs.Text.{hex_word, stop_text, outcome_text, rule_text, line_feed};
ghost use Rattle.reference.specs.Accesses.{accessed};
ghost use Rattle.reference.specs.LoadStore.{fetch_at};
ghost use Rattle.trace.specs.Ends.{fetch_end};
ghost use Rattle.trace.specs.Tails.{access_head, head_text, tail};

use crate::digits::{KeptParts, LineDigits};
use crate::head::AccessHead;
use crate::hex;
use crate::line_end::FetchEnd;
use crate::page::Page;
use crate::tick::Tick;
use crate::words::{kind_piece, size_piece};
use platform::access::{Cause, DecidedAccess, Rule};
use platform::event::{Event, EventKind, RecordedFault};
use platform::stop::{NamedStop, Stop};

/// The most bytes after the tick of a line. A tick takes 21 bytes at most, so a line takes 64.
pub(crate) const TAIL_ROOM: usize = 43;

/// The most bytes between the tick of an access and its rule.
const HEAD_ROOM: usize = 20;

/// The most bytes between `stop ` and the line feed.
const STOP_ROOM: usize = 40;

/// Room for the text of one line, at most 64 bytes.
pub type LinePage = Page<64>;

/// Returns the line of an event.
#[tactic(auto, using(crate::proofs::PartsOfLines::tick_and_tail))]
pub fn event_line(event: &Event) -> LinePage
    ensures { result ≡ line event.now }
{
    let mut text = Page::new();
    Tick::new().put_on(event.tick, &mut text);
    text.put_tail(event.what);
    text
}

/// Returns the line of a stop.
pub fn stop_line(stop: &Stop) -> LinePage
    ensures { result ≡ spec.stop_line stop.now }
{
    let mut text = Page::new();
    text.put_stop(stop);
    text
}

impl<const ROOM: usize> Page<ROOM> {
    /// Appends the line of an event. Most are accesses, so these are tested for first.
    #[inline(always)]
    pub fn put_event(&mut self, digits: &mut LineDigits, event: &Event)
        requires { length self.old + 64 ≤ ROOM }
        ensures text { self.new ≡ self.old ++ line event.now }
        ensures short { length self.new ≤ length self.old + 64 }
    {
        match &event.what {
            EventKind::Accessed(access) => self.put_access(digits, event.tick, access),
            what => self.put_any(&mut digits.tick, event.tick, *what),
        }
    }

    /// Appends the line of a fetch that was done, from the digits of its address and its end. As in `put_parts`, all
    /// loads but one come before the first `put`.
    #[inline(always)]
    #[tactic(auto, using(crate::proofs::PartsOfLines::fetch_line))]
    pub fn put_fetch(
        &mut self,
        digits: &mut LineDigits,
        tick: u64,
        address: &[u8; 8],
        end: &FetchEnd,
    )
        requires { length self.old + 64 ≤ ROOM }
        ensures text { (at : ℕ) → address.now ≡ hex_word at → self.new ≡ self.old
            ++ line (accessed tick (fetch_at at end.now.privileged) end.now.rule None) }
        ensures longer { length self.old ≤ length self.new }
        ensures short { length self.new ≤ length self.old + 64 }
    {
        if digits.tick.hold(tick) {
            let address = *address;
            let end = *end;
            digits.tick.put_held(tick, self);
            self.put_after_tick(&address, &end);
        } else {
            self.put_late_fetch(tick, address, end);
        }
    }

    /// Appends the line of a fetch that was done at a tick of more than 17 digits.
    #[cold]
    #[inline(never)]
    #[tactic(auto, using(crate::proofs::PartsOfLines::fetch_line))]
    fn put_late_fetch(&mut self, tick: u64, address: &[u8; 8], end: &FetchEnd)
        requires { length self.old + 64 ≤ ROOM }
        ensures text { (at : ℕ) → address.now ≡ hex_word at → self.new ≡ self.old
            ++ line (accessed tick (fetch_at at end.now.privileged) end.now.rule None) }
        ensures longer { length self.old ≤ length self.new }
        ensures short { length self.new ≤ length self.old + 64 }
    {
        self.put_decimal(tick);
        self.put_after_tick(address, end);
    }

    /// Appends the line of a fetch that was done, but for its tick.
    #[inline(always)]
    fn put_after_tick(&mut self, address: &[u8; 8], end: &FetchEnd)
        requires { length self.old + 27 ≤ ROOM }
        ensures text { self.new ≡ self.old
            ++ ((codes " F " ++ address.now) ++ fetch_end end.now.privileged end.now.rule) }
        ensures short { length self.new ≤ length self.old + 27 }
    {
        self.put_some(b" F  ", 3);
        self.put(address);
        self.put_front(&end.text, end.count);
    }

    /// Appends the line of a stop.
    #[tactic(auto, unfolding(platform::specs::Text::stop_line))]
    pub fn put_stop(&mut self, stop: &Stop)
        requires { length self.old + 64 ≤ ROOM }
        ensures text { self.new ≡ self.old ++ spec.stop_line stop.now }
        ensures short { length self.new ≤ length self.old + 64 }
    {
        self.put(b"stop ");
        self.put_stop_text(stop);
        self.put(b"\n");
    }

    /// Appends the words of a stop.
    fn put_stop_text(&mut self, stop: &Stop)
        requires { length self.old + STOP_ROOM ≤ ROOM }
        ensures text { self.new ≡ self.old ++ stop_text stop.now }
        ensures short { length self.new ≤ length self.old + STOP_ROOM }
    {
        match stop {
            Stop::StepLimit => self.put(b"steps"),
            Stop::Breakpoint(number) => {
                self.put(b"breakpoint ");
                self.put_decimal(*number as u64);
            }
            Stop::Lockup => self.put(b"lockup"),
            Stop::Unpredictable(case) => {
                self.put(b"unpredictable ");
                self.put_slice(case.word());
            }
            Stop::OutOfProfile(case) => {
                self.put(b"outofprofile ");
                self.put_slice(case.word());
            }
            Stop::ResetRequested => self.put(b"reset"),
        }
    }

    /// Appends all of a line but its tick.
    fn put_tail(&mut self, what: EventKind)
        requires { length self.old + TAIL_ROOM ≤ ROOM }
        ensures text { self.new ≡ self.old ++ tail what }
        ensures short { length self.new ≤ length self.old + TAIL_ROOM }
    {
        match what {
            EventKind::Accessed(access) => self.put_any_access(access),
            EventKind::ConsoleByte(byte) => self.put_console_byte(byte),
            EventKind::ReturnBegan(exc_return) => self.put_return(exc_return),
            EventKind::HandlerEntered(exception) => self.put_handler(exception),
            EventKind::FaultRecorded(fault) => self.put_fault(&fault),
        }
    }

    /// Appends the line of an access. Most lines are of this kind.
    #[inline(always)]
    fn put_access(&mut self, digits: &mut LineDigits, tick: u64, decided: &DecidedAccess)
        requires { length self.old + 64 ≤ ROOM }
        ensures text { self.new ≡ self.old ++ line (record { tick = tick; what = Accessed decided.now }) }
        ensures short { length self.new ≤ length self.old + 64 }
    {
        if decided.access.kind.is_fetch() {
            self.put_parts(&mut digits.tick, &mut digits.fetch, tick, decided);
        } else {
            self.put_parts(&mut digits.tick, &mut digits.data, tick, decided);
        }
    }

    /// Appends the line of an access: where it was done, from the kept parts. Calls that may make a part anew come
    /// before the first `put`, and so do all loads but one, so that the compiler stores the length of the text once.
    #[inline(always)]
    #[tactic(auto, using(crate::proofs::PartsOfLines::done_line))]
    fn put_parts(
        &mut self,
        front: &mut Tick,
        kept: &mut KeptParts,
        tick: u64,
        decided: &DecidedAccess,
    )
        requires { length self.old + 64 ≤ ROOM }
        ensures text { self.new ≡ self.old ++ line (record { tick = tick; what = Accessed decided.now }) }
        ensures short { length self.new ≤ length self.old + 64 }
    {
        if decided.refused.is_none()
            && front.hold(tick)
            && kept.hold(decided.access.address, decided.rule)
        {
            let head = AccessHead::of(&kept.upper, &decided.access);
            let end = kept.end.text;
            let count = kept.end.count;
            front.put_held(tick, self);
            self.put_head(&head);
            self.put_some(&end, count);
        } else {
            self.put_any(front, tick, EventKind::Accessed(*decided));
        }
    }

    /// Appends the head of the line of an access.
    #[inline(always)]
    fn put_head(&mut self, head: &AccessHead)
        requires { length self.old + 16 ≤ ROOM }
        ensures text { self.new ≡ self.old ++ head_text head.now }
        ensures short { length self.new ≤ length self.old + 15 }
    {
        self.put_some(&head.kind, 3);
        self.put(&head.upper);
        self.put(&head.high);
        self.put(&head.low);
        self.put(&head.size);
    }

    /// Appends the line of any event. It takes a copy, so that the compiler can keep an event that never comes here in
    /// the host's registers.
    #[cold]
    #[inline(never)]
    #[tactic(auto, using(crate::proofs::PartsOfLines::tick_and_tail))]
    fn put_any(&mut self, front: &mut Tick, tick: u64, what: EventKind)
        requires { length self.old + 64 ≤ ROOM }
        ensures text { self.new ≡ self.old ++ line (record { tick = tick; what = what }) }
        ensures short { length self.new ≤ length self.old + 64 }
    {
        front.put_on(tick, self);
        self.put_tail(what);
    }

    /// Appends the line of any access but for its tick, piece by piece.
    #[tactic(auto, using(crate::proofs::PartsOfLines::head_and_rule))]
    fn put_any_access(&mut self, decided: DecidedAccess)
        requires { length self.old + TAIL_ROOM ≤ ROOM }
        ensures text { self.new ≡ self.old ++ tail (Accessed decided) }
        ensures short { length self.new ≤ length self.old + TAIL_ROOM }
    {
        self.put_any_head(decided);
        self.put_rule_word(decided.rule);
        self.put(b"\n");
    }

    /// Appends the part between the tick and the rule in the line of any access.
    #[tactic(auto, unfolding(crate::specs::Tails::access_head))]
    fn put_any_head(&mut self, decided: DecidedAccess)
        requires { length self.old + HEAD_ROOM ≤ ROOM }
        ensures text { self.new ≡ self.old ++
            (access_head decided.access ++ (outcome_text decided.refused ++ codes " ")) }
        ensures short { length self.new ≤ length self.old + HEAD_ROOM }
    {
        let access = &decided.access;
        self.put_some(&kind_piece(access.kind), 3);
        self.put(&hex::word(access.address));
        self.put(&size_piece(access.size, access.privileged));
        self.put(b" ");
        self.put_outcome(decided.refused);
    }

    /// Appends what refused an access, or `ok`, and a space.
    fn put_outcome(&mut self, refused: Option<Cause>)
        requires { length self.old + 4 ≤ ROOM }
        ensures text { self.new ≡ self.old ++ (outcome_text refused ++ codes " ") }
        ensures short { length self.new ≤ length self.old + 4 }
    {
        match refused {
            None => self.put(b"ok "),
            Some(Cause::Mpu) => self.put(b"mpu "),
            Some(Cause::Bus) => self.put(b"bus "),
        }
    }

    /// Appends the word of a rule, at most 21 bytes.
    pub fn put_rule_word(&mut self, rule: Rule)
        requires { length self.old + 21 ≤ ROOM }
        ensures text { self.new ≡ self.old ++ rule_text rule }
        ensures short { length self.new ≤ length self.old + 21 }
    {
        match rule {
            Rule::ExecuteNever => self.put(b"xn"),
            Rule::VectorRead => self.put(b"vec"),
            Rule::PrivatePeripheralBus => self.put(b"ppb"),
            Rule::MpuOff => self.put(b"off"),
            Rule::NegativePriority => self.put(b"neg"),
            Rule::Region(number) => {
                self.put(b"r");
                self.put_decimal(number as u64);
            }
            Rule::Background => self.put(b"bg"),
            Rule::NoRegion => self.put(b"none"),
        }
    }

    /// Appends the line of a byte that went out, but for its tick.
    #[tactic(auto, unfolding(crate::specs::Tails::tail))]
    fn put_console_byte(&mut self, byte: u8)
        requires { length self.old + TAIL_ROOM ≤ ROOM }
        ensures text { self.new ≡ self.old ++ tail (ConsoleByte byte) }
        ensures short { length self.new ≤ length self.old + TAIL_ROOM }
    {
        self.put(b" O ");
        self.put(&hex::pair(byte));
        self.put(b"\n");
    }

    /// Appends the line of an exception return, but for its tick.
    #[tactic(auto, unfolding(crate::specs::Tails::tail))]
    fn put_return(&mut self, exc_return: u32)
        requires { length self.old + TAIL_ROOM ≤ ROOM }
        ensures text { self.new ≡ self.old ++ tail (ReturnBegan exc_return) }
        ensures short { length self.new ≤ length self.old + TAIL_ROOM }
    {
        self.put(b" R ");
        self.put(&hex::word(exc_return));
        self.put(b"\n");
    }

    /// Appends the line of a handler's entry, but for its tick.
    #[tactic(auto, unfolding(crate::specs::Tails::tail))]
    fn put_handler(&mut self, exception: u16)
        requires { length self.old + TAIL_ROOM ≤ ROOM }
        ensures text { self.new ≡ self.old ++ tail (HandlerEntered exception) }
        ensures short { length self.new ≤ length self.old + TAIL_ROOM }
    {
        self.put(b" X ");
        self.put_decimal(exception as u64);
        self.put(b"\n");
    }

    /// Appends the line of a recorded fault, but for its tick.
    #[tactic(auto, unfolding(crate::specs::Tails::tail))]
    fn put_fault(&mut self, fault: &RecordedFault)
        requires { length self.old + TAIL_ROOM ≤ ROOM }
        ensures text { self.new ≡ self.old ++ tail (FaultRecorded fault.now) }
        ensures short { length self.new ≤ length self.old + TAIL_ROOM }
    {
        self.put(b" ! ");
        self.put_decimal(fault.exception as u64);
        self.put(b" ");
        self.put(&hex::word(fault.cfsr));
        self.put(b" ");
        self.put(&hex::word(fault.hfsr));
        self.put(b"\n");
    }
}
