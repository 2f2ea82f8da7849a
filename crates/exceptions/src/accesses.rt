//! The accesses of a step, whatever they are, and their lines.

ghost use Rattle.std.specs.Prelude.{◌≡◌, ◌+◌, ◌≤◌, ◌<◌, ◌^◌, ◌++◌, length, IfOk};
ghost use Rattle.exceptions.specs.LineBounds.{lines_of};
ghost use Rattle.instruction_set.specs.Sizes.{bytes_in};
ghost use Rattle.reference.specs.Accesses.{accessed, access_lines, value_of, perform};
ghost use Rattle.platform.specs.declared.access.Performed.TheVariants.{Done};
ghost use Rattle.platform.specs.declared.event.EventKind.TheVariants.{ConsoleByte};
ghost use Rattle.platform.specs.Outcomes.{IsOf};
ghost use Rattle.trace.specs.Emission.{with_emitted};

use access::{Bus, Decider, Exceptions, KeptCode, SysTickState};
use platform::access::{Cause, DecidedAccess, DoneAccess, Performed, Request, Rule};
use platform::event::{Event, EventKind, MAX_EVENTS};
use reference::failure::Failure;
use trace::sink::Sink;

/// Makes one access, whatever it is, and appends its lines. It takes a copy, so that the compiler can keep the request
/// of an access that never comes here in the host's registers.
#[cold]
#[inline(never)]
pub fn access_uncached<D: Decider, C: KeptCode, L: Exceptions, U: SysTickState, S: Sink>(
    exception: u16,
    bus: &mut Bus<D, C, L, U>,
    tick: u64,
    events: &mut S,
    request: Request,
) -> Result<u32, Failure>
    requires { length (S.emitted events.old).events + lines_of request ≤ MAX_EVENTS }
    ensures bus { bus.new ≡ (perform exception bus.old request).after }
    ensures events { S.emitted events.new
        ≡ with_emitted (S.emitted events.old)
        ((S.emitted events.old).events ++ access_lines tick request (perform exception bus.old request).performed) }
    ensures room { length (S.emitted events.new).events ≤ length (S.emitted events.old).events + lines_of request }
    ensures answer { result ≡ value_of request (perform exception bus.old request).performed }
    ensures narrow { IfOk result (λ value. value < 256 ^ bytes_in request.access.size) }
{
    match bus.perform(exception, &request) {
        Performed::Done(done) => {
            put_done(events, tick, &request, &done);
            Ok(done.value)
        }
        Performed::Denied(rule, cause) => {
            events.emit(accessed(tick, &request, rule, Some(cause)));
            Err(Failure::Refused(request.access, cause))
        }
        Performed::Stop(why) => Err(Failure::Stop(why)),
    }
}

/// Appends the lines of an access that was done.
#[inline(always)]
pub fn put_done<S: Sink>(events: &mut S, tick: u64, request: &Request, done: &DoneAccess)
    requires room { length (S.emitted events.old).events + lines_of request.now ≤ MAX_EVENTS }
    requires of_request { IsOf request.now (Done done.now) }
    ensures events { S.emitted events.new
        ≡ with_emitted (S.emitted events.old)
        ((S.emitted events.old).events ++ access_lines tick request.now (Done done.now)) }
    ensures room { length (S.emitted events.new).events ≤ length (S.emitted events.old).events + lines_of request.now }
{
    events.emit(accessed(tick, request, done.rule, None));
    if let Some(byte) = done.sent {
        events.emit(console_line(tick, byte));
    }
}

/// Returns the line of an access that was decided.
#[inline]
pub fn accessed(tick: u64, request: &Request, rule: Rule, refused: Option<Cause>) -> Event
    ensures { result ≡ accessed tick request.now rule refused }
{
    Event {
        tick,
        what: EventKind::Accessed(DecidedAccess {
            access: request.access,
            rule,
            refused,
        }),
    }
}

/// Returns the line of a byte that goes to the console.
fn console_line(tick: u64, byte: u8) -> Event
    ensures { result ≡ record { tick = tick; what = ConsoleByte byte } }
{
    Event {
        tick,
        what: EventKind::ConsoleByte(byte),
    }
}
