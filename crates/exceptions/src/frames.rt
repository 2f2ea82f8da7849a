//! The words of a frame, which exception entry pushes and exception return pops.

ghost use Rattle.std.specs.Prelude.{◌≡◌, ◌+◌, ◌≤◌, ◌++◌, false, length, IfOk, IfSome};
ghost use Rattle.access.specs.KeptAccesses.{GrantsNow};
ghost use Rattle.exceptions.specs.Performing.{AllPerformed, performed_by};
ghost use Rattle.instruction_set.specs.declared.size.Size.TheVariants.{Word};
ghost use Rattle.platform.specs.Kinds.{is_store};
ghost use Rattle.reference.specs.ExceptionEntry.{words_from};
ghost use Rattle.reference.specs.LoadStore.{request};
ghost use Rattle.reference.specs.State.{with_bus};
ghost use Rattle.trace.specs.Emission.{with_emitted};

use crate::state::Core;
use access::{Decider, Exceptions, GrantedSpan, KeptCode, SysTickState};
use instruction_set::size::Size;
use platform::access::{Access, Kind, Request};
use platform::event::MAX_EVENTS;
use reference::accesses::Values;
use reference::failure::Failure;
use trace::sink::Sink;

/// Where a frame is, and how its words are accessed.
#[derive(Clone, Copy)]
pub struct Frame {
    pub kind: Kind,
    pub privileged: bool,
    pub address: u32,
}

/// Returns an access to a word.
#[inline(always)]
pub fn word(kind: Kind, privileged: bool, address: u32, value: u32) -> Request
    ensures { result ≡ request kind privileged Word address value }
{
    Request {
        access: Access {
            address,
            kind,
            size: Size::Word,
            privileged,
        },
        value,
    }
}

/// Accesses the words of a frame, one by one, for the code that runs, up to the first access that isn't done: pushes
/// store `words`, and `values` becomes what pops read. It does what `perform_all` of `Core` does with their requests.
/// Most are granted by the rule of the span that is kept about the word before them.
#[inline(always)]
pub fn perform_frame<D: Decider, C: KeptCode, L: Exceptions, U: SysTickState, S: Sink>(
    core: &mut Core<D, C, L, U>,
    events: &mut S,
    frame: &Frame,
    words: &[u32],
    values: &mut Values,
) -> Result<(), Failure>
    requires kind { is_store frame.now.kind ≡ false }
    requires few { length words.now ≤ 8 }
    requires room { length (S.emitted events.old).events + length words.now ≤ MAX_EVENTS }
    ensures state { core.new ≡ with_bus core.old (performed_by core.old
        (words_from frame.now.kind frame.now.privileged frame.now.address words.now)).bus }
    ensures events { S.emitted events.new
        ≡ with_emitted (S.emitted events.old) ((S.emitted events.old).events ++ (performed_by core.old
        (words_from frame.now.kind frame.now.privileged frame.now.address words.now)).events) }
    ensures answer { AllPerformed (performed_by core.old
        (words_from frame.now.kind frame.now.privileged frame.now.address words.now)) values.new result }
    ensures room { length (S.emitted events.new).events ≤ length (S.emitted events.old).events + length words.now }
    ensures whole { IfOk result (λ done. length values.new.items ≡ length words.now) }
{
    let tick = core.ticks();
    let mut span = None;
    let mut at = frame.address;
    values.clear();
    'words: for &value in words {
        let request = word(frame.kind, frame.privileged, at, value);
        span = span_about(core, span, &request);
        match core.access_within(tick, events, &mut span, &request) {
            Ok(read) => values.push(read),
            Err(failure) => return Err(failure),
        }
        at = at.wrapping_add(4);
    }
    Ok(())
}

/// Returns the span, if it is known, and otherwise the one that is kept about the address of an access.
#[inline(always)]
fn span_about<D: Decider, C: KeptCode, L: Exceptions, U: SysTickState>(
    core: &Core<D, C, L, U>,
    known: Option<GrantedSpan>,
    request: &Request,
) -> Option<GrantedSpan>
    requires { IfSome known
        (λ span. GrantsNow core.now.bus span request.now.access.kind request.now.access.privileged) }
    ensures { IfSome result
        (λ span. GrantsNow core.now.bus span request.now.access.kind request.now.access.privileged) }
{
    match known {
        Some(span) => Some(span),
        None => {
            let access = &request.access;
            core.bus
                .kept_span(access.address, access.kind, access.privileged)
        }
    }
}
