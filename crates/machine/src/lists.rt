//! Accesses to the words of a list of registers: those of LDM, STM, PUSH and POP.

ghost use Rattle.std.specs.Prelude.{◌≡◌, ◌+◌, ◌<◌, ◌≤◌, ◌++◌, length, IfOk, true};
ghost use Rattle.exceptions.specs.LineBounds.{max_lines};
ghost use Rattle.exceptions.specs.Performing.{AllPerformed, performed_by};
ghost use Rattle.exec.specs.Listed.{requests_by, requests_for};
ghost use Rattle.instruction_set.specs.Registers.{is_privileged};
ghost use Rattle.reference.specs.LoadStoreMultiple.{word_request};
ghost use Rattle.reference.specs.State.{with_bus};
ghost use Rattle.trace.specs.Emission.{with_emitted};

use access::{Decider, Exceptions, KeptCode, SysTickState};
use exceptions::{Core, Values};
use exec::{ListedWords, next_listed};
use instruction_set::registers::Register;
use instruction_set::size::Size;
use platform::access::{Access, Kind, Request};
use platform::event::MAX_EVENTS;
use reference::failure::Failure;
use regs::Regs;
use trace::sink::Sink;

/// Accesses the words of a list, one by one, for the code that runs, up to the first access that isn't done. `values`
/// becomes what they read. It does what `perform_all` of `Core` does with their requests. Returns true where one kept
/// rule granted all of them: then they left the system registers.
#[inline(always)]
pub fn perform_words<D: Decider, C: KeptCode, L: Exceptions, U: SysTickState, S: Sink>(
    core: &mut Core<D, C, L, U>,
    events: &mut S,
    words: &ListedWords,
    values: &mut Values,
) -> Result<bool, Failure>
    requires { length (S.emitted events.old).events + max_lines (requests_for words.now core.old.registers)
        ≤ MAX_EVENTS }
    ensures state { core.new
        ≡ with_bus core.old (performed_by core.old (requests_for words.now core.old.registers)).bus }
    ensures events { S.emitted events.new
        ≡ with_emitted (S.emitted events.old) ((S.emitted events.old).events
        ++ (performed_by core.old (requests_for words.now core.old.registers)).events) }
    ensures answer { AllPerformed (performed_by core.old (requests_for words.now core.old.registers)) values.new
        result }
    ensures system { IfOk result (λ kept. kept ≡ true → core.new.bus.system ≡ core.old.bus.system) }
    ensures room { length (S.emitted events.new).events
        ≤ length (S.emitted events.old).events + max_lines (requests_for words.now core.old.registers) }
{
    let tick = core.bus.system.ticks();
    let privileged = core.regs.is_privileged();
    if words.stores {
        perform_list(core, events, tick, privileged, Kind::Store, words, values)
    } else {
        perform_list(core, events, tick, privileged, Kind::Load, words, values)
    }
}

/// Accesses the words of a list, as `perform_words` does, at this tick, as code of this privilege, by accesses of this
/// kind. Where it is known, the compiler leaves out what the other kind needs.
#[inline(always)]
fn perform_list<D: Decider, C: KeptCode, L: Exceptions, U: SysTickState, S: Sink>(
    core: &mut Core<D, C, L, U>,
    events: &mut S,
    tick: u64,
    privileged: bool,
    kind: Kind,
    words: &ListedWords,
    values: &mut Values,
) -> Result<bool, Failure>
    requires tick { tick ≡ core.old.bus.system.time.ticks }
    requires privileged { privileged ≡ is_privileged core.old.registers }
    requires room { length (S.emitted events.old).events + max_lines (requests_by kind words.now core.old.registers)
        ≤ MAX_EVENTS }
    ensures state { core.new
        ≡ with_bus core.old (performed_by core.old (requests_by kind words.now core.old.registers)).bus }
    ensures events { S.emitted events.new
        ≡ with_emitted (S.emitted events.old) ((S.emitted events.old).events
        ++ (performed_by core.old (requests_by kind words.now core.old.registers)).events) }
    ensures answer { AllPerformed (performed_by core.old (requests_by kind words.now core.old.registers)) values.new
        result }
    ensures system { IfOk result (λ kept. kept ≡ true → core.new.bus.system ≡ core.old.bus.system) }
    ensures room { length (S.emitted events.new).events
        ≤ length (S.emitted events.old).events + max_lines (requests_by kind words.now core.old.registers) }
{
    let mut span = core.bus.kept_span(words.address, kind, privileged);
    let mut at = words.address;
    let mut number = next_listed(words.list, 0);
    values.clear();
    'registers: while number < 16 {
        let request = request_of_word(kind, privileged, at, number, &core.regs);
        match core.access_within(tick, events, &mut span, &request) {
            Ok(value) => values.push(value),
            Err(failure) => return Err(failure),
        }
        at = at.wrapping_add(4);
        number = next_listed(words.list, number + 1);
    }
    Ok(span.is_some())
}

/// Returns the access to the word of a register, for the code that runs, whose privilege is given.
#[inline(always)]
fn request_of_word(kind: Kind, privileged: bool, address: u32, number: u8, regs: &Regs) -> Request
    requires number { number < 16 }
    requires privileged { privileged ≡ is_privileged regs.now }
    ensures { result ≡ word_request kind address number regs.now }
{
    let value = if kind.is_store() {
        regs.get(Register::new(number))
    } else {
        0
    };
    let access = Access {
        address,
        kind,
        size: Size::Word,
        privileged,
    };
    Request { access, value }
}
