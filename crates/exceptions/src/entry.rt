//! Exception entry in two steps (ARM DDI 0403, `PushStack()` and `ExceptionTaken()`).

ghost use Rattle.std.specs.Prelude.{◌≡◌, ◌<◌, ◌≤◌, ℕ, true, [], IfSome, length};
ghost use Rattle.instruction_set.specs.declared.size.Size.TheVariants.{Word};
ghost use Rattle.platform.specs.declared.access.Kind.TheVariants.{Vector};
ghost use Rattle.platform.specs.declared.access.Rule.TheVariants.{VectorRead};
ghost use Rattle.platform.specs.Outcomes.{done};
ghost use Rattle.reference.specs.Accesses.{access_lines, perform};
ghost use Rattle.reference.specs.LoadStore.{request};
ghost use Rattle.reference.specs.State.{with_bus};
ghost use Rattle.trace.specs.Emission.{with_emitted};
ghost use Rattle.exceptions.specs.Performing.{ContinuesWith, StepsTo, value_for};
ghost use Rattle.reference.specs.ExceptionEntry as spec;
ghost use Rattle.reference.specs.ExceptionEntry.{handler_entered, vector_refused, exception_taken, begin_entry};

use crate::accesses::{access_uncached, accessed};
use crate::faults::vector_fault;
use crate::frames::{Frame, perform_frame, word};
use crate::state::Core;
use access::{Decider, Exceptions, KeptCode, SysTickState};
use instruction_set::size::Size;
use platform::access::{Kind, Request, Rule};
use platform::event::{Event, EventKind, MAX_EVENTS};
use platform::exception::{HARD_FAULT, NMI};
use reference::accesses::Values;
use reference::failure::Failure;
use trace::sink::Sink;

/// The Peripheral region (ARM DDI 0403 B3.1) begins here, with the device window. A vector at an address below it is
/// what memory has there.
const PERIPHERAL_BASE: u32 = 0x4000_0000;

impl<D: Decider, C: KeptCode, L: Exceptions, U: SysTickState> Core<D, C, L, U> {
    /// Pushes the frame: a Stack step.
    #[tactic(auto, unfolding(reference::specs::ExceptionEntry::begin_entry, reference::specs::ExceptionEntry::pushes))]
    pub fn begin_entry<S: Sink>(&mut self, events: &mut S)
        requires { (S.emitted events.old).events ≡ [] }
        ensures { StepsTo S.emitted events.old events.new self.new (begin_entry self.old) }
    {
        let frame = Frame {
            kind: Kind::Push,
            privileged: self.regs.is_privileged(),
            address: self.regs.frame_address(),
        };
        let words = self.regs.frame();
        let mut values = Values::new();
        let pushed = perform_frame(self, events, &frame, words.as_slice(), &mut values);
        self.entry = Some(self.regs.exc_return());
        self.regs.reserve_frame();
        self.asleep = false;
        if let Err(failure) = pushed {
            self.fail(events, failure);
        }
    }

    /// Takes the current candidate: a Vector step.
    #[tactic(auto, unfolding(reference::specs::ExceptionEntry::take_vector))]
    pub fn take_vector<S: Sink>(&mut self, events: &mut S, exc_return: u32)
        requires { (S.emitted events.old).events ≡ [] }
        ensures { StepsTo S.emitted events.old events.new self.new (spec.take_vector self.old exc_return) }
    {
        if let Some(exception) = self.candidate() {
            self.take_exception(events, exc_return, exception);
        }
    }

    /// Reads the vector of an exception, and begins its handler.
    #[tactic(auto, unfolding(reference::specs::ExceptionEntry::exception_taken))]
    fn take_exception<S: Sink>(&mut self, events: &mut S, exc_return: u32, exception: u16)
        requires empty { (S.emitted events.old).events ≡ [] }
        requires small { exception < 256 }
        ensures { StepsTo S.emitted events.old events.new self.new (exception_taken self.old exc_return exception) }
    {
        match self.read_vector(events, exception) {
            Ok(vector) => self.enter_handler(events, exc_return, exception, vector),
            Err(Failure::Refused(_, _)) => self.refuse_vector(events, exception),
            Err(failure) => self.fail(events, failure),
        }
    }

    /// Reads the vector of an exception, and appends the line of the read. No rule refuses it, so most vectors are read
    /// in memory, and no kept rule is asked.
    fn read_vector<S: Sink>(&mut self, events: &mut S, exception: u16) -> Result<u32, Failure>
        requires empty { (S.emitted events.old).events ≡ [] }
        requires small { exception < 256 }
        ensures state { self.new ≡ with_bus self.old
            (perform self.old.registers.exception self.old.bus (spec.vector_read self.old exception)).after }
        ensures events { S.emitted events.new ≡ with_emitted (S.emitted events.old)
            (access_lines self.old.bus.system.time.ticks (spec.vector_read self.old exception)
            (perform self.old.registers.exception self.old.bus (spec.vector_read self.old exception)).performed) }
        ensures room { length (S.emitted events.new).events ≤ 1 }
        ensures answer { result ≡ value_for self.old (spec.vector_read self.old exception) }
    {
        let request = self.vector_read(exception);
        let tick = self.ticks();
        if let Some(vector) = self.vector_in_memory(request.access.address) {
            events.emit(accessed(tick, &request, Rule::VectorRead, None));
            return Ok(vector);
        }
        access_uncached(self.regs.exception(), &mut self.bus, tick, events, request)
    }

    /// Returns the vector that a read returns at this address, if memory has it there.
    #[inline(always)]
    #[tactic(auto, using(crate::proofs::Vectors::vector_done))]
    fn vector_in_memory(&self, address: u32) -> Option<u32>
        ensures { IfSome result (λ vector. (exception : ℕ)
            → perform exception self.now.bus (request Vector true Word address 0)
            ≡ record { after = self.now.bus; performed = done VectorRead vector }) }
    {
        if address >= PERIPHERAL_BASE {
            return None;
        }
        self.bus.memory().number(address, Size::Word)
    }

    /// Returns the read of the vector of an exception.
    fn vector_read(&self, exception: u16) -> Request
        requires { exception < 256 }
        ensures { result ≡ spec.vector_read self.now exception }
    {
        let address = self
            .bus
            .system
            .status()
            .vtor()
            .wrapping_add(4 * u32::from(exception));
        word(Kind::Vector, true, address, 0)
    }

    /// Begins the handler of an exception at its vector.
    fn enter_handler<S: Sink>(
        &mut self,
        events: &mut S,
        exc_return: u32,
        exception: u16,
        vector: u32,
    )
        requires room { length (S.emitted events.old).events < MAX_EVENTS }
        requires small { exception < 256 }
        ensures { ContinuesWith S.emitted events.old events.new self.new
            (λ es. handler_entered self.old es exception exc_return vector) }
    {
        events.emit(Event {
            tick: self.bus.system.ticks(),
            what: EventKind::HandlerEntered(exception),
        });
        self.regs.enter_handler(exception, exc_return, vector);
        self.bus.system.clear(exception);
        self.bus.system.activate(exception);
        self.entry = None;
    }

    /// Makes HardFault pending where the read of a vector is refused; for NMI and HardFault it is
    /// lockup.
    fn refuse_vector<S: Sink>(&mut self, events: &mut S, exception: u16)
        requires { length (S.emitted events.old).events < MAX_EVENTS }
        ensures { ContinuesWith S.emitted events.old events.new self.new (λ es. vector_refused self.old es exception) }
    {
        self.record(vector_fault());
        if exception == NMI || exception == HARD_FAULT {
            self.lock_up(events);
        } else {
            self.pend_by_fault(events, HARD_FAULT);
        }
    }
}
