//! Exception return (ARM DDI 0403, `ExceptionReturn()`, `DeActivate()` and `PopStack()`).

ghost use Rattle.std.specs.Prelude.{◌≡◌, ◌+◌, ◌<◌, ◌≤◌, length};
ghost use Rattle.instruction_set.specs.Frames as frames;
ghost use Rattle.exceptions.specs.Performing.{ContinuesWith};
ghost use Rattle.reference.specs.declared.failure.Failure.TheVariants.{Usage};
ghost use Rattle.reference.specs.declared.failure.UsageFault.TheVariants.{InvalidReturn};
ghost use Rattle.reference.specs.ExceptionReturn as spec;
ghost use Rattle.reference.specs.ExceptionReturn.{with_entry, tail_chained};
ghost use Rattle.platform.specs.System.{exception_ended};
ghost use Rattle.reference.specs.ExceptionReturn.{pop_stack, unstacked, exception_return};
ghost use Rattle.reference.specs.Faults.{failed};
ghost use Rattle.platform.specs.Priorities.{candidate};
ghost use Rattle.reference.specs.State.{with_system};

use crate::frames::{Frame, perform_frame};
use crate::state::Core;
use access::{Decider, Exceptions, KeptCode, SysTickState};
use instruction_set::unpredictable::UnpredictableCase;
use platform::access::Kind;
use platform::event::{Event, EventKind, MAX_EVENTS};
use platform::exception::NMI;
use platform::stop::Stop;
use reference::accesses::Values;
use reference::failure::{Failure, UsageFault};
use regs::{Regs, returns_on_psp, returns_to_handler};
use trace::sink::Sink;

/// The index of the return address in a frame.
const PC: usize = 6;

/// The index of xPSR in a frame.
const XPSR: usize = 7;

/// Returns whether bits 27:4 of an EXC_RETURN are ones.
fn has_reserved_ones(exc_return: u32) -> bool
    ensures { result ≡ frames.has_reserved_ones exc_return }
{
    exc_return >> 4 & 0xFF_FFFF == 0xFF_FFFF
}

/// Returns whether an EXC_RETURN returns to Thread mode.
fn returns_to_thread(exc_return: u32) -> bool
    ensures { result ≡ frames.returns_to_thread exc_return }
{
    exc_return & 15 == 9 || returns_on_psp(exc_return)
}

/// Returns whether a frame's IPSR is nonzero exactly where EXC_RETURN names Handler mode.
fn fits_mode(exc_return: u32, frame: &[u32]) -> bool
    requires { length frame.now ≡ 8 }
    ensures { result ≡ spec.fits_mode exc_return frame.now }
{
    let exception = frame[XPSR] & 0x1FF;
    if returns_to_handler(exc_return) {
        exception != 0
    } else {
        exception == 0
    }
}

/// Returns whether the code that is returned to is privileged.
fn returns_privileged(regs: &Regs, exc_return: u32) -> bool
    ensures { result ≡ spec.returns_privileged regs.now exc_return }
{
    returns_to_handler(exc_return) || !regs.npriv()
}

impl<D: Decider, C: KeptCode, L: Exceptions, U: SysTickState> Core<D, C, L, U> {
    /// Returns from an exception.
    #[tactic(auto, unfolding(reference::specs::ExceptionReturn::exception_return))]
    pub fn return_from<S: Sink>(&mut self, events: &mut S, exc_return: u32)
        requires { length (S.emitted events.old).events + 10 ≤ MAX_EVENTS }
        ensures { ContinuesWith S.emitted events.old events.new self.new
            (λ es. exception_return self.old es exc_return) }
    {
        events.emit(Event {
            tick: self.bus.system.ticks(),
            what: EventKind::ReturnBegan(exc_return),
        });
        if !has_reserved_ones(exc_return) {
            self.end(Stop::Unpredictable(UnpredictableCase::ExceptionReturn));
            return;
        }
        let is_allowed = self.is_allowed(exc_return);
        self.end_exception();
        if is_allowed {
            self.tail_chain(events, exc_return);
        } else {
            self.refuse_return(events, exc_return);
        }
    }

    /// Returns whether a return is allowed: the handler's exception is active; bits 3:0 of EXC_RETURN are
    /// 0001, 1001 or 1101; and a return to Thread mode leaves no other exception active, unless
    /// CCR.NONBASETHRDENA is 1.
    fn is_allowed(&self, exc_return: u32) -> bool
        ensures { result ≡ spec.is_allowed self.now exc_return }
    {
        let exceptions = self.bus.system.exceptions();
        let exception = self.regs.exception();
        exceptions.is_active(exception)
            && (returns_to_handler(exc_return)
                || returns_to_thread(exc_return)
                    && (!exceptions.is_other_active(exception)
                        || self.bus.system.status().nonbasethrdena()))
    }

    /// Deactivates the handler's exception: `DeActivate()`. FAULTMASK becomes 0, except after NMI.
    fn end_exception(&mut self)
        ensures { self.new ≡ with_system self.old (exception_ended self.old.bus.system self.old.registers.exception) }
    {
        let exception = self.regs.exception();
        self.bus.system.deactivate(exception);
        if exception != NMI {
            self.bus.system.clear_faultmask();
        }
    }

    /// Begins the entry of the next exception, if there is one, or pops the frame.
    fn tail_chain<S: Sink>(&mut self, events: &mut S, exc_return: u32)
        requires { length (S.emitted events.old).events + 9 ≤ MAX_EVENTS }
        ensures { ContinuesWith S.emitted events.old events.new self.new
            (λ es. tail_chained self.old es exc_return (candidate self.old.bus.system.nvic)) }
    {
        if self.candidate().is_some() {
            self.entry = Some(exc_return);
        } else {
            self.pop_stack(events, exc_return);
        }
    }

    /// Raises the fault of a return that isn't allowed, and begins an entry.
    fn refuse_return<S: Sink>(&mut self, events: &mut S, exc_return: u32)
        requires { length (S.emitted events.old).events < MAX_EVENTS }
        ensures { ContinuesWith S.emitted events.old events.new self.new
            (λ es. failed (with_entry self.old exc_return) es (Usage InvalidReturn)) }
    {
        self.entry = Some(exc_return);
        self.fail(events, Failure::Usage(UsageFault::InvalidReturn));
    }

    /// Pops the frame.
    #[tactic(auto, unfolding(reference::specs::ExceptionReturn::pop_stack, reference::specs::ExceptionReturn::pops))]
    fn pop_stack<S: Sink>(&mut self, events: &mut S, exc_return: u32)
        requires { length (S.emitted events.old).events + 9 ≤ MAX_EVENTS }
        ensures { ContinuesWith S.emitted events.old events.new self.new (λ es. pop_stack self.old es exc_return) }
    {
        let frame = Frame {
            kind: Kind::Pop,
            privileged: returns_privileged(&self.regs, exc_return),
            address: self.regs.returned_stack(exc_return),
        };
        let mut values = Values::new();
        match perform_frame(self, events, &frame, &[0; 8], &mut values) {
            Ok(()) => self.unstack(events, exc_return, values.as_slice()),
            Err(failure) => {
                self.entry = Some(exc_return);
                self.fail(events, failure);
            }
        }
    }

    /// Takes the registers from the frame, once it's checked.
    #[tactic(auto, unfolding(reference::specs::ExceptionReturn::unstacked))]
    fn unstack<S: Sink>(&mut self, events: &mut S, exc_return: u32, frame: &[u32])
        requires room { length (S.emitted events.old).events < MAX_EVENTS }
        requires words { length frame.now ≡ 8 }
        ensures { ContinuesWith S.emitted events.old events.new self.new
            (λ es. unstacked self.old es exc_return frame.now) }
    {
        if !fits_mode(exc_return, frame) {
            self.refuse_return(events, exc_return);
        } else if frame[PC] & 1 == 1 {
            self.end(Stop::Unpredictable(UnpredictableCase::PoppedPc));
        } else {
            self.regs.pop_frame(exc_return, frame);
        }
    }
}
