//! What faults set and pend (ARM DDI 0403, "Fault behavior" and "Priority escalation"), and SVC.

ghost use Rattle.std.specs.Prelude.{◌≡◌, ◌<◌, ◌++◌, ◌∷◌, [], length};
ghost use Rattle.exceptions.specs.Performing.{ContinuesWith};
ghost use Rattle.reference.specs.Faults as spec;
ghost use Rattle.reference.specs.Faults.{access_fault, recorded, pended_by_fault, escalated_to_hard_fault, locked_up};
ghost use Rattle.reference.specs.Faults.{escalated};
ghost use Rattle.reference.specs.Faults.{faulted, failed, supervisor_called};

use crate::state::Core;
use access::{Decider, Exceptions, KeptCode, SysTickState};
use platform::access::{Access, Cause, Kind};
use platform::event::{Event, EventKind, MAX_EVENTS, RecordedFault};
use platform::exception::{BUS_FAULT, Escalation, HARD_FAULT, MEM_MANAGE, SV_CALL, USAGE_FAULT};
use platform::fault_status::{
    BFARVALID, DACCVIOL, DIVBYZERO, FORCED, FaultAddress, FaultEffect, IACCVIOL, IBUSERR, INVPC,
    INVSTATE, MMARVALID, MSTKERR, MUNSTKERR, NOCP, PRECISERR, STKERR, UNALIGNED, UNDEFINSTR,
    UNSTKERR, VECTTBL,
};
use platform::stop::Stop;
use reference::failure::{Failure, UsageFault};
use trace::sink::Sink;

/// The length of SVC in bytes.
const SVC_LENGTH: u32 = 2;

fn mem_manage(bits: u32, address: FaultAddress) -> FaultEffect
    ensures { result ≡ spec.mem_manage bits address }
{
    FaultEffect {
        exception: MEM_MANAGE,
        cfsr: bits,
        hfsr: 0,
        address,
    }
}

fn bus_fault(bits: u32, address: FaultAddress) -> FaultEffect
    ensures { result ≡ spec.bus_fault bits address }
{
    FaultEffect {
        exception: BUS_FAULT,
        cfsr: bits,
        hfsr: 0,
        address,
    }
}

fn usage_fault(bit: u32) -> FaultEffect
    ensures { result ≡ spec.usage_fault bit }
{
    FaultEffect {
        exception: USAGE_FAULT,
        cfsr: bit,
        hfsr: 0,
        address: FaultAddress::NotKept,
    }
}

/// Returns the fault of a vector that can't be read.
pub fn vector_fault() -> FaultEffect
    ensures { result ≡ spec.vector_fault }
{
    FaultEffect {
        exception: HARD_FAULT,
        cfsr: 0,
        hfsr: VECTTBL,
        address: FaultAddress::NotKept,
    }
}

/// Returns the fault of a refused access, by what the access was for and what refused it.
pub fn fault_of(access: &Access, cause: Cause) -> FaultEffect
    ensures { result ≡ spec.fault_of access.now cause }
{
    let address = access.address;
    match (access.kind, cause) {
        (Kind::Fetch, Cause::Mpu) => mem_manage(IACCVIOL, FaultAddress::NotKept),
        (Kind::Load | Kind::Store | Kind::Probe, Cause::Mpu) => {
            mem_manage(DACCVIOL + MMARVALID, FaultAddress::Mmfar(address))
        }
        (Kind::Push, Cause::Mpu) => mem_manage(MSTKERR, FaultAddress::NotKept),
        (Kind::Pop, Cause::Mpu) => mem_manage(MUNSTKERR, FaultAddress::NotKept),
        (Kind::Fetch, Cause::Bus) => bus_fault(IBUSERR, FaultAddress::NotKept),
        (Kind::Load | Kind::Store | Kind::Probe, Cause::Bus) => {
            bus_fault(PRECISERR + BFARVALID, FaultAddress::Bfar(address))
        }
        (Kind::Push, Cause::Bus) => bus_fault(STKERR, FaultAddress::NotKept),
        (Kind::Pop, Cause::Bus) => bus_fault(UNSTKERR, FaultAddress::NotKept),
        (Kind::Vector, _) => vector_fault(),
    }
}

/// Returns the fault of an instruction, or of a return.
pub fn usage_fault_of(fault: UsageFault) -> FaultEffect
    ensures { result ≡ spec.usage_fault_of fault }
{
    usage_fault(match fault {
        UsageFault::UndefinedInstruction => UNDEFINSTR,
        UsageFault::InvalidState => INVSTATE,
        UsageFault::InvalidReturn => INVPC,
        UsageFault::NoCoprocessor => NOCP,
        UsageFault::Unaligned => UNALIGNED,
        UsageFault::DivideByZero => DIVBYZERO,
    })
}

impl<D: Decider, C: KeptCode, L: Exceptions, U: SysTickState> Core<D, C, L, U> {
    /// Sets the bits and the address of a fault.
    pub fn record(&mut self, fault: FaultEffect)
        ensures { self.new ≡ recorded self.old fault }
    {
        self.bus.system.set_fault_bits(fault.cfsr, fault.hfsr);
        match fault.address {
            FaultAddress::NotKept => {}
            FaultAddress::Mmfar(address) => self.bus.system.set_mmfar(address),
            FaultAddress::Bfar(address) => self.bus.system.set_bfar(address),
        }
    }

    /// Returns the line of a fault by which this exception became pending, 0 for lockup.
    fn fault_line(&self, exception: u16) -> Event
        ensures { result ≡ spec.fault_line self.now exception }
    {
        let status = self.bus.system.status();
        Event {
            tick: self.bus.system.ticks(),
            what: EventKind::FaultRecorded(RecordedFault {
                cfsr: status.cfsr(),
                hfsr: status.hfsr(),
                exception,
            }),
        }
    }

    /// Makes an exception pending by a fault.
    pub fn pend_by_fault<S: Sink>(&mut self, events: &mut S, exception: u16)
        requires { length (S.emitted events.old).events < MAX_EVENTS }
        ensures { ContinuesWith S.emitted events.old events.new self.new (λ es. pended_by_fault self.old es exception) }
    {
        events.emit(self.fault_line(exception));
        self.bus.system.pend(exception);
    }

    /// Makes HardFault pending in place of a fault that can't be taken.
    fn escalate_to_hard_fault<S: Sink>(&mut self, events: &mut S)
        requires { length (S.emitted events.old).events < MAX_EVENTS }
        ensures { ContinuesWith S.emitted events.old events.new self.new (escalated_to_hard_fault self.old) }
    {
        self.bus.system.set_fault_bits(0, FORCED);
        self.pend_by_fault(events, HARD_FAULT);
    }

    /// Stops the core by lockup.
    pub fn lock_up<S: Sink>(&mut self, events: &mut S)
        requires { length (S.emitted events.old).events < MAX_EVENTS }
        ensures { ContinuesWith S.emitted events.old events.new self.new (locked_up self.old) }
    {
        events.emit(self.fault_line(0));
        self.end(Stop::Lockup);
    }

    /// Records a fault; pends its exception or HardFault, or locks up, by the current execution
    /// priority.
    #[tactic(auto, unfolding(reference::specs::Faults::faulted))]
    pub fn raise<S: Sink>(&mut self, events: &mut S, fault: FaultEffect)
        requires { length (S.emitted events.old).events < MAX_EVENTS }
        ensures { ContinuesWith S.emitted events.old events.new self.new (λ es. faulted self.old es fault) }
    {
        self.record(fault);
        match self.escalation(fault.exception) {
            Escalation::Itself => self.pend_by_fault(events, fault.exception),
            Escalation::HardFault => self.escalate_to_hard_fault(events),
            Escalation::Lockup => self.lock_up(events),
        }
    }

    /// Raises the fault of an access or of an instruction, or stops.
    #[cold]
    #[inline(never)]
    pub fn fail<S: Sink>(&mut self, events: &mut S, failure: Failure)
        requires { length (S.emitted events.old).events < MAX_EVENTS }
        ensures { ContinuesWith S.emitted events.old events.new self.new (λ es. failed self.old es failure) }
    {
        match failure {
            Failure::Refused(access, cause) => self.raise(events, fault_of(&access, cause)),
            Failure::Usage(fault) => self.raise(events, usage_fault_of(fault)),
            Failure::Stop(why) => self.end(why),
        }
    }

    /// Calls the supervisor as SVC does.
    #[tactic(auto, unfolding(reference::specs::Faults::supervisor_called))]
    pub fn call_supervisor<S: Sink>(&mut self, events: &mut S)
        requires { length (S.emitted events.old).events < MAX_EVENTS }
        ensures { ContinuesWith S.emitted events.old events.new self.new (supervisor_called self.old) }
    {
        match self.escalation(SV_CALL) {
            Escalation::Itself => {
                self.regs.it_advance();
                self.regs.advance_pc(SVC_LENGTH);
                self.bus.system.pend(SV_CALL);
            }
            Escalation::HardFault => self.escalate_to_hard_fault(events),
            Escalation::Lockup => self.lock_up(events),
        }
    }
}
