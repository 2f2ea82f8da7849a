//! The events of a step: the lines of the trace as data.

ghost use Rattle.std.specs.Prelude.{◌≡◌, option_copied};
ghost use Rattle.platform.specs.Events.{access_of, byte_of, is_entry_or_return, is_refused, recorded_fault_of};

use crate::access::DecidedAccess;

/// No step has more lines than this: those of two fetches, of at most 16 accesses with a byte for the
/// console each, and of a return from an exception, which are ten.
pub const MAX_EVENTS: usize = 44;

/// One line of the trace.
#[derive(Clone, Copy)]
pub struct Event {
    /// The tick of the step, from 1.
    pub tick: u64,
    pub what: EventKind,
}

/// What an event is.
#[derive(Clone, Copy)]
pub enum EventKind {
    /// An access was decided.
    Accessed(DecidedAccess),
    /// A byte went out to the console.
    ConsoleByte(u8),
    /// An exception return began, with this EXC_RETURN value.
    ReturnBegan(u32),
    /// The handler of the exception of this number was entered.
    HandlerEntered(u16),
    /// A fault was recorded.
    FaultRecorded(RecordedFault),
}

impl EventKind {
    /// Returns the access that was decided, if the event is one.
    #[inline(always)]
    pub fn access(&self) -> Option<&DecidedAccess>
        ensures { option_copied result ≡ access_of self.now }
    {
        match self {
            EventKind::Accessed(decided) => Some(decided),
            EventKind::ConsoleByte(_)
            | EventKind::ReturnBegan(_)
            | EventKind::HandlerEntered(_)
            | EventKind::FaultRecorded(_) => None,
        }
    }

    /// Returns the byte that was printed, if the event is one.
    #[inline(always)]
    pub fn byte(&self) -> Option<u8>
        ensures { result ≡ byte_of self.now }
    {
        match self {
            EventKind::ConsoleByte(byte) => Some(*byte),
            EventKind::Accessed(_)
            | EventKind::ReturnBegan(_)
            | EventKind::HandlerEntered(_)
            | EventKind::FaultRecorded(_) => None,
        }
    }

    /// Returns the fault that was recorded, if the event is one.
    #[inline(always)]
    pub fn recorded_fault(&self) -> Option<&RecordedFault>
        ensures { option_copied result ≡ recorded_fault_of self.now }
    {
        match self {
            EventKind::FaultRecorded(fault) => Some(fault),
            EventKind::Accessed(_)
            | EventKind::ConsoleByte(_)
            | EventKind::ReturnBegan(_)
            | EventKind::HandlerEntered(_) => None,
        }
    }

    /// Returns whether the event is the entry of a handler or the begin of a return.
    #[inline(always)]
    pub fn is_entry_or_return(&self) -> bool
        ensures { result ≡ is_entry_or_return self.now }
    {
        match self {
            EventKind::ReturnBegan(_) | EventKind::HandlerEntered(_) => true,
            EventKind::Accessed(_) | EventKind::ConsoleByte(_) | EventKind::FaultRecorded(_) =>
                false,
        }
    }

    /// Returns whether the event is an access that was refused.
    #[inline(always)]
    pub fn is_refused(&self) -> bool
        ensures { result ≡ is_refused self.now }
    {
        match self.access() {
            Some(decided) => decided.refused.is_some(),
            None => false,
        }
    }
}

/// A fault that was recorded, and the status registers after it.
#[derive(Clone, Copy)]
pub struct RecordedFault {
    /// The Configurable Fault Status Register.
    pub cfsr: u32,
    /// The HardFault Status Register.
    pub hfsr: u32,
    /// The exception that became pending, or 0 for lockup.
    pub exception: u16,
}

// A blank event: the value of the unused elements of a fixed-size list.
impl Default for Event {
    fn default() -> Self {
        Event {
            tick: 0,
            what: EventKind::ConsoleByte(0),
        }
    }
}
