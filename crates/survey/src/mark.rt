//! What a tick can be marked with.

ghost use Rattle.std.specs.Prelude.{◌≡◌, ◌<◌, ◌≤◌, IfSome};
ghost use Rattle.survey.specs.Timeline.{handler_mark, mark_number, mark_of_access};

use platform::access::DecidedAccess;

/// How many exceptions have lanes of their own at most.
pub const MAX_LANES: usize = 24;

/// The address of the first register of the MPU, MPU_TYPE (ARM DDI 0403, "MPU register support").
const FIRST_MPU_REGISTER: u32 = 0xE000_ED90;

/// The address of the last register of the MPU, MPU_RASR_A3.
const LAST_MPU_REGISTER: u32 = 0xE000_EDB8;

/// What a tick can be marked with: what the core ran, and what a step did.
#[derive(Clone, Copy)]
pub enum Mark {
    /// Unprivileged code ran in Thread mode.
    Unprivileged,
    /// Privileged code ran in Thread mode.
    Privileged,
    /// The core was asleep.
    Sleep,
    /// An access was refused.
    Refused,
    /// A register of the MPU was written.
    MpuWritten,
    /// A handler ran whose exception has no lane of its own.
    OtherHandler,
    /// The handler ran of the exception that has the lane of this number.
    Handler(u8),
}

impl Mark {
    /// Returns its number: below 30 for the lanes that there are.
    #[inline(always)]
    pub fn number(self) -> usize
        ensures { result ≡ mark_number self }
    {
        match self {
            Mark::Unprivileged => 0,
            Mark::Privileged => 1,
            Mark::Sleep => 2,
            Mark::Refused => 3,
            Mark::MpuWritten => 4,
            Mark::OtherHandler => 5,
            Mark::Handler(lane) => 6 + lane as usize,
        }
    }

    /// Returns the mark of a handler, by the lane of its exception; the number of lanes stands for none.
    #[inline(always)]
    pub(crate) fn of_handler(lane: usize) -> Self
        ensures value { result ≡ handler_mark lane }
        ensures within { mark_number result < 30 }
    {
        if lane < MAX_LANES {
            Mark::Handler(lane as u8)
        } else {
            Mark::OtherHandler
        }
    }

    /// Returns the mark that an access makes: a refused one, and a write to a register of the MPU.
    #[inline(always)]
    pub(crate) fn of_access(decided: &DecidedAccess) -> Option<Self>
        ensures value { result ≡ mark_of_access decided.now }
        ensures within { IfSome result (λ mark. mark_number mark < 30) }
    {
        let address = decided.access.address;
        if decided.refused.is_some() {
            Some(Mark::Refused)
        } else if decided.access.kind.is_write()
            && FIRST_MPU_REGISTER <= address
            && address <= LAST_MPU_REGISTER
        {
            Some(Mark::MpuWritten)
        } else {
            None
        }
    }
}
