//! The priority bytes, the masks and the numbers of the board: the settings of the exceptions.

ghost use Rattle.std.specs.Prelude.{◌≡◌, slice_index};
ghost use Rattle.nvic.specs.Settings.{settings_of};
ghost use Rattle.platform.specs.Priorities.{reset_nvic};

use platform::exception::{EXCEPTIONS, MAX_INTERRUPTS, Masks};

/// The state of the exceptions except for the sets of pending, enabled and active ones.
#[derive(Clone, Copy)]
pub struct Settings {
    /// The priority byte of each exception, 0 where it has none.
    pub priorities: [u8; EXCEPTIONS as usize],
    /// AIRCR.PRIGROUP.
    pub group: u8,
    pub masks: Masks,
    /// The board's number of interrupts.
    pub interrupts: u8,
    /// The number of the top bits of a priority byte that the board implements.
    pub priority_bits: u8,
}

impl Settings {
    /// Returns the settings after a reset, on a board with `interrupts` interrupts (240 at most; the others
    /// are ignored) whose priority bytes keep their top `priority_bits` bits.
    pub fn fresh(interrupts: u8, priority_bits: u8) -> Self
        ensures { result ≡ settings_of (reset_nvic interrupts priority_bits) }
    {
        Settings {
            priorities: [0; EXCEPTIONS as usize],
            group: 0,
            masks: Masks {
                primask: false,
                faultmask: false,
                basepri: 0,
            },
            interrupts: interrupts.min(MAX_INTERRUPTS),
            priority_bits,
        }
    }

    /// Returns the priority byte of an exception, 0 where it has none.
    #[inline]
    pub fn priority(&self, number: u16) -> u8
        ensures { result ≡ slice_index self.now.priorities number }
    {
        if number < EXCEPTIONS {
            self.priorities[number as usize]
        } else {
            0
        }
    }
}
