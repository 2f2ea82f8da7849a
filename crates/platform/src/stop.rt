//! Why a machine stopped, and the stops that have a name.

ghost use Rattle.std.specs.Prelude.{◌≡◌, ◌≤◌, ℕ, List, Some, length, refl, slice_get};

use instruction_set::unpredictable::UnpredictableCase;

/// Why a run ended. After any of these but `StepLimit` the machine makes no further step.
#[derive(Clone, Copy, PartialEq, Eq)]
pub enum Stop {
    /// As many steps were made as the limit allows.
    StepLimit,
    /// A BKPT instruction with this number.
    Breakpoint(u8),
    /// A fault that can't be taken.
    Lockup,
    /// The manual calls the case UNPREDICTABLE, or the value stored UNKNOWN, and the machine stops
    /// with a named stop.
    Unpredictable(UnpredictableCase),
    /// The case is left out of this project's profile.
    OutOfProfile(Unsupported),
    /// Software asked for a reset through AIRCR.SYSRESETREQ.
    ResetRequested,
}

/// What this project's profile leaves out.
#[derive(Clone, Copy, PartialEq, Eq)]
pub enum Unsupported {
    /// An aligned exclusive access to the device window or the Private Peripheral Bus.
    ExclusiveDevice,
    /// An access that would be made byte by byte, with a byte in the device window or the Private Peripheral
    /// Bus.
    UnalignedDevice,
    /// An access to a system register at a width that the register doesn't have.
    RegisterWidth,
    /// SHCSR with a changed active bit.
    ActiveBit,
    /// CCR.BFHFNMIGN.
    IgnoredBusFaults,
    /// SCR.SLEEPONEXIT.
    SleepOnExit,
    /// AIRCR.VECTRESET or AIRCR.VECTCLRACTIVE.
    ResetControl,
    /// The clock has reached 2^48 ticks.
    ClockEnd,
}

/// The cases of named stops: an enum, each case of which is in a list (`is_listed`). A contract sees the list, and for
/// each case its stop and its word.
pub trait NamedStop: Copy {
    ghost use Rattle.platform.specs.declared.stop.Stop.{Stop};

    ghost all: { List Self };

    ghost stop: { Self → Stop };

    ghost text: { Self → List ℕ };

    fn all() -> &'static [Self]
        ensures { result.now ≡ all };

    /// Returns the stop of a case.
    fn stop(self) -> Stop
        ensures { result ≡ stop self };

    /// Returns the word of a case, which the line of its stop ends with.
    fn word(self) -> &'static [u8]
        ensures word { result.now ≡ text self }
        ensures short { length result.now ≤ 16 };

    ghost is_listed: { (case : Self) → (n : ℕ) × (slice_get all n ≡ Some case) };
}

/// All cases that stop as UNPREDICTABLE ones.
static UNPREDICTABLE_CASES: [UnpredictableCase; 15] = [
    UnpredictableCase::Encoding,
    UnpredictableCase::ItBlock,
    UnpredictableCase::FewRegisters,
    UnpredictableCase::Registers,
    UnpredictableCase::StoredBase,
    UnpredictableCase::Immediate,
    UnpredictableCase::BitField,
    UnpredictableCase::SpecialRegister,
    UnpredictableCase::LoadPc,
    UnpredictableCase::LiteralPc,
    UnpredictableCase::MpuRegion,
    UnpredictableCase::MpuControl,
    UnpredictableCase::Icsr,
    UnpredictableCase::ExceptionReturn,
    UnpredictableCase::PoppedPc,
];

impl NamedStop for UnpredictableCase {
    ghost use Rattle.platform.specs.declared.stop.Stop.TheVariants as stop;
    ghost use Rattle.platform.specs.declared.stop.TheConstants.{UNPREDICTABLE_CASES};
    ghost use Rattle.instruction_set.specs.declared.unpredictable.UnpredictableCase.TheVariants as case;
    ghost use Rattle.platform.specs.Text.{unpredictable_text};

    ghost all = { UNPREDICTABLE_CASES };

    ghost stop = { λ case. stop.Unpredictable case };

    ghost text = { unpredictable_text };

    fn all() -> &'static [Self] {
        &UNPREDICTABLE_CASES
    }

    fn stop(self) -> Stop {
        Stop::Unpredictable(self)
    }

    fn word(self) -> &'static [u8] {
        match self {
            UnpredictableCase::Encoding => b"encoding",
            UnpredictableCase::ItBlock => b"it-block",
            UnpredictableCase::FewRegisters => b"empty-list",
            UnpredictableCase::Registers => b"registers",
            UnpredictableCase::StoredBase => b"stored-base",
            UnpredictableCase::Immediate => b"immediate",
            UnpredictableCase::BitField => b"bit-field",
            UnpredictableCase::SpecialRegister => b"special-register",
            UnpredictableCase::LoadPc => b"load-pc",
            UnpredictableCase::LiteralPc => b"literal-pc",
            UnpredictableCase::MpuRegion => b"mpu-region",
            UnpredictableCase::MpuControl => b"mpu-ctrl",
            UnpredictableCase::Icsr => b"icsr",
            UnpredictableCase::ExceptionReturn => b"exc-return",
            UnpredictableCase::PoppedPc => b"popped-pc",
        }
    }

    ghost is_listed = { elim [
      | case.Encoding ↦ (0, refl)
      | case.ItBlock ↦ (1, refl)
      | case.FewRegisters ↦ (2, refl)
      | case.Registers ↦ (3, refl)
      | case.StoredBase ↦ (4, refl)
      | case.Immediate ↦ (5, refl)
      | case.BitField ↦ (6, refl)
      | case.SpecialRegister ↦ (7, refl)
      | case.LoadPc ↦ (8, refl)
      | case.LiteralPc ↦ (9, refl)
      | case.MpuRegion ↦ (10, refl)
      | case.MpuControl ↦ (11, refl)
      | case.Icsr ↦ (12, refl)
      | case.ExceptionReturn ↦ (13, refl)
      | case.PoppedPc ↦ (14, refl)
    ] };
}

/// All cases that the profile leaves out.
static UNSUPPORTED_CASES: [Unsupported; 8] = [
    Unsupported::ExclusiveDevice,
    Unsupported::UnalignedDevice,
    Unsupported::RegisterWidth,
    Unsupported::ActiveBit,
    Unsupported::IgnoredBusFaults,
    Unsupported::SleepOnExit,
    Unsupported::ResetControl,
    Unsupported::ClockEnd,
];

impl NamedStop for Unsupported {
    ghost use Rattle.platform.specs.declared.stop.Stop.TheVariants as stop;
    ghost use Rattle.platform.specs.declared.stop.TheConstants.{UNSUPPORTED_CASES};
    ghost use Rattle.platform.specs.declared.stop.Unsupported.TheVariants as case;
    ghost use Rattle.platform.specs.Text.{unsupported_text};

    ghost all = { UNSUPPORTED_CASES };

    ghost stop = { λ case. stop.OutOfProfile case };

    ghost text = { unsupported_text };

    fn all() -> &'static [Self] {
        &UNSUPPORTED_CASES
    }

    fn stop(self) -> Stop {
        Stop::OutOfProfile(self)
    }

    fn word(self) -> &'static [u8] {
        match self {
            Unsupported::ExclusiveDevice => b"exclusive-device",
            Unsupported::UnalignedDevice => b"unaligned-device",
            Unsupported::RegisterWidth => b"register-width",
            Unsupported::ActiveBit => b"active-bit",
            Unsupported::IgnoredBusFaults => b"bfhfnmign",
            Unsupported::SleepOnExit => b"sleeponexit",
            Unsupported::ResetControl => b"aircr",
            Unsupported::ClockEnd => b"clock-end",
        }
    }

    ghost is_listed = { elim [
      | case.ExclusiveDevice ↦ (0, refl)
      | case.UnalignedDevice ↦ (1, refl)
      | case.RegisterWidth ↦ (2, refl)
      | case.ActiveBit ↦ (3, refl)
      | case.IgnoredBusFaults ↦ (4, refl)
      | case.SleepOnExit ↦ (5, refl)
      | case.ResetControl ↦ (6, refl)
      | case.ClockEnd ↦ (7, refl)
    ] };
}
