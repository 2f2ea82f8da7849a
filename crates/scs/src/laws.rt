//! What holds of the System Control Space, whatever its registers hold: each is the theorem of a
//! function that does nothing.

ghost use Rattle.std.specs.Prelude.{◌≡◌, ◌⊎◌, ℕ, Bool, List};
ghost use Rattle.clock.specs.Laws.{IsSortedFrom};
ghost use Rattle.devices.specs.declared.device.Device.{Device as TheDevice};
ghost use Rattle.instruction_set.specs.declared.system.ChangeProcessorState.{ChangeProcessorState};
ghost use Rattle.instruction_set.specs.declared.system.SpecialRegister.{SpecialRegister};
ghost use Rattle.platform.specs.declared.access.Request.{Request};
ghost use Rattle.platform.specs.declared.access.Rule.{Rule};
ghost use Rattle.platform.specs.declared.script.ScriptedEvent.{ScriptedEvent as TheEvent};
ghost use Rattle.platform.specs.declared.script.Signal.{Signal as TheSignal};
ghost use Rattle.platform.specs.Outcomes.{LeavesUnlessDone};
ghost use Rattle.platform.specs.SpecialRegisters.{write_mask, change_state};
ghost use Rattle.platform.specs.System.{System, after_signal, after_tick, deactivated, device_access, reset_system};
ghost use Rattle.platform.specs.System.{system_access, with_nvic};
ghost use Rattle.scs.specs.Laws.{IsSystemSound};

/// An access that is a bus error or stops changes nothing in the system.
#[tactic(auto, using(crate::proofs::Refusals::system_keeps))]
pub fn refused_access_changes_nothing()
    ensures { (x : ℕ) (s : System) (rule : Rule) (q : Request)
        → LeavesUnlessDone (system_access x s rule q).performed s (system_access x s rule q).after }
{}

/// The system is sound after a reset, and stays so in each access, signal, tick, MSR, CPS and return from an exception.
pub fn system_stays_sound()
    ensures reset { (flash_base interrupts bits regions : ℕ) (script : List TheEvent) (table : List TheDevice)
        → (regions ≡ 8) ⊎ (regions ≡ 16)
        → IsSortedFrom 1 script → IsSystemSound (reset_system flash_base interrupts bits regions script table) }
    ensures access { (x : ℕ) (s : System) (rule : Rule) (q : Request) → IsSystemSound s
        → IsSystemSound (system_access x s rule q).after }
    ensures device { (s : System) (rule : Rule) (q : Request) → IsSystemSound s
        → IsSystemSound (device_access s rule q).after }
    ensures signal { (s : System) (what : TheSignal) → IsSystemSound s → IsSystemSound (after_signal s what) }
    ensures tick { (s : System) → IsSystemSound s → IsSystemSound (after_tick s) }
    ensures msr { (privileged : Bool) (s : System) (special : SpecialRegister) (value : ℕ) → IsSystemSound s
        → IsSystemSound (with_nvic s (write_mask privileged s.nvic special value)) }
    ensures cps { (privileged : Bool) (s : System) (o : ChangeProcessorState) → IsSystemSound s
        → IsSystemSound (with_nvic s (change_state privileged s.nvic o)) }
    ensures deactivation { (s : System) (x : ℕ) → IsSystemSound s → IsSystemSound (deactivated s x) }
{}
