//! What holds of a step, whatever the state: each law is the contract of a function that does
//! nothing.
#![tactic(auto)]

ghost use Rattle.std.specs.Prelude.{ℕ, List};
ghost use Rattle.instruction_set.specs.Registers.{Registers};
ghost use Rattle.platform.specs.declared.event.Event.{Event};
ghost use Rattle.platform.specs.declared.script.Signal.{Signal};
ghost use Rattle.reference.specs.declared.place.Place.{Place};
ghost use Rattle.reference.specs.Places.{altered, signalled};
ghost use Rattle.reference.specs.State.{State};
ghost use Rattle.reference.specs.Step.{step};
ghost use Rattle.step_laws.specs.AccessLaw.{OneRefusal, OnlyCovered};
ghost use Rattle.step_laws.specs.DeviceLaw.{WordStays};
ghost use Rattle.step_laws.specs.FrameLaw.{FrameGivesBack, ReturnGivesBack};
ghost use Rattle.step_laws.specs.RegionLaw.{RegionsStay};
ghost use Rattle.step_laws.specs.SignalLaw.{SignalIsEvent};
ghost use Rattle.step_laws.specs.SizeLaw.{AreOfOneBoard, KeepsBoard};
ghost use Rattle.step_laws.specs.TickLaw.{TakesTick};

/// At most one access of a step is refused. It is the step's last access, and the next event is the
/// line of its fault, which ends the step. The blocks of memory keep their addresses and sizes, and their bytes
/// change only where a store or a push of the step that was carried out covers them (ARM DDI 0403,
/// MemA[] and "Fault behavior").
pub fn accesses_of_a_step()
    ensures one_refusal { (s : State) → OneRefusal (step s).events }
    ensures only_covered { (s : State) → OnlyCovered s.bus.memory (step s).state.bus.memory (step s).events }
{}

/// The words of a frame restore the registers that were pushed: R0 to R3, R12, LR, PC, the flags,
/// IT, T, the exception's number, the mode, which of the two stack pointers SP is, and SP itself with its
/// bit 2. The invariant holds of the registers before the push and before the pop, and the stack pointer that
/// EXC_RETURN names is as it was after the push (ARM DDI 0403, PushStack() and PopStack()).
pub fn frame_gives_registers_back()
    ensures { (r u : Registers) → FrameGivesBack r u }
{}

/// Where all pushes of an entry from a state with the invariant were carried out, a return with its
/// EXC_RETURN restores those registers from every state with the invariant that has the frame's
/// bytes and the stack pointer as they were after the pushes, if the return neither stops nor begins
/// an entry (ARM DDI 0403, PushStack(), ExceptionReturn() and PopStack()).
pub fn return_gives_registers_back()
    ensures { (s u : State) (before : List Event) → ReturnGivesBack s u before }
{}

/// A signal of an interrupt or of NMI between two steps does what an event of the script, the first one of the next
/// tick, does.
pub fn signals_are_events()
    ensures { (s : State) (what : Signal) → SignalIsEvent s what }
{}

/// The blocks of memory keep their places and sizes, and the devices stay, in a step and where a value or a signal
/// comes from outside.
pub fn board_stays()
    ensures step { (s : State) → AreOfOneBoard s.bus (step s).state.bus }
    ensures alter { (s : State) (p : Place) → KeepsBoard s (altered s p) }
    ensures signal { (s : State) (what : Signal) → KeepsBoard s (signalled s what) }
{}

/// A step leaves what is stored in a word of a device, where no poke of its tick names the word, and no load or store
/// of the step that was carried out stores to the word or is in a device that pokes it.
pub fn words_of_devices_change_by_accesses_and_pokes()
    ensures { (s : State) (a : ℕ) → WordStays s a }
{}

/// A step leaves the registers of the MPU as they are, unless one of its events is a write to the Private Peripheral
/// Bus that was carried out.
pub fn regions_change_by_writes()
    ensures { RegionsStay }
{}

/// A step of a machine that hasn't stopped takes one tick, unless its clock is at its end.
pub fn a_step_takes_a_tick()
    ensures { (s : State) → TakesTick s }
{}
