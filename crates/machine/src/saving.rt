//! Copies of a core's state, to go back to.

ghost use Rattle.std.specs.Prelude.{◌≡◌, IfOk};
ghost use Rattle.step_laws.specs.SizeLaw.{AreOfOneBoard};

use access::{Decider, Exceptions, KeptCode, PhysicalMemory, SavedSystem, SysTickState};
use exceptions::Core;
use platform::stop::Stop;
use regs::Regs;
use std::alloc::{AllocError, Global};
use std::marker::Model;

/// A copy of a machine's state, which `save_to` overwrites and `restore` goes back to. It takes as much memory as
/// flash, RAM and the second RAM have, and some 10 KiB.
#[derive(Drop)]
pub struct SavedState<L: Exceptions, U: SysTickState> {
    regs: Regs,
    memory: PhysicalMemory,
    /// On the heap, so that a copy that is moved takes little of the stack.
    system: Box<SavedSystem<L, U>>,
    asleep: bool,
    entry: Option<u32>,
    stop: Option<Stop>,
}

impl<L: Exceptions, U: SysTickState> Model for SavedState<L, U> {
    ghost use Rattle.reference.specs.State.{State};

    ghost Value = { State };

    ghost view = { λ k. record {
      registers = k.regs;
      bus = record { memory = k.memory; system = k.system.value };
      asleep = k.asleep;
      entry = k.entry;
      stop = k.stop;
    } };
}

impl<L: Exceptions, U: SysTickState> SavedState<L, U> {
    /// Returns a copy of a core's state, or fails where memory can't be allocated.
    #[inline(never)]
    pub fn of<D: Decider, C: KeptCode>(
        alloc: Global,
        core: &Core<D, C, L, U>,
    ) -> Result<Self, AllocError>
        ensures { IfOk result (λ saved. saved ≡ core.now) }
    {
        let memory = core.bus.memory().copied(alloc)?;
        let system = Box::new(alloc, core.bus.system.save(alloc)?)?;
        Ok(SavedState {
            regs: core.regs.copied(),
            memory,
            system,
            asleep: core.asleep,
            entry: core.entry,
            stop: core.stop,
        })
    }

    /// Becomes a copy of a core's state, where this is a copy of one of the same board.
    pub fn copy_from<D: Decider, C: KeptCode>(&mut self, core: &Core<D, C, L, U>)
        requires { AreOfOneBoard self.old.bus core.now.bus }
        ensures { self.new ≡ core.now }
    {
        self.regs = core.regs.copied();
        self.memory.copy_from(core.bus.memory());
        core.bus.system.save_to(&mut self.system);
        self.asleep = core.asleep;
        self.entry = core.entry;
        self.stop = core.stop;
    }

    /// Takes a core of the same board back to this state.
    pub fn copy_to<D: Decider, C: KeptCode>(&self, core: &mut Core<D, C, L, U>)
        requires { AreOfOneBoard core.old.bus self.now.bus }
        ensures { core.new ≡ self.now }
    {
        core.regs = self.regs.copied();
        core.bus.restore_memory(&self.memory);
        core.bus.system.restore(&self.system);
        core.asleep = self.asleep;
        core.entry = self.entry;
        core.stop = self.stop;
    }
}
