//! The local monitor (ARM DDI 0403, "Synchronization and semaphores"): what the last load exclusive
//! marked.

ghost use Rattle.std.specs.Prelude.{◌≡◌};
ghost use Rattle.instruction_set.specs.Monitor as spec;
ghost use Rattle.instruction_set.specs.Monitor.{with_mark, without_mark};

use crate::Regs;
use instruction_set::registers::Marked;
use instruction_set::size::Size;

impl Regs {
    /// Returns whether an address is marked with this size: the part of `ExclusiveMonitorsPass()` that
    /// tests the local monitor.
    pub fn is_marked(&self, address: u32, size: Size) -> bool
        ensures { result ≡ spec.is_marked self.now address size }
    {
        match self.monitor {
            Some(marked) => marked.address == address && marked.size.bytes() == size.bytes(),
            None => false,
        }
    }

    /// Marks an address with a size: `SetExclusiveMonitors()`.
    pub fn mark(&mut self, address: u32, size: Size)
        ensures { self.new ≡ with_mark self.old address size }
    {
        self.monitor = Some(Marked { address, size });
    }

    /// Marks nothing: `ClearExclusiveLocal()`.
    pub fn clear_mark(&mut self)
        ensures { self.new ≡ without_mark self.old }
    {
        self.monitor = None;
    }
}
