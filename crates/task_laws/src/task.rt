//! How a run of a task ends.

use platform::stop::Stop;

/// Why a run of a task ended.
#[derive(Clone, Copy)]
pub enum TaskEnd {
    /// All steps of the limit were made, and none of them stopped the machine.
    Done,
    /// The next step wouldn't be an Instruction step, or would only stop the machine. It wasn't made.
    Other,
    /// No task runs: the machine isn't in unprivileged Thread mode, or is in the entry phase, or the
    /// regions of the MPU don't decide. No step was made.
    NotTask,
    /// The machine has stopped.
    Stopped(Stop),
}
