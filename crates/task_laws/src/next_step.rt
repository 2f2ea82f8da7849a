//! The kinds of steps.

/// What a step does after its tick.
#[derive(Clone, Copy)]
pub enum StepKind {
    /// It takes the exception whose frame was pushed: it reads the vector.
    Vector,
    /// It begins the entry of an exception: it pushes the frame.
    Stack,
    /// The core sleeps on.
    Sleep,
    Instruction,
}
