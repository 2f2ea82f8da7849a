//! What a session may choose: which lines the steps have, and what ends a run.

ghost use Rattle.std.specs.Prelude.{◌≡◌, ◌+◌, ◌≤◌, ◌++◌, length};
ghost use Rattle.debugger_commands.specs.Conditions.{has_lines, hit_line, hit_lines, is_all, traced};

use crate::texts::Reply;
use trace::selection::TraceSelection;

/// Which events of a step have a line.
#[derive(Clone, Copy)]
pub enum LineSelection {
    /// Every event.
    All,
    /// The accesses that were refused, and the faults that were recorded.
    Refused,
    /// Those of `Refused`, and where a handler was entered or a return began.
    Exceptions,
    /// The bytes that the firmware printed.
    Console,
    /// No event.
    Nothing,
}

impl LineSelection {
    /// Returns the selection of the same name of a whole run.
    pub fn traced(self) -> TraceSelection
        ensures { result ≡ traced self }
    {
        match self {
            LineSelection::All => TraceSelection::All,
            LineSelection::Refused => TraceSelection::Refused,
            LineSelection::Exceptions => TraceSelection::Exceptions,
            LineSelection::Console => TraceSelection::Console,
            LineSelection::Nothing => TraceSelection::Nothing,
        }
    }

    /// Returns whether every event has a line.
    pub fn is_all(self) -> bool
        ensures { result ≡ is_all self }
    {
        match self {
            LineSelection::All => true,
            LineSelection::Refused
            | LineSelection::Exceptions
            | LineSelection::Console
            | LineSelection::Nothing => false,
        }
    }

    /// Returns whether any event has a line.
    pub fn has_lines(self) -> bool
        ensures { result ≡ has_lines self }
    {
        match self {
            LineSelection::All
            | LineSelection::Refused
            | LineSelection::Exceptions
            | LineSelection::Console => true,
            LineSelection::Nothing => false,
        }
    }
}

/// What may end a run, beside breakpoints and watchpoints.
#[derive(Clone, Copy)]
pub enum Condition {
    /// An access is refused.
    Refused,
    /// A fault is recorded.
    Faults,
    /// A handler is entered.
    Exceptions,
}

/// What ended a run, where the machine goes on.
#[derive(Clone, Copy)]
pub enum Hit {
    /// The next step is an instruction at a breakpoint.
    Break,
    /// A granted access met the watchpoint of this number, from 0.
    Watch(usize),
    /// An access was refused.
    Refused,
    /// A fault was recorded.
    Fault,
    /// A handler was entered.
    Exception,
}

/// Appends the line of what was hit.
fn put_hit(page: &mut Reply, hit: Hit)
    requires { length page.old + 31 ≤ 1024 }
    ensures text { page.new ≡ page.old ++ hit_line hit }
    ensures short { length page.new ≤ length page.old + 31 }
{
    match hit {
        Hit::Break => page.put(b"hit break\n"),
        Hit::Watch(number) => {
            page.put(b"hit watch ");
            page.put_decimal(number as u64);
            page.put(b"\n");
        }
        Hit::Refused => page.put(b"hit refused\n"),
        Hit::Fault => page.put(b"hit fault\n"),
        Hit::Exception => page.put(b"hit exception\n"),
    }
}

/// Appends the line of what was hit in a session with scripts.
pub fn put_hits(page: &mut Reply, is_script: bool, hit: Option<Hit>)
    requires { length page.old + 31 ≤ 1024 }
    ensures text { page.new ≡ page.old ++ hit_lines is_script hit }
    ensures short { length page.new ≤ length page.old + 31 }
{
    match hit {
        Some(hit) if is_script => put_hit(page, hit),
        Some(_) | None => {}
    }
}
