//! What waits for the reply to a question.

ghost use Rattle.std.specs.Prelude.{◌≡◌, bytes_eq};
ghost use Rattle.gdb_server.specs.Conduct.{first_turn, interrupted_if, is_interrupt};
ghost use Rattle.gdb_server.specs.Purposes.{is_file_reply};

use gdb::{Run, Search};
use gdb_packets::Request;
use gdb_texts::Resume;

/// What waits for the reply to a question to GDB.
#[derive(Clone, Copy)]
pub enum Waiting {
    /// A run.
    Running(Run),
    /// A search in the past.
    Searching(Search),
}

/// Returns what waits, which GDB has interrupted now or not.
pub fn interrupted_if(now: bool, waiting: Waiting) -> Waiting
    ensures { result ≡ interrupted_if now waiting }
{
    match waiting {
        Waiting::Running(run) => {
            let mut run = run;
            run.is_interrupted = run.is_interrupted || now;
            Waiting::Running(run)
        }
        Waiting::Searching(search) => {
            let mut search = search;
            search.is_interrupted = search.is_interrupted || now;
            Waiting::Searching(search)
        }
    }
}

/// Returns a run before its first step.
pub fn first_turn(how: Resume) -> Run
    ensures { result ≡ first_turn how }
{
    Run {
        how,
        made: 0,
        last: None,
        returns_to: None,
        is_interrupted: false,
    }
}

/// Returns whether a packet is the reply to a question.
pub fn is_file_reply(request: Request) -> bool
    ensures { result ≡ is_file_reply request }
{
    matches!(request, Request::FileReply)
}

/// Returns whether two texts are equal.
fn is_same(text: &[u8], other: &[u8]) -> bool
    ensures { result ≡ bytes_eq text.now other.now }
{
    text == other
}

/// Returns whether the reply to a question says that the user has interrupted the run.
pub fn is_interrupt(tail: &[u8]) -> bool
    ensures { result ≡ is_interrupt tail.now }
{
    tail.len() >= 2 && is_same(&tail[tail.len() - 2..], b",C")
}
