//! What the one thread is at.

ghost use Rattle.std.specs.Prelude.{◌≡◌, ◌+◌, ◌-◌, ◌≤◌, ◌++◌, codes, length, take};
ghost use Rattle.arrayvec.specs.ArrayVec.{array_vec_len};
ghost use Rattle.gdb_texts.specs.Threads.{activity_text, thread_reply};
ghost use Rattle.platform.specs.Text.{stop_text};

use crate::bytes::put_bytes;
use arrayvec::ArrayVec;
use platform::stop::Stop;
use trace::page::Page;

/// What the machine is at.
#[derive(Clone, Copy)]
pub enum Activity {
    /// It has stopped.
    Stopped(Stop),
    /// It enters an exception.
    Entry,
    /// It runs the handler of this exception.
    Handler(u16),
    /// It runs privileged code in Thread mode.
    Privileged,
    /// It runs unprivileged code in Thread mode.
    Unprivileged,
}

/// Returns a line without its last byte.
fn without_last(line: &[u8]) -> &[u8]
    ensures { result.now ≡ take (length line.now - 1) line.now }
{
    if line.is_empty() {
        line
    } else {
        &line[..line.len() - 1]
    }
}

/// Appends the words of a stop.
fn put_stop(page: &mut Page<128>, stop: Stop)
    requires { length page.old + 64 ≤ 128 }
    ensures text { page.new ≡ page.old ++ (codes "stop " ++ stop_text stop) }
    ensures short { length page.new ≤ length page.old + 64 }
{
    let mut line: Page<64> = Page::new();
    line.put_stop(&stop);
    page.put_slice(without_last(line.as_slice()));
}

/// Appends what the machine is at.
fn put_activity(page: &mut Page<128>, activity: Activity)
    requires { length page.old + 64 ≤ 128 }
    ensures text { page.new ≡ page.old ++ activity_text activity }
    ensures short { length page.new ≤ length page.old + 64 }
{
    match activity {
        Activity::Stopped(stop) => put_stop(page, stop),
        Activity::Entry => page.put(b"entry"),
        Activity::Handler(number) => {
            page.put(b"handler ");
            page.put_decimal(number as u64);
        }
        Activity::Privileged => page.put(b"thread privileged"),
        Activity::Unprivileged => page.put(b"thread unprivileged"),
    }
}

/// Appends the reply that tells what the machine is at, and whether it sleeps.
pub fn put_thread<const ROOM: usize>(
    page: &mut ArrayVec<u8, ROOM>,
    activity: Activity,
    sleeps: bool,
)
    requires { array_vec_len page.old + 256 ≤ ROOM }
    ensures { page.new.items ≡ page.old.items ++ thread_reply activity sleeps }
{
    let mut text: Page<128> = Page::new();
    put_activity(&mut text, activity);
    if sleeps {
        text.put(b" asleep");
    }
    put_bytes(page, text.as_slice());
}
