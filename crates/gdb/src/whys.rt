//! The lines that say why a run ended.

ghost use Rattle.std.specs.Prelude.{◌≡◌, [], ◌∷◌};
ghost use Rattle.std.specs.List.{list_any};
ghost use Rattle.gdb.specs.Consoles.{ShowsText};
ghost use Rattle.gdb.specs.Whys.{has_line, needs_line, line_begun, lines_of, stop_text, is_stop_event, needed_lines};
ghost use Rattle.gdb.specs.Whys.{stop_with_line};
ghost use Rattle.gdb.specs.Whys.{why_text};
ghost use Rattle.trace.specs.Selection.{is_refusal_or_fault};

use crate::console::Console;
use crate::steps::{event_hit, is_entry, selection_of};
use gdb_texts::{Settings, StopReason, Watchpoints};
use machine::{Event, event_line, stop_line};
use output::{IoError, Out};
use platform::event::EventKind;
use platform::stop::Stop;

/// Returns whether an event is a refused access or a recorded fault.
fn is_refusal_or_fault(what: &EventKind) -> bool
    ensures { result ≡ is_refusal_or_fault what.now }
{
    what.is_refused() || what.recorded_fault().is_some()
}

/// Returns whether a stop that the settings ask for may tell of an event.
fn is_stop_event(settings: &Settings, what: &EventKind) -> bool
    ensures { result ≡ is_stop_event settings.now what.now }
{
    (settings.refused || settings.faults) && is_refusal_or_fault(what)
        || settings.exceptions && is_entry(what)
}

/// Returns whether the line of an event is still to be told.
fn needs_line(settings: &Settings, watchpoints: &Watchpoints, what: &EventKind) -> bool
    ensures { result ≡ needs_line settings.now watchpoints.now what.now }
{
    (event_hit(watchpoints, what).is_some() || is_stop_event(settings, what))
        && !selection_of(settings.selection).selects(what)
}

/// Returns the stop that has a line. `before` is why the machine has stopped, if it has.
pub fn stop_with_line(reason: StopReason, before: Option<Stop>) -> Option<Stop>
    ensures { result ≡ stop_with_line reason before }
{
    match reason {
        StopReason::Stopped(stop) => Some(stop),
        StopReason::StoppedBefore => before,
        StopReason::Done
        | StopReason::Breakpoint(_)
        | StopReason::Watchpoint(_, _)
        | StopReason::PastBegins
        | StopReason::Refused(_)
        | StopReason::Fault
        | StopReason::Entered
        | StopReason::Interrupted => None,
    }
}

/// Returns whether one of some events has a line that is still to be told.
fn has_needed_line(settings: &Settings, watchpoints: &Watchpoints, events: &[Event]) -> bool
    ensures { result ≡ list_any (λ e. needs_line settings.now watchpoints.now e.what) events.now }
{
    events
        .iter()
        .any(|event| needs_line(settings, watchpoints, &event.what))
}

/// Returns whether there is a line to tell.
fn has_line(
    settings: &Settings,
    watchpoints: &Watchpoints,
    events: &[Event],
    stop: Option<Stop>,
) -> bool
    ensures { result ≡ has_line settings.now watchpoints.now events.now stop }
{
    has_needed_line(settings, watchpoints, events) || stop.is_some()
}

/// Returns a line feed where a line follows, unless the text is empty or ends with one.
fn line_begun(follows: bool, last: Option<u8>) -> &'static [u8]
    ensures { result.now ≡ line_begun follows last }
{
    match last {
        Some(byte) if follows && byte != b'\n' => b"\n",
        Some(_) | None => b"",
    }
}

/// Puts the line of an event that is still to be told.
fn put_line_if_needed<W: Out>(
    settings: &Settings,
    watchpoints: &Watchpoints,
    event: &Event,
    console: &mut Console,
    out: &mut W,
) -> Result<(), IoError>
    ensures { ShowsText (W.writing out.old) (W.writing out.new) console.old console.new
        (needed_lines settings.now watchpoints.now (event.now ∷ [])) result }
{
    if needs_line(settings, watchpoints, &event.what) {
        return console.put(event_line(event).as_slice(), out);
    }
    Ok(())
}

/// Puts the lines of the events that are still to be told.
fn put_needed_lines<W: Out>(
    settings: &Settings,
    watchpoints: &Watchpoints,
    events: &[Event],
    console: &mut Console,
    out: &mut W,
) -> Result<(), IoError>
    ensures { ShowsText (W.writing out.old) (W.writing out.new) console.old console.new
        (needed_lines settings.now watchpoints.now events.now) result }
{
    'events: for event in events {
        match put_line_if_needed(settings, watchpoints, event, console, out) {
            Ok(()) => {}
            Err(error) => return Err(error),
        }
    }
    Ok(())
}

/// Puts the line of a stop, if there is one.
fn put_stop<W: Out>(stop: Option<Stop>, console: &mut Console, out: &mut W) -> Result<(), IoError>
    ensures { ShowsText (W.writing out.old) (W.writing out.new) console.old console.new (stop_text stop) result }
{
    match stop {
        Some(stop) => console.put(stop_line(&stop).as_slice(), out),
        None => Ok(()),
    }
}

/// Puts the lines of the last step of a run, and of a stop, on lines of their own.
fn put_lines<W: Out>(
    settings: &Settings,
    watchpoints: &Watchpoints,
    events: &[Event],
    stop: Option<Stop>,
    console: &mut Console,
    out: &mut W,
) -> Result<(), IoError>
    ensures { ShowsText (W.writing out.old) (W.writing out.new) console.old console.new
        (lines_of settings.now watchpoints.now events.now stop console.old.last) result }
{
    let follows = has_line(settings, watchpoints, events, stop);
    match console.put(line_begun(follows, console.last()), out) {
        Ok(()) => {}
        Err(error) => return Err(error),
    }
    match put_needed_lines(settings, watchpoints, events, console, out) {
        Ok(()) => {}
        Err(error) => return Err(error),
    }
    put_stop(stop, console, out)
}

/// Puts the lines that say why a run ended, where the settings have such lines.
pub fn put_whys<W: Out>(
    settings: &Settings,
    watchpoints: &Watchpoints,
    events: &[Event],
    stop: Option<Stop>,
    console: &mut Console,
    out: &mut W,
) -> Result<(), IoError>
    ensures { ShowsText (W.writing out.old) (W.writing out.new) console.old console.new
        (why_text settings.now watchpoints.now events.now stop console.old.last) result }
{
    if settings.has_lines {
        return put_lines(settings, watchpoints, events, stop, console, out);
    }
    Ok(())
}
