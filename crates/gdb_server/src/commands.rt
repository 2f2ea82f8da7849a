//! The commands of `monitor`.

ghost use Rattle.std.specs.Prelude.{◌≡◌, ◌+◌, ◌≤◌, ◌++◌, true, decimal, length};
ghost use Rattle.gdb.specs.Targets.{altered_if};
ghost use Rattle.platform.specs.Text.{line_feed};
ghost use Rattle.debugger.specs.Answers.{next_text};
ghost use Rattle.gdb_server.specs.Commands.{command_of, command_text, console_text, decided_text, flush_advice};
ghost use Rattle.gdb_server.specs.Commands.{history_text, mark_lines, placed_by, placed_text, settings_with};
ghost use Rattle.gdb_server.specs.Conduct.{past_after, past_by};
ghost use Rattle.gdb_server.specs.Writes.{Writes, after_place};
ghost use Rattle.gdb_past.specs.Places.{AreOfOneMachine};
ghost use Rattle.output.specs.Output.{Put};
ghost use Rattle.platform.specs.Priorities.{is_below_zero};
ghost use Rattle.platform.specs.Rules.{decision_of};

use crate::content::Data;
use crate::writes::put;
use debugger::{next_text, refusal_text, regions_text, state_page};
use debugger_commands::{LineError, Reply, decision_text, error_text, ok_text};
use gdb::Console;
use gdb_past::Past;
use gdb_texts::{
    ErrorCode, Monitor, Settings, explanation, monitor_help, read_monitor, settings_after, why_text,
};
use machine::{
    Decider, Decision, Exceptions, IoError, KeptCode, Machine, Out, Place, PlaceError, SysTickState,
};
use trace::page::Page;

/// Returns the command that some digits have.
pub fn read_command(digits: &[u8]) -> Result<Monitor, LineError>
    ensures { result ≡ command_of digits.now }
{
    let text = Data::of_digits(digits);
    read_monitor(text.as_slice())
}

/// Returns the settings after a command.
pub fn settings_with(settings: Settings, asked: Result<Monitor, LineError>) -> Settings
    ensures { result ≡ settings_with settings asked }
{
    match asked {
        Ok(command) => settings_after(settings, command),
        Err(_) => settings,
    }
}

/// Puts a value into its place, and marks the machine's state after it. Returns why it was refused, if it was.
fn put_and_mark<D: Decider, C: KeptCode, L: Exceptions, U: SysTickState>(
    machine: &mut Machine<D, C, L, U>,
    past: &mut Past<L, U>,
    place: Option<Place>,
) -> Option<PlaceError>
    requires { AreOfOneMachine machine.old.state past.old.start }
    ensures writes { Writes (after_place machine.old.state (altered_if machine.old.state place)) machine.old
        machine.new result }
    ensures past { past.new ≡ past_after past.old true
        (after_place machine.old.state (altered_if machine.old.state place)).state
        (after_place machine.old.state (altered_if machine.old.state place)).refused }
{
    match put(machine, place) {
        Some(error) => Some(error),
        None => {
            past.mark(machine);
            None
        }
    }
}

/// Puts the value of a command into its place, where the command has one, or takes the machine back to its first state.
/// Returns why the value was refused, if it was.
pub fn place_by<D: Decider, C: KeptCode, L: Exceptions, U: SysTickState>(
    machine: &mut Machine<D, C, L, U>,
    past: &mut Past<L, U>,
    asked: Result<Monitor, LineError>,
) -> Option<PlaceError>
    requires { AreOfOneMachine machine.old.state past.old.start }
    ensures writes { Writes (placed_by past.old.start machine.old.state asked) machine.old machine.new result }
    ensures past { past.new ≡ past_by past.old (placed_by past.old.start machine.old.state asked) asked }
{
    match asked {
        Ok(Monitor::Restart) => {
            past.restart(machine);
            None
        }
        Ok(Monitor::Place(place)) => put_and_mark(machine, past, place),
        Ok(
            Monitor::Help
            | Monitor::Explain(_, _, _)
            | Monitor::Regions
            | Monitor::State
            | Monitor::Next
            | Monitor::History
            | Monitor::Trace(_)
            | Monitor::Lines(_)
            | Monitor::Stop(_, _)
            | Monitor::Step(_)
            | Monitor::Budget(_)
            | Monitor::Why,
        )
        | Err(_) => None,
    }
}

/// Returns the text of `explain`: the line of the rule, and what the rule means.
#[inline(never)]
fn decided_text(decision: &Decision) -> Page<2048>
    ensures { result ≡ decided_text decision.now }
{
    let mut page: Page<2048> = Page::new();
    page.put_slice(decision_text(decision).as_slice());
    page.put_slice(explanation(decision).as_slice());
    page
}

/// Returns the text that says how GDB reads the registers again.
fn flush_advice() -> Reply
    ensures { result ≡ flush_advice }
{
    let mut page = Reply::new();
    page.put(b"ok (gdb: maintenance flush register-cache)\n");
    page
}

/// Returns the text of `place`, whose value was refused or not.
fn placed_text(refused: Option<PlaceError>) -> Reply
    ensures { result ≡ placed_text refused }
{
    match refused {
        Some(error) => refusal_text(error),
        None => flush_advice(),
    }
}

/// Puts the line of a tick.
fn put_tick(page: &mut Page<256>, tick: u64)
    requires { length page.old ≤ 235 }
    ensures text { page.new ≡ page.old ++ (decimal tick ++ line_feed) }
    ensures short { length page.new ≤ length page.old + 21 }
{
    page.put_decimal(tick);
    page.put(b"\n");
}

/// Returns the ticks of the marks, a line each.
fn mark_lines<L: Exceptions, U: SysTickState>(past: &Past<L, U>) -> Page<256>
    ensures text { result ≡ mark_lines past.now.marks }
    ensures short { length result ≤ 168 }
{
    let mut page: Page<256> = Page::new();
    let mut left = past.count();
    'marks: while left > 0 {
        left -= 1;
        put_tick(&mut page, past.tick(left));
    }
    page
}

/// Returns the ticks of the marks, a line each, and the tick now.
fn history_text<D: Decider, C: KeptCode, L: Exceptions, U: SysTickState>(
    past: &Past<L, U>,
    machine: &Machine<D, C, L, U>,
) -> Page<256>
    ensures { result ≡ history_text past.now machine.now.state }
{
    let mut page = mark_lines(past);
    page.put(b"now ");
    put_tick(&mut page, machine.ticks());
    page
}

/// Writes text for GDB's console, in packets.
fn report<W: Out>(text: &[u8], out: &mut W) -> Result<(), IoError>
    ensures { Put (W.writing out.old) (W.writing out.new) (console_text text.now) result }
{
    let mut console = Console::new(None);
    match console.put(text, out) {
        Ok(()) => {}
        Err(error) => return Err(error),
    }
    console.flush(out)
}

/// Writes the text of a command, in packets. `why` is the last refusal of a packet, and `refused` that of the
/// command's value.
#[inline(never)]
pub fn report_command<D: Decider, C: KeptCode, L: Exceptions, U: SysTickState, W: Out>(
    machine: &Machine<D, C, L, U>,
    past: &Past<L, U>,
    why: Option<ErrorCode>,
    refused: Option<PlaceError>,
    asked: Result<Monitor, LineError>,
    out: &mut W,
) -> Result<(), IoError>
    ensures { Put (W.writing out.old) (W.writing out.new)
        (console_text (command_text past.now machine.now.state why refused asked)) result }
{
    match asked {
        Ok(Monitor::Help) => report(monitor_help(), out),
        Ok(Monitor::Explain(address, privileged, kind)) => report(
            decided_text(&machine.explain(address, privileged, kind)).as_slice(),
            out,
        ),
        Ok(Monitor::Regions) => report(regions_text(machine).as_slice(), out),
        Ok(Monitor::State) => report(state_page(machine).as_slice(), out),
        Ok(Monitor::Next) => report(next_text(machine).as_slice(), out),
        Ok(Monitor::Place(_)) => report(placed_text(refused).as_slice(), out),
        Ok(Monitor::Why) => report(why_text(why), out),
        Ok(
            Monitor::Trace(_)
            | Monitor::Lines(_)
            | Monitor::Stop(_, _)
            | Monitor::Step(_)
            | Monitor::Budget(_),
        ) => report(ok_text().as_slice(), out),
        Ok(Monitor::Restart) => report(flush_advice().as_slice(), out),
        Ok(Monitor::History) => report(history_text(past, machine).as_slice(), out),
        Err(error) => report(error_text(error).as_slice(), out),
    }
}
