//! What the debugger answers to `run n` and `step`: the steps of a run, and how it ended.

ghost use Rattle.std.specs.Prelude.{◌≡◌, ◌-◌, true, [], ◌∷◌, IfOk};
ghost use Rattle.debugger.specs.Answers.{end_piece, ends_at, hit_before, is_hit, run_on, run_pieces, step_piece};
ghost use Rattle.debugger_commands.specs.Conditions.{first_hit, is_plain, written};
ghost use Rattle.output.specs.Output.{Put};
ghost use Rattle.platform.specs.Events.{lines};
ghost use Rattle.reference.specs.Step.{step};
ghost use Rattle.serving.specs.Pieces.{Delivers};

use debugger_commands::{Hit, Settings};
use output::{IoError, LineRoom, Out};
use platform::event::Event;
use target::{Target, is_instruction};
use trace::sink::Events;

/// Room for the events of a step, and for the text of a line.
#[derive(Drop)]
pub struct StepRoom {
    events: Events,
    line: LineRoom,
}

impl StepRoom {
    /// Returns room without events.
    pub fn new() -> Self {
        StepRoom {
            events: Events::new(),
            line: LineRoom::new(),
        }
    }
}

/// Makes a step and writes its lines. Returns what its events hit, where one ends the run.
pub fn write_step<T: Target, W: Out>(
    machine: &mut T,
    settings: &Settings,
    room: &mut StepRoom,
    out: &mut W,
) -> Result<Option<Hit>, IoError>
    ensures delivers { Delivers (step_piece settings.now (T.model machine.old).state ∷ [])
        (T.model machine.old) (T.model machine.new) (W.writing out.old) (W.writing out.new) result }
    ensures hit { IfOk result (λ hit. hit ≡ first_hit settings.now (step (T.model machine.old).state).events) }
{
    if settings.is_plain() {
        match write_whole_step(machine, settings, &mut room.line, out) {
            Ok(()) => Ok(None),
            Err(error) => Err(error),
        }
    } else {
        write_chosen_step(machine, settings, room, out)
    }
}

/// Makes a step and writes the lines of all its events, where the settings have each of them.
fn write_whole_step<T: Target, W: Out>(
    machine: &mut T,
    settings: &Settings,
    room: &mut LineRoom,
    out: &mut W,
) -> Result<(), IoError>
    requires { is_plain settings.now ≡ true }
    ensures { Delivers (step_piece settings.now (T.model machine.old).state ∷ [])
        (T.model machine.old) (T.model machine.new) (W.writing out.old) (W.writing out.new) result }
{
    let _ = settings;
    machine.write_step(room, out)
}

/// Makes a step and writes the lines that the settings have of its events. Returns what its events hit.
fn write_chosen_step<T: Target, W: Out>(
    machine: &mut T,
    settings: &Settings,
    room: &mut StepRoom,
    out: &mut W,
) -> Result<Option<Hit>, IoError>
    ensures delivers { Delivers (step_piece settings.now (T.model machine.old).state ∷ [])
        (T.model machine.old) (T.model machine.new) (W.writing out.old) (W.writing out.new) result }
    ensures hit { IfOk result (λ hit. hit ≡ first_hit settings.now (step (T.model machine.old).state).events) }
{
    let _ = machine.step(&mut room.events);
    let events = room.events.as_slice();
    match put_lines(settings, events, &mut room.line, out) {
        Ok(()) => Ok(settings.first_hit(events)),
        Err(error) => Err(error),
    }
}

/// Puts the lines that the settings have of some events.
fn put_lines<W: Out>(
    settings: &Settings,
    events: &[Event],
    room: &mut LineRoom,
    out: &mut W,
) -> Result<(), IoError>
    ensures { Put (W.writing out.old) (W.writing out.new) (lines (written settings.now events.now)) result }
{
    'events: for event in events {
        match put_line(settings, event, room, out) {
            Ok(()) => {}
            Err(error) => return Err(error),
        }
    }
    Ok(())
}

/// Puts the line of an event, if the settings have it.
#[tactic(auto, unfolding(platform::specs::Events::lines))]
fn put_line<W: Out>(
    settings: &Settings,
    event: &Event,
    room: &mut LineRoom,
    out: &mut W,
) -> Result<(), IoError>
    ensures { Put (W.writing out.old) (W.writing out.new) (lines (written settings.now (event.now ∷ []))) result }
{
    if settings.has_line(&event.what) {
        return out.put_line(room, event);
    }
    Ok(())
}

/// Returns whether the next step is an instruction at a breakpoint.
fn is_hit<T: Target>(machine: &T, settings: &Settings) -> bool
    ensures { result ≡ is_hit settings.now.breakpoints (T.model machine.now).state }
{
    settings.has_breakpoint(machine.regs().pc) && is_instruction(machine.next_kind())
}

/// Returns what is hit before the next step: by the events of the last one, or a breakpoint.
fn hit_before<T: Target>(machine: &T, settings: &Settings, hit: Option<Hit>) -> Option<Hit>
    ensures { result ≡ hit_before settings.now hit (T.model machine.now).state }
{
    match hit {
        Some(hit) => Some(hit),
        None if is_hit(machine, settings) => Some(Hit::Break),
        None => None,
    }
}

/// Returns whether a run ends after a step: the machine has stopped, or something is hit.
fn ends_at<T: Target>(machine: &T, hit: Option<Hit>) -> bool
    ensures { result ≡ ends_at hit (T.model machine.now).state }
{
    machine.stop().is_some() || hit.is_some()
}

/// Writes what was hit, in a session with scripts, and where the machine is: its stop, or the address of the next
/// instruction.
fn put_end<T: Target, W: Out>(
    machine: &T,
    settings: &Settings,
    hit: Option<Hit>,
    out: &mut W,
) -> Result<(), IoError>
    ensures { Delivers (end_piece settings.now hit (T.model machine.now).state ∷ [])
        (T.model machine.now) (T.model machine.now) (W.writing out.old) (W.writing out.new) result }
{
    let page = settings.run_end_text(hit, machine.stop(), machine.regs().pc);
    out.put_all(page.as_slice())
}

/// Makes at most `steps` steps after the first one of a run, whose events hit `first`, and writes their lines and
/// how the run ended.
fn run_on<T: Target, W: Out>(
    machine: &mut T,
    settings: &Settings,
    steps: u32,
    first: Option<Hit>,
    room: &mut StepRoom,
    out: &mut W,
) -> Result<(), IoError>
    ensures { Delivers (run_on settings.now steps first (T.model machine.old).state)
        (T.model machine.old) (T.model machine.new) (W.writing out.old) (W.writing out.new) result }
{
    let mut left = steps;
    let mut hit = first;
    'steps: while left > 0 {
        let now = hit_before(machine, settings, hit);
        if ends_at(machine, now) {
            return put_end(machine, settings, now, out);
        }
        match write_step(machine, settings, room, out) {
            Ok(later) => hit = later,
            Err(error) => return Err(error),
        }
        left -= 1;
    }
    put_end(machine, settings, hit, out)
}

/// Makes at most `steps` steps, and writes their lines and how the run ended. A machine that has stopped makes
/// none.
pub fn run<T: Target, W: Out>(
    machine: &mut T,
    settings: &Settings,
    steps: u32,
    out: &mut W,
) -> Result<(), IoError>
    ensures { Delivers (run_pieces settings.now steps (T.model machine.old).state)
        (T.model machine.old) (T.model machine.new) (W.writing out.old) (W.writing out.new) result }
{
    if machine.stop().is_some() {
        return put_end(machine, settings, None, out);
    }
    let mut room = StepRoom::new();
    match write_step(machine, settings, &mut room, out) {
        Ok(hit) => run_on(
            machine,
            settings,
            steps.saturating_sub(1),
            hit,
            &mut room,
            out,
        ),
        Err(error) => Err(error),
    }
}
