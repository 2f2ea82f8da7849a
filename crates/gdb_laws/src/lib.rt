//! What holds of sessions of `marm gdb`, by their definitions: each law is the contract of a function that does
//! nothing.
#![tactic(auto)]

ghost use Rattle.std.specs.Prelude.{ℕ, List, Result};
ghost use Rattle.devices.specs.declared.device.Device.{Device};
ghost use Rattle.gdb.specs.declared.slices.Points.{Points};
ghost use Rattle.gdb.specs.declared.turns.Run.{Run};
ghost use Rattle.gdb_laws.specs.BackLaw.{StepAgainLaw, StepBackLaw};
ghost use Rattle.gdb_laws.specs.ReadLaw.{ByteLaw, BytesLaw, SessionLaw};
ghost use Rattle.gdb_laws.specs.RunLaw.{TraceLaw, TurnLaw};
ghost use Rattle.gdb_server.specs.Conduct.{Server};
ghost use Rattle.gdb_server.specs.Sessions.{Session};
ghost use Rattle.gdb_texts.specs.declared.features.Features.{Features};
ghost use Rattle.gdb_texts.specs.declared.settings.Settings.{Settings};
ghost use Rattle.machine.specs.MachineModel.{MachineModel};
ghost use Rattle.output.specs.Input.{Reading};
ghost use Rattle.output.specs.Output.{Writing};
ghost use Rattle.platform.specs.Boards.{Numbers};
ghost use Rattle.reference.specs.State.{State};
ghost use Rattle.serving.specs.declared.sessions.SessionError.{SessionError};

use step_laws::a_step_takes_a_tick;

/// A session that only reads leaves the machine: all that it writes is written in the state that the machine had, and
/// the session's past stays.
///
/// - `byte`: at rest, one byte that doesn't end a packet that writes, runs, runs backwards or starts anew.
/// - `bytes`: so do many bytes.
/// - `session`: after a whole session that read such bytes, however it ended, the machine is as it was.
pub fn reading_leaves_the_machine()
    ensures byte { (server : Server) (s : State) (byte : ℕ) → ByteLaw server s byte }
    ensures bytes { (server : Server) (s : State) (bytes : List ℕ) → BytesLaw server s bytes }
    ensures session { (limit : ℕ) (board : Numbers) (devices : List Device) (old new : MachineModel)
        (before after : Reading) (out out' : Writing) (result : Result (Unit {0}) SessionError)
        → SessionLaw limit board devices old new before after out out' result }
{}

/// Each turn of a run makes steps of the machine, and gives GDB's console the text of these steps, as a run of
/// `marm run` with the same selection writes it, and the lines that say why the run ended, if it did: of the last step,
/// or, at a watchpoint, of the next one. The text is cut into packets. One packet follows: the stop reply, or the
/// question to GDB.
pub fn a_turn_writes_its_steps()
    ensures { (points : Points) (k : Settings) (features : Features) (limit : ℕ) (run : Run) (s : State)
        → TurnLaw points k features limit run s }
{}

/// With `monitor trace all`, and no breakpoint, no watchpoint and no `monitor stop ..`, a turn of `c` makes steps up to
/// the first stop of the machine or the limit, and gives GDB's console what a run of `machine` writes of as many steps:
/// the whole trace to the line of the stop. Where the run was interrupted, its budget is made or GDB is asked, it may
/// make fewer, and gives the trace without that line.
pub fn continue_writes_the_trace()
    ensures { (points : Points) (k : Settings) (features : Features) (limit : ℕ) (run : Run) (s : State)
        → TraceLaw points k features limit run s }
{}

/// A step is undone by a step back, from a state that is the last mark, or the end of a unit after it, where steps
/// enter handlers.
///
/// - `back`: where the step was made, and the step back asks GDB no question, the machine is in its state again. The
///   session is then like that before the step: its points, settings and past are the same.
/// - `again`: a step that makes a unit, and isn't stopped by anything else, leads to such a state again, in such a
///   session. So several steps are undone by as many steps back.
pub fn a_step_back_undoes_a_step()
    ensures back { (k j : Session) (s : State) (tail more : List ℕ) → StepBackLaw k j s tail more }
    ensures again { (k : Session) (s : State) (tail : List ℕ) → StepAgainLaw k s tail }
{
    a_step_takes_a_tick();
}
