//! A turn of a run: its steps up to a question to GDB, or up to its end.

ghost use Rattle.std.specs.Prelude.{◌≡◌, ◌+◌, ◌*◌, ◌^◌, ◌<◌, ◌≤◌, length, IfOk};
ghost use Rattle.gdb.specs.Slices.{flow, slice};
ghost use Rattle.gdb.specs.Turns.{MakesTurn, all_slices, asked, ended, last_slice, steps_left, stop_packet, turn};
ghost use Rattle.gdb_packets.specs.Replies.{packet_of};
ghost use Rattle.gdb_past.specs.Places.{AreOfOneMachine};
ghost use Rattle.gdb_past.specs.Ways.{IsAfterMark};
ghost use Rattle.output.specs.Output.{Put};
ghost use Rattle.reference.specs.State.{State};
ghost use Rattle.serving.specs.Pieces.{Delivers};

use crate::over::ReturnPoint;
use crate::registers::register_values;
use crate::slices::{Plan, Points, Progress, run_slice};
use crate::whys::stop_with_line;
use arrayvec::ArrayVec;
use gdb_packets::put_packet;
use gdb_past::{Past, Position};
use gdb_texts::{
    Features, Resume, Settings, Signal, StopReason, Watchpoints, max_steps, put_stop_reply,
    signal_of,
};
use machine::{Decider, Exceptions, KeptCode, Machine, SysTickState};
use output::{IoError, Out};

/// The most steps before GDB is asked, and before the text of another client is sent.
pub const MAX_SLICE_STEPS: u64 = 1_000_000;

/// The question whether GDB's console is a terminal: GDB answers it at once, and says whether its user has interrupted.
pub const POLL_PACKET: &[u8] = b"Fisatty,0";

/// The last packet that was sent: what `-` asks for again.
pub type SentPacket = ArrayVec<u8, 8200>;

/// A run between two of its turns: how far it goes, how many steps it has made, the last byte of its text, the code
/// that its unit returns to, if it is over a handler, and whether GDB has interrupted it.
#[derive(Clone, Copy)]
pub struct Run {
    pub how: Resume,
    pub made: u64,
    pub last: Option<u8>,
    pub returns_to: Option<ReturnPoint>,
    pub is_interrupted: bool,
}

/// What a run reads of its session.
#[derive(Clone, Copy)]
pub struct RunContext<'a> {
    pub points: &'a Points,
    pub settings: Settings,
    pub features: Features,
    /// The tick at which the clock ends a run.
    pub limit: u64,
}

/// How a turn of a run ends.
#[derive(Clone, Copy)]
pub enum Turn {
    /// GDB is asked, and the run goes on after its reply.
    Asks(Run),
    /// The run has ended, and GDB was told this signal.
    Ends(Signal),
}

/// Sends a packet, and remembers it.
pub fn send_packet<W: Out>(
    content: &[u8],
    sent: &mut SentPacket,
    out: &mut W,
) -> Result<(), IoError>
    requires { 2 * length content.now + 4 ≤ 8200 }
    ensures put { Put (W.writing out.old) (W.writing out.new) (packet_of content.now) result }
    ensures sent { sent.new.items ≡ packet_of content.now }
{
    sent.clear();
    put_packet(sent, content);
    out.put_all(sent.as_slice())
}

/// Sends the stop reply of a reason.
fn send_stop_reply<D: Decider, C: KeptCode, L: Exceptions, U: SysTickState, W: Out>(
    reason: StopReason,
    features: Features,
    sent: &mut SentPacket,
    machine: &Machine<D, C, L, U>,
    out: &mut W,
) -> Result<(), IoError>
    ensures put { Put (W.writing out.old) (W.writing out.new) (stop_packet features reason machine.now.state) result }
    ensures sent { sent.new.items ≡ stop_packet features reason machine.now.state }
{
    let mut content: ArrayVec<u8, 304> = ArrayVec::new();
    put_stop_reply(&mut content, reason, features, &register_values(machine));
    send_packet(content.as_slice(), sent, out)
}

/// Ends a run: puts the lines that say why, and sends all text, and then the stop reply.
pub fn end_run<D: Decider, C: KeptCode, L: Exceptions, U: SysTickState, W: Out>(
    reason: StopReason,
    plan: &Plan,
    watchpoints: &Watchpoints,
    features: Features,
    progress: &mut Progress,
    sent: &mut SentPacket,
    machine: &Machine<D, C, L, U>,
    out: &mut W,
) -> Result<Turn, IoError>
    ensures { MakesTurn (ended plan.now.settings watchpoints.now features reason progress.old.events
        (flow progress.old machine.now.state)) machine.now machine.now (W.writing out.old) (W.writing out.new)
        sent.new.items result }
{
    match progress.put_whys(
        &plan.settings,
        watchpoints,
        stop_with_line(reason, machine.stop()),
        out,
    ) {
        Ok(()) => {}
        Err(error) => return Err(error),
    }
    match progress.flush(out) {
        Ok(()) => {}
        Err(error) => return Err(error),
    }
    match send_stop_reply(reason, features, sent, machine, out) {
        Ok(()) => Ok(Turn::Ends(signal_of(reason))),
        Err(error) => Err(error),
    }
}

/// Returns the turn whose run goes on after a question.
fn asked(how: Resume, progress: &Progress) -> Turn
    ensures { (s : State) → result ≡ (asked how (flow progress.now s)).outcome }
{
    Turn::Asks(Run {
        how,
        made: progress.made(),
        last: progress.last(),
        returns_to: progress.returns_to(),
        is_interrupted: false,
    })
}

/// Returns how many steps are left of a budget.
fn steps_left(budget: Option<u32>, made: u64) -> u64
    ensures { result ≡ steps_left budget made }
{
    match budget {
        Some(most) => u64::from(most).saturating_sub(made),
        None => u64::MAX - made,
    }
}

/// Makes the last slice of a turn, of `steps` steps, and ends the run.
fn last_slice<D: Decider, C: KeptCode, L: Exceptions, U: SysTickState, W: Out>(
    plan: &Plan,
    context: &RunContext,
    steps: u64,
    past: &mut Past<L, U>,
    position: &mut Position<L, U>,
    progress: &mut Progress,
    sent: &mut SentPacket,
    machine: &mut Machine<D, C, L, U>,
    out: &mut W,
) -> Result<Turn, IoError>
    requires room { progress.old.made + steps < 2 ^ 64 }
    requires fits { AreOfOneMachine position.old machine.old.state }
    requires ahead { IsAfterMark past.old machine.old.state }
    ensures takes { MakesTurn (last_slice plan.now context.now.points.now.watchpoints context.now.features
        (slice plan.now context.now.points.now steps (flow progress.old machine.old.state)))
        machine.old machine.new (W.writing out.old) (W.writing out.new) sent.new.items result }
    ensures fits { AreOfOneMachine position.new machine.new.state }
    ensures same { AreOfOneMachine machine.old.state machine.new.state }
    ensures past { past.new ≡ past.old }
    ensures ahead { IsAfterMark past.new machine.new.state }
{
    match run_slice(
        plan,
        context.points,
        steps,
        past,
        position,
        progress,
        machine,
        out,
    ) {
        Ok(reason) => {
            let reason = reason.unwrap_or(StopReason::Interrupted);
            let watchpoints = &context.points.watchpoints;
            end_run(
                reason,
                plan,
                watchpoints,
                context.features,
                progress,
                sent,
                machine,
                out,
            )
        }
        Err(error) => Err(error),
    }
}

/// Makes the slices of `left` steps, up to the end of the run or a question.
fn make_slices<D: Decider, C: KeptCode, L: Exceptions, U: SysTickState, W: Out>(
    plan: &Plan,
    context: &RunContext,
    left: u64,
    past: &mut Past<L, U>,
    position: &mut Position<L, U>,
    progress: &mut Progress,
    sent: &mut SentPacket,
    machine: &mut Machine<D, C, L, U>,
    out: &mut W,
) -> Result<Turn, IoError>
    requires room { progress.old.made + left < 2 ^ 64 }
    requires fits { AreOfOneMachine position.old machine.old.state }
    requires ahead { IsAfterMark past.old machine.old.state }
    ensures takes { MakesTurn (all_slices plan.now context.now.points.now context.now.features left
        (flow progress.old machine.old.state))
        machine.old machine.new (W.writing out.old) (W.writing out.new) sent.new.items result }
    ensures fits { AreOfOneMachine position.new machine.new.state }
    ensures same { AreOfOneMachine machine.old.state machine.new.state }
    ensures past { past.new ≡ past.old }
    ensures ahead { IsAfterMark past.new machine.new.state }
{
    let watchpoints = &context.points.watchpoints;
    let mut whole = left / MAX_SLICE_STEPS;
    'slices: while whole > 0 {
        match run_slice(
            plan,
            context.points,
            MAX_SLICE_STEPS,
            past,
            position,
            progress,
            machine,
            out,
        ) {
            Ok(None) => {}
            Ok(Some(reason)) => {
                return end_run(
                    reason,
                    plan,
                    watchpoints,
                    context.features,
                    progress,
                    sent,
                    machine,
                    out,
                );
            }
            Err(error) => return Err(error),
        }
        match progress.flush(out) {
            Ok(()) => {}
            Err(error) => return Err(error),
        }
        if context.features.is_gdb {
            return match send_packet(POLL_PACKET, sent, out) {
                Ok(()) => Ok(asked(plan.how, progress)),
                Err(error) => Err(error),
            };
        }
        whole -= 1;
    }
    let rest = left % MAX_SLICE_STEPS;
    last_slice(
        plan, context, rest, past, position, progress, sent, machine, out,
    )
}

/// Makes a run's next steps: at most 1,000,000 before GDB is asked whether its user has interrupted; a client that
/// isn't GDB isn't asked. Writes its text as it comes, and at the end the lines that say why, and the stop reply.
/// `past` keeps checkpoints on the way, and `position` is room for a state to go back to.
pub fn run_turn<D: Decider, C: KeptCode, L: Exceptions, U: SysTickState, W: Out>(
    run: Run,
    context: &RunContext,
    past: &mut Past<L, U>,
    position: &mut Position<L, U>,
    sent: &mut SentPacket,
    machine: &mut Machine<D, C, L, U>,
    out: &mut W,
) -> Result<Turn, IoError>
    requires fits { AreOfOneMachine position.old machine.old.state }
    requires ahead { IsAfterMark past.old machine.old.state }
    ensures fits { AreOfOneMachine position.new machine.new.state }
    ensures same { AreOfOneMachine machine.old.state machine.new.state }
    ensures past { past.new ≡ past.old }
    ensures ahead { IsAfterMark past.new machine.new.state }
    ensures delivers { Delivers
        (turn context.now.points.now context.now.settings context.now.features context.now.limit run
        machine.old.state).pieces machine.old machine.new (W.writing out.old) (W.writing out.new) result }
    ensures outcome { IfOk result (λ ends. ends ≡ (turn context.now.points.now context.now.settings context.now.features
        context.now.limit run machine.old.state).outcome) }
    ensures sent { IfOk result (λ ends. sent.new.items ≡ (turn context.now.points.now context.now.settings
        context.now.features context.now.limit run machine.old.state).sent) }
{
    let plan = Plan {
        how: run.how,
        limit: context.limit,
        settings: context.settings,
    };
    let mut progress = Progress::new(run.made, run.last, run.returns_to);
    if run.is_interrupted {
        let reason = StopReason::Interrupted;
        return end_run(
            reason,
            &plan,
            &context.points.watchpoints,
            context.features,
            &mut progress,
            sent,
            machine,
            out,
        );
    }
    let left = steps_left(
        max_steps(context.settings, context.features.is_gdb),
        run.made,
    );
    make_slices(
        &plan,
        context,
        left,
        past,
        position,
        &mut progress,
        sent,
        machine,
        out,
    )
}
