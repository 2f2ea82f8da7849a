//! Stop replies.

ghost use Rattle.std.specs.Prelude.{◌≡◌, ◌+◌, ◌<◌, ◌≤◌, ◌++◌, codes, length};
ghost use Rattle.arrayvec.specs.ArrayVec.{array_vec_len};
ghost use Rattle.gdb_texts.specs.Stops.{breakpoint_text, number_digits, numbered_from, numbered_register, reason_text};
ghost use Rattle.gdb_texts.specs.Stops.{refused_signal, reply_with, signal_digits, signal_of, signal_reply, stop_reply};
ghost use Rattle.gdb_texts.specs.Stops.{stop_signal, watch_text, watchpoint_text};

use crate::bytes::{put_byte, put_text};
use crate::features::Features;
use crate::points::{BreakpointKind, WatchKind};
use crate::registers::{REGISTERS, put_word};
use arrayvec::ArrayVec;
use platform::access::Cause;
use platform::stop::Stop;

/// A signal, as GDB shows it.
#[derive(Clone, Copy)]
pub enum Signal {
    /// 02, SIGINT.
    Interrupt,
    /// 04, SIGILL.
    Illegal,
    /// 05, SIGTRAP.
    Trap,
    /// 06, SIGABRT.
    Abort,
    /// 0a, SIGBUS.
    BusError,
    /// 0b, SIGSEGV.
    Segmentation,
    /// 0c, SIGSYS.
    BadSystemCall,
    /// 0f, SIGTERM.
    Termination,
    /// 18, SIGXCPU.
    CpuLimit,
    /// 1e, SIGUSR1.
    User,
}

/// Why a run ended.
#[derive(Clone, Copy)]
pub enum StopReason {
    /// The step or the range of addresses is done.
    Done,
    /// A breakpoint of this kind stands at the next instruction.
    Breakpoint(BreakpointKind),
    /// The next step has an access to a byte, at this address, that a watchpoint of this kind is for.
    Watchpoint(WatchKind, u32),
    /// Going back came to the first state that is kept.
    PastBegins,
    /// The machine stopped in this run, or its clock has reached the limit (`StepLimit`).
    Stopped(Stop),
    /// The machine had stopped before this run.
    StoppedBefore,
    /// An access was refused.
    Refused(Cause),
    /// A fault was taken without a refused access.
    Fault,
    /// An exception was entered.
    Entered,
    /// The client interrupted the run, or its budget of steps was made.
    Interrupted,
}

/// Returns the two digits of a signal.
fn signal_digits(signal: Signal) -> &'static [u8]
    ensures text { result.now ≡ signal_digits signal }
    ensures len { length result.now ≡ 2 }
{
    match signal {
        Signal::Interrupt => b"02",
        Signal::Illegal => b"04",
        Signal::Trap => b"05",
        Signal::Abort => b"06",
        Signal::BusError => b"0a",
        Signal::Segmentation => b"0b",
        Signal::BadSystemCall => b"0c",
        Signal::Termination => b"0f",
        Signal::CpuLimit => b"18",
        Signal::User => b"1e",
    }
}

/// Returns the signal of a machine that stopped, or whose clock has reached the limit.
fn stop_signal(stop: Stop) -> Signal
    ensures { result ≡ stop_signal stop }
{
    match stop {
        Stop::StepLimit => Signal::CpuLimit,
        Stop::Breakpoint(_) => Signal::Trap,
        Stop::Lockup => Signal::Abort,
        Stop::Unpredictable(_) => Signal::Illegal,
        Stop::OutOfProfile(_) => Signal::BadSystemCall,
        Stop::ResetRequested => Signal::Termination,
    }
}

/// Returns the signal of a refused access.
fn refused_signal(cause: Cause) -> Signal
    ensures { result ≡ refused_signal cause }
{
    match cause {
        Cause::Mpu => Signal::Segmentation,
        Cause::Bus => Signal::BusError,
    }
}

/// Returns the signal of a reason.
pub fn signal_of(reason: StopReason) -> Signal
    ensures { result ≡ signal_of reason }
{
    match reason {
        StopReason::Done
        | StopReason::Breakpoint(_)
        | StopReason::Watchpoint(_, _)
        | StopReason::PastBegins
        | StopReason::StoppedBefore => Signal::Trap,
        StopReason::Stopped(stop) => stop_signal(stop),
        StopReason::Refused(cause) => refused_signal(cause),
        StopReason::Fault => Signal::Illegal,
        StopReason::Entered => Signal::User,
        StopReason::Interrupted => Signal::Interrupt,
    }
}

/// Returns the text of a breakpoint, where the client takes it.
fn breakpoint_text(features: Features, kind: BreakpointKind) -> &'static [u8]
    ensures text { result.now ≡ breakpoint_text features kind }
    ensures short { length result.now ≤ 16 }
{
    match kind {
        BreakpointKind::Software if features.takes_swbreak => b"swbreak:;",
        BreakpointKind::Hardware if features.takes_hwbreak => b"hwbreak:;",
        BreakpointKind::Software | BreakpointKind::Hardware => b"",
    }
}

/// Returns the name of a kind of watchpoint, and the colon after it.
fn watch_text(kind: WatchKind) -> &'static [u8]
    ensures text { result.now ≡ watch_text kind }
    ensures short { length result.now ≤ 7 }
{
    match kind {
        WatchKind::Write => b"watch:",
        WatchKind::Read => b"rwatch:",
        WatchKind::Access => b"awatch:",
    }
}

/// Appends the eight digits of a number, the highest first.
pub fn put_number<const ROOM: usize>(page: &mut ArrayVec<u8, ROOM>, word: u32)
    requires { array_vec_len page.old + 8 ≤ ROOM }
    ensures text { page.new.items ≡ page.old.items ++ number_digits word }
    ensures len { array_vec_len page.new ≡ array_vec_len page.old + 8 }
{
    put_byte(page, (word / 0x100_0000) as u8);
    put_byte(page, (word / 0x1_0000 % 0x100) as u8);
    put_byte(page, (word / 0x100 % 0x100) as u8);
    put_byte(page, (word % 0x100) as u8);
}

/// Appends the kind of a watchpoint, and the address of the byte.
fn put_watchpoint<const ROOM: usize>(page: &mut ArrayVec<u8, ROOM>, kind: WatchKind, address: u32)
    requires { array_vec_len page.old + 16 ≤ ROOM }
    ensures text { page.new.items ≡ page.old.items ++ watchpoint_text kind address }
    ensures len { array_vec_len page.new ≤ array_vec_len page.old + 16 }
{
    put_text(page, watch_text(kind));
    put_number(page, address);
    put_text(page, b";");
}

/// Appends a reason, where it has a text.
fn put_reason<const ROOM: usize>(
    page: &mut ArrayVec<u8, ROOM>,
    reason: StopReason,
    features: Features,
)
    requires { array_vec_len page.old + 16 ≤ ROOM }
    ensures text { page.new.items ≡ page.old.items ++ reason_text features reason }
    ensures len { array_vec_len page.new ≤ array_vec_len page.old + 16 }
{
    match reason {
        StopReason::Breakpoint(kind) => put_text(page, breakpoint_text(features, kind)),
        StopReason::Watchpoint(kind, address) => put_watchpoint(page, kind, address),
        StopReason::PastBegins => put_text(page, b"replaylog:begin;"),
        StopReason::StoppedBefore => put_text(page, b"replaylog:end;"),
        StopReason::Done
        | StopReason::Stopped(_)
        | StopReason::Refused(_)
        | StopReason::Fault
        | StopReason::Entered
        | StopReason::Interrupted => put_text(page, b""),
    }
}

/// Appends a register with its number.
fn put_numbered_register<const ROOM: usize>(page: &mut ArrayVec<u8, ROOM>, number: u8, value: u32)
    requires { array_vec_len page.old + 12 ≤ ROOM }
    ensures text { page.new.items ≡ page.old.items ++ numbered_register number value }
    ensures len { array_vec_len page.new ≡ array_vec_len page.old + 12 }
{
    put_byte(page, number);
    put_text(page, b":");
    put_word(page, value);
    put_text(page, b";");
}

/// Appends all registers, each with its number.
#[tactic(auto, unfolding(crate::specs::Stops::numbered_from))]
fn put_numbered<const ROOM: usize>(page: &mut ArrayVec<u8, ROOM>, values: &[u32; REGISTERS])
    requires { array_vec_len page.old + 276 ≤ ROOM }
    ensures { page.new.items ≡ page.old.items ++ numbered_from 0 values.now }
{
    let mut number: u8 = 0;
    'values: for value in values {
        put_numbered_register(page, number, *value);
        number += 1;
    }
}

/// Appends the signal and the thread of a stop reply.
fn put_head<const ROOM: usize>(page: &mut ArrayVec<u8, ROOM>, signal: Signal)
    requires { array_vec_len page.old + 12 ≤ ROOM }
    ensures text { page.new.items ≡ page.old.items ++ ((codes "T" ++ signal_digits signal) ++ codes "thread:1;") }
    ensures len { array_vec_len page.new ≡ array_vec_len page.old + 12 }
{
    put_text(page, b"T");
    put_text(page, signal_digits(signal));
    put_text(page, b"thread:1;");
}

/// Appends the stop reply of a reason.
#[tactic(auto, unfolding(crate::specs::Stops::stop_reply))]
pub fn put_stop_reply<const ROOM: usize>(
    page: &mut ArrayVec<u8, ROOM>,
    reason: StopReason,
    features: Features,
    registers: &[u32; REGISTERS],
)
    requires { array_vec_len page.old + 304 ≤ ROOM }
    ensures { page.new.items ≡ page.old.items ++ stop_reply reason features registers.now }
{
    put_head(page, signal_of(reason));
    put_reason(page, reason, features);
    put_numbered(page, registers);
}

/// Appends the reply to `?`: the last signal, and no reason.
#[tactic(auto, unfolding(crate::specs::Stops::signal_reply))]
pub fn put_signal_reply<const ROOM: usize>(
    page: &mut ArrayVec<u8, ROOM>,
    signal: Signal,
    registers: &[u32; REGISTERS],
)
    requires { array_vec_len page.old + 288 ≤ ROOM }
    ensures { page.new.items ≡ page.old.items ++ signal_reply signal registers.now }
{
    put_head(page, signal);
    put_numbered(page, registers);
}
