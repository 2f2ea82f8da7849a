//! What a packet asks of a server at rest.

ghost use Rattle.std.specs.Prelude.{◌≡◌};
ghost use Rattle.gdb_server.specs.Purposes.{insertion_of, purpose_of, removal_of, resumption, watchpoint};

use gdb::Way;
use gdb_packets::{PointKind, Request};
use gdb_texts::{
    Breakpoint, BreakpointKind, ErrorCode, Resume, WatchKind, Watchpoint, read_actions,
};

/// A reply that is the same whenever it is asked for.
#[derive(Clone, Copy)]
pub enum Constant {
    /// Nothing: the packet isn't known.
    Empty,
    /// `OK`.
    Done,
    /// The actions of `vCont`.
    ResumeActions,
    /// The target ran before GDB came.
    Attached,
    /// The number of the thread.
    CurrentThread,
    /// All threads.
    FirstThreads,
    /// No more threads.
    MoreThreads,
}

/// What a packet reads of the machine, or of its board.
#[derive(Clone, Copy)]
pub enum Reading {
    /// The last signal, and all registers.
    StopReason,
    /// All registers.
    Registers,
    /// The register of a number.
    Register(u32),
    /// The bytes from an address on: the address, and the most bytes.
    Memory(u32, u32),
    /// The description of the registers, by an offset and a length.
    Description(u32, u32),
    /// The map of the memory, by an offset and a length.
    MemoryMap(u32, u32),
    /// The region of an address.
    Region(u32),
    /// What the thread is at.
    Thread,
}

/// What a packet writes to the machine, by what follows its fields.
#[derive(Clone, Copy)]
pub enum MachineChange {
    /// The register of a number.
    Register(u32),
    /// All registers.
    Registers,
    /// The bytes from an address on, as digits.
    Digits(u32),
    /// The bytes from an address on, as they are.
    Bytes(u32),
}

/// What a packet changes of the session.
#[derive(Clone, Copy)]
pub enum SessionChange {
    /// GDB's features are read, and the server's are written.
    Features,
    /// No packet is acknowledged any more.
    NoAcknowledgement,
    /// A breakpoint is set.
    Insert(Breakpoint),
    /// A breakpoint is removed.
    Remove(Breakpoint),
    /// A watchpoint is set.
    Watch(Watchpoint),
    /// A watchpoint is removed.
    Unwatch(Watchpoint),
    /// The session goes on after the program was killed, or the client left.
    Extended,
    /// The client leaves.
    End,
}

/// What a packet asks for.
#[derive(Clone, Copy)]
pub enum Purpose {
    /// Nothing: it is skipped.
    Nothing,
    /// A reply that is always the same.
    Say(Constant),
    /// A refusal.
    Refuse(ErrorCode),
    /// A part of the machine or of its board.
    Read(Reading),
    /// A change of the machine.
    Write(MachineChange),
    /// A change of the session.
    Set(SessionChange),
    /// The end of the program, without a reply.
    Kill,
    /// A run.
    Resume(Resume),
    /// A run backwards.
    Back(Way),
    /// The first state again, with the reply to `?`.
    Run,
    /// The first state again, without a reply.
    Restart,
    /// A command of `monitor`.
    Command,
}

fn breakpoint(kind: BreakpointKind, address: u32) -> Breakpoint
    ensures { result ≡ record { kind = kind; address = address } }
{
    Breakpoint { kind, address }
}

fn watchpoint(kind: WatchKind, address: u32, length: u32) -> Watchpoint
    ensures { result ≡ watchpoint kind address length }
{
    Watchpoint {
        kind,
        address,
        length,
    }
}

/// Returns what a packet that sets a breakpoint or watchpoint changes.
fn insertion_of(kind: PointKind, address: u32, length: u32) -> SessionChange
    ensures { result ≡ insertion_of kind address length }
{
    match kind {
        PointKind::SoftwareBreakpoint => {
            SessionChange::Insert(breakpoint(BreakpointKind::Software, address))
        }
        PointKind::HardwareBreakpoint => {
            SessionChange::Insert(breakpoint(BreakpointKind::Hardware, address))
        }
        PointKind::WriteWatchpoint => {
            SessionChange::Watch(watchpoint(WatchKind::Write, address, length))
        }
        PointKind::ReadWatchpoint => {
            SessionChange::Watch(watchpoint(WatchKind::Read, address, length))
        }
        PointKind::AccessWatchpoint => {
            SessionChange::Watch(watchpoint(WatchKind::Access, address, length))
        }
    }
}

/// Returns what a packet that removes a breakpoint or watchpoint changes.
fn removal_of(kind: PointKind, address: u32, length: u32) -> SessionChange
    ensures { result ≡ removal_of kind address length }
{
    match kind {
        PointKind::SoftwareBreakpoint => {
            SessionChange::Remove(breakpoint(BreakpointKind::Software, address))
        }
        PointKind::HardwareBreakpoint => {
            SessionChange::Remove(breakpoint(BreakpointKind::Hardware, address))
        }
        PointKind::WriteWatchpoint => {
            SessionChange::Unwatch(watchpoint(WatchKind::Write, address, length))
        }
        PointKind::ReadWatchpoint => {
            SessionChange::Unwatch(watchpoint(WatchKind::Read, address, length))
        }
        PointKind::AccessWatchpoint => {
            SessionChange::Unwatch(watchpoint(WatchKind::Access, address, length))
        }
    }
}

/// Returns what `vCont` with its actions asks for.
fn resumption(how: Option<Resume>) -> Purpose
    ensures { result ≡ resumption how }
{
    match how {
        Some(how) => Purpose::Resume(how),
        None => Purpose::Refuse(ErrorCode::Malformed),
    }
}

/// Returns what a packet asks for, by its name and fields and what follows them.
#[tactic(auto, unfolding(crate::specs::Purposes::purpose_of))]
pub fn purpose_of(request: Request, tail: &[u8]) -> Purpose
    ensures { result ≡ purpose_of request tail.now }
{
    match request {
        Request::Unknown => Purpose::Say(Constant::Empty),
        Request::ReverseStep => Purpose::Back(Way::Step),
        Request::ReverseContinue => Purpose::Back(Way::Continue),
        Request::SelectThread | Request::ThreadAlive => Purpose::Say(Constant::Done),
        Request::ResumeActions => Purpose::Say(Constant::ResumeActions),
        Request::Attached => Purpose::Say(Constant::Attached),
        Request::CurrentThread => Purpose::Say(Constant::CurrentThread),
        Request::FirstThreads => Purpose::Say(Constant::FirstThreads),
        Request::MoreThreads => Purpose::Say(Constant::MoreThreads),
        Request::Malformed => Purpose::Refuse(ErrorCode::Malformed),
        Request::NoAnnex => Purpose::Refuse(ErrorCode::NoAnnex),
        Request::StopReason => Purpose::Read(Reading::StopReason),
        Request::ReadRegisters => Purpose::Read(Reading::Registers),
        Request::ReadRegister(number) => Purpose::Read(Reading::Register(number)),
        Request::ReadMemory(address, count) => Purpose::Read(Reading::Memory(address, count)),
        Request::ReadDescription(at, count) => Purpose::Read(Reading::Description(at, count)),
        Request::ReadMemoryMap(at, count) => Purpose::Read(Reading::MemoryMap(at, count)),
        Request::MemoryRegion(address) => Purpose::Read(Reading::Region(address)),
        Request::ThreadDescription => Purpose::Read(Reading::Thread),
        Request::WriteRegister(number) => Purpose::Write(MachineChange::Register(number)),
        Request::WriteRegisters => Purpose::Write(MachineChange::Registers),
        Request::WriteMemory(address, _) => Purpose::Write(MachineChange::Digits(address)),
        Request::WriteBinary(address, _) => Purpose::Write(MachineChange::Bytes(address)),
        Request::Supported => Purpose::Set(SessionChange::Features),
        Request::StartNoAckMode => Purpose::Set(SessionChange::NoAcknowledgement),
        Request::Insert(kind, address, length) => {
            Purpose::Set(insertion_of(kind, address, length))
        }
        Request::Remove(kind, address, length) => Purpose::Set(removal_of(kind, address, length)),
        Request::ExtendedMode => Purpose::Set(SessionChange::Extended),
        Request::Run => Purpose::Run,
        Request::Restart => Purpose::Restart,
        Request::Detach | Request::KillProcess => Purpose::Set(SessionChange::End),
        Request::Kill => Purpose::Kill,
        Request::Continue => Purpose::Resume(Resume::Continue),
        Request::Step => Purpose::Resume(Resume::Step),
        Request::Resume => resumption(read_actions(tail)),
        Request::Monitor => Purpose::Command,
        Request::FileReply => Purpose::Nothing,
    }
}
