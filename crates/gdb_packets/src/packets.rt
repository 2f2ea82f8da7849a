//! What a packet asks for.

ghost use Rattle.std.specs.Prelude.{◌≡◌, bytes_eq, drop};
ghost use Rattle.gdb_packets.specs.Packets.{asked, begins_with, by_letter, by_name, by_prefix, comma_numbers};
ghost use Rattle.gdb_packets.specs.Packets.{has_digits, is_thread, kind_of, needs_length, packet_of, point, point_at};
ghost use Rattle.gdb_packets.specs.Packets.{point_packet, read_annex, read_command, read_described, read_map};
ghost use Rattle.gdb_packets.specs.Packets.{read_memory, read_one, read_region, read_signal, read_thread, tailed};
ghost use Rattle.gdb_packets.specs.Packets.{unless_more, with_tail, write_binary, write_memory, write_register};
ghost use Rattle.gdb_packets.specs.Views.{packet_view};

use crate::numbers::{are_digits, number, two_numbers};
use crate::parts::parted;

/// What a breakpoint or watchpoint stops at.
#[derive(Clone, Copy)]
pub enum PointKind {
    /// `0`: a software breakpoint.
    SoftwareBreakpoint,
    /// `1`: a hardware breakpoint.
    HardwareBreakpoint,
    /// `2`: a write watchpoint.
    WriteWatchpoint,
    /// `3`: a read watchpoint.
    ReadWatchpoint,
    /// `4`: an access watchpoint.
    AccessWatchpoint,
}

/// What a packet asks for. An address is in front of a length in bytes.
#[derive(Clone, Copy)]
pub enum Request {
    /// No packet that is known: the reply is empty.
    Unknown,
    /// A packet that hasn't the form of its name.
    Malformed,
    /// `qSupported`, with GDB's features.
    Supported,
    /// `QStartNoAckMode`.
    StartNoAckMode,
    /// `?`: why the target stopped.
    StopReason,
    /// `g`.
    ReadRegisters,
    /// `G`, with 184 hexadecimal digits.
    WriteRegisters,
    /// `p`, with the number of the register.
    ReadRegister(u32),
    /// `P`, with the number of the register, and 8 hexadecimal digits.
    WriteRegister(u32),
    /// `m`, with at least one byte.
    ReadMemory(u32, u32),
    /// `M`, with two hexadecimal digits for each byte.
    WriteMemory(u32, u32),
    /// `X`, with the bytes.
    WriteBinary(u32, u32),
    /// `c`, or `C` with a signal.
    Continue,
    /// `s`, or `S` with a signal.
    Step,
    /// `vCont?`.
    ResumeActions,
    /// `vCont`, with its actions.
    Resume,
    /// `bs`.
    ReverseStep,
    /// `bc`.
    ReverseContinue,
    /// `Z`.
    Insert(PointKind, u32, u32),
    /// `z`.
    Remove(PointKind, u32, u32),
    /// `qXfer:features:read:target.xml`: an offset and a length.
    ReadDescription(u32, u32),
    /// `qXfer:features:read` of another annex.
    NoAnnex,
    /// `qXfer:memory-map:read`: an offset and a length.
    ReadMemoryMap(u32, u32),
    /// `qRcmd`, with the command in hexadecimal digits.
    Monitor,
    /// `qMemoryRegionInfo`, with an address.
    MemoryRegion(u32),
    /// `qAttached`.
    Attached,
    /// `Hg` or `Hc` of thread 1, of any or of all threads.
    SelectThread,
    /// `qC`.
    CurrentThread,
    /// `qfThreadInfo`.
    FirstThreads,
    /// `qsThreadInfo`.
    MoreThreads,
    /// `qThreadExtraInfo` of thread 1.
    ThreadDescription,
    /// `T` of thread 1.
    ThreadAlive,
    /// `!`.
    ExtendedMode,
    /// `vRun`.
    Run,
    /// `R`.
    Restart,
    /// `D`.
    Detach,
    /// `k`.
    Kill,
    /// `vKill`.
    KillProcess,
    /// `F`: the reply to a request of the File-I/O extension.
    FileReply,
}

/// What a packet asks for, and the bytes after its fields.
#[derive(Clone, Copy)]
pub struct Packet<'a> {
    pub request: Request,
    pub tail: &'a [u8],
}

/// Returns a packet with no tail.
fn asked<'a>(request: Request) -> Packet<'a>
    ensures { packet_view result ≡ asked request }
{
    Packet { request, tail: b"" }
}

/// Returns whether two texts are equal.
fn is_same(text: &[u8], other: &[u8]) -> bool
    ensures { result ≡ bytes_eq text.now other.now }
{
    text == other
}

/// Returns the text after its first `count` bytes.
fn skip(count: usize, text: &[u8]) -> &[u8]
    ensures { result.now ≡ drop count text.now }
{
    if count <= text.len() {
        &text[count..]
    } else {
        b""
    }
}

/// Returns whether a text begins with another.
fn begins_with(prefix: &[u8], text: &[u8]) -> bool
    ensures { result ≡ begins_with prefix.now text.now }
{
    prefix.len() <= text.len() && is_same(&text[..prefix.len()], prefix)
}

/// Returns what the data of a packet asks for.
#[tactic(auto, unfolding(crate::specs::Packets::packet_of))]
pub fn read_packet(content: &[u8]) -> Packet<'_>
    ensures { packet_view result ≡ packet_of content.now }
{
    match content {
        [] => asked(Request::Unknown),
        [letter, rest @ ..] => by_letter(*letter, rest, content),
    }
}

/// Reads a packet whose name is its first letter, or else by its whole name.
#[tactic(auto, unfolding(crate::specs::Packets::by_letter))]
fn by_letter<'a>(letter: u8, rest: &'a [u8], content: &'a [u8]) -> Packet<'a>
    ensures { packet_view result ≡ by_letter letter rest.now content.now }
{
    match letter {
        b'm' => read_memory(two_numbers(rest)),
        b'M' => write_memory(rest),
        b'X' => write_binary(rest),
        b'p' => read_one(number(rest)),
        b'P' => write_register(rest),
        b'G' => has_digits(Request::WriteRegisters, 184, rest),
        b'c' => unless_more(Request::Continue, rest),
        b'C' => read_signal(Request::Continue, number(rest)),
        b's' => unless_more(Request::Step, rest),
        b'S' => read_signal(Request::Step, number(rest)),
        b'H' => read_thread(rest),
        b'T' => read_described(Request::ThreadAlive, rest),
        b'Z' => point_packet(true, rest),
        b'z' => point_packet(false, rest),
        b'F' => Packet {
            request: Request::FileReply,
            tail: rest,
        },
        b'R' => asked(Request::Restart),
        _ => by_name(content),
    }
}

/// Reads `m`.
fn read_memory<'a>(range: Option<(u32, u32)>) -> Packet<'a>
    ensures { packet_view result ≡ read_memory range }
{
    match range {
        Some((address, length)) if length != 0 => asked(Request::ReadMemory(address, length)),
        _ => asked(Request::Malformed),
    }
}

/// Reads `M`.
fn write_memory(rest: &[u8]) -> Packet<'_>
    ensures { packet_view result ≡ write_memory rest.now }
{
    let Some(parts) = parted(b':', rest) else {
        return asked(Request::Malformed);
    };
    match two_numbers(parts.front) {
        Some((address, length)) => has_digits(
            Request::WriteMemory(address, length),
            2 * length as u64,
            parts.rest,
        ),
        None => asked(Request::Malformed),
    }
}

/// Reads `X`.
fn write_binary(rest: &[u8]) -> Packet<'_>
    ensures { packet_view result ≡ write_binary rest.now }
{
    let Some(parts) = parted(b':', rest) else {
        return asked(Request::Malformed);
    };
    match two_numbers(parts.front) {
        Some((address, length)) if length as usize == parts.rest.len() => Packet {
            request: Request::WriteBinary(address, length),
            tail: parts.rest,
        },
        _ => asked(Request::Malformed),
    }
}

/// Returns a packet whose tail is this many digits.
fn has_digits(request: Request, count: u64, digits: &[u8]) -> Packet<'_>
    ensures { packet_view result ≡ has_digits request count digits.now }
{
    if are_digits(count, digits) {
        Packet {
            request,
            tail: digits,
        }
    } else {
        asked(Request::Malformed)
    }
}

/// Reads `p`.
fn read_one<'a>(register: Option<u32>) -> Packet<'a>
    ensures { packet_view result ≡ read_one register }
{
    match register {
        Some(register) => asked(Request::ReadRegister(register)),
        None => asked(Request::Malformed),
    }
}

/// Reads `P`.
fn write_register(rest: &[u8]) -> Packet<'_>
    ensures { packet_view result ≡ write_register rest.now }
{
    let Some(parts) = parted(b'=', rest) else {
        return asked(Request::Malformed);
    };
    match number(parts.front) {
        Some(register) => has_digits(Request::WriteRegister(register), 8, parts.rest),
        None => asked(Request::Malformed),
    }
}

/// Returns a packet that has nothing after its letter.
fn unless_more<'a>(request: Request, rest: &[u8]) -> Packet<'a>
    ensures { packet_view result ≡ unless_more request rest.now }
{
    if rest.is_empty() {
        asked(request)
    } else {
        asked(Request::Malformed)
    }
}

/// Returns a packet that has a signal, which is ignored.
fn read_signal<'a>(request: Request, signal: Option<u32>) -> Packet<'a>
    ensures { packet_view result ≡ read_signal request signal }
{
    match signal {
        Some(_) => asked(request),
        None => asked(Request::Malformed),
    }
}

/// Returns whether a text is thread 1, any thread (0) or all threads (-1).
fn is_thread(text: &[u8]) -> bool
    ensures { result ≡ is_thread text.now }
{
    if is_same(text, b"-1") {
        return true;
    }
    match number(text) {
        Some(thread) => thread < 2,
        None => false,
    }
}

/// Reads `H`.
fn read_thread<'a>(rest: &[u8]) -> Packet<'a>
    ensures { packet_view result ≡ read_thread rest.now }
{
    let is_known = begins_with(b"g", rest) || begins_with(b"c", rest);
    if is_known && is_thread(skip(1, rest)) {
        asked(Request::SelectThread)
    } else {
        asked(Request::Malformed)
    }
}

/// Returns a packet that takes `1` alone, the one thread.
fn read_described<'a>(request: Request, rest: &[u8]) -> Packet<'a>
    ensures { packet_view result ≡ read_described request rest.now }
{
    if is_same(rest, b"1") {
        asked(request)
    } else {
        asked(Request::Malformed)
    }
}

/// Returns the kind of breakpoint or watchpoint of a digit.
fn kind_of(digit: u8) -> Option<PointKind>
    ensures { result ≡ kind_of digit }
{
    match digit {
        b'0' => Some(PointKind::SoftwareBreakpoint),
        b'1' => Some(PointKind::HardwareBreakpoint),
        b'2' => Some(PointKind::WriteWatchpoint),
        b'3' => Some(PointKind::ReadWatchpoint),
        b'4' => Some(PointKind::AccessWatchpoint),
        _ => None,
    }
}

/// Returns whether a kind needs a length that isn't 0.
fn needs_length(kind: PointKind) -> bool
    ensures { result ≡ needs_length kind }
{
    match kind {
        PointKind::SoftwareBreakpoint | PointKind::HardwareBreakpoint => false,
        PointKind::WriteWatchpoint | PointKind::ReadWatchpoint | PointKind::AccessWatchpoint => {
            true
        }
    }
}

/// Returns two numbers after a comma.
fn comma_numbers(text: &[u8]) -> Option<(u32, u32)>
    ensures { result ≡ comma_numbers text.now }
{
    if begins_with(b",", text) {
        two_numbers(skip(1, text))
    } else {
        None
    }
}

/// Reads `Z` or `z`.
fn point_packet<'a>(inserts: bool, rest: &[u8]) -> Packet<'a>
    ensures { packet_view result ≡ point_packet inserts rest.now }
{
    match rest {
        [] => asked(Request::Unknown),
        [digit, numbers @ ..] => match kind_of(*digit) {
            Some(kind) => point_at(inserts, kind, comma_numbers(numbers)),
            None => asked(Request::Unknown),
        },
    }
}

/// Returns the packet of a breakpoint or watchpoint.
fn point_at<'a>(inserts: bool, kind: PointKind, range: Option<(u32, u32)>) -> Packet<'a>
    ensures { packet_view result ≡ point_at inserts kind range }
{
    let Some((address, length)) = range else {
        return asked(Request::Malformed);
    };
    if needs_length(kind) && length == 0 {
        asked(Request::Malformed)
    } else {
        asked(point(inserts, kind, address, length))
    }
}

/// Returns the request of a breakpoint or watchpoint.
fn point(inserts: bool, kind: PointKind, address: u32, length: u32) -> Request
    ensures { result ≡ point inserts kind address length }
{
    if inserts {
        Request::Insert(kind, address, length)
    } else {
        Request::Remove(kind, address, length)
    }
}

/// Reads a packet that is one name.
#[tactic(auto, unfolding(crate::specs::Packets::by_name))]
fn by_name(content: &[u8]) -> Packet<'_>
    ensures { packet_view result ≡ by_name content.now }
{
    if is_same(content, b"?") {
        asked(Request::StopReason)
    } else if is_same(content, b"g") {
        asked(Request::ReadRegisters)
    } else if is_same(content, b"!") {
        asked(Request::ExtendedMode)
    } else if is_same(content, b"k") {
        asked(Request::Kill)
    } else if is_same(content, b"bs") {
        asked(Request::ReverseStep)
    } else if is_same(content, b"bc") {
        asked(Request::ReverseContinue)
    } else if is_same(content, b"QStartNoAckMode") {
        asked(Request::StartNoAckMode)
    } else if is_same(content, b"vCont?") {
        asked(Request::ResumeActions)
    } else if is_same(content, b"qAttached") {
        asked(Request::Attached)
    } else if is_same(content, b"qC") {
        asked(Request::CurrentThread)
    } else if is_same(content, b"qfThreadInfo") {
        asked(Request::FirstThreads)
    } else if is_same(content, b"qsThreadInfo") {
        asked(Request::MoreThreads)
    } else {
        with_tail(content)
    }
}

/// Reads a packet that is a name, or a name and a sign with what follows.
#[tactic(auto, unfolding(crate::specs::Packets::with_tail))]
fn with_tail(content: &[u8]) -> Packet<'_>
    ensures { packet_view result ≡ with_tail content.now }
{
    if is_same(content, b"D") || begins_with(b"D;", content) {
        tailed(Request::Detach, 2, content)
    } else if is_same(content, b"vKill") || begins_with(b"vKill;", content) {
        tailed(Request::KillProcess, 6, content)
    } else if is_same(content, b"vRun") || begins_with(b"vRun;", content) {
        tailed(Request::Run, 5, content)
    } else if is_same(content, b"qSupported") || begins_with(b"qSupported:", content) {
        tailed(Request::Supported, 11, content)
    } else if begins_with(b"vCont;", content) {
        tailed(Request::Resume, 6, content)
    } else {
        by_prefix(content)
    }
}

/// Returns a packet whose tail follows this many bytes.
fn tailed(request: Request, count: usize, content: &[u8]) -> Packet<'_>
    ensures { packet_view result ≡ tailed request count content.now }
{
    Packet {
        request,
        tail: skip(count, content),
    }
}

/// Reads a packet that is a name and a sign, with fields after it.
#[tactic(auto, unfolding(crate::specs::Packets::by_prefix))]
fn by_prefix(content: &[u8]) -> Packet<'_>
    ensures { packet_view result ≡ by_prefix content.now }
{
    if begins_with(b"qRcmd,", content) {
        read_command(skip(6, content))
    } else if begins_with(b"qThreadExtraInfo,", content) {
        read_described(Request::ThreadDescription, skip(17, content))
    } else if begins_with(b"qMemoryRegionInfo:", content) {
        read_region(number(skip(18, content)))
    } else if begins_with(b"qXfer:features:read:", content) {
        read_annex(skip(20, content))
    } else if begins_with(b"qXfer:memory-map:read::", content) {
        read_map(two_numbers(skip(23, content)))
    } else if begins_with(b"qXfer:memory-map:read:", content) {
        asked(Request::Malformed)
    } else {
        asked(Request::Unknown)
    }
}

/// Reads `qRcmd`, whose digits are in pairs.
fn read_command(digits: &[u8]) -> Packet<'_>
    ensures { packet_view result ≡ read_command digits.now }
{
    has_digits(Request::Monitor, digits.len() as u64 / 2 * 2, digits)
}

/// Reads `qMemoryRegionInfo`.
fn read_region<'a>(address: Option<u32>) -> Packet<'a>
    ensures { packet_view result ≡ read_region address }
{
    match address {
        Some(address) => asked(Request::MemoryRegion(address)),
        None => asked(Request::Malformed),
    }
}

/// Reads the annex, offset and length of `qXfer:features:read`.
fn read_annex<'a>(text: &[u8]) -> Packet<'a>
    ensures { packet_view result ≡ read_annex text.now }
{
    if !begins_with(b"target.xml:", text) {
        return asked(Request::NoAnnex);
    }
    match two_numbers(skip(11, text)) {
        Some((offset, length)) => asked(Request::ReadDescription(offset, length)),
        None => asked(Request::Malformed),
    }
}

/// Reads the offset and length of `qXfer:memory-map:read`.
fn read_map<'a>(range: Option<(u32, u32)>) -> Packet<'a>
    ensures { packet_view result ≡ read_map range }
{
    match range {
        Some((offset, length)) => asked(Request::ReadMemoryMap(offset, length)),
        None => asked(Request::Malformed),
    }
}
