//! Rows of recorded sessions with gdb 13.1, and of GDB's manual.

ghost use Rattle.std.specs.Prelude.{◌≡◌, ◌+◌, ◌%◌, ◌^◌, ◌≤◌};

use arrayvec::ArrayVec;
use debugger_commands::{Condition, LineError, LineSelection};
use devices::{Device, Stores};
use gdb_texts::*;
use instruction_set::size::Size;
use platform::access::{Access, Cause, Decision, Kind, Rule};
use platform::board::SMALL_BOARD;
use platform::stop::Stop;
use std::test::*;

/// What GDB 13.1 says that it takes.
const GDB: &str =
    "multiprocess+;swbreak+;hwbreak+;qRelocInsn+;vContSupported+;QThreadEvents+;xmlRegisters=i386";

/// The registers of a session, and the digits of the reply to `g`.
const REGISTERS_OF_START: [u32; 23] = [
    0,
    0,
    0,
    0,
    0,
    0,
    0,
    0,
    0,
    0,
    0,
    0,
    0,
    0x2000_2000,
    0xFFFF_FFFF,
    0x400,
    0x0100_0000,
    0x2000_2000,
    0,
    0,
    0,
    0,
    0,
];

/// The actions of a packet, and what they ask for: `c`, `s`, `r` with its addresses, or nothing.
const ACTIONS: [(&str, &str); 14] = [
    ("c", "c"),
    ("s:1", "s"),
    ("s:1;c", "s"),
    ("S0b:1;c", "s"),
    ("C0b:1", "c"),
    ("s:2;c:-1", "c"),
    ("s:0001", "s"),
    ("r64e,660:1;c", "r"),
    ("c:2", ""),
    ("s:2;t:1", ""),
    ("r1,2,3", ""),
    ("", ""),
    ("x", ""),
    ("c1", ""),
];

/// Returns a letter for what some actions ask for.
fn asked(tail: &str) -> &'static str {
    match read_actions(tail.as_bytes()) {
        Some(Resume::Continue) => "c",
        Some(Resume::Step) => "s",
        Some(Resume::Range(0x64E, 0x660)) => "r",
        Some(Resume::Range(_, _)) => "another range",
        None => "",
    }
}

/// Returns whether a text of `page` begins with another.
fn begins(page: &ArrayVec<u8, 400>, text: &str) -> bool {
    page.as_slice().starts_with(text.as_bytes())
}

#[test]
fn actions_are_read(rt: HostRuntime) -> Result<(), Fail> {
    for (tail, action) in ACTIONS {
        assert!(rt; asked(tail) == action, "{tail}");
    }
    Ok(())
}

#[test]
fn features_are_read(rt: HostRuntime) -> Result<(), Fail> {
    let gdb = read_features(GDB.as_bytes());
    assert!(rt; gdb.is_gdb && gdb.takes_swbreak && gdb.takes_hwbreak);
    let lldb = read_features(b"xmlRegisters=i386,arm,mips;swbreak-;hwbreak+");
    assert!(rt; !lldb.is_gdb && !lldb.takes_swbreak && lldb.takes_hwbreak);
    Ok(())
}

#[test]
fn registers_are_digits(rt: HostRuntime) -> Result<(), Fail> {
    let mut page: ArrayVec<u8, 400> = ArrayVec::new();
    put_registers(&mut page, &REGISTERS_OF_START);
    assert!(rt; page.len() == 184);
    let digits: ArrayVec<u8, 400> = page;
    assert!(rt; word_at(digits.as_slice(), 13) == 0x2000_2000);
    assert!(rt; word_at(b"78563410", 0) == 0x1034_5678);
    assert!(rt; byte_at(b"686A73", 1) == 0x6A);
    let mut word: ArrayVec<u8, 400> = ArrayVec::new();
    put_word(&mut word, 0xFFFF_FFFC);
    assert!(rt; word.as_slice() == "fcffffff".as_bytes());
    assert!(rt; written_register(0) == 16 && written_register(7) == 0);
    Ok(())
}

#[test]
fn stops_are_told(rt: HostRuntime) -> Result<(), Fail> {
    let features = read_features(GDB.as_bytes());
    let rows = [
        (StopReason::Done, "T05thread:1;00:00000000;"),
        (
            StopReason::Breakpoint(BreakpointKind::Hardware),
            "T05thread:1;hwbreak:;00:",
        ),
        (
            StopReason::Watchpoint(WatchKind::Write, 0x2000_000C),
            "T05thread:1;watch:2000000c;00:",
        ),
        (StopReason::PastBegins, "T05thread:1;replaylog:begin;00:"),
        (StopReason::StoppedBefore, "T05thread:1;replaylog:end;00:"),
        (StopReason::Stopped(Stop::Lockup), "T06thread:1;00:"),
        (StopReason::Stopped(Stop::StepLimit), "T18thread:1;00:"),
        (StopReason::Refused(Cause::Mpu), "T0bthread:1;00:"),
        (StopReason::Entered, "T1ethread:1;00:"),
        (StopReason::Interrupted, "T02thread:1;00:"),
    ];
    for (reason, text) in rows {
        let mut page: ArrayVec<u8, 400> = ArrayVec::new();
        put_stop_reply(&mut page, reason, features, &REGISTERS_OF_START);
        assert!(rt; begins(&page, text), "{text}");
    }
    let mut page: ArrayVec<u8, 400> = ArrayVec::new();
    put_signal_reply(&mut page, Signal::Trap, &REGISTERS_OF_START);
    assert!(rt; page.len() == 288 && begins(&page, "T05thread:1;00:00000000;01:"));
    Ok(())
}

#[test]
fn text_is_framed(rt: HostRuntime) -> Result<(), Fail> {
    let mut text = ConsoleText::new();
    for byte in b"0\nnow 0\n" {
        if !text.is_full() {
            text.push(*byte);
        }
    }
    assert!(rt; !text.is_empty() && text.as_slice().len() == 8);
    let mut page: ArrayVec<u8, 400> = ArrayVec::new();
    if text.as_slice().len() == 8 {
        put_console(&mut page, text.as_slice());
    }
    assert!(rt; page.as_slice() == "$O300a6e6f7720300a#3e".as_bytes());
    text.clear();
    assert!(rt; text.is_empty());
    Ok(())
}

#[test]
fn breakpoints_are_kept(rt: HostRuntime) -> Result<(), Fail> {
    let mut breakpoints = Breakpoints::new();
    for address in 0..64 {
        let breakpoint = Breakpoint {
            kind: BreakpointKind::Hardware,
            address,
        };
        assert!(rt; matches!(breakpoints.insert(breakpoint), Reply::Done));
    }
    let one_more = Breakpoint {
        kind: BreakpointKind::Software,
        address: 7,
    };
    assert!(rt;
        matches!(
            breakpoints.insert(one_more),
            Reply::Error(ErrorCode::NoRoom)
        )
    );
    breakpoints.remove(Breakpoint {
        kind: BreakpointKind::Hardware,
        address: 9,
    });
    assert!(rt; breakpoints.kind_at(9).is_none());
    assert!(rt; reply_text(breakpoints.insert(one_more)) == "OK".as_bytes());
    assert!(rt; matches!(breakpoints.kind_at(7), Some(BreakpointKind::Software)));
    assert!(rt; matches!(breakpoints.kind_at(8), Some(BreakpointKind::Hardware)));
    Ok(())
}

/// Commands of `monitor`, and what they are: a word for each, or the error.
const COMMANDS: [(&str, &str); 26] = [
    ("help", "help"),
    ("explain 0x20000000 u w", "explain"),
    ("regions", "regions"),
    ("state", "state"),
    ("next", "next"),
    ("history", "history"),
    ("trace all", "trace all"),
    ("trace on", "trace all"),
    ("trace off", "trace console"),
    ("trace none", "another trace"),
    ("lines off", "lines off"),
    ("stop faults on", "stop faults on"),
    ("step over", "step over"),
    ("step into", "step into"),
    ("budget 100000", "budget 100000"),
    ("place reg 13 0x20002000", "place"),
    ("place reg 256 0", "place"),
    ("restart", "restart"),
    ("why", "why"),
    ("reset halt", "error 1"),
    ("", "error 1"),
    ("run 5", "error 1"),
    ("help me", "error 2"),
    ("step", "error 2"),
    ("lines  on", "error 2"),
    ("budget 4294967296", "error 2"),
];

/// Returns the word of a command of `monitor`.
fn word_of(command: Monitor) -> &'static str {
    match command {
        Monitor::Help => "help",
        Monitor::Explain(0x2000_0000, false, Kind::Store) => "explain",
        Monitor::Explain(_, _, _) => "another explain",
        Monitor::Regions => "regions",
        Monitor::State => "state",
        Monitor::Next => "next",
        Monitor::History => "history",
        Monitor::Trace(LineSelection::All) => "trace all",
        Monitor::Trace(LineSelection::Console) => "trace console",
        Monitor::Trace(_) => "another trace",
        Monitor::Lines(on) => if on { "lines on" } else { "lines off" },
        Monitor::Stop(Condition::Faults, true) => "stop faults on",
        Monitor::Stop(_, _) => "another stop",
        Monitor::Step(over) => if over { "step over" } else { "step into" },
        Monitor::Budget(100_000) => "budget 100000",
        Monitor::Budget(_) => "another budget",
        Monitor::Place(_) => "place",
        Monitor::Restart => "restart",
        Monitor::Why => "why",
    }
}

/// Returns the word of what a text reads as.
fn read_as(text: &str) -> &'static str {
    match read_monitor(text.as_bytes()) {
        Ok(command) => word_of(command),
        Err(LineError::Command) => "error 1",
        Err(LineError::Word) => "error 2",
    }
}

#[test]
fn commands_of_monitor_are_read(rt: HostRuntime) -> Result<(), Fail> {
    for (text, word) in COMMANDS {
        assert!(rt; read_as(text) == word, "{text}");
    }
    let settings = settings_after(first_settings(), Monitor::Budget(7));
    assert!(rt; max_steps(settings, true) == Some(7));
    assert!(rt; max_steps(first_settings(), true).is_none());
    assert!(rt; max_steps(first_settings(), false) == Some(50_000_000));
    assert!(rt; monitor_help().starts_with(b"explain "));
    assert!(rt;
        why_text(Some(ErrorCode::Malformed)) == "E05: a packet not of its form\n".as_bytes()
    );
    let decision = Decision {
        rule: Rule::Region(3),
        granted: false,
    };
    let words = explanation(&decision);
    assert!(rt;
        words.as_slice() == "the highest region with this address is 3: refused\n".as_bytes()
    );
    Ok(())
}

/// Where a watchpoint on four bytes at 0x20000008 is met: the address and the size of a store, and the first byte.
const STORES: [(u32, Size, Option<u32>); 6] = [
    (0x2000_0004, Size::Word, None),
    (0x2000_0007, Size::Byte, None),
    (0x2000_0006, Size::Word, Some(0x2000_0008)),
    (0x2000_0008, Size::Word, Some(0x2000_0008)),
    (0x2000_000B, Size::Byte, Some(0x2000_000B)),
    (0x2000_000C, Size::Word, None),
];

#[test]
fn watchpoints_are_met(rt: HostRuntime) -> Result<(), Fail> {
    let mut watchpoints = Watchpoints::new();
    let watchpoint = Watchpoint {
        kind: WatchKind::Write,
        address: 0x2000_0008,
        length: 4,
    };
    assert!(rt; matches!(watchpoints.insert(watchpoint), Reply::Done));
    for (address, size, first) in STORES {
        let store = Access {
            kind: Kind::Store,
            address,
            size,
            privileged: true,
        };
        assert!(rt;
            watchpoints.hit_of(&store).map(|hit| hit.address) == first,
            "{address:x}"
        );
        let load = Access {
            kind: Kind::Load,
            address,
            size,
            privileged: true,
        };
        assert!(rt; watchpoints.hit_of(&load).is_none());
    }
    watchpoints.remove(watchpoint);
    assert!(rt; watchpoints.is_empty() && !watchpoints.is_set(watchpoint));
    Ok(())
}

/// Addresses on the small board, and the answers to lldb about them.
const REGIONS: [(u32, &str); 7] = [
    (0, "start:0;size:1000;permissions:rx;"),
    (0x1000, "start:1000;size:1ffff000;"),
    (0x2000_1FFF, "start:20000000;size:2000;permissions:rwx;"),
    (0x3FFF_FFFF, "start:20002000;size:1fffe000;"),
    (0x4000_0000, "start:40000000;size:1000;permissions:rw;"),
    (0xE000_0000, "start:e0000000;size:100000;permissions:rw;"),
    (0xFFFF_FFFF, "start:e0100000;size:1ff00000;"),
];

#[test]
fn memory_is_described(rt: HostRuntime) -> Result<(), Fail> {
    let no_devices: [Device; 0] = [];
    for (address, text) in REGIONS {
        let mut page: ArrayVec<u8, 400> = ArrayVec::new();
        put_region_info(&mut page, &SMALL_BOARD, &no_devices, address);
        assert!(rt; page.as_slice() == text.as_bytes(), "{text}");
    }
    let mut map: ArrayVec<u8, 17_408> = ArrayVec::new();
    put_memory_map(&mut map, &SMALL_BOARD, &no_devices);
    let rom = "<memory type=\"rom\" start=\"0x0\" length=\"0x1000\"/>\n";
    assert!(rt; map.len() == 390);
    assert!(rt; map.as_slice()[157..].starts_with(rom.as_bytes()));
    Ok(())
}

/// Returns a device of words that keep what is stored.
fn device(base: u32, size: u32) -> Device
    requires base { base % 4 ≡ 0 }
    requires size { size % 4 ≡ 0 }
    requires within { base + size ≤ 2 ^ 32 }
{
    Device {
        base,
        size,
        start: 0,
        ones: 0,
        zeros: 0,
        stores: Stores::Kept,
        follows: 0,
        by: 1,
        of: None,
        counts: false,
        console: false,
        load_poke: None,
        store_poke: None,
        line: None,
    }
}

/// The end of the map of the small board with three devices, of which two touch and one overlaps the device window.
const DEVICES_MAP: &str = "\
<memory type=\"ram\" start=\"0x20000000\" length=\"0x2000\"/>
<memory type=\"ram\" start=\"0x40000000\" length=\"0x1800\"/>
<memory type=\"ram\" start=\"0x40021000\" length=\"0x404\"/>
<memory type=\"ram\" start=\"0xe0000000\" length=\"0x100000\"/>
</memory-map>
";

#[test]
fn devices_are_described(rt: HostRuntime) -> Result<(), Fail> {
    let devices = [
        device(0x4002_1000, 0x400),
        device(0x4000_0800, 0x1000),
        device(0x4002_1400, 4),
    ];
    let mut map: ArrayVec<u8, 17_408> = ArrayVec::new();
    put_memory_map(&mut map, &SMALL_BOARD, &devices);
    assert!(rt; map.as_slice().ends_with(DEVICES_MAP.as_bytes()));
    let mut page: ArrayVec<u8, 400> = ArrayVec::new();
    put_region_info(&mut page, &SMALL_BOARD, &devices, 0x4002_1402);
    assert!(rt; page.as_slice() == "start:40021000;size:404;permissions:rw;".as_bytes());
    Ok(())
}

/// Pieces of the description in a recorded session: the offset, the count, and the reply.
const PIECES: [(u32, u32, &str); 6] = [
    (0x0, 17, "m<?xml version=\"1."),
    (0x606, 8, "m</target"),
    (0x607, 8, "m/target>"),
    (0x608, 8, "ltarget>\n"),
    (0x610, 8, "l"),
    (0x611, 8, "E05"),
];

#[test]
fn description_is_sent_in_pieces(rt: HostRuntime) -> Result<(), Fail> {
    assert!(rt; description().len() == 1552);
    for (offset, count, text) in PIECES {
        let mut page: ArrayVec<u8, 4096> = ArrayVec::new();
        put_piece(&mut page, description(), offset, count);
        assert!(rt; page.as_slice() == text.as_bytes(), "{text}");
    }
    let mut page: ArrayVec<u8, 400> = ArrayVec::new();
    put_thread(&mut page, Activity::Handler(11), true);
    let mut text: ArrayVec<u8, 400> = ArrayVec::new();
    put_first_bytes(&mut text, page.as_slice(), 17);
    assert!(rt; text.as_slice() == "handler 11 asleep".as_bytes());
    Ok(())
}
