//! Packets of recorded sessions with gdb 13.1, and bytes that were written by hand.

use arrayvec::ArrayVec;
use gdb_packets::{Event, Framer, PointKind, Request, put_packet, read_packet};
use std::test::*;

/// What a row shows, bytes that end with a packet, and the data of the packet.
const WHOLE: [(&str, &str, &str); 6] = [
    ("bytes outside packets are skipped", "+abc$?#3f", "?"),
    ("a checksum in upper case", "$?#3F", "?"),
    ("`$` begins anew", "---$qC$qC#b4", "qC"),
    ("no data", "\u{3}+-+$#00", ""),
    ("an escape at the end gives nothing", "$}#7d", ""),
    ("an escaped byte", "$a}]b#9d", "a}b"),
];

/// Bytes that end with a packet whose checksum is wrong.
const WRONG: [&str; 3] = ["$?#3e", "$?#zz", "$?#00"];

/// The data of a reply, and its packet.
const REPLIES: [(&str, &str); 5] = [
    ("", "$#00"),
    ("OK", "$OK#9a"),
    ("QC1", "$QC1#c5"),
    ("E05", "$E05#aa"),
    ("a}b", "$a}]b#9d"),
];

/// Packets that haven't the form of their name.
const MALFORMED: [&str; 17] = [
    "m",
    "m0,0",
    "m0,4,4",
    "m000000100,4",
    "mg,4",
    "M20000000,4:00",
    "X20000000,1:",
    "p",
    "P0=000000",
    "G00",
    "c0",
    "Cxx",
    "Z0,100,",
    "Z2,20000000,0",
    "Hg2",
    "qRcmd,0",
    "qMemoryRegionInfo:x",
];

/// Packets that aren't known.
const UNKNOWN: [&str; 9] = [
    "Z5,100,2",
    "bx",
    "D1",
    "k1",
    "vCont",
    "vMustReplyEmpty",
    "qXfer:memory-map:write::0,1",
    "x0,0",
    "!!",
];

/// Returns the event of the last byte.
fn last_event(framer: &mut Framer, bytes: &[u8]) -> Event {
    let mut last = Event::Nothing;
    for byte in bytes {
        last = framer.push(*byte);
    }
    last
}

#[test]
fn packets_are_framed(rt: HostRuntime) -> Result<(), Fail> {
    for (name, bytes, content) in WHOLE {
        let mut framer = Framer::new();
        let event = last_event(&mut framer, bytes.as_bytes());
        assert!(rt; matches!(event, Event::Packet), "{name}");
        assert!(rt; framer.content() == content.as_bytes(), "{name}");
    }
    for bytes in WRONG {
        let mut framer = Framer::new();
        let event = last_event(&mut framer, bytes.as_bytes());
        assert!(rt; matches!(event, Event::WrongChecksum), "{bytes}");
    }
    Ok(())
}

#[test]
fn long_packets_are_reported(rt: HostRuntime) -> Result<(), Fail> {
    let mut framer = Framer::new();
    framer.push(b'$');
    for _ in 0..4096 {
        framer.push(b'a');
    }
    assert!(rt; matches!(last_event(&mut framer, b"#00"), Event::Packet));
    assert!(rt; framer.content().len() == 4096);
    framer.push(b'$');
    for _ in 0..4097 {
        framer.push(b'a');
    }
    assert!(rt; matches!(last_event(&mut framer, b"#61"), Event::TooLong));
    Ok(())
}

#[test]
fn replies_are_framed(rt: HostRuntime) -> Result<(), Fail> {
    for (content, packet) in REPLIES {
        let mut page: ArrayVec<u8, 16> = ArrayVec::new();
        let content = content.as_bytes();
        assert!(rt; content.len() < 4);
        if content.len() < 4 {
            put_packet(&mut page, content);
        }
        assert!(rt; page.as_slice() == packet.as_bytes(), "{packet}");
    }
    Ok(())
}

#[test]
fn words_are_read(rt: HostRuntime) -> Result<(), Fail> {
    for content in MALFORMED {
        let packet = read_packet(content.as_bytes());
        assert!(rt; matches!(packet.request, Request::Malformed), "{content}");
    }
    for content in UNKNOWN {
        let packet = read_packet(content.as_bytes());
        assert!(rt; matches!(packet.request, Request::Unknown), "{content}");
    }
    let read = read_packet(b"m20000000,4").request;
    assert!(rt; matches!(read, Request::ReadMemory(0x2000_0000, 4)));
    let insert = read_packet(b"Z1,1d2,2").request;
    assert!(rt;
        matches!(
            insert,
            Request::Insert(PointKind::HardwareBreakpoint, 0x1D2, 2)
        )
    );
    let written = read_packet(b"X20000000,2:ab");
    assert!(rt; matches!(written.request, Request::WriteBinary(0x2000_0000, 2)));
    assert!(rt; written.tail == "ab".as_bytes());
    Ok(())
}
