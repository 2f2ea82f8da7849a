//! Lines on a page, one after another.

use arrayvec::ArrayVec;
use platform::event::{Event, EventKind};
use platform::stop::Stop;
use std::test::*;
use test_tables::long_at;
use trace::digits::LineDigits;
use trace::page::Page;

/// A byte that goes out to the console.
fn console(tick: u64) -> Event {
    Event {
        tick,
        what: EventKind::ConsoleByte(0xA0),
    }
}

/// The events of some ticks.
fn consoles(ticks: &str) -> Option<ArrayVec<Event, 16>> {
    let mut events = ArrayVec::new();
    'ticks: for word in ticks.split_whitespace() {
        events.try_push(console(long_at(word, 0)?)).ok()?;
    }
    Some(events)
}

/// Ticks of one to twenty digits: the digits go on, stay, skip and go back.
const TICKS: &str = "9 A A 63 64 65 FFFFFFFFFFFFFFFF 6C 6D 6E 7";

/// Their lines.
const TICK_LINES: &str = "\
9 O A0
10 O A0
10 O A0
99 O A0
100 O A0
101 O A0
18446744073709551615 O A0
108 O A0
109 O A0
110 O A0
7 O A0
";

/// Returns whether the lines of an event and of a stop are on the page, which may have had others.
fn is_begun(page: &mut Page<1024>, digits: &mut LineDigits) -> bool {
    page.clear();
    page.put_event(digits, &console(8));
    page.put_stop(&Stop::StepLimit);
    page.as_slice() == b"8 O A0\nstop steps\n".as_slice() && page.len() == 18
}

/// Returns whether these lines are on the page, which may have had others, for the events of some
/// ticks.
fn are_lines_so(
    page: &mut Page<1024>,
    digits: &mut LineDigits,
    ticks: &str,
    lines: &str,
) -> Option<bool> {
    let events = consoles(ticks)?;
    page.clear();
    for event in events.as_slice() {
        if page.len() > 1024 - 64 {
            return None;
        }
        page.put_event(digits, event);
    }
    Some(page.as_slice() == lines.as_bytes())
}

#[test]
fn ticks_after_one_another(rt: HostRuntime) {
    let mut page = Page::new();
    let mut digits = LineDigits::new();
    assert!(rt; page.is_empty(), "a new page");
    assert!(rt; is_begun(&mut page, &mut digits), "an event and a stop");
    let answer = are_lines_so(&mut page, &mut digits, TICKS, TICK_LINES);
    assert!(rt; answer == Some(true), "the ticks after one another");
}
