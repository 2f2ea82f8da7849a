//! Lines of the trace against the texts that they must have, written out.

use crate::words::{request, rule};
use instruction_set::unpredictable::UnpredictableCase;
use platform::access::{Cause, DecidedAccess};
use platform::event::{Event, EventKind, RecordedFault};
use platform::stop::{Stop, Unsupported};
use std::alloc::Global;
use std::io;
use test_tables::{
    Outcome, byte_at, first_difference_of_bytes, halfword_at, long_at, meaning, number_at, part,
    word,
};
use trace::digits::LineDigits;
use trace::hex;
use trace::line_end::FetchEnd;
use trace::lines::{event_line, stop_line};
use trace::page::Page;

/// Returns the outcome of a row of a table of lines.
pub fn outcome(alloc: Global, table: &str, row: &str) -> io::Result<Outcome> {
    match table {
        "events" => event_outcome(alloc, row),
        "later" => later(alloc, row),
        "fetches" => fetches(alloc, row),
        "stops" => match meaning(&STOPS, part(row, 1)) {
            Some(stop) => is_line(alloc, part(row, 0), stop_line(&stop).as_slice()),
            None => Ok(Outcome::Unreadable),
        },
        _ => Ok(Outcome::Unreadable),
    }
}

/// What refused an access, by its word.
const REFUSALS: [(&str, Option<Cause>); 3] = [
    ("done", None),
    ("refused-by-mpu", Some(Cause::Mpu)),
    ("refused-by-bus", Some(Cause::Bus)),
];

/// An access: the request, its outcome, and the rule.
fn access(asked: &str, became: &str) -> Option<DecidedAccess> {
    Some(DecidedAccess {
        access: request(asked)?.access,
        rule: rule(word(became, 1))?,
        refused: meaning(&REFUSALS, word(became, 0))?,
    })
}

/// A recorded fault: its exception, CFSR and HFSR.
fn fault(part: &str) -> Option<RecordedFault> {
    Some(RecordedFault {
        exception: halfword_at(part, 0)?,
        cfsr: number_at(part, 1)?,
        hfsr: number_at(part, 2)?,
    })
}

/// What a row has after its tick.
fn happening(row: &str) -> Option<EventKind> {
    let what = part(row, 2);
    match word(part(row, 1), 1) {
        "console" => Some(EventKind::ConsoleByte(byte_at(what, 0)?)),
        "return" => Some(EventKind::ReturnBegan(number_at(what, 0)?)),
        "handler" => Some(EventKind::HandlerEntered(halfword_at(what, 0)?)),
        "fault" => Some(EventKind::FaultRecorded(fault(what)?)),
        "access" => Some(EventKind::Accessed(access(what, part(row, 3))?)),
        _ => None,
    }
}

/// Compares the line that a row wants with a text, which ends in a line feed.
fn is_line(alloc: Global, wanted: &str, text: &[u8]) -> io::Result<Outcome> {
    match text.strip_suffix(b"\n") {
        Some(line) => Ok(first_difference_of_bytes(alloc, wanted.as_bytes(), line)?),
        None => Ok(Outcome::differs(alloc, wanted, "a text without a line feed")?),
    }
}

/// The event of a row.
fn event_of(row: &str) -> Option<Event> {
    Some(Event {
        tick: long_at(part(row, 1), 0)?,
        what: happening(row)?,
    })
}

/// Compares the line of a row with that of its event.
fn event_outcome(alloc: Global, row: &str) -> io::Result<Outcome> {
    match event_of(row) {
        Some(event) => is_line(alloc, part(row, 0), event_line(&event).as_slice()),
        None => Ok(Outcome::Unreadable),
    }
}

/// Compares the lines of events one after another, with the digits of the earlier ones.
fn later(alloc: Global, row: &str) -> io::Result<Outcome> {
    let mut digits = LineDigits::new();
    'lines: for line in row.lines().skip(1) {
        let Some(event) = event_of(line) else {
            return Ok(Outcome::Unreadable);
        };
        let mut page = Page::<64>::new();
        page.put_event(&mut digits, &event);
        let outcome = is_line(alloc, part(line, 0), page.as_slice())?;
        if !outcome.holds() {
            return Ok(outcome);
        }
    }
    Ok(Outcome::Holds)
}

/// The tick of a fetch that was done, its address, and the end of its line.
fn fetch_of(line: &str) -> Option<(u64, u32, FetchEnd)> {
    let event = event_of(line)?;
    let EventKind::Accessed(fetch) = event.what else {
        return None;
    };
    let end = FetchEnd::of(fetch.rule, fetch.access.privileged)?;
    Some((event.tick, fetch.access.address, end))
}

/// Compares the lines of fetches that were done, from the digits of their addresses and their ends.
fn fetches(alloc: Global, row: &str) -> io::Result<Outcome> {
    let mut digits = LineDigits::new();
    'lines: for line in row.lines().skip(1) {
        let Some((tick, address, end)) = fetch_of(line) else {
            return Ok(Outcome::Unreadable);
        };
        let mut page = Page::<64>::new();
        page.put_fetch(&mut digits, tick, &hex::word(address), &end);
        let outcome = is_line(alloc, part(line, 0), page.as_slice())?;
        if !outcome.holds() {
            return Ok(outcome);
        }
    }
    Ok(Outcome::Holds)
}

/// The stops that the rows name.
const STOPS: [(&str, Stop); 6] = [
    ("StepLimit", Stop::StepLimit),
    ("Breakpoint(0)", Stop::Breakpoint(0)),
    ("Lockup", Stop::Lockup),
    ("ResetRequested", Stop::ResetRequested),
    (
        "Unpredictable(MpuRegion)",
        Stop::Unpredictable(UnpredictableCase::MpuRegion),
    ),
    (
        "OutOfProfile(ClockEnd)",
        Stop::OutOfProfile(Unsupported::ClockEnd),
    ),
];
