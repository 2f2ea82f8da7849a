//! Both machines at a named stop: they write the lines of a row in its command's stead, and stay there.

use super::machines::both;
use super::streams::{Output, run};
use super::words::lines_of;
use board::read_board;
use elf::{Image, load};
use machine::{
    Decider, Events, Exceptions, Fast, KeptCode, Machine, Place, PlaceError, Slow, SysTickState,
    TraceSelection, stop_line,
};
use std::alloc::Global;
use test_tables::{Outcome, first_difference_of_bytes};

/// The most steps of a run.
const STEPS: u32 = 10;

/// Runs both machines with the image and the board of a row.
pub fn check(alloc: Global, row: &str, image: &[u8], board: &str) -> Option<Outcome> {
    let image: Image<'_> = load(image).ok()?;
    let board = read_board(alloc, board).ok()?;
    let wanted = lines_of(alloc, row, "out")?;
    let mut slow = Slow::new(alloc, &image, &board).ok()?;
    let mut fast = Fast::new(alloc, &image, &board).ok()?;
    let slow = stops(alloc, wanted.as_str(), &mut slow)?;
    let fast = stops(alloc, wanted.as_str(), &mut fast)?;
    both(alloc, slow, fast)
}

/// Compares what a machine writes with the lines of a trace, and what it does at the stop: a step repeats the stop
/// without an event, a run writes its line alone, and no place is taken.
fn stops<D: Decider, C: KeptCode, L: Exceptions, U: SysTickState>(
    alloc: Global,
    trace: &str,
    machine: &mut Machine<D, C, L, U>,
) -> Option<Outcome> {
    let all = TraceSelection::All;
    let mut out = Output::whole(alloc);
    let _ = run(machine, all, STEPS, &mut out).ok()?;
    let outcome = first_difference_of_bytes(alloc, trace.as_bytes(), out.text.as_slice()).ok()?;
    if !outcome.holds() {
        return Some(outcome);
    }
    let line = trace.lines().last()?;
    let mut events = Events::new();
    let by_step = machine.step(&mut events)?;
    let mut out = Output::whole(alloc);
    let _ = run(machine, all, STEPS, &mut out).ok()?;
    let line = format!(in alloc; "{line}\n").ok()?;
    if events.len() != 0 || stop_line(&by_step).as_slice() != line.as_bytes() {
        return Outcome::differs(alloc, "a step repeats the stop", "another step").ok();
    }
    if !is_closed(machine) {
        return Outcome::differs(alloc, "no place is taken after the stop", "a place is").ok();
    }
    first_difference_of_bytes(alloc, line.as_bytes(), out.text.as_slice()).ok()
}

/// Returns whether each kind of place is refused, since the machine has stopped.
fn is_closed<D: Decider, C: KeptCode, L: Exceptions, U: SysTickState>(
    machine: &mut Machine<D, C, L, U>,
) -> bool {
    let mut closed = true;
    'places: for place in [
        Place::Reg(0, 0),
        Place::Special(8, 0),
        Place::Word(0x100, 0),
        Place::Word(0x2000_0000, 0),
        Place::Word(0xE000_ED94, 0),
    ] {
        closed &= matches!(machine.place(place), Err(PlaceError::Stopped));
    }
    closed
}
