//! Debug sessions over both machines of the small board: the lines `in` of a row are sent, and the lines `out` are
//! answered.

ghost use Rattle.std.specs.Prelude.{◌≡◌};
ghost use Rattle.debugger.specs.Slots.{HaveRoom};

use super::boards::{event, place, scripted, small_board};
use super::machines::both;
use super::streams::Output;
use super::words::{lines_of, split_line};
use debugger::{Slots, session};
use machine::{Decider, Exceptions, Fast, KeptCode, Layout, Machine, Over, Slow, SysTickState};
use std::alloc::Global;
use std::marker::Brand;
use std::sync::ledger::{Blank, Ledger};
use test_tables::{Outcome, first_difference_of_bytes};

/// Holds the sessions of a row.
pub fn check(alloc: Global, row: &str) -> Option<Outcome> {
    let mut slow: Slow = scripted(alloc, row)?;
    let mut fast: Fast = scripted(alloc, row)?;
    let slow = answers(alloc, row, &mut slow)?;
    let fast = answers(alloc, row, &mut fast)?;
    both(alloc, slow, fast)
}

/// Returns whether a line of a row is read: a place is taken, and others read what is on the board and in the session.
fn is_read<D: Decider, C: KeptCode, L: Exceptions, U: SysTickState>(
    machine: &mut Machine<D, C, L, U>,
    line: &str,
) -> bool {
    let (name, rest) = split_line(line);
    match name {
        "in" | "out" | "second" | "board" | "device" => true,
        "event" => event(line).is_some(),
        "slots" => rest.parse::<u8>().is_ok(),
        _ => match place(line) {
            Some(place) => machine.place(place).is_ok(),
            None => false,
        },
    }
}

/// Returns the number of slots of a row, which is 0 where no line has it.
fn slots_of(alloc: Global, row: &str) -> Option<u8> {
    let slots = lines_of(alloc, row, "slots")?;
    Some(slots.as_str().trim_end().parse::<u8>().unwrap_or(0))
}

/// Compares the answers of a machine's session with those of a row.
fn answers<D: Decider, C: KeptCode, L: Exceptions, U: SysTickState>(
    alloc: Global,
    row: &str,
    machine: &mut Machine<D, C, L, U>,
) -> Option<Outcome> {
    'lines: for line in row.lines().skip(1) {
        if !is_read(machine, line) {
            return Outcome::unreadable(alloc, line).ok();
        }
    }
    let layout = small_board(alloc, row)?.layout;
    let input = lines_of(alloc, row, "in")?;
    let wanted = lines_of(alloc, row, "out")?;
    if wanted.is_empty() {
        return None;
    }
    let Ok(slots) = Slots::new(alloc, slots_of(alloc, row)?, machine) else {
        return None;
    };
    let out = Output::whole(alloc);
    let came = hold(machine, layout, slots, input.as_bytes(), out)?;
    first_difference_of_bytes(alloc, wanted.as_bytes(), came.text.as_slice()).ok()
}

/// Holds a session, and returns its writer.
fn hold<D: Decider, C: KeptCode, L: Exceptions, U: SysTickState>(
    machine: &mut Machine<D, C, L, U>,
    layout: Layout,
    slots: Slots<Machine<D, C, L, U>>,
    input: &[u8],
    out: Output,
) -> Option<Output>
    requires { HaveRoom slots machine.old.state.bus }
{
    let streams = Streams { input, out };
    hold_over::<D, C, L, U, Brand, Brand>(
        machine,
        layout,
        slots,
        streams,
        Blank::new(1),
        Blank::new(1),
    )
}

/// What a session reads, and its writer.
#[derive(Drop)]
struct Streams<'a> {
    input: &'a [u8],
    out: Output,
}

fn hold_over<D: Decider, C: KeptCode, L: Exceptions, U: SysTickState, J: Ledger, K: Ledger>(
    machine: &mut Machine<D, C, L, U>,
    layout: Layout,
    slots: Slots<Machine<D, C, L, U>>,
    streams: Streams<'_>,
    first: Blank,
    second: Blank,
) -> Option<Output>
    requires room { HaveRoom slots machine.old.state.bus }
    requires first_name { first.name ≡ J.name }
    requires first_parts { first.parts ≡ J.parts }
    requires first_some { first.parts ≡ 1 }
    requires second_name { second.name ≡ K.name }
    requires second_parts { second.parts ≡ K.parts }
    requires second_some { second.parts ≡ 1 }
{
    let mut reader: Over<&[u8], J> = Over::new(streams.input, first);
    let mut out: Over<Output, K> = Over::new(streams.out, second);
    session(machine, layout, slots, &mut reader, &mut out).ok()?;
    Some(out.into_inner())
}
