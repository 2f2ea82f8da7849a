//! Writers that gather.

ghost use Rattle.std.specs.Prelude.{◌≡◌};

use super::cut::Cut;
use super::machines::machine_with;
use machine::{Decider, Exceptions, Fast, KeptCode, Machine, Over, Paged, Slow, SysTickState};
use std::alloc::{AllocError, Global};
use std::io::Write;
use std::marker::Brand;
use std::str;
use std::sync::ledger::{Blank, Ledger};
use std::test::*;

/// MOV R0, #5; BKPT 0 at address 8, with MSP 0x20001000: the smallest firmware.
const FIRST: &str = "\
word 8 BE002005
reg D 20001000
reg F 8
reg E FFFFFFFF";

/// What it writes: lines of 24, 24 and 18 bytes.
static FIRST_TRACE: [u8; 66] =
    *b"1 F 00000008 2 p ok off\n2 F 0000000A 2 p ok off\nstop breakpoint 0\n";

/// Returns whether a writer got this number of bytes of the trace.
fn got(out: &Cut, bytes: usize) -> bool {
    out.text.len() == bytes && FIRST_TRACE.starts_with(out.text.as_slice())
}

/// A run whose lines are gathered: whether it ends, and whether the lines go out then.
pub(super) fn run_gathered<
    D: Decider,
    C: KeptCode,
    L: Exceptions,
    U: SysTickState,
    W: Write + Drop,
>(machine: &mut Machine<D, C, L, U>, steps: u64, out: W) -> (bool, bool, W) {
    run_paged::<D, C, L, U, W, Brand>(machine, steps, out, Blank::new(1))
}

fn run_paged<D: Decider, C: KeptCode, L: Exceptions, U: SysTickState, W: Write + Drop, K: Ledger>(
    machine: &mut Machine<D, C, L, U>,
    steps: u64,
    out: W,
    blank: Blank,
) -> (bool, bool, W)
    requires name { blank.name ≡ K.name }
    requires parts { blank.parts ≡ K.parts }
    requires some { blank.parts ≡ 1 }
{
    let mut out: Paged<Over<W, K>> = Paged::new(Over::new(out, blank));
    let ran = machine.run(steps, &mut out).is_ok();
    let flushed = out.flush().is_ok();
    (ran, flushed, out.into_inner().into_inner())
}

#[test]
fn gathered_lines_go_out_in_the_end(rt: HostRuntime) -> Result<(), Fail> {
    let mut machine: Slow = machine_with(rt.alloc(), FIRST).ok_or("a machine")?;
    let (ran, flushed, out) = run_gathered(&mut machine, 10, Cut::new(512, 5, true));
    assert!(rt; ran && flushed);
    assert!(rt; got(&out, 66));
    Ok(())
}

#[test]
fn gathered_lines_that_are_cut_are_reported(rt: HostRuntime) -> Result<(), Fail> {
    let mut machine: Slow = machine_with(rt.alloc(), FIRST).ok_or("a machine")?;
    let (_, flushed, out) = run_gathered(&mut machine, 10, Cut::new(30, 512, true));
    assert!(rt; !flushed);
    assert!(rt; got(&out, 30));
    Ok(())
}

/// B to itself at address 8: each step has one line.
const LOOP: &str = "\
word 8 E7FEE7FE
reg D 20001000
reg F 8
reg E FFFFFFFF";

/// The trace of `steps` steps of the loop.
fn loop_trace(alloc: Global, steps: u64) -> Result<String, AllocError> {
    let mut text = String::new(alloc);
    for tick in 1..=steps {
        writeln!(text, "{tick} F 00000008 2 p ok off")?;
    }
    text.push_str("stop steps\n")?;
    Ok(text)
}

/// 2,000 lines of 24 to 27 bytes fill the page of 16 KiB three times.
#[test]
fn a_full_page_goes_out(rt: HostRuntime) -> Result<(), Fail> {
    let mut machine: Slow = machine_with(rt.alloc(), LOOP).ok_or("a machine")?;
    let out: Vec<u8> = Vec::new(rt.alloc());
    let (ran, flushed, out) = run_gathered(&mut machine, 2000, out);
    assert!(rt; ran && flushed);
    assert!(rt; out.as_slice() == loop_trace(rt.alloc(), 2000)?.as_bytes());
    Ok(())
}

/// A writer that fails below a full page breaks the machine, and takes a prefix of the trace.
#[test]
fn a_full_page_that_is_cut_ends_the_run(rt: HostRuntime) -> Result<(), Fail> {
    let mut machine: Slow = machine_with(rt.alloc(), LOOP).ok_or("a machine")?;
    let (ran, _, out) = run_gathered(&mut machine, 2000, Cut::new(100, 512, true));
    assert!(rt; !ran && machine.broken());
    let trace = loop_trace(rt.alloc(), 2000)?;
    assert!(rt; out.text.len() == 100 && trace.as_bytes().starts_with(out.text.as_slice()));
    Ok(())
}

/// B to itself, at 100.
const BRANCH: &str = "\
word 100 E7FE
reg F 100";

/// The steps of the branch: their ticks have up to five digits.
const BRANCH_STEPS: u64 = 10_050;

/// The tick of a line of the branch's fetch.
fn tick_of(line: &str) -> Option<u64> {
    let digits = line.strip_suffix(" F 00000100 2 p ok off")?;
    if digits.starts_with('0') {
        return None;
    }
    digits.parse::<u64>().ok()
}

#[test]
fn each_line_has_its_tick(rt: HostRuntime) -> Result<(), Fail> {
    let mut machine: Fast = machine_with(rt.alloc(), BRANCH).ok_or("a machine")?;
    let (_, _, out) = run_gathered(&mut machine, BRANCH_STEPS, Vec::new(rt.alloc()));
    let text = str::from_utf8(out.as_slice()).ok().ok_or("a text")?;
    let mut tick: u64 = 0;
    for line in text.lines().take(BRANCH_STEPS as usize) {
        tick = tick.wrapping_add(1);
        assert!(rt; tick_of(line) == Some(tick), "{line}");
    }
    assert!(rt; tick == BRANCH_STEPS, "{tick} lines");
    Ok(())
}
