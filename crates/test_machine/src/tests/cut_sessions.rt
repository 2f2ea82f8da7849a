//! Sessions whose writer or reader is cut after each byte, and how often they call them.

ghost use Rattle.std.specs.Prelude.{◌≡◌};
ghost use Rattle.debugger.specs.Slots.{HaveRoom};

use super::cut::Text;
use super::cuts::{At, NOWHERE, cut_at};
use super::machines::machine_with;
use arrayvec::ArrayVec;
use debugger::{SessionError, Slots, session};
use machine::{
    BitLevels, BoardDecodeTable, Buffered, Decider, DecodeEachTime, EagerSysTick, Exceptions, In,
    KeptCode, KeptDecisions, KeptPriorities, LazySysTick, LazyTable, Machine, Over, Paged,
    PlainExceptions, SMALL_BOARD, Search, Slow, SysTickState,
};
use std::alloc::Global;
use std::io;
use std::io::{Read, Write};
use std::marker::Brand;
use std::sync::ledger::{Blank, Ledger};
use std::test::*;

/// A reader that returns a line a call, or as much as there is room for.
#[derive(Drop)]
struct Typed<'a> {
    text: &'a [u8],
    by_lines: bool,
}

impl Read for Typed<'_> {
    fn read(&mut self, buf: &mut [u8]) -> io::Result<usize> {
        let end = match self.text.iter().position(|byte| *byte == b'\n') {
            Some(at) if self.by_lines => at.saturating_add(1),
            _ => self.text.len(),
        };
        let count = end.min(buf.len()).min(self.text.len());
        let (front, rest) = self.text.split_at(count);
        buf[..count].copy_from_slice(front);
        self.text = rest;
        Ok(count)
    }
}

/// A writer that keeps how many bytes it had after each call.
#[derive(Drop)]
struct Calls {
    text: Text,
    ends: ArrayVec<usize, 256>,
}

impl Write for Calls {
    fn write(&mut self, buf: &[u8]) -> io::Result<usize> {
        let _ = self.text.try_extend_from_slice(buf);
        let _ = self.ends.try_push(self.text.len());
        Ok(buf.len())
    }

    fn flush(&mut self) -> io::Result<()> {
        Ok(())
    }
}

/// How a session is held: its commands, where its reader and its writer are cut, and whether they read ahead and
/// gather.
#[derive(Clone, Copy)]
struct Way {
    commands: &'static [u8],
    input: At,
    output: At,
    by_lines: bool,
    gathers: bool,
}

/// How a session ended, and what its writer took.
#[derive(Drop)]
struct Held {
    ended: Result<(), SessionError>,
    calls: Calls,
}

/// A session.
fn hold<D: Decider, C: KeptCode, L: Exceptions, U: SysTickState>(
    machine: &mut Machine<D, C, L, U>,
    slots: Slots<Machine<D, C, L, U>>,
    way: Way,
) -> Held
    requires { HaveRoom slots machine.old.state.bus }
{
    hold_over::<D, C, L, U, Brand, Brand>(machine, slots, way, Blank::new(1), Blank::new(1))
}

fn hold_over<D: Decider, C: KeptCode, L: Exceptions, U: SysTickState, J: Ledger, K: Ledger>(
    machine: &mut Machine<D, C, L, U>,
    slots: Slots<Machine<D, C, L, U>>,
    way: Way,
    first: Blank,
    second: Blank,
) -> Held
    requires room { HaveRoom slots machine.old.state.bus }
    requires first_name { first.name ≡ J.name }
    requires first_parts { first.parts ≡ J.parts }
    requires first_some { first.parts ≡ 1 }
    requires second_name { second.name ≡ K.name }
    requires second_parts { second.parts ≡ K.parts }
    requires second_some { second.parts ≡ 1 }
{
    let typed = Typed {
        text: way.commands,
        by_lines: way.by_lines,
    };
    let calls = Calls {
        text: Text::new(),
        ends: ArrayVec::new(),
    };
    let input: Over<Typed<'_>, J> = Over::new(typed, first);
    let out: Over<Calls, K> = Over::new(calls, second);
    let mut input = cut_at(input, way.input);
    if way.gathers {
        return gather(
            machine,
            slots,
            Buffered::new(input),
            Paged::new(cut_at(out, way.output)),
        );
    }
    let mut out = cut_at(out, way.output);
    let ended = session(machine, SMALL_BOARD, slots, &mut input, &mut out);
    Held {
        ended,
        calls: out.into_inner().into_inner(),
    }
}

fn gather<D: Decider, C: KeptCode, L: Exceptions, U: SysTickState, I: In + Drop, K: Ledger>(
    machine: &mut Machine<D, C, L, U>,
    slots: Slots<Machine<D, C, L, U>>,
    mut input: I,
    mut out: Paged<machine::Cut<Over<Calls, K>>>,
) -> Held
    requires { HaveRoom slots machine.old.state.bus }
{
    let ended = session(machine, SMALL_BOARD, slots, &mut input, &mut out);
    Held {
        ended,
        calls: out.into_inner().into_inner().into_inner(),
    }
}

/// MOV R0, #5; BKPT 0 at address 8, with MSP 0x20001000: the smallest firmware.
const FIRST: &str = "\
word 8 BE002005
reg D 20001000
reg F 8
reg E FFFFFFFF";

/// A step, a line of 81 bytes, another step, and a last line without a line feed.
static COMMANDS: [u8; 100] =
    *b"step\n---------------------------------------------------------------------------------\nrun 1\nmem 8 1";

/// What a session answers to them: 36, 8, 42 and 13 bytes.
static ANSWERS: [u8; 99] =
    *b"1 F 00000008 2 p ok off\nat 0000000A\nerror 1\n2 F 0000000A 2 p ok off\nstop breakpoint 0\n00000008: 05\n";

/// How many bytes were read, how many are answered where the input ends after them, and how many where the
/// reader fails after them: a line without its line feed counts only at the end.
const ANSWERED: [(usize, usize, usize); 8] = [
    (0, 0, 0),
    (4, 36, 0),
    (5, 36, 36),
    (86, 44, 36),
    (87, 44, 44),
    (92, 86, 44),
    (93, 86, 86),
    (100, 99, 86),
];

/// Returns the number of bytes that are answered where the reader fails after `read` bytes.
fn answered(read: usize) -> usize {
    let mut count = 0;
    'rows: for (least, _, failed) in ANSWERED.iter() {
        if *least <= read {
            count = *failed;
        }
    }
    count
}

/// Returns whether a session fails where its writer is cut: the last step is made once the line before it is
/// answered.
fn fails_to_write<D: Decider, C: KeptCode, L: Exceptions, U: SysTickState>(
    alloc: Global,
    output: At,
    gathers: bool,
) -> Option<bool> {
    let mut machine: Machine<D, C, L, U> = machine_with(alloc, FIRST)?;
    let way = Way {
        commands: &COMMANDS,
        input: NOWHERE,
        output,
        by_lines: true,
        gathers,
    };
    let Ok(slots) = Slots::new(alloc, 0, &machine) else {
        return None;
    };
    let held = hold(&mut machine, slots, way);
    Some(
        matches!(held.ended, Err(SessionError::Write))
            && held.calls.text.as_slice() == &ANSWERS[..output.left.min(99)]
            && machine.regs().pc == 0xA
            && machine.stop().is_some() == (output.left >= 44),
    )
}

/// Returns whether a session ends as it is to where its reader is cut, with this number of bytes answered.
fn fails_to_read<D: Decider, C: KeptCode, L: Exceptions, U: SysTickState>(
    alloc: Global,
    input: At,
    gathers: bool,
    wanted: usize,
) -> Option<bool> {
    let mut machine: Machine<D, C, L, U> = machine_with(alloc, FIRST)?;
    let way = Way {
        commands: &COMMANDS,
        input,
        output: NOWHERE,
        by_lines: true,
        gathers,
    };
    let Ok(slots) = Slots::new(alloc, 0, &machine) else {
        return None;
    };
    let held = hold(&mut machine, slots, way);
    let ends = match held.ended {
        Ok(()) => !input.fails,
        Err(SessionError::Read) => input.fails,
        Err(SessionError::Write) => false,
    };
    Some(ends && held.calls.text.as_slice() == &ANSWERS[..wanted.min(99)])
}

#[test]
fn writers_of_sessions_are_cut_at_each_byte(rt: HostRuntime) -> Result<(), Fail> {
    let alloc = rt.alloc();
    'bytes: for left in 0..99usize {
        'forms: for (fails, gathers) in FORMS.iter() {
            let at = At {
                left,
                fails: *fails,
            };
            let slow = fails_to_write::<Search, DecodeEachTime, PlainExceptions, EagerSysTick>(
                alloc, at, *gathers,
            );
            assert!(rt; slow == Some(true), "Slow, after {left}");
            let fast = fails_to_write::<
                KeptDecisions<LazyTable>,
                BoardDecodeTable,
                KeptPriorities<BitLevels>,
                LazySysTick,
            >(alloc, at, *gathers);
            assert!(rt; fast == Some(true), "Fast, after {left}");
        }
    }
    Ok(())
}

/// MOVS R0, #5; MOVS R1, #6; MOVS R2, #7; BKPT 0 at address 8, with MSP 0x20001000.
const FOUR: &str = "\
word 8 21062005
word C BE002207
reg D 20001000
reg F 8
reg E FFFFFFFF";

/// A run of three of them.
static RUN: [u8; 6] = *b"run 3\n";

/// What a session answers to it: three lines of 24 bytes and one of 12.
static RUN_ANSWER: [u8; 84] =
    *b"1 F 00000008 2 p ok off\n2 F 0000000A 2 p ok off\n3 F 0000000C 2 p ok off\nat 0000000E\n";

/// From which byte of the answer on a writer that is cut there ends the run after how many steps: a step's line
/// goes out before the next step is made. Where lines are gathered, all three steps are made before.
const RUN_STEPS: [(usize, u32); 3] = [(0, 1), (24, 2), (48, 3)];

/// Returns the number of steps that a run makes where its writer is cut after `left` bytes.
fn steps_made(left: usize, gathers: bool) -> u32 {
    let mut made = 3;
    'rows: for (least, steps) in RUN_STEPS.iter() {
        if *least <= left && !gathers {
            made = *steps;
        }
    }
    made
}

/// Returns whether a session fails where its writer is cut within the answer to a run, and the machine is after the
/// steps that were made.
fn fails_in_run<D: Decider, C: KeptCode, L: Exceptions, U: SysTickState>(
    alloc: Global,
    output: At,
    gathers: bool,
) -> Option<bool> {
    let mut machine: Machine<D, C, L, U> = machine_with(alloc, FOUR)?;
    let way = Way {
        commands: &RUN,
        input: NOWHERE,
        output,
        by_lines: true,
        gathers,
    };
    let Ok(slots) = Slots::new(alloc, 0, &machine) else {
        return None;
    };
    let held = hold(&mut machine, slots, way);
    let made = steps_made(output.left, gathers);
    Some(
        matches!(held.ended, Err(SessionError::Write))
            && held.calls.text.as_slice() == &RUN_ANSWER[..output.left.min(84)]
            && machine.ticks() == u64::from(made)
            && machine.regs().pc == made.wrapping_mul(2).wrapping_add(8),
    )
}

#[test]
fn writers_of_runs_in_sessions_are_cut_at_each_byte(rt: HostRuntime) -> Result<(), Fail> {
    let alloc = rt.alloc();
    'bytes: for left in 0..84usize {
        'forms: for (fails, gathers) in FORMS.iter() {
            let at = At {
                left,
                fails: *fails,
            };
            let slow = fails_in_run::<Search, DecodeEachTime, PlainExceptions, EagerSysTick>(
                alloc, at, *gathers,
            );
            assert!(rt; slow == Some(true), "Slow, after {left}");
            let fast = fails_in_run::<
                KeptDecisions<LazyTable>,
                BoardDecodeTable,
                KeptPriorities<BitLevels>,
                LazySysTick,
            >(alloc, at, *gathers);
            assert!(rt; fast == Some(true), "Fast, after {left}");
        }
    }
    Ok(())
}

/// MOVS R1, #5; STR R1, [R0]; BKPT 0 at address 8, with R0 at the beginning of RAM.
const STORE: &str = "\
word 8 60012105
word C BE00BE00
reg 0 20000000
reg D 20001000
reg F 8
reg E FFFFFFFF";

/// A run up to a watchpoint.
static WATCHED: [u8; 41] = *b"trace none\nwatch w 0x20000000 4\nrun 1000\n";

/// What a session answers to it: two lines of 3 bytes, the store of the second step, and where the machine is.
static WATCHED_ANSWER: [u8; 42] = *b"ok\nok\n2 S 20000000 4 p ok off\nat 0000000C\n";

/// Returns whether a session fails where its writer is cut within these answers, and the machine is after the steps
/// that were made: none where the first two lines don't go out, otherwise both.
fn fails_at_watchpoint<D: Decider, C: KeptCode, L: Exceptions, U: SysTickState>(
    alloc: Global,
    output: At,
    gathers: bool,
) -> Option<bool> {
    let mut machine: Machine<D, C, L, U> = machine_with(alloc, STORE)?;
    let way = Way {
        commands: &WATCHED,
        input: NOWHERE,
        output,
        by_lines: false,
        gathers,
    };
    let Ok(slots) = Slots::new(alloc, 0, &machine) else {
        return None;
    };
    let held = hold(&mut machine, slots, way);
    let made = if output.left < 6 && !gathers { 0 } else { 2 };
    Some(
        matches!(held.ended, Err(SessionError::Write))
            && held.calls.text.as_slice() == &WATCHED_ANSWER[..output.left.min(42)]
            && machine.ticks() == made,
    )
}

#[test]
fn writers_of_conditional_runs_are_cut_at_each_byte(rt: HostRuntime) -> Result<(), Fail> {
    let alloc = rt.alloc();
    'bytes: for left in 0..42usize {
        'forms: for (fails, gathers) in FORMS.iter() {
            let at = At {
                left,
                fails: *fails,
            };
            let slow = fails_at_watchpoint::<Search, DecodeEachTime, PlainExceptions, EagerSysTick>(
                alloc, at, *gathers,
            );
            assert!(rt; slow == Some(true), "Slow, after {left}");
            let fast = fails_at_watchpoint::<
                KeptDecisions<LazyTable>,
                BoardDecodeTable,
                KeptPriorities<BitLevels>,
                LazySysTick,
            >(alloc, at, *gathers);
            assert!(rt; fast == Some(true), "Fast, after {left}");
        }
    }
    Ok(())
}

/// Whether a writer fails or takes none, and whether a session reads ahead and gathers.
const FORMS: [(bool, bool); 4] = [(true, true), (true, false), (false, true), (false, false)];

#[test]
fn readers_of_sessions_are_cut_at_each_byte(rt: HostRuntime) -> Result<(), Fail> {
    let alloc = rt.alloc();
    'ways: for gathers in [true, false] {
        'bytes: for left in 0..=100usize {
            let at = At { left, fails: true };
            let wanted = answered(left);
            let failed = fails_to_read::<Search, DecodeEachTime, PlainExceptions, EagerSysTick>(
                alloc, at, gathers, wanted,
            );
            assert!(rt; failed == Some(true), "fails after {left}");
        }
        'rows: for (left, wanted, _) in ANSWERED.iter() {
            let at = At {
                left: *left,
                fails: false,
            };
            let ended = fails_to_read::<Search, DecodeEachTime, PlainExceptions, EagerSysTick>(
                alloc, at, gathers, *wanted,
            );
            assert!(rt; ended == Some(true), "ends after {left}");
        }
    }
    Ok(())
}

/// Each answer goes out in a call of its own before the next line is waited for; those to lines that were read
/// in one call go out together. The last line counts only at the end of the input.
#[test]
fn answers_go_out_in_few_calls(rt: HostRuntime) -> Result<(), Fail> {
    'ways: for by_lines in [true, false] {
        let mut machine: Slow = machine_with(rt.alloc(), FIRST).ok_or("a machine")?;
        let way = Way {
            commands: &COMMANDS,
            input: NOWHERE,
            output: NOWHERE,
            by_lines,
            gathers: true,
        };
        let slots = Slots::new(rt.alloc(), 0, &machine)?;
        let held = hold(&mut machine, slots, way);
        assert!(rt; held.ended.is_ok() && held.calls.text.as_slice() == ANSWERS.as_slice());
        let wanted: &[usize] = if by_lines {
            &[36, 44, 86, 99]
        } else {
            &[86, 99]
        };
        assert!(rt; held.calls.ends.as_slice() == wanted);
    }
    Ok(())
}
