//! Runs whose writer is cut after each byte.

ghost use Rattle.std.specs.Prelude.{◌≡◌};

use super::cut::{Cut, Text};
use super::machines::pulsed_machine;
use machine::{
    BitLevels, BoardDecodeTable, Decider, DecodeEachTime, EagerSysTick, Exceptions, KeptCode,
    KeptDecisions, KeptPriorities, LazySysTick, LazyTable, Machine, Over, PlainExceptions,
    RunError, Search, Stop, SysTickState, TaskEnd, TraceSelection,
};
use std::alloc::Global;
use std::marker::Brand;
use std::sync::ledger::{Blank, Ledger};
use std::test::*;
use test_tables::word;

/// The most bytes that a writer takes in a call, where it takes all.
pub(super) const ALL: usize = 4096;

/// Where a writer or a reader is cut, and whether it fails there.
#[derive(Clone, Copy)]
pub(super) struct At {
    pub(super) left: usize,
    pub(super) fails: bool,
}

/// Where none is cut.
pub(super) const NOWHERE: At = At {
    left: ALL,
    fails: true,
};

/// A writer or a reader that is cut there.
pub(super) fn cut_at<T: Drop>(inner: T, at: At) -> machine::Cut<T> {
    if at.fails {
        machine::Cut::failing(inner, at.left)
    } else {
        machine::Cut::taking_none(inner, at.left)
    }
}

/// A writer that takes `most` bytes a call, and is cut.
#[derive(Clone, Copy)]
pub(super) struct Ending {
    pub(super) most: usize,
    pub(super) at: At,
}

/// How a run ended, and what its writer took.
#[derive(Drop)]
struct Ended {
    stop: Result<Stop, RunError>,
    taken: Text,
}

/// The steps of a run: the most that are made, and which of their events are written.
#[derive(Clone, Copy)]
struct Steps {
    most: u32,
    selection: TraceSelection,
}

/// A run into a writer that is cut.
fn run_cut<D: Decider, C: KeptCode, L: Exceptions, U: SysTickState>(
    machine: &mut Machine<D, C, L, U>,
    steps: Steps,
    ending: Ending,
) -> Ended {
    run_over::<D, C, L, U, Brand>(machine, steps, ending, Blank::new(1))
}

fn run_over<D: Decider, C: KeptCode, L: Exceptions, U: SysTickState, K: Ledger>(
    machine: &mut Machine<D, C, L, U>,
    steps: Steps,
    ending: Ending,
    blank: Blank,
) -> Ended
    requires name { blank.name ≡ K.name }
    requires parts { blank.parts ≡ K.parts }
    requires some { blank.parts ≡ 1 }
{
    let below: Over<Cut, K> = Over::new(Cut::new(ALL, ending.most, true), blank);
    let mut out = cut_at(below, ending.at);
    let stop = machine.run_selected(steps.selection, u64::from(steps.most), &mut out);
    Ended {
        stop,
        taken: out.into_inner().into_inner().text,
    }
}

/// A run of a task into a writer that is cut: how it ended, and what the writer took.
pub(super) fn run_task_cut<D: Decider, C: KeptCode, L: Exceptions, U: SysTickState>(
    machine: &mut Machine<D, C, L, U>,
    steps: u32,
    ending: Ending,
) -> (Result<TaskEnd, RunError>, Text) {
    run_task_over::<D, C, L, U, Brand>(machine, steps, ending, Blank::new(1))
}

fn run_task_over<D: Decider, C: KeptCode, L: Exceptions, U: SysTickState, K: Ledger>(
    machine: &mut Machine<D, C, L, U>,
    steps: u32,
    ending: Ending,
    blank: Blank,
) -> (Result<TaskEnd, RunError>, Text)
    requires name { blank.name ≡ K.name }
    requires parts { blank.parts ≡ K.parts }
    requires some { blank.parts ≡ 1 }
{
    let below: Over<Cut, K> = Over::new(Cut::new(ALL, ending.most, true), blank);
    let mut out = cut_at(below, ending.at);
    let end = machine.run_task(u64::from(steps), &mut out);
    (end, out.into_inner().into_inner().text)
}

/// The tick that the line with a byte of a trace begins with: that of the line before for the stop line.
fn tick_at(trace: &str, byte: usize) -> Option<u64> {
    let mut tick = None;
    let mut begin: usize = 0;
    'lines: for line in trace.lines() {
        if begin > byte {
            break;
        }
        tick = word(line, 0).parse::<u64>().ok().or(tick);
        begin = begin.saturating_add(line.len()).saturating_add(1);
    }
    tick
}

/// A run whose writer is cut after each byte of its trace.
#[derive(Clone, Copy)]
struct WrittenRun {
    name: &'static str,
    /// The ticks at which line 0 is pulsed.
    pulses: &'static [u64],
    /// What is placed before the steps.
    places: &'static str,
    steps: Steps,
    trace: &'static str,
}

/// Runs whose traces have a line of each kind. Handlers are at 200; STR R1, [R0] is 6001, STR R0, [R1] and STR R0, [R2]
/// are 6008 and 6010, LDREX R1, [R0] is E850 1F00, STREX R2, R1, [R0] is E840 1200, and BX LR is 4770.
static RUNS: [WrittenRun; 5] = [
    WrittenRun {
        name: "a breakpoint after one instruction",
        pulses: &[],
        places: "\
word 8 BE002005
reg D 20001000
reg F 8
reg E FFFFFFFF
reg 0 0",
        steps: Steps {
            most: 10,
            selection: TraceSelection::All,
        },
        trace: "\
1 F 00000008 2 p ok off
2 F 0000000A 2 p ok off
stop breakpoint 0
",
    },
    WrittenRun {
        name: "a word stored to OUT sends its low byte to the console",
        pulses: &[],
        places: "\
word 100 6001
reg F 100
reg 0 40000000
reg 1 12345607",
        steps: Steps {
            most: 1,
            selection: TraceSelection::All,
        },
        trace: "\
1 F 00000100 2 p ok off
1 S 40000000 4 p ok off
1 O 07
stop steps
",
    },
    WrittenRun {
        name: "a refused byte of an unaligned store is a MemManage fault at its address",
        pulses: &[],
        places: "\
word 10 201
special 8 20001000
reg F 100
word 100 6001
word E000ED9C 20000010
word E000EDA0 03008013
word E000ED9C 00000011
word E000EDA0 06000017
word E000ED24 00010000
word E000ED94 1
reg 0 2000037E
reg 1 11223344
special 14 1",
        steps: Steps {
            most: 1,
            selection: TraceSelection::All,
        },
        trace: "\
1 F 00000100 2 u ok r1
1 S 2000037E 1 u ok r0
1 S 2000037F 1 u ok r0
1 S 20000380 1 u mpu none
1 ! 4 00000082 00000000
stop steps
",
    },
    WrittenRun {
        name: "a load exclusive in a handler marks nothing for the code that is returned to",
        pulses: &[1],
        places: "\
word 40 201
special 8 20001000
reg F 100
word 100 1200E840
word 200 1F00E850
word 204 4770
word E000E100 1
reg 0 20000000",
        steps: Steps {
            most: 5,
            selection: TraceSelection::All,
        },
        trace: "\
1 K 20000FE0 4 p ok off
1 K 20000FE4 4 p ok off
1 K 20000FE8 4 p ok off
1 K 20000FEC 4 p ok off
1 K 20000FF0 4 p ok off
1 K 20000FF4 4 p ok off
1 K 20000FF8 4 p ok off
1 K 20000FFC 4 p ok off
2 V 00000040 4 p ok vec
2 X 16
3 F 00000200 2 p ok off
3 F 00000202 2 p ok off
3 L 20000000 4 p ok off
4 F 00000204 2 p ok off
4 R FFFFFFF9
4 U 20000FE0 4 p ok off
4 U 20000FE4 4 p ok off
4 U 20000FE8 4 p ok off
4 U 20000FEC 4 p ok off
4 U 20000FF0 4 p ok off
4 U 20000FF4 4 p ok off
4 U 20000FF8 4 p ok off
4 U 20000FFC 4 p ok off
5 F 00000100 2 p ok off
5 F 00000102 2 p ok off
5 P 20000000 4 p ok off
stop steps
",
    },
    WrittenRun {
        name: "a store that the bus refuses, after one to OUT",
        pulses: &[],
        places: "\
word 14 201
special 8 20001000
reg F 100
word 100 60106008
word E000ED24 00020000
reg 0 41
reg 1 40000000
reg 2 100",
        steps: Steps {
            most: 4,
            selection: TraceSelection::Faults,
        },
        trace: "\
2 F 00000102 2 p ok off
2 S 00000100 4 p bus off
2 ! 5 00008200 00000000
4 X 5
stop steps
",
    },
];

impl WrittenRun {
    /// Returns whether a machine's run is cut after each byte of its trace, and takes it whole by single bytes.
    fn is_cut<D: Decider, C: KeptCode, L: Exceptions, U: SysTickState>(
        &self,
        alloc: Global,
    ) -> Option<bool> {
        let mut machine: Machine<D, C, L, U> = pulsed_machine(alloc, self.pulses, self.places)?;
        let single = Ending {
            most: 1,
            at: NOWHERE,
        };
        let whole = run_cut(&mut machine, self.steps, single);
        let mut holds = whole.stop.is_ok() && whole.taken.as_slice() == self.trace.as_bytes();
        'bytes: for left in 0..self.trace.len() {
            'ways: for fails in [true, false] {
                let ending = Ending {
                    most: ALL,
                    at: At { left, fails },
                };
                holds = holds && self.breaks::<D, C, L, U>(alloc, ending)?;
            }
        }
        Some(holds)
    }

    /// Returns whether a run fails at the byte at which its writer is cut, and the machine is broken then.
    fn breaks<D: Decider, C: KeptCode, L: Exceptions, U: SysTickState>(
        &self,
        alloc: Global,
        ending: Ending,
    ) -> Option<bool> {
        let mut machine: Machine<D, C, L, U> = pulsed_machine(alloc, self.pulses, self.places)?;
        let cut = run_cut(&mut machine, self.steps, ending);
        let tick = tick_at(self.trace, ending.at.left)?;
        let again = run_cut(&mut machine, self.steps, ending);
        Some(
            matches!(cut.stop, Err(RunError::Write { steps }) if steps == tick)
                && cut.taken.len() == ending.at.left
                && self.trace.as_bytes().starts_with(cut.taken.as_slice())
                && machine.broken()
                && matches!(again.stop, Err(RunError::Broken))
                && again.taken.is_empty(),
        )
    }
}

#[test]
fn runs_are_cut_at_each_byte(rt: HostRuntime) {
    let alloc = rt.alloc();
    'runs: for run in RUNS.iter() {
        let slow = run.is_cut::<Search, DecodeEachTime, PlainExceptions, EagerSysTick>(alloc);
        assert!(rt; slow == Some(true), "Slow, {}", run.name);
        let fast = run.is_cut::<
            KeptDecisions<LazyTable>,
            BoardDecodeTable,
            KeptPriorities<BitLevels>,
            LazySysTick,
        >(alloc);
        assert!(rt; fast == Some(true), "Fast, {}", run.name);
    }
}
