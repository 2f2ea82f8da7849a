//! Both machines and the worlds of a run.

use super::cut::Text;
use super::machines::machine_with;
use access_map::{Worlds, world_line};
use machine::{Decider, Exceptions, Fast, KeptCode, Machine, Slow, SysTickState};
use std::alloc::Global;
use std::test::*;
use survey_run::{WorldCount, world_run};

/// Code whose two worlds share 32 bytes, by the words of its data and of its code: it sets region 1 for all of flash,
/// region 2 for a stack of 256 bytes, region 0 for 32 bytes of RAM, and then MPU_CTRL and CONTROL.nPRIV:
///
///     MOVS R7, #0x60; LDM R7!, {R0-R6}; STM R0!, {R1-R6}; LDM R7!, {R0-R3}; STR R1, [R0]; MOVS R4, #1; MSR CONTROL, R4
///     NOP; SVC #0; NOP; BKPT #0
///
/// The handler of SVC gives region 0 another setting, RBAR from R2 and RASR from R3.
const SHARING: &str = "\
word 2C 201
word 60 E000ED9C
word 64 11
word 68 6000017
word 6C 20000F12
word 70 1300000F
word 74 20000010
word 78 13000009
word 7C E000ED94
word 80 5
word 84 20000010
word 88 1300000B
word 100 CF7F2760
word 104 CF0FC07E
word 108 24016001
word 10C 8814F384
word 110 DF00BF00
word 114 BE00BF00
word 200 60C36082
word 204 FFFF4770
reg D 20001000
reg E FFFFFFFF
reg F 100";

/// The lines of its worlds.
const LINES: &str = "\
world 1 steps 2 tick 8 pc 00000110 code 00000110 00000112
world 2 steps 2 tick 15 pc 00000114 code 00000114 00000116
";

/// Returns the lines of the worlds of a run of 20 steps.
fn lines_of<D: Decider, C: KeptCode, L: Exceptions, U: SysTickState>(
    alloc: Global,
    machine: &mut Machine<D, C, L, U>,
) -> Option<Text> {
    let mut count = WorldCount::new(Worlds::new(alloc).ok()?);
    let _ = world_run(machine, 20, &mut count);
    let mut text = Text::new();
    let mut number = 0_u8;
    'rows: for row in count.worlds().rows() {
        number = number.checked_add(1)?;
        let line = world_line(alloc, number, row, b"").ok()?;
        text.try_extend_from_slice(line.as_slice()).ok()?;
    }
    Some(text)
}

#[test]
fn both_machines_count_the_same_worlds(rt: HostRuntime) -> Result<(), Fail> {
    let mut slow: Slow = machine_with(rt.alloc(), SHARING).ok_or("slow")?;
    let mut fast: Fast = machine_with(rt.alloc(), SHARING).ok_or("fast")?;
    let lines = lines_of(rt.alloc(), &mut slow).ok_or("slow")?;
    assert!(rt; lines.as_slice() == LINES.as_bytes());
    let lines = lines_of(rt.alloc(), &mut fast).ok_or("fast")?;
    assert!(rt; lines.as_slice() == LINES.as_bytes());
    Ok(())
}
