//! Steps of small worlds, and when two worlds are one. The three tasks are those of the kernel `round_robin`. All values
//! were worked out by hand.

use super::worlds::{BLOCK, CODE, MAILBOX, Region, Setting, on, world, write};
use access_map::{MAX_WORLDS, World, Worlds, others_line, world_line};
use mpu::{MpuRegister, MpuRegs};
use std::test::Fail;

/// Returns the world of a setting of eight regions.
fn world_of(setting: &Setting<'_>) -> Result<World, Fail> {
    world(MpuRegs::new(8), setting)
}

/// The regions of the tasks a, b and c.
const TASK_A: [Region; 2] = [(0x100, CODE), (0x2000_0000, BLOCK)];

const TASK_B: [Region; 2] = [(0x200, CODE), (0x2000_0200, BLOCK)];

const TASK_C: [Region; 2] = [(0x300, CODE), (0x2000_0400, BLOCK)];

/// The steps of three worlds: the regions of the task, the tick, and the PC.
const STEPS: [(&[Region], u64, u32); 6] = [
    (&TASK_A, 354, 0x100),
    (&TASK_A, 355, 0x128),
    (&TASK_B, 911, 0x200),
    (&TASK_C, 1041, 0x300),
    (&TASK_A, 1500, 0x104),
    (&TASK_B, 1800, 0x1FE),
];

/// Their lines, with the name of the first.
const WORLD_LINES: [(&str, &str); 3] = [
    (
        "task_a",
        "world 1 steps 3 tick 354 pc 00000100 code 00000100 00000128 task_a\n",
    ),
    (
        "",
        "world 2 steps 2 tick 911 pc 00000200 code 000001FE 00000200\n",
    ),
    (
        "",
        "world 3 steps 1 tick 1041 pc 00000300 code 00000300 00000300\n",
    ),
];

#[test]
fn worlds_are_numbered_by_their_first_steps(rt: HostRuntime) -> Result<(), Fail> {
    let mut worlds = Worlds::new(rt.alloc())?;
    'steps: for (regions, tick, pc) in &STEPS {
        worlds.count(&world_of(&on(regions))?, *tick, *pc);
    }
    assert_eq!(rt; worlds.rows().len(), WORLD_LINES.len());
    assert_eq!(rt; worlds.others(), 0);
    let mut number = 0_u8;
    'lines: for (row, (name, expected)) in worlds.rows().iter().zip(&WORLD_LINES) {
        number = number.saturating_add(1);
        let text = world_line(rt.alloc(), number, row, name.as_bytes())?;
        assert_eq!(rt; text.as_slice(), expected.as_bytes());
    }
    Ok(())
}

#[test]
fn further_worlds_are_counted_together(rt: HostRuntime) -> Result<(), Fail> {
    let mut worlds = Worlds::new(rt.alloc())?;
    'worlds: for number in 0..66_u32 {
        let other = world_of(&on(&[(0x2000_0000 + 32 * number, MAILBOX)]))?;
        worlds.count(&other, 1, 0x100);
        worlds.count(&other, 2, 0x102);
    }
    assert_eq!(rt; worlds.rows().len(), MAX_WORLDS);
    assert!(rt; worlds.rows().iter().all(|row| row.steps == 2));
    assert_eq!(rt;
        others_line(worlds.others()).as_slice(),
        b"others 4\n".as_slice()
    );
    Ok(())
}

#[test]
fn a_world_is_what_the_regions_say(rt: HostRuntime) -> Result<(), Fail> {
    let one = world_of(&on(&TASK_A))?;
    let mut other = one;
    write(&mut other.registers, MpuRegister::Number, 3)?;
    assert!(rt; one.is_same(&other), "what RNR selects");
    other.below_zero = true;
    assert!(rt; !one.is_same(&other), "the rule neg");
    let off = world_of(&Setting {
        control: 0,
        below_zero: false,
        regions: &TASK_A,
    })?;
    let mut below = off;
    below.below_zero = true;
    assert!(rt; off.is_same(&below), "the MPU is off");
    assert!(rt; !one.is_same(&off), "ENABLE");
    Ok(())
}
