//! `Slow` and `Fast` beside each other: arbitrary code, regions, priorities, SysTick and scripts.

ghost use Rattle.std.specs.Prelude.{◌<◌};

use super::machines::NO_SEGMENTS;
use super::writers::run_gathered;
use elf::load;
use machine::{
    Board, Decider, Exceptions, Fast, InterruptNumber, KeptCode, Machine, Place, SMALL_BOARD,
    ScriptedEvent, Signal, Slow, SysTickState,
};
use std::alloc::{AllocError, Global};
use std::test::*;

/// How many images there are.
const IMAGES: u32 = 200;

/// The most steps of each.
const STEPS: u64 = 2000;

/// The bytes that all traces have at least.
const MIN_BYTES: usize = 500_000;

/// Arbitrary numbers: Marsaglia's xorshift of 32 bits.
#[derive(Drop)]
struct Numbers {
    state: u32,
}

impl Numbers {
    /// The numbers from a seed on, which isn't 0.
    fn new(seed: u32) -> Self {
        Numbers {
            state: seed.wrapping_mul(0x9E37_79B9) | 1,
        }
    }

    fn next(&mut self) -> u32 {
        self.state ^= self.state << 13;
        self.state ^= self.state >> 17;
        self.state ^= self.state << 5;
        self.state
    }

    /// A number below `limit`.
    fn below(&mut self, limit: u32) -> u32
        requires { 0 < limit }
        ensures { result < limit }
    {
        (self.next() >> 8) % limit
    }
}

/// An event on one of the eight lines, or an NMI.
fn signal(numbers: &mut Numbers) -> Signal {
    let line = InterruptNumber::new(numbers.below(8) as u8);
    match numbers.below(8) {
        0 => Signal::Nmi,
        1 | 2 => Signal::Rise(line),
        3 | 4 => Signal::Fall(line),
        _ => Signal::Pulse(line),
    }
}

/// The small board with up to 40 events.
fn board_of(alloc: Global, numbers: &mut Numbers) -> Result<Board, AllocError> {
    let mut events = Vec::new(alloc);
    let mut at: u64 = 0;
    for _ in 0..numbers.below(40) {
        at = at.wrapping_add(1 + u64::from(numbers.below(60)));
        events.push(ScriptedEvent {
            at,
            what: signal(numbers),
        })?;
    }
    Ok(Board {
        layout: SMALL_BOARD,
        events,
        devices: Vec::new(alloc),
    })
}

/// Halfwords that load, store, raise exceptions and return from them.
const FREQUENT: [u32; 32] = [
    0x6800, 0x6001, 0x680A, 0x6053, 0x9001, 0x9902, 0xB40F, 0xBC0F, 0xB510, 0xBD10, 0xC10C, 0xC90C,
    0xDF01, 0xDE00, 0x4770, 0x4780, 0xB662, 0xB672, 0xBF30, 0xBF08, 0xE850, 0x1F00, 0xE840, 0x1200,
    0xF3EF, 0x8109, 0xF380, 0x8811, 0xFBB0, 0xF1F2, 0xE7FE, 0xE7F0,
];

/// A halfword of code: of the frequent ones, or any.
fn halfword(numbers: &mut Numbers) -> u32 {
    if numbers.below(8) != 0 {
        FREQUENT[numbers.below(32) as usize]
    } else {
        numbers.next() >> 16
    }
}

/// An address of RAM, of a system register, or any.
fn address(numbers: &mut Numbers) -> u32 {
    match numbers.below(4) {
        0 => numbers.next(),
        1 => 0xE000_E000 | numbers.below(0x400) << 2,
        _ => 0x2000_0000 | numbers.below(0x400) << 2,
    }
}

/// System registers, and the bits of each that are arbitrary.
const SETTINGS: [(u32, u32, u32); 14] = [
    (0xE000_E100, 0xFF, 0),
    (0xE000_E400, 0xFFFF_FFFF, 0),
    (0xE000_E404, 0xFFFF_FFFF, 0),
    (0xE000_ED18, 0xFFFF_FFFF, 0),
    (0xE000_ED1C, 0xFFFF_FFFF, 0),
    (0xE000_ED20, 0xFFFF_FFFF, 0),
    (0xE000_ED24, 0x7_0000, 0),
    (0xE000_ED14, 0x18, 0x200),
    (0xE000_E014, 0x7F, 0),
    (0xE000_E010, 7, 0),
    (0xE000_ED9C, 0x0FE0, 0x2000_0010),
    (0xE000_EDA0, 0x1307_FF1E, 1),
    (0xE000_ED9C, 0, 0x11),
    (0xE000_EDA0, 0x0007_0000, 0x0200_0017),
];

/// Places code, vectors into it, values in registers, and settings. A place that is refused stays.
fn fill<D: Decider, C: KeptCode, L: Exceptions, U: SysTickState>(
    machine: &mut Machine<D, C, L, U>,
    numbers: &mut Numbers,
) {
    for word in 2..1024_u32 {
        let code = halfword(numbers) << 16 | halfword(numbers);
        let vector = numbers.next() & 0xFFE | 1;
        let value = if word < 24 { vector } else { code };
        let _ = machine.place(Place::Word(4 * word, value));
    }
    for register in 0..13_u8 {
        let _ = machine.place(Place::Reg(register, address(numbers)));
    }
    for (register, bits, fixed) in SETTINGS.iter() {
        let value = numbers.next() & *bits | *fixed;
        let _ = machine.place(Place::Word(*register, value));
    }
    let _ = machine.place(Place::Word(0xE000_ED94, numbers.below(8) | 1));
    let _ = machine.place(Place::Special(8, 0x2000_1000));
    let _ = machine.place(Place::Special(9, 0x2000_1800));
    let _ = machine.place(Place::Reg(15, 0x100 + 2 * numbers.below(0x100)));
    let _ = machine.place(Place::Special(20, numbers.below(4)));
}

/// The trace of a machine over the image and the board of a seed.
fn trace<D: Decider, C: KeptCode, L: Exceptions, U: SysTickState>(
    machine: &mut Machine<D, C, L, U>,
    alloc: Global,
    seed: u32,
) -> Vec<u8> {
    fill(machine, &mut Numbers::new(seed));
    let (_, _, out) = run_gathered(machine, STEPS, Vec::new(alloc));
    out
}

/// The traces of both machines over the image and the board of a seed.
fn both(alloc: Global, seed: u32) -> Option<(Vec<u8>, Vec<u8>)> {
    let image = load(&NO_SEGMENTS).ok()?;
    let board = board_of(alloc, &mut Numbers::new(!seed)).ok()?;
    let mut slow = Slow::new(alloc, &image, &board).ok()?;
    let mut fast = Fast::new(alloc, &image, &board).ok()?;
    Some((trace(&mut slow, alloc, seed), trace(&mut fast, alloc, seed)))
}

#[test]
fn both_machines_write_the_same(rt: HostRuntime) -> Result<(), Fail> {
    let mut bytes: usize = 0;
    for seed in 1..=IMAGES {
        let (slow, fast) = both(rt.alloc(), seed).ok_or("two machines")?;
        assert!(rt; slow.as_slice() == fast.as_slice(), "seed {seed}");
        bytes = bytes.saturating_add(slow.len());
    }
    assert!(rt; bytes > MIN_BYTES, "{bytes} bytes");
    Ok(())
}
