//! Machines as they start.

use super::machines::NO_SEGMENTS;
use elf::load;
use machine::{Board, Layout, RegionCount, Slow};
use std::alloc::Global;
use std::test::*;

/// Flash that begins at 0x10000, and RAM of 1 KiB.
const HIGH_FLASH: Layout = Layout {
    flash_base: 0x1_0000,
    flash_size: 1024,
    ram_size: 1024,
    second_ram: None,
    priority_bits: 3,
    interrupts: 0,
    regions: RegionCount::Eight,
};

/// An address, the byte there if there is one, and what it is.
const BYTES: [(u32, Option<u8>, &str); 6] = [
    (0xFFFF, None, "below flash"),
    (0x1_0000, Some(0xFF), "the first byte of flash"),
    (0x1_03FF, Some(0xFF), "the last byte of flash"),
    (0x1_0400, None, "after flash"),
    (0x2000_03FF, Some(0), "the last byte of RAM"),
    (0x2000_0400, None, "after RAM"),
];

/// A machine with flash that begins at 0x10000.
fn high_machine(alloc: Global) -> Option<Slow> {
    let image = load(&NO_SEGMENTS).ok()?;
    let board = Board {
        layout: HIGH_FLASH,
        events: Vec::new(alloc),
        devices: Vec::new(alloc),
    };
    Slow::new(alloc, &image, &board).ok()
}

#[test]
fn flash_and_ram_are_those_of_the_board(rt: HostRuntime) -> Result<(), Fail> {
    let machine = high_machine(rt.alloc()).ok_or("a machine")?;
    'bytes: for (address, byte, name) in BYTES.iter() {
        assert!(rt; machine.byte(*address) == *byte, "{name}");
    }
    Ok(())
}
