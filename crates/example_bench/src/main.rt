//! A test bench of a user's own: unprivileged stores near the end of a region, each on a machine of its own,
//! and whether the Memory Protection Unit refuses them as the test wants.
#![tactic(auto)]

use board::{Board, read_board};
use elf::{Image, load};
use machine::{Event, Events, Fast, Place, PlaceError, event_line};
use std::alloc::Global;
use std::io::Write;
use std::{env, fs, io};

// The MPU's registers (ARM DDI 0403, "Protected Memory System Architecture, PMSAv7").
const MPU_CTRL: u32 = 0xE000_ED94;

const MPU_RBAR: u32 = 0xE000_ED9C;

const MPU_RASR: u32 = 0xE000_EDA0;

/// CONTROL, as MSR numbers it.
const CONTROL: u8 = 20;

fn main(rt: HostRuntime) -> io::Result<()> {
    let mut words = env::args(&rt)?;
    let (Some(_), Some(board), Some(image)) = (words.next(), words.next(), words.next()) else {
        return rt.println("usage: example_bench BOARD IMAGE");
    };
    let text = fs::read_to_string(&rt, board.as_str())?;
    let file = fs::read(&rt, image.as_str())?;
    let Ok(board) = read_board(rt.alloc(), text.as_str()) else {
        return rt.println("the board is refused");
    };
    let Ok(image) = load(file.as_slice()) else {
        return rt.println("the image is refused");
    };
    let out = &mut io::writer(&rt);
    test_store(rt.alloc(), &board, &image, 0x2000_0000, false, out)?;
    test_store(rt.alloc(), &board, &image, 0x2000_00FC, false, out)?;
    test_store(rt.alloc(), &board, &image, 0x2000_0100, true, out)
}

/// Carries out a store to an address, writes its lines, and whether it was refused as the test wants.
fn test_store<W: Write>(
    alloc: Global,
    board: &Board,
    image: &Image<'_>,
    address: u32,
    wants_refusal: bool,
    out: &mut W,
) -> io::Result<()> {
    let Ok(mut machine) = Fast::new(alloc, image, board) else {
        return out.write_all(b"the machine doesn't start\n");
    };
    if set_up(&mut machine, address).is_err() {
        return out.write_all(b"a value is refused\n");
    }
    let mut events = Events::new();
    let _ = machine.step(&mut events);
    for event in events.as_slice() {
        out.write_all(event_line(event).as_slice())?;
    }
    if is_refused(events.as_slice()) == wants_refusal {
        out.write_all(b"passed\n")
    } else {
        out.write_all(b"FAILED\n")
    }
}

/// Puts a store into flash, and lets unprivileged code read and fetch from flash and write the first 256
/// bytes of RAM.
fn set_up(machine: &mut Fast, address: u32) -> Result<(), PlaceError> {
    machine.place(Place::Word(0x100, 0xBE00_6001))?; // STR R1, [R0]; BKPT 0
    machine.place(Place::Reg(0, address))?;
    machine.place(Place::Reg(1, 7))?;
    machine.place(Place::Reg(15, 0x100))?;
    machine.place(Place::Word(MPU_RBAR, 0x0000_0010))?; // region 0, from 0 on
    machine.place(Place::Word(MPU_RASR, 0x0600_0017))?; // 4 KiB, AP 110: read-only
    machine.place(Place::Word(MPU_RBAR, 0x2000_0011))?; // region 1, from 0x20000000 on
    machine.place(Place::Word(MPU_RASR, 0x1300_000F))?; // 256 bytes, XN, AP 011: all read and write
    machine.place(Place::Word(MPU_CTRL, 1))?; // ENABLE
    machine.place(Place::Special(CONTROL, 1)) // nPRIV
}

/// Returns whether an access is refused.
fn is_refused(events: &[Event]) -> bool {
    events.iter().any(|event| event.what.is_refused())
}
