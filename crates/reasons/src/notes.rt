//! What a person may want to know of a run that was made: lines of their own, after the run.

use crate::start::write_second_ram;
use elf::{Image, Segment, load};
use platform::board::Layout;
use platform::exception::FIRST_INTERRUPT;
use platform::map::RAM_BASE;
use platform::script::{ScriptedEvent, Signal};
use platform::stop::Stop;
use std::io;
use std::io::Write;

/// The number of the BKPT of a semihosting call in Thumb code (Arm, "Semihosting for AArch32 and AArch64").
const SEMIHOSTING: u8 = 0xAB;

/// Writes a line for each of these: the run ended at a semihosting call, the stack pointer at the start isn't in a RAM,
/// and the script pends an interrupt whose vector isn't in the image.
pub fn write_notes<W: Write>(
    out: &mut W,
    file: &[u8],
    layout: &Layout,
    events: &[ScriptedEvent],
    stop: Stop,
) -> io::Result<()> {
    write_semihosting(out, stop)?;
    let Ok(image) = load(file) else {
        return Ok(());
    };
    write_stack_pointer(out, &image, layout)?;
    write_vector(out, &image, layout, events)
}

/// Writes that a semihosting call isn't served, where the run ended at one.
fn write_semihosting<W: Write>(out: &mut W, stop: Stop) -> io::Result<()> {
    match stop {
        Stop::Breakpoint(SEMIHOSTING) => writeln!(
            out,
            "marm: note: breakpoint {SEMIHOSTING} is a semihosting call, which marm doesn't serve"
        ),
        Stop::Breakpoint(_)
        | Stop::StepLimit
        | Stop::Lockup
        | Stop::Unpredictable(_)
        | Stop::OutOfProfile(_)
        | Stop::ResetRequested => Ok(()),
    }
}

/// Writes where the stack pointer is at the start (B1.5.5), if that is neither in a RAM nor at its end.
fn write_stack_pointer<W: Write>(
    out: &mut W,
    image: &Image<'_>,
    layout: &Layout,
) -> io::Result<()> {
    let (base, size) = (layout.flash_base, layout.ram_size);
    let pointer = word_of(image, base).unwrap_or(u32::MAX);
    if pointer.wrapping_sub(RAM_BASE) <= size || is_in_second(pointer, layout) {
        return Ok(());
    }
    write!(
        out,
        "marm: note: SP is {pointer:08X} at the start (the word at {base:08X}), and the board has {size} bytes of RAM \
         at {RAM_BASE:08X}"
    )?;
    write_second_ram(out, layout)?;
    writeln!(out)
}

/// Returns whether an address is in the second RAM, where the board has one, or at its end.
fn is_in_second(address: u32, layout: &Layout) -> bool {
    match layout.second_ram {
        Some(second) => address.wrapping_sub(second.base) <= second.size,
        None => false,
    }
}

/// Writes the first interrupt that the script pends and whose vector isn't in the image, if there is one.
fn write_vector<W: Write>(
    out: &mut W,
    image: &Image<'_>,
    layout: &Layout,
    events: &[ScriptedEvent],
) -> io::Result<()> {
    match events
        .iter()
        .find_map(|event| missing_vector(image, layout, event))
    {
        Some(missing) => {
            let MissingVector { line, address } = missing;
            writeln!(
                out,
                "marm: note: the script pends interrupt {line}, and the image has no vector for it at {address:08X}"
            )
        }
        None => Ok(()),
    }
}

/// The vector of an interrupt that an image doesn't have.
#[derive(Clone, Copy)]
struct MissingVector {
    line: u8,
    address: u32,
}

/// Returns the vector of the interrupt that an event pends, if it isn't in the image.
fn missing_vector(
    image: &Image<'_>,
    layout: &Layout,
    event: &ScriptedEvent,
) -> Option<MissingVector> {
    let line = match event.what {
        Signal::Rise(line) | Signal::Pulse(line) => line.number(),
        Signal::Fall(_) | Signal::Nmi | Signal::Poke(_) => return None,
    };
    let number = u32::from(FIRST_INTERRUPT) + u32::from(line);
    let address = layout.flash_base.wrapping_add(4 * number);
    match word_of(image, address) {
        Some(_) => None,
        None => Some(MissingVector { line, address }),
    }
}

/// Returns the word at an address, the lowest byte first, where the image has all of it.
fn word_of(image: &Image<'_>, address: u32) -> Option<u32> {
    let bytes = [
        byte_of(image, address)?,
        byte_of(image, address.wrapping_add(1))?,
        byte_of(image, address.wrapping_add(2))?,
        byte_of(image, address.wrapping_add(3))?,
    ];
    Some(u32::from_le_bytes(bytes))
}

/// Returns the byte at an address, where the image has it.
fn byte_of(image: &Image<'_>, address: u32) -> Option<u8> {
    image
        .segments()
        .iter()
        .find_map(|segment| byte_in(segment, address))
}

/// Returns the byte of a segment at an address, where the segment has it.
fn byte_in(segment: &Segment<'_>, address: u32) -> Option<u8> {
    let place = address.wrapping_sub(segment.address) as usize;
    segment.bytes.get(place).copied()
}
