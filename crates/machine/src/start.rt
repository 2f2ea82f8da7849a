//! The start of a core (ARM DDI 0403, TakeReset()).

ghost use Rattle.std.specs.Prelude.{◌≡◌, true, map};
ghost use Rattle.std.specs.Result.{result_map_both};
ghost use Rattle.board.specs.Reading.{described};
ghost use Rattle.machine.specs.Starts.{StartsAt};
ghost use Rattle.platform.specs.Boards.{numbers_of};
ghost use Rattle.reference.specs.Start.{start};
ghost use Rattle.platform.specs.Images.{are_placed, is_placed, image_loaded};
ghost use Rattle.platform.specs.Boards.{blank, blank_second};
ghost use Rattle.platform.specs.Memory.{is_in_memory, vector};
ghost use Rattle.elf.specs.Segment.{segment_of};

use crate::stepping::Processor;
use access::{Bus, CodeMemory, Decider, Exceptions, KeptCode, Script, SysTickState, System};
use board::Board;
use devices::Devices;
use elf::{Image, Segment};
use physical_memory::{PhysicalMemory, is_within};
use platform::board::Layout;
use platform::error::StartError;
use platform::map::RAM_BASE;
use regs::Regs;
use std::alloc::Global;

/// Makes the core of a board, with an image in its memory, before the first step. The segments are
/// checked before any memory is allocated.
#[tactic(auto, unfolding(reference::specs::Start::start))]
pub fn start_core<D: Decider, C: KeptCode, L: Exceptions, U: SysTickState>(
    alloc: Global,
    image: &Image<'_>,
    board: &Board,
) -> Result<Box<Processor<D, C, L, U>>, StartError>
    ensures { StartsAt (start (described board.now) image.now) (result_map_both (λ core. core.value) (λ e. e) result) }
{
    if !are_placed(&board.layout, image.segments()) {
        return Err(StartError::SegmentOutsideMemory);
    }
    let Ok(mut physical) = PhysicalMemory::blank(alloc, &board.layout) else {
        return Err(StartError::NoMemory);
    };
    let Ok(script) = Script::new(alloc, board.events.as_slice()) else {
        return Err(StartError::NoMemory);
    };
    let Ok(devices) = Devices::new(alloc, board.devices.as_slice()) else {
        return Err(StartError::NoMemory);
    };
    load_segments(&mut physical, image.segments());
    let base = board.layout.flash_base;
    let regs = Regs::reset(physical.vector(base, 0), physical.vector(base, 1));
    let system = System::reset(
        base,
        board.layout.interrupts,
        board.layout.priority_bits,
        board.layout.regions.number(),
        script,
        devices,
    );
    let Ok(memory) = CodeMemory::new(alloc, physical, image_bytes(image.segments())) else {
        return Err(StartError::NoMemory);
    };
    match Box::new(alloc, Processor::new(regs, Bus::new(memory, system))) {
        Ok(core) => Ok(core),
        Err(_) => Err(StartError::NoMemory),
    }
}

/// Returns how many bytes an image loads, as far as a `usize` holds them: room for instructions is made by it.
fn image_bytes(segments: &[Segment<'_>]) -> usize {
    let mut bytes: usize = 0;
    'segments: for segment in segments {
        bytes = bytes.saturating_add(segment.bytes.len());
    }
    bytes
}

/// Returns whether each segment lies wholly in one block of memory.
fn are_placed(board: &Layout, segments: &[Segment<'_>]) -> bool
    ensures { result ≡ are_placed (blank (numbers_of board.now)) (map segment_of segments.now) }
{
    'segments: for segment in segments {
        if !is_placed(board, segment) {
            return false;
        }
    }
    true
}

/// Returns whether a segment lies wholly in one block of memory.
fn is_placed(board: &Layout, segment: &Segment<'_>) -> bool
    ensures { result ≡ is_placed (blank (numbers_of board.now)) (segment_of segment.now) }
{
    let length = segment.bytes.len();
    is_within(
        board.flash_base,
        board.flash_size as usize,
        segment.address,
        length,
    ) || is_within(RAM_BASE, board.ram_size as usize, segment.address, length)
        || is_in_second(board, segment.address, length)
}

/// Returns whether `length` bytes from `address` on lie wholly in the second RAM of a board.
#[tactic(auto, using(physical_memory::proofs::Places::ends_low))]
fn is_in_second(board: &Layout, address: u32, length: usize) -> bool
    ensures { result ≡ is_in_memory (blank_second (numbers_of board.now).second_ram) address length }
{
    match &board.second_ram {
        Some(second) => is_within(second.base, second.size as usize, address, length),
        None => false,
    }
}

/// Puts the segments into memory, in their order.
fn load_segments(memory: &mut PhysicalMemory, segments: &[Segment<'_>])
    ensures { memory.new ≡ image_loaded memory.old (map segment_of segments.now) }
{
    'segments: for segment in segments {
        memory.overwrite(segment.address, segment.bytes);
    }
}
