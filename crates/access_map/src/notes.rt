//! What a careful reader says of the regions of a world.

ghost use Rattle.std.specs.Prelude.{◌≡◌, ◌<◌, ◌++◌, IfOk, OnOk};
ghost use Rattle.access_map.specs.Notes.{is_misaligned, misaligned_line, misaligned_text, notes_below, region_note};

use crate::lines::{Line, put_spaced};
use crate::world::World;
use mpu::{MpuRegs, Region, is_region_enabled, size, uses_regions};
use std::alloc::{AllocError, Global};

/// Returns the lines of the misaligned regions of world `number`: none where the regions don't decide.
pub fn misaligned_text(alloc: Global, number: u8, world: &World) -> Result<Vec<u8>, AllocError>
    ensures { IfOk result (λ text. text.items ≡ misaligned_text number world.now) }
{
    if uses_regions(world.registers.control(), world.below_zero) {
        notes_of(alloc, number, &world.registers)
    } else {
        Ok(Vec::new(alloc))
    }
}

/// Returns the lines of the misaligned regions of an MPU.
fn notes_of(alloc: Global, number: u8, registers: &MpuRegs) -> Result<Vec<u8>, AllocError>
    ensures { IfOk result (λ text. text.items ≡ notes_below number registers.now registers.now.count) }
{
    let mut text = Vec::new(alloc);
    'each: for region in 0..registers.count() {
        put_note(&mut text, number, region, registers.at(region))?;
    }
    Ok(text)
}

/// Appends the line of a region, if it is misaligned.
fn put_note(text: &mut Vec<u8>, number: u8, region: u8, registers: Region) -> Result<(), AllocError>
    ensures { OnOk result (text.new.items ≡ text.old.items ++ region_note number region registers) }
{
    if is_misaligned(registers) {
        text.extend_from_slice(misaligned_line(number, region, registers.base).as_slice())?;
    }
    Ok(())
}

/// Returns whether a region is on, and its base has a bit below its size.
fn is_misaligned(region: Region) -> bool
    ensures { result ≡ is_misaligned region }
{
    let bytes = 1u64 << (size(region.attributes) + 1);
    is_region_enabled(region.attributes) && u64::from(region.base) % bytes != 0
}

/// Returns the line of a misaligned region.
#[tactic(auto, unfolding(crate::specs::Notes::misaligned_line))]
fn misaligned_line(number: u8, region: u8, base: u32) -> Line
    ensures { result ≡ misaligned_line number region base }
{
    let mut line = Line::new();
    line.put(b"misaligned ");
    line.put_decimal(u64::from(number));
    line.put(b" r");
    line.put_decimal(u64::from(region));
    put_spaced(&mut line, base);
    line.put(b"\n");
    line
}
