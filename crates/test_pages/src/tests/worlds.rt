//! Worlds of a few regions on a small board, for the maps of worlds and for their part of a page.

use access_map::World;
use mpu::{MpuRegister, MpuRegs};
use platform::board::Layout;
use platform::mpu::RegionCount;
use std::test::Fail;

/// The board of the kernels `round_robin` and `mailbox`.
pub(super) const BOARD: Layout = Layout {
    flash_base: 0,
    flash_size: 0x4000,
    ram_size: 0x2000,
    second_ram: None,
    priority_bits: 4,
    interrupts: 0,
    regions: RegionCount::Eight,
};

/// MPU_CTRL: ENABLE and PRIVDEFENA.
pub(super) const ON: u32 = 5;

/// RASR of a region of 256 bytes that may be read and executed.
pub(super) const CODE: u32 = 6 << 24 | 7 << 1 | 1;

/// RASR of a region of 512 bytes that may be read and written.
pub(super) const BLOCK: u32 = 1 << 28 | 3 << 24 | 8 << 1 | 1;

/// RASR of a region of 32 bytes that may be read and written.
pub(super) const MAILBOX: u32 = 1 << 28 | 3 << 24 | 4 << 1 | 1;

/// RASR of a region of 32 bytes that may only be read.
pub(super) const NOTICE: u32 = 1 << 28 | 6 << 24 | 4 << 1 | 1;

/// RASR of a region of 2^32 bytes that may be read and written.
pub(super) const EVERYWHERE: u32 = 1 << 28 | 3 << 24 | 31 << 1 | 1;

/// A base and a RASR.
pub(super) type Region = (u32, u32);

/// A setting of the MPU, with regions numbered from 0.
#[derive(Clone, Copy)]
pub(super) struct Setting<'a> {
    pub(super) control: u32,
    pub(super) below_zero: bool,
    pub(super) regions: &'a [Region],
}

/// Returns a setting with the MPU on, while the execution priority isn't below 0.
pub(super) fn on(regions: &[Region]) -> Setting<'_> {
    Setting {
        control: ON,
        below_zero: false,
        regions,
    }
}

/// Returns the world of a setting, of registers as they are after a reset.
pub(super) fn world(reset: MpuRegs, setting: &Setting<'_>) -> Result<World, Fail> {
    let mut registers = reset;
    'regions: for (number, (base, attributes)) in setting.regions.iter().enumerate() {
        let number = u32::try_from(number).ok().ok_or("number")?;
        write(&mut registers, MpuRegister::Number, number)?;
        write(&mut registers, MpuRegister::Base, *base)?;
        write(&mut registers, MpuRegister::Attributes, *attributes)?;
    }
    write(&mut registers, MpuRegister::Control, setting.control)?;
    Ok(World {
        registers,
        below_zero: setting.below_zero,
    })
}

/// Writes a register of the MPU.
pub(super) fn write(
    registers: &mut MpuRegs,
    register: MpuRegister,
    value: u32,
) -> Result<(), Fail> {
    match registers.write_reg(register, value) {
        Ok(()) => Ok(()),
        Err(_) => Err(Fail::new("a register that is written")),
    }
}
