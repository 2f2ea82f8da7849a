//! Registers of the MPU that rows call by a name.

use mpu::{MpuRegs, mpu_register_at};
use test_tables::{byte_at, number_at, pair, part, row_of};

/// The name; how many regions there are, MPU_CTRL, and RBAR and RASR of each region that is set; what
/// the registers say.
const SETTINGS: &str = "\
blank | 8 0 | after a reset
task | 8 1 20000010:03008013 00000011:06000017 | 1 KiB of RAM for all but its last eighth, 4 KiB of flash to read
whole | 8 1 00000017:0300003F | 4 GiB for all, as region 7
smallest | 8 1 20000050:03000009 | 32 bytes for all
one-above | 8 1 20000010:05000013 20000111:0300010F | 1 KiB for privileged code to read; in it 256 bytes for all
one-alone | 8 1 20000111:0300010F | the 256 bytes alone, whose first eighth is switched off
uneven | 8 1 20000230:03000013 | a base with bits below the size of its region, which is 1 KiB
background | 8 5 20000010:03000013 | 1 KiB for all, and the default map under it for privileged code
disabled | 8 1 20000010:03000012 | a region that isn't enabled
below-zero | 8 3 20000010:03000013 | the MPU is on, and below priority 0 too
off | 8 0 20000010:00000013 | the MPU is off
sixteen | 10 1 20000012:03000013 20000019:01000013 | region 9, for privileged code, above region 2, for all";

/// A write to the register at an address, which has to be taken.
fn write(registers: &mut MpuRegs, address: u32, value: u32) -> Option<()> {
    registers.write_reg(mpu_register_at(address)?, value).ok()
}

/// The words of a part are written: an address and the value each.
pub fn write_pairs(registers: &mut MpuRegs, pairs: &str) -> Option<()> {
    for word in pairs.split_whitespace() {
        let (address, value) = pair(word)?;
        write(registers, address, value)?;
    }
    Some(())
}

/// RBAR and RASR of each region are written.
fn write_regions(registers: &mut MpuRegs, regions: &str) -> Option<()> {
    for word in regions.split_whitespace().skip(2) {
        let (base, attributes) = pair(word)?;
        write(registers, 0xE000_ED9C, base)?;
        write(registers, 0xE000_EDA0, attributes)?;
    }
    Some(())
}

/// The registers after a reset, with 8 or 16 regions.
fn fresh(count: u8) -> Option<MpuRegs> {
    match count {
        8 => Some(MpuRegs::new(8)),
        16 => Some(MpuRegs::new(16)),
        _ => None,
    }
}

/// The registers of a part: how many regions there are, MPU_CTRL, and RBAR and RASR of each region.
pub fn registers_of(part: &str) -> Option<MpuRegs> {
    let mut registers = fresh(byte_at(part, 0)?)?;
    write_regions(&mut registers, part)?;
    write(&mut registers, 0xE000_ED94, number_at(part, 1)?)?;
    Some(registers)
}

/// The registers of this name.
pub fn setting(name: &str) -> Option<MpuRegs> {
    registers_of(part(row_of(SETTINGS, name)?, 1))
}
