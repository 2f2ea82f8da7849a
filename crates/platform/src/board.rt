//! The numbers of a board, without its script.

ghost use Rattle.std.specs.Prelude.{◌≡◌, ◌+◌, ◌%◌, ◌≤◌, ◌&&◌, true, option_map, unwrap_or};
ghost use Rattle.platform.specs.declared.exception.TheConstants.{MAX_INTERRUPTS};
ghost use Rattle.platform.specs.Map.{are_apart, is_for_memory, ram_base};

use crate::mpu::RegionCount;

/// A second RAM of a board, beside the one at 0x20000000 (profile).
#[derive(Clone, Copy)]
pub struct SecondRam {
    /// The address of its first byte, a multiple of 1,024. It ends at 0x40000000 or below, or is between 0x60000000 and
    /// 0xA0000000.
    pub base: u32,
    /// Its bytes, a multiple of 1,024 from 1,024 to 16,777,216.
    pub size: u32,

    pub ghost base_is_whole: { base % 1024 ≡ 0 },
    pub ghost size_is_whole: { size % 1024 ≡ 0 },
    pub ghost is_there: { 1024 ≤ size },
    pub ghost is_small: { size ≤ 0x100_0000 },
    pub ghost is_for_memory: { is_for_memory base size ≡ true },
}

/// The sizes and numbers that differ from one board to the next (profile).
#[derive(Clone, Copy)]
pub struct Layout {
    /// The address of the first byte of flash, a multiple of 1,024. After a reset the vector table is there.
    pub flash_base: u32,
    /// The bytes of flash, a multiple of 1,024 from 1,024 to 1,048,576.
    pub flash_size: u32,
    /// The bytes of RAM, which begins at 0x20000000, a multiple of 1,024 from 1,024 to 1,048,576.
    pub ram_size: u32,
    /// The second RAM, if the board has one. It has no byte of flash and none of RAM.
    pub second_ram: Option<SecondRam>,
    /// How many of the top bits of a priority byte are kept, 3 to 8.
    pub priority_bits: u8,
    /// How many external interrupts there are, 0 to 240.
    pub interrupts: u8,
    /// How many regions the MPU has.
    pub regions: RegionCount,

    // Flash ends where RAM begins, or before.
    pub ghost apart: { flash_base + flash_size ≤ ram_base },
    // Flash and RAM have from 1,024 bytes to a mebibyte, in blocks of 1,024.
    pub ghost base_is_whole: { flash_base % 1024 ≡ 0 },
    pub ghost flash_is_whole: { flash_size % 1024 ≡ 0 },
    pub ghost flash_is_there: { 1024 ≤ flash_size },
    pub ghost flash_is_small: { flash_size ≤ 0x10_0000 },
    pub ghost ram_is_whole: { ram_size % 1024 ≡ 0 },
    pub ghost ram_is_there: { 1024 ≤ ram_size },
    pub ghost ram_is_small: { ram_size ≤ 0x10_0000 },
    // The second RAM has no byte of flash and none of RAM.
    pub ghost second_is_apart: { unwrap_or (option_map (λ second.
        are_apart flash_base flash_size second.base second.size
        && are_apart ram_base ram_size second.base second.size) second_ram) true ≡ true },
    pub ghost bits_are_enough: { 3 ≤ priority_bits },
    pub ghost bits_are_few: { priority_bits ≤ 8 },
    pub ghost interrupts_are_few: { interrupts ≤ MAX_INTERRUPTS },
}

/// The layout of the small board: 4 KiB of flash at 0 and 8 KiB of RAM.
pub const SMALL_BOARD: Layout = Layout {
    flash_base: 0,
    flash_size: 4096,
    ram_size: 8192,
    second_ram: None,
    priority_bits: 4,
    interrupts: 8,
    regions: RegionCount::Eight,
};
