//! Memory: the bytes that an address can name, and the device window beside them.

ghost use Rattle.std.specs.Prelude.{◌≡◌, ◌+◌, ◌-◌, ◌/◌, ◌%◌, ◌^◌, ◌<◌, ◌≤◌, length, drop, false, true, IfOk, IfSome};
ghost use Rattle.std.specs.Prelude.{if◌then◌else◌, ◌∷◌};
ghost use Rattle.instruction_set.specs.Sizes.{bytes_in};
ghost use Rattle.platform.specs.Boards.{blank, numbers_of};
ghost use Rattle.platform.specs.Map.{is_in_window, ram_base};
ghost use Rattle.platform.specs.Memory.{Memory, byte_at, bytes_of, is_in_memory, is_within, is_writable_at, number_at};
ghost use Rattle.platform.specs.Memory.{overwritten, vector, with_bytes};
ghost use Rattle.platform.specs.Outcomes.{IsOf, LeavesUnlessDone};
ghost use Rattle.platform.specs.Space.{memory_access, read_from, written_to, written_to_window, is_out, is_tick_read};
ghost use Rattle.platform.specs.SystemInvariant.{IsLaidOut};
ghost use Rattle.physical_memory.specs.Sizes.{HaveSameSizes};
ghost use Rattle.physical_memory.specs.MemoryBlocks.{is_in_flash, is_in_ram};

use crate::second_ram::SecondBytes;
use instruction_set::size::Size;
use platform::access::{DoneAccess, Performed, Request, Rule};
use platform::board::Layout;
use platform::map::{RAM_BASE, is_in_window};
use std::alloc::{AllocError, Global};
use std::marker::Model;

/// The register of the device window that sends the low byte of a stored word to the console.
const OUT: u32 = 0x4000_0000;

/// The register of the device window that reads as the low 32 bits of the number of ticks.
const TICK: u32 = 0x4000_0004;

/// What flash holds where nothing was loaded.
const ERASED: u8 = 0xFF;

/// Flash, RAM, and the second RAM where the board has one.
#[derive(Drop)]
pub struct PhysicalMemory {
    flash_base: u32,
    flash: Vec<u8>,
    ram: Vec<u8>,
    second: Option<SecondBytes>,
}

/// A block of memory: its bytes, where it begins, and whether a store may change it.
#[derive(Clone, Copy)]
pub struct LentBlock<'a> {
    pub base: u32,
    pub bytes: &'a [u8],
    pub is_writable: bool,
}

impl Model for PhysicalMemory {
    ghost use Rattle.platform.specs.Memory.{Memory};
    ghost use Rattle.physical_memory.specs.MemoryBlocks.{AreInPlace, memory_of};

    ghost Value = { Memory };

    ghost view = { λ s. memory_of s.flash_base s.flash.items s.ram.items s.second };

    ghost invariant = { λ s. AreInPlace s.flash_base s.flash.items s.ram.items s.second };
}

impl PhysicalMemory {
    /// Returns the memory of a board before anything is loaded: flash is 0xFF and RAM is 0.
    pub fn blank(alloc: Global, board: &Layout) -> Result<Self, AllocError>
        ensures { IfOk result (λ s. s ≡ blank (numbers_of board.now)) }
    {
        let flash = vec![in alloc; ERASED; board.flash_size as usize]?;
        let ram = vec![in alloc; 0; board.ram_size as usize]?;
        let second = match &board.second_ram {
            Some(second) => Some(SecondBytes::blank(alloc, second)?),
            None => None,
        };
        Ok(PhysicalMemory {
            flash_base: board.flash_base,
            flash,
            ram,
            second,
        })
    }

    /// Returns a copy.
    pub fn copied(&self, alloc: Global) -> Result<Self, AllocError>
        ensures { IfOk result (λ s. s ≡ self.now) }
    {
        let flash = Vec::from_slice(alloc, self.flash.as_slice())?;
        let ram = Vec::from_slice(alloc, self.ram.as_slice())?;
        let second = match &self.second {
            Some(second) => Some(second.copied(alloc)?),
            None => None,
        };
        Ok(PhysicalMemory {
            flash_base: self.flash_base,
            flash,
            ram,
            second,
        })
    }

    /// Takes the bytes of a memory of the same board.
    pub fn copy_from(&mut self, other: &PhysicalMemory)
        requires { HaveSameSizes self.old other.now }
        ensures { self.new ≡ other.now }
    {
        self.flash
            .as_mut_slice()
            .copy_from_slice(other.flash.as_slice());
        self.ram
            .as_mut_slice()
            .copy_from_slice(other.ram.as_slice());
        if let Some(second) = &mut self.second {
            if let Some(from) = &other.second {
                second.copy_from(from);
            }
        }
    }

    /// Returns how many blocks there are. They are where memory may be, and none shares an address with another.
    #[tactic(auto, using(crate::proofs::Places::laid_out))]
    pub fn block_count(&self) -> usize
        ensures count { result ≡ length self.now }
        ensures laid_out { IsLaidOut self.now }
    {
        if self.second.is_some() { 3 } else { 2 }
    }

    /// Returns the block at a place of the list of blocks. It ends at 0xA0000000 or below.
    pub fn block(&self, index: usize) -> LentBlock<'_>
        requires { index < length self.now }
        ensures value { drop index self.now ≡ record {
          base = result.base;
          bytes = result.bytes.now;
          is_writable = result.is_writable;
        } ∷ drop (index + 1) self.now }
        ensures low { result.base + length result.bytes.now ≤ 0xA000_0000 }
    {
        match &self.second {
            Some(second) if index == 2 => LentBlock {
                base: second.base(),
                bytes: second.bytes(),
                is_writable: true,
            },
            _ if index == 1 => LentBlock {
                base: RAM_BASE,
                bytes: self.ram.as_slice(),
                is_writable: true,
            },
            _ => LentBlock {
                base: self.flash_base,
                bytes: self.flash.as_slice(),
                is_writable: false,
            },
        }
    }

    /// Returns whether `length` bytes from `address` on lie wholly in one block.
    pub fn is_in_memory(&self, address: u32, length: usize) -> bool
        ensures { result ≡ is_in_memory self.now address length }
    {
        self.is_in_flash(address, length)
            || self.is_in_ram(address, length)
            || self.is_in_second(address, length)
    }

    /// Returns whether `length` bytes from `address` on lie wholly in flash.
    #[inline(always)]
    fn is_in_flash(&self, address: u32, length: usize) -> bool
        ensures { result ≡ is_in_flash self.now address length }
    {
        is_within(self.flash_base, self.flash.len(), address, length)
    }

    /// Returns whether `length` bytes from `address` on lie wholly in RAM.
    #[inline(always)]
    fn is_in_ram(&self, address: u32, length: usize) -> bool
        ensures { result ≡ is_in_ram self.now address length }
    {
        is_within(RAM_BASE, self.ram.len(), address, length)
    }

    /// Returns whether `length` bytes from `address` on lie wholly in the second RAM.
    fn is_in_second(&self, address: u32, length: usize) -> bool
        ensures { result ≡ is_in_memory (drop 2 self.now) address length }
    {
        match &self.second {
            Some(second) => second.holds(address, length),
            None => false,
        }
    }

    /// Returns whether memory has these bytes from an address on, or no block that has all their addresses.
    pub fn has_bytes(&self, address: u32, bytes: &[u8]) -> bool
        ensures { result ≡ true → overwritten self.now address bytes.now ≡ self.now }
    {
        if self.is_in_flash(address, bytes.len()) {
            let at = (address - self.flash_base) as usize;
            has_bytes(self.flash.as_slice(), at, bytes)
        } else if self.is_in_ram(address, bytes.len()) {
            let at = (address - RAM_BASE) as usize;
            has_bytes(self.ram.as_slice(), at, bytes)
        } else {
            match &self.second {
                Some(second) => second.has_bytes(address, bytes),
                None => true,
            }
        }
    }

    /// Returns the byte at an address, if there is one.
    #[inline(always)]
    pub fn byte(&self, address: u32) -> Option<u8>
        ensures { result ≡ byte_at self.now address }
    {
        if self.is_in_flash(address, 1) {
            return Some(self.flash[(address - self.flash_base) as usize]);
        }
        if self.is_in_ram(address, 1) {
            return Some(self.ram[(address - RAM_BASE) as usize]);
        }
        self.second_byte(address)
    }

    /// Returns the byte of the second RAM at an address, if there is one.
    #[cold]
    #[inline(never)]
    fn second_byte(&self, address: u32) -> Option<u8>
        ensures { result ≡ byte_at (drop 2 self.now) address }
    {
        match &self.second {
            Some(second) => second.byte(address),
            None => None,
        }
    }

    /// Returns the number that an access of this size reads in the second RAM, if that has all its bytes.
    #[cold]
    #[inline(never)]
    fn second_number(&self, address: u32, size: Size) -> Option<u32>
        ensures value { result ≡ number_at (drop 2 self.now) address (bytes_in size) }
        ensures small { IfSome result (λ value. value < 256 ^ bytes_in size) }
    {
        match &self.second {
            Some(second) => second.number(address, size),
            None => None,
        }
    }

    /// Carries out an access that a rule granted, at a tick, in memory or in the window. An access that neither
    /// takes is a bus error, and changes nothing.
    #[inline(always)]
    #[tactic(auto, unfolding(platform::specs::Space::memory_access))]
    pub fn access(&mut self, rule: Rule, request: &Request, ticks: u64) -> Performed
        ensures memory { self.new ≡ (memory_access self.old ticks rule request.now).after }
        ensures performed { result ≡ (memory_access self.old ticks rule request.now).performed }
        ensures of_request { IsOf request.now result }
        ensures refused { LeavesUnlessDone result self.old self.new }
    {
        if request.access.kind.is_write() {
            self.write(rule, request)
        } else {
            self.read(rule, request, ticks)
        }
    }

    /// Reads memory, or the window, where TICK alone can be read. They don't overlap, so memory may be
    /// tried first.
    #[inline(always)]
    #[tactic(auto, using(crate::proofs::Places::not_in_window, crate::proofs::Places::laid_out))]
    fn read(&self, rule: Rule, request: &Request, ticks: u64) -> Performed
        ensures performed { result ≡ read_from self.now ticks rule request.now }
        ensures of_request { IsOf request.now result }
    {
        prove!(self.flash_base <= RAM_BASE);
        match self.number(request.access.address, request.access.size) {
            Some(value) => Performed::done(rule, value),
            None if is_in_window(request.access.address) => read_window(rule, request, ticks),
            None => Performed::bus_error(rule),
        }
    }

    /// Returns the number that an access of this size reads at an address, if memory has all its
    /// bytes.
    #[inline(always)]
    pub fn number(&self, address: u32, size: Size) -> Option<u32>
        ensures value { result ≡ number_at self.now address (bytes_in size) }
        ensures small { IfSome result (λ value. value < 256 ^ bytes_in size) }
    {
        match size {
            Size::Byte => self.byte(address).map(u32::from),
            Size::Halfword => self.halfword(address),
            Size::Word => self.word(address),
        }
    }

    #[inline(always)]
    fn halfword(&self, address: u32) -> Option<u32>
        ensures value { result ≡ number_at self.now address 2 }
        ensures small { IfSome result (λ value. value < 256 ^ 2) }
    {
        if self.is_in_flash(address, 2) {
            let at = (address - self.flash_base) as usize;
            let flash = self.flash.as_slice();
            return Some(u32::from(u16::from_le_bytes([flash[at], flash[at + 1]])));
        }
        if self.is_in_ram(address, 2) {
            let at = (address - RAM_BASE) as usize;
            let ram = self.ram.as_slice();
            return Some(u32::from(u16::from_le_bytes([ram[at], ram[at + 1]])));
        }
        self.second_number(address, Size::Halfword)
    }

    #[inline(always)]
    fn word(&self, address: u32) -> Option<u32>
        ensures { result ≡ number_at self.now address 4 }
    {
        if self.is_in_flash(address, 4) {
            let at = (address - self.flash_base) as usize;
            let flash = self.flash.as_slice();
            return Some(u32::from_le_bytes([
                flash[at],
                flash[at + 1],
                flash[at + 2],
                flash[at + 3],
            ]));
        }
        if self.is_in_ram(address, 4) {
            let at = (address - RAM_BASE) as usize;
            let ram = self.ram.as_slice();
            return Some(u32::from_le_bytes([ram[at], ram[at + 1], ram[at + 2], ram[at + 3]]));
        }
        self.second_number(address, Size::Word)
    }

    /// Returns an entry of the vector table at an address, 0 where memory doesn't have it.
    pub fn vector(&self, base: u32, number: u32) -> u32
        requires base { base ≤ ram_base }
        requires number { number < 256 }
        ensures { result ≡ vector self.now base number }
    {
        self.word(base + 4 * number).unwrap_or(0)
    }

    /// Puts bytes from an address on into the block that has all their addresses, if one has.
    #[inline]
    pub fn overwrite(&mut self, address: u32, bytes: &[u8])
        ensures { self.new ≡ overwritten self.old address bytes.now }
    {
        if self.is_in_flash(address, bytes.len()) {
            let at = (address - self.flash_base) as usize;
            put_bytes(self.flash.as_mut_slice(), at, bytes);
        } else if self.is_in_ram(address, bytes.len()) {
            let at = (address - RAM_BASE) as usize;
            put_bytes(self.ram.as_mut_slice(), at, bytes);
        } else if let Some(second) = &mut self.second {
            second.put(address, bytes);
        }
    }

    /// Carries out a write: in the window OUT alone takes one, and elsewhere a block that a store may change.
    #[inline(always)]
    fn write(&mut self, rule: Rule, request: &Request) -> Performed
        ensures memory { self.new ≡ (written_to self.old rule request.now).after }
        ensures performed { result ≡ (written_to self.old rule request.now).performed }
        ensures of_request { IsOf request.now result }
        ensures refused { LeavesUnlessDone result self.old self.new }
    {
        if is_in_window(request.access.address) {
            write_window(rule, request)
        } else if self.write_block(request) {
            Performed::done(rule, 0)
        } else {
            Performed::bus_error(rule)
        }
    }

    /// Puts the bytes of a write into RAM or into the second RAM, if one has all their addresses.
    #[inline(always)]
    pub fn write_block(&mut self, request: &Request) -> bool
        ensures answer { result ≡
            is_writable_at self.old request.now.access.address (bytes_in request.now.access.size) }
        ensures written { self.new ≡
            (if result then overwritten self.old request.now.access.address
            (bytes_of (bytes_in request.now.access.size) request.now.value) else self.old) }
    {
        let bytes = request.value.to_le_bytes();
        match request.access.size {
            Size::Byte => self.write_bytes(request.access.address, &bytes[..1]),
            Size::Halfword => self.write_bytes(request.access.address, &bytes[..2]),
            Size::Word => self.write_bytes(request.access.address, &bytes),
        }
    }

    /// Puts bytes into RAM or into the second RAM, if one has all of their addresses.
    #[inline(always)]
    fn write_bytes(&mut self, address: u32, bytes: &[u8]) -> bool
        requires some { 1 ≤ length bytes.now }
        ensures answer { result ≡ is_writable_at self.old address (length bytes.now) }
        ensures written { self.new ≡ (if result then overwritten self.old address bytes.now else self.old) }
    {
        if is_within(RAM_BASE, self.ram.len(), address, bytes.len()) {
            let at = (address - RAM_BASE) as usize;
            put_bytes(self.ram.as_mut_slice(), at, bytes);
            true
        } else {
            self.write_second(address, bytes)
        }
    }

    /// Puts bytes into the second RAM, if it has all of their addresses and RAM hasn't.
    #[cold]
    #[inline(never)]
    fn write_second(&mut self, address: u32, bytes: &[u8]) -> bool
        requires { is_in_ram self.old address (length bytes.now) ≡ false }
        ensures answer { result ≡ is_writable_at self.old address (length bytes.now) }
        ensures written { self.new ≡ (if result then overwritten self.old address bytes.now else self.old) }
    {
        if self.is_in_flash(address, bytes.len()) {
            return false;
        }
        if let Some(second) = &mut self.second {
            return second.put(address, bytes);
        }
        false
    }
}

/// Carries out a read of the window: TICK alone can be read.
#[inline(always)]
fn read_window(rule: Rule, request: &Request, ticks: u64) -> Performed
    requires { is_in_window request.now.access.address ≡ true }
    ensures performed { (memory : Memory) → result ≡ read_from memory ticks rule request.now }
    ensures of_request { IsOf request.now result }
{
    if is_tick_read(request) {
        Performed::done(rule, (ticks % (1 << 32)) as u32)
    } else {
        Performed::bus_error(rule)
    }
}

/// Carries out a write to the window: OUT alone can be written, and sends the low byte of the word to the console.
#[inline(always)]
fn write_window(rule: Rule, request: &Request) -> Performed
    ensures performed { result ≡ written_to_window rule request.now }
    ensures of_request { IsOf request.now result }
{
    if is_out(request) {
        Performed::Done(DoneAccess {
            rule,
            value: 0,
            sent: Some((request.value % 256) as u8),
        })
    } else {
        Performed::bus_error(rule)
    }
}

/// Returns whether a word is stored to OUT, whose low byte goes to the console.
#[inline(always)]
fn is_out(request: &Request) -> bool
    ensures { result ≡ is_out request.now }
{
    request.access.kind.is_store() && request.access.size.is_word() && request.access.address == OUT
}

/// Returns whether a word is loaded from TICK.
#[inline(always)]
fn is_tick_read(request: &Request) -> bool
    ensures { result ≡ is_tick_read request.now }
{
    request.access.kind.is_load() && request.access.size.is_word() && request.access.address == TICK
}

/// Returns whether a block has these bytes from place `at` on.
#[tactic(auto, using(crate::proofs::Bytes::same_over))]
pub(crate) fn has_bytes(block: &[u8], at: usize, bytes: &[u8]) -> bool
    requires { at + length bytes.now ≤ length block.now }
    ensures { result ≡ true → with_bytes block.now at bytes.now ≡ block.now }
{
    let part = &block[at..at + bytes.len()];
    part == bytes
}

/// Puts bytes into a block from place `at` on.
#[inline(always)]
pub(crate) fn put_bytes(block: &mut [u8], at: usize, bytes: &[u8])
    requires { at + length bytes.now ≤ length block.old }
    ensures { block.new ≡ with_bytes block.old at bytes.now }
{
    block[at..at + bytes.len()].copy_from_slice(bytes);
}

/// Returns whether `length` bytes from `address` on lie wholly in a block of `size` bytes from `base`
/// on. The block ends below 2^32, so an address below `base` is further away than its end.
#[inline(always)]
pub fn is_within(base: u32, size: usize, address: u32, length: usize) -> bool
    requires { base + size < 2 ^ 32 }
    ensures { result ≡ is_within base size address length }
{
    length <= size && address.wrapping_sub(base) as usize <= size - length
}
