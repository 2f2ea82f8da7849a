//! A RAM beside flash and the RAM at 0x20000000.

ghost use Rattle.std.specs.Prelude.{◌≡◌, ◌+◌, ◌≤◌, length, IfOk, IfSome, ◌<◌, ◌^◌, true, [], ◌∷◌, if◌then◌else◌};
ghost use Rattle.instruction_set.specs.Sizes.{bytes_in};
ghost use Rattle.platform.specs.Boards.{blank_ram};
ghost use Rattle.platform.specs.Memory.{block_with, byte_at, holds, number_at};

use crate::memory::{has_bytes, is_within, put_bytes};
use instruction_set::size::Size;
use platform::board::SecondRam;
use std::alloc::{AllocError, Global};
use std::marker::Model;

/// The bytes of the second RAM, and where it begins.
#[derive(Drop)]
pub(crate) struct SecondBytes {
    base: u32,
    bytes: Vec<u8>,
}

impl Model for SecondBytes {
    ghost use Rattle.std.specs.Prelude.{◌+◌, ◌≤◌, length, true};
    ghost use Rattle.platform.specs.Memory.{Block};

    ghost Value = { Block };

    ghost view = { λ r. record { base = r.base; bytes = r.bytes.items; is_writable = true } };

    ghost invariant = { λ r. r.base + length r.bytes.items ≤ 0xA000_0000 };
}

impl SecondBytes {
    /// Returns a second RAM in which nothing was loaded: its bytes are 0.
    #[tactic(auto, using(crate::proofs::Places::ends_low))]
    pub(crate) fn blank(alloc: Global, second: &SecondRam) -> Result<Self, AllocError>
        ensures { IfOk result (λ r. r ≡ blank_ram second.now.base second.now.size) }
    {
        let bytes = vec![in alloc; 0; second.size as usize]?;
        Ok(SecondBytes {
            base: second.base,
            bytes,
        })
    }

    /// Returns a copy.
    pub(crate) fn copied(&self, alloc: Global) -> Result<Self, AllocError>
        ensures { IfOk result (λ r. r ≡ self.now) }
    {
        let bytes = Vec::from_slice(alloc, self.bytes.as_slice())?;
        Ok(SecondBytes {
            base: self.base,
            bytes,
        })
    }

    /// Takes the bytes of a second RAM at the same place.
    pub(crate) fn copy_from(&mut self, other: &SecondBytes)
        requires base { other.now.base ≡ self.old.base }
        requires size { length other.now.bytes ≡ length self.old.bytes }
        ensures { self.new ≡ other.now }
    {
        self.bytes
            .as_mut_slice()
            .copy_from_slice(other.bytes.as_slice());
    }

    /// Returns the address of its first byte.
    pub(crate) fn base(&self) -> u32
        ensures { result ≡ self.now.base }
    {
        self.base
    }

    /// Returns its bytes, all below 0xA0000000.
    pub(crate) fn bytes(&self) -> &[u8]
        ensures value { result.now ≡ self.now.bytes }
        ensures writable { self.now.is_writable ≡ true }
        ensures low { self.now.base + length result.now ≤ 0xA000_0000 }
    {
        self.bytes.as_slice()
    }

    /// Returns whether it has `length` bytes from `address` on.
    pub(crate) fn holds(&self, address: u32, length: usize) -> bool
        ensures { result ≡ holds self.now address length }
    {
        is_within(self.base, self.bytes.len(), address, length)
    }

    /// Returns the byte at an address, if it has it.
    pub(crate) fn byte(&self, address: u32) -> Option<u8>
        ensures { result ≡ byte_at (self.now ∷ []) address }
    {
        if self.holds(address, 1) {
            Some(self.bytes[(address - self.base) as usize])
        } else {
            None
        }
    }

    /// Returns the number that an access of this size reads at an address, if it has all its bytes.
    pub(crate) fn number(&self, address: u32, size: Size) -> Option<u32>
        ensures value { result ≡ number_at (self.now ∷ []) address (bytes_in size) }
        ensures small { IfSome result (λ value. value < 256 ^ bytes_in size) }
    {
        if !self.holds(address, size.bytes() as usize) {
            return None;
        }
        let at = (address - self.base) as usize;
        let ram = self.bytes.as_slice();
        match size {
            Size::Byte => Some(u32::from(ram[at])),
            Size::Halfword => Some(u32::from(u16::from_le_bytes([ram[at], ram[at + 1]]))),
            Size::Word => Some(u32::from_le_bytes([
                ram[at],
                ram[at + 1],
                ram[at + 2],
                ram[at + 3],
            ])),
        }
    }

    /// Returns false only where it has all addresses of these bytes, and other bytes there.
    pub(crate) fn has_bytes(&self, address: u32, bytes: &[u8]) -> bool
        ensures { result ≡ true → holds self.now address (length bytes.now) ≡ true
            → block_with self.now address bytes.now ≡ self.now }
    {
        if !self.holds(address, bytes.len()) {
            return true;
        }
        has_bytes(self.bytes.as_slice(), (address - self.base) as usize, bytes)
    }

    /// Puts bytes from an address on, if it has all their addresses.
    pub(crate) fn put(&mut self, address: u32, bytes: &[u8]) -> bool
        ensures writable { self.old.is_writable ≡ true }
        ensures answer { result ≡ holds self.old address (length bytes.now) }
        ensures written { self.new ≡ (if result then block_with self.old address bytes.now else self.old) }
    {
        let is_there = self.holds(address, bytes.len());
        if is_there {
            let at = (address - self.base) as usize;
            put_bytes(self.bytes.as_mut_slice(), at, bytes);
        }
        is_there
    }
}
