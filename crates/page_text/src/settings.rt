//! The setting of a region in words (ARM DDI 0403, "MPU Region Base Address Register" and "MPU Region
//! Attribute and Size Register").

use crate::permissions::{PermissionWords, permission_of};
use std::fmt;

/// RBAR and RASR of a region.
#[derive(Clone, Copy)]
pub struct RegionWords {
    pub base: u32,
    pub attributes: u32,
}

impl RegionWords {
    /// Returns whether the region is enabled.
    pub fn is_enabled(&self) -> bool {
        self.attributes % 2 == 1
    }

    /// Returns the bits of an address that differ within the region: SIZE + 1 of them.
    fn inner_bits(&self) -> u32 {
        let size = self.attributes / 2 % 32;
        u32::MAX >> (31 - size)
    }

    /// Returns how many bytes the region has: 2^(SIZE + 1).
    pub fn bytes(&self) -> u64 {
        u64::from(self.inner_bits()) + 1
    }

    /// Returns the address of the first byte: ADDR, without the bits that differ within the region.
    pub fn first(&self) -> u32 {
        self.base & !self.inner_bits() & !31
    }

    /// Returns the address of the last byte.
    pub fn last(&self) -> u32 {
        self.first() | self.inner_bits()
    }

    /// Returns what code of a privilege may do in the region.
    pub fn permission(&self, privileged: bool) -> PermissionWords {
        let access_permission = (self.attributes / 0x100_0000 % 8) as u8;
        PermissionWords {
            permission: permission_of(access_permission, privileged),
            execute_never: self.is_execute_never(),
        }
    }

    /// Returns XN: whether no instruction is fetched from the region.
    pub fn is_execute_never(&self) -> bool {
        self.attributes / 0x1000_0000 % 2 == 1
    }

    /// Returns SRD, which switches off a subregion by each of its bits; 0 for a region below 256 bytes.
    fn subregions_off(&self) -> u8 {
        if self.bytes() < 256 {
            0
        } else {
            (self.attributes / 0x100 % 0x100) as u8
        }
    }
}

/// The numbers of the subregions that are switched off.
#[derive(Clone, Copy)]
pub struct SubregionsOff(pub RegionWords);

impl fmt::Display for SubregionsOff {
    fn fmt<W: fmt::Write>(&self, f: &mut fmt::Formatter<W>) -> fmt::Result {
        let off = self.0.subregions_off();
        let mut separator = "";
        if off == 0 {
            return write!(f, "none");
        }
        'subregions: for number in 0..8u32 {
            if (off >> number) % 2 == 1 {
                write!(f, "{separator}{number}")?;
                separator = ", ";
            }
        }
        Ok(())
    }
}
