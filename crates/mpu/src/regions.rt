//! What the registers of one region say.

ghost use Rattle.std.specs.Prelude.{◌≡◌, ◌<◌};
ghost use Rattle.instruction_set.specs.Words.{is_bit};
ghost use Rattle.platform.specs.Regions.{is_region_enabled, size, switched_off, permission, is_accepted, agrees};
ghost use Rattle.platform.specs.Regions.{is_switched_off, matches};

use platform::mpu::Region;

/// Returns whether a bit of a word is 1.
#[inline]
pub(crate) fn is_bit(word: u32, bit: u32) -> bool
    requires { bit < 32 }
    ensures { result ≡ is_bit word bit }
{
    word >> bit & 1 == 1
}

/// RASR.ENABLE.
#[inline]
pub fn is_region_enabled(attributes: u32) -> bool
    ensures { result ≡ is_region_enabled attributes }
{
    is_bit(attributes, 0)
}

/// RASR.SIZE, from 0 to 31: a region covers 2^(SIZE + 1) bytes.
#[inline]
pub fn size(attributes: u32) -> u32
    ensures value { result ≡ size attributes }
    ensures small { result < 32 }
{
    attributes >> 1 & 31
}

#[inline]
/// RASR.SRD: a bit for each of eight subregions.
pub fn switched_off(attributes: u32) -> u32
    ensures { result ≡ switched_off attributes }
{
    attributes >> 8 & 0xFF
}

/// RASR.AP.
#[inline]
pub(crate) fn permission(attributes: u32) -> u8
    ensures { result ≡ permission attributes }
{
    (attributes >> 24 & 7) as u8
}

/// Returns whether RASR takes these attributes.
pub(crate) fn is_accepted(attributes: u32) -> bool
    ensures { result ≡ is_accepted attributes }
{
    if !is_region_enabled(attributes) {
        return true;
    }
    let size = size(attributes);
    size >= 4 && permission(attributes) != 4 && (size >= 7 || switched_off(attributes) == 0)
}

/// Returns whether an address lies in a region, and in none of its subregions that are switched
/// off.
#[inline]
#[tactic(auto, unfolding(platform::specs::Regions::matches))]
pub fn matches(region: Region, address: u32) -> bool
    ensures { result ≡ matches region address }
{
    is_region_enabled(region.attributes)
        && agrees(region, address)
        && !is_switched_off(region, address)
}

/// Returns whether an address and the region's base agree in the bits that its size leaves.
#[inline]
pub(crate) fn agrees(region: Region, address: u32) -> bool
    ensures { result ≡ agrees region address }
{
    let bits = size(region.attributes) + 1;
    u64::from(address) >> bits == u64::from(region.base) >> bits
}

/// Returns whether an address is in a subregion that is switched off.
#[inline]
fn is_switched_off(region: Region, address: u32) -> bool
    ensures { result ≡ is_switched_off region address }
{
    let size = size(region.attributes);
    if size < 7 {
        return false;
    }
    let subregion = address >> (size - 2) & 7;
    is_bit(region.attributes, 8 + subregion)
}
