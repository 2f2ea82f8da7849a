//! One word of a device (profile).

ghost use Rattle.std.specs.Prelude.{◌≡◌};
ghost use Rattle.devices.specs.Words.{after_store, chosen, content_after, content_of, stored_for, value_of, without};

use crate::device::{Device, Stores};

/// Returns a number without the bits of a mask.
#[inline]
fn without(v: u32, mask: u32) -> u32
    ensures { result ≡ without v mask }
{
    v & !mask
}

/// Returns the bits of one number where a mask has them, and those of another elsewhere.
#[inline]
fn chosen(mask: u32, there: u32, elsewhere: u32) -> u32
    ensures { result ≡ chosen mask there elsewhere }
{
    without(elsewhere, mask) | there & mask
}

/// Returns the content of a word after this many ticks.
#[inline]
pub fn content_of(device: &Device, ticks: u64, stored: u32) -> u32
    ensures { result ≡ content_of device.now ticks stored }
{
    if device.counts {
        stored.wrapping_add((ticks % (1 << 32)) as u32)
    } else {
        stored
    }
}

/// Returns what is stored where a word gets a content after this many ticks.
#[inline]
pub fn stored_for(device: &Device, ticks: u64, content: u32) -> u32
    ensures { result ≡ stored_for device.now ticks content }
{
    if device.counts {
        content.wrapping_sub((ticks % (1 << 32)) as u32)
    } else {
        content
    }
}

/// Returns the value of a word with this content, where the content that its bits follow is that one.
#[inline]
pub fn value_of(device: &Device, content: u32, followed: u32) -> u32
    ensures { result ≡ value_of device.now content followed }
{
    let shifted = followed << device.by;
    let bits = chosen(device.follows, shifted, content);
    without(bits | device.ones, device.zeros)
}

/// Returns what a store of a whole word leaves of a content.
#[inline]
fn after_store(stores: Stores, content: u32, value: u32) -> u32
    ensures { result ≡ after_store stores content value }
{
    match stores {
        Stores::Kept => value,
        Stores::Ignored => content,
        Stores::OnesClear => without(content, value),
        Stores::ZerosClear => content & value,
    }
}

/// Returns what a store leaves of a content where it covers the bits of a mask.
#[inline]
pub fn content_after(device: &Device, content: u32, mask: u32, value: u32) -> u32
    ensures { result ≡ content_after device.now content mask value }
{
    chosen(mask, after_store(device.stores, content, value), content)
}
