//! The addresses near one that belong to the same region.

ghost use Rattle.std.specs.Prelude.{◌≡◌, ◌≤◌, ◌/◌, ◌^◌, ◌+◌, ◌*◌, ℕ, false};
ghost use Rattle.mpu.specs.Spans.{grain};
ghost use Rattle.platform.specs.Regions.{agrees, matches};

use crate::regions::{agrees, is_region_enabled, size, switched_off};
use platform::access::Rule;
use platform::mpu::Region;

/// Addresses from the first to the last, inclusive.
#[derive(Clone, Copy)]
pub struct Span {
    pub first: u32,
    pub last: u32,
}

/// Addresses from the first to the last, inclusive, and a rule that grants accesses of one kind to each of them.
#[derive(Clone, Copy)]
pub struct GrantedSpan {
    pub first: u32,
    pub last: u32,
    pub rule: Rule,
}

/// Addresses that agree in their upper bits: from the first to before the next.
#[derive(Clone, Copy)]
struct Block {
    first: u64,
    next: u64,
}

/// Returns the addresses that differ from this one in the `bits` low bits at most.
#[inline]
fn block_of(address: u32, bits: u32) -> Block
    requires { bits ≤ 32 }
    ensures first { result.first ≡ address / 2 ^ bits * 2 ^ bits }
    ensures next { result.next ≡ address / 2 ^ bits * 2 ^ bits + 2 ^ bits }
{
    let unit = 1u64 << bits;
    let first = (u64::from(address) >> bits) * unit;
    Block {
        first,
        next: first + unit,
    }
}

/// Narrows a span around an address until a region has all of it or none of it.
#[inline]
pub(crate) fn cut(region: Region, address: u32, span: Span) -> Span
    requires first { span.first ≤ address }
    requires last { address ≤ span.last }
    ensures first { result.first ≤ address }
    ensures last { address ≤ result.last }
    ensures from { span.first ≤ result.first }
    ensures to { result.last ≤ span.last }
    ensures alike { (a : ℕ) → result.first ≤ a → a ≤ result.last → matches region a ≡ matches region address }
{
    if !is_region_enabled(region.attributes) {
        return span;
    }
    if agrees(region, address) {
        cut_inside(region, address, span)
    } else {
        cut_outside(region, address, span)
    }
}

/// Cuts at the ends of the region, or of the eighth of it, to which the address belongs.
#[inline]
fn cut_inside(region: Region, address: u32, span: Span) -> Span
    requires first { span.first ≤ address }
    requires last { address ≤ span.last }
    ensures first { result.first ≤ address }
    ensures last { address ≤ result.last }
    ensures from { span.first ≤ result.first }
    ensures to { result.last ≤ span.last }
    ensures alike { (a : ℕ) → result.first ≤ a → a ≤ result.last → matches region a ≡ matches region address }
{
    let near = block_of(address, grain(region.attributes));
    Span {
        first: u64::from(span.first).max(near.first) as u32,
        last: u64::from(span.last).min(near.next - 1) as u32,
    }
}

/// Returns the base-2 logarithm of the size of a region, or of its eighth where SRD isn't 0.
#[inline]
fn grain(attributes: u32) -> u32
    ensures value { result ≡ grain attributes }
    ensures small { result ≤ 32 }
{
    let size = size(attributes);
    if size >= 7 && switched_off(attributes) != 0 {
        size - 2
    } else {
        size + 1
    }
}

/// Cuts a span at the near end of a region that doesn't have the address.
#[inline]
fn cut_outside(region: Region, address: u32, span: Span) -> Span
    requires outside { agrees region address ≡ false }
    requires first { span.first ≤ address }
    requires last { address ≤ span.last }
    ensures first { result.first ≤ address }
    ensures last { address ≤ result.last }
    ensures from { span.first ≤ result.first }
    ensures to { result.last ≤ span.last }
    ensures alike { (a : ℕ) → result.first ≤ a → a ≤ result.last → matches region a ≡ matches region address }
{
    let far = block_of(region.base, size(region.attributes) + 1);
    if u64::from(address) < far.first {
        Span {
            first: span.first,
            last: u64::from(span.last).min(far.first - 1) as u32,
        }
    } else {
        Span {
            first: u64::from(span.first).max(far.next) as u32,
            last: span.last,
        }
    }
}
