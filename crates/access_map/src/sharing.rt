//! The bytes that one world shares with another.

ghost use Rattle.std.specs.Bool.{Decides};
ghost use Rattle.std.specs.Prelude.{◌≡◌, ◌≤◌, ◌<◌, ℕ, IfOk, OnOk, false, MatchBool};
ghost use Rattle.access_map.specs.Sharing.{AreWorldsApart, AreShared, SharesAny, carries, covers, has_address};
ghost use Rattle.access_map.specs.Sharing.{is_channel};
ghost use Rattle.access_map.specs.Sharing.{is_in_ram, is_shared};
ghost use Rattle.access_map.specs.Stretches.{with_stretch};
ghost use Rattle.access_map.specs.Worlds.{is_in_place};
ghost use Rattle.platform.specs.Boards.{numbers_of};

use crate::interval::Interval;
use crate::world::{Place, Rights, World};
use mpu::Span;
use platform::board::Layout;
use std::alloc::{AllocError, Global};

/// The last address below the system region (B3.1), from which on there is no memory.
const LAST_ADDRESS: u32 = 0xDFFF_FFFF;

/// Neighbouring addresses: one world shares all of them with another, or none.
#[derive(Clone, Copy)]
struct Stretch {
    first: u32,
    last: u32,
    is_shared: bool,
}

/// Returns the spans that a world shares with another, from the lowest on: the bytes of RAM that `writer` may write and
/// `reader` may read or execute, but for those that `allowed` has.
pub fn shared(
    alloc: Global,
    board: &Layout,
    writer: &World,
    reader: &World,
    allowed: &[Span],
) -> Result<Vec<Span>, AllocError>
    ensures { IfOk result (λ spans.
        AreShared (numbers_of board.now) writer.now reader.now allowed.now spans.items) }
{
    let mut spans = Vec::new(alloc);
    let mut current = Stretch::at(board, writer, reader, allowed, 0);
    'each: while current.last < LAST_ADDRESS {
        let next = Stretch::at(board, writer, reader, allowed, current.last + 1);
        if current.is_shared == next.is_shared {
            current.last = next.last;
        } else {
            current.put(&mut spans)?;
            current = next;
        }
    }
    current.put(&mut spans)?;
    Ok(spans)
}

/// Returns whether two worlds are apart: neither shares a byte with the other.
pub fn are_apart(board: &Layout, world: &World, other: &World, allowed: &[Span]) -> bool
    ensures { Decides result (AreWorldsApart (numbers_of board.now) world.now other.now allowed.now) }
{
    !shares(board, world, other, allowed) && !shares(board, other, world, allowed)
}

/// Returns whether a world shares a byte with another.
fn shares(board: &Layout, writer: &World, reader: &World, allowed: &[Span]) -> bool
    ensures { MatchBool result
        (SharesAny (numbers_of board.now) writer.now reader.now allowed.now)
        ((a : ℕ) → is_shared (numbers_of board.now) writer.now reader.now allowed.now a ≡ false) }
{
    let mut first = 0;
    'each: while first <= LAST_ADDRESS {
        let stretch = Stretch::at(board, writer, reader, allowed, first);
        if stretch.is_shared {
            return true;
        }
        first = stretch.last + 1;
    }
    false
}

impl Stretch {
    /// Returns a stretch that begins at an address, and ends with `LAST_ADDRESS` or before.
    fn at(board: &Layout, writer: &World, reader: &World, allowed: &[Span], first: u32) -> Self
        requires { first ≤ LAST_ADDRESS }
        ensures first { result.first ≡ first }
        ensures some { result.first ≤ result.last }
        ensures last { result.last ≤ LAST_ADDRESS }
        ensures right { (a : ℕ) → result.first ≤ a → a ≤ result.last
            → is_shared (numbers_of board.now) writer.now reader.now allowed.now a ≡ result.is_shared }
    {
        let within = cut_at_ram(board, first);
        if is_in_ram(board, first) {
            return Stretch::in_ram(writer, reader, allowed, within);
        }
        Stretch {
            first: within.first,
            last: within.last,
            is_shared: false,
        }
    }

    /// Returns a stretch that begins where a span of RAM does, and ends with it or before.
    fn in_ram(writer: &World, reader: &World, allowed: &[Span], within: Span) -> Self
        requires some { within.first ≤ within.last }
        requires below { within.last < 0xE000_0000 }
        ensures first { result.first ≡ within.first }
        ensures some { result.first ≤ result.last }
        ensures last { result.last ≤ within.last }
        ensures right { (a : ℕ) → result.first ≤ a → a ≤ result.last
            → is_channel writer.now reader.now allowed.now a ≡ result.is_shared }
    {
        let from = Interval::at(writer, Place::Ram, within);
        let to = Interval::at(
            reader,
            Place::Ram,
            Span {
                first: from.first,
                last: from.last,
            },
        );
        let near = cut(
            allowed,
            Span {
                first: to.first,
                last: to.last,
            },
        );
        Stretch {
            first: near.first,
            last: near.last,
            is_shared: carries(from.rights, to.rights) && !covers(allowed, near.first),
        }
    }

    /// Adds the stretch to a list, if it is shared.
    fn put(self, spans: &mut Vec<Span>) -> Result<(), AllocError>
        ensures { OnOk result (spans.new.items ≡ with_stretch spans.old.items self) }
    {
        if self.is_shared {
            spans.push(Span {
                first: self.first,
                last: self.last,
            })?;
        }
        Ok(())
    }
}

/// Returns whether a byte can carry something from code with the first rights to code with the others.
fn carries(writer: Rights, reader: Rights) -> bool
    ensures { result ≡ carries writer reader }
{
    writer.write && (reader.read || reader.execute)
}

/// Returns whether a span of a list has an address.
fn covers(spans: &[Span], address: u32) -> bool
    ensures { result ≡ covers spans.now address }
{
    spans
        .iter()
        .any(|span| span.first <= address && address <= span.last)
}

/// Returns whether an address is in RAM or in the second RAM.
fn is_in_ram(board: &Layout, address: u32) -> bool
    ensures { result ≡ is_in_ram (numbers_of board.now) address }
{
    Place::Ram.has(board, address) || Place::SecondRam.has(board, address)
}

/// Returns addresses from this one on, all of them in a RAM or none, the last of them `LAST_ADDRESS` or before.
#[tactic(auto, using(crate::proofs::Spans::both_alike))]
fn cut_at_ram(board: &Layout, first: u32) -> Span
    requires { first ≤ LAST_ADDRESS }
    ensures first { result.first ≡ first }
    ensures some { result.first ≤ result.last }
    ensures last { result.last ≤ LAST_ADDRESS }
    ensures alike { (a : ℕ) → result.first ≤ a → a ≤ result.last
        → is_in_ram (numbers_of board.now) a ≡ is_in_ram (numbers_of board.now) result.first }
{
    let within = Span {
        first,
        last: LAST_ADDRESS,
    };
    let near = cut_at_place(board, Place::Ram, within);
    cut_at_place(board, Place::SecondRam, near)
}

/// Returns the beginning of a span of which a place has all addresses or none.
pub(crate) fn cut_at_place(board: &Layout, place: Place, within: Span) -> Span
    requires some { within.first ≤ within.last }
    ensures first { result.first ≡ within.first }
    ensures some { result.first ≤ result.last }
    ensures last { result.last ≤ within.last }
    ensures alike { (a : ℕ) → result.first ≤ a → a ≤ result.last
        → is_in_place (numbers_of board.now) place a ≡ is_in_place (numbers_of board.now) place result.first }
{
    match place.span(board) {
        Some(span) => cut_at(span, within),
        None => within,
    }
}

/// Returns the beginning of a span in which each span of a list has all addresses or none.
fn cut(spans: &[Span], within: Span) -> Span
    requires some { within.first ≤ within.last }
    ensures first { result.first ≡ within.first }
    ensures some { result.first ≤ result.last }
    ensures last { result.last ≤ within.last }
    ensures alike { (a : ℕ) → result.first ≤ a → a ≤ result.last
        → covers spans.now a ≡ covers spans.now result.first }
{
    let mut near = within;
    'each: for span in spans {
        near = cut_at(*span, near);
    }
    near
}

/// Returns the beginning of a span of which another has all addresses or none.
pub(crate) fn cut_at(span: Span, within: Span) -> Span
    requires some { within.first ≤ within.last }
    ensures first { result.first ≡ within.first }
    ensures some { result.first ≤ result.last }
    ensures last { result.last ≤ within.last }
    ensures alike { (a : ℕ) → result.first ≤ a → a ≤ result.last
        → has_address a span ≡ has_address result.first span }
{
    let first = within.first;
    let last = if first < span.first {
        within.last.min(span.first - 1)
    } else if first <= span.last {
        within.last.min(span.last)
    } else {
        within.last
    };
    Span { first, last }
}
