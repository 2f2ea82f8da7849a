//! The lines of access maps, and of what worlds share.

ghost use Rattle.std.specs.Prelude.{◌≡◌, ◌+◌, ◌≤◌, ◌++◌, codes, length, IfOk, OnOk};
ghost use Rattle.access_map.specs.Lines.{addresses_text, apart_line, letter_or_dash, map_line, map_lines, map_text};
ghost use Rattle.access_map.specs.Lines.{numbers_text, pair_text, place_text, rights_text, shares_line, shares_lines};
ghost use Rattle.access_map.specs.Lines.{spaced};

use crate::interval::Interval;
use crate::map::AccessMap;
use crate::world::{Place, Rights};
use mpu::Span;
use std::alloc::{AllocError, Global};
use trace::page::Page;

/// Room for the longest line.
pub type Line = Page<96>;

/// Returns the lines of an access map, the map of world `number`.
#[tactic(auto, unfolding(crate::specs::Lines::map_text))]
pub fn map_text(alloc: Global, number: u8, map: &AccessMap) -> Result<Vec<u8>, AllocError>
    ensures { IfOk result (λ text. text.items ≡ map_text number map.now) }
{
    let mut text = Vec::new(alloc);
    'places: for part in map.places.as_slice() {
        put_intervals(&mut text, number, part.place, part.intervals.as_slice())?;
    }
    Ok(text)
}

/// Returns the lines of what two worlds share: `there` are the spans that world `number` shares with world `other`, and
/// `back` those that `other` shares with `number`. Without any it is the line that says that they are apart.
pub fn pair_text(
    alloc: Global,
    number: u8,
    other: u8,
    there: &[Span],
    back: &[Span],
) -> Result<Vec<u8>, AllocError>
    ensures { IfOk result (λ text. text.items ≡ pair_text number other there.now back.now) }
{
    let mut text = Vec::new(alloc);
    if there.is_empty() && back.is_empty() {
        text.extend_from_slice(apart_line(number, other).as_slice())?;
    } else {
        put_spans(&mut text, number, other, there)?;
        put_spans(&mut text, other, number, back)?;
    }
    Ok(text)
}

/// Appends the lines of the intervals of a place.
fn put_intervals(
    text: &mut Vec<u8>,
    number: u8,
    place: Place,
    intervals: &[Interval],
) -> Result<(), AllocError>
    ensures { OnOk result (text.new.items ≡ text.old.items ++ map_lines number place intervals.now) }
{
    'each: for interval in intervals {
        text.extend_from_slice(map_line(number, place, interval).as_slice())?;
    }
    Ok(())
}

/// Appends the lines of the spans that world `number` shares with world `other`.
fn put_spans(text: &mut Vec<u8>, number: u8, other: u8, spans: &[Span]) -> Result<(), AllocError>
    ensures { OnOk result (text.new.items ≡ text.old.items ++ shares_lines number other spans.now) }
{
    'each: for span in spans {
        text.extend_from_slice(shares_line(number, other, *span).as_slice())?;
    }
    Ok(())
}

/// Returns the line of an interval of the map of a world.
#[tactic(auto, unfolding(crate::specs::Lines::map_line))]
fn map_line(number: u8, place: Place, interval: &Interval) -> Line
    ensures { result ≡ map_line number place interval.now }
{
    let mut line = Line::new();
    line.put(b"map ");
    line.put_decimal(u64::from(number));
    put_addresses(&mut line, interval.first, interval.last);
    line.put(b" ");
    put_place(&mut line, place);
    line.put(b" ");
    put_rights(&mut line, interval.rights);
    line.put(b" ");
    line.put_rule_word(interval.rule);
    line.put(b"\n");
    line
}

/// Returns the line of a span that one world shares with another.
#[tactic(auto, unfolding(crate::specs::Lines::shares_line))]
fn shares_line(number: u8, other: u8, span: Span) -> Line
    ensures { result ≡ shares_line number other span }
{
    let mut line = Line::new();
    line.put(b"shares");
    put_numbers(&mut line, number, other);
    put_addresses(&mut line, span.first, span.last);
    line.put(b"\n");
    line
}

/// Returns the line of two worlds that are apart.
#[tactic(auto, unfolding(crate::specs::Lines::apart_line))]
fn apart_line(number: u8, other: u8) -> Line
    ensures { result ≡ apart_line number other }
{
    let mut line = Line::new();
    line.put(b"apart");
    put_numbers(&mut line, number, other);
    line.put(b"\n");
    line
}

/// Appends two numbers of worlds, each after a space.
fn put_numbers(line: &mut Line, number: u8, other: u8)
    requires { length line.old + 42 ≤ 96 }
    ensures text { line.new ≡ line.old ++ numbers_text number other }
    ensures short { length line.new ≤ length line.old + 42 }
{
    line.put(b" ");
    line.put_decimal(u64::from(number));
    line.put(b" ");
    line.put_decimal(u64::from(other));
}

/// Appends two addresses, each after a space.
pub(crate) fn put_addresses(line: &mut Line, first: u32, last: u32)
    requires { length line.old + 18 ≤ 96 }
    ensures text { line.new ≡ line.old ++ addresses_text first last }
    ensures short { length line.new ≤ length line.old + 18 }
{
    put_spaced(line, first);
    put_spaced(line, last);
}

/// Appends a space and the digits of an address.
pub(crate) fn put_spaced(line: &mut Line, address: u32)
    requires { length line.old + 9 ≤ 96 }
    ensures text { line.new ≡ line.old ++ spaced address }
    ensures short { length line.new ≤ length line.old + 9 }
{
    line.put(b" ");
    line.put_word(address);
}

/// Appends the word of a place.
fn put_place(line: &mut Line, place: Place)
    requires { length line.old + 6 ≤ 96 }
    ensures text { line.new ≡ line.old ++ place_text place }
    ensures short { length line.new ≤ length line.old + 6 }
{
    match place {
        Place::Flash => line.put(b"flash"),
        Place::Ram | Place::SecondRam => line.put(b"ram"),
        Place::Window => line.put(b"window"),
    }
}

/// Appends the letters of rights.
fn put_rights(line: &mut Line, rights: Rights)
    requires { length line.old + 3 ≤ 96 }
    ensures text { line.new ≡ line.old ++ rights_text rights }
    ensures short { length line.new ≤ length line.old + 3 }
{
    put_letter(line, rights.read, b"r");
    put_letter(line, rights.write, b"w");
    put_letter(line, rights.execute, b"x");
}

/// Appends the letter of a right, or `-` where it isn't granted.
fn put_letter(line: &mut Line, granted: bool, letter: &[u8; 1])
    requires { length line.old + 1 ≤ 96 }
    ensures text { line.new ≡ line.old ++ letter_or_dash granted letter.now }
    ensures short { length line.new ≤ length line.old + 1 }
{
    line.put(if granted { letter } else { b"-" });
}
