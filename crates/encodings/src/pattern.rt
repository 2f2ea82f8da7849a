//! The text of a row, read as bits and fields.

ghost use Rattle.std.specs.Prelude.{◌≡◌, ◌==◌, ◌<◌, ◌≤◌, ◌^◌, ◌&&◌, ◌||◌, nat_le, not, length, [], ◌∷◌, IsTrue, Some};
ghost use Rattle.encodings.specs.Runs.{has_field, value_at, width};
ghost use Rattle.encodings.specs.Masks.{mask_bit, value_bit, mask_of, value_of, are_narrow, applies_by_masks, by_text};
ghost use Rattle.encodings.specs.Masks.{chosen};
ghost use Rattle.instruction_set.specs.Patterns.{field, place_0, place_1, place_o, place_z};
ghost use Rattle.instruction_set.specs.Rows.{as_printed};

use crate::outcomes::as_printed;
use instruction_set::instruction::Decoded;
use instruction_set::registers::Register;

/// The bits that a row's text fixes, and their values.
#[derive(Clone, Copy)]
struct Pattern {
    mask: u32,
    value: u32,
}

impl Pattern {
    /// Returns the bits that are 0 at the places `clear` of a text, and 1 at the places `set`.
    #[inline(always)]
    fn of(places: &str, clear: u8, set: u8) -> Pattern
        requires { length places.now ≤ 32 }
        ensures mask { result.mask ≡ mask_of clear set places.now }
        ensures value { result.value ≡ value_of clear set places.now }
    {
        let (mut mask, mut value) = (0, 0);
        for place in places.as_bytes().iter() {
            mask = mask * 2 + mask_bit(clear, set, *place);
            value = value * 2 + value_bit(clear, set, *place);
        }
        Pattern { mask, value }
    }
}

/// Returns whether a number has a 0 at the places `clear` of a text, and a 1 at the places `set`.
#[inline(always)]
#[tactic(auto, unfolding(crate::specs::Masks::masked))]
fn has_bits(places: &str, clear: u8, set: u8, x: u32) -> bool
    requires { IsTrue (nat_le (length places.now) 32) }
    ensures { result ≡ by_text clear set places.now x }
{
    let pattern = Pattern::of(places, clear, set);
    x & pattern.mask == pattern.value
}

/// Returns whether a place fixes its bit.
#[inline(always)]
fn mask_bit(clear: u8, set: u8, place: u8) -> u32
    ensures { result ≡ mask_bit clear set place }
{
    if place == clear || place == set { 1 } else { 0 }
}

/// Returns whether a place fixes its bit to 1.
#[inline(always)]
fn value_bit(clear: u8, set: u8, place: u8) -> u32
    ensures { result ≡ value_bit clear set place }
{
    if place != clear && place == set { 1 } else { 0 }
}

/// Returns whether a text fits a number.
#[inline(always)]
fn fits(places: &str, x: u32) -> bool
    requires { IsTrue (nat_le (length places.now) 32) }
    ensures { result ≡ by_text place_0 place_1 places.now x }
{
    has_bits(places, b'0', b'1', x)
}

/// Returns whether a row applies: its text fits, and none of its `except` texts does.
#[inline(always)]
#[tactic(auto, unfolding(crate::specs::Masks::chosen))]
fn chosen(fits: bool, excepted: bool) -> bool
    ensures { result ≡ chosen fits excepted }
{
    fits && !excepted
}

/// Returns whether a row without an `except` text applies.
#[inline(always)]
pub fn applies(places: &str, x: u32) -> bool
    requires { IsTrue (nat_le (length places.now) 32) }
    ensures { result ≡ applies_by_masks places.now [] x }
{
    chosen(fits(places, x), false)
}

/// Returns whether one of two patterns fits.
#[inline(always)]
fn either(first: bool, second: bool) -> bool
    ensures { result ≡ (first || second) }
{
    first || second
}

/// Returns whether a row with one `except` text applies.
#[inline(always)]
pub fn applies_but(places: &str, other: &str, x: u32) -> bool
    requires { IsTrue (are_narrow (places.now ∷ other.now ∷ [])) }
    ensures { result ≡ applies_by_masks places.now (other.now ∷ []) x }
{
    chosen(fits(places, x), either(fits(other, x), false))
}

/// Returns whether a row with two `except` texts applies.
#[inline(always)]
pub fn applies_but_2(places: &str, first: &str, second: &str, x: u32) -> bool
    requires { IsTrue (are_narrow (places.now ∷ first.now ∷ second.now ∷ [])) }
    ensures { result ≡ applies_by_masks places.now (first.now ∷ second.now ∷ []) x }
{
    chosen(
        fits(places, x),
        either(fits(first, x), either(fits(second, x), false)),
    )
}

/// Returns whether a row with three `except` texts applies.
#[inline(always)]
pub fn applies_but_3(places: &str, first: &str, second: &str, third: &str, x: u32) -> bool
    requires { IsTrue (are_narrow (places.now ∷ first.now ∷ second.now ∷ third.now ∷ [])) }
    ensures { result ≡ applies_by_masks places.now (first.now ∷ second.now ∷ third.now ∷ []) x }
{
    chosen(
        fits(places, x),
        either(
            fits(first, x),
            either(fits(second, x), either(fits(third, x), false)),
        ),
    )
}

/// Returns whether a row with four `except` texts applies.
#[inline(always)]
pub fn applies_but_4(
    places: &str,
    first: &str,
    second: &str,
    third: &str,
    fourth: &str,
    x: u32,
) -> bool
    requires { IsTrue (are_narrow (places.now ∷ first.now ∷ second.now ∷ third.now ∷ fourth.now ∷ [])) }
    ensures { result ≡ applies_by_masks places.now (first.now ∷ second.now ∷ third.now ∷ fourth.now ∷ []) x }
{
    chosen(
        fits(places, x),
        either(
            fits(first, x),
            either(
                fits(second, x),
                either(fits(third, x), either(fits(fourth, x), false)),
            ),
        ),
    )
}

/// Returns the field of a letter.
#[inline(always)]
#[tactic(auto, using(crate::proofs::Places::has_room))]
fn field(places: &[u8], x: u32, letter: u8) -> u32
    requires { length places.now ≤ 32 }
    ensures { result ≡ field places.now x letter }
{
    let mut field = 0;
    for i in 0..places.len() {
        if places[i] == letter {
            field = field * 2 + (x >> (places.len() - 1 - i)) % 2;
        }
    }
    field
}

/// The fields of a number by the letters of a row's text.
#[derive(Clone, Copy)]
pub struct Letters<'a> {
    pub places: &'a str,
    pub number: u32,
}

impl Letters<'_> {
    /// Returns the field of a letter.
    #[inline(always)]
    #[tactic(auto, using(crate::proofs::Runs::field_is, crate::proofs::Runs::field_below))]
    pub fn number(self, letter: u8) -> u32
        requires { IsTrue (nat_le (length self.places.now) 32) }
        ensures value { result ≡ value_at self.entry.places.now self.entry.number letter }
        ensures small { result < 2 ^ width self.entry.places.now letter }
    {
        field(self.places.as_bytes(), self.number, letter)
    }

    /// Returns the register whose number a letter has.
    #[inline(always)]
    #[tactic(auto, using(crate::proofs::Letters::below_width))]
    pub fn register(self, letter: u8) -> Register
        requires { IsTrue (has_field 4 self.places.now letter) }
        ensures { result ≡ value_at self.entry.places.now self.entry.number letter }
    {
        Register::new(self.number(letter) as u8)
    }

    /// Returns a field of at most eight bits.
    #[inline(always)]
    #[tactic(auto, using(crate::proofs::Letters::below_width))]
    pub fn byte(self, letter: u8) -> u8
        requires { IsTrue (has_field 8 self.places.now letter) }
        ensures value { result ≡ value_at self.entry.places.now self.entry.number letter }
        ensures small { result < 2 ^ width self.entry.places.now letter }
    {
        self.number(letter) as u8
    }

    /// Returns a field of at most sixteen bits.
    #[inline(always)]
    #[tactic(auto, using(crate::proofs::Letters::below_width))]
    pub fn half(self, letter: u8) -> u16
        requires { IsTrue (has_field 16 self.places.now letter) }
        ensures value { result ≡ value_at self.entry.places.now self.entry.number letter }
        ensures small { result < 2 ^ width self.entry.places.now letter }
    {
        self.number(letter) as u16
    }

    /// Returns whether a field is 1.
    #[inline(always)]
    pub fn is_set(self, letter: u8) -> bool
        requires { IsTrue (nat_le (length self.places.now) 32) }
        ensures { result ≡ (value_at self.entry.places.now self.entry.number letter == 1) }
    {
        self.number(letter) == 1
    }

    /// Returns what a row makes of the number, unless a bit isn't what it should be.
    #[inline(always)]
    pub fn says(self, decoded: Decoded) -> Option<Decoded>
        requires { IsTrue (nat_le (length self.places.now) 32) }
        ensures { result ≡ Some (as_printed (by_text place_z place_o self.entry.places.now self.entry.number) decoded) }
    {
        Some(as_printed(has_bits(self.places, b'z', b'o', self.number), decoded))
    }
}

/// Returns the decoding of a number by the first row that applies. A row is its text, the `except` texts
/// of encodings to which it doesn't apply, and the decoding of its fields.
#[macro_export]
macro_rules! rows {
    ($x:ident; $([$($place:tt)*] $(except [$($other:tt)*])* => |$f:ident| $outcome:expr,)*) => {{
        $(
            let places = concat!($(stringify!($place)),*);
            if $crate::applies!(places, $x; $([$($other)*])*) {
                let $f = $crate::pattern::Letters { places, number: $x };
                return $f.says($outcome);
            }
        )*
        None
    }};
}

/// Returns whether a row with these `except` texts applies.
#[macro_export]
macro_rules! applies {
    ($places:ident, $x:ident;) => { $crate::pattern::applies($places, $x) };
    ($places:ident, $x:ident; [$($a:tt)*]) => {
        $crate::pattern::applies_but($places, concat!($(stringify!($a)),*), $x)
    };
    ($places:ident, $x:ident; [$($a:tt)*] [$($b:tt)*]) => {
        $crate::pattern::applies_but_2(
            $places, concat!($(stringify!($a)),*), concat!($(stringify!($b)),*), $x,
        )
    };
    ($places:ident, $x:ident; [$($a:tt)*] [$($b:tt)*] [$($c:tt)*]) => {
        $crate::pattern::applies_but_3(
            $places, concat!($(stringify!($a)),*), concat!($(stringify!($b)),*),
            concat!($(stringify!($c)),*), $x,
        )
    };
    ($places:ident, $x:ident; [$($a:tt)*] [$($b:tt)*] [$($c:tt)*] [$($d:tt)*]) => {
        $crate::pattern::applies_but_4(
            $places, concat!($(stringify!($a)),*), concat!($(stringify!($b)),*),
            concat!($(stringify!($c)),*), concat!($(stringify!($d)),*), $x,
        )
    };
}

/// Returns what the first table says that has a row for a number; what no row has is UNDEFINED.
#[macro_export]
macro_rules! first_of {
    ($x:ident; $($table:ident),* $(,)?) => {{
        $(
            if let Some(decoded) = $table($x) {
                return decoded;
            }
        )*
        Decoded::Undefined
    }};
}
