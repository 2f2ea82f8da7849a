//! Sets of exceptions as bits.

ghost use Rattle.std.specs.Prelude.{◌≡◌, ◌==◌, ◌&&◌, ◌<◌, ℕ, not, false, if◌then◌else◌};
ghost use Rattle.nvic_levels.specs.Sets.{IsFirstOf};
ghost use Rattle.platform.specs.declared.exception.TheConstants.{EXCEPTIONS};
ghost use Rattle.platform.specs.Priorities.{is_in_words, some_below};

use nvic::is_empty;
use platform::exception::EXCEPTIONS;

/// A set of exceptions: bit n mod 32 of word n / 32 says whether exception n is in it.
pub type Set = [u32; 8];

/// Returns whether an exception is in a set.
#[inline]
pub fn has(set: &Set, number: u8) -> bool
    ensures { result ≡ is_in_words set.now number }
{
    set[(number / 32) as usize] >> (number % 32) & 1 == 1
}

/// Puts an exception into a set, or takes it out.
#[tactic(auto, using(crate::proofs::Bits::put_in, crate::proofs::Bits::taken_out))]
pub fn put(set: &mut Set, number: u8, on: bool)
    ensures { (y : ℕ) → y < 256 → is_in_words set.new y ≡ (if y == number then on else is_in_words set.old y) }
{
    let word = (number / 32) as usize;
    let bit = 1 << (number % 32);
    if on {
        set[word] |= bit;
    } else {
        set[word] &= !bit;
    }
}

/// Returns the first exception of a set.
#[inline]
pub fn first(set: &Set) -> Option<u8>
    ensures { IsFirstOf set.now result }
{
    if is_empty(set) {
        return None;
    }
    first_by_word(set)
}

/// Returns the first exception of a set, by its words.
#[inline(never)]
#[tactic(auto, using(crate::proofs::Bits::none_in_word, crate::proofs::Bits::first_in_word))]
fn first_by_word(set: &Set) -> Option<u8>
    ensures { IsFirstOf set.now result }
{
    for word in 0..8u8 {
        let bits = set[word as usize];
        if bits != 0 {
            return Some(word * 32 + bits.trailing_zeros() as u8);
        }
    }
    None
}

/// Returns whether a set has an exception.
pub fn has_some(set: &Set) -> bool
    ensures { result ≡ some_below (is_in_words set.now) EXCEPTIONS }
{
    first(set).is_some()
}

/// Returns whether a set has another exception than this one.
pub fn has_other(set: &Set, number: u16) -> bool
    ensures { result ≡ some_below (λ y. not (y == number) && is_in_words set.now y) EXCEPTIONS }
{
    let others = without(set, number);
    first(&others).is_some()
}

/// Returns a set without one exception.
#[tactic(auto, using(crate::proofs::Others::taken_out, crate::proofs::Others::not_there))]
fn without(set: &Set, number: u16) -> Set
    ensures { (y : ℕ) → y < 256 → is_in_words result y ≡ (not (y == number) && is_in_words set.now y) }
{
    let mut others = *set;
    if number < EXCEPTIONS {
        put(&mut others, number as u8, false);
    }
    others
}

/// Returns an empty set.
#[tactic(auto, using(crate::proofs::Bits::none_due))]
pub fn empty() -> Set
    ensures { (x : ℕ) → is_in_words result x ≡ false }
{
    [0; 8]
}
