//! The bits of a word.

ghost use Rattle.std.specs.Prelude.{◌≡◌, ◌<◌};
ghost use Rattle.instruction_set.specs.Registers as registers;
ghost use Rattle.instruction_set.specs.Words as words;

/// Returns whether a bit of a word is 1.
#[inline]
pub fn is_bit(word: u32, bit: u32) -> bool
    requires { bit < 32 }
    ensures { result ≡ words.is_bit word bit }
{
    word >> bit & 1 == 1
}

/// Returns the weight of a bit that is 1, and otherwise 0.
#[inline]
pub fn mask_if(bit: bool, weight: u32) -> u32
    ensures { result ≡ registers.mask_if bit weight }
{
    if bit { weight } else { 0 }
}
