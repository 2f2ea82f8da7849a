//! The words of the lines, for the fields of an access.

ghost use Rattle.std.specs.Prelude.{◌≡◌, ◌++◌, codes, decimal, take};
ghost use Rattle.instruction_set.specs.Sizes.{bytes_in};
ghost use Rattle.platform.specs.Text.{kind_text, privilege_text};

use instruction_set::size::Size;
use platform::access::Kind;

/// Returns the letter of a kind of access between two spaces, and then a byte that doesn't count: four bytes are stored
/// at once.
#[inline(always)]
pub(crate) fn kind_piece(kind: Kind) -> [u8; 4]
    ensures { take 3 result ≡ codes " " ++ (kind_text kind ++ codes " ") }
{
    match kind {
        Kind::Fetch => *b" F  ",
        Kind::Load => *b" L  ",
        Kind::Store => *b" S  ",
        Kind::Push => *b" K  ",
        Kind::Pop => *b" U  ",
        Kind::Vector => *b" V  ",
        Kind::Probe => *b" P  ",
    }
}

/// Returns the digit of a size in bytes and the letter that says whether code is privileged, each after a space.
#[inline(always)]
#[tactic(auto, using(std::proofs::lemmas::Fmt::decimal_digit))]
pub(crate) fn size_piece(size: Size, privileged: bool) -> [u8; 4]
    ensures { result ≡ codes " " ++ (decimal (bytes_in size) ++ (codes " " ++ privilege_text privileged)) }
{
    if privileged {
        match size {
            Size::Byte => *b" 1 p",
            Size::Halfword => *b" 2 p",
            Size::Word => *b" 4 p",
        }
    } else {
        match size {
            Size::Byte => *b" 1 u",
            Size::Halfword => *b" 2 u",
            Size::Word => *b" 4 u",
        }
    }
}
