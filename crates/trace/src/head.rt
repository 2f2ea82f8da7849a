//! The part of the line of an access between its tick and its outcome.

ghost use Rattle.std.specs.Prelude.{◌≡◌, ◌++◌, ◌/◌, codes};
ghost use Rattle.platform.specs.Text.{access_text};
ghost use Rattle.trace.specs.Tails.{head_text};

use crate::digits::UpperDigits;
use crate::hex;
use crate::words::{kind_piece, size_piece};
use platform::access::Access;

/// The part of the line of an access between its tick and the space before its outcome, in pieces each of which is
/// stored at once.
#[derive(Clone, Copy)]
pub(crate) struct AccessHead {
    /// The letter of the kind between two spaces. The last byte doesn't count.
    pub(crate) kind: [u8; 4],
    /// The digits of the address.
    pub(crate) upper: [u8; 4],
    pub(crate) high: [u8; 2],
    pub(crate) low: [u8; 2],
    /// The size and the privilege, each after a space.
    pub(crate) size: [u8; 4],
}

impl AccessHead {
    /// Returns the head of the line of an access whose upper digits are these.
    #[inline(always)]
    #[tactic(auto, using(crate::proofs::PartsOfLines::head_joined))]
    pub(crate) fn of(upper: &UpperDigits, access: &Access) -> Self
        requires { upper.now.half ≡ access.now.address / 0x1_0000 }
        ensures { head_text result ≡ codes " " ++ access_text access.now }
    {
        AccessHead {
            kind: kind_piece(access.kind),
            upper: upper.digits,
            high: hex::pair((access.address / 0x100 % 256) as u8),
            low: hex::pair((access.address % 256) as u8),
            size: size_piece(access.size, access.privileged),
        }
    }
}
