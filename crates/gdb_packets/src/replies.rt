//! The bytes of a reply.

ghost use Rattle.std.specs.Prelude.{◌≡◌, ◌+◌, ◌*◌, ◌≤◌, ◌∷◌, ◌++◌, [], length};
ghost use Rattle.arrayvec.specs.ArrayVec.{array_vec_len};
ghost use Rattle.gdb_packets.specs.Digits.{two_digits};
ghost use Rattle.gdb_packets.specs.Escapes.{escaped, escaped_byte};
ghost use Rattle.gdb_packets.specs.Replies.{checksum, packet_of};

use crate::digits::lower_digit;
use crate::escapes::{DOLLAR, ESCAPE, HASH, inverted, is_special};
use arrayvec::ArrayVec;

/// Appends the packet of some data: `$`, the data with escapes, `#`, and two digits.
#[tactic(auto, using(crate::proofs::Appending::whole_packet))]
pub fn put_packet<const ROOM: usize>(page: &mut ArrayVec<u8, ROOM>, content: &[u8])
    requires { array_vec_len page.old + 2 * length content.now + 4 ≤ ROOM }
    ensures { page.new.items ≡ page.old.items ++ packet_of content.now }
{
    page.push(DOLLAR);
    let sum = put_escaped(page, content);
    page.push(HASH);
    put_digits(page, sum);
}

/// Appends the two lower-case digits of a byte.
pub fn put_digits<const ROOM: usize>(page: &mut ArrayVec<u8, ROOM>, byte: u8)
    requires { array_vec_len page.old + 2 ≤ ROOM }
    ensures { page.new.items ≡ page.old.items ++ two_digits byte }
{
    page.push(lower_digit(byte / 16));
    page.push(lower_digit(byte % 16));
}

/// Appends data with escapes, and returns the sum of what was appended, modulo 256.
#[tactic(auto, unfolding(crate::specs::Escapes::escaped))]
fn put_escaped<const ROOM: usize>(page: &mut ArrayVec<u8, ROOM>, content: &[u8]) -> u8
    requires { array_vec_len page.old + 2 * length content.now ≤ ROOM }
    ensures text { page.new.items ≡ page.old.items ++ escaped content.now }
    ensures len { array_vec_len page.new ≤ array_vec_len page.old + 2 * length content.now }
    ensures checksum { result ≡ checksum (escaped content.now) }
{
    let mut sum: u8 = 0;
    'bytes: for byte in content {
        sum = put_byte(page, sum, *byte);
    }
    sum
}

/// Appends a byte of data, escaped where it has to be, and returns the sum with it.
fn put_byte<const ROOM: usize>(page: &mut ArrayVec<u8, ROOM>, sum: u8, byte: u8) -> u8
    requires { array_vec_len page.old + 2 ≤ ROOM }
    ensures text { page.new.items ≡ page.old.items ++ escaped_byte byte }
    ensures len { array_vec_len page.new ≤ array_vec_len page.old + 2 }
    ensures checksum { result ≡ checksum (sum ∷ escaped_byte byte) }
{
    if is_special(byte) {
        page.push(ESCAPE);
        page.push(inverted(byte));
        sum.wrapping_add(ESCAPE).wrapping_add(inverted(byte))
    } else {
        page.push(byte);
        sum.wrapping_add(byte)
    }
}
