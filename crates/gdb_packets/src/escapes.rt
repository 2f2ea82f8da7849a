//! Escaped bytes.

ghost use Rattle.std.specs.Prelude.{◌≡◌, ◌≤◌, length};
ghost use Rattle.gdb_packets.specs.Escapes.{inverted, is_special, unescaped};

use arrayvec::ArrayVec;

/// Begins a packet.
pub const DOLLAR: u8 = b'$';

/// Ends the data of a packet.
pub const HASH: u8 = b'#';

/// Escapes the next byte.
pub const ESCAPE: u8 = b'}';

/// Returns the other byte of an escaped pair.
pub fn inverted(byte: u8) -> u8
    ensures { result ≡ inverted byte }
{
    byte ^ 0x20
}

/// Returns whether a reply has to escape a byte.
pub fn is_special(byte: u8) -> bool
    ensures { result ≡ is_special byte }
{
    byte == DOLLAR || byte == HASH || byte == b'*' || byte == ESCAPE
}

/// Puts the data of a packet in place of what there was.
#[tactic(auto, unfolding(crate::specs::Escapes::unescaped_after))]
pub fn unescape<const ROOM: usize>(raw: &[u8], content: &mut ArrayVec<u8, ROOM>)
    requires { length raw.now ≤ ROOM }
    ensures { content.new.items ≡ unescaped raw.now }
{
    content.clear();
    let mut after_escape = false;
    'bytes: for byte in raw {
        if after_escape {
            content.push(inverted(*byte));
            after_escape = false;
        } else if *byte == ESCAPE {
            after_escape = true;
        } else {
            content.push(*byte);
        }
    }
}
