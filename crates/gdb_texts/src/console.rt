//! Text for GDB's console.

ghost use Rattle.std.specs.Prelude.{◌≡◌, ◌+◌, ◌*◌, ◌<◌, ◌≤◌, ◌==◌, [], ◌∷◌, ◌++◌, length};
ghost use Rattle.arrayvec.specs.ArrayVec.{array_vec_len};
ghost use Rattle.gdb_texts.specs.Console.{console_packet, is_full};

use crate::bytes::put_bytes;
use arrayvec::ArrayVec;
use gdb_packets::put_packet;
use std::marker::Model;

/// The most bytes of text in a packet.
pub const MAX_TEXT: usize = 2047;

/// The text that waits for its packet.
#[derive(Drop)]
pub struct ConsoleText {
    bytes: ArrayVec<u8, MAX_TEXT>,
}

impl Model for ConsoleText {
    ghost use Rattle.std.specs.Prelude.{ℕ, List};

    ghost Value = { List ℕ };

    ghost view = { λ t. t.bytes.items };
}

impl ConsoleText {
    pub fn new() -> Self
        ensures { result ≡ [] }
    {
        ConsoleText {
            bytes: ArrayVec::new(),
        }
    }

    pub fn is_empty(&self) -> bool
        ensures { result ≡ (length self.now == 0) }
    {
        self.bytes.len() == 0
    }

    /// Returns whether as much text waits as a packet takes.
    pub fn is_full(&self) -> bool
        ensures full { result ≡ is_full self.now }
        ensures short { length self.now ≤ 2047 }
    {
        self.bytes.len() == MAX_TEXT
    }

    /// Appends a byte of text.
    pub fn push(&mut self, byte: u8)
        requires { length self.old < 2047 }
        ensures { self.new ≡ self.old ++ byte ∷ [] }
    {
        self.bytes.push(byte);
    }

    /// Returns the text that waits.
    pub fn as_slice(&self) -> &[u8]
        ensures text { result.now ≡ self.now }
        ensures short { length result.now ≤ 2047 }
    {
        self.bytes.as_slice()
    }

    /// Takes all text away.
    pub fn clear(&mut self)
        ensures { self.new ≡ [] }
    {
        self.bytes.clear();
    }
}

/// Appends the packet of some text.
pub fn put_console<const ROOM: usize>(page: &mut ArrayVec<u8, ROOM>, text: &[u8])
    requires short { length text.now ≤ 2047 }
    requires room { array_vec_len page.old + 4 * length text.now + 6 ≤ ROOM }
    ensures { page.new.items ≡ page.old.items ++ console_packet text.now }
{
    let mut content: ArrayVec<u8, 4095> = ArrayVec::new();
    content.push(b'O');
    put_bytes(&mut content, text);
    put_packet(page, content.as_slice());
}
