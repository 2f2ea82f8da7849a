//! The bytes from GDB, and the packets among them.

ghost use Rattle.std.specs.Prelude.{◌≡◌};
ghost use Rattle.gdb_packets.specs.Framing.{after, after_end, after_inside, after_outside, at_start, begun, end_event};
ghost use Rattle.gdb_packets.specs.Framing.{event_of, is_checksum, outside_event, with_byte};

use crate::digits::byte_of;
use crate::escapes::{DOLLAR, HASH, unescape};
use arrayvec::ArrayVec;
use std::marker::Model;

/// The most bytes between `$` and `#`, escapes counted.
pub const MAX_BYTES: usize = 4096;

/// Where the next byte is.
#[derive(Clone, Copy)]
pub enum Place {
    /// Outside packets.
    Outside,
    /// Between `$` and `#`.
    Inside,
    /// It is the first digit of a checksum.
    FirstDigit,
    /// It is the second digit of a checksum, after this byte.
    SecondDigit(u8),
}

/// What a byte makes.
#[derive(Clone, Copy)]
pub enum Event {
    /// Nothing yet, or the byte is ignored.
    Nothing,
    /// A packet whose checksum is right.
    Packet,
    /// A packet whose checksum is wrong, or isn't two hexadecimal digits.
    WrongChecksum,
    /// A packet of more than 4,096 bytes whose checksum is right.
    TooLong,
    /// `+`: a packet was received.
    Acknowledgement,
    /// `-`: the last packet should be sent again.
    Rejection,
    /// The byte 3: the target should stop.
    Interrupt,
}

/// The bytes since the last `$`, and the data of the last packet.
#[derive(Drop)]
pub struct Framer {
    place: Place,
    raw: ArrayVec<u8, MAX_BYTES>,
    is_long: bool,
    checksum: u8,
    content: ArrayVec<u8, MAX_BYTES>,
}

impl Model for Framer {
    ghost use Rattle.std.specs.Prelude.{Some, None, if◌then◌else◌};
    ghost use Rattle.gdb_packets.specs.Framing.{Framing};

    ghost Value = { Framing };

    ghost view = { λ f. record {
      place = f.place;
      raw = if f.is_long then None else Some f.raw.items;
      checksum = f.checksum;
      content = f.content.items;
    } };
}

impl Framer {
    /// Returns a framer before the first byte.
    pub fn new() -> Self
        ensures { result ≡ at_start }
    {
        Framer {
            place: Place::Outside,
            raw: ArrayVec::new(),
            is_long: false,
            checksum: 0,
            content: ArrayVec::new(),
        }
    }

    /// Takes the next byte from GDB, and returns what it makes.
    pub fn push(&mut self, byte: u8) -> Event
        ensures event { result ≡ event_of self.old byte }
        ensures after { self.new ≡ after self.old byte }
    {
        match self.place {
            Place::Outside => self.push_outside(byte),
            Place::Inside => {
                self.push_inside(byte);
                Event::Nothing
            }
            Place::FirstDigit => {
                self.place = Place::SecondDigit(byte);
                Event::Nothing
            }
            Place::SecondDigit(first) => self.finish(first, byte),
        }
    }

    /// Returns the data of the last packet, with escapes undone.
    pub fn content(&self) -> &[u8]
        ensures { result.now ≡ self.now.content }
    {
        self.content.as_slice()
    }

    /// Begins a packet.
    fn begin(&mut self)
        ensures { self.new ≡ begun self.old }
    {
        self.place = Place::Inside;
        self.raw.clear();
        self.is_long = false;
        self.checksum = 0;
    }

    /// Takes a byte outside packets.
    fn push_outside(&mut self, byte: u8) -> Event
        ensures event { result ≡ outside_event byte }
        ensures after { self.new ≡ after_outside self.old byte }
    {
        if byte == DOLLAR {
            self.begin();
        }
        outside_event(byte)
    }

    /// Takes a byte inside a packet.
    fn push_inside(&mut self, byte: u8)
        ensures { self.new ≡ after_inside self.old byte }
    {
        if byte == DOLLAR {
            self.begin();
        } else if byte == HASH {
            self.place = Place::FirstDigit;
        } else {
            self.push_raw(byte);
        }
    }

    /// Appends a byte to the packet.
    fn push_raw(&mut self, byte: u8)
        ensures { self.new ≡ with_byte self.old byte }
    {
        if self.raw.len() < MAX_BYTES {
            self.raw.push(byte);
        } else {
            self.is_long = true;
        }
        self.checksum = self.checksum.wrapping_add(byte);
    }

    /// Takes the second digit of a checksum, which ends a packet.
    fn finish(&mut self, first: u8, second: u8) -> Event
        ensures event { result ≡ end_event self.old first second }
        ensures after { self.new ≡ after_end self.old first second }
    {
        self.place = Place::Outside;
        if !is_checksum(self.checksum, byte_of(first, second)) {
            return Event::WrongChecksum;
        }
        if self.is_long {
            return Event::TooLong;
        }
        unescape(self.raw.as_slice(), &mut self.content);
        Event::Packet
    }
}

/// Returns whether two digits are a checksum.
fn is_checksum(checksum: u8, digits: Option<u8>) -> bool
    ensures { result ≡ is_checksum checksum digits }
{
    match digits {
        Some(byte) => byte == checksum,
        None => false,
    }
}

/// Returns what a byte outside packets makes.
fn outside_event(byte: u8) -> Event
    ensures { result ≡ outside_event byte }
{
    match byte {
        3 => Event::Interrupt,
        b'+' => Event::Acknowledgement,
        b'-' => Event::Rejection,
        _ => Event::Nothing,
    }
}
