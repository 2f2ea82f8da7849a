//! The packets of GDB's remote serial protocol: their bytes, and the bytes of replies.
#![tactic(auto)]

mod digits;
mod escapes;
mod framer;
mod numbers;
mod packets;
mod parts;
mod replies;

pub use digits::{byte_of, digit_of};
pub use framer::{Event, Framer, MAX_BYTES, Place};
pub use numbers::{number, two_numbers};
pub use packets::{Packet, PointKind, Request, read_packet};
pub use parts::{Parts, parted};
pub use replies::{put_digits, put_packet};
