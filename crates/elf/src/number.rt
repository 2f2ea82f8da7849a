//! The numbers of a file ("Data Representation"), the lowest byte first.

ghost use Rattle.std.specs.Prelude.{◌≡◌, ◌+◌, ◌≤◌, length};
ghost use Rattle.platform.specs.Images.{number_in};

use byteorder::{ByteOrder, LittleEndian};

/// Returns the number in the two bytes at a place of the file.
pub fn halfword(file: &[u8], at: usize) -> u16
    requires { at + 2 ≤ length file.now }
    ensures { result ≡ number_in file.now at 2 }
{
    LittleEndian::read_u16(&file[at..])
}

/// Returns the number in the four bytes at a place of the file.
pub fn word(file: &[u8], at: usize) -> u32
    requires { at + 4 ≤ length file.now }
    ensures { result ≡ number_in file.now at 4 }
{
    LittleEndian::read_u32(&file[at..])
}
