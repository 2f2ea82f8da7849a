//! The bytes of the address space, without the effect that a load may have.

ghost use Rattle.std.specs.Prelude.{◌≡◌, ◌<◌};
ghost use Rattle.machine.specs.Peek.{byte_of_word};

use crate::stepping::Processor;
use access::{Decider, Exceptions, KeptCode, SysTickState};

/// Returns byte `number` of a word, from the lowest.
fn byte_of_word(word: u32, number: u32) -> u8
    requires { number < 4 }
    ensures { result ≡ byte_of_word number word }
{
    ((word >> (8 * number)) & 0xFF) as u8
}

impl<D: Decider, C: KeptCode, L: Exceptions, U: SysTickState> Processor<D, C, L, U> {
    ghost use Rattle.machine.specs.Peek.{peek_byte};

    /// Returns the byte at an address: that of the word that a load by privileged code would return there now, and None
    /// where the bus would refuse that load. The MPU isn't asked, and nothing changes: COUNTFLAG stays.
    pub fn peek_byte(&self, address: u32) -> Option<u8>
        ensures { result ≡ peek_byte self.now address }
    {
        let exception = self.registers().exception();
        match self.bus().peek_word(exception, address & !3) {
            Some(word) => Some(byte_of_word(word, address % 4)),
            None => None,
        }
    }
}
