//! The words of the address space, without the effect that a load may have.

ghost use Rattle.std.specs.Prelude.{◌≡◌, ◌/◌, ◌*◌};
ghost use Rattle.access.specs.Peek.{word_of_window, word_outside, peek_word};

use crate::bus::Bus;
use clock::SysTickState;
use instruction_set::size::Size;
use micro::KeptCode;
use mpu::Decider;
use nvic::Exceptions;
use platform::map::{is_in_ppb, is_in_window};

/// The register of the device window that reads as the low 32 bits of the number of ticks.
const TICK: u32 = 0x4000_0004;

impl<D: Decider, C: KeptCode, L: Exceptions, U: SysTickState> Bus<D, C, L, U> {
    /// Returns the word that a load by privileged code would return now at an address divisible by 4, while IPSR is
    /// `exception`, and None where the bus would refuse the load. The MPU isn't asked, and nothing changes: COUNTFLAG
    /// stays.
    #[tactic(auto, using(crate::proofs::PeekedWords::peek_in_ppb, crate::proofs::PeekedWords::peek_elsewhere))]
    pub fn peek_word(&self, exception: u16, address: u32) -> Option<u32>
        requires { address / 4 * 4 ≡ address }
        ensures { result ≡ peek_word exception self.now address }
    {
        if is_in_ppb(address) {
            Some(self.system.peek_word(exception, address))
        } else {
            self.peek_outside(address)
        }
    }

    /// Returns the word that memory, a device or the device window has at an address.
    fn peek_outside(&self, address: u32) -> Option<u32>
        ensures { result ≡ word_outside self.now address }
    {
        if self.device_outside_memory(address, Size::Word).is_some() {
            return self.system.peek_device(address, Size::Word);
        }
        if is_in_window(address) {
            return self.peek_window(address);
        }
        self.memory().number(address, Size::Word)
    }

    /// Returns the word that the device window has at an address: TICK alone can be read.
    fn peek_window(&self, address: u32) -> Option<u32>
        ensures { result ≡ word_of_window self.now.system.time.ticks address }
    {
        if address == TICK {
            Some((self.system.ticks() % (1 << 32)) as u32)
        } else {
            None
        }
    }
}
