//! What the firmware printed.

ghost use Rattle.std.specs.Prelude.{◌≡◌, ◌≤◌, length, take, IfOk};
ghost use Rattle.survey.specs.Console.{with_any_byte, with_byte};

use std::alloc::{AllocError, Global};
use std::marker::Model;

/// How many bytes are kept at most.
pub const MAX_BYTES: usize = 65536;

/// The first bytes that the firmware printed, and how many it printed.
#[derive(Drop)]
pub struct Console {
    bytes: Vec<u8>,
    used: usize,
    number: u64,
}

impl Model for Console {
    ghost use Rattle.std.specs.Prelude.{◌≡◌, ◌≤◌, length};
    ghost use Rattle.survey.specs.Console.{Console as ConsoleView};

    ghost Value = { ConsoleView };

    ghost view = { λ c. record { bytes = c.bytes.items; used = c.used; number = c.number } };

    ghost invariant = { λ c. (length c.bytes.items ≡ 65536) × (c.used ≤ 65536) };
}

impl Console {
    /// Returns a console to which nothing was printed. It takes no more memory as it grows.
    pub fn new(alloc: Global) -> Result<Self, AllocError>
        ensures used { IfOk result (λ console. console.used ≡ 0) }
        ensures number { IfOk result (λ console. console.number ≡ 0) }
        ensures room { IfOk result (λ console. length console.bytes ≡ MAX_BYTES) }
    {
        let bytes = vec![in alloc; 0; MAX_BYTES]?;
        Ok(Console {
            bytes,
            used: 0,
            number: 0,
        })
    }

    /// Returns the first bytes that were printed, at most 65,536.
    pub fn bytes(&self) -> &[u8]
        ensures { result.now ≡ take self.now.used self.now.bytes }
    {
        &self.bytes[..self.used]
    }

    /// Returns how many bytes were printed. It stays at its highest value, 2^64 - 1.
    pub fn number(&self) -> u64
        ensures { result ≡ self.now.number }
    {
        self.number
    }

    /// Takes a byte that was printed, if there is one.
    #[inline(always)]
    pub fn take_any_byte(&mut self, byte: Option<u8>)
        ensures { self.new ≡ with_any_byte self.old byte }
    {
        if let Some(byte) = byte {
            self.take_byte(byte);
        }
    }

    /// Takes a byte that was printed.
    pub fn take_byte(&mut self, byte: u8)
        ensures { self.new ≡ with_byte self.old byte }
    {
        self.number = self.number.saturating_add(1);
        let used = self.used;
        if used < MAX_BYTES {
            self.bytes[used] = byte;
            self.used = used + 1;
        }
    }
}
