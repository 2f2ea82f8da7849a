//! Text for GDB's console, in packets.

ghost use Rattle.std.specs.Prelude.{◌≡◌, [], ◌∷◌, OnOk};
ghost use Rattle.gdb.specs.Consoles.{ShowsText, console_from, console_with, emptied, flush_text, sent_with};
ghost use Rattle.gdb_texts.specs.Console.{console_packet};
ghost use Rattle.output.specs.Output.{Put};

use arrayvec::ArrayVec;
use gdb_texts::{ConsoleText, put_console};
use output::{IoError, Out};
use std::marker::Model;

/// The text of a run that waits for its packet, and the last byte of the run's text.
#[derive(Drop)]
pub struct Console {
    waiting: ConsoleText,
    last: Option<u8>,
}

impl Model for Console {
    ghost use Rattle.std.specs.Prelude.{◌<◌, length};
    ghost use Rattle.gdb.specs.Consoles.{Console as ConsoleView};

    ghost Value = { ConsoleView };

    ghost view = { λ c. record { waiting = c.waiting; last = c.last } };

    ghost invariant = { λ c. length c.waiting < 2047 };
}

impl Console {
    /// Returns a console without text, where this was the last byte before.
    pub fn new(last: Option<u8>) -> Self
        ensures { result ≡ console_from last }
    {
        Console {
            waiting: ConsoleText::new(),
            last,
        }
    }

    pub fn last(&self) -> Option<u8>
        ensures { result ≡ self.now.last }
    {
        self.last
    }

    /// Sends the text that waits, where there is one.
    pub fn flush<W: Out>(&mut self, out: &mut W) -> Result<(), IoError>
        ensures put { Put (W.writing out.old) (W.writing out.new) (flush_text self.old) result }
        ensures kept { OnOk result (self.new ≡ emptied self.old) }
    {
        if self.waiting.is_empty() {
            return Ok(());
        }
        self.send(out)
    }

    /// Sends the text that waits.
    fn send<W: Out>(&mut self, out: &mut W) -> Result<(), IoError>
        ensures put { Put (W.writing out.old) (W.writing out.new) (console_packet self.old.waiting) result }
        ensures kept { self.new ≡ emptied self.old }
    {
        let mut page: ArrayVec<u8, 8194> = ArrayVec::new();
        put_console(&mut page, self.waiting.as_slice());
        self.waiting.clear();
        out.put_all(page.as_slice())
    }

    /// Appends a byte, and sends the text where it fills a packet.
    fn put_byte<W: Out>(&mut self, byte: u8, out: &mut W) -> Result<(), IoError>
        ensures put { Put (W.writing out.old) (W.writing out.new) (sent_with self.old byte) result }
        ensures kept { self.new ≡ console_with self.old byte }
    {
        self.waiting.push(byte);
        self.last = Some(byte);
        if self.waiting.is_full() {
            let mut page: ArrayVec<u8, 8194> = ArrayVec::new();
            put_console(&mut page, self.waiting.as_slice());
            self.waiting.clear();
            return out.put_all(page.as_slice());
        }
        Ok(())
    }

    /// Appends text, and sends each packet that it fills.
    pub fn put<W: Out>(&mut self, text: &[u8], out: &mut W) -> Result<(), IoError>
        ensures { ShowsText (W.writing out.old) (W.writing out.new) self.old self.new text.now result }
    {
        'bytes: for byte in text {
            match self.put_byte(*byte, out) {
                Ok(()) => {}
                Err(error) => return Err(error),
            }
        }
        Ok(())
    }
}
