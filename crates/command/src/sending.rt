//! Texts that go out whole.

ghost use Rattle.command.specs.Sending.{Sends};

use machine::{IoError, Out};

/// Puts a text, and sends what waits. On an error a prefix of the text was put.
#[tactic(auto, using(crate::proofs::Sent::sent_lemmas))]
pub fn send<O: Out>(text: &[u8], out: &mut O) -> Result<(), IoError>
    ensures { Sends text.now (O.writing out.old) (O.writing out.new) result }
{
    match out.put_all(text) {
        Ok(()) => match out.flush_all() {
            Ok(()) => Ok(()),
            Err(error) => Err(error),
        },
        Err(error) => Err(error),
    }
}
