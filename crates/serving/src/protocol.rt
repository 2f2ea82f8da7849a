//! What a session does with a byte.

ghost use Rattle.std.specs.Prelude.{◌≡◌, OnOk};
ghost use Rattle.reference.specs.State.{State};
ghost use Rattle.serving.specs.Conduct.{Conduct};
ghost use Rattle.serving.specs.Pieces.{Delivers};

use output::{IoError, Out};
use target::Target;

/// A protocol: what is kept between two bytes, and what each byte makes the machine do and the session write.
pub trait Protocol<T: Target> {
    ghost conduct: { Conduct Self };

    ghost ready: { Self → State → Type 0 };

    /// Returns whether the session reads on.
    fn is_open(&self) -> bool
        ensures { result ≡ conduct.is_open self.now };

    /// Takes a byte of the input, and writes its answers.
    fn answer_byte<W: Out>(&mut self, machine: &mut T, byte: u8, out: &mut W) -> Result<(), IoError>
        requires { ready self.old (T.model machine.old).state }
        ensures delivers { Delivers (conduct.answered self.old (T.model machine.old).state byte)
            (T.model machine.old) (T.model machine.new) (W.writing out.old) (W.writing out.new) result }
        ensures kept { OnOk result (self.new ≡ conduct.kept self.old (T.model machine.old).state byte) }
        ensures ready { OnOk result (ready self.new (T.model machine.new).state) };

    /// Writes the answers at the end of the input.
    fn finish<W: Out>(&mut self, machine: &mut T, out: &mut W) -> Result<(), IoError>
        requires { ready self.old (T.model machine.old).state }
        ensures { Delivers (conduct.at_end self.old (T.model machine.old).state)
            (T.model machine.old) (T.model machine.new) (W.writing out.old) (W.writing out.new) result };
}
