//! Pokes that a tick is going to make (profile).

ghost use Rattle.std.specs.Prelude.{◌≡◌, None};
ghost use Rattle.devices.specs.Pokes.{last_poke};

/// A list of pokes, seen by what the last of them gives a word.
pub trait Pokes {
    ghost use Rattle.std.specs.Prelude.{List};
    ghost use Rattle.devices.specs.declared.device.Poke.{Poke};

    ghost pokes: { Self → List Poke };

    /// Returns the content that the last poke of the word at an address gives it, if there is one.
    fn last(&self, address: u32) -> Option<u32>
        ensures { result ≡ last_poke (pokes self.now) address None };
}

/// No pokes.
pub struct NoPokes;

impl Pokes for NoPokes {
    ghost use Rattle.std.specs.Prelude.{[]};

    ghost pokes = { λ _. [] };

    #[inline]
    fn last(&self, _address: u32) -> Option<u32> {
        None
    }
}
