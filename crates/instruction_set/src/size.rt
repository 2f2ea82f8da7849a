//! How wide an access is.

ghost use Rattle.std.specs.Prelude.{◌≡◌};
ghost use Rattle.instruction_set.specs.Sizes.{bytes_in, is_word};

/// How many bytes an access moves.
#[derive(Clone, Copy)]
pub enum Size {
    Byte,
    Halfword,
    Word,
}

impl Size {
    /// Returns the number of bytes: 1, 2 or 4.
    #[inline]
    pub fn bytes(self) -> u32
        ensures { result ≡ bytes_in self }
    {
        match self {
            Size::Byte => 1,
            Size::Halfword => 2,
            Size::Word => 4,
        }
    }

    /// Returns whether the size is a word.
    #[inline]
    pub fn is_word(self) -> bool
        ensures { result ≡ is_word self }
    {
        matches!(self, Size::Word)
    }
}
