//! A list of at most `ROOM` elements, kept in place. Clearing it writes no element, so a list that is
//! filled anew at each step of a machine costs only what is put into it.

ghost use Rattle.std.specs.Prelude.{◌≡◌, ◌+◌, ◌<◌, ◌≤◌, [], ◌∷◌, ◌++◌, length};

use std::marker::Model;

/// A list of at most `ROOM` elements.
#[derive(Drop)]
pub struct Bounded<T, const ROOM: usize> {
    cells: [T; ROOM],
    /// How many of the cells are elements, at most `ROOM`.
    len: usize,
}

impl<T, const ROOM: usize> Model for Bounded<T, ROOM> {
    ghost use Rattle.std.specs.Prelude.{◌≤◌, take};
    ghost use Rattle.platform.specs.Bounded.{Bounded as Items, bounded_code};

    ghost Value = { Items T };

    ghost coded = { bounded_code T.code };

    ghost view = { λ b. record { items = take b.len b.cells } };

    ghost invariant = { λ b. b.len ≤ ROOM };
}

impl<T: Copy + Default, const ROOM: usize> Bounded<T, ROOM> {
    /// Returns a list of no elements.
    pub fn new() -> Self
        ensures { result.items ≡ [] }
    {
        Bounded {
            cells: [T::default(); ROOM],
            len: 0,
        }
    }

    /// Takes all elements off the list.
    #[inline]
    pub fn clear(&mut self)
        ensures { self.new.items ≡ [] }
    {
        self.len = 0;
    }

    /// Appends an element. There must be room.
    #[inline]
    pub fn push(&mut self, element: T)
        requires { length self.old.items < ROOM }
        ensures items { self.new.items ≡ self.old.items ++ element ∷ [] }
        ensures len { length self.new.items ≡ length self.old.items + 1 }
    {
        let len = self.len;
        self.cells[len] = element;
        self.len = len + 1;
    }

    /// Returns how many elements there are.
    #[inline]
    pub fn len(&self) -> usize
        ensures value { result ≡ length self.now.items }
        ensures fits { result ≤ ROOM }
    {
        self.as_slice().len()
    }

    /// Returns the elements, in their order.
    #[inline]
    pub fn as_slice(&self) -> &[T]
        ensures value { result.now ≡ self.now.items }
        ensures fits { length result.now ≤ ROOM }
    {
        &self.cells[..self.len]
    }
}
