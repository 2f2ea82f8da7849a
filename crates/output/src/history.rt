//! A list that contracts alone see. It takes no memory, and its methods do nothing when they run.

ghost use Rattle.std.specs.Prelude.{◌≡◌, List, [], ◌∷◌, ◌++◌};
ghost use Rattle.std.specs.Borrow.{ftrue};

use std::marker::{Model, PhantomData};

/// Pairs of values, in the order in which they were added.
#[derive(Drop)]
pub struct History<A, B> {
    of: PhantomData<(A, B)>,
    pub ghost items: { List (A × B) },
}

impl<A, B> Model for History<A, B> {
    ghost also_owns = { λ _. ftrue };
}

impl<A, B> History<A, B> {
    /// Makes a list of no pairs.
    #[inline(always)]
    pub fn new() -> History<A, B>
        ensures { result.items ≡ [] }
    {
        History { of: PhantomData }
    }

    /// Returns the list with one pair more.
    #[inline(always)]
    pub fn and(&self, first: &A, second: &B) -> History<A, B>
        ensures { result.items ≡ self.now.items ++ (first.now, second.now) ∷ [] }
    {
        History { of: PhantomData }
    }
}
