//! Pieces that exist in contracts only.
ghost use Rattle.std.specs.Prelude.{◌≡◌, ℕ, List, [], ◌∷◌, ◌++◌};
ghost use Rattle.std.specs.Borrow.{ftrue};

use std::marker::{Model, PhantomData};

/// The pieces that were given to the calls of a sink, one for each call. It takes no memory, and
/// its methods do nothing at run time.
#[derive(Drop)]
pub struct Pieces {
    marker: PhantomData<u8>,
    pub ghost brought: { List (List ℕ) },
}

impl Model for Pieces {
    ghost also_owns = { λ _. ftrue };
}

impl Pieces {
    pub(crate) fn new() -> Pieces
        ensures { result.brought ≡ [] }
    {
        Pieces {
            marker: PhantomData,
        }
    }

    /// Records that one more call was given this piece.
    pub(crate) fn note(&mut self, _piece: &[u8])
        ensures { self.new.brought ≡ self.old.brought ++ _piece.now ∷ [] }
    {}
}
