//! What a file has held, which only clauses read.
ghost use Rattle.std.specs.Prelude.{◌≡◌, ◌++◌, [], ◌∷◌, List, ℕ};
ghost use Rattle.std.specs.Borrow.{ftrue};

use std::marker::{Model, PhantomData};

/// The contents that a file had, the first of them first. It takes no memory.
#[derive(Drop)]
pub struct Past {
    marker: PhantomData<u8>,
    pub ghost contents: { List (List ℕ) },
}

impl Model for Past {
    ghost also_owns = { λ _. ftrue };
}

impl Past {
    /// It had none.
    pub(crate) fn new() -> Past
        ensures { result.contents ≡ [] }
    {
        Past {
            marker: PhantomData,
        }
    }

    /// It had these bytes.
    pub(crate) fn add(&mut self, _bytes: &[u8])
        ensures { self.new.contents ≡ self.old.contents ++ _bytes.now ∷ [] }
    {}
}
