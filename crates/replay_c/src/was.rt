//! What some bytes were, which only proofs read.
ghost use Rattle.std.specs.Prelude.{◌≡◌, List, ℕ};
ghost use Rattle.std.specs.Borrow.{ftrue};

use std::marker::Model;

/// What some bytes were when it was made. It has no bytes itself, and no code reads it.
#[derive(Drop)]
pub(crate) struct Was {
    pub(crate) ghost bytes: { List ℕ },
}

impl Model for Was {
    ghost also_owns = { λ _. ftrue };
}

impl Was {
    /// What these bytes are now.
    pub(crate) fn of(_bytes: &[u8]) -> Was
        ensures { result.bytes ≡ _bytes.now }
    {
        Was {}
    }
}
