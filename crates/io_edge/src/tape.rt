//! Bytes that went by, which only clauses read.
ghost use Rattle.std.specs.Prelude.{◌≡◌, ℕ, List, [], ◌++◌};
ghost use Rattle.std.specs.Borrow.{ftrue};

use std::marker::{Model, PhantomData};

/// It takes no memory, and its methods do nothing when they run.
#[derive(Drop)]
pub struct Tape {
    marker: PhantomData<u8>,
    pub ghost bytes: { List ℕ },
}

impl Model for Tape {
    ghost also_owns = { λ _. ftrue };
}

impl Tape {
    pub(crate) fn new() -> Tape
        ensures { result.bytes ≡ [] }
    {
        Tape {
            marker: PhantomData,
        }
    }

    /// These bytes go by.
    pub(crate) fn note(&mut self, _piece: &[u8])
        ensures { self.new.bytes ≡ self.old.bytes ++ _piece.now }
    {}
}
