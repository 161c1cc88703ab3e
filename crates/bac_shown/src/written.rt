//! What was written, for clauses alone.
ghost use Rattle.std.specs.Prelude.{◌≡◌, ◌++◌, List, ℕ, []};
ghost use Rattle.std.specs.Borrow.{ftrue};

use std::marker::{Model, PhantomData};

/// Octets that clauses alone read; it has no bytes.
#[derive(Drop)]
pub struct Written {
    marker: PhantomData<u8>,
    pub ghost octets: { List ℕ },
}

impl Model for Written {
    ghost also_owns = { λ _. ftrue };
}

impl Written {
    pub(crate) fn new() -> Written
        ensures { result.octets ≡ [] }
    {
        Written {
            marker: PhantomData,
        }
    }

    /// More octets follow.
    pub(crate) fn note(&mut self, _more: &[u8])
        ensures { self.new.octets ≡ self.old.octets ++ _more.now }
    {}
}
