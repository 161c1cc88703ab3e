//! Whether two lists are the same.
ghost use Rattle.std.specs.Prelude.{◌≡◌, ◌↔◌, IsTrue, map};

/// A value that can be compared with another as contracts see both.
pub trait Alike {
    // What contracts see of a value.
    ghost Seen: { Type 0 };

    ghost seen: { Self → Seen };

    /// Whether the two are one value to contracts.
    fn is_alike(&self, other: &Self) -> bool
        ensures { IsTrue result ↔ (seen self.now ≡ seen other.now) };
}

/// Whether contracts see the same values in the same order.
pub fn are_alike<T: Alike>(ones: &[T], others: &[T]) -> bool
    ensures { IsTrue result ↔ (map T.seen ones.now ≡ map T.seen others.now) }
{
    if ones.len() != others.len() {
        return false;
    }
    for at in 0..ones.len() {
        if !ones[at].is_alike(&others[at]) {
            return false;
        }
    }
    true
}
