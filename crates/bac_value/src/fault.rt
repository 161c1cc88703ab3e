//! What is wrong with octets, and where.
ghost use Rattle.std.specs.Prelude.{◌≡◌};
ghost use Rattle.bac_value.specs.Faults.{fault_number};

use thiserror::Error;

/// What is wrong with a tag, an element or data. `number` returns the number that is printed for it.
#[derive(Clone, Copy, Debug, PartialEq, Eq, Error)]
pub enum FaultKind {
    /// The octets end before the element does, or before an opened tag is closed.
    #[error("truncated")]
    Truncated = 1,
    /// A tag number that does not exist: 255, or 13 and above of the application class.
    #[error("reserved tag")]
    ReservedTag = 2,
    /// A tag number or a length that is encoded in more octets than it needs.
    #[error("long form")]
    LongForm = 3,
    /// A length that is not allowed for contents of this kind.
    #[error("bad length")]
    BadLength = 4,
    /// A number whose first octet is redundant.
    #[error("not the shortest number")]
    NotShortest = 5,
    /// A closing tag whose number differs from that of the open tag.
    #[error("unbalanced tags")]
    Unbalanced = 6,
    /// More than eight tags are open at once.
    #[error("too many open tags")]
    TooDeep = 7,
    /// Wrong unused bits of a bit string: more than 7 of them, one that is 1, or some although there are no bits.
    #[error("reserved bits")]
    ReservedBits = 8,
}

impl FaultKind {
    /// The number of the fault, 1 to 8, by which it is printed (own numbers of this profile).
    pub fn number(self) -> u8
        ensures { result ≡ fault_number self }
    {
        self as u8
    }
}

/// A fault with its place: the offset of the first octet of the faulty element's tag, or the length of the input at its end.
#[derive(Clone, Copy, Debug, PartialEq, Eq, Error)]
#[error("{kind} at octet {at}")]
pub struct Fault {
    /// What is wrong.
    pub kind: FaultKind,
    /// The place of the fault: how many octets of the input precede it.
    pub at: usize,
}
