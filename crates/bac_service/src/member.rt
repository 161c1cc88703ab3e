//! Named members of requests and replies.
ghost use Rattle.std.specs.Prelude.{◌≡◌, [], ◌∷◌, map};
ghost use Rattle.bac_service.specs.MemberViews.{member_view, members_view};

use crate::file::Content;
use crate::priority::Priority;
use crate::records::Records;
use bac_value::{Data, ObjectIdentifier};

/// A member of a request or of the service data of a ComplexACK, by its name (clauses 14 and 15).
#[derive(Clone, Copy, Debug)]
pub enum Member<'a> {
    /// Whether octets reach the end of the file.
    EndOfFile(bool),
    /// The object; of the file services the file.
    Object(ObjectIdentifier),
    /// The property's number (BACnetPropertyIdentifier).
    Property(u32),
    /// The element of an array; None for the whole property.
    Index(Option<u32>),
    /// The position of the first octet of a file, or -1 for its end.
    Position(i64),
    /// The number of the first record of a file, or -1 for its end.
    Record(i64),
    /// How many octets, or how many records.
    Count(u64),
    /// Octets of a file.
    Content(Content<'a>),
    /// Records of a file. Their number is a member of its own.
    Records(Records<'a>),
    /// Values of a property.
    Values(Data<'a>),
    /// The priority of a write, if any.
    Priority(Option<Priority>),
}

/// Members in the order in which they are printed.
#[derive(Clone, Copy, Debug)]
pub struct Members<'a> {
    /// The members; None after the last one.
    pub all: [Option<Member<'a>>; 5],
}

impl<'a> Members<'a> {
    pub(crate) fn one(member: Member<'a>) -> Members<'a>
        ensures { members_view result ≡ member_view member.entry ∷ [] }
    {
        Members {
            all: [Some(member), None, None, None, None],
        }
    }

    pub(crate) fn three(members: [Member<'a>; 3]) -> Members<'a>
        ensures { members_view result ≡ map member_view members.entry }
    {
        let [a, b, c] = members;
        Members {
            all: [Some(a), Some(b), Some(c), None, None],
        }
    }

    pub(crate) fn four(members: [Member<'a>; 4]) -> Members<'a>
        ensures { members_view result ≡ map member_view members.entry }
    {
        let [a, b, c, d] = members;
        Members {
            all: [Some(a), Some(b), Some(c), Some(d), None],
        }
    }

    pub(crate) fn five(members: [Member<'a>; 5]) -> Members<'a>
        ensures { members_view result ≡ map member_view members.entry }
    {
        let [a, b, c, d, e] = members;
        Members {
            all: [Some(a), Some(b), Some(c), Some(d), Some(e)],
        }
    }
}
