//! The lengths of encoded members, computed without writing them.
ghost use Rattle.std.specs.Prelude.{◌≡◌, ◌<◌, ◌≤◌, ◌^◌};
ghost use Rattle.bac_service.specs.Lengths.{member_length, unsigned_length, signed_length, index_length};

use bac_value::{signed_len, unsigned_len};

/// The length in octets of an ObjectIdentifier with its tag.
pub(crate) const OBJECT_LEN: usize = 5;

/// The length in octets of a pair of opening and closing tags.
pub(crate) const PAIR_LEN: usize = 2;

/// The length of a tag with a number below 15, and of `len` octets of contents after it (clause 20.2.1.3).
pub(crate) fn member_len(contents: usize) -> usize
    requires { contents < 2 ^ 63 }
    ensures { result ≡ member_length contents }
{
    let length_octets = if contents < 5 {
        0
    } else if contents < 254 {
        1
    } else if contents < 65536 {
        3
    } else {
        5
    };
    1 + length_octets + contents
}

/// The length of a tag and an unsigned number in the fewest octets (clause 20.2.4).
#[tactic(auto, using(crate::proofs::MemberLengths::unsigned_width))]
pub(crate) fn unsigned_member_len(number: u64) -> usize
    ensures is { result ≡ unsigned_length number }
    ensures few { result ≤ 10 }
{
    member_len(unsigned_len(number))
}

/// The length of a tag and a signed number in the fewest octets of two's complement (clause 20.2.5).
pub(crate) fn signed_member_len(number: i64) -> usize
    ensures is { result ≡ signed_length number }
    ensures few { result ≤ 10 }
{
    member_len(signed_len(number))
}

/// The length of an optional number and its tag.
pub(crate) fn optional_len(number: Option<u32>) -> usize
    ensures is { result ≡ index_length number }
    ensures few { result ≤ 10 }
{
    match number {
        Some(number) => unsigned_member_len(u64::from(number)),
        None => 0,
    }
}
