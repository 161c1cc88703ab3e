//! What both file services share: a part of a file, and octets at a position.
ghost use Rattle.std.specs.Prelude.{◌≡◌, ◌+◌, ◌++◌, ◌<◌, ◌≤◌, ◌^◌, ◌↔◌, IsSome, IfOk, IfSome, OnOk, OnErr, length, vec_len, vec_capacity};
ghost use Rattle.bac_value.specs.Number.{distance};
ghost use Rattle.bac_value.specs.Steps.{Reads};
ghost use Rattle.bac_service.specs.Files.{IsExtent, content_at, content_length, content_spelling, extent_at, extent_length, extent_spelling};
ghost use Rattle.bac_service.specs.Reading.{enclosed_at};
ghost use Rattle.bac_service.specs.Writing.{Writes};

use crate::member_len::{PAIR_LEN, member_len, signed_member_len, unsigned_member_len};
use crate::member_reading::{signed, string, unsigned};
use crate::member_writing::{put_closing, put_opening};
use crate::stop::Stop;
use crate::tag_reading::{closing, opening};
use bac_value::{
    Class, NoMemory, OctetString, Octets, copy_of, kinds, write_primitive, write_signed,
    write_unsigned,
};
use std::alloc::Global;

/// Octets for a file, at most `2^32 - 1` of them.
#[derive(Clone, Copy, Debug)]
pub struct Content<'a> {
    /// The octets.
    pub octets: &'a [u8],
    pub ghost fits: { length octets.now < 2 ^ 32 },
}

impl<'a> Content<'a> {
    /// The content; None exactly if there are too many octets.
    pub fn new(octets: &'a [u8]) -> Option<Content<'a>>
        ensures some { IsSome result ↔ (length octets.entry.now < 2 ^ 32) }
        ensures same { IfSome result (λ c. c.octets.now ≡ octets.entry.now) }
    {
        if octets.len() < 0x1_0000_0000 {
            Some(Content { octets })
        } else {
            None
        }
    }
}

/// Reads a start and a count between a pair of tags with this number.
#[tactic(auto, unfolding(crate::specs::Reading::enclosed_at))]
#[inline(always)]
pub(crate) fn take_extent<O: Octets>(octets: O, number: u8) -> Result<((i64, u64), O), Stop>
    ensures { Reads (λ t. t) O.octets (O.octets octets) result (enclosed_at number extent_at) }
{
    let rest = opening(octets, number)?;
    let (start, rest) = signed(rest, Class::Application, kinds::SIGNED)?;
    let (count, rest) = unsigned(rest, Class::Application, kinds::UNSIGNED)?;
    let rest = closing(rest, number)?;
    Ok(((start, count), rest))
}

/// Reads a position, and the octets to write there, between tags with number 0.
#[tactic(auto, unfolding(crate::specs::Reading::enclosed_at))]
#[inline(always)]
pub(crate) fn take_content<O: Octets>(octets: O) -> Result<((i64, O), O), Stop>
    ensures { Reads (λ t. (t.0, O.octets t.1)) O.octets (O.octets octets) result content_at }
{
    let rest = opening(octets, 0)?;
    let (start, rest) = signed(rest, Class::Application, kinds::SIGNED)?;
    let (content, rest) = string(rest)?;
    let rest = closing(rest, 0)?;
    Ok(((start, content), rest))
}

/// Appends a Signed and an Unsigned with application tags.
pub(crate) fn put_extent(start: i64, count: u64, out: &mut Vec<u8>) -> Result<(), NoMemory>
    ensures { Writes result out.old out.new (extent_spelling start count) }
{
    write_signed(Class::Application, kinds::SIGNED, start, out)?;
    write_unsigned(Class::Application, kinds::UNSIGNED, count, out)
}

/// Appends a Signed and an OctetString with application tags, between a pair of tags with number 0.
#[inline(always)]
pub(crate) fn put_content(
    start: i64,
    content: Content<'_>,
    out: &mut Vec<u8>,
) -> Result<(), NoMemory>
    ensures { Writes result out.old out.new (content_spelling start content.entry.octets.now) }
{
    put_opening(0, out)?;
    write_signed(Class::Application, kinds::SIGNED, start, out)?;
    write_primitive(Class::Application, kinds::OCTET_STRING, content.octets, out)?;
    put_closing(0, out)
}

/// The length in octets of a Signed and an Unsigned with their tags.
pub(crate) fn extent_len(start: i64, count: u64) -> usize
    ensures len { result ≡ extent_length start count }
    ensures is { IsExtent start count }
    ensures few { result ≤ 20 }
{
    signed_member_len(start) + unsigned_member_len(count)
}

/// The length in octets of a position and the octets at it, between tags with number 0.
pub(crate) fn content_len(start: i64, content: Content<'_>) -> usize
    ensures len { result ≡ content_length start (length content.entry.octets.now) }
    ensures start_fits { distance start < 2 ^ 63 }
    ensures content_fits { length content.entry.octets.now < 2 ^ 32 }
    ensures few { result ≤ length content.entry.octets.now + 18 }
{
    signed_member_len(start) + member_len(content.octets.len()) + PAIR_LEN
}

/// Copies octets, in one allocation if there are any.
pub(crate) fn string_copy<O: Octets>(alloc: Global, octets: O) -> Result<OctetString, NoMemory>
    requires { length (O.octets octets) < 2 ^ 32 }
    ensures same { IfOk result (λ s. s.octets.items ≡ O.octets octets) }
    ensures full { OnErr result (0 < length (O.octets octets)) }
{
    let octets = copy_of(alloc, octets)?;
    Ok(OctetString { octets })
}
