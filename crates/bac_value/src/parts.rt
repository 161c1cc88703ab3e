//! Octets in pieces, read as if joined.
ghost use Rattle.std.specs.Prelude.{◌≡◌, ◌<◌, ◌≤◌, ◌+◌, ◌-◌, ◌++◌, ◌^◌, ◌↔◌, IsTrue, length, take, drop, min, IsSome, IfSome, IfOk, OnOk, OnErr};
ghost use Rattle.std.specs.Prelude.{vec_len, vec_capacity};
ghost use Rattle.bac_value.specs.Appending.{Appends, Keeps};
ghost use Rattle.bac_value.specs.Octets.{IsBytes, joined, begins_in_first};

use crate::memory::NoMemory;
use crate::octets::{Octets, slice_len};

/// Octets in pieces, read as if joined, from a position on. Pieces may be empty.
///
/// Compared with joined octets, counting passes the pieces once, reading passes them a small constant number of times (a tag that
/// is looked at first is read again), and copying passes them once more.
#[derive(Clone, Copy)]
pub struct Parts<'a> {
    pub(crate) parts: &'a [Vec<u8>],
    pub(crate) skip: usize,
    pub(crate) len: usize,
    ghost counted: { skip + len ≤ length (joined parts.now) },
    ghost each: { IsBytes (joined parts.now) },
    ghost in_range: { skip + len < 2 ^ 64 },
    ghost settled: { IsTrue (begins_in_first parts.now skip) },
}

/// Leaves out the pieces before the position `skip`; `len` octets are left.
pub(crate) fn settled(parts: &[Vec<u8>], skip: usize, len: usize) -> Parts<'_>
    requires counted { skip + len ≤ length (joined parts.now) }
    requires each { IsBytes (joined parts.now) }
    requires in_range { skip + len < 2 ^ 64 }
    ensures same { drop result.skip (joined result.parts.now) ≡ drop skip (joined parts.now) }
    ensures count { result.len ≡ len }
{
    let mut rest = parts;
    let mut over = skip;
    while let Some((part, after)) = rest.split_first() {
        if over < slice_len(part) {
            break;
        }
        over -= slice_len(part);
        rest = after;
    }
    Parts {
        parts: rest,
        skip: over,
        len,
    }
}

/// How many octets some pieces have; None if there are more than `2^64 - 1`.
fn total_of(parts: &[Vec<u8>]) -> Option<usize>
    ensures some { IsSome result ↔ (length (joined parts.now) < 2 ^ 64) }
    ensures all { IfSome result (λ n. (n ≡ length (joined parts.now)) × IsBytes (joined parts.now)) }
{
    let mut len: usize = 0;
    for part in parts {
        len = len.checked_add(slice_len(part))?;
    }
    Some(len)
}

impl<'a> Parts<'a> {
    ghost use Rattle.bac_value.specs.Views.{parts_view};

    /// All octets of some pieces. The caller guarantees that there are fewer than `2^64`.
    pub fn new(parts: &'a [Vec<u8>]) -> Parts<'a>
        requires { length (joined parts.now) < 2 ^ 64 }
        ensures { parts_view result ≡ joined parts.now }
    {
        match total_of(parts) {
            Some(len) => settled(parts, 0, len),
            None => unreachable!(),
        }
    }

    /// All octets of some pieces; None exactly where there are `2^64` or more.
    pub fn try_new(parts: &'a [Vec<u8>]) -> Option<Parts<'a>>
        ensures some { IsSome result ↔ (length (joined parts.now) < 2 ^ 64) }
        ensures octets { IfSome result (λ p. parts_view p ≡ joined parts.now) }
    {
        let len = total_of(parts)?;
        Some(settled(parts, 0, len))
    }
}

/// Appends those of the remaining octets that are in this piece, and returns their number.
fn append_piece(part: &[u8], skip: usize, left: usize, out: &mut Vec<u8>) -> Result<usize, NoMemory>
    requires { skip ≤ length part.now }
    ensures count { IfOk result (λ here. here ≡ min left (length part.now - skip)) }
    ensures ok { IfOk result (λ here. out.new.items ≡ out.old.items ++ take here (drop skip part.now)) }
    ensures len { IfOk result (λ here. vec_len out.new ≡ vec_len out.old + here) }
    ensures err { Keeps result out.old out.new }
    ensures full { OnErr result (vec_capacity out.old < vec_len out.old + left) }
    ensures grows { vec_capacity out.old ≤ vec_capacity out.new }
{
    let here = left.min(part.len() - skip);
    out.extend_from_slice(&part[skip..skip + here])?;
    Ok(here)
}

/// Appends `len` of the pieces' octets, starting at the offset `at`.
fn append_pieces(
    parts: &[Vec<u8>],
    at: usize,
    len: usize,
    out: &mut Vec<u8>,
) -> Result<(), NoMemory>
    requires { at + len ≤ length (joined parts.now) }
    ensures ok { Appends result out.old out.new (take len (drop at (joined parts.now))) }
    ensures err { Keeps result out.old out.new }
    ensures full { OnErr result (vec_capacity out.old < vec_len out.old + len) }
{
    out.reserve(len)?;
    let mut skip = at;
    let mut left = len;
    for part in parts {
        if left == 0 {
            break;
        }
        let over = skip.min(part.len());
        let here = append_piece(part, over, left, out)?;
        left -= here;
        skip -= over;
    }
    Ok(())
}

impl Octets for Parts<'_> {
    ghost use Rattle.bac_value.specs.Views.{parts_view};

    ghost octets = { parts_view };

    fn len(self) -> usize {
        self.len
    }

    fn run(&self) -> &[u8] {
        match self.parts.split_first() {
            Some((part, _)) => {
                let here = self.len.min(part.len() - self.skip);
                &part[self.skip..self.skip + here]
            }
            None => &[],
        }
    }

    fn first(self) -> Option<(u8, Self)> {
        if self.len == 0 {
            return None;
        }
        let (part, _) = self.parts.split_first()?;
        let first = part[self.skip];
        Some((first, settled(self.parts, self.skip + 1, self.len - 1)))
    }

    fn front(self, count: usize) -> Self {
        Parts {
            parts: self.parts,
            skip: self.skip,
            len: count,
        }
    }

    fn split(self, count: usize) -> (Self, Self) {
        (
            self.front(count),
            settled(self.parts, self.skip + count, self.len - count),
        )
    }

    fn append_to(self, out: &mut Vec<u8>) -> Result<(), NoMemory> {
        append_pieces(self.parts, self.skip, self.len, out)
    }
}
