//! Growing octets in few vectors. Octets are never copied again after they were appended.
ghost use Rattle.std.specs.Prelude.{◌≡◌, ◌-◌, ◌≤◌, ◌↔◌, ◌++◌, length, take, IsTrue, IfOk, OnOk, OnErr};
ghost use Rattle.bac_value.specs.Octets.{joined};

use bac_value::{NoMemory, Octets};
use std::alloc::Global;

/// The least capacity of a new vector. Of the usual segment sizes it holds 23 of 44 octets, 8 of 122, 5 of 200, 2 of 474, or 1 of
/// 1,018; longer segments get a vector each.
pub(crate) const ROOM: usize = 1_024;

/// Appends octets, or changes nothing. They go into the last vector if it has room for them, otherwise into a new one.
pub fn append(alloc: Global, chunks: &mut Vec<Vec<u8>>, octets: &[u8]) -> Result<(), NoMemory>
    ensures ok { OnOk result (joined chunks.new.items ≡ joined chunks.old.items ++ octets.now) }
    ensures err { OnErr result (joined chunks.new.items ≡ joined chunks.old.items) }
{
    if let Some(last) = chunks.last_mut() {
        if octets.len() <= last.capacity() - last.len() {
            last.extend_from_slice(octets)?;
            return Ok(());
        }
    }
    chunks.push(begun(alloc, octets)?)?;
    Ok(())
}

/// A vector with these octets, with a capacity of at least [`ROOM`].
fn begun(alloc: Global, octets: &[u8]) -> Result<Vec<u8>, NoMemory>
    ensures { IfOk result (λ chunk. chunk.items ≡ octets.now) }
{
    let mut chunk = Vec::with_capacity(alloc, octets.len().max(ROOM))?;
    chunk.extend_from_slice(octets)?;
    Ok(chunk)
}

/// Removes the last `count` octets. Vectors that become empty are removed.
pub(crate) fn cut_back(chunks: &mut Vec<Vec<u8>>, count: usize)
    requires { count ≤ length (joined chunks.old.items) }
    ensures { joined chunks.new.items ≡ take (length (joined chunks.old.items) - count) (joined chunks.old.items) }
{
    let mut left = count;
    while let Some(mut last) = chunks.pop() {
        if left < last.len() {
            last.truncate(last.len() - left);
            chunks.push_reserved(last);
            return;
        }
        left -= last.len();
    }
}

/// Whether the octets are equal, however they are split into pieces.
pub(crate) fn same_octets<O: Octets>(ours: O, theirs: O) -> bool
    ensures { IsTrue result ↔ (O.octets ours ≡ O.octets theirs) }
{
    let mut left = ours;
    let mut right = theirs;
    while let Some((octet, rest)) = left.first() {
        let Some((other, others)) = right.first() else {
            return false;
        };
        if octet != other {
            return false;
        }
        left = rest;
        right = others;
    }
    right.len() == 0
}
