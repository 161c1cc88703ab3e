//! Octets that are read from the front, in one slice or in pieces.
ghost use Rattle.std.specs.Prelude.{◌≡◌, ◌<◌, ◌≤◌, ◌+◌, ◌++◌, ◌∷◌, ℕ, List, [], length, take, drop, MatchOption, OnOk, OnErr, IfOk, vec_len, vec_capacity};
ghost use Rattle.bac_value.specs.Appending.{Appends, Keeps, NeedsRoom};
ghost use Rattle.bac_value.specs.Octets.{IsBytes};
ghost use Rattle.bac_value.specs.declared.fault.FaultKind.TheVariants.{Truncated};
ghost use Rattle.bac_value.specs.Steps.{Reads, octet_at};

use crate::fault::FaultKind;
use crate::memory::NoMemory;
use std::alloc::Global;

/// Octets that are read from the front: a slice, or pieces that are read as if joined. A value is a position; a copy keeps it.
pub trait Octets: Copy {
    ghost octets: { Self → List ℕ };

    /// How many octets are left.
    fn len(self) -> usize
        ensures count { result ≡ length (octets self) }
        ensures each { IsBytes (octets self) };

    /// Octets at the front that are contiguous in memory.
    fn run(&self) -> &[u8]
        ensures { result.now ≡ take (length result.now) (octets self.now) };

    /// The first octet and the octets after it; None at the end.
    fn first(self) -> Option<(u8, Self)>
        ensures { MatchOption result (octets self ≡ []) (λ r. octets self ≡ r.0 ∷ octets r.1) };

    /// The first `count` octets, in one step; it does not look for what follows them.
    fn front(self, count: usize) -> Self
        requires { count ≤ length (octets self) }
        ensures { octets result ≡ take count (octets self) };

    /// The first `count` octets, and the octets after them.
    fn split(self, count: usize) -> (Self, Self)
        requires { count ≤ length (octets self) }
        ensures front { octets result.0 ≡ take count (octets self) }
        ensures after { octets result.1 ≡ drop count (octets self) };

    /// Appends all octets, or changes nothing and returns `NoMemory`.
    fn append_to(self, out: &mut Vec<u8>) -> Result<(), NoMemory>
        ensures ok { Appends result out.old out.new (octets self) }
        ensures err { Keeps result out.old out.new }
        ensures full { NeedsRoom result out.old (octets self) };
}

impl Octets for &[u8] {
    ghost octets = { λ s. s.now };

    fn len(self) -> usize {
        slice_len(self)
    }

    fn run(&self) -> &[u8] {
        self
    }

    fn first(self) -> Option<(u8, Self)> {
        match self.split_first() {
            Some((first, rest)) => Some((*first, rest)),
            None => None,
        }
    }

    fn front(self, count: usize) -> Self {
        &self[..count]
    }

    fn split(self, count: usize) -> (Self, Self) {
        (&self[..count], &self[count..])
    }

    fn append_to(self, out: &mut Vec<u8>) -> Result<(), NoMemory> {
        out.extend_from_slice(self)?;
        Ok(())
    }
}

/// Copies the octets to a new vector, in one allocation if there are octets and in none otherwise.
pub fn copy_of<O: Octets>(alloc: Global, octets: O) -> Result<Vec<u8>, NoMemory>
    ensures same { IfOk result (λ copy. copy.items ≡ O.octets octets) }
    ensures full { OnErr result (0 < length (O.octets octets)) }
{
    let mut copy = Vec::new(alloc);
    octets.append_to(&mut copy)?;
    Ok(copy)
}

/// Copies all octets to a slice of the same length.
pub(crate) fn copy_to<O: Octets>(octets: O, out: &mut [u8])
    requires { length (O.octets octets) ≡ length out.old }
    ensures { out.new ≡ O.octets octets }
{
    let mut at = 0;
    let mut rest = octets;
    while let Some(read) = rest.first() {
        out[at] = read.0;
        at += 1;
        rest = read.1;
    }
}

pub(crate) fn slice_len(octets: &[u8]) -> usize
    ensures count { result ≡ length octets.now }
    ensures each { IsBytes octets.now }
{
    octets.len()
}

/// Reads the first octet, and returns it and the octets after it.
pub(crate) fn octet<O: Octets>(octets: O) -> Result<(u8, O), FaultKind>
    ensures reads { Reads (λ x. x) O.octets (O.octets octets) result (octet_at Truncated) }
    ensures onward { IfOk result (λ r. length (O.octets r.1) < length (O.octets octets)) }
{
    match octets.first() {
        Some(read) => Ok(read),
        None => Err(FaultKind::Truncated),
    }
}
