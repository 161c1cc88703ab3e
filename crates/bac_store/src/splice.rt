//! New octets for a file, with all the memory that writing them takes.
ghost use Rattle.std.specs.Prelude.{◌≡◌, ◌+◌, ◌*◌, ◌<◌, ◌≤◌, ◌++◌, [], length, take, IfOk, OnErr, vec_capacity};
ghost use Rattle.bac_store.specs.Limits.{FILE_LIMIT as FILE_MOST};
ghost use Rattle.bac_store.specs.Replies.{overwritten};

use crate::copying::copied_octets;
use crate::limits::FILE_LIMIT;
use bac_value::NoMemory;
use std::alloc::Global;

/// New octets for a file, and the position at which they begin. The file's own vector may have no room for octets after its end, so
/// there is room for the new ones and all that precede them. At position 0 no more is needed, as they can become the file's vector.
#[derive(Debug, Drop)]
pub(crate) struct Splice {
    pub at: usize,
    pub new: Vec<u8>,
    room: Vec<u8>,
    ghost empty: { length room.items ≤ 0 },
    ghost wide: { 1 ≤ at → at + length new.items ≤ vec_capacity room },
}

/// How many octets to reserve: twice as many as needed, so that a growing file is seldom copied.
fn room_for(at: usize, new: &[u8]) -> usize
    requires short { at + length new.now ≤ FILE_MOST }
    ensures wide { 1 ≤ at → at + length new.now ≤ result }
    ensures none { at ≡ 0 → result ≡ 0 }
{
    if at == 0 {
        return 0;
    }
    FILE_LIMIT.min(2 * (at + new.len()))
}

/// Appends octets, for which there is room.
fn put(out: &mut Vec<u8>, octets: &[u8])
    requires { length out.old.items + length octets.now ≤ vec_capacity out.old }
    ensures items { out.new.items ≡ out.old.items ++ octets.now }
    ensures capacity { vec_capacity out.old ≤ vec_capacity out.new }
{
    match out.extend_from_slice(octets) {
        Ok(()) => {}
        // the caller made sure of the room
        Err(_) => unreachable!(),
    }
}

/// Replaces all octets from a position on, in the file's own vector if that has room.
fn write_end(octets: &mut Vec<u8>, at: usize, new: &[u8], room: Vec<u8>)
    requires empty { room.items ≡ [] }
    requires wide { at + length new.now ≤ vec_capacity room }
    ensures { octets.new.items ≡ take at octets.old.items ++ new.now }
{
    octets.truncate(at);
    if octets.capacity() < at + new.len() {
        // the reserved vector takes the octets, and the place of the file's own
        let mut room = room;
        put(&mut room, octets);
        *octets = room;
    }
    put(octets, new);
}

impl Splice {
    /// Copies the new octets and reserves the room.
    pub(crate) fn new(alloc: Global, at: usize, new: &[u8]) -> Result<Splice, NoMemory>
        requires short { at + length new.now ≤ FILE_MOST }
        ensures at { IfOk result (λ s. s.at ≡ at) }
        ensures new { IfOk result (λ s. s.new.items ≡ new.now) }
        ensures held { OnErr result (1 ≤ at + length new.now) }
    {
        let room = Vec::with_capacity(alloc, room_for(at, new))?;
        let new = copied_octets(alloc, new)?;
        Ok(Splice { at, new, room })
    }

    /// Overwrites octets of a file with the new ones, possibly beyond its end; octets after those stay. It does not allocate.
    pub(crate) fn write(self, octets: &mut Vec<u8>)
        requires short { self.at + length self.new.items ≤ FILE_MOST }
        ensures { octets.new.items ≡ overwritten self.at self.new.items octets.old.items }
    {
        let Splice { at, new, room } = self;
        let end = at + new.len();
        if end < octets.len() {
            octets[at..end].copy_from_slice(&new);
        } else if at == 0 {
            // all is replaced, so the new octets become the file's vector
            *octets = new;
        } else {
            write_end(octets, at, &new, room);
        }
    }
}
