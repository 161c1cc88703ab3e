//! Writing data.
ghost use Rattle.std.specs.Prelude.{◌≡◌, ◌++◌, ◌+◌, ◌<◌, length, OnOk, OnErr, vec_len, vec_capacity};
ghost use Rattle.bac_value.specs.Appending.{Appends, Keeps, NeedsRoom};
ghost use Rattle.bac_value.specs.Data.{IsData};

use crate::data::Data;
use crate::memory::NoMemory;
use crate::octets::Octets;

/// Appends the octets of data. Returns `NoMemory` and changes nothing if the vector has too little room and cannot grow.
pub fn write_data(elements: Data<'_>, out: &mut Vec<u8>) -> Result<(), NoMemory>
    ensures spelled { ∥ IsData elements.entry.octets.now ∥₁ }
    ensures ok { Appends result out.old out.new elements.entry.octets.now }
    ensures err { Keeps result out.old out.new }
    ensures full { NeedsRoom result out.old elements.entry.octets.now }
{
    elements.octets.append_to(out)
}
