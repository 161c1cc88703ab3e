//! Reading and copying octets in pieces, starting at an offset.
ghost use Rattle.std.specs.Prelude.{◌≡◌, ◌<◌, ◌≤◌, ◌+◌, ◌++◌, ℕ, length, take, drop, IfOk, IfErr, OnOk, OnErr, MatchResult, Ok, Err, vec_len, vec_capacity};
ghost use Rattle.bac_value.specs.Appending.{Appends, Keeps};
ghost use Rattle.bac_value.specs.Data.{IsDataFront};
ghost use Rattle.bac_value.specs.Reading.{tag_at, data_of, fault_place};
ghost use Rattle.bac_value.specs.Spelling.{Mark, SpellsTag};
ghost use Rattle.bac_value.specs.Views.{tag_view, parts_view};

use crate::data_reading::take_data;
use crate::fault::Fault;
use crate::memory::NoMemory;
use crate::octets::Octets;
use crate::parts::Parts;
use crate::tag::Tag;
use crate::tag_reading::tag_in;

/// Reads the tag at an offset, as `read_tag` does. The place of a fault counts from the front of the parts.
pub fn read_tag_at(parts: &Parts<'_>, at: usize) -> Result<(Tag, usize), Fault>
    requires { at ≤ length (parts_view parts.now) }
    ensures found { IfOk result (λ r. (at + r.1 ≤ length (parts_view parts.now)) × SpellsTag (tag_view r.0) (take r.1 (drop at (parts_view parts.now)))) }
    ensures refused { IfErr result (λ e. (t : Mark) (k : ℕ) → SpellsTag t (take k (drop at (parts_view parts.now))) → ⊥) }
    ensures place { IfErr result (λ e. e.at ≡ at) }
    ensures exact { MatchResult result (λ r. tag_at (drop at (parts_view parts.now)) ≡ Ok (tag_view r.0, drop r.1 (drop at (parts_view parts.now))))
        (λ e. tag_at (drop at (parts_view parts.now)) ≡ Err e.kind) }
{
    let (_, rest) = parts.split(at);
    match tag_in(rest) {
        Ok(found) => Ok(found),
        Err(kind) => Err(Fault { kind, at }),
    }
}

/// The length in octets of the data at an offset, as `read_data` finds them. The place of a fault counts from the front of the parts.
pub fn check_data_at(parts: &Parts<'_>, at: usize) -> Result<usize, Fault>
    requires { at ≤ length (parts_view parts.now) }
    ensures found { IfOk result (λ k. (at + k ≤ length (parts_view parts.now)) × IsDataFront (drop at (parts_view parts.now)) k) }
    ensures refused { IfErr result (λ e. (k : ℕ) → IsDataFront (drop at (parts_view parts.now)) k → ⊥) }
    ensures exact { IfErr result (λ e. (data_of (drop at (parts_view parts.now)) ≡ Err e.kind) × (e.at ≡ at + fault_place (drop at (parts_view parts.now)))) }
    ensures place { IfErr result (λ e. (at ≤ e.at) × (e.at ≤ length (parts_view parts.now))) }
{
    let (_, rest) = parts.split(at);
    match take_data(rest) {
        Ok((data, _)) => Ok(data.len()),
        Err(fault) => Err(Fault {
            kind: fault.kind,
            at: at + fault.at,
        }),
    }
}

/// Appends `len` octets from an offset on. Returns `NoMemory` and changes nothing if the vector has too little room and cannot grow.
pub fn copy_out(parts: &Parts<'_>, at: usize, len: usize, out: &mut Vec<u8>) -> Result<(), NoMemory>
    requires { at + len ≤ length (parts_view parts.now) }
    ensures ok { Appends result out.old out.new (take len (drop at (parts_view parts.now))) }
    ensures err { Keeps result out.old out.new }
    ensures full { OnErr result (vec_capacity out.old < vec_len out.old + len) }
{
    let (_, rest) = parts.split(at);
    rest.front(len).append_to(out)
}
