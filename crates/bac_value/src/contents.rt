//! The contents octets of a tag: their length, then the octets themselves (clauses 20.2.2 to 20.2.14).
ghost use Rattle.std.specs.Prelude.{◌≡◌, ℕ, ◌<◌, ◌≤◌, ◌+◌, ◌-◌, ◌%◌, ◌^◌, ◌==◌, ◌&&◌, ◌∷◌, length, drop, take, slice_index, MatchOption, IfOk};
ghost use Rattle.std.specs.Prelude.{IsTrue, true};
ghost use Rattle.bac_value.specs.Element.{AreOfKind, HasContents};
ghost use Rattle.bac_value.specs.Limits.{bits_fit, length_tag_fits};
ghost use Rattle.bac_value.specs.Reading.{raw_at, kind_at, class_at, contents_at, number_at, signed_at, object_at};
ghost use Rattle.bac_value.specs.Reading.{length_in, flaw, is_longer_unsigned, is_longer_signed};
ghost use Rattle.bac_value.specs.Steps.{Reads, IsExact};
ghost use Rattle.bac_value.specs.Value.{unsigned, enumerated, signed, object};
ghost use Rattle.bac_value.specs.Views.{tag_view};

use crate::fault::FaultKind;
use crate::kinds;
use crate::octets::Octets;
use crate::tag::{Class, Form, Tag};

pub(crate) fn is_length_in(kind: u8, len: usize) -> bool
    ensures { result ≡ length_in kind len }
{
    match kind {
        kinds::NULL | kinds::BOOLEAN => len == 0,
        kinds::UNSIGNED | kinds::SIGNED => len > 0 && len < 9,
        kinds::DOUBLE => len == 8,
        kinds::OCTET_STRING => true,
        kinds::CHARACTER_STRING | kinds::BIT_STRING => len > 0,
        kinds::ENUMERATED => len > 0 && len < 5,
        _ => len == 4,
    }
}

fn first_two<O: Octets>(octets: O) -> Option<(u8, u8)>
    ensures { MatchOption result (length (O.octets octets) ≤ 1)
        (λ r. (1 < length (O.octets octets)) × (slice_index (O.octets octets) 0 ≡ r.0) × (slice_index (O.octets octets) 1 ≡ r.1)) }
{
    let (first, rest) = octets.first()?;
    let (second, _) = rest.first()?;
    Some((first, second))
}

fn is_unsigned_longer<O: Octets>(contents: O) -> bool
    ensures { result ≡ is_longer_unsigned (O.octets contents) }
{
    match first_two(contents) {
        Some((first, _)) => first == 0,
        None => false,
    }
}

fn is_signed_longer<O: Octets>(contents: O) -> bool
    ensures { result ≡ is_longer_signed (O.octets contents) }
{
    match first_two(contents) {
        Some((first, second)) => (first == 0 && second < 128) || (first == 255 && second > 127),
        None => false,
    }
}

fn has_zeros_below(octet: u8, count: u8) -> bool
    requires { count < 8 }
    ensures { result ≡ (octet % 2 ^ count == 0) }
{
    octet % (1 << count) == 0
}

fn last_octet<O: Octets>(octets: O) -> u8
    requires { 0 < length (O.octets octets) }
    ensures { result ≡ slice_index (O.octets octets) (length (O.octets octets) - 1) }
{
    let (_, last) = octets.split(octets.len() - 1);
    match last.first() {
        Some((last, _)) => last,
        None => unreachable!(),
    }
}

/// Whether a bit string may consist of this number of unused bits and these octets (clause 20.2.10; own rule of this profile).
pub(crate) fn are_bits_fit<O: Octets>(unused: u8, octets: O) -> bool
    ensures { result ≡ bits_fit unused (O.octets octets) }
{
    if unused > 7 {
        false
    } else if octets.len() == 0 {
        unused == 0
    } else {
        has_zeros_below(last_octet(octets), unused)
    }
}

fn is_bit_string<O: Octets>(contents: O) -> bool
    ensures { result ≡ bits_fit (slice_index (O.octets contents) 0) (drop 1 (O.octets contents)) }
{
    match contents.first() {
        Some((unused, octets)) => are_bits_fit(unused, octets),
        None => true,
    }
}

pub(crate) fn flaw_in<O: Octets>(contents: O, kind: u8) -> Option<FaultKind>
    ensures { result ≡ flaw kind (O.octets contents) }
{
    match kind {
        kinds::UNSIGNED | kinds::ENUMERATED => {
            is_unsigned_longer(contents).then_some(FaultKind::NotShortest)
        }
        kinds::SIGNED => is_signed_longer(contents).then_some(FaultKind::NotShortest),
        kinds::BIT_STRING => (!is_bit_string(contents)).then_some(FaultKind::ReservedBits),
        _ => None,
    }
}

#[tactic(auto, unfolding(crate::specs::Reading::raw_at))]
fn take_raw<O: Octets>(octets: O, len: usize) -> Result<(O, O), FaultKind>
    ensures reads { Reads O.octets O.octets (O.octets octets) result (raw_at len) }
    ensures sized { IfOk result (λ r. length (O.octets r.0) ≡ len) }
{
    if octets.len() < len {
        return Err(FaultKind::Truncated);
    }
    Ok(octets.split(len))
}

/// Reads `len` octets of contents of a kind (one of `kinds`), and returns them and the octets after them.
///
/// Call it for the contents of a context tag whose type is known. The length is tested first (`BadLength`), then whether all
/// octets are present (`Truncated`), then the octets themselves (`NotShortest`, `ReservedBits`).
#[tactic(auto, unfolding(crate::specs::Reading::kind_at))]
#[inline(always)]
pub fn take_contents<O: Octets>(octets: O, kind: u8, len: usize) -> Result<(O, O), FaultKind>
    requires { kind < 13 }
    ensures reads { Reads O.octets O.octets (O.octets octets) result (kind_at kind len) }
    ensures sized { IfOk result (λ r. (length (O.octets r.0) ≡ len) × IsTrue (length_in kind len)) }
{
    if !is_length_in(kind, len) {
        return Err(FaultKind::BadLength);
    }
    let (contents, rest) = take_raw(octets, len)?;
    match flaw_in(contents, kind) {
        Some(kind) => Err(kind),
        None => Ok((contents, rest)),
    }
}

/// Law: the contents readers accept exactly the contents that values of a kind have (clauses 20.2.2 to 20.2.14).
///
/// Clause `kinds` is about `take_contents`; the others are about `take_unsigned`, `take_enumerated`, `take_signed` and
/// `take_object_identifier`, which return the value with these contents.
pub fn exact_contents()
    ensures kinds { (n len : ℕ) → n < 13 → IsExact (kind_at n len) (AreOfKind n len) }
    ensures unsigned { (len : ℕ) → IsExact (number_at 2 len) (HasContents unsigned len) }
    ensures enumerated { (len : ℕ) → IsExact (number_at 9 len) (HasContents enumerated len) }
    ensures signed { (len : ℕ) → IsExact (signed_at len) (HasContents signed len) }
    ensures object { (len : ℕ) → IsExact (object_at len) (HasContents object len) }
{}

#[tactic(auto, unfolding(crate::specs::Reading::class_at))]
#[inline(always)]
fn contents_of_class<O: Octets>(
    octets: O,
    class: Class,
    number: u8,
    len: usize,
) -> Result<(O, O), FaultKind>
    requires { IsTrue (length_tag_fits number class) }
    ensures { Reads O.octets O.octets (O.octets octets) result (class_at class number len) }
{
    match class {
        Class::Application => take_contents(octets, number, len),
        Class::Context => take_raw(octets, len),
    }
}

/// Reads the contents after a tag, and returns them and the octets after them.
#[tactic(auto, unfolding(crate::specs::Reading::contents_at))]
#[inline(always)]
pub(crate) fn contents_after<O: Octets>(octets: O, tag: Tag) -> Result<(O, O), FaultKind>
    ensures { Reads O.octets O.octets (O.octets octets) result (contents_at (tag_view tag) tag.form) }
{
    match tag.form {
        Form::Length(len) => contents_of_class(octets, tag.class, tag.number, len as usize),
        Form::Boolean(_) | Form::Opening | Form::Closing => Ok(octets.split(0)),
    }
}
