//! Reading one element (clause 20.2.1).
ghost use Rattle.std.specs.Prelude.{◌≡◌, ◌<◌, ◌≤◌, ◌+◌, ◌-◌, ◌++◌, ℕ, List, length, drop, take, MatchResult, IfOk, IfErr, Ok, Err};
ghost use Rattle.bac_value.specs.Steps.{Reads, IsFound, IsRefused};
ghost use Rattle.bac_value.specs.Reading.{element_at};
ghost use Rattle.bac_value.specs.Element.{Part, SpellsElement};
ghost use Rattle.bac_value.specs.Views.{element_view};

use crate::contents::contents_after;
use crate::element::Element;
use crate::fault::{Fault, FaultKind};
use crate::octets::Octets;
use crate::tag_reading::take_tag;

/// Reads the element at the front, and returns it and the octets after it.
///
/// The whole tag is read first. Then the length of its contents is tested, then whether all of them are present, then the
/// contents themselves.
#[tactic(auto, unfolding(crate::specs::Reading::element_at))]
#[inline(always)]
pub fn take_element<O: Octets>(octets: O) -> Result<(Element<O>, O), FaultKind>
    ensures reads { Reads (element_view O.octets) O.octets (O.octets octets) result element_at }
    ensures onward { IfOk result (λ r. length (O.octets r.1) < length (O.octets octets)) }
{
    let (tag, next) = take_tag(octets)?;
    let (contents, rest) = contents_after(next, tag)?;
    Ok((Element { tag, contents }, rest))
}

/// Reads the element at the front of any octets, and returns it and its length in octets.
pub(crate) fn element_in<O: Octets>(octets: O) -> Result<(Element<O>, usize), FaultKind>
    ensures { MatchResult result
        (λ r. IsFound element_at SpellsElement (O.octets octets) (element_view O.octets r.0) r.1)
        (λ e. IsRefused element_at SpellsElement (O.octets octets) e) }
{
    let all = octets.len();
    match take_element(octets) {
        Ok(read) => Ok((read.0, all - read.1.len())),
        Err(kind) => Err(kind),
    }
}

/// Reads the element at the front, and returns it and its length in octets. The place of a fault is 0.
pub fn read_element(octets: &[u8]) -> Result<(Element<&[u8]>, usize), Fault>
    ensures found { IfOk result (λ r. (r.1 ≤ length octets.now) × SpellsElement (element_view (λ s. s.now) r.0) (take r.1 octets.now)) }
    ensures refused { IfErr result (λ e. (p : Part) (k : ℕ) → SpellsElement p (take k octets.now) → ⊥) }
    ensures place { IfErr result (λ e. e.at ≡ 0) }
    ensures exact { MatchResult result (λ r. element_at octets.now ≡ Ok (element_view (λ s. s.now) r.0, drop r.1 octets.now))
        (λ e. element_at octets.now ≡ Err e.kind) }
{
    match element_in(octets) {
        Ok(found) => Ok(found),
        Err(kind) => Err(Fault { kind, at: 0 }),
    }
}

/// Law: an element has one spelling, and no spelling is the beginning of another element's.
pub fn one_element_spelling()
    ensures { (p q : Part) (a b c d : List ℕ) → SpellsElement p a → SpellsElement q b → a ++ c ≡ b ++ d → (p ≡ q) × (a ≡ b) }
{}
