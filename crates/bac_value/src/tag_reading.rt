//! Reading one tag (clause 20.2.1).
ghost use Rattle.std.specs.Prelude.{◌≡◌, ◌<◌, ◌≤◌, ◌+◌, ◌^◌, ◌%◌, ◌/◌, ◌==◌, ◌++◌, ℕ, List, length, drop, take, true, false, IfOk, IfErr};
ghost use Rattle.std.specs.Prelude.{MatchResult, Ok, Err};
ghost use Rattle.std.specs.Int.{w16, w32};
ghost use Rattle.bac_value.specs.Steps.{Reads, IsFound, IsRefused, octet_at};
ghost use Rattle.bac_value.specs.Reading.{tag_number_at, length_at, wide_at, form_at, tag_at};
ghost use Rattle.bac_value.specs.Spelling.{Mark, SpellsTag};
ghost use Rattle.bac_value.specs.Views.{tag_view};

use crate::fault::{Fault, FaultKind};
use crate::kinds;
use crate::octets::{Octets, octet};
use crate::tag::{Class, Form, Tag};

/// Bit 3 of the first octet is set for the context class (clause 20.2.1.1).
const CONTEXT_CLASS: u8 = 0x08;
/// Bits 2 to 0 of the first octet hold a length, a Boolean's value or a form (clause 20.2.1.3).
const LOW_BITS: u8 = 0x07;

#[tactic(auto, unfolding(crate::specs::Reading::tag_number_at))]
fn tag_number<O: Octets>(octets: O, high: u8) -> Result<(u8, O), FaultKind>
    ensures reads { Reads (λ x. x) O.octets (O.octets octets) result (tag_number_at high) }
    ensures in_range { IfOk result (λ r. r.0 < 255) }
{
    if high < 15 {
        return Ok((high, octets));
    }
    let (number, next) = octet(octets)?;
    if number < 15 {
        Err(FaultKind::LongForm)
    } else if number < 255 {
        Ok((number, next))
    } else {
        Err(FaultKind::ReservedTag)
    }
}

#[tactic(auto, unfolding(crate::specs::Reading::wide_at))]
fn length_of_two<O: Octets>(octets: O) -> Result<(u32, O), FaultKind>
    ensures { Reads (λ x. x) O.octets (O.octets octets) result (wide_at w16 254) }
{
    let (a, next) = octet(octets)?;
    let (b, next) = octet(next)?;
    let length = u16::from_be_bytes([a, b]);
    if length < 254 {
        return Err(FaultKind::LongForm);
    }
    Ok((u32::from(length), next))
}

#[tactic(auto, unfolding(crate::specs::Reading::wide_at))]
fn length_of_four<O: Octets>(octets: O) -> Result<(u32, O), FaultKind>
    ensures { Reads (λ x. x) O.octets (O.octets octets) result (wide_at w32 65536) }
{
    let (a, next) = octet(octets)?;
    let (b, next) = octet(next)?;
    let (c, next) = octet(next)?;
    let (d, next) = octet(next)?;
    let length = u32::from_be_bytes([a, b, c, d]);
    if length < 65536 {
        return Err(FaultKind::LongForm);
    }
    Ok((length, next))
}

#[tactic(auto, unfolding(crate::specs::Reading::length_at))]
fn length<O: Octets>(octets: O, low: u8) -> Result<(u32, O), FaultKind>
    ensures { Reads (λ x. x) O.octets (O.octets octets) result (length_at low) }
{
    if low < 5 {
        return Ok((u32::from(low), octets));
    }
    let (first, next) = octet(octets)?;
    if first < 5 {
        Err(FaultKind::LongForm)
    } else if first < 254 {
        Ok((u32::from(first), next))
    } else if first == 254 {
        length_of_two(next)
    } else {
        length_of_four(next)
    }
}

#[tactic(auto, unfolding(crate::specs::Reading::form_at))]
fn context_tag<O: Octets>(octets: O, low: u8, number: u8) -> Result<(Tag, O), FaultKind>
    requires { number < 255 }
    ensures { Reads tag_view O.octets (O.octets octets) result (form_at low true number) }
{
    let class = Class::Context;
    let (form, next) = match low {
        6 => (Form::Opening, octets),
        7 => (Form::Closing, octets),
        _ => {
            let (length, next) = length(octets, low)?;
            (Form::Length(length), next)
        }
    };
    Ok((
        Tag {
            number,
            class,
            form,
        },
        next,
    ))
}

#[tactic(auto, unfolding(crate::specs::Reading::form_at))]
fn application_tag<O: Octets>(octets: O, low: u8, number: u8) -> Result<(Tag, O), FaultKind>
    ensures { Reads tag_view O.octets (O.octets octets) result (form_at low false number) }
{
    let class = Class::Application;
    if number > 12 {
        return Err(FaultKind::ReservedTag);
    }
    if number == kinds::BOOLEAN {
        if low > 1 {
            return Err(FaultKind::BadLength);
        }
        let form = Form::Boolean(low == 1);
        return Ok((
            Tag {
                number,
                class,
                form,
            },
            octets,
        ));
    }
    if low > 5 {
        return Err(FaultKind::BadLength);
    }
    let (length, next) = length(octets, low)?;
    let form = Form::Length(length);
    Ok((
        Tag {
            number,
            class,
            form,
        },
        next,
    ))
}

fn high_bits(first: u8) -> u8
    ensures { result ≡ first / 16 }
{
    first >> 4
}

fn low_bits(first: u8) -> u8
    ensures { result ≡ first % 8 }
{
    first & LOW_BITS
}

fn is_context(first: u8) -> bool
    ensures { result ≡ (first / 8 % 2 == 1) }
{
    first & CONTEXT_CLASS != 0
}

/// Reads the tag at the front (clause 20.2.1), and returns it and the octets after it.
#[tactic(auto, unfolding(crate::specs::Reading::tag_at))]
#[inline(always)]
pub fn take_tag<O: Octets>(octets: O) -> Result<(Tag, O), FaultKind>
    ensures reads { Reads tag_view O.octets (O.octets octets) result tag_at }
    ensures onward { IfOk result (λ r. length (O.octets r.1) < length (O.octets octets)) }
{
    let (first, next) = octet(octets)?;
    let (number, next) = tag_number(next, high_bits(first))?;
    if is_context(first) {
        context_tag(next, low_bits(first), number)
    } else {
        application_tag(next, low_bits(first), number)
    }
}

/// Reads the tag at the front of any octets, and returns it and its length in octets.
pub(crate) fn tag_in<O: Octets>(octets: O) -> Result<(Tag, usize), FaultKind>
    ensures { MatchResult result (λ r. IsFound tag_at SpellsTag (O.octets octets) (tag_view r.0) r.1)
        (λ e. IsRefused tag_at SpellsTag (O.octets octets) e) }
{
    let all = octets.len();
    match take_tag(octets) {
        Ok(read) => Ok((read.0, all - read.1.len())),
        Err(kind) => Err(kind),
    }
}

/// Reads the tag at the front, and returns it and its length in octets. The place of a fault is 0.
pub fn read_tag(octets: &[u8]) -> Result<(Tag, usize), Fault>
    ensures found { IfOk result (λ r. (r.1 ≤ length octets.now) × SpellsTag (tag_view r.0) (take r.1 octets.now)) }
    ensures refused { IfErr result (λ e. (t : Mark) (k : ℕ) → SpellsTag t (take k octets.now) → ⊥) }
    ensures place { IfErr result (λ e. e.at ≡ 0) }
    ensures exact { MatchResult result (λ r. tag_at octets.now ≡ Ok (tag_view r.0, drop r.1 octets.now))
        (λ e. tag_at octets.now ≡ Err e.kind) }
{
    match tag_in(octets) {
        Ok(found) => Ok(found),
        Err(kind) => Err(Fault { kind, at: 0 }),
    }
}

/// Law: a tag has one spelling, and no spelling is the beginning of another tag's.
pub fn one_tag_spelling()
    ensures { (t u : Mark) (a b c d : List ℕ) → SpellsTag t a → SpellsTag u b → a ++ c ≡ b ++ d → (t ≡ u) × (a ≡ b) }
{}
