//! Tags of members: which one comes next, and what each announces.
ghost use Rattle.std.specs.Prelude.{◌≡◌, ◌≤◌, ◌<◌, ◌==◌, ◌&&◌, ◌-◌, length, IfOk, MatchResult, Some, None, Ok, Err};
ghost use Rattle.bac_value.specs.Views.{tag_view};
ghost use Rattle.bac_value.specs.Steps.{Reads};
ghost use Rattle.bac_service.specs.Reading.{announced, next_tag, head_at, is_next, is_opened, tag_that, opening_at, closing_at};

use crate::stop::{Stop, Why};
use bac_value::{Class, Form, Octets, Tag, take_tag};

/// Reads the next tag.
#[tactic(auto, unfolding(crate::specs::Reading::next_tag))]
#[inline(always)]
pub(crate) fn tag<O: Octets>(octets: O) -> Result<(Tag, O), Stop>
    ensures reads { Reads tag_view O.octets (O.octets octets) result next_tag }
    ensures onward { IfOk result (λ r. length (O.octets r.1) < length (O.octets octets)) }
{
    let left = octets.len();
    if left == 0 {
        return Err(Stop::new(Why::Missing, left));
    }
    match take_tag(octets) {
        Ok(read) => Ok(read),
        Err(kind) => Err(Stop::new(Why::Fault(kind), left)),
    }
}

#[tactic(auto, unfolding(crate::specs::Reading::announced))]
pub(crate) fn announced_by(tag: Tag, class: Class, number: u8) -> Option<usize>
    ensures { result ≡ announced class number (tag_view tag) }
{
    let is_same = match (class, tag.class) {
        (Class::Application, Class::Application) | (Class::Context, Class::Context) => true,
        _ => false,
    };
    match tag.form {
        Form::Length(len) if is_same && number == tag.number => Some(len as usize),
        _ => None,
    }
}

/// Reads a tag with this class and number, and returns the length of the contents that it announces.
#[tactic(auto, unfolding(crate::specs::Reading::head_at))]
#[inline(always)]
pub(crate) fn head<O: Octets>(octets: O, class: Class, number: u8) -> Result<(usize, O), Stop>
    ensures reads { Reads (λ k. k) O.octets (O.octets octets) result (head_at class number) }
    ensures onward { IfOk result (λ r. length (O.octets r.1) < length (O.octets octets)) }
{
    let left = octets.len();
    let (tag, rest) = tag(octets)?;
    match announced_by(tag, class, number) {
        Some(len) => Ok((len, rest)),
        None => Err(Stop::new(Why::Unexpected, left)),
    }
}

/// Whether the next tag is that of an optional member; false at the end.
#[tactic(auto, unfolding(crate::specs::Reading::is_next))]
#[inline(always)]
pub(crate) fn comes_next<O: Octets>(octets: O, number: u8) -> Result<bool, Stop>
    ensures { result ≡ is_next number (O.octets octets) }
{
    if octets.len() == 0 {
        return Ok(false);
    }
    let (tag, _) = tag(octets)?;
    Ok(announced_by(tag, Class::Context, number).is_some())
}

/// Whether the next tag is the opening tag with this number.
#[tactic(auto, unfolding(crate::specs::Reading::is_opened))]
#[inline(always)]
pub(crate) fn opens_next<O: Octets>(octets: O, number: u8) -> Result<bool, Stop>
    ensures { result ≡ is_opened number (O.octets octets) }
{
    let (tag, _) = tag(octets)?;
    Ok(matches!(tag.form, Form::Opening) && number == tag.number)
}

/// Returns the octets after the opening tag with this number.
#[tactic(auto, unfolding(crate::specs::Reading::tag_that))]
#[inline(always)]
pub(crate) fn opening<O: Octets>(octets: O, number: u8) -> Result<O, Stop>
    ensures { MatchResult result (λ rest. (length (O.octets rest) ≤ length (O.octets octets)) × (opening_at number (O.octets octets) ≡ Ok (O.octets rest)))
        (λ e. opening_at number (O.octets octets) ≡ Err e) }
{
    let left = octets.len();
    let (tag, rest) = tag(octets)?;
    match tag.form {
        Form::Opening if number == tag.number => Ok(rest),
        _ => Err(Stop::new(Why::Unexpected, left)),
    }
}

/// Returns the octets after the closing tag with this number.
#[tactic(auto, unfolding(crate::specs::Reading::tag_that))]
#[inline(always)]
pub(crate) fn closing<O: Octets>(octets: O, number: u8) -> Result<O, Stop>
    ensures { MatchResult result (λ rest. (length (O.octets rest) ≤ length (O.octets octets)) × (closing_at number (O.octets octets) ≡ Ok (O.octets rest)))
        (λ e. closing_at number (O.octets octets) ≡ Err e) }
{
    let left = octets.len();
    let (tag, rest) = tag(octets)?;
    match tag.form {
        Form::Closing if number == tag.number => Ok(rest),
        _ => Err(Stop::new(Why::Unexpected, left)),
    }
}
