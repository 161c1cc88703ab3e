//! Services by their choices: whether a reply belongs to the requested service, and whether a server of this profile takes two requests for one.
ghost use Rattle.std.specs.Prelude.{◌≡◌, ◌==◌, ◌&&◌, not, if◌then◌else◌};
ghost use Rattle.std.specs.Option.{option_map};
ghost use Rattle.bac_apdu.specs.Views.{apdu_view, segment_view};
ghost use Rattle.bac_explain.specs.AskedViews.{asked_view};
ghost use Rattle.bac_explain.specs.Choices.{answer_choice, asked_by, asked_in, choice_in, has_choice, is_of_service, is_taken_for, keeps_answer};

use crate::sent::are_same;
use bac_apdu::{Apdu, read};

/// What is compared of a request: whether it is a segment, of which only this is used, its service, and its data.
#[derive(Clone, Copy, Debug)]
pub(crate) struct Asked<'a> {
    pub in_segments: bool,
    pub choice: u8,
    pub service: &'a [u8],
}

fn asked_in<'a>(apdu: Apdu<'a>) -> Option<Asked<'a>>
    ensures { option_map asked_view result ≡ asked_in (apdu_view apdu.entry) }
{
    match apdu {
        Apdu::ConfirmedRequest {
            segment,
            choice,
            service,
            ..
        } => Some(Asked {
            in_segments: segment.is_some(),
            choice,
            service,
        }),
        _ => None,
    }
}

/// What is compared of the request that these octets encode.
fn asked_by(octets: &[u8]) -> Option<Asked<'_>>
    ensures { option_map asked_view result ≡ asked_by octets.now }
{
    match read(octets) {
        Ok(apdu) => asked_in(apdu),
        Err(_) => None,
    }
}

/// The service of a reply; None for a Reject and an Abort, which have none.
fn choice_in(apdu: Apdu<'_>) -> Option<u8>
    ensures { result ≡ choice_in (apdu_view apdu.entry) }
{
    match apdu {
        Apdu::SimpleAck { choice, .. }
        | Apdu::ComplexAck { choice, .. }
        | Apdu::Error { choice, .. } => Some(choice),
        _ => None,
    }
}

fn answer_choice(octets: &[u8]) -> Option<u8>
    ensures { result ≡ answer_choice octets.now }
{
    match read(octets) {
        Ok(apdu) => choice_in(apdu),
        Err(_) => None,
    }
}

/// Whether a request is for this service.
fn has_choice(request: &[u8], choice: u8) -> bool
    ensures { result ≡ has_choice choice (asked_by request.now) }
{
    match asked_by(request) {
        Some(asked) => asked.choice == choice,
        None => false,
    }
}

/// Whether a reply belongs to the service of a request, or has no service.
pub(crate) fn is_of_service(request: &[u8], answer: &[u8]) -> bool
    ensures { result ≡ is_of_service request.now answer.now }
{
    match answer_choice(answer) {
        Some(choice) => has_choice(request, choice),
        None => true,
    }
}

impl Asked<'_> {
    /// Whether a server of this profile takes another request for this one: whole requests with the same service and data; and once it
    /// has answered a segmented request, any segmented one.
    fn is_taken_for(self, other: Asked<'_>, answered: bool) -> bool
        ensures { result ≡ is_taken_for answered (asked_view self.entry) (asked_view other.entry) }
    {
        if self.in_segments {
            return other.in_segments && answered;
        }
        !other.in_segments && self.choice == other.choice && are_same(self.service, other.service)
    }
}

/// Whether a server of this profile sends the stored reply of a request to another one with its invoke ID.
pub(crate) fn keeps_answer(request: &[u8], other: &[u8], answered: bool) -> bool
    ensures { result ≡ keeps_answer answered (asked_by request.now) (asked_by other.now) }
{
    match (asked_by(request), asked_by(other)) {
        (Some(request), Some(other)) => request.is_taken_for(other, answered),
        _ => false,
    }
}
