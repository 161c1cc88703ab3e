//! What came of an ask, for people.
ghost use Rattle.std.specs.Prelude.{◌≡◌, IfOk};
ghost use Rattle.std.specs.Option.{option_map};
ghost use Rattle.bac_ask_report.specs.Records.{outcome_view};
ghost use Rattle.bac_service.specs.Views.{reply_view, request_view};
ghost use Rattle.bac_point_report.specs.Outcomes.{failed_reply_words, failure_words, has_values, is_done, is_silent, values_in_reply, values_of};

use bac_ask_report::Outcome;
use bac_service::{AnyReply, Reply, Request};
use bac_service_text::{aborted_words, error_words, names_other, rejected_words};
use bac_value::Data;
use std::alloc::{AllocError, Global};

fn values_in_reply(reply: Reply<'_>) -> Option<Data<'_>>
    ensures { option_map (λ d. d.octets.now) result ≡ values_in_reply (reply_view reply.entry) }
{
    match reply {
        AnyReply::Simple => None,
        AnyReply::Complex(complex) => complex.values(),
        AnyReply::Error { .. } => None,
        AnyReply::Reject(_) => None,
    }
}

/// The values with which a request was answered. None if it was not, and if they are of another object, property or index than it is for.
pub fn values_of<'a>(request: Request<'_>, outcome: Outcome<'a>) -> Option<Data<'a>>
    ensures { option_map (λ d. d.octets.now) result ≡ values_of (request_view request.entry) (outcome_view outcome.entry) }
{
    match outcome {
        Outcome::Answered(reply) => {
            if names_other(request, reply) {
                None
            } else {
                values_in_reply(reply)
            }
        }
        _ => None,
    }
}

/// Whether a request was answered with values.
pub fn has_values(request: Request<'_>, outcome: Outcome<'_>) -> bool
    ensures { result ≡ has_values (request_view request.entry) (outcome_view outcome.entry) }
{
    values_of(request, outcome).is_some()
}

/// Whether nothing came back from the peer.
pub fn is_silent(outcome: Outcome<'_>) -> bool
    ensures { result ≡ is_silent (outcome_view outcome.entry) }
{
    match outcome {
        Outcome::TimedOut | Outcome::Expired | Outcome::NoEnding => true,
        Outcome::Answered(_)
        | Outcome::Rejected(_)
        | Outcome::Aborted(_)
        | Outcome::Refused(_)
        | Outcome::NoLink => false,
    }
}

/// Whether a request was performed that has no results, as a write.
pub fn is_done(outcome: Outcome<'_>) -> bool
    ensures { result ≡ is_done (outcome_view outcome.entry) }
{
    match outcome {
        Outcome::Answered(AnyReply::Simple) => true,
        Outcome::Answered(_)
        | Outcome::Rejected(_)
        | Outcome::Aborted(_)
        | Outcome::TimedOut
        | Outcome::Expired
        | Outcome::Refused(_)
        | Outcome::NoEnding
        | Outcome::NoLink => false,
    }
}

/// Why a reply has no value, in words.
fn failed_reply_words(alloc: Global, reply: Reply<'_>) -> Result<Vec<u8>, AllocError>
    ensures { IfOk result (λ t. t.items ≡ failed_reply_words (reply_view reply.entry)) }
{
    match reply {
        AnyReply::Error { class, code } => error_words(alloc, class, code),
        AnyReply::Reject(reason) => rejected_words(alloc, reason),
        AnyReply::Simple | AnyReply::Complex(_) => {
            Vec::from_slice(alloc, b"the answer is for something else")
        }
    }
}

/// Why a request got no value, in words. An Err is out of memory.
pub fn failure_words(alloc: Global, outcome: Outcome<'_>) -> Result<Vec<u8>, AllocError>
    ensures { IfOk result (λ t. t.items ≡ failure_words (outcome_view outcome.entry)) }
{
    match outcome {
        Outcome::Answered(reply) => failed_reply_words(alloc, reply),
        Outcome::Rejected(reason) => rejected_words(alloc, reason),
        Outcome::Aborted(reason) => aborted_words(alloc, reason),
        Outcome::TimedOut | Outcome::Expired | Outcome::NoEnding => {
            Vec::from_slice(alloc, b"no answer")
        }
        Outcome::Refused(_) => Vec::from_slice(alloc, b"not asked"),
        Outcome::NoLink => Vec::from_slice(alloc, b"link fault"),
    }
}
