//! Which asks succeeded.
ghost use Rattle.std.specs.Prelude.{◌≡◌};
ghost use Rattle.std.specs.Option.{option_map};
ghost use Rattle.bac_service.specs.Views.{owned_reply_view, owned_request_view};
ghost use Rattle.bac_requester.specs.TransactionViews.{ending_view};
ghost use Rattle.bac_commands.specs.Reports.{is_answered, is_error, is_success, reply_of, reply_of_ending};

use bac_driver::AskEnd;
use bac_requester::Ending;
use bac_service::{AnyReply, OwnedReply, OwnedRequest};
use bac_service_text::names_other;

fn reply_of_ending(ending: &Ending) -> Option<&OwnedReply>
    ensures { option_map (λ r. owned_reply_view r.now) result ≡ reply_of_ending (ending_view ending.now) }
{
    match ending {
        Ending::Answered(reply) => Some(reply),
        Ending::Rejected(_) => None,
        Ending::Aborted(_) => None,
        Ending::TimedOut => None,
        Ending::Expired => None,
    }
}

/// The reply that came, if one did.
pub(crate) fn reply_of(end: &AskEnd) -> Option<&OwnedReply>
    ensures { option_map (λ r. owned_reply_view r.now) result ≡ reply_of end.now }
{
    match end {
        AskEnd::Ended(ending) => reply_of_ending(ending),
        AskEnd::Refused(_) => None,
        AskEnd::NoEnding => None,
    }
}

/// Whether a reply came.
pub(crate) fn is_answered(end: &AskEnd) -> bool
    ensures { result ≡ is_answered end.now }
{
    reply_of(end).is_some()
}

fn is_error(reply: &OwnedReply) -> bool
    ensures { result ≡ is_error (owned_reply_view reply.now) }
{
    match reply {
        AnyReply::Simple => false,
        AnyReply::Complex(_) => false,
        AnyReply::Error { .. } => true,
        AnyReply::Reject(_) => false,
    }
}

/// Whether the ask of a request was answered; where that is strict, by no Error and by no reply that names another object, property or index.
pub(crate) fn is_success(strict: bool, request: &OwnedRequest, end: &AskEnd) -> bool
    ensures { result ≡ is_success strict (owned_request_view request.now) end.now }
{
    match reply_of(end) {
        Some(reply) => !(strict
            && (is_error(reply) || names_other(request.as_request(), reply.as_reply()))),
        None => false,
    }
}
