//! What came of an ask.
ghost use Rattle.std.specs.Prelude.{◌≡◌};
ghost use Rattle.bac_ask_report.specs.Answers.{answer_of, answer_of_complex, answer_of_reply, answer_to, answer_view, reply_status, status_word};
ghost use Rattle.bac_ask_report.specs.Records.{outcome_view};
ghost use Rattle.bac_service.specs.Views.{complex_view, file_written_view, reply_view, request_view};

use crate::record::Outcome;
use bac_service::{AnyComplex, AnyReply, Complex, Content, FileRead, FileWritten, Reply, Request};
use bac_service_text::names_other;
use bac_value::Data;

/// What came of an ask.
#[derive(Clone, Copy)]
pub(crate) enum Answer<'a> {
    /// The values of the property that was asked for.
    Values(Data<'a>),
    /// What was said of another property.
    Other,
    /// Octets of a file.
    File(FileRead<Content<'a>>),
    /// The position, or the record, from which on a file was written.
    Written(i64),
    /// A property was written.
    Done,
    /// The class and the code of an Error.
    Fault { class: u32, code: u32 },
    /// The reason of a Reject, an Abort or a refusal.
    Reason(u8),
    /// Nothing.
    Nothing,
}

fn answer_of_written(written: FileWritten) -> Answer<'static>
    ensures { answer_view result ≡ answer_of_complex (file_written_view written) }
{
    match written {
        FileWritten::Stream(start) => Answer::Written(start),
        FileWritten::Records(start) => Answer::Written(start),
    }
}

fn answer_of_complex(complex: Complex<'_>) -> Answer<'_>
    ensures { answer_view result ≡ answer_of_complex (complex_view complex.entry) }
{
    match complex {
        AnyComplex::FileRead(read) => Answer::File(read),
        AnyComplex::FileWritten(written) => answer_of_written(written),
        AnyComplex::PropertyRead(read) => Answer::Values(read.values),
    }
}

fn answer_of_reply(reply: Reply<'_>) -> Answer<'_>
    ensures { answer_view result ≡ answer_of_reply (reply_view reply.entry) }
{
    match reply {
        AnyReply::Simple => Answer::Done,
        AnyReply::Complex(complex) => answer_of_complex(complex),
        AnyReply::Error { class, code } => Answer::Fault { class, code },
        AnyReply::Reject(reason) => Answer::Reason(reason),
    }
}

fn answer_to<'a>(request: Request<'_>, reply: Reply<'a>) -> Answer<'a>
    ensures { answer_view result ≡ answer_to (request_view request.entry) (reply_view reply.entry) }
{
    if names_other(request, reply) {
        Answer::Other
    } else {
        answer_of_reply(reply)
    }
}

/// What came of the ask of a request that ended so.
pub(crate) fn answer_of<'a>(request: Request<'_>, outcome: Outcome<'a>) -> Answer<'a>
    ensures { answer_view result ≡ answer_of (request_view request.entry) (outcome_view outcome.entry) }
{
    match outcome {
        Outcome::Answered(reply) => answer_to(request, reply),
        Outcome::Rejected(reason) => Answer::Reason(reason),
        Outcome::Aborted(reason) => Answer::Reason(reason),
        Outcome::TimedOut => Answer::Nothing,
        Outcome::Expired => Answer::Nothing,
        Outcome::Refused(fault) => Answer::Reason(fault),
        Outcome::NoEnding => Answer::Nothing,
        Outcome::NoLink => Answer::Nothing,
    }
}

fn reply_status(reply: Reply<'_>) -> &'static str
    ensures { result.now ≡ reply_status (reply_view reply.entry) }
{
    match reply {
        AnyReply::Simple => "answered",
        AnyReply::Complex(_) => "answered",
        AnyReply::Error { .. } => "error",
        AnyReply::Reject(_) => "rejected",
    }
}

/// The word for how an ask ended.
pub(crate) fn status_word(outcome: Outcome<'_>) -> &'static str
    ensures { result.now ≡ status_word (outcome_view outcome.entry) }
{
    match outcome {
        Outcome::Answered(reply) => reply_status(reply),
        Outcome::Rejected(_) => "rejected",
        Outcome::Aborted(_) => "aborted",
        Outcome::TimedOut => "timed-out",
        Outcome::Expired => "expired",
        Outcome::Refused(_) => "refused",
        Outcome::NoEnding => "no ending",
        Outcome::NoLink => "link fault",
    }
}
