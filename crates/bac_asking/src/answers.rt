//! The replies with which asks were answered.
use bac_driver::AskEnd;
use bac_requester::Ending;
use bac_service::{AnyComplex, AnyReply, Content, FileRead, Reply};

/// The reply with which an ask was answered, or None where it ended otherwise.
pub fn reply_of(end: &AskEnd) -> Option<Reply<'_>> {
    match end {
        AskEnd::Ended(Ending::Answered(reply)) => Some(reply.as_reply()),
        _ => None,
    }
}

/// The part of a file with which a read was answered, or None where it ended otherwise.
pub fn part_in(end: &AskEnd) -> Option<FileRead<Content<'_>>> {
    match reply_of(end)? {
        AnyReply::Complex(AnyComplex::FileRead(read)) => Some(read),
        _ => None,
    }
}
