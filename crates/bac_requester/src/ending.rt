//! How a transaction of the client ends. Everything above the client reports it; new cases are changes of the interface.
use bac_service::OwnedReply;

/// How a transaction of the client ends.
#[derive(Drop)]
pub enum Ending {
    /// The server performed the request, or refused it with an Error.
    Answered(OwnedReply),
    /// The server sent a Reject; the reason is any octet (clause 18.9).
    Rejected(u8),
    /// Either end sent an Abort; the reason is any octet (clause 18.10).
    Aborted(u8),
    /// The request was sent as often as is allowed, and no answer came.
    TimedOut,
    /// More than 60,000 milliseconds passed since the first sending (own rule of this profile).
    Expired,
}
