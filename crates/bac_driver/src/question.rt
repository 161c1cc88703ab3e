//! What a bound node is to ask, and how asking ended. Programs fill in and read the fields: a change of them is a change of the interface.
use bac_apdu::Limits;
use bac_npdu::Peer;
use bac_requester::{AskFault, Ending};
use bac_service::OwnedRequest;

/// What a node is to ask of a peer.
#[derive(Drop)]
pub struct Question {
    /// The peer.
    pub peer: Peer,
    /// What it takes of APDUs, and whether in segments.
    pub limits: Limits,
    /// The request.
    pub request: OwnedRequest,
}

/// How asking ended.
#[derive(Drop)]
pub enum AskEnd {
    /// The transaction has ended.
    Ended(Ending),
    /// The node refused the ask, for a fault other than `ClockBack`. Nothing has changed.
    Refused(AskFault),
    /// All turns were taken, or the time for them is over, and the transaction is still open.
    NoEnding,
}
