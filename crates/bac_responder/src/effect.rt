//! What was performed.
use bac_service::{OwnedReply, OwnedRequest};

/// A request was performed on the store, with that reply: reads, and requests that are answered with an Error, too.
#[derive(Drop)]
pub struct Effect {
    /// The request that was performed.
    pub request: OwnedRequest,
    /// What it is answered.
    pub reply: OwnedReply,
}
