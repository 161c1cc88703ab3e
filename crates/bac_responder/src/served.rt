//! What an APDU made of the server's end.
use crate::Effect;
use bac_transaction::{Datagram, PeerKey};

/// A request was performed, for that transaction.
#[derive(Drop)]
pub struct Act {
    /// Its client, and the invoke ID.
    pub key: PeerKey,
    /// The request, and what it is answered.
    pub effect: Effect,
}

/// What an APDU made of the server's end: what is sent, in order of sending, what was performed, and what was turned away.
#[derive(Drop)]
pub struct Served {
    /// One datagram for each APDU that is sent, in order of sending.
    pub sends: Vec<Datagram>,
    /// The request that was performed, if any.
    pub act: Option<Act>,
    /// Whether a request was turned away: then the one APDU that is sent is its Abort.
    pub turned_away: bool,
}
