//! What a slot is found by.
use bac_npdu::Peer;

/// A transaction, as an end of it knows it: its other end, and its invoke ID (clause 5.4). Keys are ordered by peer, then by invoke ID.
#[derive(Clone, Copy, Debug)]
pub struct PeerKey {
    pub peer: Peer,
    pub invoke_id: u8,
}
