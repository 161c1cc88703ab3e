//! What a transaction is told beside the event.
use crate::peer_key::PeerKey;
use crate::settings::Settings;

/// What a transaction is told beside the event: what its node is set to, its key, and the moment in milliseconds.
#[derive(Clone, Copy, Debug)]
pub struct Context {
    pub settings: Settings,
    pub key: PeerKey,
    pub moment: u64,
}
