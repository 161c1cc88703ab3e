//! Calls of a link, as it notes them.
use bac_npdu::LinkAddress;

/// A call of a link, and what came of it.
#[derive(Drop)]
pub enum NotedCall {
    /// A datagram was handed over to be sent to an address.
    Sent(LinkAddress, Vec<u8>),
    /// Within so many milliseconds a datagram came from an address.
    Received(u64, LinkAddress, Vec<u8>),
    /// Within so many none came.
    Nothing(u64),
    /// Receiving failed.
    Failed,
}
