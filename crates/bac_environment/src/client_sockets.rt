//! Links from which clients ask.

use crate::Sockets;
use bac_npdu::LinkAddress;
use bac_pairs::ClientPair;
use std::io;

/// Why a client gets no port.
#[derive(Clone, Copy, Debug, PartialEq, Eq)]
pub enum NoPair {
    /// The time of day cannot be read.
    NoClock,
    /// The key of this host cannot be read.
    NoKey,
}

/// The links and clocks of a machine from which clients ask.
pub trait ClientSockets: Sockets {
    /// The port and the invoke ID with which a new client begins now. A client whose port is taken calls this again once the share of that port is over.
    fn pair(&self) -> Result<ClientPair, NoPair>;

    /// Waits until a port's share of time is over. Returns whether it was not over at the call: so a client that had bound the port before is the only one that
    /// had it in this share.
    fn outlast(&self, pair: ClientPair) -> bool;

    /// The IPv4 address of this machine from which the system sends to a link. None if it tells none.
    fn source_towards(&self, link: LinkAddress) -> Option<[u8; 4]>;

    /// Why the system sends nothing to a link. None if it sends, or tells no reason.
    fn refusal_towards(&self, link: LinkAddress) -> Option<io::Error>;
}
