//! What can happen in a simulated network.
use bac_apdu::Limits;
use bac_npdu::{LinkAddress, Peer};
use bac_service::OwnedRequest;
use bac_store::{Change, Store};

/// What can happen in a world. Nodes and copies are numbered from 0.
#[derive(Drop)]
pub enum Event {
    /// A node asks another one.
    Ask {
        /// The node that asks.
        client: usize,
        /// The node that is asked.
        server: usize,
        /// What the client takes the server to accept of APDUs.
        limits: Limits,
        /// What is asked.
        request: OwnedRequest,
    },
    /// A copy arrives at its node, or is lost where it is not deliverable.
    Deliver {
        /// The copy.
        number: usize,
    },
    /// Octets that no node sent arrive at a node, from any link. They are lost where they mean an APDU of a peer.
    Noise {
        /// The node.
        node: usize,
        /// Their source: four octets of IPv4 address and two of UDP port (clause J.1.2).
        from: LinkAddress,
        /// The octets.
        octets: Vec<u8>,
    },
    /// Octets of a stranger arrive at a node, at any moment: any octets, from a link of no node. A stranger is whoever is on the network and no node of the
    /// world, as a device of another make.
    Stranger {
        /// The node.
        node: usize,
        /// Their source, which is no node's link: four octets of IPv4 address and two of UDP port (clause J.1.2).
        from: LinkAddress,
        /// The octets.
        octets: Vec<u8>,
    },
    /// A node asks a stranger. What it sends to the stranger is not followed: what comes back are octets of a stranger.
    AskStranger {
        /// The node that asks.
        node: usize,
        /// The stranger, whose link is no node's.
        peer: Peer,
        /// What the node takes the stranger to accept of APDUs.
        limits: Limits,
        /// What is asked.
        request: OwnedRequest,
    },
    /// A node's timers run: it sends again, or gives up, what is due.
    Tick {
        /// The node.
        node: usize,
    },
    /// Time passes: each node's clock goes on, as fast as it is.
    Advance {
        /// How many milliseconds of real time pass.
        by: u64,
    },
    /// A node changes its own store, by no request, as where a sensor moves.
    Change {
        /// The node.
        node: usize,
        /// The change.
        change: Change,
    },
    /// A node restarts: it loses its asks and its reply table, asks nothing for `REST`, and turns requests away for `KEEP`. Its clock begins at 0, where it
    /// has its own, and is as fast as before.
    Restart {
        /// The node.
        node: usize,
        /// The store with which it starts again, or None where it keeps its own.
        store: Option<Store>,
    },
    /// A node at which nothing happened so far begins, at any moment: its clock begins at 0, where it has its own, and is as fast as before.
    Begin {
        /// The node.
        node: usize,
    },
    /// Another program begins at a node's link, once all is over that the one before sent. Where all nodes have one clock, that is 135,001 ms after
    /// its last ask, and 75,001 ms after a restart. Its client may ask at once, with tickets from 0 on; its server turns requests away for `KEEP`, as
    /// after a restart. Its clock begins at 0, where it has its own.
    BeginAgain {
        /// The node.
        node: usize,
        /// Where its invoke IDs begin.
        first_id: u8,
        /// The store with which it starts, or None where it has that of the one before.
        store: Option<Store>,
    },
}
