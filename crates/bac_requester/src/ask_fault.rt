//! Why an ask was refused. bac_node and the programs above it match on it: new cases, texts and numbers are changes of the interface.
ghost use Rattle.std.specs.Prelude.{◌≡◌};
ghost use Rattle.bac_requester.specs.Faults.{ask_fault_number};

use thiserror::Error;

/// Why an ask was refused. Nothing has changed. `number` is the number by which programs print it.
#[derive(Clone, Copy, Debug, PartialEq, Eq, Error)]
pub enum AskFault {
    /// The moment is before the latest one of the node. Only `Node::ask` returns it, never `Requester::ask`.
    #[error("the clock went back")]
    ClockBack = 6,
    /// The peer is at the node's own link. Only `Node::ask` returns it, never `Requester::ask`.
    #[error("the peer is at the node's own link")]
    SelfPeer = 5,
    /// The service data have more than 65,535 octets.
    #[error("the request has too many octets")]
    TooLong = 4,
    /// The request does not fit one APDU, and the peer takes no segments or fewer than are needed (clause 5.2).
    #[error("the request needs more segments than the peer takes")]
    NeedsSegments = 3,
    /// All 256 invoke IDs are held for that peer, or the node restarted no more than 75,000 milliseconds ago.
    #[error("no invoke ID is free for the peer")]
    NoInvokeId = 2,
    /// All slots are held, or 2^64 - 1 asks were accepted before.
    #[error("no slot is free")]
    NoSlot = 1,
    /// Memory can't be allocated.
    #[error("no memory")]
    NoMemory = 7,
}

impl AskFault {
    /// The number of the fault, 1 to 7 (own numbers of this profile).
    pub fn number(self) -> u8
        ensures { result ≡ ask_fault_number self }
    {
        self as u8
    }
}
