//! What a call of the client's end hands to its caller: datagrams to send, and transactions that have ended.
//!
//! `Requester::on` and `Requester::prepare_tick` return it; bac_node passes both lists on in its `Outcome`. The fields are public: a change of them is a change
//! of the interface.
ghost use Rattle.std.specs.Prelude.{◌≡◌, []};

use crate::ending::Ending;
use bac_transaction::Datagram;
use std::alloc::Global;

/// A transaction of the client that has ended. It is reported once.
#[derive(Drop)]
pub struct Ended {
    /// Its ticket, as the ask returned it.
    pub ticket: u64,
    /// How it ended.
    pub ending: Ending,
}

/// What a call of the client's end hands out. The caller sends each datagram, in order, and reports each ending to whoever asked.
#[derive(Drop)]
pub struct Reaction {
    /// The datagrams to send, in order: after a tick in ascending order of peer and invoke ID.
    pub sends: Vec<Datagram>,
    /// The transactions that have ended: after an APDU at most one, after a tick in ascending order of peer and invoke ID.
    pub ended: Vec<Ended>,
}

/// No datagram and no ending.
pub(crate) fn nothing(alloc: Global) -> Reaction
    ensures sends { result.sends.items ≡ [] }
    ensures ended { result.ended.items ≡ [] }
{
    Reaction {
        sends: Vec::new(alloc),
        ended: Vec::new(alloc),
    }
}
