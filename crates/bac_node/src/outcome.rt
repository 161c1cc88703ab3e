//! What a call of a node returns. Drivers, programs and C read the fields: a change of them is a change of the interface.
ghost use Rattle.std.specs.Prelude.{◌≡◌, false};
ghost use Rattle.bac_world.specs.Node.{dropped_for};
ghost use Rattle.bac_node.specs.Views.{cause_view, outcome_view};

use crate::cause::Cause;
use bac_requester::Ended;
use bac_responder::Act;
use bac_transaction::Datagram;
use std::alloc::Global;

/// What a call of a node returns.
///
/// Send the datagrams of `sends`, in order, on the node's link: the node keeps no copy and does not return them again. Report each of `ended` to whoever asked.
/// The request of `effect` is performed already. Then wait until [`Node::next_due`](crate::Node::next_due) or until the next datagram, whichever is first.
#[derive(Drop)]
pub struct Outcome {
    /// The datagrams to send, in order.
    pub sends: Vec<Datagram>,
    /// The request that the node performed on its store, with the reply, if it performed one: at most one in a call of `on`, none in a tick.
    pub effect: Option<Act>,
    /// The transactions of the client that have ended: at most one after a datagram; after a tick in ascending order of peer and invoke ID.
    pub ended: Vec<Ended>,
    /// Why the node dropped the datagram, if it did.
    pub dropped: Option<Cause>,
    /// Whether the node's server turned a request away: then the one datagram of `sends` is an Abort.
    pub turned_away: bool,
}

impl Outcome {
    /// The outcome of a datagram that is dropped. It allocates nothing.
    pub(crate) fn dropped(alloc: Global, cause: Cause) -> Outcome
        ensures outcome { outcome_view result ≡ dropped_for (cause_view cause) }
        ensures away { result.turned_away ≡ false }
    {
        Outcome {
            sends: Vec::new(alloc),
            effect: None,
            ended: Vec::new(alloc),
            dropped: Some(cause),
            turned_away: false,
        }
    }
}
