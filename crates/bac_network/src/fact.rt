//! What is logged.
ghost use Rattle.std.specs.Prelude.{◌≡◌, ◌↔◌, IsTrue};

use crate::comparing_strangers::{same_asked_away, same_ended_away, same_served};
use crate::{Alike, same_change, same_ending};
use bac_npdu::Peer;
use bac_requester::Ending;
use bac_service::{OwnedReply, OwnedRequest, same_reply, same_request};
use bac_store::{Change, Store};

/// What was asked, performed, ended, changed or restarted. Asks are numbered from 0, those of strangers with the others; clients and servers are numbered
/// among the nodes. A stranger is a peer whose link is no node's.
#[derive(Drop)]
pub enum Fact {
    /// An ask was accepted.
    Asked {
        /// Its number.
        number: usize,
        /// The node that asks.
        client: usize,
        /// The node that is asked.
        server: usize,
        /// What is asked.
        request: OwnedRequest,
    },
    /// A request was performed on its server's store.
    Performed {
        /// The number of its ask.
        number: usize,
        /// The request.
        request: OwnedRequest,
        /// The reply of the store.
        reply: OwnedReply,
    },
    /// An ask has ended.
    Ended {
        /// Its number.
        number: usize,
        /// How it ended.
        how: Ending,
    },
    /// A node changed its own store, by no request.
    Changed {
        /// The node.
        node: usize,
        /// What changed.
        change: Change,
    },
    /// A node restarted.
    Restarted {
        /// The node.
        node: usize,
        /// The store with which it started again; None where it was the one that it had.
        store: Option<Store>,
    },
    /// A request of a stranger was performed on a node's store.
    Served {
        /// The stranger.
        peer: Peer,
        /// The node.
        node: usize,
        /// The invoke ID of the request.
        invoke_id: u8,
        /// When the node's entry for that request began, in milliseconds by the node's clock.
        begin: u64,
        /// The request.
        request: OwnedRequest,
        /// The reply of the store.
        reply: OwnedReply,
    },
    /// An ask of a stranger was accepted.
    AskedAway {
        /// Its number.
        number: usize,
        /// The node that asks.
        client: usize,
        /// The stranger that is asked.
        peer: Peer,
        /// What is asked.
        request: OwnedRequest,
    },
    /// An ask of a stranger has ended.
    EndedAway {
        /// Its number.
        number: usize,
        /// How it ended.
        how: Ending,
    },
}

/// Whether two nodes restarted with the same store, or both with the one that they had.
fn same_start(one: &Option<Store>, other: &Option<Store>) -> bool
    ensures { IsTrue result ↔ (one.now ≡ other.now) }
{
    match one {
        Some(store) => match other {
            Some(another) => store.same(another),
            None => false,
        },
        None => other.is_none(),
    }
}

impl Alike for Fact {
    ghost use Rattle.bac_world.specs.Once as once;
    ghost use Rattle.bac_network.specs.Views.{fact_view};

    ghost Seen = { once.Fact };

    ghost seen = { λ f. fact_view f };

    fn is_alike(&self, other: &Fact) -> bool {
        match self {
            Fact::Asked {
                number,
                client,
                server,
                request,
            } => match other {
                Fact::Asked {
                    number: place,
                    client: asking,
                    server: asked,
                    request: service,
                } => {
                    number == place
                        && client == asking
                        && server == asked
                        && same_request(request, service)
                }
                _ => false,
            },
            Fact::Performed {
                number,
                request,
                reply,
            } => match other {
                Fact::Performed {
                    number: place,
                    request: service,
                    reply: answer,
                } => number == place && same_request(request, service) && same_reply(reply, answer),
                _ => false,
            },
            Fact::Ended { number, how } => match other {
                Fact::Ended {
                    number: place,
                    how: end,
                } => number == place && same_ending(how, end),
                _ => false,
            },
            Fact::Changed { node, change } => match other {
                Fact::Changed {
                    node: place,
                    change: made,
                } => node == place && same_change(change, made),
                _ => false,
            },
            Fact::Restarted { node, store } => match other {
                Fact::Restarted {
                    node: place,
                    store: opening,
                } => node == place && same_start(store, opening),
                _ => false,
            },
            Fact::Served { .. } => same_served(self, other),
            Fact::AskedAway { .. } => same_asked_away(self, other),
            Fact::EndedAway { .. } => same_ended_away(self, other),
        }
    }
}
