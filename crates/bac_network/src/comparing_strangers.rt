//! Whether two facts of strangers are the same.
ghost use Rattle.std.specs.Prelude.{◌≡◌, ◌↔◌, IsTrue};
ghost use Rattle.bac_npdu.specs.Views.{peer_view};
ghost use Rattle.bac_network.specs.Strangers.{IsAskedAwayFact, IsEndedAwayFact, IsServedFact};
ghost use Rattle.bac_network.specs.Views.{fact_view};

use crate::fact::Fact;
use crate::same_ending;
use bac_npdu::Peer;
use bac_service::{same_reply, same_request};

/// Whether both are one peer.
fn is_same_peer(one: &Peer, other: &Peer) -> bool
    ensures { IsTrue result ↔ (peer_view one.now ≡ peer_view other.now) }
{
    one == other
}

/// Whether another fact is the same request of a stranger that was performed.
pub(crate) fn same_served(one: &Fact, other: &Fact) -> bool
    requires { IsServedFact (fact_view one.now) }
    ensures { IsTrue result ↔ (fact_view one.now ≡ fact_view other.now) }
{
    match one {
        Fact::Served {
            peer,
            node,
            invoke_id,
            begin,
            request,
            reply,
        } => match other {
            Fact::Served {
                peer: stranger,
                node: server,
                invoke_id: number,
                begin: start,
                request: service,
                reply: answer,
            } => {
                is_same_peer(peer, stranger)
                    && node == server
                    && invoke_id == number
                    && begin == start
                    && same_request(request, service)
                    && same_reply(reply, answer)
            }
            _ => false,
        },
        _ => false,
    }
}

/// Whether another fact is the same ask of a stranger.
pub(crate) fn same_asked_away(one: &Fact, other: &Fact) -> bool
    requires { IsAskedAwayFact (fact_view one.now) }
    ensures { IsTrue result ↔ (fact_view one.now ≡ fact_view other.now) }
{
    match one {
        Fact::AskedAway {
            number,
            client,
            peer,
            request,
        } => match other {
            Fact::AskedAway {
                number: place,
                client: asking,
                peer: stranger,
                request: service,
            } => {
                number == place
                    && client == asking
                    && is_same_peer(peer, stranger)
                    && same_request(request, service)
            }
            _ => false,
        },
        _ => false,
    }
}

/// Whether another fact is the same ending of an ask of a stranger.
pub(crate) fn same_ended_away(one: &Fact, other: &Fact) -> bool
    requires { IsEndedAwayFact (fact_view one.now) }
    ensures { IsTrue result ↔ (fact_view one.now ≡ fact_view other.now) }
{
    match one {
        Fact::EndedAway { number, how } => match other {
            Fact::EndedAway {
                number: place,
                how: end,
            } => number == place && same_ending(how, end),
            _ => false,
        },
        _ => false,
    }
}
