//! Reading datagrams that were received from a link.
ghost use Rattle.std.specs.Prelude.{◌≡◌, ℕ, List, IfOk, IfErr};
ghost use Rattle.bac_npdu.specs.Peers.{PeerView};
ghost use Rattle.bac_npdu.specs.Datagram.{Carries};
ghost use Rattle.bac_npdu.specs.Causes.{IsCause};
ghost use Rattle.bac_npdu.specs.Views.{peer_view};

use crate::bvll::read_bvll;
use crate::fault::Dropped;
use crate::npdu_reading::read_npdu;
use crate::peer::{LinkAddress, Peer};

/// Returns the peer that sent a datagram from a link, and the octets of its APDU (clause 6, Annex J); or the first reason of
/// `Dropped` that applies.
pub fn read_datagram(link: LinkAddress, octets: &[u8]) -> Result<(Peer, &[u8]), Dropped>
    ensures carried { IfOk result (λ r. Carries link octets.now (peer_view r.0) r.1.now) }
    ensures none { IfErr result (λ e. (peer : PeerView) (apdu : List ℕ) → Carries link octets.now peer apdu → ⊥) }
    ensures cause { IfErr result (IsCause octets.now) }
{
    let npdu = match read_bvll(octets) {
        Ok(npdu) => npdu,
        Err(fault) => return Err(Dropped::Bvll(fault)),
    };
    let npdu = match read_npdu(npdu) {
        Ok(npdu) => npdu,
        Err(fault) => return Err(Dropped::Npdu(fault)),
    };
    if npdu.destination.is_some() {
        Err(Dropped::Routed)
    } else if npdu.message.is_some() {
        Err(Dropped::NetworkMessage)
    } else {
        let peer = Peer {
            link,
            route: npdu.source,
        };
        Ok((peer, npdu.contents))
    }
}
