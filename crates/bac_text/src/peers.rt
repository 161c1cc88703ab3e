//! Peers, as they are printed.
ghost use Rattle.std.specs.Prelude.{◌≡◌, IfOk, string_bytes};
ghost use Rattle.bac_npdu.specs.Views.{peer_view, route_view};
ghost use Rattle.bac_text.specs.Peers.{link_text, peer_text, route_text};

use bac_npdu::{LinkAddress, Peer, Route};
use std::alloc::{AllocError, Global};

/// A BACnet/IP address, as `192.168.1.5:47808`.
pub fn link_text(alloc: Global, link: LinkAddress) -> Result<String, AllocError>
    ensures { IfOk result (λ t. string_bytes t ≡ link_text link) }
{
    let (a, b, c, d) = (link[0], link[1], link[2], link[3]);
    let port = u32::from(link[4]) * 256 + u32::from(link[5]);
    format!(in alloc; "{a}.{b}.{c}.{d}:{port}")
}

/// The network and the address behind a router, as `5:2A`.
fn route_text(alloc: Global, route: Route) -> Result<String, AllocError>
    ensures { IfOk result (λ t. string_bytes t ≡ route_text (route_view route)) }
{
    let network = route.network;
    let address = hex::encode_upper(alloc, route.address.octets())?;
    format!(in alloc; "{network}:{address}")
}

/// A peer, as `192.168.1.5:47808` or behind a router `192.168.1.5:47808/5:2A`.
pub fn peer_text(alloc: Global, peer: Peer) -> Result<String, AllocError>
    ensures { IfOk result (λ t. string_bytes t ≡ peer_text (peer_view peer)) }
{
    let link = link_text(alloc, peer.link)?;
    let Some(route) = peer.route else {
        return Ok(link);
    };
    let route = route_text(alloc, route)?;
    format!(in alloc; "{link}/{route}")
}
