//! Decoding what was captured.
ghost use Rattle.std.specs.Prelude.{◌≡◌};
ghost use Rattle.std.specs.Option.{option_map};
ghost use Rattle.bac_npdu.specs.Views.{destination_view, npdu_view, peer_view};
ghost use Rattle.bac_explain.specs.KeyViews.{key_view};
ghost use Rattle.bac_explain.specs.Sightings.{apdu_sighting, key_of, receiver_of, sighting_at, sighting_in, sighting_view};

use crate::key::TransactionKey;
use crate::part::{Part, Role, part_of};
use bac_npdu::{Destination, LinkAddress, Npdu, Peer, Route, read_bvll, read_npdu};

/// An APDU of a transaction that was captured.
#[derive(Clone, Copy, Debug)]
pub struct Sighting<'a> {
    /// The transaction.
    pub key: TransactionKey,
    /// The role of the APDU.
    pub role: Role,
    /// Its octets.
    pub octets: &'a [u8],
}

/// The receiver at a link address: the node there, or the destination of the NPDU. None if these are many receivers.
fn receiver(link: LinkAddress, destination: Option<Destination>) -> Option<Peer>
    ensures { option_map peer_view result ≡ receiver_of link (option_map destination_view destination) }
{
    let Some(destination) = destination else {
        return Some(Peer { link, route: None });
    };
    match Route::new(destination.network, destination.address.octets()) {
        Some(route) => Some(Peer {
            link,
            route: Some(route),
        }),
        None => None,
    }
}

/// The transaction of an APDU between two peers.
fn key_of(part: Part, from: Peer, to: Peer) -> TransactionKey
    ensures { key_view result ≡ key_of part (peer_view from) (peer_view to) }
{
    let (client, server) = if part.by_client {
        (from, to)
    } else {
        (to, from)
    };
    TransactionKey {
        client,
        server,
        invoke_id: part.invoke_id,
    }
}

/// The APDU of an NPDU between two link addresses.
#[tactic(auto, unfolding(crate::specs::Sightings::apdu_sighting))]
fn apdu_sighting<'a>(from: LinkAddress, to: LinkAddress, npdu: Npdu<'a>) -> Option<Sighting<'a>>
    ensures { option_map sighting_view result ≡ apdu_sighting from to (npdu_view npdu.entry) }
{
    let to = receiver(to, npdu.destination)?;
    let Ok(apdu) = bac_apdu::read(npdu.contents) else {
        return None;
    };
    let part = part_of(&apdu)?;
    let from = Peer {
        link: from,
        route: npdu.source,
    };
    Some(Sighting {
        key: key_of(part, from, to),
        role: part.role,
        octets: npdu.contents,
    })
}

/// The same, unless it is a network layer message.
fn sighting_in<'a>(from: LinkAddress, to: LinkAddress, npdu: Npdu<'a>) -> Option<Sighting<'a>>
    ensures { option_map sighting_view result ≡ sighting_in from to (npdu_view npdu.entry) }
{
    if npdu.message.is_some() {
        return None;
    }
    apdu_sighting(from, to, npdu)
}

/// The APDU of a transaction in a datagram between two link addresses: a BVLL with function Original-Unicast-NPDU, whose NPDU is not a
/// network layer message. Each end is its link address, with the source or the destination of the NPDU as its route. None if the
/// datagram has no such APDU, for example if it is a broadcast or an Unconfirmed-Request.
#[tactic(auto, unfolding(crate::specs::Sightings::sighting_at))]
pub fn read_sighting(from: LinkAddress, to: LinkAddress, datagram: &[u8]) -> Option<Sighting<'_>>
    ensures { option_map sighting_view result ≡ sighting_at from to datagram.now }
{
    let Ok(npdu) = read_bvll(datagram) else {
        return None;
    };
    let Ok(npdu) = read_npdu(npdu) else {
        return None;
    };
    sighting_in(from, to, npdu)
}
