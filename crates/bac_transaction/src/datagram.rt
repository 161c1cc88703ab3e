//! Datagrams that carry what an end sends.
ghost use Rattle.std.specs.Prelude.{◌≡◌, ◌≤◌, length, IfOk};
ghost use Rattle.bac_apdu.specs.Views.{apdu_view};
ghost use Rattle.bac_npdu.specs.Views.{peer_view};
ghost use Rattle.bac_protocol.specs.Short.{IsShort};
ghost use Rattle.bac_transaction.specs.Sends.{to_peer, IsSent};

use bac_apdu::{Apdu, apdu_len, write};
use bac_npdu::{LinkAddress, Peer, write_frame_head};
use bac_value::NoMemory;
use std::alloc::Global;
use std::marker::Model;

/// A datagram for a link: the address, and its octets.
#[derive(Drop)]
pub struct Datagram {
    to: LinkAddress,
    octets: Vec<u8>,
}

impl Model for Datagram {
    ghost use Rattle.bac_transaction.specs.Sends as sends;

    ghost Value = { sends.Datagram };

    ghost view = { λ d. record { to = d.to; octets = d.octets.items } };
}

impl Datagram {
    /// The link that it goes to.
    pub fn to(&self) -> LinkAddress
        ensures { result ≡ self.now.to }
    {
        self.to
    }

    /// Its octets.
    pub fn octets(&self) -> &[u8]
        ensures { result.now ≡ self.now.octets }
    {
        &self.octets
    }

    /// Its octets, without a copy.
    pub fn into_octets(self) -> Vec<u8>
        ensures { result.items ≡ self.octets }
    {
        self.octets
    }
}

/// The datagram that carries an APDU to a peer, as the one frame of it, in one allocation; `NoMemory` where that is refused.
#[tactic(auto, using(bac_npdu::proofs::Writing::frame_headed))]
pub fn datagram_of(alloc: Global, peer: &Peer, apdu: &Apdu<'_>) -> Result<Datagram, NoMemory>
    requires { IsShort (apdu_view apdu.now) }
    ensures { IfOk result (IsSent (to_peer (peer_view peer.now) (apdu_view apdu.now))) }
{
    let mut octets = Vec::new(alloc);
    write_frame_head(peer, apdu.expects_reply(), apdu_len(apdu), &mut octets)?;
    write(apdu, &mut octets)?;
    Ok(Datagram {
        to: peer.link,
        octets,
    })
}
