//! Reading the datagram in a frame.
ghost use Rattle.std.specs.Option.{option_map};
ghost use Rattle.bac_value.specs.Steps.{ReadsAll};
ghost use Rattle.bac_capture.specs.Views.{packet_view, datagram_view};
ghost use Rattle.bac_capture.specs.Frames.{network_at, packet_at, datagram_at};

use crate::fault::PacketFault;
use crate::ipv4::read_ipv4;
use crate::ipv6::read_ipv6;
use crate::link::{LinkKind, read_link};
use crate::packet::{Datagram, Network, Packet};
use crate::ports::Ports;
use crate::udp::read_udp;

/// Reads a UDP packet with this version of IP; None for all other protocols.
fn network_packet(
    network: Option<Network>,
    octets: &[u8],
) -> Result<Option<Packet<'_>>, PacketFault>
    ensures { ReadsAll (option_map packet_view) result (network_at network octets.now) }
{
    match network {
        None => Ok(None),
        Some(Network::Ipv4) => read_ipv4(octets),
        Some(Network::Ipv6) => read_ipv6(octets),
    }
}

/// The UDP packet in a frame; None for all other protocols.
#[tactic(auto, unfolding(crate::specs::Frames::packet_at))]
fn packet(link: LinkKind, octets: &[u8]) -> Result<Option<Packet<'_>>, PacketFault>
    ensures { ReadsAll (option_map packet_view) result (packet_at link octets.now) }
{
    let (network, rest) = read_link(link, octets)?;
    network_packet(network, rest)
}

/// The datagram of BACnet/IP in a frame with this link layer: UDP over IPv4 or IPv6, with one of these ports at one end.
///
/// Returns None if the frame carries something else. The ports decide this even for the first fragment of a packet; for that,
/// and for every later fragment of UDP, `Fragment` is returned, since the datagram is spread over several frames. Returns
/// `Truncated` if the frame ends before its headers say, for example if it was not captured whole, and `IpHeader` or `UdpLength`
/// if a header is not valid. Checksums are not verified, and octets after the packet are padding.
#[tactic(auto, unfolding(crate::specs::Frames::datagram_at))]
pub fn read_frame(
    link: LinkKind,
    ports: Ports,
    octets: &[u8],
) -> Result<Option<Datagram<'_>>, PacketFault>
    ensures { ReadsAll (option_map datagram_view) result (datagram_at link ports.also octets.now) }
{
    match packet(link, octets)? {
        None => Ok(None),
        Some(packet) => read_udp(packet, ports),
    }
}
