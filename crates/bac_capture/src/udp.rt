//! UDP (RFC 768).
ghost use Rattle.std.specs.Option.{option_map};
ghost use Rattle.bac_value.specs.Steps.{ReadsAll, Reads};
ghost use Rattle.bac_capture.specs.Views.{packet_view, datagram_view};
ghost use Rattle.bac_capture.specs.Udp.{udp_body_at, udp_part_at, udp_at, packet_datagram_at};

use crate::fault::PacketFault;
use crate::fields::{cut, word};
use crate::packet::{Datagram, Endpoint, Packet, Part};
use crate::ports::Ports;

/// The length of the header in octets.
const HEADER: u16 = 8;

/// The octets of a datagram, after the ports: the UDP length, the checksum, and the octets.
#[tactic(auto, unfolding(crate::specs::Udp::udp_body_at))]
fn body(octets: &[u8]) -> Result<(&[u8], &[u8]), PacketFault>
    ensures { Reads (λ x. x.now) (λ r. r.now) octets.now result udp_body_at }
{
    let (length, rest) = word(octets)?;
    let (_checksum, rest) = word(rest)?;
    if length < HEADER {
        return Err(PacketFault::UdpLength);
    }
    cut(rest, usize::from(length - HEADER))
}

/// The octets of a datagram if the packet is whole; of the first fragment of several only the ports can be read.
fn part_body(octets: &[u8], part: Part) -> Result<(&[u8], &[u8]), PacketFault>
    ensures { Reads (λ x. x.now) (λ r. r.now) octets.now result (udp_part_at part) }
{
    match part {
        Part::First => Err(PacketFault::Fragment),
        Part::Whole | Part::Later => body(octets),
    }
}

/// The datagram of a packet that is not a later fragment, if one of its ports is among these.
#[tactic(auto, unfolding(crate::specs::Udp::udp_at))]
fn datagram(packet: Packet<'_>, ports: Ports) -> Result<Option<Datagram<'_>>, PacketFault>
    ensures { ReadsAll (option_map datagram_view) result (udp_at ports.also (packet_view packet.entry)) }
{
    let (from, rest) = word(packet.contents)?;
    let (to, rest) = word(rest)?;
    if !ports.has(from) && !ports.has(to) {
        return Ok(None);
    }
    let (octets, _) = part_body(rest, packet.part)?;
    Ok(Some(Datagram {
        from: Endpoint {
            host: packet.from,
            port: from,
        },
        to: Endpoint {
            host: packet.to,
            port: to,
        },
        octets,
    }))
}

/// The datagram of a UDP packet, if one of its ports is among these.
pub(crate) fn read_udp(
    packet: Packet<'_>,
    ports: Ports,
) -> Result<Option<Datagram<'_>>, PacketFault>
    ensures { ReadsAll (option_map datagram_view) result (packet_datagram_at ports.also (packet_view packet.entry)) }
{
    match packet.part {
        Part::Later => Err(PacketFault::Fragment),
        Part::Whole | Part::First => datagram(packet, ports),
    }
}
