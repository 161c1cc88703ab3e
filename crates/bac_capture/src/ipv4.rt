//! IPv4 (RFC 791).
ghost use Rattle.std.specs.Prelude.{◌≡◌, ◌<◌, ◌^◌, IfOk};
ghost use Rattle.std.specs.Option.{option_map};
ghost use Rattle.bac_value.specs.Steps.{ReadsAll, Reads};
ghost use Rattle.bac_capture.specs.Views.{packet_view, ipv4_head_view};
ghost use Rattle.bac_capture.specs.Ipv4.{ipv4_head_at, ipv4_contents_at, ipv4_udp_at, ipv4_at, part_of};

use crate::fault::PacketFault;
use crate::fields::cut;
use crate::ip::UDP;
use crate::packet::{Packet, Part};
use byteorder::{BigEndian, ByteOrder};

/// The length of a header without options, in octets.
const HEADER: u16 = 20;

/// The fields of a header that are used, except the addresses.
#[derive(Clone, Copy)]
pub(crate) struct Ipv4Head {
    /// The version, and the length of the header in units of four octets.
    pub first: u8,
    /// The length of the packet with its header, in octets.
    pub total: u16,
    /// Three flags, the last of which is "more fragments", and the fragment offset.
    pub fragment: u16,
    pub protocol: u8,
}

/// Reads the fields before the addresses.
#[tactic(auto, unfolding(crate::specs::Ipv4::ipv4_head_at, crate::specs::Fields::cut_at))]
fn head(octets: &[u8]) -> Result<(Ipv4Head, &[u8]), PacketFault>
    ensures { Reads ipv4_head_view (λ r. r.now) octets.now result ipv4_head_at }
{
    let (fields, rest) = cut(octets, 12)?;
    let head = Ipv4Head {
        first: fields[0],
        total: BigEndian::read_u16(&fields[2..4]),
        fragment: BigEndian::read_u16(&fields[6..8]),
        protocol: fields[9],
    };
    Ok((head, rest))
}

/// The part of its packet, by the flags and the fragment offset.
fn part(fragment: u16) -> Part
    ensures { result ≡ part_of fragment }
{
    if fragment % 0x2000 != 0 {
        Part::Later
    } else if fragment / 0x2000 % 2 == 1 {
        Part::First
    } else {
        Part::Whole
    }
}

/// Reads the options and the contents, by the lengths of header and packet. There may be fewer octets of contents than announced,
/// and any octets after them are padding.
#[tactic(auto, unfolding(crate::specs::Ipv4::ipv4_contents_at))]
fn contents(octets: &[u8], header: u16, total: u16) -> Result<&[u8], PacketFault>
    ensures { ReadsAll (λ x. x.now) result (ipv4_contents_at header total octets.now) }
{
    if header < HEADER || total < header {
        return Err(PacketFault::IpHeader);
    }
    let (_options, rest) = cut(octets, usize::from(header - HEADER))?;
    let length = usize::from(total - header).min(rest.len());
    Ok(&rest[..length])
}

/// Reads a UDP packet with this header: the addresses, the options and the contents.
#[tactic(auto, unfolding(crate::specs::Ipv4::ipv4_udp_at))]
fn udp_packet(octets: &[u8], head: Ipv4Head) -> Result<Packet<'_>, PacketFault>
    ensures { ReadsAll packet_view result (ipv4_udp_at (ipv4_head_view head) octets.now) }
{
    let (from, rest) = cut(octets, 4)?;
    let (to, rest) = cut(rest, 4)?;
    let header = u16::from(head.first % 16) * 4;
    let contents = contents(rest, header, head.total)?;
    Ok(Packet {
        from,
        to,
        part: part(head.fragment),
        contents,
    })
}

/// Reads a UDP packet; None for all other protocols.
#[tactic(auto, unfolding(crate::specs::Ipv4::ipv4_at))]
pub(crate) fn read_ipv4(octets: &[u8]) -> Result<Option<Packet<'_>>, PacketFault>
    ensures { ReadsAll (option_map packet_view) result (ipv4_at octets.now) }
{
    let (head, rest) = head(octets)?;
    if head.first / 16 != 4 {
        return Err(PacketFault::IpHeader);
    }
    if head.protocol != UDP {
        return Ok(None);
    }
    Ok(Some(udp_packet(rest, head)?))
}
