//! IPv6 (RFC 8200).
ghost use Rattle.std.specs.Prelude.{◌≡◌};
ghost use Rattle.std.specs.Option.{option_map};
ghost use Rattle.bac_value.specs.Steps.{ReadsAll, Reads};
ghost use Rattle.bac_capture.specs.Views.{packet_view, ipv6_head_view};
ghost use Rattle.bac_capture.specs.Ipv6.{ipv6_head_at, is_extension, extension_at, fragment_part_of, fragment_at, upper_at, extended_at};
ghost use Rattle.bac_capture.specs.Ipv6.{ipv6_udp_at, ipv6_at};

use crate::fault::PacketFault;
use crate::fields::{cut, long, octet, word};
use crate::ip::UDP;
use crate::packet::{Packet, Part};
use byteorder::{BigEndian, ByteOrder};

/// The header with hop-by-hop options.
const HOP_BY_HOP: u8 = 0;
/// The routing header.
const ROUTING: u8 = 43;
/// The fragment header.
const FRAGMENT: u8 = 44;
/// The header with destination options.
const DESTINATION: u8 = 60;

/// The fields of a header that are used, except the addresses.
#[derive(Clone, Copy)]
pub(crate) struct Ipv6Head {
    /// The version, and part of the traffic class.
    pub first: u8,
    /// The length of the packet after this header, in octets.
    pub length: u16,
    /// The number of the next header.
    pub next: u8,
}

/// Reads the fields before the addresses.
#[tactic(auto, unfolding(crate::specs::Ipv6::ipv6_head_at, crate::specs::Fields::cut_at))]
fn head(octets: &[u8]) -> Result<(Ipv6Head, &[u8]), PacketFault>
    ensures { Reads ipv6_head_view (λ r. r.now) octets.now result ipv6_head_at }
{
    let (fields, rest) = cut(octets, 8)?;
    let head = Ipv6Head {
        first: fields[0],
        length: BigEndian::read_u16(&fields[4..6]),
        next: fields[6],
    };
    Ok((head, rest))
}

/// Whether a header with this number has options or a route, so that it can be skipped.
fn is_extension(next: u8) -> bool
    ensures { result ≡ is_extension next }
{
    next == HOP_BY_HOP || next == ROUTING || next == DESTINATION
}

/// Skips a header with options or a route, if one comes next. Returns the number of the header after it, and the octets from
/// there.
#[tactic(auto, unfolding(crate::specs::Ipv6::extension_at))]
fn pass(next: u8, octets: &[u8]) -> Result<(u8, &[u8]), PacketFault>
    ensures { Reads (λ x. x) (λ r. r.now) octets.now result (extension_at next) }
{
    if !is_extension(next) {
        return Ok((next, octets));
    }
    let (following, rest) = octet(octets)?;
    let (length, rest) = octet(rest)?;
    let (_options, rest) = cut(rest, usize::from(length) * 8 + 6)?;
    Ok((following, rest))
}

/// The part of its packet, by the offset and the flag of a fragment header.
fn part(place: u16) -> Part
    ensures { result ≡ fragment_part_of place }
{
    if place / 8 != 0 {
        Part::Later
    } else if place % 2 == 1 {
        Part::First
    } else {
        Part::Whole
    }
}

/// Reads what follows a fragment header, and which part it is; None for protocols other than UDP.
#[tactic(auto, unfolding(crate::specs::Ipv6::fragment_at))]
fn fragment(octets: &[u8]) -> Result<Option<(Part, &[u8])>, PacketFault>
    ensures { ReadsAll (option_map (λ p. (p.0, p.1.now))) result (fragment_at octets.now) }
{
    let (next, rest) = octet(octets)?;
    let (_reserved, rest) = octet(rest)?;
    let (place, rest) = word(rest)?;
    let (_identification, rest) = long(rest)?;
    if next == UDP {
        Ok(Some((part(place), rest)))
    } else {
        Ok(None)
    }
}

/// Reads the octets of UDP, if those or a fragment come next; None for all other protocols.
fn upper(next: u8, octets: &[u8]) -> Result<Option<(Part, &[u8])>, PacketFault>
    ensures { ReadsAll (option_map (λ p. (p.0, p.1.now))) result (upper_at next octets.now) }
{
    if next == UDP {
        Ok(Some((Part::Whole, octets)))
    } else if next == FRAGMENT {
        fragment(octets)
    } else if is_extension(next) {
        Err(PacketFault::IpHeader)
    } else {
        Ok(None)
    }
}

/// The same, after at most three headers with options or a route.
#[tactic(auto, unfolding(crate::specs::Ipv6::extended_at))]
fn extended(next: u8, octets: &[u8]) -> Result<Option<(Part, &[u8])>, PacketFault>
    ensures { ReadsAll (option_map (λ p. (p.0, p.1.now))) result (extended_at next octets.now) }
{
    let (next, rest) = pass(next, octets)?;
    let (next, rest) = pass(next, rest)?;
    let (next, rest) = pass(next, rest)?;
    upper(next, rest)
}

/// Reads a UDP packet with this header: the addresses and the contents. There may be fewer octets of contents than announced, and
/// any octets after them are padding.
#[tactic(auto, unfolding(crate::specs::Ipv6::ipv6_udp_at))]
fn udp_packet(octets: &[u8], head: Ipv6Head) -> Result<Option<Packet<'_>>, PacketFault>
    ensures { ReadsAll (option_map packet_view) result (ipv6_udp_at (ipv6_head_view head) octets.now) }
{
    let (from, rest) = cut(octets, 16)?;
    let (to, rest) = cut(rest, 16)?;
    let length = usize::from(head.length).min(rest.len());
    match extended(head.next, &rest[..length])? {
        None => Ok(None),
        Some((part, contents)) => Ok(Some(Packet {
            from,
            to,
            part,
            contents,
        })),
    }
}

/// Reads a UDP packet; None for all other protocols.
#[tactic(auto, unfolding(crate::specs::Ipv6::ipv6_at))]
pub(crate) fn read_ipv6(octets: &[u8]) -> Result<Option<Packet<'_>>, PacketFault>
    ensures { ReadsAll (option_map packet_view) result (ipv6_at octets.now) }
{
    let (head, rest) = head(octets)?;
    if head.first / 16 != 6 {
        return Err(PacketFault::IpHeader);
    }
    udp_packet(rest, head)
}
