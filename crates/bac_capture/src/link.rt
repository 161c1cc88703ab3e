//! Link layers, and the IP packets that their frames carry.
ghost use Rattle.std.specs.Prelude.{◌≡◌};
ghost use Rattle.bac_value.specs.Steps.{Reads};
ghost use Rattle.bac_capture.specs.Links.{link_kind_of, network_of, family_network_of, is_tag, untagged_at, typed_at, ethernet_at};
ghost use Rattle.bac_capture.specs.Links.{cooked_at, cooked_2_at, version_network_of, raw_at, loopback_at, link_at};

use crate::fault::PacketFault;
use crate::fields::{cut, long, octet, word};
use crate::packet::Network;

/// The link layers that are supported.
#[derive(Clone, Copy, Debug, PartialEq, Eq)]
pub enum LinkKind {
    /// BSD loopback: an address family, in either byte order, and a packet.
    Loopback,
    /// Ethernet, with at most two VLAN tags.
    Ethernet,
    /// Raw IP packets.
    RawIp,
    /// Linux cooked captures, of all interfaces together.
    LinuxCooked,
    /// The second version of Linux cooked captures.
    LinuxCooked2,
}

impl LinkKind {
    /// The link layer with a number of capture files (LINKTYPE_ and DLT_): 0 and 108 loopback, 1 Ethernet, 12, 14, 101, 228 and 229
    /// raw packets, 113 and 276 Linux cooked captures. None for all other numbers.
    pub fn of(number: u16) -> Option<LinkKind>
        ensures { result ≡ link_kind_of number }
    {
        match number {
            0 | 108 => Some(LinkKind::Loopback),
            1 => Some(LinkKind::Ethernet),
            12 | 14 | 101 | 228 | 229 => Some(LinkKind::RawIp),
            113 => Some(LinkKind::LinuxCooked),
            276 => Some(LinkKind::LinuxCooked2),
            _ => None,
        }
    }
}

/// The version of IP for an EtherType; None for all other protocols.
fn network_of(ether_type: u16) -> Option<Network>
    ensures { result ≡ network_of ether_type }
{
    match ether_type {
        0x0800 => Some(Network::Ipv4),
        0x86DD => Some(Network::Ipv6),
        _ => None,
    }
}

/// The version of IP for an address family, in either byte order: the numbers for IPv6 differ between systems.
fn family_network(family: u32) -> Option<Network>
    ensures { result ≡ family_network_of family }
{
    match family {
        0x0000_0002 | 0x0200_0000 => Some(Network::Ipv4),
        0x0000_000A | 0x0000_0018 | 0x0000_001C | 0x0000_001E => Some(Network::Ipv6),
        0x0A00_0000 | 0x1800_0000 | 0x1C00_0000 | 0x1E00_0000 => Some(Network::Ipv6),
        _ => None,
    }
}

/// Whether an EtherType is that of a VLAN tag (802.1Q, 802.1ad, and an older number of the latter).
fn is_tag(ether_type: u16) -> bool
    ensures { result ≡ is_tag ether_type }
{
    ether_type == 0x8100 || ether_type == 0x88A8 || ether_type == 0x9100
}

/// Skips a VLAN tag, if there is one. Returns the EtherType after it, and the octets from there.
#[tactic(auto, unfolding(crate::specs::Links::untagged_at))]
fn untagged(ether_type: u16, octets: &[u8]) -> Result<(u16, &[u8]), PacketFault>
    ensures { Reads (λ x. x) (λ r. r.now) octets.now result (untagged_at ether_type) }
{
    if !is_tag(ether_type) {
        return Ok((ether_type, octets));
    }
    let (_tag, rest) = word(octets)?;
    word(rest)
}

/// What follows an EtherType and at most two VLAN tags.
#[tactic(auto, unfolding(crate::specs::Links::typed_at))]
fn typed(ether_type: u16, octets: &[u8]) -> Result<(Option<Network>, &[u8]), PacketFault>
    ensures { Reads (λ x. x) (λ r. r.now) octets.now result (typed_at ether_type) }
{
    let (ether_type, rest) = untagged(ether_type, octets)?;
    let (ether_type, rest) = untagged(ether_type, rest)?;
    Ok((network_of(ether_type), rest))
}

/// Two addresses of six octets, and an EtherType.
#[tactic(auto, unfolding(crate::specs::Links::ethernet_at))]
fn ethernet(octets: &[u8]) -> Result<(Option<Network>, &[u8]), PacketFault>
    ensures { Reads (λ x. x) (λ r. r.now) octets.now result ethernet_at }
{
    let (_addresses, rest) = cut(octets, 12)?;
    let (ether_type, rest) = word(rest)?;
    typed(ether_type, rest)
}

/// Fourteen octets about the interface, and an EtherType.
#[tactic(auto, unfolding(crate::specs::Links::cooked_at))]
fn cooked(octets: &[u8]) -> Result<(Option<Network>, &[u8]), PacketFault>
    ensures { Reads (λ x. x) (λ r. r.now) octets.now result cooked_at }
{
    let (_interface, rest) = cut(octets, 14)?;
    let (ether_type, rest) = word(rest)?;
    typed(ether_type, rest)
}

/// An EtherType, and eighteen octets about the interface.
#[tactic(auto, unfolding(crate::specs::Links::cooked_2_at))]
fn cooked_2(octets: &[u8]) -> Result<(Option<Network>, &[u8]), PacketFault>
    ensures { Reads (λ x. x) (λ r. r.now) octets.now result cooked_2_at }
{
    let (ether_type, rest) = word(octets)?;
    let (_interface, rest) = cut(rest, 18)?;
    typed(ether_type, rest)
}

/// The version of IP in the first octet of a packet.
fn version_network(first: u8) -> Option<Network>
    ensures { result ≡ version_network_of first }
{
    match first / 16 {
        4 => Some(Network::Ipv4),
        6 => Some(Network::Ipv6),
        _ => None,
    }
}

/// A packet, whose first octet contains its version.
#[tactic(auto, unfolding(crate::specs::Links::raw_at))]
fn raw(octets: &[u8]) -> Result<(Option<Network>, &[u8]), PacketFault>
    ensures { Reads (λ x. x) (λ r. r.now) octets.now result raw_at }
{
    let (first, _) = octet(octets)?;
    match version_network(first) {
        Some(network) => Ok((Some(network), octets)),
        None => Err(PacketFault::IpHeader),
    }
}

/// An address family, and a packet.
#[tactic(auto, unfolding(crate::specs::Links::loopback_at))]
fn loopback(octets: &[u8]) -> Result<(Option<Network>, &[u8]), PacketFault>
    ensures { Reads (λ x. x) (λ r. r.now) octets.now result loopback_at }
{
    let (family, rest) = long(octets)?;
    Ok((family_network(family), rest))
}

/// The packet in a frame, and its version of IP; None for all other protocols.
pub(crate) fn read_link(
    kind: LinkKind,
    octets: &[u8],
) -> Result<(Option<Network>, &[u8]), PacketFault>
    ensures { Reads (λ x. x) (λ r. r.now) octets.now result (link_at kind) }
{
    match kind {
        LinkKind::Loopback => loopback(octets),
        LinkKind::Ethernet => ethernet(octets),
        LinkKind::RawIp => raw(octets),
        LinkKind::LinuxCooked => cooked(octets),
        LinkKind::LinuxCooked2 => cooked_2(octets),
    }
}
