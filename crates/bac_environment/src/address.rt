//! IPv4 addresses, UDP ports and the ways behind routers as words.
ghost use Rattle.std.specs.Prelude.{◌≡◌, ◌⊎◌, ◌≤◌, ℕ, List, true, take, IfSome, MatchOption};
ghost use Rattle.std.specs.Net.Addr.{ipv4_octets};
ghost use Rattle.std.specs.Net.Grammar.{IsIpv4Text};
ghost use Rattle.std.specs.declared.net.Ipv4Addr.{Ipv4Addr};
ghost use Rattle.bac_npdu.specs.Views.{peer_view, route_view};
ghost use Rattle.bac_environment.specs.Addresses.{AreOctets, IsEnd, IsHost, IsLink, IsNoEnd, IsNoHost, IsNoLink, IsNoPeer, IsNoPort, IsNoRoute, IsNoWay, IsPeer, IsPort, IsRoute, IsWay, is_of_node, link_of, port_or_own};

use crate::numbers::{parts_at, read_short};
use bac_npdu::{LinkAddress, Peer, Route};
use std::fmt;
use std::net::Ipv4Addr;

/// The address of this machine that no other one reaches.
pub const LOCAL_HOST: [u8; 4] = [127, 0, 0, 1];

/// Each address of this machine.
pub const EVERY_HOST: [u8; 4] = [0, 0, 0, 0];

/// The first octet of the first address of a group of hosts (multicast); no host has an address from there on.
const FIRST_GROUP: u8 = 224;

/// The port of BACnet/IP, BAC0 (clause J.1.2).
pub const BACNET_PORT: u16 = 47_808;

/// The address that a text as `192.168.1.20` is. None of any other text.
pub fn read_host(text: &str) -> Option<[u8; 4]>
    ensures { MatchOption result ((a : Ipv4Addr) → IsIpv4Text text.now a → ⊥) (λ host. (a : Ipv4Addr) × IsIpv4Text text.now a × (ipv4_octets a ≡ host)) }
{
    match text.parse::<Ipv4Addr>() {
        Ok(host) => Some(host.octets()),
        Err(_) => None,
    }
}

/// The address of a link: a host and a UDP port (clause J.1.2).
pub fn link_at(host: [u8; 4], port: u16) -> LinkAddress
    ensures is { result ≡ link_of host port }
    ensures host { take 4 result ≡ host }
{
    let [a, b, c, d] = host;
    let [high, low] = port.to_be_bytes();
    [a, b, c, d, high, low]
}

/// The port that a text is, from 1 on.
#[tactic(auto, using(crate::proofs::Addresses::no_number_no_port, crate::proofs::Addresses::zero_no_port, crate::proofs::Addresses::some_port))]
fn read_port(text: &str) -> Option<u16>
    ensures { MatchOption result (IsNoPort text.now) (IsPort text.now) }
{
    let port = read_short(text)?;
    if port == 0 { None } else { Some(port) }
}

/// Whether a node can have an address: not where it is 0.0.0.0, of a group, reserved, or that of all hosts of a link.
pub fn is_of_node(host: [u8; 4]) -> bool
    ensures { result ≡ is_of_node host }
{
    host != EVERY_HOST && host[0] < FIRST_GROUP
}

/// The port that is named, or that of BACnet/IP.
fn port_or_own(port: Option<u16>) -> u16
    ensures { result ≡ port_or_own port }
{
    match port {
        Some(port) => port,
        None => BACNET_PORT,
    }
}

/// The address of a node that a text as `192.168.1.20:47809` is; without a port, which is 1 to 65,535, it is that of BACnet/IP. None of any other text, and of
/// an address that no node has: 0.0.0.0, and those from 224.0.0.0 on.
#[tactic(auto, using(crate::proofs::Addresses::no_end_no_link, crate::proofs::Addresses::of_none_no_link, crate::proofs::Addresses::link_of_end))]
pub fn read_link(text: &str) -> Option<LinkAddress>
    ensures link { MatchOption result (IsNoLink text.now) (IsLink text.now) }
    ensures node { IfSome result (λ link. is_of_node (take 4 link) ≡ true) }
{
    let (host, port) = read_end(text)?;
    if is_of_node(host) {
        Some(link_at(host, port_or_own(port)))
    } else {
        None
    }
}

/// The address and the port that two texts are. None where one of them is none.
#[tactic(auto, using(crate::proofs::Addresses::no_host_there, crate::proofs::Addresses::no_port_there))]
fn host_and_port(host: &str, port: &str) -> Option<([u8; 4], u16)>
    ensures { MatchOption result (IsNoHost host.now ⊎ IsNoPort port.now) (λ e. IsHost host.now e.0 × IsPort port.now e.1) }
{
    let host = read_host(host)?;
    let port = read_port(port)?;
    Some((host, port))
}

/// The address that a text as `192.168.1.20` or `192.168.1.20:47809` is, and its port, 1 to 65,535, if there is one. None of any other text.
#[tactic(auto, using(crate::proofs::Addresses::end_alone, crate::proofs::Addresses::end_with_port, crate::proofs::Addresses::no_host_alone, crate::proofs::Addresses::no_parts_no_end))]
pub fn read_end(text: &str) -> Option<([u8; 4], Option<u16>)>
    ensures { MatchOption result (IsNoEnd text.now) (λ e. IsEnd text.now e.0 e.1) }
{
    match parts_at(text, ':') {
        Some((host, port)) => {
            let (host, port) = host_and_port(host, port)?;
            Some((host, Some(port)))
        }
        None => {
            let host = read_host(text)?;
            Some((host, None))
        }
    }
}

/// The most octets of a device's address on its network.
const MOST_OCTETS: usize = 8;

/// The octets that a text is in hexadecimal, at most 8: at the front of these, and how many.
fn read_octets(digits: &str) -> Option<([u8; MOST_OCTETS], usize)>
    ensures { MatchOption result ((octets : List ℕ) → AreOctets digits.now octets → ⊥) (λ o. (o.1 ≤ 8) × AreOctets digits.now (take o.1 o.0)) }
{
    let count = digits.len() / 2;
    if count > MOST_OCTETS {
        return None;
    }
    let mut address = [0; MOST_OCTETS];
    match hex::decode_to_slice(digits, &mut address[..count]) {
        Ok(()) => Some((address, count)),
        Err(_) => None,
    }
}

/// The way on to a network by its number, and a device's address there.
#[tactic(auto, using(crate::proofs::Addresses::no_number_no_way, crate::proofs::Addresses::no_octets_no_way, crate::proofs::Addresses::way_told))]
fn route_of(network: &str, digits: &str) -> Option<Route>
    ensures { MatchOption result (IsNoWay network.now digits.now) (λ r. IsWay network.now digits.now (route_view r)) }
{
    let network = read_short(network)?;
    let (address, count) = read_octets(digits)?;
    Route::new(network, &address[..count])
}

/// The way on from a router that a text as `5:2A` is: a network's number, 1 to 65,534, and a device's address there, 1 to 8 octets in hexadecimal. None of
/// any other text.
#[tactic(auto, using(crate::proofs::Addresses::no_colon_no_route, crate::proofs::Addresses::route_told))]
pub fn read_route(text: &str) -> Option<Route>
    ensures { MatchOption result (IsNoRoute text.now) (λ r. IsRoute text.now (route_view r)) }
{
    let (network, digits) = parts_at(text, ':')?;
    route_of(network, digits)
}

/// The node that a text as `192.168.1.20:47809` or `192.168.1.20/5:2A` is: an address, and the way on from there where it is behind a router.
#[tactic(auto, using(crate::proofs::Addresses::peer_alone, crate::proofs::Addresses::peer_behind, crate::proofs::Addresses::no_peer_alone, crate::proofs::Addresses::no_peer_link, crate::proofs::Addresses::no_peer_way))]
pub(crate) fn read_peer(text: &str) -> Option<Peer>
    ensures { MatchOption result (IsNoPeer text.now) (λ p. IsPeer text.now (peer_view p)) }
{
    match parts_at(text, '/') {
        Some((address, way)) => {
            let link = read_link(address)?;
            let route = read_route(way)?;
            Some(Peer {
                link,
                route: Some(route),
            })
        }
        None => {
            let link = read_link(text)?;
            Some(Peer { link, route: None })
        }
    }
}

/// A number in an address that is out of its range, by its digits.
#[derive(Clone, Copy, Debug, PartialEq, Eq)]
pub enum OutOfRange<'a> {
    /// That of a UDP port, which is 1 to 65,535.
    Port(&'a str),
    /// That of a network, which is 1 to 65,534.
    Network(&'a str),
}

impl fmt::Display for OutOfRange<'_> {
    fn fmt<W: fmt::Write>(&self, f: &mut fmt::Formatter<W>) -> fmt::Result {
        match *self {
            OutOfRange::Port(digits) => write!(f, "port {digits} is not 1 to 65535"),
            OutOfRange::Network(digits) => write!(f, "network {digits} is not 1 to 65534"),
        }
    }
}

/// Whether a text is decimal digits, at least one.
fn are_digits(text: &str) -> bool {
    !text.is_empty() && text.as_bytes().iter().all(|octet| octet.is_ascii_digit())
}

/// The port of a text as `192.168.1.20:70000` that is none. None where the text has another form, or its port is one.
pub fn port_out_of_range(text: &str) -> Option<OutOfRange<'_>> {
    let (host, port) = parts_at(text, ':')?;
    if read_host(host).is_some() && are_digits(port) && read_port(port).is_none() {
        Some(OutOfRange::Port(port))
    } else {
        None
    }
}

/// Whether a text is the number of a network, 1 to 65,534.
fn is_network(text: &str) -> bool {
    matches!(read_short(text), Some(1..=65_534))
}

/// The number of a network in a text as `70000:2A` that is none. None where no number stands before a colon, or it is that of a network.
pub fn network_out_of_range(text: &str) -> Option<OutOfRange<'_>> {
    let (network, _) = parts_at(text, ':')?;
    if are_digits(network) && !is_network(network) {
        Some(OutOfRange::Network(network))
    } else {
        None
    }
}

/// The same of a text as `192.168.1.20:70000` or `192.168.1.20/70000:2A`, which is to name a node.
pub(crate) fn number_out_of_range(text: &str) -> Option<OutOfRange<'_>> {
    let Some((address, way)) = parts_at(text, '/') else {
        return port_out_of_range(text);
    };
    match port_out_of_range(address) {
        Some(port) => Some(port),
        None => network_out_of_range(way),
    }
}

/// The address of this machine from which a node at that one is asked: that of the loopback for a node there, otherwise each of them.
pub fn host_towards(link: LinkAddress) -> [u8; 4] {
    if link[0] == 127 {
        LOCAL_HOST
    } else {
        EVERY_HOST
    }
}
