//! The layers of a frame.

/// One end of a datagram.
#[derive(Clone, Copy, Debug)]
pub struct Endpoint<'a> {
    /// The address: 4 octets of IPv4, or 16 of IPv6.
    pub host: &'a [u8],
    /// The UDP port.
    pub port: u16,
}

/// A UDP datagram.
#[derive(Clone, Copy, Debug)]
pub struct Datagram<'a> {
    /// Who sent it.
    pub from: Endpoint<'a>,
    /// Whom it was sent to.
    pub to: Endpoint<'a>,
    /// Its octets.
    pub octets: &'a [u8],
}

/// The two versions of IP.
#[derive(Clone, Copy, PartialEq, Eq)]
pub(crate) enum Network {
    Ipv4,
    Ipv6,
}

/// Which part of an IP packet a frame contains.
#[derive(Clone, Copy, PartialEq, Eq)]
pub(crate) enum Part {
    Whole,
    /// The first fragment of several.
    First,
    /// Another fragment than the first.
    Later,
}

/// An IP packet that contains UDP.
#[derive(Clone, Copy)]
pub(crate) struct Packet<'a> {
    pub from: &'a [u8],
    pub to: &'a [u8],
    pub part: Part,
    /// What follows the headers of IP.
    pub contents: &'a [u8],
}
