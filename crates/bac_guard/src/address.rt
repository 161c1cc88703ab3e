//! The two parts of an address of a link, and which of them are no source.
ghost use Rattle.std.specs.Prelude.{◌≡◌, take};
ghost use Rattle.bac_guard.specs.Addresses.{host_of, port_of};
ghost use Rattle.bac_guard.specs.Sources.{is_barred, is_loopback};

use crate::block::first_bits;

/// The address of all hosts of a link.
const ALL_HOSTS: u32 = u32::MAX;

/// The first four bits of the address of a group of hosts.
const GROUP: u64 = 14;

/// The first eight bits of an address of the loopback.
const LOOPBACK: u64 = 127;

/// The IPv4 address of a link.
pub(crate) fn host_in(link: [u8; 6]) -> [u8; 4]
    ensures { result ≡ take 4 link }
{
    let [a, b, c, d, _, _] = link;
    [a, b, c, d]
}

/// The IPv4 address of a link as a number.
pub(crate) fn host_of(link: [u8; 6]) -> u32
    ensures { result ≡ host_of link }
{
    let [a, b, c, d, _, _] = link;
    u32::from_be_bytes([a, b, c, d])
}

/// The UDP port of a link.
pub(crate) fn port_of(link: [u8; 6]) -> u16
    ensures { result ≡ port_of link }
{
    let [_, _, _, _, high, low] = link;
    u16::from_be_bytes([high, low])
}

/// Whether no host sends from there: port 0, this network, a group of hosts, or all hosts of a link.
pub(crate) fn is_barred(host: u32, port: u16) -> bool
    ensures { result ≡ is_barred host port }
{
    port == 0 || first_bits(8, host) == 0 || first_bits(4, host) == GROUP || host == ALL_HOSTS
}

/// Whether a link has an address of the loopback.
pub(crate) fn is_loopback(link: [u8; 6]) -> bool
    ensures { result ≡ is_loopback (host_of link) }
{
    first_bits(8, host_of(link)) == LOOPBACK
}
