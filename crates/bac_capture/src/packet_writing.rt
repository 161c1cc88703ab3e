//! Writing a datagram as a packet of IPv4 and UDP.
ghost use Rattle.std.specs.Prelude.{◌≡◌, ◌≤◌, length, IfOk};
ghost use Rattle.bac_capture.specs.PacketsWritten.{address_of, ipv4_head, packet, summed_head, udp_head};

use crate::sum::checksum;
use std::alloc::{AllocError, Global};

/// The address of a node: 10.0.0.N for node N, where N is taken modulo 2^24.
fn address_of(node: u64) -> [u8; 4]
    ensures { result ≡ address_of node }
{
    let [_, _, _, _, _, high, middle, low] = node.to_be_bytes();
    [10, high, middle, low]
}

fn ipv4_head(alloc: Global, sum: u16, total: u16, from: u64, to: u64) -> Result<Vec<u8>, AllocError>
    ensures { IfOk result (λ t. t.items ≡ ipv4_head sum total from to) }
{
    let mut head = Vec::from_slice(alloc, &[0x45, 0])?;
    head.extend_from_slice(&total.to_be_bytes())?;
    head.extend_from_slice(&[0, 0, 0x40, 0, 0x40, 0x11])?;
    head.extend_from_slice(&sum.to_be_bytes())?;
    head.extend_from_slice(&address_of(from))?;
    head.extend_from_slice(&address_of(to))?;
    Ok(head)
}

/// A header with its checksum.
fn summed_head(alloc: Global, total: u16, from: u64, to: u64) -> Result<Vec<u8>, AllocError>
    ensures { IfOk result (λ t. t.items ≡ summed_head total from to) }
{
    let unsummed = ipv4_head(alloc, 0, total, from, to)?;
    ipv4_head(alloc, checksum(&unsummed), total, from, to)
}

fn udp_head(alloc: Global, len: u16) -> Result<Vec<u8>, AllocError>
    ensures { IfOk result (λ t. t.items ≡ udp_head len) }
{
    let mut head = Vec::from_slice(alloc, &[0xBA, 0xC0, 0xBA, 0xC0])?;
    head.extend_from_slice(&len.to_be_bytes())?;
    head.extend_from_slice(&[0, 0])?;
    Ok(head)
}

/// The packet of a datagram between two nodes.
pub(crate) fn packet(
    alloc: Global,
    from: u64,
    to: u64,
    octets: &[u8],
) -> Result<Vec<u8>, AllocError>
    requires { length octets.now ≤ 65507 }
    ensures { IfOk result (λ t. t.items ≡ packet from to octets.now) }
{
    let len = octets.len() as u16;
    let mut packet = summed_head(alloc, len + 28, from, to)?;
    let udp = udp_head(alloc, len + 8)?;
    packet.extend_from_slice(&udp)?;
    packet.extend_from_slice(octets)?;
    Ok(packet)
}
