//! Writing pcap files, record by record.
ghost use Rattle.std.specs.Prelude.{◌≡◌, ◌≤◌, length, IfOk, OnOk};
ghost use Rattle.std.specs.Io.KnownBytes.{Appends};
ghost use Rattle.bac_capture.specs.Records.{file_head, record_head, record_octets};

use crate::packet_writing::packet;
use std::alloc::{AllocError, Global};
use std::io;
use std::io::{ErrorKind, Write};

/// The greatest length of a datagram in octets: 65,535 minus the headers of IPv4 and UDP.
const LONGEST: usize = 65_507;

/// The header: timestamps in microseconds, version 2.4, UTC, at most 65,535 octets of a packet, and raw IP packets (link type 101).
const FILE_HEAD: [u8; 24] = [
    0xA1, 0xB2, 0xC3, 0xD4, 0, 2, 0, 4, 0, 0, 0, 0, 0, 0, 0, 0, 0, 0, 0xFF, 0xFF, 0, 0, 0, 101,
];

/// A datagram that one node sent to another; node N has the address 10.0.0.N, and port 47808.
#[derive(Clone, Copy, Debug)]
pub struct NodeDatagram<'a> {
    /// When it was sent, in milliseconds.
    pub moment: u64,
    /// The node that sent it.
    pub from: u64,
    /// The node that it was sent to.
    pub to: u64,
    /// Its octets.
    pub octets: &'a [u8],
}

/// Writes the header of a file. Returns an `Err` if the output fails.
pub fn print_head<W: Write>(out: &mut W) -> io::Result<()>
    ensures { OnOk result (Appends (W.contents out.old) (W.contents out.new) file_head) }
{
    out.write_all(&FILE_HEAD)
}

fn record_head(alloc: Global, moment: u64, len: u32) -> Result<Vec<u8>, AllocError>
    ensures { IfOk result (λ t. t.items ≡ record_head moment len) }
{
    let seconds = (moment / 1_000 % 4_294_967_296) as u32;
    let microseconds = (moment % 1_000 * 1_000) as u32;
    let mut head = Vec::from_slice(alloc, &seconds.to_be_bytes())?;
    head.extend_from_slice(&microseconds.to_be_bytes())?;
    head.extend_from_slice(&len.to_be_bytes())?;
    head.extend_from_slice(&len.to_be_bytes())?;
    Ok(head)
}

fn record_octets(alloc: Global, datagram: NodeDatagram<'_>) -> Result<Vec<u8>, AllocError>
    requires { length datagram.octets.now ≤ 65507 }
    ensures { IfOk result (λ t. t.items ≡ record_octets datagram.entry.moment datagram.entry.from datagram.entry.to datagram.entry.octets.now) }
{
    let len = datagram.octets.len() as u32 + 28;
    let packet = packet(alloc, datagram.from, datagram.to, datagram.octets)?;
    let mut record = record_head(alloc, datagram.moment, len)?;
    record.extend_from_slice(&packet)?;
    Ok(record)
}

/// Writes the record of a datagram, in a packet of IPv4 and UDP. Returns an `Err` if an allocation fails, with the kind `OutOfMemory`, or if the
/// output fails; also `InvalidInput`, without writing anything, if the datagram has more than 65,507 octets.
pub fn print_record<W: Write>(
    alloc: Global,
    datagram: NodeDatagram<'_>,
    out: &mut W,
) -> io::Result<()>
    ensures { OnOk result (Appends (W.contents out.old) (W.contents out.new)
        (record_octets datagram.entry.moment datagram.entry.from datagram.entry.to datagram.entry.octets.now)) }
{
    if datagram.octets.len() > LONGEST {
        return Err(io::Error::from(ErrorKind::InvalidInput));
    }
    let record = record_octets(alloc, datagram)?;
    out.write_all(&record)
}
