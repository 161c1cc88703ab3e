//! What is wrong with the packet in a frame, or with a capture file.
ghost use Rattle.std.specs.Prelude.{Some};
ghost use Rattle.bac_capture.specs.Texts.{packet_fault_text, file_fault_text};

use std::error::Error;
use std::fmt;

/// Why the datagram in a frame cannot be read.
#[derive(Clone, Copy, Debug, PartialEq, Eq)]
pub enum PacketFault {
    /// The octets end before the datagram does.
    Truncated,
    /// The version of the IP header is not that of the link, or its length is not valid.
    IpHeader,
    /// The UDP length is less than the eight octets of the header.
    UdpLength,
    /// The frame has a fragment of an IP packet, whose datagram is spread over several frames.
    Fragment,
}

impl fmt::Display for PacketFault {
    ghost output = { λ x. Some (packet_fault_text x) };

    fn fmt<W: fmt::Write>(&self, f: &mut fmt::Formatter<W>) -> fmt::Result {
        match self {
            PacketFault::Truncated => write!(f, "truncated"),
            PacketFault::IpHeader => write!(f, "bad IP header"),
            PacketFault::UdpLength => write!(f, "bad UDP length"),
            PacketFault::Fragment => write!(f, "fragment"),
        }
    }
}

impl Error for PacketFault {}

/// Why a capture file cannot be read further.
#[derive(Clone, Copy, Debug, PartialEq, Eq)]
pub enum FileFault {
    /// The file ends within a record or a block.
    Cut,
    /// A section of pcapng without a valid byte order.
    ByteOrder,
    /// The length of a block is not a multiple of four, or is too small for its contents.
    BlockLength,
    /// A frame of an interface that its section does not describe.
    NoInterface,
    /// A section with more than 1,024 interfaces.
    TooManyInterfaces,
}

impl fmt::Display for FileFault {
    ghost output = { λ x. Some (file_fault_text x) };

    fn fmt<W: fmt::Write>(&self, f: &mut fmt::Formatter<W>) -> fmt::Result {
        match self {
            FileFault::Cut => write!(f, "file ends early"),
            FileFault::ByteOrder => write!(f, "bad byte order"),
            FileFault::BlockLength => write!(f, "bad block length"),
            FileFault::NoInterface => write!(f, "no such interface"),
            FileFault::TooManyInterfaces => write!(f, "too many interfaces"),
        }
    }
}

impl Error for FileFault {}
