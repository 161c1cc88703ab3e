//! The result of checking a frame.
ghost use Rattle.std.specs.Prelude.{false, Some};
ghost use Rattle.bac_capture.specs.CheckTexts.{frame_fault_text};

use crate::{FileFault, OtherBvll, PacketFault};
use bac_text::LayerFault;
use std::fmt;

/// Why a frame is bad.
#[derive(Clone, Copy, PartialEq, Eq)]
pub enum CapturedFault {
    /// Its link layer is unknown.
    Link,
    /// The packet in it is not complete.
    Packet(PacketFault),
    /// Its datagram has this fault; its BVLL has this function, if it is there.
    Datagram {
        fault: LayerFault,
        function: Option<u8>,
    },
    /// The file cannot be read beyond it.
    File(FileFault),
}

impl fmt::Display for CapturedFault {
    ghost output = { λ x. Some (frame_fault_text false x) };

    fn fmt<W: fmt::Write>(&self, f: &mut fmt::Formatter<W>) -> fmt::Result {
        match self {
            CapturedFault::Link => write!(f, "unknown link layer"),
            CapturedFault::Packet(fault) => write!(f, "{fault}"),
            CapturedFault::Datagram { fault, .. } => write!(f, "{fault}"),
            CapturedFault::File(fault) => write!(f, "{fault}"),
        }
    }
}

/// The result of checking a frame.
#[derive(Clone, Copy, PartialEq, Eq)]
pub enum Verdict {
    /// It carries no datagram of BACnet/IP.
    Nothing,
    /// Its datagram has no fault.
    Good,
    /// Its datagram is a BVLL with another function, which is not checked.
    Other(OtherBvll),
    /// It has this fault.
    Bad(CapturedFault),
}
