//! Frames that cannot be read.
ghost use Rattle.std.specs.Prelude.{Some};
ghost use Rattle.bac_explain_report.specs.Unread.{unread_text};

use bac_capture::{FileFault, PacketFault};
use std::fmt;

/// Why a frame cannot be read.
#[derive(Clone, Copy, Debug, PartialEq, Eq)]
pub enum Unread {
    /// Its link layer is unknown.
    Link,
    /// The packet in it is not complete.
    Packet(PacketFault),
    /// It carries a datagram of a transaction, but has no timestamp.
    NoMoment,
    /// The file cannot be read further.
    File(FileFault),
}

impl fmt::Display for Unread {
    ghost output = { λ x. Some (unread_text x) };

    fn fmt<W: fmt::Write>(&self, f: &mut fmt::Formatter<W>) -> fmt::Result {
        match self {
            Unread::Link => write!(f, "unknown link layer"),
            Unread::Packet(fault) => write!(f, "{fault}"),
            Unread::NoMoment => write!(f, "no moment"),
            Unread::File(fault) => write!(f, "{fault}"),
        }
    }
}
