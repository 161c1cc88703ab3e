//! The formats of capture files, by their first octets.
ghost use Rattle.std.specs.Prelude.{◌≡◌};
ghost use Rattle.bac_capture.specs.Forms.{signature_of};

use crate::order::Order;

/// The format of a capture file.
#[derive(Clone, Copy, Debug, PartialEq, Eq)]
pub enum FileFormat {
    /// pcap: a header, then a record for each frame.
    Records,
    /// pcapng: blocks, some of which contain frames.
    Blocks,
}

/// What the first four octets of a capture file define.
#[derive(Clone, Copy, Debug, PartialEq, Eq)]
pub struct FileSignature {
    pub format: FileFormat,
    /// The byte order of the file; in pcapng, where each section has its own, that of the first section.
    pub order: Order,
}

/// The signature of a file that begins with these octets; None unless they are the first four octets of a file of pcap or pcapng.
pub fn signature_of(front: &[u8]) -> Option<FileSignature>
    ensures { result ≡ signature_of front.now }
{
    let (format, order) = match front {
        [0xA1, 0xB2, 0xC3, 0xD4] | [0xA1, 0xB2, 0x3C, 0x4D] => (FileFormat::Records, Order::Big),
        [0xD4, 0xC3, 0xB2, 0xA1] | [0x4D, 0x3C, 0xB2, 0xA1] => {
            (FileFormat::Records, Order::Little)
        }
        [0x0A, 0x0D, 0x0D, 0x0A] => (FileFormat::Blocks, Order::Big),
        _ => return None,
    };
    Some(FileSignature { format, order })
}
