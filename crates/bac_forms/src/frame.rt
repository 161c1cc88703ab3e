//! Datagrams in frames of Ethernet.
ghost use Rattle.std.specs.Prelude.{◌≡◌, None, IfOk, OnOk};
ghost use Rattle.std.specs.Io.KnownBytes.{Appends};
ghost use Rattle.bac_capture.specs.Frames.{datagram_at};
ghost use Rattle.bac_capture.specs.declared.link.LinkKind.TheVariants as link;
ghost use Rattle.bac_text.specs.DecodedLines.{IsDatagramText};
ghost use Rattle.bac_text.specs.Texts.{AppendsText};
ghost use Rattle.bac_forms.specs.Framed.{IsFrameText, fault_line, is_frame, none_line};

use bac_capture::{LinkKind, PacketFault, Ports, read_frame};
use bac_text::show_datagram;
use std::alloc::Global;
use std::io;
use std::io::Write;

/// The sixteen UDP ports of BACnet/IP.
const PORTS: Ports = Ports { also: None };

/// Whether octets are a frame of Ethernet with a datagram of BACnet/IP, from or to one of its sixteen UDP ports.
pub fn is_frame(octets: &[u8]) -> bool
    ensures { result ≡ is_frame octets.now }
{
    match read_frame(LinkKind::Ethernet, PORTS, octets) {
        Ok(Some(_)) => true,
        Ok(None) => false,
        Err(_) => false,
    }
}

/// Prints the layers of a datagram. Answers whether it has no fault.
#[tactic(auto, using(crate::proofs::Shown::datagram_told))]
pub(crate) fn show_layers<W: Write>(
    alloc: Global,
    in_words: bool,
    datagram: &[u8],
    out: &mut W,
) -> io::Result<bool>
    ensures { IfOk result (λ fine. AppendsText (W.contents out.old) (W.contents out.new) (IsDatagramText in_words fine datagram.now)) }
{
    show_datagram(alloc, in_words, datagram, out)
}

/// Prints that a frame has no datagram of BACnet/IP.
fn print_none<W: Write>(out: &mut W) -> io::Result<()>
    ensures { OnOk result (Appends (W.contents out.old) (W.contents out.new) none_line) }
{
    out.write_all(b"frame: no BACnet/IP datagram\n")
}

/// Prints why the datagram of a frame cannot be read.
fn print_fault<W: Write>(fault: PacketFault, out: &mut W) -> io::Result<()>
    ensures { OnOk result (Appends (W.contents out.old) (W.contents out.new) (fault_line fault)) }
{
    writeln!(out, "frame: {fault}")
}

/// Prints the layers of the datagram of BACnet/IP in a frame, or why there are none. Answers whether there is one and it has no fault.
pub(crate) fn show_frame<W: Write>(
    alloc: Global,
    in_words: bool,
    frame: &[u8],
    out: &mut W,
) -> io::Result<bool>
    ensures { IfOk result (λ fine. AppendsText (W.contents out.old) (W.contents out.new) (IsFrameText in_words fine (datagram_at link.Ethernet None frame.now))) }
{
    match read_frame(LinkKind::Ethernet, PORTS, frame) {
        Ok(Some(datagram)) => show_layers(alloc, in_words, datagram.octets, out),
        Ok(None) => {
            print_none(out)?;
            Ok(false)
        }
        Err(fault) => {
            print_fault(fault, out)?;
            Ok(false)
        }
    }
}
