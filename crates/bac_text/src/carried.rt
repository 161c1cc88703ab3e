//! What a BVLL with another function than Original-Unicast-NPDU is, and the NPDU that it carries: only in words.
ghost use Rattle.std.specs.Prelude.{◌≡◌, drop, IfOk, OnOk, string_bytes};
ghost use Rattle.std.specs.Io.KnownBytes.{Appends};
ghost use Rattle.bac_text.specs.Carried.{carried_at, function_line, is_forwarded, sender_text};
ghost use Rattle.bac_text.specs.Decoded.{AreFunctionLines, AreOtherLines, IsCarriedBy};
ghost use Rattle.bac_text.specs.Texts.{AppendsText};

use crate::bvlc::{BvlcFunction, OtherBvll};
use crate::decode::print_npdu_lines;
use crate::peers::link_text;
use std::alloc::{AllocError, Global};
use std::io;
use std::io::Write;

/// Where the NPDU stands in a BVLL with a function; None where the function carries none.
fn carried_at(function: BvlcFunction) -> Option<usize>
    ensures { result ≡ carried_at function }
{
    match function {
        // behind the four octets of each BVLL, and the six of the sender (clause J.2)
        BvlcFunction::ForwardedNpdu => Some(10),
        BvlcFunction::DistributeBroadcastToNetwork | BvlcFunction::OriginalBroadcastNpdu => Some(4),
        _ => None,
    }
}

fn is_forwarded(function: BvlcFunction) -> bool
    ensures { result ≡ is_forwarded function }
{
    matches!(function, BvlcFunction::ForwardedNpdu)
}

/// Who sent what a Forwarded-NPDU carries, as ` from=192.168.1.5:47808`; empty for others.
fn sender_text(alloc: Global, function: BvlcFunction, datagram: &[u8]) -> Result<String, AllocError>
    ensures { IfOk result (λ t. string_bytes t ≡ sender_text function datagram.now) }
{
    if !is_forwarded(function) || datagram.len() < 10 {
        return Ok(String::new(alloc));
    }
    let link = [
        datagram[4],
        datagram[5],
        datagram[6],
        datagram[7],
        datagram[8],
        datagram[9],
    ];
    let link = link_text(alloc, link)?;
    format!(in alloc; " from={link}")
}

/// Prints the name of a function, and who sent what it forwards.
fn print_function<W: Write>(
    alloc: Global,
    function: BvlcFunction,
    datagram: &[u8],
    out: &mut W,
) -> io::Result<()>
    ensures { OnOk result (Appends (W.contents out.old) (W.contents out.new) (function_line function datagram.now)) }
{
    let name = function.name();
    let sender = sender_text(alloc, function, datagram)?;
    writeln!(out, "function {name}{sender}")
}

/// What stands in a datagram from that place on.
fn rest_from(datagram: &[u8], place: usize) -> &[u8]
    ensures { result.now ≡ drop place datagram.now }
{
    &datagram[place.min(datagram.len())..]
}

/// Prints the function, and the layers of the NPDU that some octets are, if they are one.
fn print_carried<W: Write>(
    alloc: Global,
    function: BvlcFunction,
    datagram: &[u8],
    octets: &[u8],
    out: &mut W,
) -> io::Result<()>
    ensures { OnOk result (AppendsText (W.contents out.old) (W.contents out.new) (IsCarriedBy function datagram.now octets.now)) }
{
    print_function(alloc, function, datagram, out)?;
    print_npdu_lines(alloc, true, octets, out)
}

/// Prints what a BVLL with that function is, and what it carries.
fn print_function_lines<W: Write>(
    alloc: Global,
    function: BvlcFunction,
    datagram: &[u8],
    out: &mut W,
) -> io::Result<()>
    ensures { OnOk result (AppendsText (W.contents out.old) (W.contents out.new) (AreFunctionLines function datagram.now)) }
{
    match carried_at(function) {
        Some(place) => {
            let octets = rest_from(datagram, place);
            print_carried(alloc, function, datagram, octets, out)
        }
        None => print_function(alloc, function, datagram, out),
    }
}

/// Prints in words what another BVLL over IPv4 is: the name of its function, and the layers of the NPDU that it carries, if there is one.
pub(crate) fn print_other<W: Write>(
    alloc: Global,
    in_words: bool,
    datagram: &[u8],
    out: &mut W,
) -> io::Result<()>
    ensures { OnOk result (AppendsText (W.contents out.old) (W.contents out.new) (AreOtherLines in_words datagram.now)) }
{
    if !in_words {
        return Ok(());
    }
    match OtherBvll::of(datagram) {
        Some(OtherBvll::Ipv4(function)) => print_function_lines(alloc, function, datagram, out),
        Some(OtherBvll::Ipv6) | None => Ok(()),
    }
}
