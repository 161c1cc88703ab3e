//! `bac decode`: the layers of a datagram.
ghost use Rattle.std.specs.Prelude.{◌≡◌, length, IfOk, OnOk};
ghost use Rattle.std.specs.Option.{option_map};
ghost use Rattle.bac_apdu.specs.Views.{apdu_view};
ghost use Rattle.bac_apdu.specs.Spelling.{SpellsApdu};
ghost use Rattle.bac_npdu.specs.Npdu.{SpellsNpdu};
ghost use Rattle.bac_npdu.specs.Views.{message_view, npdu_view};
ghost use Rattle.bac_text.specs.Decoded.{IsLayer, AreRequestLines, AreComplexLines, AreApduLines, AreApduLinesAs, AreContentLines, AreNpduLines, AreLayerLines};
ghost use Rattle.bac_text.specs.Layers.{request_data_in, complex_data_in};
ghost use Rattle.bac_text.specs.Outcome.{IsPrinted, IsShown, IsDecoded, IsDecodedAs, shown_status};
ghost use Rattle.bac_text.specs.Texts.{AppendsText};

use crate::apdu_line::print_apdu;
use crate::carried::print_other;
use crate::fault_words::print_fault;
use crate::frame_lines::{print_bvll, print_npdu};
use crate::groups::octets_in;
use crate::layers::{check_datagram, complex_in, request_in};
use crate::name_lines::{print_message, print_service};
use crate::status::{Status, complain, no_memory, output_failed};
use bac_apdu::Apdu;
use bac_npdu::{Message, Npdu, read_bvll, read_npdu};
use bac_service_text::{print_complex, print_request};
use std::alloc::Global;
use std::io;
use std::io::Write;

/// Prints the line of the request that an APDU carries whole, if its service data spell one.
fn print_request_in<W: Write>(
    alloc: Global,
    in_words: bool,
    apdu: Apdu<'_>,
    out: &mut W,
) -> io::Result<()>
    ensures { OnOk result (AppendsText (W.contents out.old) (W.contents out.new) (AreRequestLines in_words (request_data_in (apdu_view apdu.entry)))) }
{
    let Ok(request) = request_in(apdu) else {
        return Ok(());
    };
    match request {
        Some(request) => print_request(alloc, in_words, request, out),
        None => Ok(()),
    }
}

/// Prints the line of the service data that a ComplexACK carries whole, if they spell some.
fn print_complex_in<W: Write>(
    alloc: Global,
    in_words: bool,
    apdu: Apdu<'_>,
    out: &mut W,
) -> io::Result<()>
    ensures { OnOk result (AppendsText (W.contents out.old) (W.contents out.new) (AreComplexLines in_words (complex_data_in (apdu_view apdu.entry)))) }
{
    let Ok(complex) = complex_in(apdu) else {
        return Ok(());
    };
    match complex {
        Some(complex) => print_complex(alloc, in_words, complex, out),
        None => Ok(()),
    }
}

/// Prints the line of an APDU, and that of the service data that it carries whole; in words the name of another service.
fn print_apdu_lines<W: Write>(
    alloc: Global,
    in_words: bool,
    apdu: Apdu<'_>,
    out: &mut W,
) -> io::Result<()>
    ensures { OnOk result (AppendsText (W.contents out.old) (W.contents out.new) (AreApduLinesAs in_words (apdu_view apdu.entry))) }
{
    print_apdu(alloc, in_words, apdu, out)?;
    print_request_in(alloc, in_words, apdu, out)?;
    print_complex_in(alloc, in_words, apdu, out)?;
    print_service(in_words, apdu, out)
}

fn print_apdu_layer<W: Write>(
    alloc: Global,
    in_words: bool,
    octets: &[u8],
    out: &mut W,
) -> io::Result<()>
    ensures { OnOk result (AppendsText (W.contents out.old) (W.contents out.new) (IsLayer SpellsApdu (AreApduLinesAs in_words) octets.now)) }
{
    match bac_apdu::read(octets) {
        Ok(apdu) => print_apdu_lines(alloc, in_words, apdu, out),
        Err(_) => Ok(()),
    }
}

/// Prints the lines of an APDU as `decode` does: its kind and members, and those of the service data that it carries whole. Octets
/// that are none print nothing. An Err is the writer's, or out of memory.
pub fn print_apdu_octets<W: Write>(alloc: Global, octets: &[u8], out: &mut W) -> io::Result<()>
    ensures { OnOk result (AppendsText (W.contents out.old) (W.contents out.new) (IsLayer SpellsApdu AreApduLines octets.now)) }
{
    print_apdu_layer(alloc, false, octets, out)
}

/// Prints the lines of what an NPDU carries: an APDU, or in words the name of a message, whose octets stand in the NPDU's line.
fn print_contents<W: Write>(
    alloc: Global,
    in_words: bool,
    message: Option<Message>,
    contents: &[u8],
    out: &mut W,
) -> io::Result<()>
    ensures { OnOk result (AppendsText (W.contents out.old) (W.contents out.new)
        (AreContentLines in_words (option_map message_view message) contents.now)) }
{
    match message {
        Some(message) => print_message(in_words, message, out),
        None => print_apdu_layer(alloc, in_words, contents, out),
    }
}

/// Prints the lines of an NPDU and of what it carries.
fn print_npdu_layer<W: Write>(
    alloc: Global,
    in_words: bool,
    npdu: Npdu<'_>,
    out: &mut W,
) -> io::Result<()>
    ensures { OnOk result (AppendsText (W.contents out.old) (W.contents out.new) (AreNpduLines in_words (npdu_view npdu.entry))) }
{
    print_npdu(alloc, npdu, out)?;
    print_contents(alloc, in_words, npdu.message, npdu.contents, out)
}

/// Prints the lines of an NPDU and of what it carries, if the octets are one.
pub(crate) fn print_npdu_lines<W: Write>(
    alloc: Global,
    in_words: bool,
    octets: &[u8],
    out: &mut W,
) -> io::Result<()>
    ensures { OnOk result (AppendsText (W.contents out.old) (W.contents out.new) (IsLayer SpellsNpdu (AreNpduLines in_words) octets.now)) }
{
    match read_npdu(octets) {
        Ok(npdu) => print_npdu_layer(alloc, in_words, npdu, out),
        Err(_) => Ok(()),
    }
}

/// Prints the layers of a datagram that can be read, one a line.
fn print_layers<W: Write>(
    alloc: Global,
    in_words: bool,
    datagram: &[u8],
    out: &mut W,
) -> io::Result<()>
    ensures { OnOk result (AppendsText (W.contents out.old) (W.contents out.new) (AreLayerLines in_words datagram.now)) }
{
    let Ok(npdu) = read_bvll(datagram) else {
        return Ok(());
    };
    print_bvll(datagram.len(), out)?;
    print_npdu_lines(alloc, in_words, npdu, out)
}

/// Prints the layers of a datagram from the outside in, one a line, up to the first that has a fault, and that fault. In words the name of another
/// function comes too, and what it carries. Answers whether it has none.
pub fn show_datagram<W: Write>(
    alloc: Global,
    in_words: bool,
    datagram: &[u8],
    out: &mut W,
) -> io::Result<bool>
    ensures { IfOk result (λ fine. IsPrinted in_words fine datagram.now (W.contents out.old) (W.contents out.new)) }
{
    print_layers(alloc, in_words, datagram, out)?;
    match check_datagram(datagram) {
        Ok(()) => Ok(true),
        Err(fault) => {
            print_fault(alloc, in_words, datagram, fault, out)?;
            print_other(alloc, in_words, datagram, out)?;
            Ok(false)
        }
    }
}

/// The status of a command that printed datagrams: `Faulty` where one has a fault.
pub fn shown_status(fine: bool) -> Status
    ensures { result ≡ shown_status fine }
{
    if fine { Status::Done } else { Status::Faulty }
}

fn decode_datagram<W: Write>(
    alloc: Global,
    in_words: bool,
    datagram: &[u8],
    out: &mut W,
) -> io::Result<Status>
    ensures { IfOk result (IsShown in_words datagram.now (W.contents out.old) (W.contents out.new)) }
{
    let fine = show_datagram(alloc, in_words, datagram, out)?;
    out.flush()?;
    Ok(shown_status(fine))
}

/// Prints the layers of a datagram given in hexadecimal, one a line, up to the first that has a fault. In words are objects, properties, values, an
/// Error, and the reasons of a Reject, an Abort and a fault. A line more then names a service that no other line says, a message of the network
/// layer, or the function of another BVLL over IPv4. The layers of an NPDU that such a BVLL carries follow it.
///
/// The digits may stand in groups of whole octets with spaces, tabs or colons between them, and `0x` before a group. A layer with a fault prints
/// `fault bvll 5`, with the layer and the fault's number, and ends with `Faulty`. Text that is not hexadecimal: `bad hex` on `err`. Out of memory: `no
/// memory` on `err`. `Output` where `out` cannot be written.
pub fn decode_text_over<O: Write, E: Write>(
    alloc: Global,
    in_words: bool,
    text: &str,
    out: &mut O,
    err: &mut E,
) -> Status
    ensures { IsDecodedAs in_words text.now (O.contents out.old) (O.contents out.new) result }
{
    let datagram = match octets_in(alloc, text.as_bytes()) {
        Ok(Some(datagram)) => datagram,
        Ok(None) => return complain(err, "bad hex", Status::CommandLine),
        Err(_) => return no_memory(err),
    };
    match decode_datagram(alloc, in_words, &datagram, out) {
        Ok(status) => status,
        Err(error) => {
            // what was printed before it goes out as far as it can
            let _ = out.flush();
            output_failed(err, &error)
        }
    }
}

/// Prints the layers of a datagram as [`decode_text_over`] does, by numbers and in hexadecimal.
pub fn decode_over<O: Write, E: Write>(
    alloc: Global,
    text: &str,
    out: &mut O,
    err: &mut E,
) -> Status
    ensures { IsDecoded text.now (O.contents out.old) (O.contents out.new) result }
{
    decode_text_over(alloc, false, text, out, err)
}
