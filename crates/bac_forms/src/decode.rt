//! The layers of the datagrams of a text in any form.
ghost use Rattle.std.specs.Prelude.{◌≡◌, IfOk, OnOk};
ghost use Rattle.std.specs.Io.KnownBytes.{Appends};
ghost use Rattle.bac_text.specs.Texts.{AppendsText};
ghost use Rattle.bac_forms.specs.Decoded.{AreAllShown, AreDatagramTexts, IsNumberedText, IsFormDecoded, IsRefusal, number_line};
ghost use Rattle.bac_forms.specs.Framed.{IsItemText};
ghost use Rattle.bac_forms.specs.Reading.{octets_of};

use crate::fault::FormFault;
use crate::form::Form;
use crate::frame::{is_frame, show_frame, show_layers};
use crate::place::Position;
use crate::reading::read_datagrams;
use bac_text::{Status, no_memory, output_failed, shown_status};
use std::alloc::Global;
use std::io;
use std::io::Write;

/// How datagrams are printed.
#[derive(Clone, Copy, Debug)]
pub struct Printing {
    /// With names, and values by their kinds.
    pub in_words: bool,
    /// Each behind a line with its number.
    pub numbered: bool,
    /// Each is the datagram of BACnet/IP in a frame of Ethernet.
    pub frames: bool,
}

/// Prints a datagram, or that of a frame. Answers whether it has no fault.
fn show_item<W: Write>(
    alloc: Global,
    printing: Printing,
    octets: &[u8],
    out: &mut W,
) -> io::Result<bool>
    ensures { IfOk result (λ fine. AppendsText (W.contents out.old) (W.contents out.new) (IsItemText printing.frames printing.in_words octets.now fine)) }
{
    if printing.frames {
        show_frame(alloc, printing.in_words, octets, out)
    } else {
        show_layers(alloc, printing.in_words, octets, out)
    }
}

/// Prints the number of a datagram, where it is wanted.
fn print_number<W: Write>(numbered: bool, number: u64, out: &mut W) -> io::Result<()>
    ensures { OnOk result (Appends (W.contents out.old) (W.contents out.new) (number_line numbered number)) }
{
    if !numbered {
        return Ok(());
    }
    writeln!(out, "datagram {number}")
}

/// Prints a datagram, and its number where it is wanted. Answers whether it has no fault.
fn show_numbered<W: Write>(
    alloc: Global,
    printing: Printing,
    number: u64,
    datagram: &[u8],
    out: &mut W,
) -> io::Result<bool>
    ensures { IfOk result (λ fine. AppendsText (W.contents out.old) (W.contents out.new) (IsNumberedText printing number datagram.now fine)) }
{
    print_number(printing.numbered, number, out)?;
    show_item(alloc, printing, datagram, out)
}

/// Prints datagrams in order. Answers whether none of them has a fault.
fn show_all<W: Write>(
    alloc: Global,
    printing: Printing,
    datagrams: &[Vec<u8>],
    out: &mut W,
) -> io::Result<bool>
    ensures { IfOk result (λ fine. AppendsText (W.contents out.old) (W.contents out.new) (AreDatagramTexts printing 1 (octets_of datagrams.now) fine)) }
{
    let mut fine = true;
    let mut number: u64 = 1;
    let mut rest = datagrams;
    while let Some((datagram, others)) = rest.split_first() {
        let here = show_numbered(alloc, printing, number, datagram, out)?;
        fine = fine && here;
        number += 1;
        rest = others;
    }
    Ok(fine)
}

fn print_all<W: Write>(
    alloc: Global,
    printing: Printing,
    datagrams: &[Vec<u8>],
    out: &mut W,
) -> io::Result<Status>
    ensures { IfOk result (AreAllShown printing (octets_of datagrams.now) (W.contents out.old) (W.contents out.new)) }
{
    let fine = show_all(alloc, printing, datagrams, out)?;
    out.flush()?;
    Ok(shown_status(fine))
}

/// Tells the character that does not fit a form, or that the text ends too early, and the place.
fn print_misfit<E: Write>(
    form: Form,
    position: Position,
    found: Option<u8>,
    err: &mut E,
) -> io::Result<()> {
    let name = form.name();
    let (line, column) = (position.line, position.column);
    write!(err, "bad {name}\nline {line}, column {column}: ")?;
    match found {
        Some(octet) if octet.is_ascii_graphic() => {
            let character = char::from(octet);
            writeln!(err, "unexpected '{character}'")
        }
        Some(b' ') => err.writeln("unexpected blank"),
        Some(b'\t') => err.writeln("unexpected tab"),
        Some(b'\r' | b'\n') => err.writeln("the line ends too early"),
        Some(octet) => writeln!(err, "unexpected octet {octet:02X}"),
        None => err.writeln("the text ends too early"),
    }
}

/// Tells why a text is not read.
fn refuse<E: Write>(form: Form, fault: FormFault, err: &mut E) -> Status
    ensures { IsRefusal fault result }
{
    match fault {
        FormFault::Misfit { position, found } => {
            // if that fails too, only the status is left
            let _ = print_misfit(form, position, found, err);
            Status::CommandLine
        }
        FormFault::NoMemory => no_memory(err),
    }
}

/// Tells that a text has no datagram, unless it has only blanks.
fn tell_none<E: Write>(text: &[u8], datagrams: &[Vec<u8>], err: &mut E) {
    if datagrams.is_empty() && !text.iter().all(|octet| octet.is_ascii_whitespace()) {
        // if that fails too, only the status is left
        let _ = err.writeln("no datagram");
    }
}

/// What is told of frames that were read as datagrams.
pub const FRAME_ADVICE: &str = "these are whole Ethernet frames: --frame reads them";

/// Tells how frames are read, where one was read as a datagram.
fn tell_frames<E: Write>(printing: Printing, datagrams: &[Vec<u8>], err: &mut E) {
    if !printing.frames && datagrams.iter().any(|datagram| is_frame(datagram)) {
        // if that fails too, only the status is left
        let _ = err.writeln(FRAME_ADVICE);
    }
}

/// Prints the layers of the datagrams of a text in that form, as `bac_text::decode_text_over` does of each; each behind a line `datagram N`, from 1 on, where they
/// are numbered. With `frames` each is the datagram in a frame of Ethernet, from or to a UDP port of BACnet/IP; of another frame a line `frame: ` says why it has
/// none, which counts as a fault.
///
/// Ends with `Faulty` where one has a fault. Where a character of the text does not fit the form nothing is printed but `bad escaped`, with the form's name, and the
/// line, the column and the character on `err`; where it has no datagram, and more than blanks, `no datagram` on `err`; where a datagram
/// is a whole frame, and none was wanted, [`FRAME_ADVICE`]. Out of memory: `no memory` on `err`. `Output` where `out` cannot be written.
pub fn decode_form_over<O: Write, E: Write>(
    alloc: Global,
    form: Form,
    printing: Printing,
    text: &[u8],
    out: &mut O,
    err: &mut E,
) -> Status
    ensures { IsFormDecoded form printing text.now (O.contents out.old) (O.contents out.new) result }
{
    let datagrams = match read_datagrams(alloc, form, text) {
        Ok(datagrams) => datagrams,
        Err(fault) => return refuse(form, fault, err),
    };
    tell_none(text, &datagrams, err);
    tell_frames(printing, &datagrams, err);
    match print_all(alloc, printing, &datagrams, out) {
        Ok(status) => status,
        Err(error) => {
            // what was printed before it goes out as far as it can
            let _ = out.flush();
            output_failed(err, &error)
        }
    }
}
