//! Datagrams that `decode` prints. The text `-` stands for standard input.
ghost use Rattle.std.specs.Prelude.{◌≡◌};
ghost use Rattle.std.specs.Io.Buffered.{reader_remaining};
ghost use Rattle.std.specs.Io.KnownBytes.{Keeps};
ghost use Rattle.bac_environment.specs.Files.{OnFile};
ghost use Rattle.bac_reading.specs.Decodings.{AreLayered, AreLayeredIn, AreRead, IsDecodedFrom, IsLayered, IsLayeredFrom, copied_as};

use crate::captures::begins_capture;
use crate::copied::{
    Copied, FormChoice, decode_copied, decode_octets, print_file_meant, print_form,
};
use crate::files::digits_of;
use crate::reasons::{print_bad_digits, print_frames, print_unfit};
use crate::watched::Watched;
use bac_environment::{Digits, OpenFiles, print_bad_digit};
use bac_forms::{Form, Printing, evident};
use bac_json_report::{decode_json_lines_over, decode_json_over};
use bac_text::{Status, decode_lines_over, decode_text_over};
use std::alloc::Global;
use std::io::{BufRead, BufReader, Read, Write};

/// The argument that stands for standard input.
pub const STANDARD_INPUT: &str = "-";

/// How the layers of datagrams are printed.
#[derive(Clone, Copy, PartialEq, Eq)]
pub enum LayerForm {
    /// Lines; faults by number.
    Numbers,
    /// Lines in words.
    Words,
    /// An object of JSON for each datagram.
    Objects,
}

/// How datagrams are read and printed.
#[derive(Clone, Copy)]
pub enum Decoding {
    /// Hexadecimal, a datagram on each line.
    Lines(LayerForm),
    /// In another form, with their numbers, or in frames.
    Copied(Copied),
}

impl LayerForm {
    /// The same of datagrams that are copied in a form.
    fn copied(self, form: Form) -> Copied
        ensures { result ≡ copied_as form self }
    {
        Copied {
            form: FormChoice::Named(form),
            printing: Printing {
                in_words: self == LayerForm::Words,
                numbered: false,
                frames: false,
            },
        }
    }

    /// What follows a line that is no hexadecimal: lines may be read in other forms too.
    fn hint(self) -> &'static str {
        match self {
            LayerForm::Numbers | LayerForm::Words => "; --form reads hex dumps and other forms",
            LayerForm::Objects => "",
        }
    }

    /// Prints the layers of the datagrams of an input, one on each line.
    fn decode_lines<R: BufRead, O: Write, E: Write>(
        self,
        alloc: Global,
        input: &mut R,
        out: &mut O,
        err: &mut E,
    ) -> Status
        ensures { AreLayered self (R.remaining input.old) (O.contents out.old) (O.contents out.new) result }
    {
        match self {
            LayerForm::Numbers => decode_lines_over(alloc, false, input, out, err),
            LayerForm::Words => decode_lines_over(alloc, true, input, out, err),
            LayerForm::Objects => decode_json_lines_over(alloc, input, out, err),
        }
    }

    /// Prints the layers of a datagram.
    fn decode_text<O: Write, E: Write>(
        self,
        alloc: Global,
        datagram: &str,
        out: &mut O,
        err: &mut E,
    ) -> Status
        ensures { IsLayered self datagram.now (O.contents out.old) (O.contents out.new) result }
    {
        match self {
            LayerForm::Numbers => decode_text_over(alloc, false, datagram, out, err),
            LayerForm::Words => decode_text_over(alloc, true, datagram, out, err),
            LayerForm::Objects => decode_json_over(alloc, datagram, out, err),
        }
    }
}

/// The layers of the datagrams on the lines of an input. Lines that are no hexadecimal: the first of them on `err`, and why.
fn decode_digits<F: Read + Drop, O: Write, E: Write>(
    alloc: Global,
    form: LayerForm,
    path: &str,
    input: &mut BufReader<Watched<F>>,
    out: &mut O,
    err: &mut E,
) -> Status
    ensures { AreLayered form (reader_remaining (λ w. F.remaining w.file) input.old) (O.contents out.old) (O.contents out.new) result }
{
    let status = form.decode_lines(alloc, input, out, err);
    print_unfit(status, path, input.get_ref(), None, err);
    print_bad_digits(status, input.get_ref(), form.hint(), err);
    if form != LayerForm::Objects {
        print_frames(status, input.get_ref(), err);
    }
    status
}

/// The form of the datagrams of an input, as its next octets show: lines of digits, unless they have another form beyond doubt and are no capture. It takes none
/// of them.
fn form_of<R: BufRead>(layers: LayerForm, input: &mut R) -> Form
    ensures { Keeps (R.remaining input.old) (R.remaining input.new) }
{
    if layers == LayerForm::Objects {
        return Form::Hex;
    }
    match input.fill_buf() {
        Ok(octets) if begins_capture(octets) => Form::Hex,
        Ok(octets) => evident(octets),
        // who reads on meets the fault, or goes on after a signal
        Err(_) => Form::Hex,
    }
}

/// The layers of the datagrams of an input, in the form that it has.
fn decode_input<F: Read + Drop, O: Write, E: Write>(
    alloc: Global,
    layers: LayerForm,
    path: &str,
    input: BufReader<Watched<F>>,
    out: &mut O,
    err: &mut E,
) -> Status
    ensures { AreRead layers (reader_remaining (λ w. F.remaining w.file) input) (O.contents out.old) (O.contents out.new) result }
{
    let mut input = input;
    let form = form_of(layers, &mut input);
    if form == Form::Hex {
        return decode_digits(alloc, layers, path, &mut input, out, err);
    }
    print_form(form, err);
    decode_octets(alloc, layers.copied(form), path, input, out, err)
}

/// The layers of the datagrams in a file, one on each line, unless it has another form. A file that cannot be opened or read on: `cannot read` on `err`, and why.
fn decode_lines<F: OpenFiles, O: Write, E: Write>(
    alloc: Global,
    files: &F,
    form: LayerForm,
    path: &str,
    out: &mut O,
    err: &mut E,
) -> Status
    ensures { AreLayeredIn (OnFile F.is_file F.File.remaining) form path.now result (O.contents out.old) (O.contents out.new) }
{
    match digits_of(alloc, files, path, err) {
        Ok(input) => decode_input(alloc, form, path, input, out, err),
        Err(status) => status,
    }
}

/// The layers of a datagram. If it is `-`, standard input has one on each line.
fn decode_layers<F: OpenFiles, O: Write, E: Write>(
    alloc: Global,
    files: &F,
    form: LayerForm,
    datagram: &str,
    out: &mut O,
    err: &mut E,
) -> Status
    ensures { IsLayeredFrom (OnFile F.is_file F.File.remaining) form datagram.now result (O.contents out.old) (O.contents out.new) }
{
    if datagram == STANDARD_INPUT {
        decode_lines(alloc, files, form, datagram, out, err)
    } else {
        let status = form.decode_text(alloc, datagram, out, err);
        print_bad_digit(status, datagram, Digits::Grouped, err);
        print_file_meant(status, datagram, err);
        status
    }
}

/// Prints the layers of the datagrams in a text, or in standard input if the text is `-`.
pub fn decode<F: OpenFiles, O: Write, E: Write>(
    alloc: Global,
    files: &F,
    decoding: Decoding,
    datagrams: &str,
    out: &mut O,
    err: &mut E,
) -> Status
    ensures { IsDecodedFrom (OnFile F.is_file F.File.remaining) decoding datagrams.now result (O.contents out.old) (O.contents out.new) }
{
    match decoding {
        Decoding::Lines(form) => decode_layers(alloc, files, form, datagrams, out, err),
        Decoding::Copied(copied) => decode_copied(alloc, files, copied, datagrams, out, err),
    }
}
