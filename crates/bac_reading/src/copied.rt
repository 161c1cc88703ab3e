//! `decode` of datagrams in another form than a datagram on each line, with their numbers, or in frames.
ghost use Rattle.std.specs.Prelude.{◌≡◌};
ghost use Rattle.bac_reading.specs.Copied.{AreDecodedCopied, AreDecodedIn, AreDecodedOf, IsCopiedFile, form_in};
ghost use Rattle.bac_environment.specs.Files.{OnFile};

use crate::captures::{begins_capture, is_capture_name, tell_capture};
use crate::decoding::STANDARD_INPUT;
use bac_environment::{OpenFiles, octets_of, opened};
use bac_forms::{Form, Printing, decode_form_over, evident, guess};
use bac_text::Status;
use clap::ArgMatches;
use std::alloc::Global;
use std::io::{Read, Write};

/// How the form of a text is chosen.
#[derive(Clone, Copy)]
pub enum FormChoice {
    /// It is this one.
    Named(Form),
    /// It is the one that the text seems to have.
    Guessed,
    /// It is the one that the text has beyond doubt, or otherwise lines of digits.
    Evident,
}

impl FormChoice {
    /// The form of a text.
    fn form_in(self, text: &[u8]) -> Form
        ensures { result ≡ form_in self text.now }
    {
        match self {
            FormChoice::Named(form) => form,
            FormChoice::Guessed => guess(text),
            FormChoice::Evident => evident(text),
        }
    }
}

/// How `decode` reads and prints datagrams.
#[derive(Clone, Copy)]
pub struct Copied {
    /// Their form.
    pub form: FormChoice,
    /// What is printed of them.
    pub printing: Printing,
}

/// Whether the arguments of `decode` name a form, ask for numbers, or take frames.
pub(crate) fn is_copied(given: &ArgMatches<'_>) -> bool {
    given.get_flag("number") || given.get_flag("frame") || given.get_str("form").is_some()
}

/// How the form is chosen: as it is named, or without a name for standard input by what is evident. None where the text names none.
fn form_of(given: &ArgMatches<'_>) -> Option<FormChoice> {
    match given.get_str("form") {
        None if given.get_str("HEX") == Some(STANDARD_INPUT) => Some(FormChoice::Evident),
        None => Some(FormChoice::Named(Form::Hex)),
        Some("auto") => Some(FormChoice::Guessed),
        Some(name) => Some(FormChoice::Named(Form::named(name)?)),
    }
}

/// How the arguments of `decode` say that datagrams are read and printed. None if the form is invalid.
pub(crate) fn copied_of(given: &ArgMatches<'_>) -> Option<Copied> {
    let form = form_of(given)?;
    let printing = Printing {
        in_words: given.get_flag("text"),
        numbered: given.get_flag("number"),
        frames: given.get_flag("frame"),
    };
    Some(Copied { form, printing })
}

/// Tells the form in which a text is read, unless it is that of lines of digits.
pub(crate) fn print_form<E: Write>(form: Form, err: &mut E) {
    if form != Form::Hex {
        let name = form.name();
        // if that fails too, only the status is left
        let _ = writeln!(err, "read as --form {name}");
    }
}

/// Tells the form in which a text is read, where it was not named.
fn tell_form<E: Write>(choice: FormChoice, form: Form, err: &mut E) {
    if let FormChoice::Evident = choice {
        print_form(form, err);
    }
}

/// The layers of the datagrams of a text. Of one that is a capture `err` says how it is read.
fn decode_text<O: Write, E: Write>(
    alloc: Global,
    copied: Copied,
    text: &[u8],
    out: &mut O,
    err: &mut E,
) -> Status
    ensures { AreDecodedIn copied text.now (O.contents out.old) (O.contents out.new) result }
{
    let form = copied.form.form_in(text);
    tell_form(copied.form, form, err);
    if begins_capture(text) {
        tell_capture(err);
    }
    decode_form_over(alloc, form, copied.printing, text, out, err)
}

/// The layers of the datagrams of an input that is read to its end. One that cannot be: `cannot read` on `err`.
pub(crate) fn decode_octets<R: Read + Drop, O: Write, E: Write>(
    alloc: Global,
    copied: Copied,
    path: &str,
    input: R,
    out: &mut O,
    err: &mut E,
) -> Status
    ensures { AreDecodedOf copied (R.remaining input) (O.contents out.old) (O.contents out.new) result }
{
    match octets_of(alloc, path, input, err) {
        Ok(text) => decode_text(alloc, copied, &text, out, err),
        Err(status) => status,
    }
}

/// Where a text is refused that looks like the name of a file, tells how a file is read, or a capture.
pub(crate) fn print_file_meant<E: Write>(status: Status, text: &str, err: &mut E) {
    let is_name = text.contains('.') && !text.contains(' ');
    if status != Status::CommandLine || !is_name {
        return;
    }
    // if that fails too, only the status is left
    let _ = if is_capture_name(text) {
        writeln!(err, "did you mean: bac explain {text}")
    } else {
        writeln!(err, "did you mean: bac decode - < {text}")
    };
}

/// The layers of the datagrams of a file. One that cannot be opened or read: `cannot read` on `err`.
fn decode_file<F: OpenFiles, O: Write, E: Write>(
    alloc: Global,
    files: &F,
    copied: Copied,
    path: &str,
    out: &mut O,
    err: &mut E,
) -> Status
    ensures { IsCopiedFile (OnFile F.is_file F.File.remaining) copied path.now result (O.contents out.old) (O.contents out.new) }
{
    let file = match opened(files, path, err) {
        Ok(file) => file,
        Err(status) => return status,
    };
    decode_octets(alloc, copied, path, file, out, err)
}

/// Prints the layers of the datagrams in a text, or in standard input if the text is `-`.
pub(crate) fn decode_copied<F: OpenFiles, O: Write, E: Write>(
    alloc: Global,
    files: &F,
    copied: Copied,
    datagrams: &str,
    out: &mut O,
    err: &mut E,
) -> Status
    ensures { AreDecodedCopied (OnFile F.is_file F.File.remaining) copied datagrams.now result (O.contents out.old) (O.contents out.new) }
{
    if datagrams == STANDARD_INPUT {
        decode_file(alloc, files, copied, datagrams, out, err)
    } else {
        let status = decode_text(alloc, copied, datagrams.as_bytes(), out, err);
        print_file_meant(status, datagrams, err);
        status
    }
}
