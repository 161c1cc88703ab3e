//! How the end of an ask is printed.
ghost use Rattle.std.specs.Prelude.{◌≡◌, ◌++◌, IfOk, OnOk};
ghost use Rattle.std.specs.Io.KnownBytes.{Appends};
ghost use Rattle.bac_service.specs.Views.{owned_request_view};
ghost use Rattle.bac_text.specs.Texts.{line_end};
ghost use Rattle.bac_commands.specs.Reports.{end_line};
ghost use Rattle.bac_commands.specs.AskEnds.{PrintsEnd, PrintsNumbers, PrintsWords};
ghost use Rattle.bac_commands.specs.FaultWords.{refused_words};
ghost use Rattle.bac_commands.specs.Words.{AreEndWords};

use super::file_octets::print_file_octets;
use super::output_format::{OutputFormat, Style};
use super::success::is_success;
use crate::facts::{print_ending_line, print_refused, ticket_words};
use crate::fault_words::ask_fault_words;
use bac_driver::AskEnd;
use bac_requester::AskFault;
use bac_service::OwnedRequest;
use bac_service_text::property_read;
use bac_value::NoMemory;
use std::alloc::Global;
use std::io;
use std::io::{ErrorKind, Write};

/// Prints how asking ended.
pub(crate) fn print_end<W: Write>(alloc: Global, end: &AskEnd, out: &mut W) -> io::Result<()>
    ensures { OnOk result (Appends (W.contents out.old) (W.contents out.new) (end_line end.now)) }
{
    match end {
        AskEnd::Ended(ending) => print_ending_line(alloc, ending, out),
        AskEnd::Refused(fault) => print_refused(fault.number(), out),
        AskEnd::NoEnding => out.write_all(b"no ending\n"),
    }
}

fn print_numbers<W: Write>(
    alloc: Global,
    strict: bool,
    request: &OwnedRequest,
    end: &AskEnd,
    out: &mut W,
) -> io::Result<bool>
    ensures { IfOk result (λ succeeded. PrintsNumbers strict (owned_request_view request.now) end.now succeeded (W.contents out.old) (W.contents out.new)) }
{
    print_end(alloc, end, out)?;
    out.flush()?;
    Ok(is_success(strict, request, end))
}

fn refused_words(alloc: Global, fault: AskFault) -> Result<Vec<u8>, NoMemory>
    ensures { IfOk result (λ t. t.items ≡ refused_words fault) }
{
    let number = fault.number();
    let why = ask_fault_words(fault);
    let words = format!(in alloc; "refused {number}: {why}")?;
    Ok(words.into_bytes())
}

/// How the ask of a request ended, in words.
fn end_words(alloc: Global, request: &OwnedRequest, end: &AskEnd) -> Result<Vec<u8>, NoMemory>
    ensures { IfOk result (λ t. AreEndWords (owned_request_view request.now) end.now t.items) }
{
    match end {
        AskEnd::Ended(ending) => ticket_words(alloc, property_read(request.as_request()), ending),
        AskEnd::Refused(fault) => refused_words(alloc, *fault),
        AskEnd::NoEnding => Ok(Vec::from_slice(alloc, b"no ending")?),
    }
}

fn print_line<W: Write>(text: &[u8], out: &mut W) -> io::Result<()>
    ensures { OnOk result (Appends (W.contents out.old) (W.contents out.new) (text.now ++ line_end)) }
{
    out.write_all(text)?;
    out.write_all(b"\n")
}

fn print_words<W: Write>(
    alloc: Global,
    strict: bool,
    request: &OwnedRequest,
    end: &AskEnd,
    out: &mut W,
) -> io::Result<bool>
    ensures { IfOk result (λ succeeded. PrintsWords strict (owned_request_view request.now) end.now succeeded (W.contents out.old) (W.contents out.new)) }
{
    let Ok(words) = end_words(alloc, request, end) else {
        return Err(io::Error::from(ErrorKind::OutOfMemory));
    };
    print_line(words.as_slice(), out)?;
    out.flush()?;
    Ok(is_success(strict, request, end))
}

/// Prints in that format how the ask of a request ended, and flushes what was written. Answers whether the ask succeeded. It did if it was answered,
/// and where that is strict, by no Error and by no reply that names another object, property or index. Of octets it did if there are any; where there
/// are none, `err` says how it ended.
pub fn print_ask_end<O: Write, E: Write>(
    alloc: Global,
    output_format: OutputFormat,
    request: &OwnedRequest,
    end: &AskEnd,
    out: &mut O,
    err: &mut E,
) -> io::Result<bool>
    ensures { IfOk result (λ succeeded. PrintsEnd output_format (owned_request_view request.now) end.now succeeded (O.contents out.old) (O.contents out.new)) }
{
    match output_format.style {
        Style::Numbers => print_numbers(alloc, output_format.strict, request, end, out),
        Style::Words => print_words(alloc, output_format.strict, request, end, out),
        Style::Octets => print_file_octets(alloc, end, out, err),
    }
}
