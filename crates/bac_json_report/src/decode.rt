//! `bac decode --json`: a datagram as one object, or those of an input, one on each line.
ghost use Rattle.std.specs.Prelude.{◌≡◌, true, IfOk, OnOk};
ghost use Rattle.std.specs.Option.{option_map};
ghost use Rattle.bac_json_report.specs.Decoded.{AreDecoded, IsDecoded, IsLineText, IsShown};
ghost use Rattle.bac_text.specs.DecodedLines.{datagram_line_at};
ghost use Rattle.bac_text.specs.Groups.{octets_in};
ghost use Rattle.bac_text.specs.Notes.{read_of};
ghost use Rattle.bac_text.specs.Outcome.{shown_status};
ghost use Rattle.bac_text.specs.Texts.{AppendsText};

use crate::datagram::{show_bad_line, show_datagram};
use crate::line_report::{LineReport, report_lines_over};
use bac_text::{
    CheckError, LINE_LIMIT, Status, complain, no_memory, octets_in, output_failed, read_of,
};
use std::alloc::Global;
use std::io;
use std::io::{BufRead, ErrorKind, Write};

fn shown_status(fine: bool) -> Status
    ensures { result ≡ shown_status fine }
{
    if fine { Status::Done } else { Status::Faulty }
}

fn decode_datagram<W: Write>(alloc: Global, datagram: &[u8], out: &mut W) -> io::Result<Status>
    ensures { IfOk result (IsShown datagram.now (W.contents out.old) (W.contents out.new)) }
{
    let fine = show_datagram(alloc, 1, datagram, out)?;
    out.flush()?;
    Ok(shown_status(fine))
}

/// Prints a datagram given in hexadecimal as one object of JSON: its layers, and what is wrong with it.
///
/// The text, the statuses and the messages on `err` are those of `decode_text_over` of bac_text.
pub fn decode_json_over<O: Write, E: Write>(
    alloc: Global,
    text: &str,
    out: &mut O,
    err: &mut E,
) -> Status
    ensures { IsDecoded text.now (O.contents out.old) (O.contents out.new) result }
{
    let datagram = match octets_in(alloc, text.as_bytes()) {
        Ok(Some(datagram)) => datagram,
        Ok(None) => return complain(err, "bad hex", Status::CommandLine),
        Err(_) => return no_memory(err),
    };
    match decode_datagram(alloc, &datagram, out) {
        Ok(status) => status,
        Err(error) => {
            // what was printed before it goes out as far as it can
            let _ = out.flush();
            output_failed(err, &error)
        }
    }
}

/// Prints what is to be read of a line whose octets are not too many. Answers whether it has no fault.
#[tactic(auto, using(crate::proofs::Printed::bad_line))]
fn show_short<W: Write>(alloc: Global, number: u64, line: &[u8], out: &mut W) -> io::Result<bool>
    ensures { IfOk result (λ fine. AppendsText (W.contents out.old) (W.contents out.new)
        (IsLineText number (option_map octets_in (read_of true line.now)) fine)) }
{
    let Some(text) = read_of(true, line) else {
        return Ok(true);
    };
    let Ok(octets) = octets_in(alloc, text) else {
        return Err(io::Error::from(ErrorKind::OutOfMemory));
    };
    let Some(datagram) = octets else {
        show_bad_line(alloc, number, out)?;
        return Ok(false);
    };
    show_datagram(alloc, number, &datagram, out)
}

/// Prints the line with this number. Answers whether it has no fault.
#[tactic(auto, using(crate::proofs::Printed::bad_line))]
fn show_line<W: Write>(alloc: Global, number: u64, line: &[u8], out: &mut W) -> io::Result<bool>
    ensures { IfOk result (λ fine. AppendsText (W.contents out.old) (W.contents out.new) (IsLineText number (datagram_line_at line.now) fine)) }
{
    if line.len() > LINE_LIMIT {
        show_bad_line(alloc, number, out)?;
        return Ok(false);
    }
    show_short(alloc, number, line, out)
}

/// The lines that were printed so far.
#[derive(Drop)]
struct Decoding {
    alloc: Global,
    lines: u64,
    /// Whether none of them has a fault.
    fine: bool,
}

impl<W: Write> LineReport<W> for Decoding {
    ghost use Rattle.bac_json_report.specs.Decoded.{EndsLines, Progress, SeesLine, progress};

    ghost State = { Progress };

    ghost state = { progress };

    ghost Visits = { SeesLine };

    ghost Ends = { EndsLines };

    fn visit_line(&mut self, line: &[u8], out: &mut W) -> Result<(), CheckError> {
        let Some(number) = self.lines.checked_add(1) else {
            return Err(CheckError::Input(io::Error::from(ErrorKind::FileTooLarge)));
        };
        match show_line(self.alloc, number, line, out) {
            Ok(fine) => {
                self.lines = number;
                self.fine = self.fine && fine;
                Ok(())
            }
            Err(error) => Err(CheckError::Output(error)),
        }
    }

    fn end_lines(&mut self, out: &mut W) -> Result<Status, CheckError> {
        match out.flush() {
            Ok(()) => Ok(shown_status(self.fine)),
            Err(error) => Err(CheckError::Output(error)),
        }
    }
}

/// Prints the datagrams of an input, one on each line, as `decode_json_over` does each. A line that is not hexadecimal, or has more than 132,000
/// octets, has the fault `bad hex`.
///
/// Notes, the statuses and the messages on `err` are those of `decode_lines_over` of bac_text. Memory does not grow with the input.
pub fn decode_json_lines_over<R: BufRead, O: Write, E: Write>(
    alloc: Global,
    input: &mut R,
    out: &mut O,
    err: &mut E,
) -> Status
    ensures { AreDecoded (R.remaining input.old) (O.contents out.old) (O.contents out.new) result }
{
    let mut decoding = Decoding {
        alloc,
        lines: 0,
        fine: true,
    };
    report_lines_over(alloc, input, &mut decoding, out, err)
}
