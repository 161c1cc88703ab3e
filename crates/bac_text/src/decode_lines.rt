//! `bac decode -`: the layers of the datagrams of an input, one on each line.
ghost use Rattle.std.specs.Prelude.{◌≡◌, ◌+◌, ◌-◌, ◌^◌, ◌<◌, true, IfOk, IfSome, OnOk};
ghost use Rattle.std.specs.Option.{option_map};
ghost use Rattle.std.specs.Io.KnownBytes.{Appends};
ghost use Rattle.bac_text.specs.DecodedLines.{AreDecoded, ArePrinted, IsLineText, IsLinePrinted, IsTaken, bad_line, datagram_line_at};
ghost use Rattle.bac_text.specs.Groups.{octets_in};
ghost use Rattle.bac_text.specs.Notes.{read_of};
ghost use Rattle.bac_text.specs.Texts.{AppendsText};

use crate::decode::{show_datagram, shown_status};
use crate::error::{CheckError, stopped};
use crate::groups::octets_in;
use crate::lines::{LINE_LIMIT, next_line};
use crate::notes::read_of;
use crate::status::Status;
use std::alloc::Global;
use std::io;
use std::io::{BufRead, ErrorKind, Write};

/// The lines that were printed so far.
#[derive(Clone, Copy)]
pub(crate) struct Shown {
    pub(crate) lines: u64,
    /// Whether none of them has a fault.
    pub(crate) fine: bool,
}

fn print_bad_line<W: Write>(number: u64, out: &mut W) -> io::Result<()>
    ensures { OnOk result (Appends (W.contents out.old) (W.contents out.new) (bad_line number)) }
{
    writeln!(out, "line {number}: bad hex")
}

/// Prints what is to be read of a line whose octets are not too many. Answers whether it has no fault.
fn show_short<W: Write>(
    alloc: Global,
    in_words: bool,
    before: u64,
    line: &[u8],
    out: &mut W,
) -> io::Result<bool>
    requires { before < 2 ^ 64 - 1 }
    ensures { IfOk result (λ fine. AppendsText (W.contents out.old) (W.contents out.new)
        (IsLineText in_words before (option_map octets_in (read_of true line.now)) fine)) }
{
    let Some(text) = read_of(true, line) else {
        return Ok(true);
    };
    let Ok(octets) = octets_in(alloc, text) else {
        return Err(io::Error::from(ErrorKind::OutOfMemory));
    };
    let Some(datagram) = octets else {
        print_bad_line(before + 1, out)?;
        return Ok(false);
    };
    show_datagram(alloc, in_words, &datagram, out)
}

/// Prints a line. Answers whether it has no fault.
fn show_line<W: Write>(
    alloc: Global,
    in_words: bool,
    before: u64,
    line: &[u8],
    out: &mut W,
) -> io::Result<bool>
    requires { before < 2 ^ 64 - 1 }
    ensures { IfOk result (λ fine. AppendsText (W.contents out.old) (W.contents out.new)
        (IsLineText in_words before (datagram_line_at line.now) fine)) }
{
    if line.len() > LINE_LIMIT {
        print_bad_line(before + 1, out)?;
        return Ok(false);
    }
    show_short(alloc, in_words, before, line, out)
}

fn decode_line<W: Write>(
    alloc: Global,
    in_words: bool,
    line: &[u8],
    shown: Shown,
    out: &mut W,
) -> Result<Shown, CheckError>
    ensures told { IfOk result (λ s. IsLinePrinted in_words line.now (W.contents out.old) (W.contents out.new) shown s) }
    ensures fits { OnOk result (shown.lines < 2 ^ 64 - 1) }
{
    if shown.lines == u64::MAX {
        return Err(CheckError::Input(io::Error::from(ErrorKind::FileTooLarge)));
    }
    match show_line(alloc, in_words, shown.lines, line, out) {
        Ok(fine) => Ok(Shown {
            lines: shown.lines + 1,
            fine: shown.fine && fine,
        }),
        Err(error) => Err(CheckError::Output(error)),
    }
}

/// Takes the next line and prints it; None at the end of the input.
fn decode_next<R: BufRead, W: Write>(
    alloc: Global,
    in_words: bool,
    input: &mut R,
    line: &mut Vec<u8>,
    shown: Shown,
    out: &mut W,
) -> Result<Option<Shown>, CheckError>
    ensures taken { IfOk result (λ s. IsTaken in_words (R.remaining input.old) (R.remaining input.new) (W.contents out.old) (W.contents out.new) shown s) }
    ensures more { IfOk result (λ r. IfSome r (λ s. (s.lines ≡ shown.lines + 1) × (shown.lines < 2 ^ 64 - 1))) }
{
    match next_line(input, line) {
        Ok(true) => match decode_line(alloc, in_words, line, shown, out) {
            Ok(next) => Ok(Some(next)),
            Err(error) => Err(error),
        },
        Ok(false) => Ok(None),
        Err(error) => Err(CheckError::Input(error)),
    }
}

/// Prints all lines. Answers whether none of them has a fault.
fn decode_lines<R: BufRead, W: Write>(
    alloc: Global,
    in_words: bool,
    input: &mut R,
    out: &mut W,
) -> Result<bool, CheckError>
    ensures { IfOk result (λ fine. ArePrinted in_words fine (R.remaining input.old) (W.contents out.old) (W.contents out.new)) }
{
    let mut shown = Shown {
        lines: 0,
        fine: true,
    };
    let mut line = Vec::new(alloc);
    while let Some(next) = decode_next(alloc, in_words, input, &mut line, shown, out)? {
        shown = next;
    }
    Ok(shown.fine)
}

fn decode_all<R: BufRead, W: Write>(
    alloc: Global,
    in_words: bool,
    input: &mut R,
    out: &mut W,
) -> Result<Status, CheckError>
    ensures { IfOk result (AreDecoded in_words (R.remaining input.old) (W.contents out.old) (W.contents out.new)) }
{
    let fine = decode_lines(alloc, in_words, input, out)?;
    match out.flush() {
        Ok(()) => Ok(shown_status(fine)),
        Err(error) => Err(CheckError::Output(error)),
    }
}

/// Prints the layers of the datagrams of an input, one on each line, as `decode_text_over` does each.
///
/// A line may end in a carriage return and a line feed; blank lines and those that begin with `#` are passed over. A line that is not hexadecimal, or
/// has more than 132,000 octets, prints `line L: bad hex`, counted from 1. Ends with `Faulty` where a line is none or has a fault. An input that cannot
/// be read, or of 2^64 lines: `cannot read` on `err`. Out of memory: `no memory` on `err`. `Output` where `out` cannot be written. Memory does not grow
/// with the input.
pub fn decode_lines_over<R: BufRead, O: Write, E: Write>(
    alloc: Global,
    in_words: bool,
    input: &mut R,
    out: &mut O,
    err: &mut E,
) -> Status
    ensures { AreDecoded in_words (R.remaining input.old) (O.contents out.old) (O.contents out.new) result }
{
    match decode_all(alloc, in_words, input, out) {
        Ok(status) => status,
        Err(error) => stopped(error, out, err),
    }
}
