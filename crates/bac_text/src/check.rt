//! `bac check`: which lines of a capture are good.
ghost use Rattle.std.specs.Prelude.{◌≡◌, ◌+◌, ◌-◌, ◌^◌, ◌<◌, IfOk, IfSome, OnOk};
ghost use Rattle.std.specs.Option.{option_map};
ghost use Rattle.std.specs.Io.KnownBytes.{Appends};
ghost use Rattle.bac_text.specs.Checked.{verdict_text, tally_text, IsReportAs, IsReportOf};
ghost use Rattle.bac_text.specs.Checking.{count_of, IsCounted, IsStep, AreCounted};

use crate::error::{CheckError, stopped};
use crate::fault::LineVerdict;
use crate::fault_words::line_words;
use crate::judging::judge_line;
use crate::lines::next_line;
use crate::status::Status;
use crate::tally::LineTally;
use std::alloc::Global;
use std::io;
use std::io::{BufRead, ErrorKind, Write};

/// How a capture is checked.
#[derive(Clone, Copy)]
struct CheckStyle {
    alloc: Global,
    /// Whether faults are printed in words.
    in_words: bool,
    /// Whether notes are taken.
    notes: bool,
}

/// Prints what is wrong with the line of that number, if something is.
fn print_verdict<W: Write>(
    style: CheckStyle,
    number: u64,
    verdict: LineVerdict,
    out: &mut W,
) -> io::Result<()>
    ensures { OnOk result (Appends (W.contents out.old) (W.contents out.new) (verdict_text style.in_words number verdict)) }
{
    let LineVerdict::Bad(fault) = verdict else {
        return Ok(());
    };
    if !style.in_words {
        return writeln!(out, "line {number}: {fault}");
    }
    let words = line_words(style.alloc, fault)?;
    writeln!(out, "line {number}: {words}")
}

/// Judges a line, counts it, and prints its fault where it has one.
fn check_line<W: Write>(
    style: CheckStyle,
    line: &[u8],
    datagram: &mut Vec<u8>,
    tally: LineTally,
    out: &mut W,
) -> Result<LineTally, CheckError>
    ensures is { IfOk result (λ t. IsCounted style.in_words style.notes line.now (W.contents out.old) (W.contents out.new) (count_of tally) (count_of t)) }
    ensures fits { OnOk result (tally.lines < 2 ^ 64 - 1) }
{
    let Ok((verdict, latest)) = judge_line(style.notes, line, tally.latest, datagram) else {
        return Err(CheckError::Memory);
    };
    let Some(counted) = tally.with(verdict, latest) else {
        return Err(CheckError::Input(io::Error::from(ErrorKind::FileTooLarge)));
    };
    match print_verdict(style, counted.lines, verdict, out) {
        Ok(()) => Ok(counted),
        Err(error) => Err(CheckError::Output(error)),
    }
}

/// Takes the next line and checks it; None at the end of the input.
fn check_next<R: BufRead, W: Write>(
    style: CheckStyle,
    input: &mut R,
    line: &mut Vec<u8>,
    datagram: &mut Vec<u8>,
    tally: LineTally,
    out: &mut W,
) -> Result<Option<LineTally>, CheckError>
    ensures step { IfOk result (λ r. IsStep style.in_words style.notes (R.remaining input.old) (R.remaining input.new) (W.contents out.old) (W.contents out.new)
        (count_of tally) (option_map count_of r)) }
    ensures more { IfOk result (λ r. IfSome r (λ t. (t.lines ≡ tally.lines + 1) × (tally.lines < 2 ^ 64 - 1))) }
{
    match next_line(input, line) {
        Ok(true) => match check_line(style, line, datagram, tally, out) {
            Ok(counted) => Ok(Some(counted)),
            Err(error) => Err(error),
        },
        Ok(false) => Ok(None),
        Err(error) => Err(CheckError::Input(error)),
    }
}

fn check_lines<R: BufRead, W: Write>(
    style: CheckStyle,
    input: &mut R,
    out: &mut W,
) -> Result<LineTally, CheckError>
    ensures { IfOk result (λ t. AreCounted style.in_words style.notes (R.remaining input.old) (W.contents out.old) (W.contents out.new) (count_of t)) }
{
    let mut tally = LineTally::NONE;
    let mut line = Vec::new(style.alloc);
    let mut datagram = Vec::new(style.alloc);
    while let Some(next) = check_next(style, input, &mut line, &mut datagram, tally, out)? {
        tally = next;
    }
    Ok(tally)
}

/// Prints how many lines there are, and how many of them are good, bad and, where notes are taken, notes.
fn print_tally<W: Write>(notes: bool, tally: LineTally, out: &mut W) -> io::Result<()>
    ensures { OnOk result (Appends (W.contents out.old) (W.contents out.new) (tally_text notes tally.lines tally.good tally.bad)) }
{
    let lines = tally.lines;
    let good = tally.good;
    let bad = tally.bad;
    if notes {
        let others = lines - (good + bad);
        writeln!(out, "lines={lines} good={good} bad={bad} notes={others}")?;
    } else {
        writeln!(out, "lines={lines} good={good} bad={bad}")?;
    }
    out.flush()
}

fn check_all<R: BufRead, W: Write>(
    style: CheckStyle,
    input: &mut R,
    out: &mut W,
) -> Result<Status, CheckError>
    ensures { IfOk result (IsReportAs style.in_words style.notes (R.remaining input.old) (W.contents out.old) (W.contents out.new)) }
{
    let tally = check_lines(style, input, out)?;
    match print_tally(style.notes, tally, out) {
        Ok(()) => Ok(tally.status()),
        Err(error) => Err(CheckError::Output(error)),
    }
}

/// Checks each line of a capture: prints each bad line's number and fault, in words or not, and at the end how many lines are good and bad.
///
/// A line `moment from to hex` is good where its moment is not less than that of an earlier such line, and its datagram has no fault. Where notes are
/// taken, lines may end in a carriage return and a line feed. A blank line, or one that begins with `#`, is then neither good nor bad: such lines are
/// counted as notes behind the others. Ends with `Faulty` where a line is bad. An input that cannot be read, or of 2^64 lines: `cannot read` on
/// `err`. Out of memory: `no memory` on `err`. `Output` where `out` cannot be written, then too where the input fails. Memory does not grow with the
/// input.
pub fn check_lines_over<R: BufRead, O: Write, E: Write>(
    alloc: Global,
    in_words: bool,
    notes: bool,
    input: &mut R,
    out: &mut O,
    err: &mut E,
) -> Status
    ensures { IsReportAs in_words notes (R.remaining input.old) (O.contents out.old) (O.contents out.new) result }
{
    let style = CheckStyle {
        alloc,
        in_words,
        notes,
    };
    match check_all(style, input, out) {
        Ok(status) => status,
        Err(error) => stopped(error, out, err),
    }
}

/// Checks a capture as [`check_lines_over`] does, without notes: each line is one of the capture, and faults are printed by number.
pub fn check_over<R: BufRead, O: Write, E: Write>(
    alloc: Global,
    input: &mut R,
    out: &mut O,
    err: &mut E,
) -> Status
    ensures { IsReportOf (R.remaining input.old) (O.contents out.old) (O.contents out.new) result }
{
    check_lines_over(alloc, false, false, input, out, err)
}
