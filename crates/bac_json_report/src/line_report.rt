//! Reports on inputs of lines.
ghost use Rattle.std.specs.Prelude.{ℕ, List, IfOk, OnOk};
ghost use Rattle.bac_json_report.specs.LineReports.{AreReported, AreVisited, IsEnded, IsStep, IsVisited};
ghost use Rattle.bac_text.specs.Statuses.{IfEnded};
ghost use Rattle.bac_text.specs.declared.status.Status.{Status as Ended};

use bac_text::{CheckError, Status, next_line, stopped};
use std::alloc::Global;
use std::io;
use std::io::{BufRead, ErrorKind, Write};

/// A report on an input of lines: what is printed of each line, and below them.
pub(crate) trait LineReport<W: Write> {
    // What it keeps.
    ghost State: { Type 0 };

    ghost state: { Self → State };

    // What is printed of a line.
    ghost Visits: { (line : List ℕ) → State → (text : List ℕ) → State → Type 0 };

    // What is printed below the lines, and the status.
    ghost Ends: { State → (text : List ℕ) → Ended → Type 0 };

    /// Prints what there is to print of a line; of an overlong one, its front is given.
    fn visit_line(&mut self, line: &[u8], out: &mut W) -> Result<(), CheckError>
        ensures { OnOk result (IsVisited Visits line.now (W.contents out.old) (W.contents out.new) (state self.old) (state self.new)) };

    /// Prints what comes below the lines, after the last of them. Returns the status of the command.
    fn end_lines(&mut self, out: &mut W) -> Result<Status, CheckError>
        ensures { IfOk result (IsEnded Ends (state self.old) (W.contents out.old) (W.contents out.new)) };
}

/// Takes the next line, which the report sees. False at the end of the input.
fn visit_next<R: BufRead, W: Write, V: LineReport<W>>(
    input: &mut R,
    line: &mut Vec<u8>,
    report: &mut V,
    out: &mut W,
) -> Result<bool, CheckError>
    ensures { IfOk result (IsStep V.State V.Visits (R.remaining input.old) (R.remaining input.new) (W.contents out.old) (W.contents out.new)
        (V.state report.old) (V.state report.new)) }
{
    match next_line(input, line) {
        Ok(true) => match report.visit_line(line, out) {
            Ok(()) => Ok(true),
            Err(error) => Err(error),
        },
        Ok(false) => Ok(false),
        Err(error) => Err(CheckError::Input(error)),
    }
}

/// The report sees each line, in order.
fn visit_lines<R: BufRead, W: Write, V: LineReport<W>>(
    alloc: Global,
    input: &mut R,
    report: &mut V,
    out: &mut W,
) -> Result<(), CheckError>
    ensures { OnOk result (AreVisited V.State V.Visits (R.remaining input.old) (W.contents out.old) (W.contents out.new) (V.state report.old) (V.state report.new)) }
{
    let mut line = Vec::new(alloc);
    for _ in 0..u64::MAX {
        if !visit_next(input, &mut line, report, out)? {
            return Ok(());
        }
    }
    // no report can count 2^64 lines
    Err(CheckError::Input(io::Error::from(ErrorKind::FileTooLarge)))
}

fn report_lines<R: BufRead, W: Write, V: LineReport<W>>(
    alloc: Global,
    input: &mut R,
    report: &mut V,
    out: &mut W,
) -> Result<Status, CheckError>
    ensures { IfOk result (AreReported V.State V.Visits V.Ends (V.state report.old) (R.remaining input.old) (W.contents out.old) (W.contents out.new)) }
{
    visit_lines(alloc, input, report, out)?;
    let status = report.end_lines(out)?;
    Ok(status)
}

/// Reports on the lines of an input, in memory that does not grow with it, and returns the status of the report.
///
/// Prints `cannot read` on `err` if the input cannot be read or has 2^64 lines, and `no memory` if an allocation fails. Returns `Output` if `out` cannot be
/// written, even if the input fails too.
pub(crate) fn report_lines_over<R: BufRead, O: Write, E: Write, V: LineReport<O>>(
    alloc: Global,
    input: &mut R,
    report: &mut V,
    out: &mut O,
    err: &mut E,
) -> Status
    ensures { IfEnded result (AreReported V.State V.Visits V.Ends (V.state report.old) (R.remaining input.old) (O.contents out.old) (O.contents out.new) result) }
{
    match report_lines(alloc, input, report, out) {
        Ok(status) => status,
        Err(error) => stopped(error, out, err),
    }
}
