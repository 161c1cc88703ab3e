//! `bac check --json` for captures of lines: each bad line as one object, and the counts.
ghost use Rattle.std.specs.Prelude.{◌≡◌, IfOk, OnOk};
ghost use Rattle.bac_json_report.specs.CheckedLines.{AreChecked, IsCounted, IsFaultText, bad_line_form, count_of, line_fault_form, notes_form};
ghost use Rattle.bac_json_report.specs.CheckedLines.{summary_form, verdict_fault};
ghost use Rattle.bac_json_report.specs.Lines.{IsLineOf};
ghost use Rattle.bac_text.specs.Texts.{AppendsText};
ghost use Rattle.serde_json.specs.View.{view};

use crate::fault::{fault_json, outer_fault_json};
use crate::line::print_json;
use crate::line_check::LineCheck;
use crate::line_report::{LineReport, report_lines_over};
use bac_json::Members;
use bac_text::{CheckError, LineFault, LineTally, LineVerdict, Status, judge_line};
use serde_json::Value as Json;
use std::alloc::{AllocError, Global};
use std::io;
use std::io::{BufRead, ErrorKind, Write};

fn bad_line_json(alloc: Global, line: u64, fault: Json) -> Result<Json, AllocError>
    ensures { IfOk result (λ v. view v ≡ bad_line_form line (view fault)) }
{
    Members::new(alloc)
        .json("fault", fault)
        .number("line", line)
        .text("type", "fault")
        .end()
}

fn print_bad<W: Write>(alloc: Global, line: u64, fault: Json, out: &mut W) -> io::Result<()>
    ensures { OnOk result (AppendsText (W.contents out.old) (W.contents out.new) (IsLineOf (λ d. d ≡ bad_line_form line (view fault)))) }
{
    let json = bad_line_json(alloc, line, fault)?;
    print_json(alloc, &json, out)
}

/// What is wrong with a line.
fn fault_of(alloc: Global, fault: LineFault) -> Result<Json, AllocError>
    ensures { IfOk result (λ v. view v ≡ line_fault_form fault) }
{
    match fault {
        LineFault::NoCaptureLine => outer_fault_json(alloc, "line", "not a capture line"),
        LineFault::MomentGoesBack => outer_fault_json(alloc, "line", "moment goes back"),
        LineFault::Datagram { fault, .. } => fault_json(alloc, fault),
    }
}

/// Prints what is wrong with the line of that number, if something is.
fn print_verdict<W: Write>(
    alloc: Global,
    number: u64,
    verdict: LineVerdict,
    out: &mut W,
) -> io::Result<()>
    ensures { OnOk result (AppendsText (W.contents out.old) (W.contents out.new) (IsFaultText number (verdict_fault verdict))) }
{
    let LineVerdict::Bad(fault) = verdict else {
        return Ok(());
    };
    let fault = fault_of(alloc, fault)?;
    print_bad(alloc, number, fault, out)
}

impl LineCheck {
    /// One line more, of this verdict. An Err, which changes nothing, where their number does not fit.
    fn count(&mut self, verdict: LineVerdict, latest: u64) -> Result<(), CheckError>
        ensures { OnOk result (IsCounted verdict latest (count_of self.old) (count_of self.new)) }
    {
        let Some(tally) = self.tally.with(verdict, latest) else {
            return Err(CheckError::Input(io::Error::from(ErrorKind::FileTooLarge)));
        };
        self.tally = tally;
        Ok(())
    }

    /// How many lines are notes; Null where none are taken.
    fn notes_json(&self) -> Json
        ensures { view result ≡ notes_form self.now.notes (count_of self.now) }
    {
        if self.notes {
            let tally = self.tally;
            Json::from(tally.lines - (tally.good + tally.bad))
        } else {
            Json::Null
        }
    }

    fn summary_json(&self) -> Result<Json, AllocError>
        ensures { IfOk result (λ v. view v ≡ summary_form (count_of self.now)) }
    {
        let notes = self.notes_json();
        Members::new(self.alloc)
            .number("bad", self.tally.bad)
            .number("good", self.tally.good)
            .number("lines", self.tally.lines)
            .json("notes", notes)
            .text("type", "summary")
            .end()
    }

    fn print_summary<W: Write>(&self, out: &mut W) -> io::Result<()>
        ensures { OnOk result (AppendsText (W.contents out.old) (W.contents out.new) (IsLineOf (λ d. d ≡ summary_form (count_of self.now)))) }
    {
        let json = self.summary_json()?;
        print_json(self.alloc, &json, out)?;
        out.flush()
    }
}

impl<W: Write> LineReport<W> for LineCheck {
    ghost use Rattle.bac_json_report.specs.CheckedLines.{Count, EndsLines, SeesLine, count_of};

    ghost State = { Count };

    ghost state = { count_of };

    ghost Visits = { SeesLine };

    ghost Ends = { EndsLines };

    fn visit_line(&mut self, line: &[u8], out: &mut W) -> Result<(), CheckError> {
        let before = self.tally.latest;
        let Ok((verdict, latest)) = judge_line(self.notes, line, before, &mut self.datagram) else {
            return Err(CheckError::Memory);
        };
        self.count(verdict, latest)?;
        match print_verdict(self.alloc, self.tally.lines, verdict, out) {
            Ok(()) => Ok(()),
            Err(error) => Err(CheckError::Output(error)),
        }
    }

    fn end_lines(&mut self, out: &mut W) -> Result<Status, CheckError> {
        match self.print_summary(out) {
            Ok(()) => Ok(self.tally.status()),
            Err(error) => Err(CheckError::Output(error)),
        }
    }
}

/// Checks each line of a capture as `check_lines_over` of bac_text does. Prints an object for each bad line, and at the end one with the counts.
///
/// Notes, the statuses and the messages on `err` are those of `check_lines_over`. Memory does not grow with the input.
pub fn check_json_lines_over<R: BufRead, O: Write, E: Write>(
    alloc: Global,
    notes: bool,
    input: &mut R,
    out: &mut O,
    err: &mut E,
) -> Status
    ensures { AreChecked notes (R.remaining input.old) (O.contents out.old) (O.contents out.new) result }
{
    let mut check = LineCheck {
        alloc,
        notes,
        datagram: Vec::new(alloc),
        tally: LineTally::NONE,
    };
    report_lines_over(alloc, input, &mut check, out, err)
}
