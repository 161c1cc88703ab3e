//! `bac check --json`: each bad frame of a capture file as one object, and the counts.
ghost use Rattle.std.specs.Prelude.{◌≡◌, codes, IfOk, OnOk};
ghost use Rattle.bac_capture.specs.Reports.{IsPrinted};
ghost use Rattle.bac_capture.specs.Texts.{file_fault_text, packet_fault_text};
ghost use Rattle.bac_json_report.specs.CheckedFiles.{IsCounted, IsFaultText, IsReportOf, count_of, summary_form};
ghost use Rattle.bac_json_report.specs.CheckedFiles.{IsBadFrame, bad_frame_form, captured_form, verdict_fault};
ghost use Rattle.bac_json_report.specs.Faults.{outer_fault_form};
ghost use Rattle.bac_json_report.specs.Lines.{IsLineOf};
ghost use Rattle.bac_text.specs.Texts.{AppendsText};
ghost use Rattle.serde_json.specs.View.{view};

use crate::check_lines::check_json_lines_over;
use crate::fault::{fault_json, outer_fault_json};
use crate::file_check::FileCheck;
use crate::line::print_json;
use crate::moment::{number_or_null, time_json};
use bac_capture::{
    CapturedFault, FileFault, FileReport, Frame, FrameTally, PacketFault, Ports, Verdict, judge,
    report_over,
};
use bac_json::Members;
use bac_text::{CheckError, Status};
use serde_json::Value as Json;
use std::alloc::{AllocError, Global};
use std::io;
use std::io::{BufRead, ErrorKind, Write};

fn bad_frame_object(
    alloc: Global,
    frame: u64,
    moment: Option<u64>,
    time: Json,
    fault: Json,
) -> Result<Json, AllocError>
    ensures { IfOk result (λ v. view v ≡ bad_frame_form frame moment (view time) (view fault)) }
{
    Members::new(alloc)
        .json("fault", fault)
        .number("frame", frame)
        .json("moment", number_or_null(moment))
        .json("time", time)
        .text("type", "fault")
        .end()
}

/// A bad frame with its number and its moment.
#[tactic(auto, using(crate::proofs::Checked::bad_frame_told))]
fn bad_frame_json(
    alloc: Global,
    frame: u64,
    moment: Option<u64>,
    fault: Json,
) -> Result<Json, AllocError>
    ensures { IfOk result (λ v. IsBadFrame frame moment (view fault) (view v)) }
{
    let time = time_json(alloc, moment)?;
    bad_frame_object(alloc, frame, moment, time, fault)
}

fn print_bad<W: Write>(
    alloc: Global,
    frame: u64,
    moment: Option<u64>,
    fault: Json,
    out: &mut W,
) -> io::Result<()>
    ensures { OnOk result (AppendsText (W.contents out.old) (W.contents out.new) (IsLineOf (IsBadFrame frame moment (view fault)))) }
{
    let json = bad_frame_json(alloc, frame, moment, fault)?;
    print_json(alloc, &json, out)
}

fn packet_fault_json(alloc: Global, fault: PacketFault) -> Result<Json, AllocError>
    ensures { IfOk result (λ v. view v ≡ outer_fault_form (codes "frame") (packet_fault_text fault)) }
{
    let text = format!(in alloc; "{fault}")?;
    outer_fault_json(alloc, "frame", text.as_str())
}

fn file_fault_json(alloc: Global, fault: FileFault) -> Result<Json, AllocError>
    ensures { IfOk result (λ v. view v ≡ outer_fault_form (codes "file") (file_fault_text fault)) }
{
    let text = format!(in alloc; "{fault}")?;
    outer_fault_json(alloc, "file", text.as_str())
}

/// What is wrong with a frame.
fn fault_of(alloc: Global, fault: CapturedFault) -> Result<Json, AllocError>
    ensures { IfOk result (λ v. view v ≡ captured_form fault) }
{
    match fault {
        CapturedFault::Link => outer_fault_json(alloc, "frame", "unknown link layer"),
        CapturedFault::Packet(fault) => packet_fault_json(alloc, fault),
        CapturedFault::Datagram { fault, .. } => fault_json(alloc, fault),
        CapturedFault::File(fault) => file_fault_json(alloc, fault),
    }
}

/// Prints what is wrong with the frame of that number and that moment, if something is.
fn print_verdict<W: Write>(
    alloc: Global,
    number: u64,
    moment: Option<u64>,
    verdict: Verdict,
    out: &mut W,
) -> io::Result<()>
    ensures { OnOk result (AppendsText (W.contents out.old) (W.contents out.new) (IsFaultText number moment (verdict_fault verdict))) }
{
    let Verdict::Bad(fault) = verdict else {
        return Ok(());
    };
    let fault = fault_of(alloc, fault)?;
    print_bad(alloc, number, moment, fault, out)
}

impl FileCheck {
    /// Counts a frame of that moment, and prints what is wrong with it.
    fn see<W: Write>(
        &mut self,
        moment: Option<u64>,
        verdict: Verdict,
        out: &mut W,
    ) -> Result<(), CheckError>
        ensures { OnOk result (IsPrinted (IsCounted moment) verdict (W.contents out.old) (W.contents out.new) (count_of self.old) (count_of self.new)) }
    {
        let Some(tally) = self.tally.with(verdict) else {
            return Err(CheckError::Input(io::Error::from(ErrorKind::FileTooLarge)));
        };
        self.tally = tally;
        match print_verdict(self.alloc, tally.frames, moment, verdict, out) {
            Ok(()) => Ok(()),
            Err(error) => Err(CheckError::Output(error)),
        }
    }

    fn summary_json(&self) -> Result<Json, AllocError>
        ensures { IfOk result (λ v. view v ≡ summary_form (count_of self.now)) }
    {
        Members::new(self.alloc)
            .number("bad", self.tally.bad)
            .number("frames", self.tally.frames)
            .number("good", self.tally.good)
            .number("other", self.tally.other)
            .text("type", "summary")
            .end()
    }

    fn print_summary<W: Write>(&self, out: &mut W) -> io::Result<()>
        ensures { OnOk result (AppendsText (W.contents out.old) (W.contents out.new) (IsLineOf (λ d. d ≡ summary_form (count_of self.now)))) }
    {
        let json = self.summary_json()?;
        print_json(self.alloc, &json, out)?;
        out.flush()
    }
}

impl<W: Write> FileReport<W> for FileCheck {
    ghost use Rattle.bac_capture.specs.FileReports.{no_heading};
    ghost use Rattle.bac_capture.specs.Counts.{Counts};
    ghost use Rattle.bac_json_report.specs.CheckedFiles.{BreaksFile, EndsFile, SeesFrame, count_of};
    ghost use Rattle.bac_json_report.specs.CheckedLines.{AreChecked};
    ghost use Rattle.std.specs.Prelude.{false};

    ghost State = { Counts };

    ghost state = { count_of };

    ghost Visits = { SeesFrame };

    ghost Breaks = { BreaksFile };

    ghost heading = { no_heading };

    ghost Ends = { EndsFile };

    ghost Others = { λ _. AreChecked false };

    fn visit_frame(
        &mut self,
        frame: Frame<'_>,
        ports: Ports,
        out: &mut W,
    ) -> Result<(), CheckError> {
        self.see(frame.moment, judge(frame, ports), out)
    }

    fn break_off(&mut self, fault: FileFault, out: &mut W) -> Result<(), CheckError> {
        self.see(None, Verdict::Bad(CapturedFault::File(fault)), out)
    }

    fn heading_text(&self) -> &'static str {
        ""
    }

    fn end(&mut self, out: &mut W) -> Result<Status, CheckError> {
        match self.print_summary(out) {
            Ok(()) => Ok(self.tally.status()),
            Err(error) => Err(CheckError::Output(error)),
        }
    }

    fn report_other<R: BufRead, E: Write>(
        &mut self,
        alloc: Global,
        input: &mut R,
        out: &mut W,
        err: &mut E,
    ) -> Status {
        check_json_lines_over(alloc, false, input, out, err)
    }
}

/// Checks a capture as `check_capture_over` of bac_capture does. Prints an object for each bad frame of a file, or each bad line of another input,
/// and at the end one with the counts.
///
/// The statuses and the messages on `err` are those of `check_capture_over`; of an input that fails within its first four octets no line is checked. Memory
/// does not grow with the input.
pub fn check_json_over<R: BufRead, O: Write, E: Write>(
    alloc: Global,
    input: &mut R,
    ports: Ports,
    out: &mut O,
    err: &mut E,
) -> Status
    ensures { IsReportOf ports.also (R.remaining input.old) (O.contents out.old) (O.contents out.new) result }
{
    let mut check = FileCheck {
        alloc,
        tally: FrameTally::NONE,
    };
    report_over(alloc, input, ports, &mut check, out, err)
}
