//! `bac check` for capture files: which frames carry good datagrams.
ghost use Rattle.std.specs.Prelude.{◌≡◌, IfOk, OnOk, string_bytes, true};
ghost use Rattle.std.specs.Io.KnownBytes.{Appends};
ghost use Rattle.bac_capture.specs.Checked.{verdict_text, tally_text, IsCounted, IsReportOf};
ghost use Rattle.bac_capture.specs.CheckTexts.{frame_fault_text};
ghost use Rattle.bac_capture.specs.Counted.{counts_of};
ghost use Rattle.bac_capture.specs.Reports.{IsPrinted};

use crate::broken::Broken;
use crate::check_fault::{CapturedFault, Verdict};
use crate::judging::judge;
use crate::others::print_named;
use crate::report::{FileReport, report_over};
use crate::tally::FrameTally;
use crate::{FileFault, Frame, Ports};
use bac_text::{CheckError, Status, check_lines_over, fault_in_words};
use std::alloc::{AllocError, Global};
use std::io;
use std::io::{BufRead, ErrorKind, Read, Write};

/// Why a frame is bad, in words.
fn words_of(alloc: Global, fault: CapturedFault) -> Result<String, AllocError>
    ensures { IfOk result (λ t. string_bytes t ≡ frame_fault_text true fault) }
{
    match fault {
        CapturedFault::Link => String::from_str(alloc, "unknown link layer"),
        CapturedFault::Packet(fault) => format!(in alloc; "{fault}"),
        CapturedFault::Datagram { fault, function } => fault_in_words(alloc, function, fault),
        CapturedFault::File(fault) => format!(in alloc; "{fault}"),
    }
}

/// The report of `bac check`: the counts of the frames so far, and whether faults are printed in words, and counts of other functions by name.
#[derive(Clone, Copy)]
pub(crate) struct Check {
    pub alloc: Global,
    pub in_words: bool,
    pub tally: FrameTally,
}

impl Check {
    /// Prints what is wrong with the frame with this number, if anything.
    fn print_verdict<W: Write>(self, number: u64, verdict: Verdict, out: &mut W) -> io::Result<()>
        ensures { OnOk result (Appends (W.contents out.old) (W.contents out.new) (verdict_text self.in_words number verdict)) }
    {
        let Verdict::Bad(fault) = verdict else {
            return Ok(());
        };
        if !self.in_words {
            return writeln!(out, "frame {number}: {fault}");
        }
        let words = words_of(self.alloc, fault)?;
        writeln!(out, "frame {number}: {words}")
    }

    /// Counts a frame, and prints what is wrong with it.
    fn count<W: Write>(self, verdict: Verdict, out: &mut W) -> Result<FrameTally, CheckError>
        ensures { IfOk result (λ t. IsPrinted (IsCounted self.in_words) verdict (W.contents out.old) (W.contents out.new) (counts_of self.tally) (counts_of t)) }
    {
        let Some(counted) = self.tally.with(verdict) else {
            return Err(CheckError::Input(io::Error::from(ErrorKind::FileTooLarge)));
        };
        match self.print_verdict(counted.frames, verdict, out) {
            Ok(()) => Ok(counted),
            Err(error) => Err(CheckError::Output(error)),
        }
    }
}

/// Prints the counts, in words with those of other functions by name.
fn print_tally<W: Write>(in_words: bool, tally: FrameTally, out: &mut W) -> io::Result<()>
    ensures { OnOk result (Appends (W.contents out.old) (W.contents out.new) (tally_text in_words (counts_of tally))) }
{
    print_named(in_words, tally.others, out)?;
    let frames = tally.frames;
    let good = tally.good;
    let bad = tally.bad;
    let other = tally.other;
    writeln!(out, "frames={frames} good={good} bad={bad} other={other}")?;
    out.flush()
}

impl<W: Write> FileReport<W> for Check {
    ghost use Rattle.bac_capture.specs.Checked.{BreaksFile, Checking, EndsFile, ReportsLines, SeesFrame};
    ghost use Rattle.bac_capture.specs.Counted.{check_view};
    ghost use Rattle.bac_capture.specs.FileReports.{no_heading};

    ghost State = { Checking };

    ghost state = { check_view };

    ghost Visits = { SeesFrame };

    ghost Breaks = { BreaksFile };

    ghost heading = { no_heading };

    ghost Ends = { EndsFile };

    ghost Others = { ReportsLines };

    fn visit_frame(
        &mut self,
        frame: Frame<'_>,
        ports: Ports,
        out: &mut W,
    ) -> Result<(), CheckError> {
        self.tally = self.count(judge(frame, ports), out)?;
        Ok(())
    }

    fn break_off(&mut self, fault: FileFault, out: &mut W) -> Result<(), CheckError> {
        self.tally = self.count(Verdict::Bad(CapturedFault::File(fault)), out)?;
        Ok(())
    }

    fn heading_text(&self) -> &'static str {
        ""
    }

    fn end(&mut self, out: &mut W) -> Result<Status, CheckError> {
        match print_tally(self.in_words, self.tally, out) {
            Ok(()) => Ok(self.tally.status()),
            Err(error) => Err(CheckError::Output(error)),
        }
    }

    fn report_other<R: BufRead, E: Write>(
        &mut self,
        alloc: Global,
        input: &mut R,
        out: &mut W,
        err: &mut E,
    ) -> Status {
        check_lines_over(alloc, self.in_words, false, input, out, err)
    }

    /// Checks the lines that ended before the input failed, and then reports the failure.
    fn fail_early<E: Write>(
        &mut self,
        alloc: Global,
        front: &[u8],
        error: io::Error,
        out: &mut W,
        err: &mut E,
    ) -> Status {
        let mut whole = front.chain(Broken { kind: error.kind() });
        match check_lines_over(alloc, self.in_words, false, &mut whole, out, err) {
            // an input that fails is not checked to its end
            Status::Done | Status::Faulty => Status::CommandLine,
            status => status,
        }
    }
}

/// Checks a capture: a file of pcap or pcapng, as its first four octets determine, or otherwise lines, as `check_lines_over` of bac_text does without notes.
///
/// For a file, prints each bad frame with its number from 1, and at the end how many frames there are, and how many of them carry a
/// good datagram, a bad one, and a BVLL with a function other than Original-Unicast-NPDU; all other frames carry no datagram of
/// BACnet/IP. If `in_words` is set, faults are printed in words, and for a file the other functions are listed before the counts in
/// order of their numbers, by their names in the standard: `other BVLC-Result=3`; those over IPv6 come last, together:
/// `other BACnet/IPv6=2`. A frame is bad if its link layer is unknown, its packet is a fragment or not complete, its datagram has a fault, or the
/// file cannot be read beyond it. Returns `Faulty` if a frame is bad. Prints `cannot read` on `err` if the input cannot be read or
/// has 2^64 frames, and `no memory` if an allocation fails. Returns `Output` if `out` cannot be written, even if the input fails
/// too. Memory does not grow with the input.
pub fn check_capture_over<R: BufRead, O: Write, E: Write>(
    alloc: Global,
    input: &mut R,
    ports: Ports,
    in_words: bool,
    out: &mut O,
    err: &mut E,
) -> Status
    ensures { IsReportOf ports.also in_words (R.remaining input.old) (O.contents out.old) (O.contents out.new) result }
{
    let mut report = Check {
        alloc,
        in_words,
        tally: FrameTally::NONE,
    };
    report_over(alloc, input, ports, &mut report, out, err)
}
