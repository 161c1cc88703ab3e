//! Reports on captures: the first octets determine whether it is a file, which is walked frame by frame.
ghost use Rattle.std.specs.Prelude.{◌≡◌, ℕ, List, Option, IfOk, OnOk};
ghost use Rattle.std.specs.Io.KnownBytes.{Appends};
ghost use Rattle.bac_capture.specs.declared.fault.FileFault.{FileFault as File};
ghost use Rattle.bac_capture.specs.BlockViews.{frame_view};
ghost use Rattle.bac_capture.specs.Blocks.{FrameView};
ghost use Rattle.bac_capture.specs.FileReports.{IsEnding, IsFileReported, IsReportOf};
ghost use Rattle.bac_capture.specs.Reports.{IsPrinted};
ghost use Rattle.bac_text.specs.Statuses.{IfEnded, IsStop};
ghost use Rattle.bac_text.specs.declared.status.Status.{Status as Ended};

use crate::walk::walk_file;
use crate::{FileFault, FileSignature, Frame, Ports, read_run, signature_of};
use bac_text::{CheckError, Status, stopped};
use std::alloc::Global;
use std::io;
use std::io::{BufRead, Read, Write};

/// A report on a capture: what is printed for the frames of a file, above them and below them, and for a capture that is not a file of
/// pcap or pcapng.
pub trait FileReport<W: Write> {
    // What it keeps.
    ghost State: { Type 0 };

    ghost state: { Self → State };

    // What is printed for a frame; there is a port beside the sixteen, or none.
    ghost Visits: { (also : Option ℕ) → FrameView → State → (text : List ℕ) → State → Type 0 };

    // What is printed for a file that cannot be read further.
    ghost Breaks: { File → State → (text : List ℕ) → State → Type 0 };

    // What is printed above the frames.
    ghost heading: { State → List ℕ };

    // What is printed below the frames, and the status.
    ghost Ends: { State → (text : List ℕ) → Ended → Type 0 };

    // What is printed for octets that are no file, if they are known, and the status.
    ghost Others: { State → (octets : Option (List ℕ)) → (old : Option (List ℕ)) → (new : Option (List ℕ)) → Ended → Type 0 };

    /// Prints what there is to print for a frame.
    fn visit_frame(&mut self, frame: Frame<'_>, ports: Ports, out: &mut W) -> Result<(), CheckError>
        ensures { OnOk result (IsPrinted (Visits ports.also) (frame_view frame.entry) (W.contents out.old) (W.contents out.new) (state self.old) (state self.new)) };

    /// Prints what there is to print for a file that cannot be read further, in place of its next frame.
    fn break_off(&mut self, fault: FileFault, out: &mut W) -> Result<(), CheckError>
        ensures { OnOk result (IsPrinted Breaks fault (W.contents out.old) (W.contents out.new) (state self.old) (state self.new)) };

    /// The text above the frames.
    fn heading_text(&self) -> &'static str
        ensures { result.now ≡ heading (state self.now) };

    /// Prints what comes below the frames, after the last of them. Returns the status of the command.
    fn end(&mut self, out: &mut W) -> Result<Status, CheckError>
        ensures { IfOk result (IsEnding State Ends (state self.old) (W.contents out.old) (W.contents out.new)) };

    /// Reports on an input that is no file of pcap or pcapng, and returns the status.
    fn report_other<R: BufRead, E: Write>(
        &mut self,
        alloc: Global,
        input: &mut R,
        out: &mut W,
        err: &mut E,
    ) -> Status
        ensures { IfEnded result (Others (state self.old) (R.remaining input.old) (W.contents out.old) (W.contents out.new) result) };

    /// Prints why the report stopped before the end of the file, and returns the status.
    fn stop<E: Write>(&self, error: CheckError, out: &mut W, err: &mut E) -> Status
        ensures { IsStop result }
    {
        stopped(error, out, err)
    }

    /// Reports on an input that fails after the octets `front`, which are too few to tell whether it is a file. Returns the status.
    fn fail_early<E: Write>(
        &mut self,
        _alloc: Global,
        _front: &[u8],
        error: io::Error,
        out: &mut W,
        err: &mut E,
    ) -> Status
        ensures { IsStop result }
    {
        self.stop(CheckError::Input(error), out, err)
    }
}

/// Prints a text.
pub fn print_text<W: Write>(text: &[u8], out: &mut W) -> Result<(), CheckError>
    ensures { OnOk result (Appends (W.contents out.old) (W.contents out.new) text.now) }
{
    match out.write_all(text) {
        Ok(()) => Ok(()),
        Err(error) => Err(CheckError::Output(error)),
    }
}

/// Reports on a file with this signature.
fn report_file<R: BufRead, W: Write, V: FileReport<W>>(
    alloc: Global,
    signature: FileSignature,
    input: &mut R,
    ports: Ports,
    report: &mut V,
    out: &mut W,
) -> Result<Status, CheckError>
    ensures { IfOk result (IsFileReported V.State (V.Visits ports.also) V.Breaks V.heading V.Ends (V.state report.old) signature (R.remaining input.old)
        (W.contents out.old) (W.contents out.new)) }
{
    print_text(report.heading_text().as_bytes(), out)?;
    walk_file(alloc, signature, input, ports, report, out)?;
    let status = report.end(out)?;
    Ok(status)
}

/// Reports on a capture: on a file of pcap or pcapng, as its first four octets determine, frame by frame and in memory that does not
/// grow with it; on any other input as the report defines.
///
/// Returns the status of the report. Prints `cannot read` on `err` if the input cannot be read, and `no memory` if an allocation
/// fails. Returns `Output` if `out` cannot be written, even if the input fails too.
pub fn report_over<R: BufRead, O: Write, E: Write, V: FileReport<O>>(
    alloc: Global,
    input: &mut R,
    ports: Ports,
    report: &mut V,
    out: &mut O,
    err: &mut E,
) -> Status
    ensures { IsReportOf V.State (V.Visits ports.also) V.Breaks V.heading V.Ends (V.Others (V.state report.old)) (V.state report.old) (R.remaining input.old)
        (O.contents out.old) (O.contents out.new) result }
{
    let mut front = Vec::new(alloc);
    if let Err(error) = read_run(input, 4, &mut front) {
        return report.fail_early(alloc, &front, error, out, err);
    }
    let front: &[u8] = &front;
    let mut whole = front.chain(input);
    let Some(signature) = signature_of(front) else {
        return report.report_other(alloc, &mut whole, out, err);
    };
    match report_file(alloc, signature, &mut whole, ports, report, out) {
        Ok(status) => status,
        Err(error) => report.stop(error, out, err),
    }
}
