//! What is printed of a capture: what `check` and `explain` do.
ghost use Rattle.std.specs.Prelude.{◌≡◌};
ghost use Rattle.std.specs.Io.KnownBytes.{Keeps};
ghost use Rattle.bac_text.specs.declared.status.Status.TheVariants as status;
ghost use Rattle.bac_reading.specs.Reports.{IsReport, IsReportedFile};
ghost use Rattle.bac_environment.specs.Files.{OnFile};

use crate::captures::begins_capture;
use crate::files::reader_of;
use crate::reasons::print_unfit;
use bac_capture::{Ports, check_capture_over};
use bac_environment::OpenFiles;
use bac_explain_html::explain_html_over;
use bac_explain_json::explain_json_over;
use bac_explain_report::{ChartOptions, ReportOptions, chart_over, explain_over};
use bac_json_report::{check_json_lines_over, check_json_over};
use bac_text::{Status, check_lines_over, next_line, read_capture_line};
use std::alloc::Global;
use std::io::{BufRead, Write};

/// What is printed of a capture.
#[derive(Clone, Copy)]
pub enum Report {
    /// What is bad of a capture in pcap or pcapng, or of one of lines; in words, with counts of other functions by name, or not.
    Check { in_words: bool },
    /// The same as objects of JSON.
    CheckJson,
    /// The bad lines of a capture of lines and notes; in words or not.
    CheckLines { in_words: bool },
    /// The same as objects of JSON.
    CheckLinesJson,
    /// The transactions of a capture in pcap or pcapng.
    Explain(ReportOptions),
    /// The same as objects of JSON.
    ExplainJson(ReportOptions),
    /// The same as a page of HTML.
    ExplainHtml(ReportOptions),
    /// The datagrams of a capture in pcap or pcapng, drawn.
    Chart(ChartOptions),
}

/// The file of a capture, and how it is read.
#[derive(Clone, Copy)]
pub struct CaptureFile<'a> {
    /// The path; `-` is standard input.
    pub path: &'a str,
    /// A UDP port whose datagrams are read too, beside those of BACnet/IP.
    pub port: Option<u16>,
    /// Whether a hint is printed if the file does not begin like a capture.
    pub reasons: bool,
}

impl Report {
    /// What the command takes, told where it could not read a capture and the system gives no reason.
    fn taken(self) -> Option<&'static str> {
        match self {
            Report::Check { .. }
            | Report::CheckJson
            | Report::CheckLines { .. }
            | Report::CheckLinesJson => None,
            Report::Explain(_) | Report::ExplainJson(_) | Report::ExplainHtml(_) => {
                Some("explain reads only pcap and pcapng")
            }
            Report::Chart(_) => {
                Some("explain reads only pcap and pcapng; with --pairs it draws more than 16 peers")
            }
        }
    }

    /// Prints the report of an input.
    fn print<R: BufRead, O: Write, E: Write>(
        self,
        alloc: Global,
        input: &mut R,
        ports: Ports,
        out: &mut O,
        err: &mut E,
    ) -> Status
        ensures { IsReport self ports.also (R.remaining input.old) (O.contents out.old) (O.contents out.new) result }
    {
        match self {
            Report::Check { in_words } => {
                check_capture_over(alloc, input, ports, in_words, out, err)
            }
            Report::CheckJson => check_json_over(alloc, input, ports, out, err),
            Report::CheckLines { in_words } => {
                check_lines_over(alloc, in_words, true, input, out, err)
            }
            Report::CheckLinesJson => check_json_lines_over(alloc, true, input, out, err),
            Report::Explain(options) => explain_over(alloc, options, input, ports, out, err),
            Report::ExplainJson(options) => {
                explain_json_over(alloc, options, input, ports, out, err)
            }
            Report::ExplainHtml(options) => {
                explain_html_over(alloc, options, input, ports, out, err)
            }
            Report::Chart(options) => chart_over(alloc, options, input, ports, out, err),
        }
    }
}

/// What is told of a file whose first lines, as many as were read at once, are none of a capture.
const NO_CAPTURE: &str =
    "not a capture: expected pcap, pcapng or lines `moment from to hex`; see bac help check";

/// Whether octets are lines, and none of them one of a capture. The last one does not count where its end may be behind the octets.
fn are_no_capture(alloc: Global, octets: &[u8]) -> bool {
    let mut left = octets;
    let mut line = Vec::new(alloc);
    let mut is_none = false;
    for _ in 0..octets.len() {
        let Ok(true) = next_line(&mut left, &mut line) else {
            return is_none;
        };
        if left.is_empty() && octets.last() != Some(&b'\n') {
            return is_none;
        }
        let Ok(None) = read_capture_line(alloc, &line) else {
            return false;
        };
        is_none = true;
    }
    is_none
}

/// Whether an input that is to be checked begins as no capture, as far as its next octets show. It takes none of them.
fn begins_as_none<R: BufRead>(alloc: Global, report: Report, input: &mut R) -> bool
    ensures { Keeps (R.remaining input.old) (R.remaining input.new) }
{
    let Report::Check { .. } = report else {
        return false;
    };
    match input.fill_buf() {
        Ok(octets) if begins_capture(octets) => false,
        Ok(octets) => are_no_capture(alloc, octets),
        // the check meets the fault, or reads on after a signal
        Err(_) => false,
    }
}

/// Tells that a file begins as no capture.
fn refuse_no_capture<E: Write>(path: &str, err: &mut E) -> Status
    ensures { result ≡ status.CommandLine }
{
    // if that fails too, only the status is left
    let _ = writeln!(err, "{path}: {NO_CAPTURE}");
    Status::CommandLine
}

/// Prints a report of a capture.
///
/// If the file cannot be read, prints `cannot read` and the reason on `err`. If a file that is checked does not begin like a capture, prints only that, where
/// reasons are told; the status is then `CommandLine`.
pub fn print_report<F: OpenFiles, O: Write, E: Write>(
    alloc: Global,
    files: &F,
    report: Report,
    capture: &CaptureFile<'_>,
    out: &mut O,
    err: &mut E,
) -> Status
    ensures { IsReportedFile (OnFile F.is_file F.File.remaining) report capture.now.path.now capture.now.port result (O.contents out.old) (O.contents out.new) }
{
    match reader_of(alloc, files, capture.path, err) {
        Ok(mut input) => {
            let ports = Ports { also: capture.port };
            let is_none = begins_as_none(alloc, report, &mut input);
            if is_none && capture.reasons {
                return refuse_no_capture(capture.path, err);
            }
            let status = report.print(alloc, &mut input, ports, out, err);
            print_unfit(status, capture.path, input.get_ref(), report.taken(), err);
            status
        }
        Err(status) => status,
    }
}
