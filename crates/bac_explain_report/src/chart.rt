//! `bac explain --chart` and `--mermaid`: a sequence chart of a capture file.
ghost use Rattle.std.specs.Prelude.{◌≡◌};
ghost use Rattle.bac_explain_report.specs.Charted.{status_of, ArePairsOf, IsChartOf, IsReportOf};
ghost use Rattle.bac_text.specs.Statuses.{IsStop};

use crate::pair_sketch::PairSketch;
use crate::sketch::{Sketch, front_text};
use bac_capture::{FileFault, FileReport, Frame, Ports, print_text, report_over};
use bac_chart::ChartFormat;
use bac_text::{CheckError, Status, complain, output_failed, stopped};
use std::alloc::Global;
use std::io::{BufRead, Write};

/// How the datagrams of a capture are drawn.
#[derive(Clone, Copy, Debug)]
pub struct ChartOptions {
    /// For a terminal, or as a diagram of Mermaid.
    pub form: ChartFormat,
    /// Whether the arrow of an answer says its values, if it is whole in one APDU and can be read.
    pub values: bool,
    /// Whether each pair of a client and a server has a chart of its own.
    pub pairs: bool,
}

/// The status of a chart that was drawn to the end of its file: whether every frame was read.
fn status_of(is_whole: bool) -> Status
    ensures { result ≡ status_of is_whole }
{
    if is_whole {
        Status::Done
    } else {
        Status::Faulty
    }
}

/// Prints that there are too many peers for a chart, and returns the status.
fn crowded<O: Write, E: Write>(out: &mut O, err: &mut E) -> Status
    ensures { IsStop result }
{
    match out.flush() {
        Ok(()) => complain(err, "more than 16 peers", Status::CommandLine),
        Err(error) => output_failed(err, &error),
    }
}

impl<W: Write> FileReport<W> for Sketch {
    ghost use Rattle.bac_explain_report.specs.Sketches.{BreaksFile, SeesFrame, Sketch as Plain};
    ghost use Rattle.bac_explain_report.specs.SketchViews.{sketch_view};
    ghost use Rattle.bac_capture.specs.FileReports.{no_report};
    ghost use Rattle.bac_explain_report.specs.Charted.{heading, EndsFile};

    ghost State = { Plain };

    ghost state = { sketch_view };

    ghost Visits = { SeesFrame };

    ghost Breaks = { BreaksFile };

    ghost heading = { heading };

    ghost Ends = { EndsFile };

    ghost Others = { λ _. no_report };

    fn visit_frame(
        &mut self,
        frame: Frame<'_>,
        ports: Ports,
        out: &mut W,
    ) -> Result<(), CheckError> {
        match self.see_frame(frame, ports) {
            Ok(text) => print_text(&text, out),
            Err(error) => Err(error),
        }
    }

    fn break_off(&mut self, fault: FileFault, out: &mut W) -> Result<(), CheckError> {
        match self.break_off_at(fault) {
            Ok(text) => print_text(&text, out),
            Err(error) => Err(error),
        }
    }

    fn heading_text(&self) -> &'static str {
        front_text(self.form)
    }

    fn end(&mut self, out: &mut W) -> Result<Status, CheckError> {
        match out.flush() {
            Ok(()) => Ok(status_of(self.is_whole)),
            Err(error) => Err(CheckError::Output(error)),
        }
    }

    fn report_other<R: BufRead, E: Write>(
        &mut self,
        _alloc: Global,
        _input: &mut R,
        _out: &mut W,
        err: &mut E,
    ) -> Status {
        complain(err, "no capture file", Status::CommandLine)
    }

    fn stop<E: Write>(&self, error: CheckError, out: &mut W, err: &mut E) -> Status {
        if self.is_crowded {
            crowded(out, err)
        } else {
            stopped(error, out, err)
        }
    }
}

impl<W: Write> FileReport<W> for PairSketch {
    ghost use Rattle.bac_explain_report.specs.Pairs.{BreaksPairs, Pairs, SeesPair};
    ghost use Rattle.bac_explain_report.specs.PairViews.{pairs_view};
    ghost use Rattle.bac_capture.specs.FileReports.{no_heading, no_report};
    ghost use Rattle.bac_explain_report.specs.Charted.{EndsPairs};

    ghost State = { Pairs };

    ghost state = { pairs_view };

    ghost Visits = { SeesPair };

    ghost Breaks = { BreaksPairs };

    ghost heading = { no_heading };

    ghost Ends = { EndsPairs };

    ghost Others = { λ _. no_report };

    fn visit_frame(
        &mut self,
        frame: Frame<'_>,
        ports: Ports,
        out: &mut W,
    ) -> Result<(), CheckError> {
        match self.see_frame(frame, ports) {
            Ok(text) => print_text(&text, out),
            Err(error) => Err(error),
        }
    }

    fn break_off(&mut self, fault: FileFault, out: &mut W) -> Result<(), CheckError> {
        match self.break_off_at(fault) {
            Ok(text) => print_text(&text, out),
            Err(error) => Err(error),
        }
    }

    fn heading_text(&self) -> &'static str {
        ""
    }

    fn end(&mut self, out: &mut W) -> Result<Status, CheckError> {
        self.print_charts(out)?;
        match out.flush() {
            Ok(()) => Ok(status_of(self.sketch.is_whole)),
            Err(error) => Err(CheckError::Output(error)),
        }
    }

    fn report_other<R: BufRead, E: Write>(
        &mut self,
        _alloc: Global,
        _input: &mut R,
        _out: &mut W,
        err: &mut E,
    ) -> Status {
        complain(err, "no capture file", Status::CommandLine)
    }
}

/// Draws a file in one chart.
fn one_chart_over<R: BufRead, O: Write, E: Write>(
    alloc: Global,
    chart: ChartOptions,
    input: &mut R,
    ports: Ports,
    out: &mut O,
    err: &mut E,
) -> Status
    ensures { IsChartOf chart.form chart.values ports.also (R.remaining input.old) (O.contents out.old) (O.contents out.new) result }
{
    let mut sketch = Sketch::new(alloc, chart.form, chart.values);
    report_over(alloc, input, ports, &mut sketch, out, err)
}

/// Draws a file in a chart for each pair.
fn pair_charts_over<R: BufRead, O: Write, E: Write>(
    alloc: Global,
    chart: ChartOptions,
    input: &mut R,
    ports: Ports,
    out: &mut O,
    err: &mut E,
) -> Status
    ensures { ArePairsOf chart.form chart.values ports.also (R.remaining input.old) (O.contents out.old) (O.contents out.new) result }
{
    let mut sketch = PairSketch::new(alloc, chart.form, chart.values);
    report_over(alloc, input, ports, &mut sketch, out, err)
}

/// Draws a file of pcap or pcapng: each datagram of a transaction as an arrow between the columns of its ends, with the moment in
/// milliseconds since the first of them, the number of its frame from 1, and a short description. The arrow is marked `again` if the
/// same octets went the same way at most 65,000 ms before, among the last 255 datagrams.
///
/// A column begins with the first datagram of its peer, whose address is printed there. A frame that cannot be read is printed with
/// its number; the status is then `Faulty`. Prints `more than 16 peers` on `err` if there are so many, `no capture file` if the first
/// four octets are of neither format, `cannot read` if the input cannot be read, and `no memory` if an allocation fails. Returns
/// `Output` if `out` cannot be written, even if the input fails too. Memory does not grow with the file, except for the datagrams that
/// are compared.
///
/// With `pairs` there is a chart for each pair of a client and a server, of any number, below the lines of frames that cannot be read: the client stands on the
/// left. Its first line names both; in Mermaid that is a heading of Markdown, and the chart is a block of it. The rows are kept up to the end of the file, and take
/// some 150 octets a datagram. With `values` an answer that is whole in one APDU and can be read has its values, as in `explain_over`.
pub fn chart_over<R: BufRead, O: Write, E: Write>(
    alloc: Global,
    chart: ChartOptions,
    input: &mut R,
    ports: Ports,
    out: &mut O,
    err: &mut E,
) -> Status
    ensures { IsReportOf chart ports.also (R.remaining input.old) (O.contents out.old) (O.contents out.new) result }
{
    if chart.pairs {
        pair_charts_over(alloc, chart, input, ports, out, err)
    } else {
        one_chart_over(alloc, chart, input, ports, out, err)
    }
}
