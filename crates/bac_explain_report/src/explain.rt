//! `bac explain`: the transactions of a capture file, in words.
ghost use Rattle.bac_explain_report.specs.Explained.{IsReportOf, IsReportWith};
ghost use Rattle.bac_explain_report.specs.Blocks.{IsBlock, IsFramedBlock};

use crate::block::{BlockForm, Framed, Plain};
use crate::devices::Device;
use crate::form::ReportForm;
use crate::frame_report::{FrameReport, report_text};
use crate::reporter::Reporter;
use crate::selection::{ReportOptions, Selection};
use crate::summary::last_lines;
use crate::tally::Tally;
use bac_capture::{Ports, report_over};
use bac_explain::{Transaction, TransactionKey};
use bac_text::{CheckError, Status, stopped};
use bac_value::NoMemory;
use std::alloc::Global;
use std::io::{BufRead, Write};

/// Lines of words, with those of a transaction in a form.
#[derive(Drop)]
struct Lines<B> {
    block: B,
}

impl<B: BlockForm> ReportForm for Lines<B> {
    ghost use Rattle.bac_explain_report.specs.Explained.{AreLastLines};
    ghost use Rattle.bac_explain_report.specs.FrameReports.{IsFrameReport};
    ghost use Rattle.bac_explain_report.specs.Reported.{Untimed};
    ghost use Rattle.std.specs.Prelude.{[]};

    ghost front = { [] };

    ghost IsOne = { B.IsOne };

    ghost IsTold = { Untimed (IsFrameReport B.IsOne) };

    ghost AreLast = { AreLastLines };

    fn front_text(&self) -> &'static str {
        ""
    }

    fn transaction_text(
        &self,
        alloc: Global,
        key: TransactionKey,
        transaction: &Transaction,
    ) -> Result<Vec<u8>, NoMemory> {
        self.block.block(alloc, key, transaction)
    }

    fn frame_text(
        &self,
        alloc: Global,
        number: u64,
        _moment: Option<u64>,
        told: &FrameReport,
    ) -> Result<Vec<u8>, NoMemory> {
        report_text(&self.block, alloc, number, told)
    }

    fn last_text(
        &self,
        alloc: Global,
        selection: Selection,
        tally: Tally,
        devices: &[Device],
    ) -> Result<Vec<u8>, NoMemory> {
        Ok(last_lines(alloc, selection, tally, devices)?)
    }
}

/// Explains a file without lines of frames.
fn explain_lines_over<R: BufRead, O: Write, E: Write>(
    alloc: Global,
    options: ReportOptions,
    input: &mut R,
    ports: Ports,
    out: &mut O,
    err: &mut E,
) -> Status
    ensures { IsReportWith IsBlock options ports.also (R.remaining input.old) (O.contents out.old) (O.contents out.new) result }
{
    match Reporter::new(alloc, options, Lines { block: Plain }) {
        Ok(mut report) => report_over(alloc, input, ports, &mut report, out, err),
        Err(_) => stopped(CheckError::Memory, out, err),
    }
}

/// Explains a file with lines of frames.
fn explain_frames_over<R: BufRead, O: Write, E: Write>(
    alloc: Global,
    options: ReportOptions,
    input: &mut R,
    ports: Ports,
    out: &mut O,
    err: &mut E,
) -> Status
    ensures { IsReportWith IsFramedBlock options ports.also (R.remaining input.old) (O.contents out.old) (O.contents out.new) result }
{
    match Reporter::new(alloc, options, Lines { block: Framed }) {
        Ok(mut report) => report_over(alloc, input, ports, &mut report, out, err),
        Err(_) => stopped(CheckError::Memory, out, err),
    }
}

/// Explains a file of pcap or pcapng: prints its transactions, and what was wrong with their datagrams.
///
/// A fault is printed when its frame is read, with the number of the frame from 1 and the transaction; so is a frame that cannot be
/// read. With `early` a transaction is printed as soon as it is over, if it passes the selection then, and each later frame of its request or reply has a line
/// of its own. Otherwise it is printed when it is closed, 65,000 ms after its request, or gives way to another one, if it passes then.
/// A fault is printed if its transaction passes as it stands then; one of no transaction if its peers are selected, and none of
/// `unanswered`, `errors`, `repeated` and `slower` is. At the end of the file the transactions that are still open are printed if they pass and were not, then
/// the counts of each server, if there are several, then how many were printed, if there is a filter, and then how many there were, how they ended, the slowest
/// reply in milliseconds, and how many findings, frames and unread frames there were, printed or not. A transaction begins with the moment of its request; with
/// `frames` it has a line with the numbers of its frames from 1. Returns `Faulty` if there is a finding or an unread frame; if it
/// is strict, if there is an unread frame, a printed transaction that is unanswered or has a finding, or a printed finding of no
/// transaction. Prints `no capture file` on `err` if the first four octets are of neither format, `cannot read` if the input cannot be read, and
/// `no memory` if an allocation fails. Returns `Output` if `out` cannot be written, even if the input fails too. Memory does not
/// grow with the file, except for at most 16,384 transactions, the numbers of their frames, and the counts of at most 4,096 servers.
pub fn explain_over<R: BufRead, O: Write, E: Write>(
    alloc: Global,
    options: ReportOptions,
    input: &mut R,
    ports: Ports,
    out: &mut O,
    err: &mut E,
) -> Status
    ensures { IsReportOf options ports.also (R.remaining input.old) (O.contents out.old) (O.contents out.new) result }
{
    if options.frames {
        explain_frames_over(alloc, options, input, ports, out, err)
    } else {
        explain_lines_over(alloc, options, input, ports, out, err)
    }
}
