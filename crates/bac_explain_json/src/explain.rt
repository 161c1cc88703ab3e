//! `bac explain --json`: the transactions of a capture file, as objects.
ghost use Rattle.std.specs.Prelude.{◌≡◌, IfOk};
ghost use Rattle.std.specs.Option.{option_map};
ghost use Rattle.bac_explain.specs.Closings.{closed_view};
ghost use Rattle.bac_explain_json.specs.Lines.{IsHearing, IsReportOf, IsTransactionLine};
ghost use Rattle.bac_explain_report.specs.AccountViews.{hearing_view};
ghost use Rattle.bac_explain_report.specs.Rest.{IsOptional};

use crate::findings::{finding_line, unread_line};
use crate::summary::summary_line;
use crate::transaction::transaction_line;
use bac_capture::{Ports, report_over};
use bac_explain::{Closed, Transaction, TransactionKey};
use bac_explain_report::{
    Device, FrameReport, Hearing, ReportForm, ReportOptions, Reporter, Selection, Tally,
};
use bac_text::{CheckError, Status, stopped};
use bac_value::NoMemory;
use std::alloc::Global;
use std::io::{BufRead, Write};

fn optional_line(alloc: Global, closed: &Option<Closed>) -> Result<Vec<u8>, NoMemory>
    ensures { IfOk result (λ t. IsOptional IsTransactionLine (option_map closed_view closed.now) t.items) }
{
    match closed {
        Some(closed) => transaction_line(alloc, closed.key, &closed.transaction),
        None => Ok(Vec::new(alloc)),
    }
}

fn hearing_lines(
    alloc: Global,
    frame: u64,
    moment: Option<u64>,
    hearing: &Hearing,
) -> Result<Vec<u8>, NoMemory>
    ensures { IfOk result (λ t. IsHearing frame moment (hearing_view hearing.now) t.items) }
{
    let closed = optional_line(alloc, &hearing.closed)?;
    let finding = finding_line(alloc, frame, moment, hearing.key, hearing.finding)?;
    let mut text = optional_line(alloc, &hearing.over)?;
    text.extend_from_slice(closed.as_slice())?;
    text.extend_from_slice(finding.as_slice())?;
    Ok(text)
}

/// Objects of JSON, one a line.
#[derive(Drop)]
struct JsonLines;

impl ReportForm for JsonLines {
    ghost use Rattle.bac_explain_json.specs.Lines.{IsFrameLine, IsSummaryLine, IsTransactionLine};
    ghost use Rattle.std.specs.Prelude.{[]};

    ghost front = { [] };

    ghost IsOne = { IsTransactionLine };

    ghost IsTold = { IsFrameLine };

    ghost AreLast = { IsSummaryLine };

    fn front_text(&self) -> &'static str {
        ""
    }

    fn transaction_text(
        &self,
        alloc: Global,
        key: TransactionKey,
        transaction: &Transaction,
    ) -> Result<Vec<u8>, NoMemory> {
        transaction_line(alloc, key, transaction)
    }

    fn frame_text(
        &self,
        alloc: Global,
        number: u64,
        moment: Option<u64>,
        told: &FrameReport,
    ) -> Result<Vec<u8>, NoMemory> {
        match told {
            FrameReport::Nothing => Ok(Vec::new(alloc)),
            FrameReport::Unread(why) => Ok(unread_line(alloc, number, moment, *why)?),
            FrameReport::Heard(hearing) => hearing_lines(alloc, number, moment, hearing),
        }
    }

    fn last_text(
        &self,
        alloc: Global,
        _selection: Selection,
        tally: Tally,
        devices: &[Device],
    ) -> Result<Vec<u8>, NoMemory> {
        Ok(summary_line(alloc, tally, devices)?)
    }
}

/// Explains a file of pcap or pcapng as `explain_over` of bac_explain_report does: prints an object on a line for each record of its lines, at the same place:
/// a transaction, what is wrong with a frame, a frame that cannot be read, and at the end the counts, also those of each server. A transaction that is printed
/// early, and what follows of it, has no object of its own.
///
/// The statuses and the messages on `err` are those of `explain_over`.
pub fn explain_json_over<R: BufRead, O: Write, E: Write>(
    alloc: Global,
    options: ReportOptions,
    input: &mut R,
    ports: Ports,
    out: &mut O,
    err: &mut E,
) -> Status
    ensures { IsReportOf options ports.also (R.remaining input.old) (O.contents out.old) (O.contents out.new) result }
{
    match Reporter::new(alloc, options, JsonLines) {
        Ok(mut report) => report_over(alloc, input, ports, &mut report, out, err),
        Err(_) => stopped(CheckError::Memory, out, err),
    }
}
