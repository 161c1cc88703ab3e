//! `bac explain --html`: the transactions of a capture file, as a page.
ghost use Rattle.std.specs.Prelude.{◌≡◌, IfOk};
ghost use Rattle.std.specs.Option.{option_map};
ghost use Rattle.bac_explain.specs.Closings.{closed_view};
ghost use Rattle.bac_explain_html.specs.Pages.{IsHearing, IsReportOf};
ghost use Rattle.bac_explain_html.specs.Rows.{IsEntry};
ghost use Rattle.bac_explain_report.specs.AccountViews.{hearing_view};
ghost use Rattle.bac_explain_report.specs.Rest.{IsOptional};

use crate::note::{finding_note, unread_note};
use crate::page::{FRONT, last_part};
use crate::row::entry;
use bac_capture::{Ports, report_over};
use bac_explain::{Closed, Transaction, TransactionKey};
use bac_explain_report::{
    Device, FrameReport, Hearing, ReportForm, ReportOptions, Reporter, Selection, Tally,
};
use bac_text::{CheckError, Status, stopped};
use bac_value::NoMemory;
use std::alloc::Global;
use std::io::{BufRead, Write};

fn optional_entry(alloc: Global, closed: &Option<Closed>) -> Result<Vec<u8>, NoMemory>
    ensures { IfOk result (λ t. IsOptional IsEntry (option_map closed_view closed.now) t.items) }
{
    match closed {
        Some(closed) => entry(alloc, closed.key, &closed.transaction),
        None => Ok(Vec::new(alloc)),
    }
}

fn hearing_part(alloc: Global, frame: u64, hearing: &Hearing) -> Result<Vec<u8>, NoMemory>
    ensures { IfOk result (λ t. IsHearing frame (hearing_view hearing.now) t.items) }
{
    let closed = optional_entry(alloc, &hearing.closed)?;
    let finding = finding_note(alloc, frame, hearing.key, hearing.finding)?;
    let mut text = optional_entry(alloc, &hearing.over)?;
    text.extend_from_slice(closed.as_slice())?;
    text.extend_from_slice(finding.as_bytes())?;
    Ok(text)
}

/// A page of HTML.
#[derive(Drop)]
struct Page;

impl ReportForm for Page {
    ghost use Rattle.bac_explain_html.specs.Pages.{IsFramePart, IsLastPart};
    ghost use Rattle.bac_explain_html.specs.Rows.{IsEntry};
    ghost use Rattle.bac_explain_html.specs.declared.page.TheConstants.{FRONT};
    ghost use Rattle.bac_explain_report.specs.Reported.{Untimed};

    ghost front = { FRONT.now };

    ghost IsOne = { IsEntry };

    ghost IsTold = { Untimed IsFramePart };

    ghost AreLast = { IsLastPart };

    fn front_text(&self) -> &'static str {
        FRONT
    }

    fn transaction_text(
        &self,
        alloc: Global,
        key: TransactionKey,
        transaction: &Transaction,
    ) -> Result<Vec<u8>, NoMemory> {
        entry(alloc, key, transaction)
    }

    fn frame_text(
        &self,
        alloc: Global,
        number: u64,
        _moment: Option<u64>,
        told: &FrameReport,
    ) -> Result<Vec<u8>, NoMemory> {
        match told {
            FrameReport::Nothing => Ok(Vec::new(alloc)),
            FrameReport::Unread(why) => Ok(unread_note(alloc, number, *why)?.into_bytes()),
            FrameReport::Heard(hearing) => hearing_part(alloc, number, hearing),
        }
    }

    fn last_text(
        &self,
        alloc: Global,
        _selection: Selection,
        tally: Tally,
        devices: &[Device],
    ) -> Result<Vec<u8>, NoMemory> {
        Ok(last_part(alloc, tally, devices)?)
    }
}

/// Explains a file of pcap or pcapng as `explain_over` of bac_explain_report does, as one page of HTML: it begins with the page's front; then it prints at the
/// place of each of its records a row, of a transaction with a picture below it, and at the end the counts. What is wrong with a frame stands in the row of its
/// transaction; an answer to no request and a frame that cannot be read have rows of their own.
///
/// The statuses and the messages on `err` are those of `explain_over`; if one is printed, the page may have no end.
pub fn explain_html_over<R: BufRead, O: Write, E: Write>(
    alloc: Global,
    options: ReportOptions,
    input: &mut R,
    ports: Ports,
    out: &mut O,
    err: &mut E,
) -> Status
    ensures { IsReportOf options ports.also (R.remaining input.old) (O.contents out.old) (O.contents out.new) result }
{
    match Reporter::new(alloc, options, Page) {
        Ok(mut report) => report_over(alloc, input, ports, &mut report, out, err),
        Err(_) => stopped(CheckError::Memory, out, err),
    }
}
