//! The report on the transactions of a capture file, in any form.
ghost use Rattle.std.specs.Prelude.{◌≡◌, IfOk, OnOk, Some};
ghost use Rattle.bac_explain.specs.Closings.{closed_view};
ghost use Rattle.bac_explain.specs.KeyViews.{key_view};
ghost use Rattle.bac_explain.specs.Tables.{awaited};
ghost use Rattle.bac_explain_report.specs.AccountViews.{account_view, report_view};
ghost use Rattle.bac_explain_report.specs.Accounts.{fresh};
ghost use Rattle.bac_explain_report.specs.Rest.{ArePrinted, IsOptional, IsStep};
ghost use Rattle.bac_explain_report.specs.Selections.{shown};
ghost use Rattle.bac_explain_report.specs.Counting.{summed};
ghost use Rattle.bac_explain_report.specs.Reported.{IsAnswered, IsAnsweredAt, IsAnsweredIn, IsFrameText};
ghost use Rattle.bac_text.specs.Texts.{AppendsText};
ghost use Rattle.std.specs.Io.KnownBytes.{Appends};

use crate::account::Account;
use crate::devices::count_closed;
use crate::form::ReportForm;
use crate::frame_report::{FrameReport, Hearing};
use crate::selection::{ReportOptions, Selection};
use bac_capture::{FileFault, FileReport, Frame, Ports, print_text};
use bac_explain::Closed;
use bac_text::{CheckError, Status, complain};
use bac_value::NoMemory;
use std::alloc::{AllocError, Global};
use std::io;
use std::io::{BufRead, ErrorKind, Write};

/// A report on the transactions of a capture, in a form.
#[derive(Drop)]
pub struct Reporter<F> {
    /// What is printed, the open transactions, and the counts.
    pub account: Account,
    /// How it is printed.
    pub form: F,
}

impl<F: ReportForm + Drop> Reporter<F> {
    /// The report before the first frame. An Err is out of memory.
    pub fn new(alloc: Global, options: ReportOptions, form: F) -> Result<Reporter<F>, AllocError>
        ensures { IfOk result (λ r. account_view r.account ≡ fresh options) }
    {
        let account = Account::new(alloc, options)?;
        Ok(Reporter { account, form })
    }
}

/// The text of the transaction of an APDU, if it is told now.
fn told_text<F: ReportForm>(
    form: &F,
    account: &Account,
    now: u64,
    hearing: &Hearing,
) -> Result<Vec<u8>, NoMemory>
    ensures { IfOk result (λ t. IsAnsweredIn F.IsOne hearing.now.answered (key_view hearing.now.key)
        (awaited now (key_view hearing.now.key) (account_view account.now).slots) t.items) }
{
    if !hearing.answered {
        return Ok(Vec::new(account.alloc));
    }
    match account.explainer.awaited(now, &hearing.key) {
        Some(transaction) => form.transaction_text(account.alloc, hearing.key, transaction),
        None => Ok(Vec::new(account.alloc)),
    }
}

/// The text of the transaction of a frame of that moment, if it is told now.
fn answered_at<F: ReportForm>(
    form: &F,
    account: &Account,
    now: u64,
    told: &FrameReport,
) -> Result<Vec<u8>, NoMemory>
    ensures { IfOk result (λ t. IsAnsweredAt F.IsOne now (report_view told.now) (account_view account.now).slots t.items) }
{
    match told {
        FrameReport::Heard(hearing) => told_text(form, account, now, hearing),
        FrameReport::Nothing | FrameReport::Unread(_) => Ok(Vec::new(account.alloc)),
    }
}

/// The text of the transaction of a frame, if it is told now.
fn answered_text<F: ReportForm>(
    form: &F,
    account: &Account,
    moment: Option<u64>,
    told: &FrameReport,
) -> Result<Vec<u8>, NoMemory>
    ensures { IfOk result (λ t. IsAnswered F.IsOne moment (report_view told.now) (account_view account.now).slots t.items) }
{
    match moment {
        Some(now) => answered_at(form, account, now, told),
        None => Ok(Vec::new(account.alloc)),
    }
}

/// The text of the report on the last frame, with its moment, and then of its transaction, if it is told now.
fn frame_text<F: ReportForm>(
    form: &F,
    account: &Account,
    moment: Option<u64>,
    told: &FrameReport,
) -> Result<Vec<u8>, NoMemory>
    ensures { IfOk result (λ t. IsFrameText F.IsTold F.IsOne moment (report_view told.now) (account_view account.now) t.items) }
{
    let back = answered_text(form, account, moment, told)?;
    let mut text = form.frame_text(account.alloc, account.tally.frames, moment, told)?;
    text.extend_from_slice(back.as_slice())?;
    Ok(text)
}

/// Prints a text; where it is to go out at once, with a flush.
fn print_flushed<W: Write>(text: &[u8], flush: bool, out: &mut W) -> Result<(), CheckError>
    ensures { OnOk result (Appends (W.contents out.old) (W.contents out.new) text.now) }
{
    print_text(text, out)?;
    if !flush || text.is_empty() {
        return Ok(());
    }
    match out.flush() {
        Ok(()) => Ok(()),
        Err(error) => Err(CheckError::Output(error)),
    }
}

/// Prints the report on the last frame, with its moment.
fn print_report<F: ReportForm, W: Write>(
    form: &F,
    account: &Account,
    moment: Option<u64>,
    told: &FrameReport,
    out: &mut W,
) -> Result<(), CheckError>
    ensures { OnOk result (AppendsText (W.contents out.old) (W.contents out.new) (IsFrameText F.IsTold F.IsOne moment (report_view told.now) (account_view account.now))) }
{
    match frame_text(form, account, moment, told) {
        Ok(text) => print_flushed(text.as_slice(), account.options.flush, out),
        Err(_) => Err(CheckError::Memory),
    }
}

/// The text of a closed transaction, if it is printed then.
fn shown_text<F: ReportForm>(
    form: &F,
    alloc: Global,
    selection: Selection,
    closed: &Closed,
) -> Result<Vec<u8>, NoMemory>
    ensures { IfOk result (λ t. IsOptional F.IsOne (shown selection (Some (closed_view closed.now))) t.items) }
{
    let transaction = &closed.transaction;
    if !transaction.told && selection.passes(closed.key, transaction) {
        form.transaction_text(alloc, closed.key, transaction)
    } else {
        Ok(Vec::new(alloc))
    }
}

/// Counts a closed transaction. Returns its text, if it is printed then.
fn close<F: ReportForm>(
    form: &F,
    account: &mut Account,
    closed: &Closed,
) -> Result<Vec<u8>, NoMemory>
    ensures text { IfOk result (λ t. IsOptional F.IsOne (shown account.old.options.selection (Some (closed_view closed.now))) t.items) }
    ensures next { OnOk result (account_view account.new ≡ record (account_view account.old) { sums = summed account.old.options.selection (closed_view closed.now) (account_view account.old).sums }) }
{
    let selection = account.options.selection;
    count_closed(&mut account.devices, closed)?;
    account.tally = account.tally.with_block(selection, closed);
    shown_text(form, account.alloc, selection, closed)
}

/// Prints the open transaction that began first, if it passes and was not told, and closes it. Returns false if none is open.
fn print_next<F: ReportForm, W: Write>(
    form: &F,
    account: &mut Account,
    out: &mut W,
) -> Result<bool, CheckError>
    ensures { IfOk result (IsStep F.IsOne (account_view account.old) (account_view account.new) (W.contents out.old) (W.contents out.new)) }
{
    let Some(closed) = account.explainer.pop() else {
        return Ok(false);
    };
    match close(form, account, &closed) {
        Ok(text) => {
            print_text(text.as_slice(), out)?;
            Ok(true)
        }
        Err(_) => Err(CheckError::Memory),
    }
}

/// Prints the transactions that are open, as far as they pass, in the order in which they began.
fn print_rest<F: ReportForm, W: Write>(
    form: &F,
    account: &mut Account,
    out: &mut W,
) -> Result<(), CheckError>
    ensures { OnOk result (ArePrinted F.IsOne (account_view account.old) (account_view account.new).sums (W.contents out.old) (W.contents out.new)) }
{
    for _ in 0..u64::MAX {
        if !print_next(form, account, out)? {
            return Ok(());
        }
    }
    Err(CheckError::Input(io::Error::from(ErrorKind::TimedOut)))
}

/// Prints what comes last.
fn print_last<F: ReportForm, W: Write>(
    form: &F,
    account: &Account,
    selection: Selection,
    out: &mut W,
) -> Result<(), CheckError>
    ensures { OnOk result (AppendsText (W.contents out.old) (W.contents out.new)
        (F.AreLast selection account.now.tally (account_view account.now).sums.devices)) }
{
    let Ok(text) = form.last_text(account.alloc, selection, account.tally, &account.devices) else {
        return Err(CheckError::Memory);
    };
    print_flushed(text.as_slice(), true, out)
}

impl<W: Write, F: ReportForm + Drop> FileReport<W> for Reporter<F> {
    ghost use Rattle.bac_explain_report.specs.Accounts.{Account as Plain};
    ghost use Rattle.bac_explain_report.specs.AccountViews.{account_view};
    ghost use Rattle.bac_explain_report.specs.Reported.{BreaksFile, EndsFile, SeesFrame};
    ghost use Rattle.bac_capture.specs.FileReports.{no_report};

    ghost State = { Plain };

    ghost state = { λ r. account_view r.account };

    ghost Visits = { SeesFrame F.IsTold F.IsOne };

    ghost Breaks = { BreaksFile F.IsTold F.IsOne };

    ghost heading = { λ _. F.front };

    ghost Ends = { EndsFile F.IsOne F.AreLast };

    ghost Others = { λ _. no_report };

    fn visit_frame(
        &mut self,
        frame: Frame<'_>,
        ports: Ports,
        out: &mut W,
    ) -> Result<(), CheckError> {
        match self.account.hear_frame(frame, ports) {
            Ok(told) => print_report(&self.form, &self.account, frame.moment, &told, out),
            Err(_) => Err(CheckError::Memory),
        }
    }

    fn break_off(&mut self, fault: FileFault, out: &mut W) -> Result<(), CheckError> {
        let told = self.account.break_off(fault);
        print_report(&self.form, &self.account, None, &told, out)
    }

    fn heading_text(&self) -> &'static str {
        self.form.front_text()
    }

    fn end(&mut self, out: &mut W) -> Result<Status, CheckError> {
        let options = self.account.options;
        print_rest(&self.form, &mut self.account, out)?;
        print_last(&self.form, &self.account, options.selection, out)?;
        Ok(self.account.tally.status(options.strict))
    }

    fn report_other<R: BufRead, E: Write>(
        &mut self,
        _alloc: Global,
        _input: &mut R,
        _out: &mut W,
        err: &mut E,
    ) -> Status {
        complain(err, "no capture file", Status::CommandLine)
    }
}
