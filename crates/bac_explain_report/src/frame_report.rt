//! The report on a frame.
ghost use Rattle.std.specs.Prelude.{◌≡◌, IfOk};
ghost use Rattle.std.specs.Option.{option_map};
ghost use Rattle.bac_explain.specs.Closings.{closed_view};
ghost use Rattle.bac_explain.specs.KeyViews.{key_view};
ghost use Rattle.bac_explain_report.specs.AccountViews.{hearing_view, report_view};
ghost use Rattle.bac_explain_report.specs.FrameReports.{again_line, finding_line, unread_line, IsHearing, IsFrameReport};
ghost use Rattle.bac_explain_report.specs.Rest.{IsOptional};

use crate::block::BlockForm;
use crate::keys::key_text;
use crate::unread::Unread;
use bac_explain::{Closed, Finding, TransactionKey};
use bac_value::NoMemory;
use std::alloc::{AllocError, Global};

/// The report on an APDU of a transaction, as far as it is printed.
#[derive(Debug, Drop)]
pub struct Hearing {
    /// Its transaction.
    pub key: TransactionKey,
    /// A transaction that is over by then, if any.
    pub over: Option<Closed>,
    /// The transaction that it closes, if any.
    pub closed: Option<Closed>,
    /// What is wrong with it, if anything.
    pub finding: Option<Finding>,
    /// Whether it is a request or a reply of a transaction that was told before, with nothing wrong.
    pub again: bool,
    /// Whether its transaction is told now.
    pub answered: bool,
}

/// The report on a frame.
#[derive(Debug, Drop)]
pub enum FrameReport {
    Nothing,
    /// It cannot be read.
    Unread(Unread),
    /// It carries an APDU of a transaction.
    Heard(Hearing),
}

fn unread_line(alloc: Global, number: u64, why: Unread) -> Result<Vec<u8>, AllocError>
    ensures { IfOk result (λ t. t.items ≡ unread_line number why) }
{
    let text = format!(in alloc; "frame {number}: {why}\n")?;
    Ok(text.into_bytes())
}

/// The line of an APDU that comes after its transaction was told.
fn again_line(
    alloc: Global,
    number: u64,
    key: TransactionKey,
    again: bool,
) -> Result<Vec<u8>, AllocError>
    ensures { IfOk result (λ t. t.items ≡ again_line number (key_view key) again) }
{
    if !again {
        return Ok(Vec::new(alloc));
    }
    let key = key_text(alloc, key)?;
    let text = format!(in alloc; "frame {number}: again, {key}\n")?;
    Ok(text.into_bytes())
}

/// The line of a finding: the number of the frame, what is wrong, and the transaction.
fn finding_line(
    alloc: Global,
    number: u64,
    key: TransactionKey,
    finding: Option<Finding>,
) -> Result<Vec<u8>, AllocError>
    ensures { IfOk result (λ t. t.items ≡ finding_line number (key_view key) finding) }
{
    let Some(finding) = finding else {
        return Ok(Vec::new(alloc));
    };
    let key = key_text(alloc, key)?;
    let text = format!(in alloc; "frame {number}: {finding}, {key}\n")?;
    Ok(text.into_bytes())
}

/// The text of a transaction in a form, if there is one.
fn optional_text<B: BlockForm>(
    form: &B,
    alloc: Global,
    closed: &Option<Closed>,
) -> Result<Vec<u8>, NoMemory>
    ensures { IfOk result (λ t. IsOptional B.IsOne (option_map closed_view closed.now) t.items) }
{
    match closed {
        Some(closed) => form.block(alloc, closed.key, &closed.transaction),
        None => Ok(Vec::new(alloc)),
    }
}

fn hearing_text<B: BlockForm>(
    form: &B,
    alloc: Global,
    number: u64,
    hearing: &Hearing,
) -> Result<Vec<u8>, NoMemory>
    ensures { IfOk result (λ t. IsHearing B.IsOne number (hearing_view hearing.now) t.items) }
{
    let closed = optional_text(form, alloc, &hearing.closed)?;
    let finding = finding_line(alloc, number, hearing.key, hearing.finding)?;
    let again = again_line(alloc, number, hearing.key, hearing.again)?;
    let mut text = optional_text(form, alloc, &hearing.over)?;
    text.extend_from_slice(closed.as_slice())?;
    text.extend_from_slice(finding.as_slice())?;
    text.extend_from_slice(again.as_slice())?;
    Ok(text)
}

/// The text for the frame with this number, from 1, with transactions in a form.
pub(crate) fn report_text<B: BlockForm>(
    form: &B,
    alloc: Global,
    number: u64,
    told: &FrameReport,
) -> Result<Vec<u8>, NoMemory>
    ensures { IfOk result (λ t. IsFrameReport B.IsOne number (report_view told.now) t.items) }
{
    match told {
        FrameReport::Nothing => Ok(Vec::new(alloc)),
        FrameReport::Unread(why) => Ok(unread_line(alloc, number, *why)?),
        FrameReport::Heard(hearing) => hearing_text(form, alloc, number, hearing),
    }
}
