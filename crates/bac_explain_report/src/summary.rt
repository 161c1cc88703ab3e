//! The summary at the end.
ghost use Rattle.std.specs.Prelude.{◌≡◌, ◌≤◌, IfOk, length, map, string_bytes};
ghost use Rattle.bac_explain_report.specs.DeviceViews.{device_view};
ghost use Rattle.bac_explain_report.specs.Summaries.{device_line, device_lines, devices_text, endings_text, last_lines, shown_line, slowest_text, summary_text, totals_text};

use crate::devices::Device;
use crate::selection::Selection;
use crate::tally::Tally;
use crate::totals::Totals;
use bac_text::peer_text;
use std::alloc::{AllocError, Global};

/// The delay of the slowest reply, with its unit; `-` if there is none.
fn slowest_text(alloc: Global, slowest: Option<u64>) -> Result<String, AllocError>
    ensures { IfOk result (λ t. string_bytes t ≡ slowest_text slowest) }
{
    match slowest {
        Some(slowest) => format!(in alloc; "{slowest}ms"),
        None => String::from_str(alloc, "-"),
    }
}

/// How many transactions there are, and how they ended.
fn endings_text(alloc: Global, totals: Totals) -> Result<String, AllocError>
    ensures { IfOk result (λ t. string_bytes t ≡ endings_text totals) }
{
    let all = totals.transactions;
    let answered = totals.answered;
    let errors = totals.errors;
    let rejected = totals.rejected;
    let aborted = totals.aborted;
    let unanswered = totals.unanswered;
    format!(in alloc;
        "transactions={all} answered={answered} errors={errors} rejected={rejected} aborted={aborted} unanswered={unanswered}"
    )
}

/// The same, and the slowest reply.
fn totals_text(alloc: Global, totals: Totals) -> Result<String, AllocError>
    ensures { IfOk result (λ t. string_bytes t ≡ totals_text totals) }
{
    let endings = endings_text(alloc, totals)?;
    let slowest = slowest_text(alloc, totals.slowest)?;
    format!(in alloc; "{endings} slowest={slowest}")
}

/// The line of a server.
fn device_line(alloc: Global, device: &Device) -> Result<String, AllocError>
    ensures { IfOk result (λ t. string_bytes t ≡ device_line (device_view device.now)) }
{
    let server = peer_text(alloc, device.server)?;
    let totals = totals_text(alloc, device.totals)?;
    format!(in alloc; "{server} {totals}\n")
}

/// The lines of servers.
fn device_lines(alloc: Global, devices: &[Device]) -> Result<Vec<u8>, AllocError>
    ensures { IfOk result (λ t. t.items ≡ device_lines (map device_view devices.now)) }
{
    let mut text = Vec::new(alloc);
    for device in devices {
        let line = device_line(alloc, device)?;
        text.extend_from_slice(line.as_bytes())?;
    }
    Ok(text)
}

/// The lines of the servers, if there are several.
fn devices_text(alloc: Global, devices: &[Device]) -> Result<Vec<u8>, AllocError>
    ensures { IfOk result (λ t. t.items ≡ devices_text (map device_view devices.now)) }
{
    if devices.len() <= 1 {
        return Ok(Vec::new(alloc));
    }
    device_lines(alloc, devices)
}

/// The summary: how many transactions there are and how they ended, the slowest reply, and the numbers of findings, frames and unread frames.
fn summary_text(alloc: Global, tally: Tally) -> Result<String, AllocError>
    ensures { IfOk result (λ t. string_bytes t ≡ summary_text tally) }
{
    let totals = totals_text(alloc, tally.totals)?;
    let findings = tally.findings;
    let frames = tally.frames;
    let unread = tally.unread;
    format!(in alloc; "{totals} findings={findings} frames={frames} unread={unread}\n")
}

/// How many of the transactions were printed, where a filter is given.
fn shown_line(alloc: Global, selection: Selection, tally: Tally) -> Result<String, AllocError>
    ensures { IfOk result (λ t. string_bytes t ≡ shown_line selection tally) }
{
    if !selection.is_narrow() {
        return Ok(String::new(alloc));
    }
    let shown = tally.shown;
    let all = tally.totals.transactions;
    format!(in alloc; "shown={shown} of {all}\n")
}

/// The last lines: the servers, if there are several, how many transactions were printed, where a filter is given, and the summary.
pub(crate) fn last_lines(
    alloc: Global,
    selection: Selection,
    tally: Tally,
    devices: &[Device],
) -> Result<Vec<u8>, AllocError>
    ensures { IfOk result (λ t. t.items ≡ last_lines selection tally (map device_view devices.now)) }
{
    let mut text = devices_text(alloc, devices)?;
    let shown = shown_line(alloc, selection, tally)?;
    let summary = summary_text(alloc, tally)?;
    text.extend_from_slice(shown.as_bytes())?;
    text.extend_from_slice(summary.as_bytes())?;
    Ok(text)
}
