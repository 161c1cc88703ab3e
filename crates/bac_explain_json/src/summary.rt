//! The counts at the end.
ghost use Rattle.std.specs.Prelude.{◌≡◌, IfOk, map};
ghost use Rattle.bac_explain_json.specs.Summaries.{device_form, devices_form, summary_form};
ghost use Rattle.bac_explain_report.specs.DeviceViews.{device_view};
ghost use Rattle.bac_json_report.specs.Lines.{IsLineOf};
ghost use Rattle.serde_json.specs.View.{view};

use crate::findings::peer_json;
use bac_explain_report::{Device, Tally};
use bac_json::Members;
use bac_json_report::{json_line, number_or_null};
use serde_json::Value as Json;
use std::alloc::{AllocError, Global};

/// The counts of a server.
fn device_json(alloc: Global, device: Device) -> Result<Json, AllocError>
    ensures { IfOk result (λ v. view v ≡ device_form (device_view device)) }
{
    let server = peer_json(alloc, device.server)?;
    let totals = device.totals;
    Members::new(alloc)
        .number("aborted", totals.aborted)
        .number("answered", totals.answered)
        .number("errors", totals.errors)
        .number("rejected", totals.rejected)
        .json("server", server)
        .json("slowest", number_or_null(totals.slowest))
        .number("transactions", totals.transactions)
        .number("unanswered", totals.unanswered)
        .end()
}

/// The counts of each server.
fn devices_json(alloc: Global, devices: &[Device]) -> Result<Json, AllocError>
    ensures { IfOk result (λ v. view v ≡ devices_form (map device_view devices.now)) }
{
    let mut forms = Vec::new(alloc);
    for device in devices {
        let form = device_json(alloc, *device)?;
        forms.push(form)?;
    }
    Ok(Json::Array(forms))
}

fn summary_json(alloc: Global, tally: Tally, devices: &[Device]) -> Result<Json, AllocError>
    ensures { IfOk result (λ v. view v ≡ summary_form tally (map device_view devices.now)) }
{
    let devices = devices_json(alloc, devices)?;
    let totals = tally.totals;
    Members::new(alloc)
        .number("aborted", totals.aborted)
        .number("answered", totals.answered)
        .json("devices", devices)
        .number("errors", totals.errors)
        .number("findings", tally.findings)
        .number("frames", tally.frames)
        .text("kind", "summary")
        .number("rejected", totals.rejected)
        .number("shown", tally.shown)
        .json("slowest", number_or_null(totals.slowest))
        .number("transactions", totals.transactions)
        .number("unanswered", totals.unanswered)
        .number("unread", tally.unread)
        .end()
}

/// The counts as an object on a line.
pub(crate) fn summary_line(
    alloc: Global,
    tally: Tally,
    devices: &[Device],
) -> Result<Vec<u8>, AllocError>
    ensures { IfOk result (λ t. IsLineOf (λ d. d ≡ summary_form tally (map device_view devices.now)) t.items) }
{
    let json = summary_json(alloc, tally, devices)?;
    json_line(alloc, &json)
}
