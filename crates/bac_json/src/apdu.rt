//! APDUs.
ghost use Rattle.std.specs.Prelude.{◌≡◌, IfOk};
ghost use Rattle.std.specs.Option.{option_map};
ghost use Rattle.bac_apdu.specs.Views.{apdu_view, limits_view, segment_view};
ghost use Rattle.bac_json.specs.Layers.{abort_apdu_form, apdu_form, error_apdu_form, optional_segment, reject_apdu_form, request_apdu_form, segment_ack_form};
ghost use Rattle.serde_json.specs.View.{view};

use crate::members::Members;
use crate::text::octets_json;
use bac_apdu::{Apdu, Limits, Segment};
use bac_value_text::{abort_text, error_text, reject_text};
use serde_json::Value as Json;
use std::alloc::{AllocError, Global};

/// The numbers of a segment; Null unless the APDU is one.
fn segment_json(alloc: Global, segment: Option<Segment>) -> Result<Json, AllocError>
    ensures { IfOk result (λ v. view v ≡ optional_segment (option_map segment_view segment)) }
{
    let Some(segment) = segment else {
        return Ok(Json::Null);
    };
    Members::new(alloc)
        .flag("more", segment.more)
        .number("seq", u64::from(segment.number))
        .number("win", u64::from(segment.window.size))
        .end()
}

/// A Confirmed-Request.
fn request_apdu_json(
    alloc: Global,
    limits: Limits,
    id: u8,
    segment: Option<Segment>,
    choice: u8,
    service: &[u8],
) -> Result<Json, AllocError>
    ensures { IfOk result (λ v. view v ≡ request_apdu_form (limits_view limits) id (option_map segment_view segment) choice service.now) }
{
    let segment = segment_json(alloc, segment)?;
    let data = octets_json(alloc, service)?;
    Members::new(alloc)
        .number("apdu", u64::from(limits.max_apdu))
        .number("choice", u64::from(choice))
        .json("data", data)
        .number("id", u64::from(id))
        .text("kind", "confirmed-request")
        .flag("sa", limits.takes_segments)
        .json("segment", segment)
        .number("segs", u64::from(limits.max_segments))
        .end()
}

fn segment_ack_json(
    alloc: Global,
    nak: bool,
    server: bool,
    id: u8,
    number: u8,
    window: u8,
) -> Result<Json, AllocError>
    ensures { IfOk result (λ v. view v ≡ segment_ack_form nak server id number window) }
{
    Members::new(alloc)
        .number("id", u64::from(id))
        .text("kind", "segment-ack")
        .flag("nak", nak)
        .number("seq", u64::from(number))
        .flag("srv", server)
        .number("win", u64::from(window))
        .end()
}

/// An Error: its numbers, and in words what they mean.
fn error_apdu_json(
    alloc: Global,
    id: u8,
    choice: u8,
    class: u32,
    code: u32,
) -> Result<Json, AllocError>
    ensures { IfOk result (λ v. view v ≡ error_apdu_form id choice class code) }
{
    let text = error_text(alloc, class, code)?;
    Members::new(alloc)
        .number("choice", u64::from(choice))
        .number("class", u64::from(class))
        .number("code", u64::from(code))
        .number("id", u64::from(id))
        .text("kind", "error")
        .text("text", text.as_str())
        .end()
}

/// A Reject: its reason, and in words what it means.
fn reject_apdu_json(alloc: Global, id: u8, reason: u8) -> Result<Json, AllocError>
    ensures { IfOk result (λ v. view v ≡ reject_apdu_form id reason) }
{
    let text = reject_text(alloc, reason)?;
    Members::new(alloc)
        .number("id", u64::from(id))
        .text("kind", "reject")
        .number("reason", u64::from(reason))
        .text("text", text.as_str())
        .end()
}

/// An Abort: its reason, and in words what it means.
fn abort_apdu_json(alloc: Global, server: bool, id: u8, reason: u8) -> Result<Json, AllocError>
    ensures { IfOk result (λ v. view v ≡ abort_apdu_form server id reason) }
{
    let text = abort_text(alloc, reason)?;
    Members::new(alloc)
        .number("id", u64::from(id))
        .text("kind", "abort")
        .number("reason", u64::from(reason))
        .flag("srv", server)
        .text("text", text.as_str())
        .end()
}

/// An APDU: its kind and its members, under the names that `decode` prints. An Err is out of memory.
pub fn apdu_json(alloc: Global, apdu: Apdu<'_>) -> Result<Json, AllocError>
    ensures { IfOk result (λ v. view v ≡ apdu_form (apdu_view apdu.entry)) }
{
    match apdu {
        Apdu::ConfirmedRequest {
            limits,
            invoke_id,
            segment,
            choice,
            service,
        } => request_apdu_json(alloc, limits, invoke_id, segment, choice, service),
        Apdu::UnconfirmedRequest { choice, service } => {
            let data = octets_json(alloc, service)?;
            Members::new(alloc)
                .number("choice", u64::from(choice))
                .json("data", data)
                .text("kind", "unconfirmed-request")
                .end()
        }
        Apdu::SimpleAck {
            invoke_id: id,
            choice,
        } => Members::new(alloc)
            .number("choice", u64::from(choice))
            .number("id", u64::from(id))
            .text("kind", "simple-ack")
            .end(),
        Apdu::ComplexAck {
            invoke_id: id,
            segment,
            choice,
            service,
        } => {
            let segment = segment_json(alloc, segment)?;
            let data = octets_json(alloc, service)?;
            Members::new(alloc)
                .number("choice", u64::from(choice))
                .json("data", data)
                .number("id", u64::from(id))
                .text("kind", "complex-ack")
                .json("segment", segment)
                .end()
        }
        Apdu::SegmentAck {
            nak,
            server,
            invoke_id,
            number,
            window,
        } => segment_ack_json(alloc, nak, server, invoke_id, number, window.size),
        Apdu::Error {
            invoke_id,
            choice,
            class,
            code,
        } => error_apdu_json(alloc, invoke_id, choice, class, code),
        Apdu::Reject { invoke_id, reason } => reject_apdu_json(alloc, invoke_id, reason),
        Apdu::Abort {
            server,
            invoke_id,
            reason,
        } => abort_apdu_json(alloc, server, invoke_id, reason),
    }
}
