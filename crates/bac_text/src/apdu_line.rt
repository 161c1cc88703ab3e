//! The line of an APDU.
ghost use Rattle.std.specs.Prelude.{◌≡◌, IfOk, OnOk, string_bytes};
ghost use Rattle.std.specs.Option.{option_map};
ghost use Rattle.std.specs.Io.KnownBytes.{Appends};
ghost use Rattle.bac_apdu.specs.Views.{segment_view, apdu_view};
ghost use Rattle.bac_text.specs.Texts.{optional, abort_end, apdu_text, body_text, error_end, members_text, plain_members_text, reject_end, segment_text};

use bac_apdu::{Apdu, Segment};
use bac_value_text::{abort_text, error_text, reject_text};
use std::alloc::{AllocError, Global};
use std::io;
use std::io::Write;

/// The numbers of a segment; empty unless the APDU is one.
fn segment_text(alloc: Global, segment: Option<Segment>) -> Result<String, AllocError>
    ensures { IfOk result (λ t. string_bytes t ≡ optional segment_text (option_map segment_view segment)) }
{
    let Some(segment) = segment else {
        return Ok(String::new(alloc));
    };
    let number = segment.number;
    let window = segment.window.size;
    let more = u8::from(segment.more);
    format!(in alloc; " seq={number} win={window} more={more}")
}

/// The end of the line of an APDU with service data: the numbers of a segment, the service choice and the service data.
fn body_text(
    alloc: Global,
    segment: Option<Segment>,
    choice: u8,
    service: &[u8],
) -> Result<String, AllocError>
    ensures { IfOk result (λ t. string_bytes t ≡ body_text (option_map segment_view segment) choice service.now) }
{
    let segment = segment_text(alloc, segment)?;
    let data = hex::encode_upper(alloc, service)?;
    format!(in alloc; "{segment} choice={choice} data={data}")
}

/// The class and the code of an Error, by number or by name.
fn error_end(alloc: Global, in_words: bool, class: u32, code: u32) -> Result<String, AllocError>
    ensures { IfOk result (λ t. string_bytes t ≡ error_end in_words class code) }
{
    if in_words {
        return error_text(alloc, class, code);
    }
    format!(in alloc; "class={class} code={code}")
}

/// The reason of a Reject, by number or by name.
fn reject_end(alloc: Global, in_words: bool, reason: u8) -> Result<String, AllocError>
    ensures { IfOk result (λ t. string_bytes t ≡ reject_end in_words reason) }
{
    if in_words {
        return reject_text(alloc, reason);
    }
    format!(in alloc; "reason={reason}")
}

/// The reason of an Abort, by number or by name.
fn abort_end(alloc: Global, in_words: bool, reason: u8) -> Result<String, AllocError>
    ensures { IfOk result (λ t. string_bytes t ≡ abort_end in_words reason) }
{
    if in_words {
        return abort_text(alloc, reason);
    }
    format!(in alloc; "reason={reason}")
}

/// An APDU without service data, a SimpleACK, a SegmentACK, an Error, a Reject or an Abort; empty for other APDUs.
fn plain_text(alloc: Global, in_words: bool, apdu: Apdu<'_>) -> Result<String, AllocError>
    ensures { IfOk result (λ t. string_bytes t ≡ plain_members_text in_words (apdu_view apdu.entry)) }
{
    match apdu {
        Apdu::SimpleAck { invoke_id, choice } => {
            format!(in alloc; "simple-ack id={invoke_id} choice={choice}")
        }
        Apdu::SegmentAck {
            nak,
            server,
            invoke_id,
            number,
            window,
        } => {
            let (nak, server, window) = (u8::from(nak), u8::from(server), window.size);
            format!(in alloc;
                "segment-ack nak={nak} srv={server} id={invoke_id} seq={number} win={window}"
            )
        }
        Apdu::Error {
            invoke_id,
            choice,
            class,
            code,
        } => {
            let error = error_end(alloc, in_words, class, code)?;
            format!(in alloc; "error id={invoke_id} choice={choice} {error}")
        }
        Apdu::Reject { invoke_id, reason } => {
            let reason = reject_end(alloc, in_words, reason)?;
            format!(in alloc; "reject id={invoke_id} {reason}")
        }
        Apdu::Abort {
            server,
            invoke_id,
            reason,
        } => {
            let server = u8::from(server);
            let reason = abort_end(alloc, in_words, reason)?;
            format!(in alloc; "abort srv={server} id={invoke_id} {reason}")
        }
        Apdu::ConfirmedRequest { .. } | Apdu::UnconfirmedRequest { .. } | Apdu::ComplexAck { .. } =>
            Ok(String::new(alloc)),
    }
}

/// An APDU: its kind and its members.
#[tactic(auto, unfolding(crate::specs::Texts::members_text))]
fn members_text(alloc: Global, in_words: bool, apdu: Apdu<'_>) -> Result<String, AllocError>
    ensures { IfOk result (λ t. string_bytes t ≡ members_text in_words (apdu_view apdu.entry)) }
{
    match apdu {
        Apdu::ConfirmedRequest {
            limits,
            invoke_id,
            segment,
            choice,
            service,
        } => {
            let takes = u8::from(limits.takes_segments);
            let (segments, octets) = (limits.max_segments, limits.max_apdu);
            let body = body_text(alloc, segment, choice, service)?;
            format!(in alloc;
                "confirmed-request sa={takes} segs={segments} apdu={octets} id={invoke_id}{body}"
            )
        }
        Apdu::UnconfirmedRequest { choice, service } => {
            let body = body_text(alloc, None, choice, service)?;
            format!(in alloc; "unconfirmed-request{body}")
        }
        Apdu::ComplexAck {
            invoke_id,
            segment,
            choice,
            service,
        } => {
            let body = body_text(alloc, segment, choice, service)?;
            format!(in alloc; "complex-ack id={invoke_id}{body}")
        }
        _ => plain_text(alloc, in_words, apdu),
    }
}

/// Prints an APDU: its kind and its members, as docs/FORMATS.md ("decode") lists them. The class and the code of an Error and the reasons of a Reject
/// and an Abort are by number or in words.
#[tactic(auto, unfolding(crate::specs::Texts::apdu_text))]
pub(crate) fn print_apdu<W: Write>(
    alloc: Global,
    in_words: bool,
    apdu: Apdu<'_>,
    out: &mut W,
) -> io::Result<()>
    ensures { OnOk result (Appends (W.contents out.old) (W.contents out.new) (apdu_text in_words (apdu_view apdu.entry))) }
{
    let members = members_text(alloc, in_words, apdu)?;
    writeln!(out, "{members}")
}
