//! Frames, and what is wrong with them.
ghost use Rattle.std.specs.Prelude.{◌≡◌, IfOk};
ghost use Rattle.bac_explain.specs.KeyViews.{key_view};
ghost use Rattle.bac_explain_json.specs.Lines.{IsFinding, IsFindingLine, IsUnread, finding_form, unread_form};
ghost use Rattle.bac_explain_json.specs.Lists.{findings_form, frames_form};
ghost use Rattle.bac_explain.specs.Texts.{finding_text};
ghost use Rattle.bac_json_report.specs.Lines.{IsLineOf};
ghost use Rattle.bac_npdu.specs.Views.{peer_view};
ghost use Rattle.bac_text.specs.Peers.{peer_text};
ghost use Rattle.serde_json.specs.Data.{string};
ghost use Rattle.serde_json.specs.View.{view};

use bac_explain::{Finding, Step, TransactionKey};
use bac_explain_report::Unread;
use bac_json::Members;
use bac_json_report::{json_line, number_or_null, time_json};
use bac_npdu::Peer;
use bac_text::peer_text;
use serde_json::Value as Json;
use std::alloc::{AllocError, Global};

/// A peer, as `192.168.1.5:47808/5:2A`.
pub(crate) fn peer_json(alloc: Global, peer: Peer) -> Result<Json, AllocError>
    ensures { IfOk result (λ v. view v ≡ string (peer_text (peer_view peer))) }
{
    let text = peer_text(alloc, peer)?;
    Ok(Json::String(text))
}

/// The numbers of frames.
pub(crate) fn frames_json(alloc: Global, steps: &[Step]) -> Result<Json, AllocError>
    ensures { IfOk result (λ v. view v ≡ frames_form steps.now) }
{
    let mut frames = Vec::new(alloc);
    for step in steps {
        frames.push(Json::from(step.frame))?;
    }
    Ok(Json::Array(frames))
}

fn finding_words(alloc: Global, finding: Finding) -> Result<Json, AllocError>
    ensures { IfOk result (λ v. view v ≡ string (finding_text finding)) }
{
    let text = format!(in alloc; "{finding}")?;
    Ok(Json::String(text))
}

/// What is wrong with frames, in words.
pub(crate) fn findings_json(alloc: Global, steps: &[Step]) -> Result<Json, AllocError>
    ensures { IfOk result (λ v. view v ≡ findings_form steps.now) }
{
    let mut findings = Vec::new(alloc);
    for step in steps {
        if let Some(finding) = step.finding {
            findings.push(finding_words(alloc, finding)?)?;
        }
    }
    Ok(Json::Array(findings))
}

fn unread_object(
    alloc: Global,
    frame: u64,
    moment: Option<u64>,
    time: Json,
    why: Unread,
) -> Result<Json, AllocError>
    ensures { IfOk result (λ v. view v ≡ unread_form frame moment (view time) why) }
{
    let text = format!(in alloc; "{why}")?;
    Members::new(alloc)
        .number("frame", frame)
        .text("kind", "unread")
        .json("moment", number_or_null(moment))
        .text("text", text.as_str())
        .json("time", time)
        .end()
}

#[tactic(auto, using(crate::proofs::Told::unread_told))]
fn unread_json(
    alloc: Global,
    frame: u64,
    moment: Option<u64>,
    why: Unread,
) -> Result<Json, AllocError>
    ensures { IfOk result (λ v. IsUnread frame moment why (view v)) }
{
    let time = time_json(alloc, moment)?;
    unread_object(alloc, frame, moment, time, why)
}

/// A frame that cannot be read, as an object on a line.
pub(crate) fn unread_line(
    alloc: Global,
    frame: u64,
    moment: Option<u64>,
    why: Unread,
) -> Result<Vec<u8>, AllocError>
    ensures { IfOk result (λ t. IsLineOf (IsUnread frame moment why) t.items) }
{
    let json = unread_json(alloc, frame, moment, why)?;
    json_line(alloc, &json)
}

fn finding_object(
    alloc: Global,
    frame: u64,
    moment: Option<u64>,
    time: Json,
    key: TransactionKey,
    finding: Finding,
) -> Result<Json, AllocError>
    ensures { IfOk result (λ v. view v ≡ finding_form frame moment (view time) (key_view key) finding) }
{
    let client = peer_json(alloc, key.client)?;
    let words = finding_words(alloc, finding)?;
    let server = peer_json(alloc, key.server)?;
    Members::new(alloc)
        .json("client", client)
        .json("finding", words)
        .number("frame", frame)
        .number("invoke_id", u64::from(key.invoke_id))
        .text("kind", "finding")
        .json("moment", number_or_null(moment))
        .json("server", server)
        .json("time", time)
        .end()
}

#[tactic(auto, using(crate::proofs::Told::finding_told))]
fn finding_json(
    alloc: Global,
    frame: u64,
    moment: Option<u64>,
    key: TransactionKey,
    finding: Finding,
) -> Result<Json, AllocError>
    ensures { IfOk result (λ v. IsFinding frame moment (key_view key) finding (view v)) }
{
    let time = time_json(alloc, moment)?;
    finding_object(alloc, frame, moment, time, key, finding)
}

/// What is wrong with a frame, if that is printed, as an object on a line.
pub(crate) fn finding_line(
    alloc: Global,
    frame: u64,
    moment: Option<u64>,
    key: TransactionKey,
    finding: Option<Finding>,
) -> Result<Vec<u8>, AllocError>
    ensures { IfOk result (λ t. IsFindingLine frame moment (key_view key) finding t.items) }
{
    let Some(finding) = finding else {
        return Ok(Vec::new(alloc));
    };
    let json = finding_json(alloc, frame, moment, key, finding)?;
    json_line(alloc, &json)
}
