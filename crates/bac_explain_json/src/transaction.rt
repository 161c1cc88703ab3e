//! The object of a transaction.
ghost use Rattle.std.specs.Prelude.{◌≡◌, ◌-◌, IfOk};
ghost use Rattle.std.specs.Option.{option_map};
ghost use Rattle.bac_explain.specs.Closings.{told_view};
ghost use Rattle.bac_explain.specs.KeyViews.{key_view};
ghost use Rattle.bac_explain.specs.SentViews.{sent_view};
ghost use Rattle.bac_explain.specs.Views.{transaction_view};
ghost use Rattle.bac_explain_json.specs.Lines.{IsTransactionLine};
ghost use Rattle.bac_explain_json.specs.Lists.{findings_form, frames_form};
ghost use Rattle.bac_explain_json.specs.Members.{answered_view, asked_view, end_view, peers_view};
ghost use Rattle.bac_explain_json.specs.Objects.{AreAnswered, AreAnsweredIn, AreAsked, IsObject, end_members, no_answer, peer_members};
ghost use Rattle.bac_explain_json.specs.Objects.{transaction_object};
ghost use Rattle.serde_json.specs.Data.{string};
ghost use Rattle.serde_json.specs.View.{view};

use crate::carried::{answer_json, asked_json};
use crate::findings::{findings_json, frames_json, peer_json};
use crate::members::{AnsweredMembers, AskedMembers, EndMembers, PeerMembers};
use bac_explain::{Sent, Transaction, TransactionKey};
use bac_explain_report::{asked_words, ending_of, is_unanswered, told_words};
use bac_json::{Members, text_json};
use bac_json_report::{json_line, time_or_null};
use bac_moment::time_text;
use bac_value::NoMemory;
use serde_json::Value as Json;
use std::alloc::{AllocError, Global};

fn peer_members(alloc: Global, key: TransactionKey) -> Result<PeerMembers, AllocError>
    ensures { IfOk result (λ m. peers_view m ≡ peer_members (key_view key)) }
{
    let client = peer_json(alloc, key.client)?;
    let server = peer_json(alloc, key.server)?;
    Ok(PeerMembers {
        client,
        invoke_id: Json::from(key.invoke_id),
        server,
    })
}

#[tactic(auto, using(crate::proofs::Told::asked_told))]
fn asked_members(alloc: Global, sent: &Sent) -> Result<AskedMembers, NoMemory>
    ensures { IfOk result (λ m. AreAsked (sent_view sent.now) (asked_view m)) }
{
    let time = time_text(Some(sent.moment));
    let words = asked_words(alloc, &sent.octets)?;
    let request = asked_json(alloc, &sent.octets)?;
    let request_text = text_json(alloc, &words)?;
    let time = time_or_null(alloc, &time)?;
    Ok(AskedMembers {
        asked_at: Json::from(sent.moment),
        request,
        request_text,
        requests: Json::from(sent.times),
        segments: Json::from(sent.segments),
        time,
    })
}

#[tactic(auto, using(crate::proofs::Told::answered_told))]
fn answered_members(alloc: Global, after: u64, sent: &Sent) -> Result<AnsweredMembers, NoMemory>
    ensures { IfOk result (λ m. AreAnswered after (sent_view sent.now) (answered_view m)) }
{
    let words = told_words(alloc, &sent.octets)?;
    let answer = answer_json(alloc, &sent.octets)?;
    let answer_text = text_json(alloc, &words)?;
    Ok(AnsweredMembers {
        after: Json::from(after),
        answer,
        answer_segments: Json::from(sent.segments),
        answer_text,
        answers: Json::from(sent.times),
    })
}

fn no_answer() -> AnsweredMembers
    ensures { answered_view result ≡ no_answer }
{
    AnsweredMembers {
        after: Json::Null,
        answer: Json::Null,
        answer_segments: Json::from(0_u64),
        answer_text: Json::Null,
        answers: Json::from(0_u64),
    }
}

/// The members of the answer to a request of that moment, if there is one.
fn answer_members(
    alloc: Global,
    asked: u64,
    answer: &Option<Sent>,
) -> Result<AnsweredMembers, NoMemory>
    ensures { IfOk result (λ m. AreAnsweredIn asked (option_map sent_view answer.now) (answered_view m)) }
{
    match answer {
        Some(answer) => answered_members(alloc, answer.moment.saturating_sub(asked), answer),
        None => Ok(no_answer()),
    }
}

fn end_members(alloc: Global, transaction: &Transaction) -> Result<EndMembers, AllocError>
    ensures { IfOk result (λ m. end_view m ≡ end_members (transaction_view transaction.now)) }
{
    let findings = findings_json(alloc, &transaction.steps)?;
    let frames = frames_json(alloc, &transaction.steps)?;
    let status = Json::try_from_str(alloc, ending_of(transaction).name())?;
    Ok(EndMembers {
        findings,
        frames,
        given_up: Json::from(transaction.gave_up),
        negative_acks: Json::from(transaction.naks),
        status,
        unanswered: Json::from(is_unanswered(transaction)),
    })
}

fn transaction_object(
    alloc: Global,
    peers: PeerMembers,
    asked: AskedMembers,
    answered: AnsweredMembers,
    end: EndMembers,
) -> Result<Json, AllocError>
    ensures { IfOk result (λ v. view v ≡ transaction_object (peers_view peers) (asked_view asked) (answered_view answered) (end_view end)) }
{
    let object = asked.put_in(peers.put_in(Members::new(alloc)));
    end.put_in(answered.put_in(object)).end()
}

#[tactic(auto, using(crate::proofs::Told::object_told))]
fn transaction_json(
    alloc: Global,
    key: TransactionKey,
    transaction: &Transaction,
) -> Result<Json, NoMemory>
    ensures { IfOk result (λ v. IsObject (told_view key transaction.now) (view v)) }
{
    let asked = asked_members(alloc, &transaction.request)?;
    let answered = answer_members(alloc, transaction.request.moment, &transaction.answer)?;
    let peers = peer_members(alloc, key)?;
    let end = end_members(alloc, transaction)?;
    Ok(transaction_object(alloc, peers, asked, answered, end)?)
}

/// A transaction as an object on a line.
pub(crate) fn transaction_line(
    alloc: Global,
    key: TransactionKey,
    transaction: &Transaction,
) -> Result<Vec<u8>, NoMemory>
    ensures { IfOk result (λ t. IsTransactionLine (told_view key transaction.now) t.items) }
{
    let json = transaction_json(alloc, key, transaction)?;
    Ok(json_line(alloc, &json)?)
}
