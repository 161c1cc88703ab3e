//! What came of an ask, as members of an object.
ghost use Rattle.std.specs.Prelude.{◌≡◌, IfOk};
ghost use Rattle.bac_ask_report.specs.Answers.{answer_view};
ghost use Rattle.bac_ask_report.specs.Members.{answer_members_view};
ghost use Rattle.bac_ask_report.specs.Objects.{AreMembers, AreValueMembers, nulls};
ghost use Rattle.bac_json.specs.Forms.{octets_form};
ghost use Rattle.serde_json.specs.Data.{boolean, number, unsigned};
ghost use Rattle.serde_json.specs.Find.{of_integer};

use crate::answer::Answer;
use bac_json::{data_json, octets_json};
use bac_service::{Content, FileRead};
use bac_value::{Data, NoMemory};
use serde_json::Value as Json;
use std::alloc::{AllocError, Global};

/// What came of an ask; Null for what did not.
#[derive(Drop)]
pub(crate) struct AnswerMembers {
    pub class: Json,
    pub code: Json,
    pub end: Json,
    pub octets: Json,
    pub position: Json,
    pub reason: Json,
    pub values: Json,
}

fn nulls() -> AnswerMembers
    ensures { answer_members_view result ≡ nulls }
{
    AnswerMembers {
        class: Json::Null,
        code: Json::Null,
        end: Json::Null,
        octets: Json::Null,
        position: Json::Null,
        reason: Json::Null,
        values: Json::Null,
    }
}

fn value_members(alloc: Global, values: Data<'_>) -> Result<AnswerMembers, NoMemory>
    ensures { IfOk result (λ m. AreValueMembers values.entry.octets.now (answer_members_view m)) }
{
    let values = data_json(alloc, values)?;
    let mut members = nulls();
    members.values = Json::Array(values);
    Ok(members)
}

fn file_members(alloc: Global, read: FileRead<Content<'_>>) -> Result<AnswerMembers, AllocError>
    ensures { IfOk result (λ m. answer_members_view m ≡ record nulls {
      end = boolean read.entry.end_of_file;
      octets = octets_form read.entry.content.octets.now;
      position = number (of_integer read.entry.start);
    }) }
{
    let mut members = nulls();
    members.end = Json::from(read.end_of_file);
    members.octets = octets_json(alloc, read.content.octets)?;
    members.position = Json::from(read.start);
    Ok(members)
}

fn written_members(start: i64) -> AnswerMembers
    ensures { answer_members_view result ≡ record nulls { position = number (of_integer start) } }
{
    let mut members = nulls();
    members.position = Json::from(start);
    members
}

fn fault_members(class: u32, code: u32) -> AnswerMembers
    ensures { answer_members_view result ≡ record nulls { class = number (unsigned class); code = number (unsigned code) } }
{
    let mut members = nulls();
    members.class = Json::from(class);
    members.code = Json::from(code);
    members
}

fn reason_members(reason: u8) -> AnswerMembers
    ensures { answer_members_view result ≡ record nulls { reason = number (unsigned reason) } }
{
    let mut members = nulls();
    members.reason = Json::from(reason);
    members
}

/// What came of an ask. An Err is out of memory.
pub(crate) fn members_of(alloc: Global, answer: Answer<'_>) -> Result<AnswerMembers, NoMemory>
    ensures { IfOk result (λ m. AreMembers (answer_view answer.entry) (answer_members_view m)) }
{
    match answer {
        Answer::Values(values) => value_members(alloc, values),
        Answer::Other => Ok(nulls()),
        Answer::File(read) => Ok(file_members(alloc, read)?),
        Answer::Written(start) => Ok(written_members(start)),
        Answer::Done => Ok(nulls()),
        Answer::Fault { class, code } => Ok(fault_members(class, code)),
        Answer::Reason(reason) => Ok(reason_members(reason)),
        Answer::Nothing => Ok(nulls()),
    }
}
