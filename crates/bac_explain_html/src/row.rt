//! The row of a transaction.
ghost use Rattle.std.specs.Prelude.{◌≡◌, IfOk, string_bytes};
ghost use Rattle.std.specs.Option.{option_map};
ghost use Rattle.bac_explain.specs.Closings.{told_view};
ghost use Rattle.bac_explain.specs.KeyViews.{key_view};
ghost use Rattle.bac_explain.specs.SentViews.{sent_view};
ghost use Rattle.bac_explain.specs.Views.{transaction_view};
ghost use Rattle.bac_explain_html.specs.Rows.{AreWordCells, IsAnswerCell, IsAskedCell, IsEntry, after_text, end_cells, entry_front, findings_cell, key_cells, listed, row_end};

use crate::escape::cell;
use crate::picture::picture;
use bac_explain::{Finding, Sent, Step, Transaction, TransactionKey};
use bac_explain_report::{asked_words, delay_of, ending_of, is_unanswered, told_words};
use bac_text::peer_text;
use bac_value::NoMemory;
use std::alloc::{AllocError, Global};

/// The cells of the client, the server and the invoke ID.
fn key_cells(alloc: Global, key: TransactionKey) -> Result<String, AllocError>
    ensures { IfOk result (λ t. string_bytes t ≡ key_cells (key_view key)) }
{
    let client = peer_text(alloc, key.client)?;
    let server = peer_text(alloc, key.server)?;
    let invoke_id = key.invoke_id;
    format!(in alloc; "<td>{client}</td><td>{server}</td><td class=\"n\">{invoke_id}</td>")
}

/// The cell of the request, in words.
fn asked_cell(alloc: Global, request: &Sent) -> Result<Vec<u8>, NoMemory>
    ensures { IfOk result (λ t. IsAskedCell (sent_view request.now) t.items) }
{
    let words = asked_words(alloc, &request.octets)?;
    Ok(cell(alloc, &words)?)
}

/// The cell of the answer, in words; an empty one if there is no answer.
fn answer_cell(alloc: Global, answer: &Option<Sent>) -> Result<Vec<u8>, NoMemory>
    ensures { IfOk result (λ t. IsAnswerCell (option_map sent_view answer.now) t.items) }
{
    match answer {
        Some(answer) => {
            let words = told_words(alloc, &answer.octets)?;
            Ok(cell(alloc, &words)?)
        }
        None => Ok(cell(alloc, b"")?),
    }
}

/// The delay of the answer; nothing if there is none.
fn after_text(alloc: Global, delay: Option<u64>) -> Result<String, AllocError>
    ensures { IfOk result (λ t. string_bytes t ≡ after_text delay) }
{
    match delay {
        Some(delay) => format!(in alloc; "{delay}"),
        None => Ok(String::new(alloc)),
    }
}

/// The cells of how it ended, of the delay of the answer, and of how often the request and the answer were seen.
fn end_cells(alloc: Global, transaction: &Transaction) -> Result<String, AllocError>
    ensures { IfOk result (λ t. string_bytes t ≡ end_cells (transaction_view transaction.now)) }
{
    let ending = ending_of(transaction).name();
    let after = after_text(alloc, delay_of(transaction))?;
    let times = transaction.request.times;
    format!(in alloc;
        "<td class=\"{ending}\">{ending}</td><td class=\"n\">{after}</td><td class=\"n\">{times}</td>"
    )
}

/// A finding, on a line of its own.
fn listed(alloc: Global, finding: Finding) -> Result<String, AllocError>
    ensures { IfOk result (λ t. string_bytes t ≡ listed finding) }
{
    format!(in alloc; "<div>{finding}</div>")
}

/// The cell of what is wrong with the frames.
fn findings_cell(alloc: Global, steps: &[Step]) -> Result<Vec<u8>, AllocError>
    ensures { IfOk result (λ t. t.items ≡ findings_cell steps.now) }
{
    let mut text = Vec::from_slice(alloc, b"<td class=\"f\">")?;
    for step in steps {
        if let Some(finding) = step.finding {
            let line = listed(alloc, finding)?;
            text.extend_from_slice(line.as_bytes())?;
        }
    }
    text.extend_from_slice(b"</td>")?;
    Ok(text)
}

/// The cells of the request and of the answer.
fn word_cells(alloc: Global, transaction: &Transaction) -> Result<Vec<u8>, NoMemory>
    ensures { IfOk result (λ t. AreWordCells (transaction_view transaction.now) t.items) }
{
    let answer = answer_cell(alloc, &transaction.answer)?;
    let mut text = asked_cell(alloc, &transaction.request)?;
    text.extend_from_slice(&answer)?;
    Ok(text)
}

/// The cells that follow the answer.
fn row_end(alloc: Global, transaction: &Transaction) -> Result<Vec<u8>, AllocError>
    ensures { IfOk result (λ t. t.items ≡ row_end (transaction_view transaction.now)) }
{
    let findings = findings_cell(alloc, &transaction.steps)?;
    let mut text = end_cells(alloc, transaction)?.into_bytes();
    text.extend_from_slice(&findings)?;
    Ok(text)
}

/// The beginning of the row: one without an answer has a class of its own.
fn entry_front(transaction: &Transaction) -> &'static str
    ensures { result.now ≡ entry_front (transaction_view transaction.now) }
{
    if is_unanswered(transaction) {
        "<tbody class=\"t u\"><tr>"
    } else {
        "<tbody class=\"t\"><tr>"
    }
}

/// The row of a transaction, and one with its picture.
pub(crate) fn entry(
    alloc: Global,
    key: TransactionKey,
    transaction: &Transaction,
) -> Result<Vec<u8>, NoMemory>
    ensures { IfOk result (λ t. IsEntry (told_view key transaction.now) t.items) }
{
    let cells = key_cells(alloc, key)?;
    let words = word_cells(alloc, transaction)?;
    let end = row_end(alloc, transaction)?;
    let picture = picture(alloc, key, transaction.request.moment, &transaction.steps)?;
    let mut text = Vec::from_slice(alloc, entry_front(transaction).as_bytes())?;
    text.extend_from_slice(cells.as_bytes())?;
    text.extend_from_slice(&words)?;
    text.extend_from_slice(&end)?;
    text.extend_from_slice(b"</tr><tr class=\"p\"><td colspan=\"9\">")?;
    text.extend_from_slice(&picture)?;
    text.extend_from_slice(b"</td></tr></tbody>\n")?;
    Ok(text)
}
