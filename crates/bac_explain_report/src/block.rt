//! The lines of a transaction.
ghost use Rattle.std.specs.Prelude.{◌≡◌, ℕ, List, IfOk, string_bytes};
ghost use Rattle.std.specs.Option.{option_map};
ghost use Rattle.bac_explain.specs.Closings.{told_view};
ghost use Rattle.bac_explain.specs.KeyViews.{key_view};
ghost use Rattle.bac_explain.specs.Tables.{ClosedView};
ghost use Rattle.bac_explain.specs.SentViews.{sent_view};
ghost use Rattle.bac_explain.specs.Views.{transaction_view};
ghost use Rattle.bac_explain_report.specs.Blocks.{answer_name, answered_front, counts_text, end_text, key_part, more_text, naks_text, part_text, rest_text, tail_text, time_word, times_text};
ghost use Rattle.bac_explain_report.specs.Blocks.{IsAnsweredLine, IsAnswerLine, IsAskedFront, IsAskedLine, IsBlock, IsBlockFront, IsFramedBlock};

use crate::answer_words::told_words;
use crate::ending::{answer_ending, reply_name};
use crate::frames_line::frames_line;
use crate::keys::key_text;
use crate::request_words::asked_words;
use bac_explain::{Sent, Transaction, TransactionKey};
use bac_moment::{TimeText, time_text};
use bac_value::NoMemory;
use std::alloc::{AllocError, Global};

/// How often a request or a reply was seen, if more than once.
fn times_text(alloc: Global, times: u64) -> Result<String, AllocError>
    ensures { IfOk result (λ t. string_bytes t ≡ times_text times) }
{
    if times == 1 {
        return Ok(String::new(alloc));
    }
    format!(in alloc; " times={times}")
}

/// How many more of its segments were seen, if any.
fn more_text(alloc: Global, segments: u64) -> Result<String, AllocError>
    ensures { IfOk result (λ t. string_bytes t ≡ more_text segments) }
{
    if segments == 0 {
        return Ok(String::new(alloc));
    }
    format!(in alloc; " more-segments={segments}")
}

/// How often a request or a reply was seen, and how many more of its segments.
fn counts_text(alloc: Global, sent: &Sent) -> Result<String, AllocError>
    ensures { IfOk result (λ t. string_bytes t ≡ counts_text (sent_view sent.now)) }
{
    let times = times_text(alloc, sent.times)?;
    let more = more_text(alloc, sent.segments)?;
    format!(in alloc; "{times}{more}")
}

/// A moment as text; `-` beyond the year 9999.
fn time_word(time: &Option<TimeText>) -> &[u8]
    ensures { result.now ≡ time_word (option_map (λ t. t.bytes) time.now) }
{
    match time {
        Some(time) => time.as_str().as_bytes(),
        None => b"-",
    }
}

/// The client, the server and the invoke ID, and how often the request was seen.
fn key_part(alloc: Global, key: TransactionKey, sent: &Sent) -> Result<Vec<u8>, AllocError>
    ensures { IfOk result (λ t. t.items ≡ key_part (key_view key) (sent_view sent.now)) }
{
    let key = key_text(alloc, key)?;
    let counts = counts_text(alloc, sent)?;
    let text = format!(in alloc; " {key}{counts} ")?;
    Ok(text.into_bytes())
}

fn asked_front(alloc: Global, key: TransactionKey, sent: &Sent) -> Result<Vec<u8>, AllocError>
    ensures { IfOk result (λ t. IsAskedFront (key_view key) (sent_view sent.now) t.items) }
{
    let time = time_text(Some(sent.moment));
    let part = key_part(alloc, key, sent)?;
    let mut text = Vec::from_slice(alloc, time_word(&time))?;
    text.extend_from_slice(&part)?;
    Ok(text)
}

/// The request: when it was first seen, its transaction, how often it was seen, and what it asks for.
fn asked_line(alloc: Global, key: TransactionKey, sent: &Sent) -> Result<Vec<u8>, NoMemory>
    ensures { IfOk result (λ t. IsAskedLine (key_view key) (sent_view sent.now) t.items) }
{
    let words = asked_words(alloc, &sent.octets)?;
    let mut text = asked_front(alloc, key, sent)?;
    text.extend_from_slice(words.as_slice())?;
    text.push(b'\n')?;
    Ok(text)
}

/// The first word of a reply: whether it is whole, or only its beginning was seen.
fn answer_name(sent: &Sent) -> &'static str
    ensures { result.now ≡ answer_name (sent_view sent.now) }
{
    if sent.whole {
        reply_name(answer_ending(&sent.octets))
    } else {
        "began"
    }
}

fn answered_front(alloc: Global, asked: u64, sent: &Sent) -> Result<Vec<u8>, AllocError>
    ensures { IfOk result (λ t. t.items ≡ answered_front asked (sent_view sent.now)) }
{
    let name = answer_name(sent);
    let counts = counts_text(alloc, sent)?;
    let delay = sent.moment.saturating_sub(asked);
    let text = format!(in alloc; "  {name} after={delay}ms{counts} ")?;
    Ok(text.into_bytes())
}

/// The reply: the delay after the request, how often it was seen, and what it says.
fn answered_line(alloc: Global, asked: u64, sent: &Sent) -> Result<Vec<u8>, NoMemory>
    ensures { IfOk result (λ t. IsAnsweredLine asked (sent_view sent.now) t.items) }
{
    let words = told_words(alloc, &sent.octets)?;
    let mut text = answered_front(alloc, asked, sent)?;
    text.extend_from_slice(words.as_slice())?;
    text.push(b'\n')?;
    Ok(text)
}

/// The line of the reply, if there is one.
fn answer_line(alloc: Global, transaction: &Transaction) -> Result<Vec<u8>, NoMemory>
    ensures { IfOk result (λ t. IsAnswerLine (transaction_view transaction.now) t.items) }
{
    match &transaction.answer {
        Some(answer) => answered_line(alloc, transaction.request.moment, answer),
        None => Ok(Vec::new(alloc)),
    }
}

fn naks_text(alloc: Global, naks: u64) -> Result<Vec<u8>, AllocError>
    ensures { IfOk result (λ t. t.items ≡ naks_text naks) }
{
    if naks == 0 {
        return Ok(Vec::new(alloc));
    }
    let text = format!(in alloc; "  negative SegmentACKs={naks}\n")?;
    Ok(text.into_bytes())
}

/// The line for a reply whose end was not seen.
fn part_text(broken_off: bool) -> &'static str
    ensures { result.now ≡ part_text broken_off }
{
    if broken_off {
        "  aborted by the server\n"
    } else {
        "  incomplete answer\n"
    }
}

/// The line for a transaction without a whole reply.
fn rest_text(broken_off: bool, answer: &Option<Sent>) -> &'static str
    ensures { result.now ≡ rest_text broken_off (option_map sent_view answer.now) }
{
    match answer {
        Some(answer) if answer.whole => "",
        Some(_) => part_text(broken_off),
        None => "  unanswered\n",
    }
}

/// The last line: the client gave up, or there is no whole reply.
fn end_text(transaction: &Transaction) -> &'static str
    ensures { result.now ≡ end_text (transaction_view transaction.now) }
{
    if transaction.gave_up {
        "  given up by the client\n"
    } else {
        rest_text(transaction.broken_off, &transaction.answer)
    }
}

fn tail_text(alloc: Global, transaction: &Transaction) -> Result<Vec<u8>, AllocError>
    ensures { IfOk result (λ t. t.items ≡ tail_text (transaction_view transaction.now)) }
{
    let mut text = naks_text(alloc, transaction.naks)?;
    let end = end_text(transaction);
    text.extend_from_slice(end.as_bytes())?;
    Ok(text)
}

/// The lines of a transaction up to its answer.
fn block_front(
    alloc: Global,
    key: TransactionKey,
    transaction: &Transaction,
) -> Result<Vec<u8>, NoMemory>
    ensures { IfOk result (λ t. IsBlockFront (told_view key transaction.now) t.items) }
{
    let answer = answer_line(alloc, transaction)?;
    let mut text = asked_line(alloc, key, &transaction.request)?;
    text.extend_from_slice(answer.as_slice())?;
    Ok(text)
}

/// The lines of a transaction.
fn block(alloc: Global, key: TransactionKey, transaction: &Transaction) -> Result<Vec<u8>, NoMemory>
    ensures { IfOk result (λ t. IsBlock (told_view key transaction.now) t.items) }
{
    let tail = tail_text(alloc, transaction)?;
    let mut text = block_front(alloc, key, transaction)?;
    text.extend_from_slice(tail.as_slice())?;
    Ok(text)
}

/// The lines of a transaction, with the numbers of its frames.
fn framed_block(
    alloc: Global,
    key: TransactionKey,
    transaction: &Transaction,
) -> Result<Vec<u8>, NoMemory>
    ensures { IfOk result (λ t. IsFramedBlock (told_view key transaction.now) t.items) }
{
    let frames = frames_line(alloc, &transaction.steps)?;
    let tail = tail_text(alloc, transaction)?;
    let mut text = block_front(alloc, key, transaction)?;
    text.extend_from_slice(frames.as_slice())?;
    text.extend_from_slice(tail.as_slice())?;
    Ok(text)
}

/// Which lines a transaction has.
pub(crate) trait BlockForm {
    // What they are.
    ghost IsOne: { ClosedView → (text : List ℕ) → Type 0 };

    /// The lines of a transaction. An Err is out of memory.
    fn block(
        &self,
        alloc: Global,
        key: TransactionKey,
        transaction: &Transaction,
    ) -> Result<Vec<u8>, NoMemory>
        ensures { IfOk result (λ t. IsOne (told_view key transaction.now) t.items) };
}

/// Without its frames.
#[derive(Drop)]
pub(crate) struct Plain;

impl BlockForm for Plain {
    ghost use Rattle.bac_explain_report.specs.Blocks.{IsBlock};

    ghost IsOne = { IsBlock };

    fn block(
        &self,
        alloc: Global,
        key: TransactionKey,
        transaction: &Transaction,
    ) -> Result<Vec<u8>, NoMemory> {
        block(alloc, key, transaction)
    }
}

/// With the numbers of its frames.
#[derive(Drop)]
pub(crate) struct Framed;

impl BlockForm for Framed {
    ghost use Rattle.bac_explain_report.specs.Blocks.{IsFramedBlock};

    ghost IsOne = { IsFramedBlock };

    fn block(
        &self,
        alloc: Global,
        key: TransactionKey,
        transaction: &Transaction,
    ) -> Result<Vec<u8>, NoMemory> {
        framed_block(alloc, key, transaction)
    }
}
