//! A file of a peer: the asks that read or write a part of it.
ghost use Rattle.std.specs.Prelude.{IfErr};
ghost use Rattle.bac_text.specs.Statuses.{IsStop};

use crate::part_size::PartSize;
use bac_asking::{Asking, Client, ask_on, outcome_of, question_in, reply_of};
use bac_commands::Style;
use bac_driver::{AskEnd, Question};
use bac_environment::{ClientSockets, print_bad_words};
use bac_npdu::Peer;
use bac_point_report::failure_words;
use bac_requester::Ending;
use bac_service::{AnyComplex, AnyReply, FileWritten};
use bac_service_text::FormFault;
use bac_text::{Status, no_memory};
use std::alloc::{AllocError, Global};
use std::io::Write;

/// A file of a peer, by the words for its object.
#[derive(Clone, Copy)]
pub(crate) struct PeerFile<'a> {
    pub peer: Peer,
    pub object: &'a str,
}

/// A question, and how the ask of it ended.
#[derive(Drop)]
pub(crate) struct Asked {
    pub question: Question,
    pub end: AskEnd,
}

/// The question that some words are, for a peer. Where they are no request, or memory is refused, `err` and the status say so.
fn question_of<E: Write>(
    alloc: Global,
    peer: Peer,
    words: &[&str],
    err: &mut E,
) -> Result<Question, Status>
    ensures told { IfErr result IsStop }
{
    match question_in(alloc, peer, words) {
        Ok(question) => Ok(question),
        Err(FormFault::NoMemory) => Err(no_memory(err)),
        Err(FormFault::NoForm) => match print_bad_words(alloc, Style::Numbers, words, err) {
            Ok(()) => Err(Status::CommandLine),
            Err(_) => Err(no_memory(err)),
        },
    }
}

/// A client asks the request of some words of a peer. Answers how that ended.
pub(crate) fn ask_words<M: ClientSockets, E: Write>(
    asking: &Asking,
    client: &mut Client<'_, M>,
    peer: Peer,
    words: &[&str],
    err: &mut E,
) -> Result<Asked, Status>
    ensures told { IfErr result IsStop }
{
    let question = question_of(client.station.alloc, peer, words, err)?;
    match ask_on(asking, client, &question, err) {
        Ok(end) => Ok(Asked { question, end }),
        Err(status) => {
            drop(question);
            Err(status)
        }
    }
}

/// A number as a word.
fn word_of<E: Write>(alloc: Global, number: u64, err: &mut E) -> Result<String, Status>
    ensures told { IfErr result IsStop }
{
    match format!(in alloc; "{number}") {
        Ok(word) => Ok(word),
        Err(_) => Err(no_memory(err)),
    }
}

/// Octets in hexadecimal, as a word.
fn digits_of<E: Write>(alloc: Global, octets: &[u8], err: &mut E) -> Result<String, Status>
    ensures told { IfErr result IsStop }
{
    match hex::encode_upper(alloc, octets) {
        Ok(digits) => Ok(digits),
        Err(_) => Err(no_memory(err)),
    }
}

/// A client reads the part of a file from a position on: `get T:I POSITION COUNT`.
pub(crate) fn ask_part<M: ClientSockets, E: Write>(
    asking: &Asking,
    client: &mut Client<'_, M>,
    file: &PeerFile<'_>,
    wanted: (u64, PartSize),
    err: &mut E,
) -> Result<Asked, Status>
    ensures told { IfErr result IsStop }
{
    let alloc = client.station.alloc;
    let (position, size) = wanted;
    let position = word_of(alloc, position, err)?;
    let count = word_of(alloc, size.octets() as u64, err)?;
    let words = ["get", file.object, position.as_str(), count.as_str()];
    ask_words(asking, client, file.peer, &words, err)
}

/// A client writes a part of a file from a position on: `put T:I POSITION HEX`.
pub(crate) fn put_part<M: ClientSockets, E: Write>(
    asking: &Asking,
    client: &mut Client<'_, M>,
    file: &PeerFile<'_>,
    written: (u64, &[u8]),
    err: &mut E,
) -> Result<Asked, Status>
    ensures told { IfErr result IsStop }
{
    let alloc = client.station.alloc;
    let (position, part) = written;
    let position = word_of(alloc, position, err)?;
    let digits = digits_of(alloc, part, err)?;
    let words = ["put", file.object, position.as_str(), digits.as_str()];
    ask_words(asking, client, file.peer, &words, err)
}

/// The position at which a write was performed.
pub(crate) fn position_in(end: &AskEnd) -> Option<i64> {
    match reply_of(end)? {
        AnyReply::Complex(AnyComplex::FileWritten(FileWritten::Stream(position))) => {
            Some(position)
        }
        _ => None,
    }
}

/// Whether a peer may take a smaller part: it aborted with buffer-overflow, segmentation-not-supported or apdu-too-long (clause 18.10).
pub(crate) fn wants_smaller(end: &AskEnd) -> bool {
    matches!(end, AskEnd::Ended(Ending::Aborted(1 | 4 | 11)))
}

/// Why an ask did not end as was wanted, in words.
pub(crate) fn end_words(alloc: Global, asked: &Asked) -> Result<Vec<u8>, AllocError> {
    failure_words(alloc, outcome_of(&asked.end))
}
