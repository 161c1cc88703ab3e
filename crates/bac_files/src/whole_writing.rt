//! Writing octets to a file of a peer from its front on, in as many writes as it takes.
ghost use Rattle.std.specs.Prelude.{IfErr};
ghost use Rattle.bac_text.specs.Statuses.{IsStop};

use crate::part_size::{PartSize, part_at};
use crate::peer_file::{Asked, PeerFile, ask_words, position_in, put_part, wants_smaller};
use bac_ask_report::Outcome;
use bac_asking::{Asking, Client, outcome_of, reply_of};
use bac_commands::link_fault;
use bac_driver::AskEnd;
use bac_environment::ClientSockets;
use bac_point_report::is_silent;
use bac_requester::Ending;
use bac_service::{AnyComplex, AnyReply, FileWritten, Reply};
use bac_text::{Status, no_memory};
use bac_value::{NoMemory, Value, value_of};
use std::alloc::Global;
use std::io::Write;

/// How many octets were written, and in which parts that goes on.
#[derive(Clone, Copy)]
struct Writing {
    count: usize,
    size: PartSize,
}

impl Writing {
    /// The position and the octets of the part that is written next.
    fn next_part<'o>(&self, octets: &'o [u8]) -> (u64, &'o [u8]) {
        let part = part_at(octets, self.count, self.size);
        (self.count as u64, part)
    }

    /// Whether an ask was answered with the position of the part that is written next.
    fn is_written(&self, end: &AskEnd) -> bool {
        match (position_in(end), i64::try_from(self.count)) {
            (Some(position), Ok(count)) => position == count,
            _ => false,
        }
    }

    /// Takes how the write of the next part ended. Answers whether another part is written.
    fn hear(&mut self, octets: &[u8], end: &AskEnd) -> bool {
        if self.is_written(end) {
            let (_, part) = self.next_part(octets);
            self.count = self.count.saturating_add(part.len());
            return self.count < octets.len();
        }
        wants_smaller(end) && self.size.shrink()
    }
}

/// What became of a file that was to be emptied, and was not.
#[derive(Clone, Copy)]
pub(crate) enum Uncut {
    /// The peer refused that: the file has so many octets as before.
    Stays(u64),
    /// The write did not end with an answer that tells whether it was performed.
    MaybeEmpty,
}

/// What was written of some octets.
#[derive(Drop)]
pub(crate) struct Put {
    /// How many of them.
    pub count: usize,
    /// Whether these are all.
    pub is_whole: bool,
    /// What became of the file, where it is longer than these and was not emptied, so that nothing was written.
    pub uncut: Option<Uncut>,
    /// Whether the peer refused the first write, and says that the file is read-only.
    pub is_read_only: bool,
    /// The last write, and how it ended.
    pub last: Asked,
}

/// What was written of some octets, by the last write and how it ended.
fn put_so_far(writing: Writing, octets: &[u8], last: Asked) -> Put {
    let count = writing.count;
    let is_whole = count == octets.len() && position_in(&last.end).is_some();
    Put {
        count,
        is_whole,
        uncut: None,
        is_read_only: false,
        last,
    }
}

/// A client writes octets to a file from position 0 on, part after part; where the peer aborts a write for its length, in smaller parts from then on. It stops
/// at the first write that is not performed. No octets are one write of none.
fn write_whole<M: ClientSockets, E: Write>(
    asking: &Asking,
    client: &mut Client<'_, M>,
    file: &PeerFile<'_>,
    octets: &[u8],
    err: &mut E,
) -> Result<Put, Status>
    ensures told { IfErr result IsStop }
{
    let mut writing = Writing {
        count: 0,
        size: PartSize::Apdu1476,
    };
    for _ in 0..u64::MAX {
        let last = put_part(asking, client, file, writing.next_part(octets), err)?;
        if !writing.hear(octets, &last.end) {
            return Ok(put_so_far(writing, octets, last));
        }
        drop(last);
    }
    Err(link_fault(err))
}

/// Nothing was written: the last ask, before any write, ended so, and that became of the file.
fn nothing_put(uncut: Option<Uncut>, last: Asked) -> Put {
    Put {
        count: 0,
        is_whole: false,
        uncut,
        is_read_only: false,
        last,
    }
}

/// What became of a file with so many octets, by how the write of its file-size ended; None where it is empty.
fn uncut_by(there: u64, end: &AskEnd) -> Option<Uncut> {
    match outcome_of(end) {
        Outcome::Answered(AnyReply::Simple) => None,
        Outcome::Answered(AnyReply::Error { .. } | AnyReply::Reject(_))
        | Outcome::Rejected(_)
        | Outcome::Refused(_)
        | Outcome::NoLink => Some(Uncut::Stays(there)),
        Outcome::Answered(AnyReply::Complex(_))
        | Outcome::Aborted(_)
        | Outcome::TimedOut
        | Outcome::Expired
        | Outcome::NoEnding => Some(Uncut::MaybeEmpty),
    }
}

/// The words of the number 0 in a write: Unsigned, of one octet (clause 20.2.4).
const NO_OCTETS: &str = "2100";

/// A client empties a file that is longer than what is put into it: it writes the file-size (clause 12.13). Devices that let a file be cut at all take 0; and
/// where the writing stops then, no rest of the old octets stands behind the new ones. Answers what was written where the file was not emptied.
fn empty<M: ClientSockets, E: Write>(
    asking: &Asking,
    client: &mut Client<'_, M>,
    file: &PeerFile<'_>,
    there: u64,
    err: &mut E,
) -> Result<Option<Put>, Status>
    ensures told { IfErr result IsStop }
{
    let words = ["write", file.object, "file-size", NO_OCTETS];
    let last = ask_words(asking, client, file.peer, &words, err)?;
    match uncut_by(there, &last.end) {
        None => {
            drop(last);
            Ok(None)
        }
        uncut => Ok(Some(nothing_put(uncut, last))),
    }
}

/// The same of a file with so many octets at most, as its file-size says: it stays as it is. Where the peer does not answer at all, nothing is written either.
fn make_room<M: ClientSockets, E: Write>(
    asking: &Asking,
    client: &mut Client<'_, M>,
    file: &PeerFile<'_>,
    count: usize,
    err: &mut E,
) -> Result<Option<Put>, Status>
    ensures told { IfErr result IsStop }
{
    let last = ask_size(asking, client, file, err)?;
    if is_silent(outcome_of(&last.end)) {
        return Ok(Some(nothing_put(None, last)));
    }
    match size_in(client.station.alloc, &last, err) {
        Ok(Some(there)) if there > count as u64 => {
            drop(last);
            empty(asking, client, file, there, err)
        }
        Ok(_) => {
            drop(last);
            Ok(None)
        }
        Err(status) => {
            drop(last);
            Err(status)
        }
    }
}

/// A client writes octets to a file as all that it is to have: where it is longer, it is emptied first. Where that fails, nothing is written.
fn put_whole<M: ClientSockets, E: Write>(
    asking: &Asking,
    client: &mut Client<'_, M>,
    file: &PeerFile<'_>,
    octets: &[u8],
    err: &mut E,
) -> Result<Put, Status>
    ensures told { IfErr result IsStop }
{
    match make_room(asking, client, file, octets.len(), err)? {
        Some(put) => Ok(put),
        None => write_whole(asking, client, file, octets, err),
    }
}

/// Whether a peer refused access: it answered with write-access-denied or file-access-denied (clause 18).
fn is_denied(end: &AskEnd) -> bool {
    matches!(
        outcome_of(end),
        Outcome::Answered(
            AnyReply::Error { class: 2, code: 40 } | AnyReply::Error { class: 5, code: 5 }
        )
    )
}

/// The same; where the peer refuses access before anything is written, it is asked whether the file is read-only.
pub(crate) fn replace_whole<M: ClientSockets, E: Write>(
    asking: &Asking,
    client: &mut Client<'_, M>,
    file: &PeerFile<'_>,
    octets: &[u8],
    err: &mut E,
) -> Result<Put, Status>
    ensures told { IfErr result IsStop }
{
    let mut put = put_whole(asking, client, file, octets, err)?;
    if put.count > 0 || !is_denied(&put.last.end) {
        return Ok(put);
    }
    match says_read_only(asking, client, file, err) {
        Ok(is_read_only) => {
            put.is_read_only = is_read_only;
            Ok(put)
        }
        Err(status) => {
            drop(put);
            Err(status)
        }
    }
}

/// The end of an ask that is answered with position 0.
pub(crate) fn written_end() -> AskEnd {
    let reply = AnyReply::Complex(AnyComplex::FileWritten(FileWritten::Stream(0)));
    AskEnd::Ended(Ending::Answered(reply))
}

/// The first value that a read of a property was answered with.
fn value_in(alloc: Global, reply: Option<Reply<'_>>) -> Result<Option<Value>, NoMemory> {
    let Some(AnyReply::Complex(AnyComplex::PropertyRead(read))) = reply else {
        return Ok(None);
    };
    match read.values.elements().split_first() {
        Some((element, _)) => value_of(alloc, element),
        None => Ok(None),
    }
}

/// Whether a read of a property was answered with true.
fn is_true_in<E: Write>(alloc: Global, asked: &Asked, err: &mut E) -> Result<bool, Status>
    ensures told { IfErr result IsStop }
{
    match value_in(alloc, reply_of(&asked.end)) {
        Ok(value) => {
            let is = matches!(&value, Some(Value::Boolean(true)));
            drop(value);
            Ok(is)
        }
        Err(_) => Err(no_memory(err)),
    }
}

/// Whether the property read-only of a file says that it is so (clause 12.13); not where the peer does not answer with true.
fn says_read_only<M: ClientSockets, E: Write>(
    asking: &Asking,
    client: &mut Client<'_, M>,
    file: &PeerFile<'_>,
    err: &mut E,
) -> Result<bool, Status>
    ensures told { IfErr result IsStop }
{
    let words = ["read", file.object, "read-only"];
    let asked = ask_words(asking, client, file.peer, &words, err)?;
    let is = is_true_in(client.station.alloc, &asked, err);
    drop(asked);
    is
}

/// A client reads the file-size of a file.
fn ask_size<M: ClientSockets, E: Write>(
    asking: &Asking,
    client: &mut Client<'_, M>,
    file: &PeerFile<'_>,
    err: &mut E,
) -> Result<Asked, Status>
    ensures told { IfErr result IsStop }
{
    let words = ["read", file.object, "file-size"];
    ask_words(asking, client, file.peer, &words, err)
}

/// The number that the read of a file-size was answered with; None where it was not answered with one.
fn size_in<E: Write>(alloc: Global, asked: &Asked, err: &mut E) -> Result<Option<u64>, Status>
    ensures told { IfErr result IsStop }
{
    match value_in(alloc, reply_of(&asked.end)) {
        Ok(value) => {
            let number = match &value {
                Some(Value::Unsigned(number)) => Some(*number),
                _ => None,
            };
            drop(value);
            Ok(number)
        }
        Err(_) => Err(no_memory(err)),
    }
}

/// How many octets a file has by its file-size; None where the peer does not answer with a number.
pub(crate) fn size_of<M: ClientSockets, E: Write>(
    asking: &Asking,
    client: &mut Client<'_, M>,
    file: &PeerFile<'_>,
    err: &mut E,
) -> Result<Option<u64>, Status>
    ensures told { IfErr result IsStop }
{
    let asked = ask_size(asking, client, file, err)?;
    let size = size_in(client.station.alloc, &asked, err);
    drop(asked);
    size
}
