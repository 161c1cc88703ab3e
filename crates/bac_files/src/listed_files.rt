//! The files of a peer: those that words name, or those of its object-list.
ghost use Rattle.std.specs.Prelude.{IfErr};
ghost use Rattle.bac_text.specs.Statuses.{IsStop};

use crate::peer_file::{Asked, ask_words, end_words};
use bac_asking::{Asking, Client, outcome_of, reply_of, tell_no_answer};
use bac_environment::{ClientSockets, print_bad_name};
use bac_npdu::Peer;
use bac_point_report::is_silent;
use bac_service::{AnyComplex, AnyReply, Reply};
use bac_service_text::{BadWord, Wanted};
use bac_text::{Status, no_memory};
use bac_value::{Element, NoMemory, ObjectIdentifier, Value, value_of};
use bac_value_text::object_in;
use std::alloc::Global;
use std::io::Write;

/// The number of the object type file (clause 21).
const FILE: u16 = 10;

/// The instance that stands for a device of any instance (clause 15.5.2).
pub(crate) const ANY_DEVICE: u64 = 4_194_303;

/// The object that a word names. A word that names none: `bad words` on `err`, and which.
pub(crate) fn object_named_by<E: Write>(
    alloc: Global,
    word: &str,
    err: &mut E,
) -> Result<ObjectIdentifier, Status>
    ensures told { IfErr result IsStop }
{
    match object_in(word.as_bytes()) {
        Some(object) => Ok(object),
        None => {
            let bad = BadWord {
                wanted: Wanted::Object,
                word: Some(word.as_bytes()),
            };
            Err(print_bad_name(alloc, bad, err))
        }
    }
}

/// The objects that words name. Words that name none: `bad words` on `err`, and which.
pub(crate) fn objects_in<E: Write>(
    alloc: Global,
    words: &[&str],
    err: &mut E,
) -> Result<Vec<ObjectIdentifier>, Status>
    ensures told { IfErr result IsStop }
{
    let mut objects = Vec::new(alloc);
    for word in words {
        let object = object_named_by(alloc, *word, err)?;
        if objects.push(object).is_err() {
            return Err(no_memory(err));
        }
    }
    Ok(objects)
}

/// The file that an element of a list names; None where it names none.
fn file_in(alloc: Global, element: Element<&[u8]>) -> Result<Option<ObjectIdentifier>, NoMemory> {
    let value = value_of(alloc, element)?;
    let file = match &value {
        Some(Value::ObjectIdentifier(id)) if id.kind == FILE => Some(*id),
        _ => None,
    };
    drop(value);
    Ok(file)
}

/// The files among the objects of a reply; None where it has no values.
fn files_in(
    alloc: Global,
    reply: Option<Reply<'_>>,
) -> Result<Option<Vec<ObjectIdentifier>>, NoMemory> {
    let Some(AnyReply::Complex(AnyComplex::PropertyRead(read))) = reply else {
        return Ok(None);
    };
    let mut files = Vec::new(alloc);
    let mut rest = read.values.elements();
    for _ in 0..rest.octets.len() {
        let Some((element, others)) = rest.split_first() else {
            break;
        };
        if let Some(file) = file_in(alloc, element)? {
            files.push(file)?;
        }
        rest = others;
    }
    Ok(Some(files))
}

/// What stands behind how the ask for the list of a device of any instance ended, where it was answered.
const ANY_ADVICE: &[u8] =
    b"--device N reads the list of device N; arguments such as file:1 name files\n";

/// What stands there of a device by its instance.
const OWN_ADVICE: &[u8] = b"arguments such as file:1 name files\n";

/// What stands there of the device with this instance.
fn advice_for(device: u64) -> &'static [u8] {
    if device == ANY_DEVICE {
        ANY_ADVICE
    } else {
        OWN_ADVICE
    }
}

/// A client asks for the object-list of the device with this instance. Answers how that ended.
fn ask_list<M: ClientSockets, E: Write>(
    asking: &Asking,
    client: &mut Client<'_, M>,
    peer: Peer,
    device: u64,
    err: &mut E,
) -> Result<Asked, Status>
    ensures told { IfErr result IsStop }
{
    let Ok(object) = format!(in client.station.alloc; "device:{device}") else {
        return Err(no_memory(err));
    };
    let words = ["read", object.as_str(), "object-list"];
    ask_words(asking, client, peer, &words, err)
}

/// Tells how the ask for the list of the device with this instance ended, where that was not with a list.
fn tell_unlisted<E: Write>(
    alloc: Global,
    timeout: Option<u64>,
    device: u64,
    asked: &Asked,
    err: &mut E,
) -> Result<(), Status>
    ensures told { IfErr result IsStop }
{
    let outcome = outcome_of(&asked.end);
    if is_silent(outcome) {
        tell_no_answer(alloc, asked.question.peer, timeout, outcome, err);
        return Ok(());
    }
    let Ok(words) = end_words(alloc, asked) else {
        return Err(no_memory(err));
    };
    // if that fails too, only the status is left
    let _ = err.write_all(b"object-list: ");
    let _ = err.write_all(&words);
    let _ = err.write_all(b"\n");
    if reply_of(&asked.end).is_some() {
        let _ = err.write_all(advice_for(device));
    }
    Ok(())
}

/// The files in the list that was asked for. None where it was not answered with one: `err` says how the ask ended.
fn files_asked<E: Write>(
    alloc: Global,
    timeout: Option<u64>,
    device: u64,
    asked: &Asked,
    err: &mut E,
) -> Result<Option<Vec<ObjectIdentifier>>, Status>
    ensures told { IfErr result IsStop }
{
    match files_in(alloc, reply_of(&asked.end)) {
        Ok(Some(files)) => Ok(Some(files)),
        Ok(None) => {
            tell_unlisted(alloc, timeout, device, asked, err)?;
            Ok(None)
        }
        Err(_) => Err(no_memory(err)),
    }
}

/// The files that a peer lists, in the object-list of the device with this instance. None where it does not answer with that: `err` says how the ask ended.
pub(crate) fn listed_files<M: ClientSockets, E: Write>(
    asking: &Asking,
    client: &mut Client<'_, M>,
    peer: Peer,
    device: u64,
    err: &mut E,
) -> Result<Option<Vec<ObjectIdentifier>>, Status>
    ensures told { IfErr result IsStop }
{
    let asked = ask_list(asking, client, peer, device, err)?;
    let files = files_asked(client.station.alloc, asking.timeout, device, &asked, err);
    drop(asked);
    files
}
