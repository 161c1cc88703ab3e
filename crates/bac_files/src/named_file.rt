//! What `get` and `put` do: a whole file of a peer, by its name, for people.
ghost use Rattle.std.specs.Prelude.{IfErr};
ghost use Rattle.bac_text.specs.Statuses.{IsStop};

use crate::file_news::{news_of_unput, tell_news, tell_not_read};
use crate::file_task::FileTask;
use crate::listed_files::object_named_by;
use crate::peer_file::{Asked, PeerFile, end_words};
use crate::whole_files::{Target, client_of, has_no_more, write_out};
use crate::whole_reading::{Got, read_whole};
use crate::whole_writing::{Put, replace_whole};
use bac_asking::{Asking, Client, outcome_of, tell_no_answer, tells_unheard};
use bac_environment::{ClientSockets, Environment, OpenFiles, octets_of, opened};
use bac_point_report::is_silent;
use bac_text::{Status, no_memory, output_failed};
use bac_value::ObjectIdentifier;
use std::alloc::Global;
use std::io::Write;

/// A file of a peer: its object, and the word for it.
#[derive(Clone, Copy)]
struct Named<'a> {
    object: ObjectIdentifier,
    file: PeerFile<'a>,
}

/// The file of a task's peer that a word names. A word that names none: `bad words` on `err`, and which.
fn named_by<'a, E: Write>(
    alloc: Global,
    task: &FileTask,
    word: &'a str,
    err: &mut E,
) -> Result<Named<'a>, Status>
    ensures told { IfErr result IsStop }
{
    let object = object_named_by(alloc, word, err)?;
    let file = PeerFile {
        peer: task.peer,
        object: word,
    };
    Ok(Named { object, file })
}

/// Says on `err` which node did not answer, if that is how an ask ended.
fn tell_silence<E: Write>(alloc: Global, asking: &Asking, asked: &Asked, err: &mut E) {
    let outcome = outcome_of(&asked.end);
    if is_silent(outcome) {
        tell_no_answer(alloc, asked.question.peer, asking.timeout, outcome, err);
    }
}

/// Says on `err` that a file was not read to its end, and why.
fn tell_unread<E: Write>(
    alloc: Global,
    asking: &Asking,
    object: ObjectIdentifier,
    got: &Got,
    err: &mut E,
) -> Result<bool, Status>
    ensures told { IfErr result IsStop }
{
    tell_not_read(alloc, object, got, err)?;
    tell_silence(alloc, asking, &got.last, err);
    Ok(false)
}

/// Writes octets as they are. Where they cannot be written, `err` and the status say so.
fn write_octets<O: Write, E: Write>(octets: &[u8], out: &mut O, err: &mut E) -> Result<bool, Status>
    ensures told { IfErr result IsStop }
{
    match out.write_all(octets) {
        Ok(()) => Ok(true),
        Err(error) => Err(output_failed(err, &error)),
    }
}

/// Writes octets to a file and says how many, or as they are where no file is named.
fn deliver<F: OpenFiles, O: Write, E: Write>(
    files: &F,
    path: Option<&str>,
    octets: &[u8],
    out: &mut O,
    err: &mut E,
) -> Result<bool, Status>
    ensures told { IfErr result IsStop }
{
    match path {
        Some(path) => {
            let target = Target { files, path };
            write_out(&target, octets, out, err)
        }
        None => write_octets(octets, out, err),
    }
}

/// A new client reads a file of a task's peer as a whole, as far as the peer answers.
fn read_named<F: OpenFiles, M: ClientSockets, E: Write>(
    environment: &Environment<'_, F, M>,
    task: &FileTask,
    named: &Named<'_>,
    err: &mut E,
) -> Result<Got, Status>
    ensures told { IfErr result IsStop }
{
    let mut client = client_of(environment, &task.asking, err)?;
    let got = read_whole(&task.asking, &mut client, &named.file, err);
    drop(client);
    got
}

/// A client reads the file of a peer that a word names as a whole. Its octets are written to the file at a path, or as they are. Answers whether it was read to its end;
/// where it was not, nothing is written, and `err` says why.
pub(crate) fn fetch<F: OpenFiles, M: ClientSockets, O: Write, E: Write>(
    environment: &Environment<'_, F, M>,
    task: &FileTask,
    word: &str,
    path: Option<&str>,
    out: &mut O,
    err: &mut E,
) -> Result<bool, Status>
    ensures told { IfErr result IsStop }
{
    let alloc = environment.alloc;
    let named = named_by(alloc, task, word, err)?;
    if tells_unheard(environment, task.peer, err) {
        return Ok(false);
    }
    let got = read_named(environment, task, &named, err)?;
    let done = if got.is_whole {
        deliver(environment.files, path, &got.octets, out, err)
    } else {
        tell_unread(alloc, &task.asking, named.object, &got, err)
    };
    drop(got);
    done
}

/// Says on `err` that not all of so many octets were put into a file, what stands there, and why.
fn tell_unput<E: Write>(
    alloc: Global,
    asking: &Asking,
    of: (ObjectIdentifier, usize),
    put: &Put,
    err: &mut E,
) -> Result<bool, Status>
    ensures told { IfErr result IsStop }
{
    let (object, count) = of;
    let Ok(why) = end_words(alloc, &put.last) else {
        return Err(no_memory(err));
    };
    tell_news(alloc, object, &news_of_unput(count, put, &why), err);
    tell_silence(alloc, asking, &put.last, err);
    Ok(false)
}

/// A client writes octets into a file as all that it is to have. Answers whether it has these and no others; where it has not, `err` says what stands there.
fn put_named<M: ClientSockets, E: Write>(
    asking: &Asking,
    client: &mut Client<'_, M>,
    named: &Named<'_>,
    octets: &[u8],
    err: &mut E,
) -> Result<bool, Status>
    ensures told { IfErr result IsStop }
{
    let count = octets.len();
    let put = replace_whole(asking, client, &named.file, octets, err)?;
    let done = if put.is_whole {
        has_no_more(asking, client, &named.file, count, err)
    } else {
        let alloc = client.station.alloc;
        tell_unput(alloc, asking, (named.object, count), &put, err)
    };
    drop(put);
    done
}

/// A new client does so.
fn put_by_client<F: OpenFiles, M: ClientSockets, E: Write>(
    environment: &Environment<'_, F, M>,
    task: &FileTask,
    named: &Named<'_>,
    octets: &[u8],
    err: &mut E,
) -> Result<bool, Status>
    ensures told { IfErr result IsStop }
{
    let mut client = client_of(environment, &task.asking, err)?;
    let done = put_named(&task.asking, &mut client, named, octets, err);
    drop(client);
    done
}

/// Says how many octets were put.
fn print_put<O: Write, E: Write>(count: usize, out: &mut O, err: &mut E) -> Result<bool, Status>
    ensures told { IfErr result IsStop }
{
    let written = writeln!(out, "put {count} octets");
    match written {
        Ok(()) => Ok(true),
        Err(error) => Err(output_failed(err, &error)),
    }
}

/// A client writes octets into a file of a task's peer, and says how many. Answers whether it has these and no others.
fn send_octets<F: OpenFiles, M: ClientSockets, O: Write, E: Write>(
    environment: &Environment<'_, F, M>,
    task: &FileTask,
    named: &Named<'_>,
    octets: &[u8],
    out: &mut O,
    err: &mut E,
) -> Result<bool, Status>
    ensures told { IfErr result IsStop }
{
    if put_by_client(environment, task, named, octets, err)? {
        print_put(octets.len(), out, err)
    } else {
        Ok(false)
    }
}

/// A client writes the octets of a file into the one of a peer that a word names, and says how many. Answers whether that has these octets and no others; where it has
/// not, `err` says what stands there, and why.
pub(crate) fn send<F: OpenFiles, M: ClientSockets, O: Write, E: Write>(
    environment: &Environment<'_, F, M>,
    task: &FileTask,
    word: &str,
    path: &str,
    out: &mut O,
    err: &mut E,
) -> Result<bool, Status>
    ensures told { IfErr result IsStop }
{
    let named = named_by(environment.alloc, task, word, err)?;
    let file = opened(environment.files, path, err)?;
    let octets = octets_of(environment.alloc, path, file, err)?;
    if tells_unheard(environment, task.peer, err) {
        return Ok(false);
    }
    send_octets(environment, task, &named, &octets, out, err)
}
