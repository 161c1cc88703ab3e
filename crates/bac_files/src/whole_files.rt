//! What `ask` does with whole files: `get T:I`, `--out FILE`, and `put T:I @FILE`.
ghost use Rattle.std.specs.Prelude.{IfErr};
ghost use Rattle.bac_text.specs.Statuses.{IsStop};

use crate::file_news::{READ_ONLY, write_uncut};
use crate::file_task::FileTask;
use crate::peer_file::PeerFile;
use crate::reasons::print_unwritten;
use crate::whole_reading::{Got, read_whole, whole_end};
use crate::whole_writing::{Put, Uncut, replace_whole, size_of, written_end};
use bac_asking::{Asking, Client, print_header};
use bac_commands::Style;
use bac_driver::{AskEnd, Question};
use bac_environment::{ClientSockets, Environment, OpenFiles, octets_of, opened};
use bac_text::{Status, no_memory, output_failed};
use std::io;
use std::io::Write;

/// The file that a whole file is written to.
#[derive(Drop)]
pub(crate) struct Target<'e, F> {
    pub files: &'e F,
    pub path: &'e str,
}

/// A client of a task's machine, at the address that its peer sees.
pub(crate) fn client_of<'e, F: OpenFiles, M: ClientSockets, E: Write>(
    environment: &Environment<'e, F, M>,
    asking: &Asking,
    err: &mut E,
) -> Result<Client<'e, M>, Status>
    ensures told { IfErr result IsStop }
{
    Client::new(environment.alloc, environment.machine, asking.host, err)
}

/// Prints how the ask of a question ended as `ask` does, below what stands above records. Answers whether it succeeded.
fn print_asked<M: ClientSockets, O: Write, E: Write>(
    asking: &Asking,
    client: &Client<'_, M>,
    question: &Question,
    end: &AskEnd,
    out: &mut O,
    err: &mut E,
) -> Result<bool, Status>
    ensures told { IfErr result IsStop }
{
    let alloc = client.station.alloc;
    print_header(alloc, asking, out, err)?;
    client.print_end(asking, question, end, out, err)
}

/// Writes octets to a file, and says how many. Where they cannot be written, `err` and the status say so.
pub(crate) fn write_out<F: OpenFiles, O: Write, E: Write>(
    target: &Target<'_, F>,
    octets: &[u8],
    out: &mut O,
    err: &mut E,
) -> Result<bool, Status>
    ensures told { IfErr result IsStop }
{
    if let Err(error) = target.files.write_out(target.path, octets) {
        return Err(print_unwritten(target.path, &error, err));
    }
    let count = octets.len();
    let written = writeln!(out, "got {count} octets");
    match written {
        Ok(()) => Ok(true),
        Err(error) => Err(output_failed(err, &error)),
    }
}

/// Prints a file that was read as a whole, as the answer to one read of all of it.
fn print_whole<M: ClientSockets, O: Write, E: Write>(
    asking: &Asking,
    client: &Client<'_, M>,
    got: Got,
    out: &mut O,
    err: &mut E,
) -> Result<bool, Status>
    ensures told { IfErr result IsStop }
{
    let Got { octets, last, .. } = got;
    let end = whole_end(octets);
    let done = match &end {
        Some(end) => print_asked(asking, client, &last.question, end, out, err),
        None => Err(no_memory(err)),
    };
    drop(end);
    drop(last);
    done
}

/// Whether the end of a read is printed on standard output: octets alone are not, where they are no part of the file.
fn is_printed(asking: &Asking, got: &Got) -> bool {
    got.fault.is_none() || asking.output_format.style != Style::Octets
}

/// Prints how the read ended that was not answered with the next part, and says how many octets were read before.
fn print_stopped<M: ClientSockets, O: Write, E: Write>(
    asking: &Asking,
    client: &Client<'_, M>,
    object: &str,
    got: &Got,
    out: &mut O,
    err: &mut E,
) -> Result<bool, Status>
    ensures told { IfErr result IsStop }
{
    if is_printed(asking, got) {
        print_asked(asking, client, &got.last.question, &got.last.end, out, err)?;
    }
    let count = got.octets.len();
    // if that fails too, only the status is left
    let _ = match got.fault {
        Some(fault) => writeln!(err, "{object}: read stopped after {count} octets: {fault}"),
        None => writeln!(err, "{object}: read stopped after {count} octets"),
    };
    Ok(false)
}

/// A client reads a file of a peer as a whole, which is printed as the answer to one read of all of it. Answers whether it was read to its end.
fn show_whole<M: ClientSockets, O: Write, E: Write>(
    asking: &Asking,
    client: &mut Client<'_, M>,
    file: &PeerFile<'_>,
    out: &mut O,
    err: &mut E,
) -> Result<bool, Status>
    ensures told { IfErr result IsStop }
{
    let got = read_whole(asking, client, file, err)?;
    if got.is_whole {
        return print_whole(asking, client, got, out, err);
    }
    let done = print_stopped(asking, client, file.object, &got, out, err);
    drop(got);
    done
}

/// The same, but it is written to a file.
fn copy_whole<F: OpenFiles, M: ClientSockets, O: Write, E: Write>(
    target: &Target<'_, F>,
    asking: &Asking,
    client: &mut Client<'_, M>,
    file: &PeerFile<'_>,
    out: &mut O,
    err: &mut E,
) -> Result<bool, Status>
    ensures told { IfErr result IsStop }
{
    let got = read_whole(asking, client, file, err)?;
    let done = if got.is_whole {
        write_out(target, &got.octets, out, err)
    } else {
        print_stopped(asking, client, file.object, &got, out, err)
    };
    drop(got);
    done
}

/// A client reads a file of a peer as a whole. It is printed as the answer to one read of all of it, or written to the file at a path. Answers whether it was
/// read to its end; where it was not, nothing is written, and `err` says how many octets were read.
pub(crate) fn get<F: OpenFiles, M: ClientSockets, O: Write, E: Write>(
    environment: &Environment<'_, F, M>,
    task: &FileTask,
    object: &str,
    path: Option<&str>,
    out: &mut O,
    err: &mut E,
) -> Result<bool, Status>
    ensures told { IfErr result IsStop }
{
    let asking = &task.asking;
    let peer = task.peer;
    let file = PeerFile { peer, object };
    let files = environment.files;
    let mut client = client_of(environment, asking, err)?;
    let done = match path {
        Some(path) => {
            let target = Target { files, path };
            copy_whole(&target, asking, &mut client, &file, out, err)
        }
        None => show_whole(asking, &mut client, &file, out, err),
    };
    drop(client);
    done
}

/// Writes what became of a file that was not emptied, behind the words for its object.
fn write_object_uncut<O: Write>(object: &str, uncut: Uncut, out: &mut O) -> io::Result<()> {
    write!(out, "{object} ")?;
    write_uncut(uncut, out)?;
    out.write_all(b"\n")
}

/// Says of a file that was not put as a whole what stands there.
fn tell_unput<E: Write>(of: (&str, usize), put: &Put, err: &mut E) {
    let (object, count) = of;
    let written = put.count;
    // if that fails too, only the status is left
    let _ = match put.uncut {
        _ if put.is_read_only => writeln!(err, "{object} {READ_ONLY}"),
        Some(uncut) => write_object_uncut(object, uncut, err),
        None => writeln!(err, "{object}: {written} of {count} octets were written"),
    };
}

/// Prints how the writing of a file ended: the first write where all were performed, otherwise the last, and what stands there then. Answers whether all were.
fn print_put<M: ClientSockets, O: Write, E: Write>(
    asking: &Asking,
    client: &Client<'_, M>,
    of: (&str, usize),
    put: &Put,
    out: &mut O,
    err: &mut E,
) -> Result<bool, Status>
    ensures told { IfErr result IsStop }
{
    let question = &put.last.question;
    if put.is_whole {
        let end = written_end();
        let done = print_asked(asking, client, question, &end, out, err);
        drop(end);
        return done;
    }
    print_asked(asking, client, question, &put.last.end, out, err)?;
    tell_unput(of, put, err);
    Ok(false)
}

/// Whether a file has no more octets than were put into it; where it has more, or does not tell, `err` says so.
pub(crate) fn has_no_more<M: ClientSockets, E: Write>(
    asking: &Asking,
    client: &mut Client<'_, M>,
    file: &PeerFile<'_>,
    count: usize,
    err: &mut E,
) -> Result<bool, Status>
    ensures told { IfErr result IsStop }
{
    let object = file.object;
    // if that fails too, only the status is left
    let _ = match size_of(asking, client, file, err)? {
        Some(size) if size <= count as u64 => return Ok(true),
        Some(size) => writeln!(
            err,
            "{object} remains longer: {size} octets, of which the first {count} were written"
        ),
        None => writeln!(
            err,
            "{object}: {count} octets were written; file-size was not read, so more may follow"
        ),
    };
    Ok(false)
}

/// A client writes octets to a file of a peer, from position 0 on. Prints how that ended. Answers whether all were written.
fn put_octets<M: ClientSockets, O: Write, E: Write>(
    asking: &Asking,
    client: &mut Client<'_, M>,
    file: &PeerFile<'_>,
    octets: &[u8],
    out: &mut O,
    err: &mut E,
) -> Result<bool, Status>
    ensures told { IfErr result IsStop }
{
    let put = replace_whole(asking, client, file, octets, err)?;
    let done = print_put(asking, client, (file.object, octets.len()), &put, out, err);
    drop(put);
    done
}

/// The same, and looks whether the file has more then. Answers whether it has these octets, and no more.
fn put_and_look<M: ClientSockets, O: Write, E: Write>(
    asking: &Asking,
    client: &mut Client<'_, M>,
    file: &PeerFile<'_>,
    octets: &[u8],
    out: &mut O,
    err: &mut E,
) -> Result<bool, Status>
    ensures told { IfErr result IsStop }
{
    if !put_octets(asking, client, file, octets, out, err)? {
        return Ok(false);
    }
    has_no_more(asking, client, file, octets.len(), err)
}

/// A new client does so.
fn put_by_client<F: OpenFiles, M: ClientSockets, O: Write, E: Write>(
    environment: &Environment<'_, F, M>,
    task: &FileTask,
    object: &str,
    octets: &[u8],
    out: &mut O,
    err: &mut E,
) -> Result<bool, Status>
    ensures told { IfErr result IsStop }
{
    let asking = &task.asking;
    let peer = task.peer;
    let file = PeerFile { peer, object };
    let mut client = client_of(environment, asking, err)?;
    let done = put_and_look(asking, &mut client, &file, octets, out, err);
    drop(client);
    done
}

/// A client writes the octets of a file into one of a peer, which has these octets then and no others; the answer is whether it has. Where it has not, `err` says
/// what stands there.
pub(crate) fn put<F: OpenFiles, M: ClientSockets, O: Write, E: Write>(
    environment: &Environment<'_, F, M>,
    task: &FileTask,
    object: &str,
    path: &str,
    out: &mut O,
    err: &mut E,
) -> Result<bool, Status>
    ensures told { IfErr result IsStop }
{
    let file = opened(environment.files, path, err)?;
    let octets = octets_of(environment.alloc, path, file, err)?;
    put_by_client(environment, task, object, &octets, out, err)
}
