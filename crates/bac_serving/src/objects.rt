//! Commands of a node with objects: those of the house, or those that a file means.
ghost use Rattle.std.specs.Prelude.{IfErr, IfOk};
ghost use Rattle.std.specs.Option.{option_map};
ghost use Rattle.bac_commands.specs.AnswerTexts.{IsAnswered, IsAnsweredBy};
ghost use Rattle.bac_text.specs.Statuses.{IsStop};
ghost use Rattle.bac_environment.specs.Files.{OfFile, OnFile};
ghost use Rattle.bac_serving.specs.Keeping.{IsDocument};
ghost use Rattle.bac_serving.specs.Online.{IsServedBy};
ghost use Rattle.bac_environment.specs.Sockets.{OnClock, OnPort};
ghost use Rattle.bac_store.specs.House.{house as spec_house};
ghost use Rattle.bac_serving.specs.Stores.{IsAnsweredFrom, IsServedFrom, MeansStore};

use crate::online;
use crate::reasons::print_document_fault;
use crate::serving::Serving;
use bac_commands::answer_over;
use bac_environment::{
    Digits, Environment, OpenFiles, Sockets, StandardError, octets_of, opened, print_bad_digit,
};
use bac_objects::{DocumentFault, read_objects};
use bac_store::{Store, house};
use bac_text::{Status, no_memory};
use std::alloc::Global;
use std::io::{Read, Write};

/// Complains of octets that mean no store.
fn print_no_store<E: Write>(
    alloc: Global,
    path: &str,
    octets: &[u8],
    fault: &DocumentFault,
    err: &mut E,
) -> Status
    ensures { IsStop result }
{
    if matches!(fault, DocumentFault::NoMemory) {
        return no_memory(err);
    }
    print_document_fault(alloc, path, octets, fault, err)
}

/// The store that octets mean; where they mean none, `err` and the status say why.
pub(crate) fn store_in<E: Write>(
    alloc: Global,
    path: &str,
    octets: &[u8],
    err: &mut E,
) -> Result<Store, Status>
    ensures store { IfOk result (λ s. MeansStore (Some octets.now) s) }
    ensures told { IfErr result IsStop }
{
    match read_objects(alloc, octets) {
        Ok(store) => Ok(store),
        Err(fault) => {
            let status = print_no_store(alloc, path, octets, &fault, err);
            drop(fault);
            Err(status)
        }
    }
}

/// The store that the octets of an open file mean.
#[tactic(auto, using(crate::proofs::StoresOfFiles::meant_by_file))]
fn store_from<F: Read + Drop, E: Write>(
    alloc: Global,
    path: &str,
    file: F,
    err: &mut E,
) -> Result<Store, Status>
    ensures store { IfOk result (λ s. MeansStore (F.remaining file) s) }
    ensures told { IfErr result IsStop }
{
    let octets = octets_of(alloc, path, file, err)?;
    store_in(alloc, path, &octets, err)
}

/// The store that a file means.
fn store_of<F: OpenFiles, E: Write>(
    alloc: Global,
    files: &F,
    path: &str,
    err: &mut E,
) -> Result<Store, Status>
    ensures store { IfOk result (λ s. OfFile (OnFile F.is_file F.File.remaining) path.now (λ content. MeansStore content s)) }
    ensures told { IfErr result IsStop }
{
    let file = opened(files, path, err)?;
    store_from(alloc, path, file, err)
}

/// What answers a datagram, of a node of that store. Text that is no hexadecimal: `bad hex` on `err`, and why.
fn answer_of_store<O: Write, E: Write>(
    alloc: Global,
    store: Store,
    datagram: &str,
    out: &mut O,
    err: &mut E,
) -> Status
    ensures { IsAnsweredBy store datagram.now (O.contents out.old) (O.contents out.new) result }
{
    let status = answer_over(alloc, store, datagram, out, err);
    print_bad_digit(status, datagram, Digits::Alone, err);
    status
}

fn answer_house<O: Write, E: Write>(
    alloc: Global,
    datagram: &str,
    out: &mut O,
    err: &mut E,
) -> Status
    ensures { IsAnswered datagram.now (O.contents out.old) (O.contents out.new) result }
{
    match house(alloc) {
        Ok(store) => answer_of_store(alloc, store, datagram, out, err),
        Err(_) => no_memory(err),
    }
}

/// Prints the datagrams with which a node answers a datagram. Its store is that of a document, or the house if there is no document.
///
/// If the document cannot be read, prints `cannot read` and the reason on `err`. If it is invalid, prints its path and why.
pub fn answer<F: OpenFiles, O: Write, E: Write>(
    alloc: Global,
    files: &F,
    datagram: &str,
    objects: Option<&str>,
    out: &mut O,
    err: &mut E,
) -> Status
    ensures { IsAnsweredFrom (OnFile F.is_file F.File.remaining) (option_map (λ p. p.now) objects.entry) datagram.now result
        (O.contents out.old) (O.contents out.new) }
{
    let Some(path) = objects else {
        return answer_house(alloc, datagram, out, err);
    };
    match store_of(alloc, files, path, err) {
        Ok(store) => answer_of_store(alloc, store, datagram, out, err),
        Err(status) => status,
    }
}

fn serve_house<M: Sockets + StandardError, O: Write, E: Write>(
    alloc: Global,
    machine: &M,
    serving: &Serving,
    out: &mut O,
    err: &mut E,
) -> Status
    ensures { IsServedBy spec_house (OnPort M.is_bound M.Link.failures M.Link.calls) (OnClock M.is_made M.Timer.told) result serving.now
        (O.contents out.old) (O.contents out.new) }
{
    match house(alloc) {
        Ok(store) => online::serve(alloc, machine, store, serving, out, err),
        Err(_) => no_memory(err),
    }
}

/// The house, or the store that a file means.
pub(crate) fn document_of<F: OpenFiles, M: Sockets, E: Write>(
    environment: &Environment<'_, F, M>,
    objects: Option<&str>,
    err: &mut E,
) -> Result<Store, Status>
    ensures document { IfOk result (λ s. IsDocument (OnFile F.is_file F.File.remaining) (option_map (λ p. p.now) objects.entry) s) }
    ensures told { IfErr result IsStop }
{
    let alloc = environment.alloc;
    match objects {
        Some(path) => store_of(alloc, environment.files, path, err),
        None => match house(alloc) {
            Ok(store) => Ok(store),
            Err(_) => Err(no_memory(err)),
        },
    }
}

/// Serves a node over the objects of a document, or the house if there is no document. If the document cannot be read or is invalid, prints why on `err`.
pub fn serve<F: OpenFiles, M: Sockets + StandardError, O: Write, E: Write>(
    environment: &Environment<'_, F, M>,
    serving: &Serving,
    objects: Option<&str>,
    out: &mut O,
    err: &mut E,
) -> Status
    ensures { IsServedFrom (OnFile F.is_file F.File.remaining) (option_map (λ p. p.now) objects.entry) (OnPort M.is_bound M.Link.failures M.Link.calls)
        (OnClock M.is_made M.Timer.told) result serving.now (O.contents out.old) (O.contents out.new) }
{
    let alloc = environment.alloc;
    let Some(path) = objects else {
        return serve_house(alloc, environment.machine, serving, out, err);
    };
    match store_of(alloc, environment.files, path, err) {
        Ok(store) => online::serve(alloc, environment.machine, store, serving, out, err),
        Err(status) => status,
    }
}
