//! `serve --keep`: a node whose store a database keeps.
ghost use Rattle.std.specs.Prelude.{◌≡◌, ◌⊎◌, ◌≤◌, true, false, is_some, IfErr, IfOk, IfSome, OnOk};
ghost use Rattle.std.specs.Option.{option_map};
ghost use Rattle.bac_commands.specs.Statuses.{ByStatus};
ghost use Rattle.bac_driver.specs.Kept.{keeper_of as keeper_in};
ghost use Rattle.bac_driver.specs.Rounds.{IsKept};
ghost use Rattle.bac_driver.specs.Runs.{timed};
ghost use Rattle.sqlite_trees.specs.View.{IsClean, doubt};
ghost use Rattle.bac_keep_file.specs.Steps.{IsReady, NoMore};
ghost use Rattle.bac_text.specs.Statuses.{IsFailure, IsStop};
ghost use Rattle.bac_environment.specs.Files.{OnFile};
ghost use Rattle.bac_serving.specs.Keeping.{EndsWith, HasStore, IsServedKept, IsServedOver, IsServedStore, OnDatabase, RunsInRounds, RunsInStretches, RunsTo};
ghost use Rattle.bac_environment.specs.Sockets.{OnClock, OnPort};

use crate::dropping::Dropping;
use crate::following_keeper::FollowingKeeper;
use crate::keep_faults::print_keep_fault;
use crate::kept_station::KeptStation;
use crate::looking::{Looker, Served, serve_with, served_document};
use crate::online::station_of;
use crate::part_words::print_about;
use crate::serving::{Serving, Start, print_not_bound, serve_kept_from};
use bac_commands::CommandError;
use bac_driver::{Clock, Link, Round};
use bac_environment::{Environment, RegularFiles, Sockets, StandardError, StandardInput, Station};
use bac_keep::{KeepFault, Keeper, Part};
use bac_keep_file::{CellKeeper, Databases, Loss, OpenFault};
use bac_server::KeptServer;
use bac_store::Store as Objects;
use bac_text::{Status, no_memory};
use sqlite_trees::store::Store;
use std::alloc::Global;
use std::io::Write;

/// Tells behind the fault of a file that can't be opened the system's reason, if it tells one.
fn print_refusal<M: Databases, E: Write>(machine: &M, path: &str, err: &mut E) {
    if let Some(error) = machine.refusal_of_database(path) {
        // if that fails too, only the status is left
        let _ = writeln!(err, "{path}: {error}");
    }
}

/// What a lost log, or a lost file, means for what is kept.
fn loss_of(fault: OpenFault) -> Option<(&'static str, &'static str)> {
    match fault {
        OpenFault::LogMissing => Some(("-wal", "is missing or empty")),
        OpenFault::LogCut => Some(("-wal", "is cut off")),
        OpenFault::LogDamaged => Some(("-wal", "is damaged")),
        OpenFault::FileMissing => Some(("", "is missing or empty, but its -wal exists")),
        _ => None,
    }
}

/// Tells why the file at a path is not opened.
fn print_unopened<E: Write>(path: &str, fault: OpenFault, err: &mut E) {
    // if that fails too, only the status is left
    let _ = match loss_of(fault) {
        Some((end, what)) => {
            let hint = "the latest writes may be lost; to continue with what is left";
            writeln!(
                err,
                "{path}{end} {what}: {hint}, run: bac keep {path} --accept-loss"
            )
        }
        None => writeln!(err, "{path}: {fault}"),
    };
}

/// The database of the file at a path, and whether it is new; where it can't be opened, `err` and the status say why.
pub(crate) fn open_kept<M: Databases, E: Write>(
    machine: &M,
    path: &str,
    loss: Loss,
    err: &mut E,
) -> Result<(M::Database, bool), Status>
    ensures opened { IfOk result (λ r. M.is_database path.now r.1 r.0) }
    ensures told { IfErr result IsStop }
{
    match machine.open_database(path, loss) {
        Ok((database, is_new)) => Ok((database, is_new)),
        Err(OpenFault::NoMemory) => Err(no_memory(err)),
        Err(fault) => {
            print_unopened(path, fault, err);
            if matches!(fault, OpenFault::CannotOpen) {
                print_refusal(machine, path, err);
            }
            Err(Status::CommandLine)
        }
    }
}

/// Complains of a database whose cells can't be used with the document.
pub(crate) fn print_not_kept<E: Write>(
    alloc: Global,
    path: &str,
    fault: KeepFault,
    err: &mut E,
) -> Status
    ensures { IsStop result }
{
    // if printing fails too, only the status is left
    match fault {
        KeepFault::NoMemory => return no_memory(err),
        KeepFault::BadValues {
            object,
            property,
            ..
        } => {
            let why = "kept values that the property cannot have";
            let _ = print_about(alloc, path, object, Some(property), why, err);
        }
        KeepFault::BadOctets { object, .. } => {
            let why = "kept octets that the file cannot have";
            let _ = print_about(alloc, path, object, None, why, err);
        }
        other => {
            let _ = writeln!(err, "{path}: {other}");
        }
    }
    Status::CommandLine
}

/// Prints what is kept and has no effect.
fn print_idle<E: Write>(alloc: Global, path: &str, idle: &[Part], err: &mut E) {
    for part in idle {
        let (object, property) = match *part {
            Part::Values { object, property } => (object, Some(property)),
            Part::Count { object } | Part::Chunk { object, .. } => (object, None),
        };
        // if that fails too, nothing is printed
        let _ = print_about(
            alloc,
            path,
            object,
            property,
            "kept, but not writable in the document",
            err,
        );
    }
}

/// Tells on `err` what a keeper keeps and has no effect. Where the database fails, `err` and the status say why.
fn tell_idle<S: Store + Drop, E: Write>(
    alloc: Global,
    path: &str,
    keeper: &mut CellKeeper<S>,
    err: &mut E,
) -> Result<(), Status>
    requires { IsClean (S.view keeper.old.database) → IsReady (S.view keeper.old.database) }
    ensures honest { doubt (S.view keeper.old.database).is_clean ≤ doubt (S.view keeper.new.database).is_clean }
    ensures document { keeper.new.document ≡ keeper.old.document }
    ensures open { OnOk result (IsClean (S.view keeper.new.database) → IsReady (S.view keeper.new.database)) }
    ensures noted { OnOk result (IsClean (S.view keeper.new.database) → (S.view keeper.new.database).trees ≡ (S.view keeper.old.database).trees) }
    ensures kept { OnOk result (IsClean (S.view keeper.new.database) → (S.view keeper.new.database).committed ≡ (S.view keeper.old.database).committed) }
    ensures told { IfErr result IsStop }
{
    match keeper.idle() {
        Ok(idle) => {
            print_idle(alloc, path, &idle, err);
            Ok(())
        }
        Err(fault) => Err(print_not_kept(alloc, path, fault, err)),
    }
}

/// The keeper of a database over a document, and the store that they make. What is kept and has no effect is told on `err`. Where the keeper can't be opened,
/// `err` and the status say why.
fn keeper_over<S: Store + Drop, E: Write>(
    alloc: Global,
    path: &str,
    database: S,
    document: Objects,
    err: &mut E,
) -> Result<(CellKeeper<S>, Objects), Status>
    ensures document { IfOk result (λ r. r.0.document ≡ document) }
    ensures store { IfOk result (λ r. HasStore S.view database document r.1 r.0.database) }
    ensures told { IfErr result IsStop }
{
    let (mut keeper, store) = match CellKeeper::open(alloc, document, database) {
        Ok(opened) => opened,
        Err((fault, _)) => return Err(print_not_kept(alloc, path, fault, err)),
    };
    match tell_idle(alloc, path, &mut keeper, err) {
        Ok(()) => Ok((keeper, store)),
        Err(status) => {
            drop(keeper);
            drop(store);
            Err(status)
        }
    }
}

/// The keeper of a server, if it has not failed.
fn keeper_left<L: Link + Drop, C: Clock + Drop, K: Keeper>(server: KeptServer<L, C, K>) -> Option<K>
    ensures { IfSome result (λ k. k ≡ keeper_in server.round) }
{
    let KeptServer {
        bound_node,
        clock,
        round,
        fault,
    } = server;
    drop(bound_node);
    drop(clock);
    match fault {
        None => Some(round.into_keeper()),
        Some(_) => {
            drop(round);
            None
        }
    }
}

/// A node whose store is kept serves in rounds from a moment on. Returns the keeper too where it has not failed.
fn in_rounds<M: Sockets + StandardError, K: Keeper, O: Write, E: Write>(
    environment: (Global, &M, &str),
    serving: &Serving,
    start: Start,
    server: KeptServer<M::Link, M::Timer, K>,
    out: &mut O,
    err: &mut E,
) -> (Status, Option<K>)
    requires { K.IsHonest (keeper_in server.round) → IsKept K.IsOpen K.kept K.noted (keeper_in server.round) server.bound_node.node.store }
    ensures { ByStatus result.0 (RunsTo (RunsInRounds serving.now start.moment (timed server.bound_node (M.Timer.told server.clock))
        (O.contents out.old) (O.contents out.new)) (EndsWith K.IsHonest K.IsOpen K.kept K.noted K.base false (keeper_in server.round) result.1)) ⊥ ⊥ }
{
    let (alloc, machine, path) = environment;
    let mut server = server;
    let format = serving.log_format(start);
    // from here on standard error must not make the server wait
    let mut err = Dropping::new(alloc, machine, machine.timer(), format, err);
    let status = serve_kept_from(alloc, serving, start, &mut server, out, &mut err);
    print_keep_fault(path, server.fault, &mut err);
    err.end();
    let keeper = keeper_left(server);
    (status, keeper)
}

/// A node whose store is kept serves in stretches, with what it looks at between them. Returns the keeper too where it has not failed.
fn in_stretches<
    F: RegularFiles,
    M: Sockets + StandardInput + StandardError,
    K: FollowingKeeper,
    O: Write,
    E: Write,
>(
    environment: &Environment<'_, F, M>,
    looker: Looker<'_, F::File>,
    station: Station<M::Link, M::Timer>,
    round: Round<K>,
    out: &mut O,
    err: &mut E,
) -> (Status, Option<K>)
    requires { K.IsHonest (keeper_in round) → IsKept K.IsOpen K.kept K.noted (keeper_in round) station.bound_node.node.store }
    ensures { ByStatus result.0 (RunsTo (RunsInStretches looker.entry.stop (timed station.bound_node (M.Timer.told station.clock))
        (O.contents out.old) (O.contents out.new)) (EndsWith K.IsHonest K.IsOpen K.kept K.noted K.base true (keeper_in round) result.1)) ⊥ ⊥ }
{
    let Station {
        alloc,
        bound_node,
        clock,
    } = station;
    let mut station = KeptStation {
        alloc,
        bound_node,
        clock,
        round: Some(round),
        fault: None,
    };
    let served = serve_with(environment, looker, &mut station, out, err);
    let keeper = station.into_keeper();
    match served {
        Ok(()) => (Status::Done, keeper),
        Err(status) => (status, keeper),
    }
}

/// A node with a store, which a keeper keeps in the file at a path, serves; if its document is followed, in stretches. Returns the keeper too where the node has
/// served and the keeper has not failed.
fn serve_round<
    F: RegularFiles,
    M: Sockets + StandardInput + StandardError,
    K: FollowingKeeper,
    O: Write,
    E: Write,
>(
    environment: (&Environment<'_, F, M>, &str),
    serving: &Serving,
    round: Round<K>,
    served: Served<'_, F::File>,
    out: &mut O,
    err: &mut E,
) -> (Status, Option<K>)
    requires { K.IsHonest (keeper_in round) → IsKept K.IsOpen K.kept K.noted (keeper_in round) served.store }
    ensures { IsServedStore (is_some served.entry.followed) served.entry.store (OnPort M.is_bound M.Link.failures M.Link.calls) (OnClock M.is_made M.Timer.told)
        result.0 serving.now (EndsWith K.IsHonest K.IsOpen K.kept K.noted K.base (is_some served.entry.followed) (keeper_in round) result.1)
        (O.contents out.old) (O.contents out.new) }
{
    let (environment, path) = environment;
    let Served { store, followed } = served;
    let (station, start) = match station_of(
        environment.alloc,
        environment.machine,
        serving,
        store,
        err,
    ) {
        Ok(station) => station,
        Err(status) => {
            drop(round);
            drop(followed);
            return (status, None);
        }
    };
    let alloc = environment.alloc;
    match followed {
        None => {
            let Station {
                alloc: _,
                bound_node,
                clock,
            } = station;
            let server = KeptServer {
                bound_node,
                clock,
                round,
                fault: None,
            };
            let environment = (alloc, environment.machine, path);
            in_rounds(environment, serving, start, server, out, err)
        }
        Some(followed) => {
            let looker = Looker::new(alloc, serving, start, Some(followed), Some(path));
            in_stretches(environment, looker, station, round, out, err)
        }
    }
}

/// Closes a database at a path. Where that fails, `err` says why, and the status is `Output`, unless the one before was bad.
fn close_kept<M: Databases, E: Write>(
    machine: &M,
    path: &str,
    database: &mut M::Database,
    status: Status,
    err: &mut E,
) -> Status
    ensures status { (result ≡ status) ⊎ IsFailure result }
    ensures clean { doubt (M.Database.view database.old).is_clean ≤ doubt (M.Database.view database.new).is_clean }
    ensures crash { NoMore M.Database.recovers database.old database.new }
{
    match machine.close_database(database) {
        Ok(()) => status,
        Err(fault) => {
            let failed = CommandError::Keep(fault).report(err);
            print_keep_fault(path, Some(fault), err);
            if status == Status::Done {
                failed
            } else {
                status
            }
        }
    }
}

/// A node serves with the store that a database, which may be new, makes over a document.
fn serve_database<
    F: RegularFiles,
    M: Sockets + Databases + StandardInput + StandardError,
    O: Write,
    E: Write,
>(
    environment: &Environment<'_, F, M>,
    serving: &Serving,
    path: &str,
    served: Served<'_, F::File>,
    out: &mut O,
    err: &mut E,
) -> Status
    ensures { IsServedOver (is_some served.entry.followed) (OnDatabase M.is_database M.Database.view M.Database.recovers)
        (OnPort M.is_bound M.Link.failures M.Link.calls) (OnClock M.is_made M.Timer.told) result serving.now path.now served.entry.store
        (O.contents out.old) (O.contents out.new) }
{
    let alloc = environment.alloc;
    let machine = environment.machine;
    // (a port that is taken is told before the file is made: a server that finds its file there begins as one that was restarted)
    if let Err(error) = machine.bind(serving.host, serving.port, &serving.guard) {
        return print_not_bound(serving, &error, err);
    }
    let (database, is_new) = match open_kept(machine, path, Loss::Refused, err) {
        Ok(opened) => opened,
        Err(status) => return status,
    };
    let Served {
        store: document,
        followed,
    } = served;
    let (keeper, store) = match keeper_over(alloc, path, database, document, err) {
        Ok(opened) => opened,
        Err(status) => return status,
    };
    let Ok(round) = Round::new(alloc, keeper) else {
        return no_memory(err);
    };
    let serving = serving.restarted_by(is_new);
    let served = Served { store, followed };
    let environment = (environment, path);
    let (status, keeper) = serve_round(environment, &serving, round, served, out, err);
    let Some(keeper) = keeper else {
        return status;
    };
    let mut database = keeper.into_database();
    close_kept(machine, path, &mut database, status, err)
}

/// Serves a node whose store the file at a path keeps, over the objects of a document, or the house if there is no document. If the file is not new, the node
/// restarts. If the document is followed, what it changes while the node serves is kept too.
///
/// If the file cannot be opened, is damaged or in use, or keeps values that the document cannot have, prints the path and why on `err`. Then nothing has changed.
/// So it does if the document cannot be read or is invalid, or is to be followed and too large or no regular file.
pub fn serve_kept<
    F: RegularFiles,
    M: Sockets + Databases + StandardInput + StandardError,
    O: Write,
    E: Write,
>(
    environment: &Environment<'_, F, M>,
    serving: &Serving,
    objects: Option<&str>,
    path: &str,
    out: &mut O,
    err: &mut E,
) -> Status
    ensures { IsServedKept (OnFile F.is_file F.File.remaining) (option_map (λ p. p.now) objects.entry)
        (OnDatabase M.is_database M.Database.view M.Database.recovers) (OnPort M.is_bound M.Link.failures M.Link.calls) (OnClock M.is_made M.Timer.told) result
        serving.now path.now (O.contents out.old) (O.contents out.new) }
{
    match served_document(environment, serving, objects, err) {
        Ok(served) => serve_database(environment, serving, path, served, out, err),
        Err(status) => status,
    }
}
