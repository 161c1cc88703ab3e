//! `serve --follow` and `serve --until-eof`: serving in stretches of at most a second, between which a server looks at its document and at standard input.
ghost use Rattle.std.specs.Prelude.{◌≡◌, ◌≤◌, true, is_some, IfErr, IfOk, IfSome, MatchBool, MatchOption, OnOk};
ghost use Rattle.std.specs.Option.{option_map};
ghost use Rattle.bac_commands.specs.Statuses.{ByStatus};
ghost use Rattle.std.specs.Io.KnownBytes.{Keeps};
ghost use Rattle.bac_driver.specs.Serving.{IsBefore, IsOver};
ghost use Rattle.bac_driver.specs.Waits.{MOST};
ghost use Rattle.bac_text.specs.Statuses.{IsFailure, IsStop};
ghost use Rattle.bac_environment.specs.Files.{OfFile, OnFile};
ghost use Rattle.bac_serving.specs.Keeping.{IsDocument, is_followed};
ghost use Rattle.bac_serving.specs.Looking.{IsServedLooking, ServesLooking};
ghost use Rattle.bac_serving.specs.Stretches.{IsChanged, PrintsStretches, TakesStretch, TakesStretches, stop_limit, stop_of, stretch_limit};
ghost use Rattle.bac_serving.specs.Stretches.{STRETCH as stretch_most};
ghost use Rattle.bac_environment.specs.Sockets.{OnClock, OnPort};
ghost use Rattle.bac_serving.specs.Stores.{MeansStore};

use crate::dropping::Dropping;
use crate::extent::has_too_many_keys;
use crate::followed::{Followed, FollowedPath, print_too_many_keys, print_unread_words};
use crate::keep_faults::print_keep_fault;
use crate::objects::{document_of, store_in};
use crate::online::station_of;
use crate::serving::{Serving, Start};
use crate::stretching::Stretching;
use bac_driver::{RunLimit, WaitLimit};
use bac_environment::{
    Environment, RegularFiles, Sockets, StandardError, StandardInput, octets_of,
};
use bac_server::{LevelLog, LogFormat, print_served};
use bac_store::Store;
use bac_text::{Status, complain, no_memory};
use std::alloc::Global;
use std::io;
use std::io::{ErrorKind, Read, Write};

/// The longest stretch, in milliseconds.
const STRETCH: u64 = 1_000;

/// How long a stretch is while the document is read, in milliseconds.
const READING: u64 = 4;

/// The store that a node serves, and its document if it is followed, from files of that type.
#[derive(Drop)]
pub(crate) struct Served<'p, R> {
    pub store: Store,
    pub followed: Option<Followed<'p, R>>,
}

/// When a server stops.
#[derive(Clone, Copy)]
pub(crate) struct Stop {
    /// At this moment, if there is one.
    pub at: Option<u64>,
    /// When standard input ends.
    pub with_input: bool,
}

/// What came of a stretch.
#[derive(Clone, Copy)]
struct Stretch {
    /// How many requests were performed in it.
    effects: u64,
    /// Whether the server stops behind it.
    is_last: bool,
}

/// What a server looks at between stretches, until when, and where it tells of it.
#[derive(Drop)]
pub(crate) struct Looker<'p, R> {
    pub stop: Stop,
    followed: Option<Followed<'p, R>>,
    /// The file that keeps its store, if one does.
    kept_in: Option<&'p str>,
    /// The form of what is told.
    format: LogFormat,
    log: LevelLog,
}

impl<'p, R: Read + Drop> Looker<'p, R> {
    /// What a server looks at that began then, whose store a file keeps, if that is so.
    pub(crate) fn new(
        alloc: Global,
        serving: &Serving,
        start: Start,
        followed: Option<Followed<'p, R>>,
        kept_in: Option<&'p str>,
    ) -> Looker<'p, R>
        ensures { result.stop ≡ stop_of serving.now start.moment }
    {
        Looker {
            stop: Stop::of(serving, start.moment),
            followed,
            kept_in,
            format: serving.log_format(start),
            log: serving.log_from(alloc, start),
        }
    }

    /// How long the next stretch is at the most, in milliseconds.
    fn longest(&self) -> u64
        ensures { result ≤ stretch_most }
    {
        match &self.followed {
            Some(followed) if followed.is_reading() => READING,
            _ => STRETCH,
        }
    }

    /// Nothing more is looked at. Where all went well, the log ends.
    fn end<E: Write>(self, is_well: bool, err: &mut E) {
        let Looker { followed, log, .. } = self;
        drop(followed);
        if is_well {
            log.end(err);
        }
    }
}

/// The limit of the stretch that begins at a moment, of so many milliseconds, of a server that stops at a moment, if there is one.
fn stretch_from(now: u64, longest: u64, stop: Option<u64>) -> RunLimit
    ensures turns { result.turns ≡ MOST }
    ensures until { result.wait_limit ≡ stretch_limit now longest stop }
{
    let stretch = now.saturating_add(longest);
    let until = match stop {
        Some(moment) => moment.min(stretch),
        None => stretch,
    };
    RunLimit {
        turns: u64::MAX,
        wait_limit: WaitLimit {
            wait: u64::MAX,
            until: Some(until),
        },
    }
}

/// Whether a moment is the one at which a server stops, or after it.
fn is_over(now: u64, stop: Option<u64>) -> bool
    ensures { MatchBool result (MatchOption stop ⊥ (λ moment. moment ≤ now)) (IsBefore now stop) }
{
    match stop {
        Some(moment) => moment <= now,
        None => false,
    }
}

impl Stop {
    /// When a server stops that began at that moment.
    fn of(serving: &Serving, start: u64) -> Stop
        ensures { result ≡ stop_of serving.now start }
    {
        Stop {
            at: serving.wait_limit(start).until,
            with_input: serving.until_eof,
        }
    }
}

/// Complains of a document that cannot be followed since it may have too many keys.
fn too_many_keys<E: Write>(path: &str, err: &mut E) -> Status
    ensures { IsStop result }
{
    print_too_many_keys(path, err);
    Status::CommandLine
}

/// The store that the octets of an open file mean, and the document that is followed.
#[tactic(auto, using(crate::proofs::StoresOfFiles::meant_by_file))]
fn followed_from<'p, R: Read + Drop, E: Write>(
    alloc: Global,
    at: FollowedPath<'p>,
    file: R,
    err: &mut E,
) -> Result<Served<'p, R>, Status>
    ensures store { IfOk result (λ s. MeansStore (R.remaining file) s.store) }
    ensures followed { IfOk result (λ s. is_some s.followed ≡ true) }
    ensures told { IfErr result IsStop }
{
    let octets = octets_of(alloc, at.path, file, err)?;
    if has_too_many_keys(&octets) {
        return Err(too_many_keys(at.path, err));
    }
    let store = store_in(alloc, at.path, &octets, err)?;
    match Followed::new(alloc, at, octets, &store) {
        Ok(followed) => Ok(Served {
            store,
            followed: Some(followed),
        }),
        Err(_) => {
            drop(store);
            Err(no_memory(err))
        }
    }
}

/// Complains of a document that cannot be opened to be followed: `cannot read`, its path, and why.
fn print_unopened<E: Write>(at: FollowedPath<'_>, error: &io::Error, err: &mut E) -> Status
    ensures { IsStop result }
{
    if error.kind() == ErrorKind::OutOfMemory {
        return no_memory(err);
    }
    let status = complain(err, "cannot read", Status::CommandLine);
    print_unread_words(at, error, err);
    status
}

/// The store of a document that is followed.
fn followed_document<'p, F: RegularFiles, M: Sockets, E: Write>(
    environment: &Environment<'_, F, M>,
    at: FollowedPath<'p>,
    err: &mut E,
) -> Result<Served<'p, F::File>, Status>
    ensures store { IfOk result (λ s. OfFile (OnFile F.is_file F.File.remaining) at.entry.path.now (λ content. MeansStore content s.store)) }
    ensures followed { IfOk result (λ s. is_some s.followed ≡ true) }
    ensures told { IfErr result IsStop }
{
    match environment.files.open_regular(at.path, at.most) {
        Ok(file) => followed_from(environment.alloc, at, file, err),
        Err(error) => Err(print_unopened(at, &error, err)),
    }
}

/// The store of a document, which is followed where that is wanted.
pub(crate) fn served_document<'p, F: RegularFiles, M: Sockets, E: Write>(
    environment: &Environment<'_, F, M>,
    serving: &Serving,
    objects: Option<&'p str>,
    err: &mut E,
) -> Result<Served<'p, F::File>, Status>
    ensures document { IfOk result (λ s. IsDocument (OnFile F.is_file F.File.remaining) (option_map (λ p. p.now) objects.entry) s.store) }
    ensures followed { IfOk result (λ s. is_some s.followed ≡ is_followed serving.now (option_map (λ p. p.now) objects.entry)) }
    ensures told { IfErr result IsStop }
{
    match objects {
        Some(path) if serving.follow => {
            let most = serving.follow_limit();
            followed_document(environment, FollowedPath { path, most }, err)
        }
        objects => Ok(Served {
            store: document_of(environment, objects, err)?,
            followed: None,
        }),
    }
}

/// Looks at what a server looks at. Returns whether it stops with standard input, which has ended. The status says why it cannot serve on.
fn look<F: RegularFiles, M: StandardInput, S: Stretching, E: Write>(
    environment: &Environment<'_, F, M>,
    stop: Stop,
    looker: &mut Looker<'_, F::File>,
    server: &mut S,
    err: &mut E,
) -> Result<bool, Status>
    ensures changed { OnOk result (IsChanged (S.state server.old).bound_node (S.state server.new).bound_node) }
    ensures sound { OnOk result (S.IsSound server.old → S.IsSound server.new) }
    ensures honest { OnOk result (S.IsHonest server.new → S.IsHonest server.old) }
    ensures input { IfOk result (λ is_last. is_last ≡ true → stop.with_input ≡ true) }
    ensures failed { IfErr result IsFailure }
{
    if stop.with_input && environment.machine.has_input_ended() {
        return Ok(true);
    }
    let format = looker.format;
    if let Some(followed) = &mut looker.followed {
        followed.look(environment.files, server, format, &mut looker.log, err)?;
    }
    Ok(false)
}

/// A node serves a stretch, and looks. None where it is over.
fn take_stretch<F: RegularFiles, M: StandardInput, S: Stretching, E: Write>(
    environment: &Environment<'_, F, M>,
    stop: Stop,
    looker: &mut Looker<'_, F::File>,
    server: &mut S,
    err: &mut E,
) -> Result<Option<Stretch>, Status>
    requires { S.IsSound server.old }
    ensures taken { IfOk result (λ s. MatchOption s (IsOver (stop_limit stop.at) (S.state server.old) (S.state server.new))
        (λ stretch. TakesStretch S.serves stop.at (S.state server.old) stretch.effects (S.state server.new))) }
    ensures input { IfOk result (λ s. IfSome s (λ stretch. stretch.is_last ≡ true → stop.with_input ≡ true)) }
    ensures sound { OnOk result (S.IsSound server.new) }
    ensures honest { OnOk result (S.IsHonest server.new → S.IsHonest server.old) }
    ensures failed { IfErr result IsFailure }
{
    let now = server.now();
    if is_over(now, stop.at) {
        return Ok(None);
    }
    let longest = looker.longest();
    let limit = stretch_from(now, longest, stop.at);
    let effects = server.serve_stretch(&limit, &mut looker.log, err)?;
    let is_last = look(environment, stop, looker, server, err)?;
    Ok(Some(Stretch { effects, is_last }))
}

/// A node serves in stretches until it stops. Returns how many requests it performed, at most 2^64 - 1.
fn serve_stretches<F: RegularFiles, M: StandardInput, S: Stretching, E: Write>(
    environment: &Environment<'_, F, M>,
    stop: Stop,
    looker: &mut Looker<'_, F::File>,
    server: &mut S,
    err: &mut E,
) -> Result<u64, Status>
    requires { S.IsSound server.old }
    ensures taken { IfOk result (λ effects. TakesStretches S.serves stop effects (S.state server.old) (S.state server.new)) }
    ensures sound { OnOk result (S.IsSound server.new) }
    ensures honest { OnOk result (S.IsHonest server.new → S.IsHonest server.old) }
    ensures failed { IfErr result IsFailure }
{
    let mut effects = 0u64;
    // no run has so many stretches
    for _count in 0..u64::MAX {
        let Some(stretch) = take_stretch(environment, stop, looker, server, err)? else {
            return Ok(effects);
        };
        effects = effects.saturating_add(stretch.effects);
        if stretch.is_last {
            return Ok(effects);
        }
    }
    Ok(effects)
}

/// A node serves in stretches until it stops, and how many requests it performed is printed.
fn print_stretches<F: RegularFiles, M: StandardInput, S: Stretching, O: Write, E: Write>(
    environment: &Environment<'_, F, M>,
    stop: Stop,
    looker: &mut Looker<'_, F::File>,
    server: &mut S,
    out: &mut O,
    err: &mut E,
) -> Result<(), Status>
    requires { S.IsSound server.old }
    ensures printed { IfOk result (λ _. PrintsStretches S.serves stop (S.state server.old) (S.state server.new) (O.contents out.old) (O.contents out.new)) }
    ensures sound { OnOk result (S.IsSound server.new) }
    ensures honest { OnOk result (S.IsHonest server.new → S.IsHonest server.old) }
    ensures failed { IfErr result IsFailure }
{
    let effects = serve_stretches(environment, stop, looker, server, err)?;
    print_served(effects, out, err)
}

/// A node serves in stretches until it stops, with what it looks at between them, and how many requests it performed is printed.
pub(crate) fn serve_with<
    F: RegularFiles,
    M: Sockets + StandardInput + StandardError,
    S: Stretching,
    O: Write,
    E: Write,
>(
    environment: &Environment<'_, F, M>,
    looker: Looker<'_, F::File>,
    server: &mut S,
    out: &mut O,
    err: &mut E,
) -> Result<(), Status>
    requires { S.IsSound server.old }
    ensures printed { IfOk result (λ _. PrintsStretches S.serves looker.entry.stop (S.state server.old) (S.state server.new) (O.contents out.old) (O.contents out.new)) }
    ensures sound { OnOk result (S.IsSound server.new) }
    ensures honest { OnOk result (S.IsHonest server.new → S.IsHonest server.old) }
    ensures failed { IfErr result IsFailure }
{
    let mut looker = looker;
    let stop = looker.stop;
    let timer = environment.machine.timer();
    // from here on standard error must not make the server wait
    let mut err = Dropping::new(
        environment.alloc,
        environment.machine,
        timer,
        looker.format,
        err,
    );
    let printed = print_stretches(environment, stop, &mut looker, server, out, &mut err);
    if let Some(path) = looker.kept_in {
        print_keep_fault(path, server.fault(), &mut err);
    }
    looker.end(printed.is_ok(), &mut err);
    printed?;
    err.end();
    Ok(())
}

/// A node serves with a store, and how many requests it performed is printed.
fn serve_store<F: RegularFiles, M: Sockets + StandardInput + StandardError, O: Write, E: Write>(
    environment: &Environment<'_, F, M>,
    serving: &Serving,
    served: Served<'_, F::File>,
    out: &mut O,
    err: &mut E,
) -> Result<(), Status>
    ensures served { IfOk result (λ _. ServesLooking (OnPort M.is_bound M.Link.failures M.Link.calls) (OnClock M.is_made M.Timer.told) serving.now
        (O.contents out.old) (O.contents out.new) served.entry.store) }
    ensures failed { IfErr result (λ s. ByStatus s ⊥ ⊥ (Keeps (O.contents out.old) (O.contents out.new))) }
{
    let Served { store, followed } = served;
    let (mut station, start) = station_of(
        environment.alloc,
        environment.machine,
        serving,
        store,
        err,
    )?;
    let looker = Looker::new(environment.alloc, serving, start, followed, None);
    let done = serve_with(environment, looker, &mut station, out, err);
    drop(station);
    done
}

/// Serves a node over the objects of a document, or the house if there is no document. At least once a second it looks at the document, if it follows it, and at
/// standard input, if it ends with that.
///
/// If the document cannot be read or is invalid, or is to be followed and too large or no regular file, prints why on `err`.
pub fn serve_looking<
    F: RegularFiles,
    M: Sockets + StandardInput + StandardError,
    O: Write,
    E: Write,
>(
    environment: &Environment<'_, F, M>,
    serving: &Serving,
    objects: Option<&str>,
    out: &mut O,
    err: &mut E,
) -> Status
    ensures { IsServedLooking (OnFile F.is_file F.File.remaining) (option_map (λ p. p.now) objects.entry) (OnPort M.is_bound M.Link.failures M.Link.calls)
        (OnClock M.is_made M.Timer.told) result serving.now (O.contents out.old) (O.contents out.new) }
{
    let served = match served_document(environment, serving, objects, err) {
        Ok(served) => served,
        Err(status) => return status,
    };
    match serve_store(environment, serving, served, out, err) {
        Ok(()) => Status::Done,
        Err(status) => status,
    }
}
