//! How a node is to serve.
ghost use Rattle.std.specs.Prelude.{◌≡◌};
ghost use Rattle.bac_transaction.specs.Views.{share_view};
ghost use Rattle.bac_driver.specs.Kept.{keeper_of};
ghost use Rattle.bac_driver.specs.Rounds.{IsKept};
ghost use Rattle.bac_driver.specs.Runs.{timed};
ghost use Rattle.bac_commands.specs.Reports.{ReportsServing};
ghost use Rattle.bac_text.specs.declared.status.Status.TheVariants as status;
ghost use Rattle.bac_server.specs.Kept.{EndsKept, IsKeptByStatus, RoundsText, Unseen, unwatched};
ghost use Rattle.bac_commands.specs.Statuses.{ByStatus};
ghost use Rattle.bac_serving.specs.Keeping.{restarted_by};
ghost use Rattle.bac_serving.specs.Serving.{follow_limit_of, is_remote, patience_of, restart_of};
ghost use Rattle.bac_environment.specs.Limits.{turns_of};

use crate::followed::MEBIBYTE;
use bac_driver::{BoundNode, Clock, Link, NoObserver, RunLimit, WaitLimit};
use bac_environment::{Station, print_no_link};
use bac_guard::Guard;
use bac_keep::Keeper;
use bac_log_json::LogEvent;
use bac_npdu::LinkAddress;
use bac_server::{
    KeptServer, LevelLog, LogFormat, LogLevel, LogSettings, OctetStyle, ServeCommand, print_event,
    serve_kept_logged,
};
use bac_text::Status;
use bac_transaction::Rules;
use std::alloc::{AllocError, Global};
use std::io;
use std::io::{ErrorKind, Write};

/// How many milliseconds after its restart a server serves again.
const RESTED: u64 = 65_001;

/// The most octets of a document that a server follows where nothing is said: 8 MiB.
const FOLLOW_LIMIT: u64 = 8_388_608;

/// How a node serves.
#[derive(Clone, Copy)]
pub struct Serving {
    /// The IPv4 address that it listens at.
    pub host: [u8; 4],
    /// The UDP port.
    pub port: u16,
    /// Whether the port was named; otherwise it is that of BACnet/IP.
    pub names_port: bool,
    /// The most turns that it takes, each of 100 milliseconds at most; None for any number, which wait until something is due.
    pub turns: Option<u64>,
    /// After so many seconds no turn begins; None for any number.
    pub seconds: Option<u64>,
    /// How many slots each end has.
    pub slots: usize,
    /// Whether it served before, and lost what it remembered.
    pub restarted: bool,
    /// The rules by which it serves.
    pub rules: Rules,
    /// Which sources it hears, and how much it sends to one address.
    pub guard: Guard,
    /// Whether the sources that it hears were named; otherwise it hears private ones.
    pub names_peers: bool,
    /// Whether its turns are logged, all of them.
    pub log: bool,
    /// Which of its turns are logged, with long octets by their first ones.
    pub level: Option<LogLevel>,
    /// Whether its log, and what it says at its start, are objects of JSON.
    pub json: bool,
    /// Whether it follows its document.
    pub follow: bool,
    /// The most MiB of a document that it follows; None for 8.
    pub follow_limit: Option<u64>,
    /// Whether it ends when standard input does.
    pub until_eof: bool,
}

/// When a server begins.
#[derive(Clone, Copy)]
pub(crate) struct Start {
    /// The moment of its clock, in milliseconds.
    pub moment: u64,
    /// The time of day at moment 0 of that clock, in milliseconds since 1970 began in UTC; None where it cannot be read.
    pub epoch: Option<u64>,
}

/// The time of day at moment 0 of a clock that shows this moment at that time of day.
pub(crate) fn epoch_of(moment: u64, time: Option<u64>) -> Option<u64> {
    match time {
        Some(time) => Some(time.saturating_sub(moment)),
        None => None,
    }
}

impl Serving {
    /// How long its turns wait, where it begins at that moment, and when the last of them has begun.
    pub(crate) fn wait_limit(&self, start: u64) -> WaitLimit
        ensures { result ≡ patience_of self.now start }
    {
        let wait = match self.turns {
            Some(_) => 100,
            None => u64::MAX,
        };
        let until = match self.seconds {
            Some(seconds) => Some(start.saturating_add(seconds.saturating_mul(1_000))),
            None => None,
        };
        WaitLimit { wait, until }
    }

    /// How many turns it takes at most.
    pub(crate) fn most_turns(&self) -> u64
        ensures { result ≡ turns_of self.now.turns }
    {
        match self.turns {
            Some(turns) => turns,
            None => u64::MAX,
        }
    }

    /// When it restarts, if it does.
    pub(crate) fn restart(&self, start: u64) -> Option<u64>
        ensures { result ≡ restart_of self.now.restarted start }
    {
        if self.restarted { Some(start) } else { None }
    }

    /// How a node serves over a database: as it says, and as one that restarts where the database is not new.
    pub(crate) fn restarted_by(&self, is_new: bool) -> Serving
        ensures { result ≡ restarted_by is_new self.now }
    {
        Serving {
            restarted: self.restarted || !is_new,
            ..*self
        }
    }

    /// Whether it does not hear its own address, and nobody named the sources that it hears: it may be deaf to those who ask it.
    fn is_remote(&self, link: LinkAddress) -> bool
        ensures { result ≡ is_remote self.now link }
    {
        !self.names_peers && !self.guard.sources.hears(link)
    }

    /// A bound node is set as it says.
    pub(crate) fn set<L: Link>(&self, bound_node: &mut BoundNode<L>)
        ensures { bound_node.new ≡ record bound_node.old { rules = self.now.rules } }
    {
        bound_node.set_rules(self.rules);
    }

    /// The most octets of a document that it follows.
    pub(crate) fn follow_limit(&self) -> u64
        ensures { result ≡ follow_limit_of self.now.follow_limit }
    {
        match self.follow_limit {
            Some(mebibytes) => mebibytes.saturating_mul(MEBIBYTE),
            None => FOLLOW_LIMIT,
        }
    }

    /// Its log, where it begins then.
    pub(crate) fn log_from(&self, alloc: Global, start: Start) -> LevelLog {
        let (level, octet_style) = if self.log {
            (Some(LogLevel::All), OctetStyle::Whole)
        } else {
            (self.level, OctetStyle::Short)
        };
        LevelLog::new(alloc, self.log_settings(start), level, octet_style)
    }

    /// The form of its log, where it begins then.
    pub(crate) fn log_format(&self, start: Start) -> LogFormat {
        if self.json {
            LogFormat::Objects { epoch: start.epoch }
        } else {
            LogFormat::Lines
        }
    }

    /// How its log is written, where it begins then.
    fn log_settings(&self, start: Start) -> LogSettings
        ensures { result.shares ≡ share_view self.now.rules.reads self.now.rules.share }
    {
        LogSettings {
            format: self.log_format(start),
            serves_from: self.serves_from(start.moment),
            shares: self.rules.shares(),
        }
    }

    /// The first moment at which it performs requests, where it begins at that one.
    fn serves_from(&self, start: u64) -> u64 {
        if self.restarted {
            start.saturating_add(RESTED)
        } else {
            0
        }
    }
}

/// Complains that the system refuses a server its link: which, and the system's reason; in one line where it was to run until it is ended.
fn print_refused<E: Write>(serving: &Serving, error: &io::Error, err: &mut E) -> Status
    ensures { result ≡ status.Output }
{
    if serving.turns.is_some() {
        return print_no_link(serving.host, serving.port, error, err);
    }
    let [a, b, c, d] = serving.host;
    let port = serving.port;
    // if that fails too, only the status is left
    let _ = writeln!(err, "link fault {a}.{b}.{c}.{d}:{port}: {error}");
    Status::Output
}

/// Tells that another program has the port, and which option names another, where that was not given.
fn print_taken<E: Write>(serving: &Serving, err: &mut E) {
    let port = serving.port;
    let option = if serving.names_port {
        ""
    } else {
        " with --port"
    };
    // if that fails too, only the status is left
    let _ = writeln!(
        err,
        "port {port} is taken: stop the program that has it, or give another{option}"
    );
}

/// Tells that an address is none of this machine, and how to list those that are.
fn print_foreign<E: Write>(host: [u8; 4], err: &mut E) {
    let [a, b, c, d] = host;
    // if that fails too, only the status is left
    let _ = writeln!(
        err,
        "{a}.{b}.{c}.{d} is not an address of this host: `ip addr` lists its addresses"
    );
}

/// The same; where another program has the port, or the address is none of this machine, the last line says what to do.
pub(crate) fn print_not_bound<E: Write>(serving: &Serving, error: &io::Error, err: &mut E) -> Status
    ensures { result ≡ status.Output }
{
    let status = print_refused(serving, error, err);
    match error.kind() {
        ErrorKind::AddrInUse => print_taken(serving, err),
        ErrorKind::AddrNotAvailable => print_foreign(serving.host, err),
        _ => {}
    }
    status
}

/// Prints on `err` whether a node that begins then hears every address, or private ones alone and not its own. Then it prints where the node listens, and how many
/// objects and slots it has. Where it restarted, the last line says from when on it serves.
pub(crate) fn print_listening<E: Write>(
    alloc: Global,
    serving: &Serving,
    link: LinkAddress,
    objects: usize,
    start: Start,
    err: &mut E,
) {
    let [a, b, c, d, high, low] = link;
    let port = u16::from_be_bytes([high, low]);
    let slots = serving.slots;
    if serving.guard.sources.hears_all() {
        let words = format!(in alloc; "hears every address");
        print_started(alloc, serving, start, words, err);
    }
    if serving.is_remote(link) {
        let words = format!(in alloc; "hears only private addresses; --peers names others");
        print_started(alloc, serving, start, words, err);
    }
    if serving.turns.is_none() {
        let words = format!(in alloc;
            "listening {a}.{b}.{c}.{d}:{port}, {objects} objects, {slots} slots"
        );
        print_started(alloc, serving, start, words, err);
    }
    if serving.restarted {
        let from = serving.serves_from(start.moment);
        let words = format!(in alloc; "serving from {from}");
        print_started(alloc, serving, start, words, err);
    }
}

/// Prints how a server began, in words or as an object. If that fails, nothing is printed.
fn print_started<E: Write>(
    alloc: Global,
    serving: &Serving,
    start: Start,
    words: Result<String, AllocError>,
    err: &mut E,
) {
    if let Ok(words) = words {
        let event = LogEvent::Started {
            words: words.as_bytes(),
        };
        let format = serving.log_format(start);
        let _ = print_event(alloc, format, start.moment, event, err);
    }
}

/// A node serves from then on, and its turns are logged on `err` where that is wanted. Where a line of the log could not be written, `log fault` ends
/// it.
pub(crate) fn serve_from<L: Link, C: Clock, O: Write, E: Write>(
    serving: &Serving,
    start: Start,
    station: &mut Station<L, C>,
    out: &mut O,
    err: &mut E,
) -> Status
    ensures { ReportsServing result (patience_of serving.now start.moment) (turns_of serving.now.turns) (timed station.old.bound_node (C.told station.old.clock))
        (timed station.new.bound_node (C.told station.new.clock)) (O.contents out.old) (O.contents out.new) }
{
    let limit = RunLimit {
        turns: serving.most_turns(),
        wait_limit: serving.wait_limit(start.moment),
    };
    if serving.level.is_some() {
        let mut log = serving.log_from(station.alloc, start);
        let status = bac_server::serve(
            &mut station.bound_node,
            &mut station.clock,
            &limit,
            &mut log,
            out,
            err,
        );
        log.end(err);
        return status;
    }
    if !serving.log {
        return bac_server::serve(
            &mut station.bound_node,
            &mut station.clock,
            &limit,
            &mut NoObserver,
            out,
            err,
        );
    }
    let command = ServeCommand {
        limit,
        settings: serving.log_settings(start),
    };
    let logged = bac_server::serve_logged(
        station.alloc,
        &mut station.bound_node,
        &mut station.clock,
        &command,
        out,
        err,
    );
    if !logged.whole {
        // if that fails too, nothing is printed
        let _ = err.writeln("log fault");
    }
    logged.status
}

/// A node whose store is kept serves from then on in rounds, and is logged as by `serve_from`.
pub(crate) fn serve_kept_from<L: Link, C: Clock, K: Keeper, O: Write, E: Write>(
    alloc: Global,
    serving: &Serving,
    start: Start,
    server: &mut KeptServer<L, C, K>,
    out: &mut O,
    err: &mut E,
) -> Status
    requires { K.IsHonest (keeper_of server.old.round) → IsKept K.IsOpen K.kept K.noted (keeper_of server.old.round) server.old.bound_node.node.store }
    ensures printed { ByStatus result (RoundsText (patience_of serving.now start.moment) (turns_of serving.now.turns) (timed server.old.bound_node (C.told server.old.clock))
        (timed server.new.bound_node (C.told server.new.clock)) (O.contents out.old) (O.contents out.new)) ⊥ ⊥ }
    ensures all { IsKeptByStatus result K.IsHonest K.IsOpen K.kept K.noted (keeper_of server.new.round) server.new.bound_node.node.store }
    ensures honest { K.IsHonest (keeper_of server.new.round) → K.IsHonest (keeper_of server.old.round) }
    ensures base { K.base (keeper_of server.new.round) ≡ K.base (keeper_of server.old.round) }
    ensures kept { EndsKept Unseen (patience_of serving.now start.moment) (turns_of serving.now.turns) K.IsHonest K.IsOpen K.kept K.noted K.may_find
        (keeper_of server.new.round) (unwatched (timed server.old.bound_node (C.told server.old.clock)))
        (unwatched (timed server.new.bound_node (C.told server.new.clock))) }
{
    let limit = RunLimit {
        turns: serving.most_turns(),
        wait_limit: serving.wait_limit(start.moment),
    };
    if serving.level.is_some() {
        let mut log = serving.log_from(alloc, start);
        let status = bac_server::serve_kept(server, &limit, &mut log, out, err);
        log.end(err);
        return status;
    }
    if !serving.log {
        return bac_server::serve_kept(server, &limit, &mut NoObserver, out, err);
    }
    let command = ServeCommand {
        limit,
        settings: serving.log_settings(start),
    };
    let logged = serve_kept_logged(alloc, server, &command, out, err);
    if !logged.whole {
        // if that fails too, nothing is printed
        let _ = err.writeln("log fault");
    }
    logged.status
}
