//! From where a node is to ask, how long it waits, how the end is printed, and how often.
ghost use Rattle.std.specs.Prelude.{◌≡◌, IfOk, IfSome, codes};
ghost use Rattle.std.specs.Option.{option_map};
ghost use Rattle.bac_npdu.specs.Views.{peer_view, route_view};
ghost use Rattle.bac_environment.specs.Given.{words_text};
ghost use Rattle.bac_asking.specs.Asked.{for_lines};
ghost use Rattle.bac_asking.specs.Online.{IsOneHost};
ghost use Rattle.bac_asking.specs.Asking.{patience_for};
ghost use Rattle.bac_asking.specs.Given.{AreRecordsOf, AreRoundsOf, IsGiven, IsLinkGiven, IsOutputFormat, IsPace, IsPeerGiven, IsPortGiven, IsRouteBy, cell_text_by, is_json, is_raw, port_by, records_by, rounds_by, style_by};
ghost use Rattle.bac_asking.specs.Rounds.{next_from};
ghost use Rattle.bac_environment.specs.Limits.{turns_of};

use crate::recording::RecordForm;
use crate::seconds::{bad_pace, read_seconds};
use crate::sources::{Apart, source_of_lines, source_towards};
use crate::timeout::{bad_timeout, timeout_of};
use bac_ask_report::CellText;
use bac_commands::{OutputFormat, Style};
use bac_driver::WaitLimit;
use bac_environment::{
    ClientSockets, LOCAL_HOST, LineQuestion, flag_of, have_names, link_at, number_of, read_link,
    read_route,
};
use bac_npdu::{LinkAddress, Peer, Route};
use clap::ArgMatches;

/// How often a node asks the same.
#[derive(Clone, Copy, PartialEq, Eq)]
pub struct Rounds {
    /// A round begins so many milliseconds after the one before it was to begin.
    pub every: u64,
    /// How many rounds there are. None for any number.
    pub times: Option<u64>,
}

impl Rounds {
    /// How many rounds there are at most.
    pub(crate) fn most(&self) -> u64
        ensures { result ≡ turns_of self.now.times }
    {
        match self.times {
            Some(times) => times,
            None => u64::MAX,
        }
    }

    /// Whether a round follows that one, by its number.
    fn go_on_after(&self, number: u64) -> bool {
        number < self.most()
    }

    /// When the next round may begin, after one that might begin from a moment on and began at another: rounds do not drift, but after one that began a
    /// whole interval late, or later, the next begins an interval after it.
    pub(crate) fn next_from(&self, from: u64, began: u64) -> u64
        ensures { result ≡ next_from self.now.every from began }
    {
        let due = from.saturating_add(self.every);
        if began < due {
            due
        } else {
            began.saturating_add(self.every)
        }
    }
}

/// From where a node asks, how long it waits, and how it prints the result.
#[derive(Clone, Copy)]
pub struct Asking {
    /// The IPv4 address of the node that asks.
    pub host: [u8; 4],
    /// After so many milliseconds it stops waiting. None if it waits until the ask has ended.
    pub timeout: Option<u64>,
    /// How the result is printed, and whether that is strict.
    pub output_format: OutputFormat,
    /// The form of the records that are printed instead. None if none are.
    pub records: Option<RecordForm>,
    /// Whether its progress is shown on standard error.
    pub shows_progress: bool,
    /// Whether a line of the list has a name.
    pub has_names: bool,
    /// How often it asks the same. None if it asks once.
    pub rounds: Option<Rounds>,
    /// How many asks of lines are under way at most. None if each begins once the one before is printed.
    pub window: Option<u64>,
}

impl Asking {
    /// Whether what it prints is wanted as it came: the octets of a file, or records with their texts as they came.
    pub fn is_raw(&self) -> bool
        ensures { result ≡ is_raw self.now }
    {
        match self.records {
            Some(RecordForm::Json) => false,
            Some(RecordForm::Csv(CellText::Raw)) => true,
            Some(RecordForm::Csv(CellText::Shielded)) => false,
            None => matches!(self.output_format.style, Style::Octets),
        }
    }

    /// Whether it prints objects of JSON.
    pub fn is_json(&self) -> bool
        ensures { result ≡ is_json self.now }
    {
        matches!(self.records, Some(RecordForm::Json))
    }

    /// The same, but asked from the address of this machine that the peer sees; from 127.0.0.1 if the machine tells none, as if it has no route to the peer.
    pub fn towards<M: ClientSockets>(self, machine: &M, peer: Peer) -> Asking
        ensures same { result ≡ record self { host = result.host } }
        ensures named { IsOneHost result.host }
    {
        let host = source_towards(machine, peer.link);
        Asking { host, ..self }
    }

    /// The same for these lines: asked from the address of this machine from which the system sends to their nodes, and told by their names, where one has a name.
    /// Returns an Err if it sends to two nodes from different addresses.
    pub(crate) fn for_lines<M: ClientSockets>(
        self,
        machine: &M,
        lines: &[LineQuestion],
    ) -> Result<Asking, Apart>
        ensures lines { IfOk result (λ a. a ≡ for_lines a.host lines.now self) }
        ensures named { IfOk result (λ a. IsOneHost a.host) }
    {
        let host = source_of_lines(machine, lines)?;
        let has_names = have_names(lines);
        Ok(Asking {
            host,
            has_names,
            ..self
        })
    }

    /// When the round behind that one, by its number, is due, which might begin from a moment on and began at another; None where none follows, or it is late.
    pub(crate) fn due_after(
        &self,
        number: u64,
        from: u64,
        began: u64,
        is_late: bool,
    ) -> Option<u64> {
        match self.rounds {
            Some(rounds) if !is_late && rounds.go_on_after(number) => {
                Some(rounds.next_from(from, began))
            }
            _ => None,
        }
    }

    /// How long its turns wait, where it begins at that moment: until something is due, and when it waits no longer.
    pub(crate) fn wait_limit(&self, start: u64) -> WaitLimit
        ensures { result ≡ patience_for self.now.timeout start }
    {
        let until = match self.timeout {
            Some(milliseconds) => Some(start.saturating_add(milliseconds)),
            None => None,
        };
        WaitLimit {
            wait: u64::MAX,
            until,
        }
    }
}

/// The number that is given, as a port; that other port where none is given.
fn port_by(number: Option<u64>, own: Option<u16>) -> Option<u16>
    ensures { IfSome result (λ port. port_by number own ≡ Some port) }
{
    match number {
        Some(number) => u16::try_from(number).ok(),
        None => own,
    }
}

/// The port behind `--port`, or that other one.
fn port_of(given: &ArgMatches<'_>, own: Option<u16>) -> Option<u16>
    ensures { IfSome result (IsPortGiven given.now own) }
{
    port_by(number_of(given, "port"), own)
}

/// The address that is asked: that behind `--to`, or a port of this machine.
#[tactic(auto, using(crate::proofs::GivenPeers::link_given, crate::proofs::GivenPeers::link_here))]
fn link_of(given: &ArgMatches<'_>, own: Option<u16>) -> Option<LinkAddress>
    ensures { IfSome result (IsLinkGiven given.now own) }
{
    match given.get_str("to") {
        Some(text) => read_link(text),
        None => Some(link_at(LOCAL_HOST, port_of(given, own)?)),
    }
}

/// The way on from there, where one is given. None where it is none.
#[tactic(auto, using(crate::proofs::GivenPeers::route_given, crate::proofs::GivenPeers::no_route_given))]
fn route_of(given: &ArgMatches<'_>) -> Option<Option<Route>>
    ensures { IfSome result (λ r. IsRouteBy (words_text given.now (codes "route")) (option_map route_view r)) }
{
    match given.get_str("route") {
        Some(text) => Some(Some(read_route(text)?)),
        None => Some(None),
    }
}

fn style_by(raw: bool, text: bool) -> Style
    ensures { result ≡ style_by raw text }
{
    if raw {
        Style::Octets
    } else if text {
        Style::Words
    } else {
        Style::Numbers
    }
}

/// How outcomes are printed, by the words that were given.
fn output_format_of(given: &ArgMatches<'_>) -> OutputFormat
    ensures { IsOutputFormat given.now result }
{
    let raw = flag_of(given, "raw");
    let text = flag_of(given, "text");
    OutputFormat {
        style: style_by(raw, text),
        strict: flag_of(given, "fail"),
    }
}

fn cell_text_by(raw: bool) -> CellText
    ensures { result ≡ cell_text_by raw }
{
    if raw {
        CellText::Raw
    } else {
        CellText::Shielded
    }
}

fn records_by(json: bool, csv: bool, raw: bool) -> Option<RecordForm>
    ensures { result ≡ records_by json csv raw }
{
    if json {
        Some(RecordForm::Json)
    } else if csv {
        Some(RecordForm::Csv(cell_text_by(raw)))
    } else {
        None
    }
}

/// The records that are wanted; None where none are.
fn records_of(given: &ArgMatches<'_>) -> Option<RecordForm>
    ensures { AreRecordsOf given.now result }
{
    let json = flag_of(given, "json");
    let csv = flag_of(given, "csv");
    let raw = flag_of(given, "raw-text");
    records_by(json, csv, raw)
}

fn rounds_by(every: Option<u64>, times: Option<u64>) -> Option<Rounds>
    ensures { result ≡ rounds_by every times }
{
    Some(Rounds {
        every: every?,
        times,
    })
}

/// How many milliseconds lie between rounds, where a number of seconds is given.
fn every_of(given: &ArgMatches<'_>) -> Option<u64>
    ensures { IsPace given.now result }
{
    read_seconds(given.get_str("every")?)
}

/// None where no rounds are given.
fn rounds_of(given: &ArgMatches<'_>) -> Option<Rounds>
    ensures { AreRoundsOf given.now result }
{
    let every = every_of(given);
    let times = number_of(given, "times");
    rounds_by(every, times)
}

/// The node that the arguments name: by `--to`, otherwise on this machine at the port of `--port`; `own` is that port if none is given. None if they name no node,
/// or an address is invalid.
pub fn peer_of(given: &ArgMatches<'_>, own: Option<u16>) -> Option<Peer>
    ensures { IfSome result (λ p. IsPeerGiven given.now own (peer_view p)) }
{
    let link = link_of(given, own)?;
    let route = route_of(given)?;
    Some(Peer { link, route })
}

/// The node that the arguments name, for lines that name none. None if an address is invalid.
pub fn default_of(given: &ArgMatches<'_>) -> Option<Option<Peer>> {
    let has_link = given.get_str("to").is_some() || given.get_one::<u16>("port").is_some();
    if has_link || given.get_str("route").is_some() {
        Some(Some(peer_of(given, None)?))
    } else {
        Some(None)
    }
}

/// How the arguments say that a node asks: from 127.0.0.1, unless another address is chosen. None if the text given for `--timeout` or `--every` is invalid.
pub fn asking_of(given: &ArgMatches<'_>, shows_progress: bool) -> Option<Asking>
    ensures given { IfSome result (IsGiven given.now) }
    ensures named { IfSome result (λ a. IsOneHost a.host) }
{
    if bad_timeout(given).is_some() || bad_pace(given).is_some() {
        return None;
    }
    Some(Asking {
        host: LOCAL_HOST,
        timeout: timeout_of(given),
        output_format: output_format_of(given),
        records: records_of(given),
        shows_progress,
        has_names: false,
        rounds: rounds_of(given),
        window: number_of(given, "window"),
    })
}
