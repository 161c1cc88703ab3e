//! What the words of `serve` give of the sources that it hears, and of how much it sends to one address.
ghost use Rattle.std.specs.Prelude.{◌≡◌, codes, None, MatchOption, is_some, not};
ghost use Rattle.bac_guard.specs.Texts.{AreSources};
ghost use Rattle.bac_guard.specs.Views.{blocks_of};
ghost use Rattle.bac_environment.specs.Given.{words_text};
ghost use Rattle.bac_serving.specs.GivenGuard.{AreNoPeers, ArePeers, IsGuard, rate_by};

use bac_environment::number_of;
use bac_guard::{Guard, Sources, SourcesFault, read_sources};
use clap::ArgMatches;

/// How many octets a second fill the budget of an address where nothing is said: 128 KiB.
const RATE: u64 = 131_072;

/// The sources that a text says. None where it is no blocks of addresses.
fn sources_named(text: &str) -> Option<Sources>
    ensures { MatchOption result (AreNoPeers text.now) (λ s. AreSources text.now (blocks_of s)) }
{
    match read_sources(text) {
        Ok(sources) => Some(sources),
        Err(_) => None,
    }
}

/// The sources that it hears. None where what is given is no blocks of addresses.
fn sources_of(given: &ArgMatches<'_>) -> Option<Sources>
    ensures { ArePeers (words_text given.now (codes "peers")) result }
{
    match given.get_str("peers") {
        Some(text) => sources_named(text),
        None => Some(Sources::local()),
    }
}

/// The text given for `--peers`, if it is not a list of blocks of addresses, and why.
pub fn bad_peers<'a>(given: &ArgMatches<'a>) -> Option<(&'a str, SourcesFault)> {
    let text = given.get_str("peers")?;
    match read_sources(text) {
        Ok(_) => None,
        Err(fault) => Some((text, fault)),
    }
}

/// How many octets a second fill the budget of an address, by the number of KiB that is given. None where that is 0: then nothing bounds what is sent.
fn rate_by(kibibytes: Option<u64>) -> Option<u64>
    ensures { result ≡ rate_by kibibytes }
{
    match kibibytes {
        Some(0) => None,
        Some(kibibytes) => Some(kibibytes.saturating_mul(1_024)),
        None => Some(RATE),
    }
}

/// Whether what goes to the loopback is not bounded: programs of this host need no bound, unless one is given.
fn spares_loopback(kibibytes: Option<u64>) -> bool
    ensures { result ≡ not (is_some kibibytes) }
{
    match kibibytes {
        Some(_) => false,
        None => true,
    }
}

/// Which sources it hears, and how much it sends to one address. None where what is given is no blocks of addresses.
pub(crate) fn guard_of(given: &ArgMatches<'_>) -> Option<Guard>
    ensures { MatchOption result (ArePeers (words_text given.now (codes "peers")) None) (IsGuard given.now) }
{
    let kibibytes = number_of(given, "rate");
    let sources = sources_of(given)?;
    Some(Guard {
        sources,
        rate: rate_by(kibibytes),
        spares_loopback: spares_loopback(kibibytes),
    })
}
