//! What the words of `serve` give.
ghost use Rattle.std.specs.Prelude.{◌≡◌, codes, None, IfSome, MatchOption};
ghost use Rattle.std.specs.Option.{option_map};
ghost use Rattle.bac_environment.specs.Given.{words_text};
ghost use Rattle.bac_serving.specs.GivenServing.{AreSlots, IsGivenPort, IsHost, IsHostText, IsInVain, IsNoHost, IsPort, IsPortNamed, IsRefused, IsRules, IsServing, digits_before, level_given, level_named, memory_given, memory_named, slots_without, times, with_unit, within, without_plus};
ghost use Rattle.bac_serving.specs.Serving.{is_reusing, rules_by};

use crate::guard_words::guard_of;
use crate::serving::Serving;
use bac_environment::{BACNET_PORT, LOCAL_HOST, flag_of, is_of_node, number_of, read_host};
use bac_node::MEMORY;
use bac_server::LogLevel;
use bac_transaction::Rules;
use bac_value_text::{number_in, parts_at};
use clap::ArgMatches;

/// The least number of octets that a server may keep: a request needs room for 65,539 beside its own.
const LEAST_MEMORY: u64 = 65_540;

/// The greatest number of octets that a server may keep: 1 TiB.
const MOST_MEMORY: u64 = 1_099_511_627_776;

/// How many slots each end has where nothing is said: 64 of a run of so many turns, otherwise all that there can be.
fn slots_without_word(turns: Option<u64>) -> usize
    ensures { result ≡ slots_without turns }
{
    match turns {
        Some(_) => 64,
        None => 65_536,
    }
}

/// How many slots each end has, in a run of so many turns, if it is one.
fn slots_of(given: &ArgMatches<'_>, turns: Option<u64>) -> usize
    ensures { AreSlots given.now turns result }
{
    match number_of(given, "slots") {
        Some(slots) => slots as usize,
        None => slots_without_word(turns),
    }
}

/// The port that is given.
fn given_port(given: &ArgMatches<'_>) -> Option<u16>
    ensures { IsGivenPort given.now result }
{
    given.get_one("port")
}

/// The UDP port that it listens at.
fn port_of(given: &ArgMatches<'_>) -> u16
    ensures { IsPort given.now result }
{
    match given_port(given) {
        Some(port) => port,
        None => BACNET_PORT,
    }
}

/// Whether a port is given.
fn is_port_named(given: &ArgMatches<'_>) -> bool
    ensures { IsPortNamed given.now result }
{
    given_port(given).is_some()
}

/// Whether it lets clients use invoke IDs again: in a run of so many turns where it is told to, otherwise unless it is strict.
fn is_reusing(turns: Option<u64>, is_told: bool, is_strict: bool) -> bool
    ensures { result ≡ is_reusing turns is_told is_strict }
{
    match turns {
        Some(_) => is_told,
        None => !is_strict,
    }
}

/// Slots are shared among IP addresses where there are at most so many: beyond an address's share a request takes the time to look at each.
const MOST_SHARED: usize = 4_096;

/// The rules of such a server, which has so many slots, and keeps so many octets at the most: for how long it then remembers a request, where that is given in
/// seconds.
fn rules_by(is_reusing: bool, slots: usize, seconds: Option<u64>, memory: usize) -> Rules
    ensures { result ≡ rules_by is_reusing slots seconds memory }
{
    let rules = Rules::of(is_reusing).within(memory);
    if !is_reusing {
        return rules;
    }
    let rules = Rules {
        share: slots <= MOST_SHARED,
        ..rules
    };
    match seconds {
        Some(seconds) => Rules {
            remember: Some(seconds.saturating_mul(1_000)),
            ..rules
        },
        None => rules,
    }
}

/// The rules of a server that takes so many turns and has so many slots, by its words. None where what is given is no number of octets.
fn rules_of(given: &ArgMatches<'_>, turns: Option<u64>, slots: usize) -> Option<Rules>
    ensures { MatchOption result (memory_given (words_text given.now (codes "memory")) ≡ None) (IsRules given.now turns slots) }
{
    let memory = memory_of(given)?;
    let is_told = flag_of(given, "reuse");
    let is_strict = flag_of(given, "strict");
    let remember = number_of(given, "remember");
    let is_reusing = is_reusing(turns, is_told, is_strict);
    Some(rules_by(is_reusing, slots, remember, memory))
}

/// A number without the plus that may stand before it.
fn without_plus(digits: &[u8]) -> &[u8]
    ensures { result.now ≡ without_plus digits.now }
{
    match digits {
        [b'+', others @ ..] => others,
        _ => digits,
    }
}

/// What stands before a letter that stands at the end alone. None where it does not.
fn digits_before(letter: u8, text: &[u8]) -> Option<&[u8]>
    ensures { option_map (λ d. d.now) result ≡ digits_before letter text.now }
{
    match parts_at(letter, text)? {
        (digits, []) => Some(digits),
        _ => None,
    }
}

/// The digits of a number of octets, and how many octets each unit is: 1,048,576 with an M behind them, 1,024 with a K.
fn with_unit(text: &[u8]) -> (&[u8], u64)
    ensures { (result.0.now, result.1) ≡ with_unit text.now }
{
    if let Some(digits) = digits_before(b'M', text) {
        return (digits, 1_048_576);
    }
    match digits_before(b'K', text) {
        Some(digits) => (digits, 1_024),
        None => (text, 1),
    }
}

/// A number of octets that a server may keep. None of any other.
fn within(octets: u64) -> Option<usize>
    ensures { result ≡ within octets }
{
    if octets < LEAST_MEMORY || octets > MOST_MEMORY {
        None
    } else {
        Some(octets as usize)
    }
}

/// A number of units, each of `unit` octets, as a number of octets that a server may keep. None where it may not keep so many.
fn times(unit: u64, count: u64) -> Option<usize>
    ensures { result ≡ times unit count }
{
    within(count.checked_mul(unit)?)
}

/// How many octets a text such as `65540`, `512K` or `64M` says, with K for 1,024 and M for 1,048,576. None if the text is invalid, or a server may not keep
/// so many.
pub fn read_memory(text: &str) -> Option<usize>
    ensures { result ≡ memory_named text.now }
{
    let (digits, unit) = with_unit(text.as_bytes());
    let count = number_in(without_plus(digits))?;
    times(unit, count)
}

/// How many octets it keeps: 64 MiB where nothing is said; None where what is given is no number of octets.
fn memory_of(given: &ArgMatches<'_>) -> Option<usize>
    ensures { result ≡ memory_given (words_text given.now (codes "memory")) }
{
    match given.get_str("memory") {
        Some(text) => read_memory(text),
        None => Some(MEMORY),
    }
}

/// Whether `--remember` is given to a server that lets no client use an invoke ID again.
pub fn remembers_in_vain(given: &ArgMatches<'_>) -> bool
    ensures { IsInVain given.now result }
{
    let turns = number_of(given, "turns");
    let is_told = flag_of(given, "reuse");
    let is_strict = flag_of(given, "strict");
    given.get_str("remember").is_some() && !is_reusing(turns, is_told, is_strict)
}

/// The level of a log that a word names. None where it names none.
fn level_named(word: &str) -> Option<LogLevel>
    ensures { result ≡ level_named word.now }
{
    match word {
        "changes" => Some(LogLevel::Changes),
        "requests" => Some(LogLevel::Requests),
        "all" => Some(LogLevel::All),
        _ => None,
    }
}

/// The level of its log; None where none is given.
fn level_of(given: &ArgMatches<'_>) -> Option<LogLevel>
    ensures { result ≡ level_given (words_text given.now (codes "log-level")) }
{
    match given.get_str("log-level") {
        Some(word) => level_named(word),
        None => None,
    }
}

/// The address that a text is. None where it is none, or none that a node can have. 0.0.0.0, which is all of this machine's, is none either: the
/// system would choose from which one an answer leaves. That need not be the one that was asked.
fn host_named(text: &str) -> Option<[u8; 4]>
    ensures { MatchOption result (IsNoHost text.now) (IsHostText text.now) }
{
    match read_host(text) {
        Some(host) if is_of_node(host) => Some(host),
        _ => None,
    }
}

/// The address that a server listens at. None where what is given is none.
fn host_of(given: &ArgMatches<'_>) -> Option<[u8; 4]>
    ensures { IsHost (words_text given.now (codes "at")) result }
{
    match given.get_str("at") {
        Some(text) => host_named(text),
        None => Some(LOCAL_HOST),
    }
}

/// How the arguments of `serve` say that a node serves.
///
/// None if the address, the number of octets or the blocks of addresses are invalid, or if `--remember` is given in vain.
pub fn serving_of(given: &ArgMatches<'_>) -> Option<Serving>
    ensures given { IfSome result (IsServing given.now) }
    ensures none { result ≡ None → IsRefused given.now }
{
    if remembers_in_vain(given) {
        return None;
    }
    let host = host_of(given)?;
    let turns = number_of(given, "turns");
    let slots = slots_of(given, turns);
    let rules = rules_of(given, turns, slots)?;
    let guard = guard_of(given)?;
    Some(Serving {
        host,
        port: port_of(given),
        names_port: is_port_named(given),
        turns,
        seconds: number_of(given, "seconds"),
        slots,
        restarted: flag_of(given, "restarted"),
        rules,
        guard,
        names_peers: given.get_str("peers").is_some(),
        log: flag_of(given, "log"),
        level: level_of(given),
        json: flag_of(given, "json"),
        follow: flag_of(given, "follow"),
        follow_limit: number_of(given, "follow-limit"),
        until_eof: flag_of(given, "until-eof"),
    })
}
