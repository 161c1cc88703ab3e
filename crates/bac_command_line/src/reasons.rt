//! The second line of a complaint of words that clap takes: which text is bad, and why.
ghost use Rattle.std.specs.Prelude.{◌≡◌};
ghost use Rattle.bac_text.specs.declared.status.Status.TheVariants as status;

use bac_asking::{bad_pace, bad_timeout, print_bad_pace};
use bac_environment::{
    EVERY_HOST, OutOfRange, is_of_node, network_out_of_range, port_out_of_range, read_end,
    read_host, read_link, read_route,
};
use bac_forms::FORM_NAMES;
use bac_guard::SourcesFault;
use bac_reading::{MOST_SLOWER, read_slower};
use bac_serving::{bad_peers, read_memory, remembers_in_vain};
use bac_text::{Status, complain};
use clap::ArgMatches;
use std::io::Write;

/// What is wanted of a server in place of all addresses of its machine: it can't send from the one that a request came to.
const ONE_HOST: &str =
    "a single address: responses might come from an address that no client asked; give the one that clients ask";

/// Why a text is no address.
#[derive(Clone, Copy)]
enum AddressFault<'a> {
    /// It is not what is wanted.
    Not(&'static str),
    /// It has the form of one, but a number in it is out of its range.
    Number(OutOfRange<'a>),
}

/// The text behind `--at` that is no address of a server, and why.
fn bad_host<'a>(given: &ArgMatches<'a>) -> Option<(&'a str, AddressFault<'a>)> {
    let at = given.get_str("at")?;
    let Some(host) = read_host(at) else {
        return Some((at, AddressFault::Not("A.B.C.D")));
    };
    if host == EVERY_HOST {
        Some((at, AddressFault::Not(ONE_HOST)))
    } else if is_of_node(host) {
        None
    } else {
        Some((at, AddressFault::Not(NODE_HOST)))
    }
}

/// What is wanted in place of an address of a group of hosts, or of all hosts.
const NODE_HOST: &str = "the address of a node";

/// What is wanted in place of a text that is no address of a node.
fn wanted_of_link(text: &str) -> &'static str {
    match read_end(text) {
        Some(_) => NODE_HOST,
        None => "A.B.C.D or A.B.C.D:P",
    }
}

/// Why a text is no address of a node.
fn link_fault_of(text: &str) -> AddressFault<'_> {
    match port_out_of_range(text) {
        Some(port) => AddressFault::Number(port),
        None => AddressFault::Not(wanted_of_link(text)),
    }
}

/// Why a text is no way on from a router.
fn route_fault_of(text: &str) -> AddressFault<'_> {
    match network_out_of_range(text) {
        Some(network) => AddressFault::Number(network),
        None => AddressFault::Not("NET:MAC, such as 5:2A"),
    }
}

/// The text behind `--to` or `--route` that is no address or route, and why.
fn bad_node<'a>(given: &ArgMatches<'a>) -> Option<(&'a str, AddressFault<'a>)> {
    if let Some(to) = given.get_str("to") {
        if read_link(to).is_none() {
            return Some((to, link_fault_of(to)));
        }
    }
    let route = given.get_str("route")?;
    match read_route(route) {
        Some(_) => None,
        None => Some((route, route_fault_of(route))),
    }
}

/// The text behind `--peer` that is no address, and why.
fn bad_peer<'a>(given: &ArgMatches<'a>) -> Option<(&'a str, AddressFault<'a>)> {
    let peer = given.get_str("peer")?;
    match read_end(peer) {
        Some(_) => None,
        None => Some((peer, link_fault_of(peer))),
    }
}

/// The text behind `--slower` that is no time.
fn bad_slower<'a>(given: &ArgMatches<'a>) -> Option<&'a str> {
    let text = given.get_str("slower")?;
    match read_slower(text) {
        Some(_) => None,
        None => Some(text),
    }
}

/// Complains of a text that is no time, as clap does of other arguments.
fn print_bad_slower<E: Write>(text: &str, err: &mut E) -> Status
    ensures { result ≡ status.CommandLine }
{
    // if that fails too, only the status is left
    let _ = write!(err, "error: invalid value '{text}' for '--slower <TIME>': ");
    let _ = match text.parse::<u64>() {
        Ok(number) => write!(err, "{number} is not in 1..={MOST_SLOWER}"),
        Err(_) => write!(err, "expected a time such as 300ms, 2s, 1m or 300"),
    };
    let _ = err.write_all(b"\n\nFor more information, try '--help'.\n");
    Status::CommandLine
}

/// Complains of a text that is no address: `bad address`, and which and why.
fn print_bad_address<E: Write>(bad: Option<(&str, AddressFault<'_>)>, err: &mut E) -> Status
    ensures { result ≡ status.CommandLine }
{
    let status = complain(err, "bad address", Status::CommandLine);
    if let Some((text, fault)) = bad {
        // if that fails too, only the status is left
        let _ = match fault {
            AddressFault::Not(wanted) => writeln!(err, "\"{text}\" is not {wanted}"),
            AddressFault::Number(number) => writeln!(err, "\"{text}\": {number}"),
        };
    }
    status
}

/// Complains of what was given to `serve`: the address, the number of octets, the blocks of addresses, or that it is to remember requests in vain.
fn print_no_serving<E: Write>(given: &ArgMatches<'_>, err: &mut E) -> Status
    ensures { result ≡ status.CommandLine }
{
    if remembers_in_vain(given) {
        let status = complain(err, "bad remember", Status::CommandLine);
        // if that fails too, only the status is left
        let _ = err.writeln("--remember with --turns requires --reuse");
        return status;
    }
    match given.get_str("memory") {
        Some(text) if read_memory(text).is_none() => {
            let status = complain(err, "bad memory", Status::CommandLine);
            // if that fails too, only the status is left
            let _ = writeln!(
                err,
                "\"{text}\" is invalid: expected 65540 to 1099511627776 octets, such as 512K or 64M"
            );
            status
        }
        _ => match bad_peers(given) {
            Some((text, fault)) => print_bad_peers(text, fault, err),
            None => print_bad_address(bad_host(given), err),
        },
    }
}

/// Complains of a text that is no blocks of addresses: `bad peers`, and which and why.
fn print_bad_peers<E: Write>(text: &str, fault: SourcesFault, err: &mut E) -> Status
    ensures { result ≡ status.CommandLine }
{
    let status = complain(err, "bad peers", Status::CommandLine);
    // if that fails too, only the status is left
    let _ = writeln!(err, "\"{text}\": {fault}");
    status
}

/// Complains of a text that names no form of datagrams: `bad form`, and which and what is wanted.
fn print_bad_form<E: Write>(form: Option<&str>, err: &mut E) -> Status
    ensures { result ≡ status.CommandLine }
{
    let status = complain(err, "bad form", Status::CommandLine);
    if let Some(form) = form {
        // if that fails too, only the status is left
        let _ = writeln!(err, "\"{form}\" is invalid: expected {FORM_NAMES}");
    }
    status
}

/// Complains of a text behind `--timeout` that is no time from above 0 to a minute, as clap does of other arguments.
fn print_bad_timeout<E: Write>(text: &str, err: &mut E) -> Status
    ensures { result ≡ status.CommandLine }
{
    // if that fails too, only the status is left
    let _ = writeln!(
        err,
        "error: invalid value '{text}' for '--timeout <TIME>': expected a time above 0 and at most 60 s, such as 500ms, 2s or 0.5"
    );
    let _ = err.write_all(b"\nFor more information, try '--help'.\n");
    Status::CommandLine
}

/// Complains of what was given to a command that asks a node: the time between rounds, the time to wait, or the address.
fn print_no_asking<E: Write>(given: &ArgMatches<'_>, err: &mut E) -> Status
    ensures { result ≡ status.CommandLine }
{
    if let Some(text) = bad_pace(given) {
        print_bad_pace(text, err);
        return Status::CommandLine;
    }
    match bad_timeout(given) {
        Some(text) => print_bad_timeout(text, err),
        None => print_bad_address(bad_node(given), err),
    }
}

/// Complains of a command line that clap takes and that asks for nothing.
pub(crate) fn print_no_task<E: Write>(matches: &ArgMatches<'_>, err: &mut E) -> Status
    ensures { result ≡ status.CommandLine }
{
    match matches.subcommand() {
        Some(("decode", given)) => print_bad_form(given.get_str("form"), err),
        Some(("explain", given)) => match bad_slower(given) {
            Some(text) => print_bad_slower(text, err),
            None => print_bad_address(bad_peer(given), err),
        },
        Some(("serve", given)) => print_no_serving(given, err),
        Some(("read" | "write" | "points" | "get" | "put" | "backup" | "restore" | "ask", given)) =>
            print_no_asking(given, err),
        _ => complain(err, "no command", Status::CommandLine),
    }
}
