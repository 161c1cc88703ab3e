//! From which address of this machine nodes are asked. It is never 0.0.0.0: a client there would be no station, since a station has one address.
ghost use Rattle.std.specs.Prelude.{◌≡◌, IfOk, IfSome};
ghost use Rattle.bac_asking.specs.Online.{IsOneHost};
ghost use Rattle.bac_text.specs.declared.status.Status.TheVariants as status;

use bac_environment::{ClientSockets, EVERY_HOST, LOCAL_HOST, LineQuestion, host_towards};
use bac_npdu::LinkAddress;
use bac_text::Status;
use std::io;
use std::io::Write;
use std::net::Ipv4Addr;

/// The address of this machine from which the system sends to a node: 127.0.0.1 for one on the loopback. None if the system tells none.
fn told_source<M: ClientSockets>(machine: &M, link: LinkAddress) -> Option<[u8; 4]>
    ensures { IfSome result IsOneHost }
{
    if host_towards(link) == LOCAL_HOST {
        return Some(LOCAL_HOST);
    }
    match machine.source_towards(link) {
        Some(host) if host != EVERY_HOST => Some(host),
        _ => None,
    }
}

/// The same, but 127.0.0.1 if the system tells none: from there nothing reaches another host.
pub(crate) fn source_towards<M: ClientSockets>(machine: &M, link: LinkAddress) -> [u8; 4]
    ensures { IsOneHost result }
{
    match told_source(machine, link) {
        Some(host) => host,
        None => LOCAL_HOST,
    }
}

/// The address of this machine from which the next node of a client asks, which asked from that one and is to ask that node: the same. If it asked from 127.0.0.1, it
/// is the one from which the system sends to the node now, since there may have been none before.
pub(crate) fn next_source<M: ClientSockets>(
    machine: &M,
    host: [u8; 4],
    link: LinkAddress,
) -> [u8; 4] {
    if host == LOCAL_HOST {
        source_towards(machine, link)
    } else {
        host
    }
}

/// A line of a list, its node, and the address of this machine from which the system sends to that.
#[derive(Clone, Copy)]
struct LineSource {
    /// The line's number, counted from 1.
    number: u64,
    link: LinkAddress,
    host: [u8; 4],
}

fn line_source<M: ClientSockets>(machine: &M, line: &LineQuestion) -> Option<LineSource>
    ensures { IfSome result (λ l. IsOneHost l.host) }
{
    let link = line.question.peer.link;
    let host = told_source(machine, link)?;
    Some(LineSource {
        number: line.number,
        link,
        host,
    })
}

/// The first of these lines to whose node the system sends from an address other than that one; from any, where none is given.
fn first_source<M: ClientSockets>(
    machine: &M,
    lines: &[LineQuestion],
    besides: Option<[u8; 4]>,
) -> Option<LineSource>
    ensures { IfSome result (λ l. IsOneHost l.host) }
{
    let mut last = None;
    for line in lines {
        let link = line.question.peer.link;
        if last == Some(link) {
            continue;
        }
        last = Some(link);
        match line_source(machine, line) {
            Some(found) if besides != Some(found.host) => return Some(found),
            _ => (),
        }
    }
    None
}

/// The address of this machine from which all nodes of these lines are asked: the one from which the system sends to them. Those for which it tells none do not
/// count; if it tells none for any of them, it is 127.0.0.1.
///
/// Returns an Err if it tells different ones for two of them.
pub(crate) fn source_of_lines<M: ClientSockets>(
    machine: &M,
    lines: &[LineQuestion],
) -> Result<[u8; 4], Apart>
    ensures { IfOk result IsOneHost }
{
    let Some(first) = first_source(machine, lines, None) else {
        return Ok(LOCAL_HOST);
    };
    match first_source(machine, lines, Some(first.host)) {
        Some(other) => Err(Apart { first, other }),
        None => Ok(first.host),
    }
}

/// Two lines of a list whose nodes see different addresses of this machine.
#[derive(Clone, Copy)]
pub(crate) struct Apart {
    first: LineSource,
    other: LineSource,
}

/// An IPv4 address, as it is printed.
fn shown(host: [u8; 4]) -> Ipv4Addr {
    let [a, b, c, d] = host;
    Ipv4Addr::new(a, b, c, d)
}

impl Apart {
    /// Writes that behind the name of the list, if that has one.
    fn write<E: Write>(self, path: &str, err: &mut E) -> io::Result<()> {
        let LineSource { number, link, host } = self.other;
        let [a, b, c, d, high, low] = link;
        let port = u16::from_be_bytes([high, low]);
        let peer = shown([a, b, c, d]);
        let host = shown(host);
        let first = self.first.number;
        let first_host = shown(self.first.host);
        if path != "-" {
            write!(err, "{path}: ")?;
        }
        write!(err, "line {number}: {peer}:{port} is asked from {host}")?;
        writeln!(
            err,
            ", but the device of line {first} from {first_host}: put them in separate lists"
        )
    }

    /// Prints that, and what to do. `path` is the name of the list, and `-` if it is standard input.
    pub(crate) fn report<E: Write>(self, path: &str, err: &mut E) -> Status
        ensures { result ≡ status.CommandLine }
    {
        // if that fails too, only the status is left
        let _ = self.write(path, err);
        Status::CommandLine
    }
}
