//! Nodes of this host at whose UDP port nothing listens.
//!
//! A client's socket is not connected to a node, so the system does not tell it that a port is closed. The table of sockets tells.
ghost use Rattle.std.specs.Prelude.{◌≡◌, true, get_or, IfOk, IfSome};
ghost use Rattle.std.specs.String.{string_bytes};
ghost use Rattle.bac_npdu.specs.Views.{peer_view};
ghost use Rattle.bac_environment.specs.Files.{OfFile, OnFile};
ghost use Rattle.bac_asking.specs.Unheard.{IsUnheard, IsUnheardIn, IsUnlisted, Lacks, local_end};

use crate::no_answer::tell_unheard;
use bac_environment::{Environment, OpenFiles};
use bac_npdu::{LinkAddress, Peer};
use std::alloc::{AllocError, Global};
use std::io::{ErrorKind, Read, Write};

/// The system's table of UDP sockets over IPv4, a row for each (proc_net(5)).
const SOCKETS: &str = "/proc/net/udp";

/// The system's table of UDP sockets over IPv6, some of which are reached over IPv4 too.
const SOCKETS_V6: &str = "/proc/net/udp6";

/// What stands above the rows.
const HEAD: &str = "local_address";

/// The first octet of the addresses by which a host reaches itself (RFC 1122, 3.2.1.3).
const LOOPBACK: u8 = 127;

/// A local address as a row has it, by the octets of the host from the last to the first, and those of the port.
fn local_end(alloc: Global, host: [u8; 4], port: [u8; 2]) -> Result<String, AllocError>
    ensures { IfOk result (λ text. string_bytes text ≡ local_end host port) }
{
    let host = hex::encode_upper(alloc, &host)?;
    let port = hex::encode_upper(alloc, &port)?;
    let text = format!(in alloc; "{host}:{port} ")?;
    Ok(text)
}

/// Whether a text does not occur in a table.
#[tactic(auto, using(crate::proofs::Tables::lacks_so))]
fn lacks(table: &str, text: &str) -> bool
    ensures { result ≡ true → Lacks table.now text.now }
{
    !table.contains(text)
}

/// Whether no row of a table has that local address; false where memory is refused.
#[tactic(auto, using(crate::proofs::Tables::lacks_same))]
fn lacks_end(alloc: Global, table: &str, host: [u8; 4], port: [u8; 2]) -> bool
    ensures { result ≡ true → Lacks table.now (local_end host port) }
{
    match local_end(alloc, host, port) {
        Ok(end) => lacks(table, &end),
        Err(_) => false,
    }
}

/// Whether no row of a table is of a socket that hears a link: one at its host and port, or at its port of every host. False where it is no table.
///
/// A row over IPv6 ends its local address with the octets of one over IPv4, or with zeros for every host.
fn is_unheard_in(alloc: Global, table: &str, link: LinkAddress) -> bool
    ensures { result ≡ true → IsUnheardIn table.now link }
{
    if lacks(table, HEAD) {
        return false;
    }
    let host = [link[3], link[2], link[1], link[0]];
    let port = [link[4], link[5]];
    lacks_end(alloc, table, host, port) && lacks_end(alloc, table, [0, 0, 0, 0], port)
}

/// The octets of an open file. None where it cannot be read.
fn octets_in<F: Read + Drop>(alloc: Global, file: F) -> Option<Vec<u8>>
    ensures { IfSome result (λ v. IfSome (F.remaining file) (λ octets. v.items ≡ octets)) }
{
    let mut file = file;
    let mut octets = Vec::new(alloc);
    match file.read_to_end(&mut octets) {
        Ok(_) => Some(octets),
        Err(_) => None,
    }
}

/// Whether that holds of the table that an open file has. False where it cannot be read.
fn is_unheard_by<F: Read + Drop>(alloc: Global, file: F, link: LinkAddress) -> bool
    ensures { result ≡ true → IfSome (F.remaining file) (λ table. IsUnheardIn table link) }
{
    let Some(octets) = octets_in(alloc, file) else {
        return false;
    };
    match std::str::from_utf8(&octets) {
        Ok(table) => is_unheard_in(alloc, table, link),
        Err(_) => false,
    }
}

/// Whether no socket over IPv4 hears a link.
fn is_unlisted<F: OpenFiles>(alloc: Global, files: &F, link: LinkAddress) -> bool
    ensures { result ≡ true → IsUnlisted (OnFile F.is_file F.File.remaining) link }
{
    match files.open(SOCKETS) {
        Ok(file) => is_unheard_by(alloc, file, link),
        Err(_) => false,
    }
}

/// Whether no socket over IPv6 does; a host without IPv6 has no such table.
fn is_unlisted_v6<F: OpenFiles>(alloc: Global, files: &F, link: LinkAddress) -> bool {
    match files.open(SOCKETS_V6) {
        Ok(file) => is_unheard_by(alloc, file, link),
        Err(error) => error.kind() == ErrorKind::NotFound,
    }
}

/// Whether no socket hears a link.
fn looks_unheard<F: OpenFiles>(alloc: Global, files: &F, link: LinkAddress) -> bool
    ensures { result ≡ true → IsUnlisted (OnFile F.is_file F.File.remaining) link }
{
    is_unlisted(alloc, files, link) && is_unlisted_v6(alloc, files, link)
}

/// Whether a link is of this host, and no socket hears it.
fn is_unheard_here<F: OpenFiles>(alloc: Global, files: &F, link: LinkAddress) -> bool
    ensures here { result ≡ true → get_or link 0 0 ≡ 127 }
    ensures unlisted { result ≡ true → IsUnlisted (OnFile F.is_file F.File.remaining) link }
{
    if link[0] != LOOPBACK {
        return false;
    }
    // a long table comes in parts, and lacks a row where other sockets close meanwhile
    looks_unheard(alloc, files, link) && looks_unheard(alloc, files, link)
}

/// Whether a node is on this host, without a route, and the system tells that nothing listens at its UDP port. False where the system does not tell.
pub fn is_unheard<F: OpenFiles>(alloc: Global, files: &F, peer: Peer) -> bool
    ensures { result ≡ true → IsUnheard (OnFile F.is_file F.File.remaining) (peer_view peer) }
{
    match peer.route {
        Some(_) => false,
        None => is_unheard_here(alloc, files, peer.link),
    }
}

/// Whether nothing listens at a node of this host, as [`is_unheard`] says; `err` then says that it does not answer.
pub fn tells_unheard<F: OpenFiles, M, E: Write>(
    environment: &Environment<'_, F, M>,
    peer: Peer,
    err: &mut E,
) -> bool {
    let alloc = environment.alloc;
    let is_silent = is_unheard(alloc, environment.files, peer);
    if is_silent {
        tell_unheard(alloc, peer, err);
    }
    is_silent
}
