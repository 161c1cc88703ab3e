//! Lines of APDUs and of frames.
//!
//! `apdu` reads an APDU and writes it again; `bvll`, `npdu` and `datagram` read a frame or a part of one, and `fronts` each prefix of a datagram with its own
//! length. `frame PEER EXPECTING HEX` writes a frame after an octet, and `head` what comes before the APDU. `order` prints how peers compare. A peer is `near` or
//! `NETWORK:HEX`.
ghost use Rattle.std.specs.Prelude.{◌≤◌, length};

use crate::words::{print_again, print_octets};
use bac_apdu::{Apdu, apdu_len, read, write};
use bac_npdu::{
    LinkAddress, Peer, Route, read_bvll, read_datagram, read_npdu, write_datagram, write_frame_head,
};
use bac_rows::row::{Row, decimal, place_of, word};
use std::cmp::Ordering;
use std::fmt::Debug;

/// The link from which datagrams come.
const LINK: LinkAddress = [0x7F, 0, 0, 1, 0xBA, 0xC1];

fn write_again(apdu: &Apdu<'_>, octets: &[u8], row: &mut Row) {
    let mut written = Vec::new(row.alloc);
    let _ = write(apdu, &mut written);
    row.tell("length #\n", apdu_len(apdu) as u64);
    print_again(&written, octets, row);
}

/// Prints the number of a fault, and its name.
fn print_fault<F: Debug + Drop>(number: u8, fault: F, row: &mut Row) {
    row.tell("fault #: ", u64::from(number));
    row.line(format_args!("{fault:?}"));
}

fn apdu(octets: &[u8], row: &mut Row) {
    match read(octets) {
        Ok(apdu) => write_again(&apdu, octets, row),
        Err(fault) => print_fault(fault.number(), fault, row),
    }
}

fn bvll(octets: &[u8], row: &mut Row) {
    match read_bvll(octets) {
        Ok(npdu) => {
            row.say("npdu ");
            print_octets(npdu, row);
        }
        Err(fault) => print_fault(fault.number(), fault, row),
    }
}

fn npdu(octets: &[u8], row: &mut Row) {
    match read_npdu(octets) {
        Ok(_) => row.say("read\n"),
        Err(fault) => print_fault(fault.number(), fault, row),
    }
}

fn print_peer(peer: &Peer, row: &mut Row) {
    row.say("from ");
    row.say_octets(&peer.link);
    if let Some(route) = &peer.route {
        row.tell(" #:", u64::from(route.network));
        row.say_octets(route.address.octets());
    }
}

fn datagram(octets: &[u8], row: &mut Row) {
    match read_datagram(LINK, octets) {
        Ok((peer, apdu)) => {
            print_peer(&peer, row);
            row.say(" apdu ");
            print_octets(apdu, row);
        }
        Err(dropped) => row.line(format_args!("dropped {dropped:?}")),
    }
}

/// A front of a datagram, with its own length in the BVLL.
fn front(octets: &mut [u8], len: usize, row: &mut Row) {
    // the low octet of the length (clause J.2)
    if let Some(octet) = octets.get_mut(3) {
        *octet = (len % 256) as u8;
    }
    row.tell("#: ", len as u64);
    datagram(octets.get(..len).unwrap_or(&[]), row);
}

fn fronts(octets: &mut [u8], row: &mut Row) {
    for len in 0..octets.len() {
        front(octets, len, row);
    }
}

/// The route of `NETWORK:HEX`; None of `near`.
fn route_of(word: &str, row: &Row) -> Option<Route> {
    match word.split_once(':') {
        Some((network, digits)) => {
            let octets = row.octets(digits, 0);
            Route::new((decimal(network) % 65_536) as u16, &octets)
        }
        None => None,
    }
}

/// The peer of a word, at that link.
pub(crate) fn peer_of(link: LinkAddress, word: &str, row: &Row) -> Peer {
    Peer {
        link,
        route: route_of(word, row),
    }
}

/// Prints what is written for a peer: a whole frame, or what comes before the APDU.
fn print_written(is_whole: bool, peer: &Peer, expecting: bool, apdu: &[u8], row: &mut Row)
    requires { length apdu.now ≤ 1476 }
{
    let mut out = Vec::new(row.alloc);
    // a frame is appended to what is there
    let _ = out.push(0xAAu8);
    let _ = if is_whole {
        write_datagram(peer, expecting, apdu, &mut out)
    } else {
        write_frame_head(peer, expecting, apdu.len(), &mut out)
    };
    print_octets(&out, row);
}

fn frame(is_whole: bool, words: &str, row: &mut Row) {
    let peer = peer_of(LINK, word(words, 0), row);
    let expecting = word(words, 1) == "expecting";
    let apdu = row.octets(words, 2);
    // no APDU is longer (clause 20.1.2.5)
    if apdu.len() <= 1_476 {
        print_written(is_whole, &peer, expecting, &apdu, row);
    }
}

/// The peer of `OCTET,PEER`, whose link ends in that octet.
fn placed(word: &str, row: &Row) -> Peer {
    let (octet, peer) = word.split_once(',').unwrap_or((word, ""));
    let mut link = LINK;
    link[5] = (decimal(octet) % 256) as u8;
    peer_of(link, peer, row)
}

fn sign(ordering: Ordering) -> u8 {
    match ordering {
        Ordering::Less => b'<',
        Ordering::Equal => b'=',
        Ordering::Greater => b'>',
    }
}

/// Prints how a peer compares with each of some.
fn compare(one: &Peer, words: &str, row: &mut Row) {
    for word in words.split(' ') {
        row.put(sign(one.cmp(&placed(word, row))));
    }
    row.put(b'\n');
}

fn order(words: &str, row: &mut Row) {
    for word in words.split(' ') {
        compare(&placed(word, row), words, row);
    }
}

/// Shows octets, which are lent, so that nothing is to be dropped at the end of each arm.
fn show_octets(verb: &str, octets: &mut [u8], row: &mut Row) {
    match place_of("apdu bvll npdu datagram fronts", verb) {
        0 => apdu(octets, row),
        1 => bvll(octets, row),
        2 => npdu(octets, row),
        3 => datagram(octets, row),
        4 => fronts(octets, row),
        _ => row.fail(),
    }
}

/// Shows what a line says.
pub(crate) fn show(verb: &str, words: &str, row: &mut Row) {
    match place_of("frame head order", verb) {
        0 => frame(true, words, row),
        1 => frame(false, words, row),
        2 => order(words, row),
        _ => {
            let mut octets = row.octets(words, 0);
            show_octets(verb, &mut octets, row);
        }
    }
}
