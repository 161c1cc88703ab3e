//! Rows of nodes on links in memory.
//!
//! A row has two sides, each with a client and a server; a line that begins with `twin` is about the second side. A side's links can be made to fail at a call,
//! and its clock can read the moments of a list.
use crate::lists::keep;
use crate::medium::Medium;
use crate::runs::{ask, ask_in_pair, rounds, serve};
use crate::side::{MemoryNode, Side};
use crate::turns::{begin, buffer, print_octets, recv, send, turn, turn_by};
use bac_driver::Link;
use bac_rows::row::{Row, decimal, first, number, place_of, word};
use bac_service::{AnyComplex, AnyReply, Reply, Request, read_request};
use bac_store::Store;
use std::cell::RefCell;

/// Reads 256 octets of file 1.
const READ_FILE: &[u8] = b"\xC4\x02\x80\x00\x01\x0E\x31\x00\x22\x01\x00\x0F";

/// Prints the octets of a file that a reply has.
fn print_content(reply: Reply<'_>, row: &mut Row) {
    match reply {
        AnyReply::Complex(AnyComplex::FileRead(read)) => print_octets(read.content.octets, row),
        _ => row.fail(),
    }
}

fn print_file(store: &Store, request: &Request<'_>, row: &mut Row) {
    match store.prepare(row.alloc, request) {
        Ok(planned) => {
            print_content(planned.reply(), row);
            drop(planned);
        }
        Err(_) => row.fail(),
    }
}

/// Prints the octets of a file of a store that an AtomicReadFile with these service data reads.
pub(crate) fn file(store: &Store, service: &[u8], row: &mut Row) {
    match read_request(6, service) {
        Ok(request) => print_file(store, &request, row),
        Err(_) => row.fail(),
    }
}

/// `fail send NUMBER` and `fail receive NUMBER`: that call fails.
fn fail(medium: &mut Medium, words: &str) {
    if word(words, 0) == "send" {
        medium.failing_send = number(words, 1);
    } else {
        medium.failing_receive = number(words, 1);
    }
}

/// `moments M M ..`: the moments that the clock reads.
fn moments(medium: &mut Medium, words: &str, row: &mut Row) {
    for word in words.split(' ') {
        keep(decimal(word), &mut medium.moments, row);
    }
}

/// `calls`: the calls of links since the last such line.
fn calls(medium: &mut Medium, row: &mut Row) {
    row.take(&medium.calls);
    medium.calls.told.clear();
}

fn clock(medium: &Medium, row: &mut Row) {
    row.tell_two("moment # told #", medium.moment, medium.told as u64);
    row.tell(" receives #\n", medium.receives);
}

/// Prints the latest moment of a node, and how many calls of its link failed.
fn print_node(name: &str, node: &MemoryNode<'_>, row: &mut Row) {
    row.say(name);
    row.tell_two(
        " latest # failures #\n",
        node.node().latest(),
        node.link().failures(),
    );
}

/// `nodes`: how the nodes are.
fn nodes(side: &Side<'_>, row: &mut Row) {
    print_node("client", &side.client, row);
    print_node("server", &side.server, row);
}

/// A line about a medium.
fn of_medium(medium: &mut Medium, verb: &str, words: &str, row: &mut Row) {
    match place_of("fail moments calls clock", verb) {
        0 => fail(medium, words),
        1 => moments(medium, words, row),
        2 => calls(medium, row),
        3 => clock(medium, row),
        _ => row.fail(),
    }
}

/// A line of a side that is about its medium.
fn beside(side: &Side<'_>, verb: &str, words: &str, row: &mut Row) {
    match side.medium.try_borrow_mut() {
        Ok(mut medium) => of_medium(&mut medium, verb, words, row),
        Err(_) => row.fail(),
    }
}

/// Prints what a line asks about a side.
fn tell(side: &Side<'_>, verb: &str, words: &str, row: &mut Row) {
    match place_of("send recv buffer file nodes", verb) {
        0 => send(side, words, row),
        1 => recv(side, words, row),
        2 => buffer(side, number(words, 0) as usize, row),
        3 => file(side.server.node().store(), READ_FILE, row),
        4 => nodes(side, row),
        _ => beside(side, verb, words, row),
    }
}

/// A line of a side.
fn of_side(side: &mut Side<'_>, line: &str, row: &mut Row) {
    let (verb, words) = first(line);
    match place_of("turn by begin serve ask pair rounds", verb) {
        0 => turn(side, words, row),
        1 => turn_by(side, words, row),
        2 => begin(side, words, row),
        3 => serve(side, words, row),
        4 => ask(side, words, row),
        5 => ask_in_pair(side, words, row),
        6 => rounds(side, number(words, 0), row),
        _ => tell(side, verb, words, row),
    }
}

/// `same`: whether the nodes of both sides are the same.
fn compare(one: &Side<'_>, twin: &Side<'_>, row: &mut Row) {
    row.say("client same ");
    row.say_truth(one.client.node().same(twin.client.node()));
    row.tell_truth(", server same ", one.server.node().same(twin.server.node()));
}

fn happens(one: &mut Side<'_>, twin: &mut Side<'_>, line: &str, row: &mut Row) {
    row.say_line("> ", line);
    match line.strip_prefix("twin ") {
        Some(line) => of_side(twin, line, row),
        None if line == "same" => compare(one, twin, row),
        None => of_side(one, line, row),
    }
}

fn all_happen(one: &mut Side<'_>, twin: &mut Side<'_>, lines: &str, row: &mut Row) {
    for line in lines.lines() {
        happens(one, twin, line, row);
    }
}

/// Plays the lines of a row beside that side.
fn play_beside(medium: &RefCell<Medium>, one: &mut Side<'_>, lines: &str, row: &mut Row) {
    match Side::new(row.alloc, medium) {
        Some(mut twin) => {
            all_happen(one, &mut twin, lines, row);
            drop(twin);
        }
        None => row.fail(),
    }
}

fn play_on(medium: &RefCell<Medium>, other: &RefCell<Medium>, lines: &str, row: &mut Row) {
    match Side::new(row.alloc, medium) {
        Some(mut one) => {
            play_beside(other, &mut one, lines, row);
            drop(one);
        }
        None => row.fail(),
    }
}

/// Plays the lines of a row. Few values to drop live in each function here, since the check of one grows with them at each step.
pub(crate) fn play(lines: &str, row: &mut Row) {
    let medium = RefCell::new(Medium::new(row.alloc));
    let other = RefCell::new(Medium::new(row.alloc));
    play_on(&medium, &other, lines, row);
}
