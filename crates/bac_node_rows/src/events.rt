//! What a line of a row does to a node. A line is a moment, a verb and its words.
//!
//! - `from PEER HEX`: an APDU arrives in a plain frame.
//! - `reuse PEER HEX`: one arrives at a node that lets invoke IDs be used again.
//! - `remember MS PEER HEX`: one arrives at such a node, which then remembers a request no longer than so.
//! - `memory OCTETS PEER HEX`, or `memory OCTETS reuse PEER HEX`: one arrives at a node that keeps no more than so.
//! - `hear PEER HEX`: a datagram arrives.
//! - `ask PEER LIMITS REQUEST`, `tick`, `prepare` (a tick that is only prepared), `begin ID` (where invoke IDs begin) and `restart` are calls of the node.
//! - `set OBJECT PROPERTY HEX` and `file OBJECT HEX` are calls too.
//! - `due` prints when something is next due, and `free` when a slot for a request is.
//! - `count` prints how many slots are held and how many entries live, and `compare` whether the node and its store are as new.
use crate::printing::{print_refusal, print_ticket};
use crate::scene::{limits_of, link, nodes_of};
use crate::telling::{framed, print_outcome, print_sends};
use crate::words::{change_of, request_of};
use bac_apdu::read;
use bac_node::{MEMORY, Node, NodeFault, Outcome};
use bac_npdu::Peer;
use bac_requester::{AskFault, Asked};
use bac_rows::row::{Row, after, number, place_of, word};
use bac_store::{Change, ChangeFault};
use bac_transaction::Rules;

/// How a node took an event.
#[derive(Clone, Copy)]
pub(crate) enum Came {
    /// It was accepted, and set the latest moment.
    Heard,
    /// It was accepted, and has no moment.
    Timeless,
    /// A datagram was dropped: it set the latest moment, as a tick does.
    Dropped,
    Refused,
    NoMemory,
}

/// A new node of a scene; None is a fault.
pub(crate) fn node_of(scene: &str, row: &mut Row) -> Option<Node> {
    let made = match nodes_of(scene, 1, row).pop() {
        Some((config, store)) => Node::new(row.alloc, config, store).ok(),
        None => None,
    };
    row.needs(made.is_some());
    made
}

/// Prints what came of a call that was accepted.
fn told_of(mut outcome: Outcome, row: &mut Row) -> Came {
    print_outcome(&mut outcome, row);
    let is_dropped = outcome.dropped.is_some();
    drop(outcome);
    if is_dropped {
        Came::Dropped
    } else {
        Came::Heard
    }
}

/// Prints the result of a call.
fn told(came: Result<Outcome, NodeFault>, row: &mut Row) -> Came {
    match came {
        Ok(outcome) => told_of(outcome, row),
        Err(NodeFault::NoMemory) => Came::NoMemory,
        Err(fault) => {
            row.tell("fault #\n", u64::from(fault.number()));
            Came::Refused
        }
    }
}

/// The rules of a node that hears something, by the verb and its words.
fn rules_of(verb: &str, words: &str) -> Rules {
    match place_of("reuse remember memory", verb) {
        0 => Rules::of(true).within(MEMORY),
        1 => Rules {
            remember: Some(number(words, 0)),
            ..Rules::of(true).within(MEMORY)
        },
        2 => Rules::of(word(words, 1) == "reuse").within(number(words, 0) as usize),
        _ => Rules::of(false).within(MEMORY),
    }
}

/// The words behind those of the rules.
fn behind_rules<'a>(verb: &str, words: &'a str) -> &'a str {
    if verb == "memory" && word(words, 1) == "reuse" {
        after(words, 2)
    } else if verb == "memory" || verb == "remember" {
        after(words, 1)
    } else {
        words
    }
}

/// An APDU in a frame. Octets that are not an APDU have no frame.
fn framed_apdu(octets: &[u8], row: &mut Row) -> Vec<u8> {
    row.needs(read(octets).is_ok());
    framed(octets, row)
}

/// A datagram, or an APDU in a frame.
fn datagram_of(verb: &str, digits: &str, row: &mut Row) -> Vec<u8> {
    let octets = row.octets_or_fault(digits, 0);
    if verb == "hear" {
        octets
    } else {
        framed_apdu(&octets, row)
    }
}

/// A datagram or an APDU arrives, at a node whose rules the verb says.
fn hears(node: &mut Node, now: u64, verb: &str, words: &str, row: &mut Row) -> Came {
    let heard = behind_rules(verb, words);
    let octets = datagram_of(verb, after(heard, 1), row);
    let from = link(row.number8_or_fault(heard, 0));
    let came = told(node.hear(&rules_of(verb, words), now, from, &octets), row);
    within(verb, came, row)
}

/// What comes of that at a node with a bound on its memory, if the verb says so.
fn within(verb: &str, came: Came, row: &mut Row) -> Came {
    match came {
        // the bound on memory refuses too: the row says so, and does not try again
        Came::NoMemory if verb == "memory" => {
            row.say("no room\n");
            Came::Refused
        }
        came => came,
    }
}

/// A tick is prepared, and not made: the node keeps its latest moment.
fn prepares(node: &Node, now: u64, row: &mut Row) -> Came {
    match told(node.prepare_tick(now), row) {
        Came::Heard => Came::Timeless,
        came => came,
    }
}

/// Prints the result of an ask.
fn told_of_ask(came: Result<Asked, AskFault>, row: &mut Row) -> Came {
    match came {
        Ok(asked) => {
            print_ticket(asked.ticket, asked.invoke_id, row);
            print_sends(&asked.sends, row);
            Came::Heard
        }
        Err(AskFault::NoMemory) => Came::NoMemory,
        Err(fault) => {
            print_refusal(fault.number(), row);
            Came::Refused
        }
    }
}

/// A node asks a peer.
fn asks(node: &mut Node, now: u64, words: &str, row: &mut Row) -> Came {
    let peer = Peer {
        link: link(row.number8_or_fault(words, 0)),
        route: None,
    };
    let limits = limits_of(word(words, 1), row);
    match request_of(after(words, 2), row) {
        Some(request) => {
            let came = node.ask(now, &peer, &limits, &request);
            drop(request);
            told_of_ask(came, row)
        }
        None => Came::Refused,
    }
}

/// Prints the result of a change.
fn told_of_change(changed: Result<(), ChangeFault>, row: &mut Row) -> Came {
    match changed {
        Ok(()) => {
            row.say("changed\n");
            Came::Timeless
        }
        Err(ChangeFault::NoMemory) => Came::NoMemory,
        Err(fault) => {
            row.tell("unchanged #\n", u64::from(fault.number()));
            Came::Refused
        }
    }
}

/// A node changes its own store.
fn changes(node: &mut Node, change: Option<Change>, row: &mut Row) -> Came {
    match change {
        Some(change) => {
            let changed = node.change(&change);
            drop(change);
            told_of_change(changed, row)
        }
        None => Came::Refused,
    }
}

/// A node restarts with the store that it has.
fn restarts(node: &mut Node, now: u64) -> Came {
    match node.restart(now, None) {
        Ok(()) => Came::Heard,
        Err(_) => Came::NoMemory,
    }
}

/// Prints when a tick does something next.
fn print_due(node: &Node, row: &mut Row) {
    match node.next_due() {
        Some(moment) => row.tell("due #\n", moment),
        None => row.say("due none\n"),
    }
}

/// Prints whether a node is as a new one of the scene, and whether its store is.
fn compare(node: &Node, scene: &str, row: &mut Row) {
    if let Some(new) = node_of(scene, row) {
        row.say("new node ");
        row.say_truth(node.same(&new));
        row.tell_truth(" store ", node.store().same(new.store()));
        drop(new);
    }
}

/// Prints what a line asks about a node.
fn tells(node: &Node, scene: &str, now: u64, verb: &str, row: &mut Row) {
    match place_of("due free count compare", verb) {
        0 => print_due(node, row),
        1 => row.line(format_args!("free {}", node.next_free(now))),
        2 => row.tell_two(
            "held # live #\n",
            node.held(now) as u64,
            node.live(now) as u64,
        ),
        3 => compare(node, scene, row),
        _ => row.fail(),
    }
}

/// The verbs that do something to a node, those by which it hears something first.
const VERBS: &str = "from hear reuse remember memory tick prepare ask set file begin restart";

/// Does what a line says to a node of a scene, and prints the result; where an allocation fails in the node, prints nothing.
pub(crate) fn happens(node: &mut Node, scene: &str, line: &str, row: &mut Row) -> Came {
    let now = row.number_or_fault(line, 0);
    let (verb, words) = (word(line, 1), after(line, 2));
    match place_of(VERBS, verb) {
        0..=4 => hears(node, now, verb, words, row),
        5 => told(node.tick(now), row),
        6 => prepares(node, now, row),
        7 => asks(node, now, words, row),
        8 => changes(node, change_of("set", words, row), row),
        9 => changes(node, change_of("file", words, row), row),
        10 => {
            node.set_first_invoke_id(row.number8_or_fault(words, 0));
            Came::Timeless
        }
        11 => restarts(node, now),
        _ => {
            tells(node, scene, now, verb, row);
            Came::Timeless
        }
    }
}
