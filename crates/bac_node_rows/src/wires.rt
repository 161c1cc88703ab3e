//! Rows of nodes on a wire that loses nothing: each datagram that was sent is delivered whenever a line says so, also late, and again.
//!
//! A line begins with its moment. `ask CLIENT SERVER REQUEST`: a node asks another one, with what that one takes of APDUs; `SERVER/NET:HEX` asks by a route to
//! its link. `deliver NUMBER`: that datagram is delivered to the node that it was sent to. `hear NODE LINK HEX`: octets arrive at a node from the link of that
//! number. `tick NODE`: the node does what is due. `set NODE OBJECT PROPERTY HEX`: it changes its own store. `file NODE` prints the octets of the node's file 1.
//! Datagrams are numbered from 0, in the order of sending.
//!
//! `new NODE`: another node begins at the link, as the first one did; `restart NODE`: it restarts and waits. `clock NODE EXACT RATE`: from that moment on the
//! node's clock shows EXACT millionths of a millisecond, and RATE more after each millisecond. Without such a line it shows the moment.
use crate::lists::keep;
use crate::nodes::file;
use crate::playing::{Stage, play};
use crate::printing::{print_one_ended, print_refusal, print_ticket};
use crate::scene::{link, nodes_of};
use crate::words::{change_of, request_of};
use bac_apdu::Limits;
use bac_node::{Node, Outcome};
use bac_npdu::{LinkAddress, Peer, Route};
use bac_requester::{AskFault, Asked};
use bac_rows::row::{Row, after, decimal, number, number8, place_of, word};
use bac_store::Change;
use bac_transaction::Datagram;

/// Reads 60,000 octets of file 1.
const READ_FILE: &[u8] = b"\xC4\x02\x80\x00\x01\x0E\x31\x00\x22\xEA\x60\x0F";

/// How many millionths of a millisecond a millisecond is.
const MILLISECOND: u64 = 1_000_000;

/// What a clock shows at a moment, in millionths of a millisecond, and how many more after each millisecond.
#[derive(Clone, Copy)]
struct Shown {
    moment: u64,
    exact: u64,
    rate: u64,
}

impl Shown {
    /// A clock that shows each moment.
    fn right() -> Shown {
        Shown {
            moment: 0,
            exact: 0,
            rate: MILLISECOND,
        }
    }

    /// The millisecond that the clock shows at a moment.
    fn at(self, moment: u64) -> u64 {
        let passed = moment.saturating_sub(self.moment);
        self.exact.saturating_add(passed.saturating_mul(self.rate)) / MILLISECOND
    }
}

/// A datagram, and the link that sent it.
#[derive(Drop)]
struct Sent {
    from: LinkAddress,
    datagram: Datagram,
}

/// Nodes of a scene, their clocks, and all datagrams that they sent.
#[derive(Drop)]
struct Wire<'a> {
    scene: &'a str,
    nodes: Vec<Node>,
    clocks: Vec<Shown>,
    sent: Vec<Sent>,
}

/// The place of the node of that link.
fn place_of_link(link: LinkAddress) -> usize {
    usize::from(link[3])
}

/// The link of the node of that number.
fn link_of(node: usize) -> LinkAddress {
    link((node % 256) as u8)
}

/// Prints a datagram with its number: from whom, to whom, and its octets.
fn print_sent(number: usize, sent: &Sent, row: &mut Row) {
    let (from, to) = (place_of_link(sent.from), place_of_link(sent.datagram.to()));
    row.tell_two("sent # #>", number as u64, from as u64);
    row.tell("# ", to as u64);
    row.say_octets(sent.datagram.octets());
    row.put(b'\n');
}

/// Prints why a datagram was dropped, which request was performed, and which asks ended.
fn print_done(outcome: &Outcome, row: &mut Row) {
    if let Some(cause) = &outcome.dropped {
        row.tell("dropped #\n", u64::from(cause.number()));
    }
    if let Some(act) = &outcome.effect {
        let client = place_of_link(act.key.peer.link) as u64;
        row.tell_two("performed #:#\n", client, u64::from(act.key.invoke_id));
    }
    for ended in outcome.ended.iter() {
        print_one_ended(ended, row);
    }
}

/// The route `NET:HEX`; None is a fault.
fn route_of(words: &str, row: &mut Row) -> Option<Route> {
    let (network, digits) = words.split_once(':').unwrap_or((words, ""));
    let octets = row.octets(digits, 0);
    let route = Route::new((decimal(network) % 65_536) as u16, &octets);
    row.needs(route.is_some());
    route
}

/// The node that is asked, by a route where there is one.
fn peer_of(word: &str, row: &mut Row) -> Peer {
    let (server, route) = word.split_once('/').unwrap_or((word, ""));
    let link = link_of(decimal(server) as usize);
    let route = if route.is_empty() {
        None
    } else {
        route_of(route, row)
    };
    Peer { link, route }
}

/// The node of a place in a scene, as a new one; None is a fault.
fn made(scene: &str, place: usize, row: &mut Row) -> Option<Node> {
    let mut nodes = nodes_of(scene, 0, row);
    nodes.truncate(place.saturating_add(1));
    let made = match nodes.pop() {
        Some((config, store)) => Node::new(row.alloc, config, store).ok(),
        None => None,
    };
    row.needs(made.is_some());
    made
}

/// What comes of a datagram at its node; None where there is no datagram, or the node fails.
fn delivered(nodes: &mut Vec<Node>, now: u64, sent: Option<&Sent>) -> Option<Outcome> {
    match sent {
        Some(sent) => match nodes.get_mut(place_of_link(sent.datagram.to())) {
            Some(node) => node.on(now, sent.from, sent.datagram.octets()).ok(),
            None => None,
        },
        None => None,
    }
}

impl Wire<'_> {
    /// Keeps what a node sends, and prints it.
    fn take(&mut self, from: LinkAddress, sends: Vec<Datagram>, row: &mut Row) {
        for datagram in sends {
            let sent = Sent { from, datagram };
            print_sent(self.sent.len(), &sent, row);
            keep(sent, &mut self.sent, row);
        }
    }

    /// Prints an outcome at the node of that link, and keeps what it sends.
    fn take_all(&mut self, from: LinkAddress, mut outcome: Outcome, row: &mut Row) {
        print_done(&outcome, row);
        let sends = std::mem::replace(&mut outcome.sends, Vec::new(row.alloc));
        drop(outcome);
        self.take(from, sends, row);
    }

    /// Prints the result of an event at the node of that link, and keeps what it sends.
    fn go_on(&mut self, from: LinkAddress, came: Option<Outcome>, row: &mut Row) {
        match came {
            Some(outcome) => self.take_all(from, outcome, row),
            None => row.fail(),
        }
    }

    /// What the clock of a node shows at a moment.
    fn now(&self, node: usize, moment: u64) -> u64 {
        match self.clocks.get(node) {
            Some(clock) => clock.at(moment),
            None => 0,
        }
    }

    /// Prints the result of an ask, and keeps what it sends.
    fn asked(&mut self, from: LinkAddress, came: Result<Asked, AskFault>, row: &mut Row) {
        match came {
            Ok(asked) => {
                print_ticket(asked.ticket, asked.invoke_id, row);
                self.take(from, asked.sends, row);
            }
            Err(fault) => print_refusal(fault.number(), row),
        }
    }

    /// What a node takes of APDUs.
    fn limits_at(&self, node: usize) -> Option<Limits> {
        match self.nodes.get(node) {
            Some(node) => Some(node.settings().limits),
            None => None,
        }
    }

    /// What a node answers that asks at a moment; None is a fault.
    fn begin(
        &mut self,
        now: u64,
        client: usize,
        words: &str,
        row: &mut Row,
    ) -> Option<Result<Asked, AskFault>> {
        let peer = peer_of(word(words, 0), row);
        let limits = self.limits_at(place_of_link(peer.link))?;
        let client = self.nodes.get_mut(client)?;
        let request = request_of(after(words, 1), row)?;
        let came = client.ask(now, &peer, &limits, &request);
        drop(request);
        Some(came)
    }

    fn asks(&mut self, moment: u64, words: &str, row: &mut Row) {
        let client = number(words, 0) as usize;
        let now = self.now(client, moment);
        match self.begin(now, client, after(words, 1), row) {
            Some(came) => self.asked(link_of(client), came, row),
            None => row.fail(),
        }
    }

    /// The link to which the datagram of that number was sent.
    fn link_to(&self, number: usize) -> LinkAddress {
        match self.sent.get(number) {
            Some(sent) => sent.datagram.to(),
            None => link_of(number),
        }
    }

    /// The datagram of that number comes to its node.
    fn delivers(&mut self, moment: u64, number: usize, row: &mut Row) {
        let to = self.link_to(number);
        let now = self.now(place_of_link(to), moment);
        let came = delivered(&mut self.nodes, now, self.sent.get(number));
        self.go_on(to, came, row);
    }

    /// Octets come to a node, from a link.
    fn hears(&mut self, moment: u64, words: &str, row: &mut Row) {
        let place = number(words, 0) as usize;
        let from = link(number8(words, 1));
        let octets = row.octets(words, 2);
        let now = self.now(place, moment);
        let came = match self.nodes.get_mut(place) {
            Some(node) => node.on(now, from, &octets).ok(),
            None => None,
        };
        self.go_on(link_of(place), came, row);
    }

    fn ticks(&mut self, moment: u64, place: usize, row: &mut Row) {
        let now = self.now(place, moment);
        let came = match self.nodes.get_mut(place) {
            Some(node) => node.tick(now).ok(),
            None => None,
        };
        self.go_on(link_of(place), came, row);
    }

    /// A node makes a change in its own store.
    fn makes(&mut self, place: usize, change: &Change, row: &mut Row) {
        match self.nodes.get_mut(place) {
            Some(node) => row.needs(node.change(change).is_ok()),
            None => row.fail(),
        }
    }

    /// A node changes its own store.
    fn changes(&mut self, words: &str, row: &mut Row) {
        match change_of("set", after(words, 1), row) {
            Some(change) => {
                self.makes(number(words, 0) as usize, &change, row);
                drop(change);
            }
            None => row.fail(),
        }
    }

    /// That node is at the link.
    fn put(&mut self, place: usize, anew: Node, row: &mut Row) {
        match self.nodes.get_mut(place) {
            Some(node) => drop(std::mem::replace(node, anew)),
            None => {
                drop(anew);
                row.fail();
            }
        }
    }

    /// Another node begins at the link.
    fn begins_anew(&mut self, place: usize, row: &mut Row) {
        match made(self.scene, place, row) {
            Some(anew) => self.put(place, anew, row),
            None => row.fail(),
        }
    }

    fn restarts(&mut self, moment: u64, place: usize, row: &mut Row) {
        let now = self.now(place, moment);
        match self.nodes.get_mut(place) {
            Some(node) => row.needs(node.restart(now, None).is_ok()),
            None => row.fail(),
        }
    }

    fn sets_clock(&mut self, moment: u64, words: &str, row: &mut Row) {
        let shown = Shown {
            moment,
            exact: number(words, 1),
            rate: number(words, 2),
        };
        match self.clocks.get_mut(number(words, 0) as usize) {
            Some(clock) => *clock = shown,
            None => row.fail(),
        }
    }

    /// Prints the octets of file 1 of a node.
    fn prints_file(&self, place: usize, row: &mut Row) {
        match self.nodes.get(place) {
            Some(node) => file(node.store(), READ_FILE, row),
            None => row.fail(),
        }
    }
}

const VERBS: &str = "ask deliver hear tick file set new restart clock";

impl Stage for Wire<'_> {
    fn meets(&mut self, line: &str, row: &mut Row) {
        let (moment, words) = (number(line, 0), after(line, 2));
        let place = number(words, 0) as usize;
        match place_of(VERBS, word(line, 1)) {
            0 => self.asks(moment, words, row),
            1 => self.delivers(moment, place, row),
            2 => self.hears(moment, words, row),
            3 => self.ticks(moment, place, row),
            4 => self.prints_file(place, row),
            5 => self.changes(words, row),
            6 => self.begins_anew(place, row),
            7 => self.restarts(moment, place, row),
            8 => self.sets_clock(moment, words, row),
            _ => row.fail(),
        }
    }

    fn is_sound(&self) -> bool {
        true
    }
}

/// Makes each node of a scene anew, with a clock that shows each moment.
fn make_all(wire: &mut Wire<'_>, row: &mut Row) {
    for (config, store) in nodes_of(wire.scene, 0, row) {
        match Node::new(row.alloc, config, store) {
            Ok(node) => keep(node, &mut wire.nodes, row),
            Err(_) => row.fail(),
        }
        keep(Shown::right(), &mut wire.clocks, row);
    }
}

/// Plays the lines of a row on the nodes of a scene, all new.
pub(crate) fn play_wire(scene: &str, lines: &str, row: &mut Row) {
    let mut wire = Wire {
        scene,
        nodes: Vec::new(row.alloc),
        clocks: Vec::new(row.alloc),
        sent: Vec::new(row.alloc),
    };
    make_all(&mut wire, row);
    play(&mut wire, scene, lines, row);
}
