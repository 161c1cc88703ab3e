//! Worlds whose events are made up from a number, and what passes on their wire. No node restarts: a server that did would answer a copy of a request that it
//! had answered with an Abort.
use crate::worlds::chance::Chance;
use bac_apdu::Limits;
use bac_network::{Event, World, WorldFault};
use bac_node::Config;
use bac_npdu::LinkAddress;
use bac_rows::row::Row;
use bac_service::OwnedRequest;
use bac_service_text::read_request_words;
use bac_store::{Store, house};

/// How many nodes there are.
const NODES: usize = 3;

/// How many events a world has.
const EVENTS: usize = 400;

/// How long a copy is on its way at most, in milliseconds.
const LIFE: u64 = 5_000;

/// The link of a node.
pub(crate) fn link_of(node: usize) -> LinkAddress {
    [10, 0, 0, (node % 256) as u8, 0xBA, 0xC0]
}

/// When an ask was made, and how many copies there were before it.
#[derive(Clone, Copy)]
pub(crate) struct Asked {
    pub(crate) moment: u64,
    pub(crate) copies: usize,
}

/// A copy that passes on the wire.
#[derive(Clone, Copy)]
pub(crate) struct Sight {
    pub(crate) moment: u64,
    pub(crate) copy: usize,
}

/// A world, its asks, and what passed: each copy when it was sent, and again each time that it was delivered.
#[derive(Drop)]
pub(crate) struct Run {
    pub(crate) world: World,
    pub(crate) asked: Vec<Asked>,
    pub(crate) passed: Vec<Sight>,
}

/// What nodes take: APDUs of 50 octets, and any number of segments.
const LIMITS: Limits = Limits {
    max_apdu: 0,
    takes_segments: true,
    max_segments: 7,
};

fn config_of(node: usize) -> Config {
    Config {
        link: link_of(node),
        limits: LIMITS,
        window: 4,
        client_slots: 64,
        reply_slots: 64,
    }
}

fn nodes(row: &mut Row) -> Vec<(Config, Store)> {
    let mut nodes = Vec::new(row.alloc);
    for node in 0..NODES {
        match house(row.alloc) {
            Ok(store) => {
                let is_added = nodes.push((config_of(node), store)).is_ok();
                row.needs(is_added);
            }
            Err(_) => row.fail(),
        }
    }
    nodes
}

fn request_of(text: &str, row: &mut Row) -> Option<OwnedRequest> {
    let mut words = Vec::new(row.alloc);
    for word in text.split(' ') {
        row.needs(words.push(word.as_bytes()).is_ok());
    }
    let request = read_request_words(row.alloc, &words).ok();
    row.needs(request.is_some());
    request
}

/// A node asks the one after it.
fn question(requests: &[&str], chance: &mut Chance, row: &mut Row) -> Option<Event> {
    let client = chance.below(NODES);
    let text = requests.get(chance.below(requests.len())).unwrap_or(&"");
    match request_of(text, row) {
        Some(request) => Some(Event::Ask {
            client,
            server: client.saturating_add(1).checked_rem(NODES).unwrap_or(0),
            limits: LIMITS,
            request,
        }),
        None => None,
    }
}

/// One of the last copies is delivered.
fn delivery(world: &World, chance: &mut Chance) -> Event {
    let back = chance.below(6).saturating_add(1);
    Event::Deliver {
        number: world.copies().len().saturating_sub(back),
    }
}

/// How much time passes: mostly little, seldom as long as an end waits.
fn pause(chance: &mut Chance) -> u64 {
    let most = match chance.below(8) {
        0..=3 => 10,
        4..=6 => 3_100,
        _ => 9_000,
    };
    chance.below(most) as u64
}

impl Run {
    /// Notes a copy that is delivered, where it is not too old.
    fn comes(&mut self, number: usize, row: &mut Row) {
        let moment = self.world.now();
        if let Some(copy) = self.world.copies().get(number) {
            if moment.saturating_sub(copy.moment) <= LIFE {
                let sight = Sight {
                    moment,
                    copy: number,
                };
                row.needs(self.passed.push(sight).is_ok());
            }
        }
    }

    /// An ask was made where there is one more than before; the copies from that one on were sent.
    fn note(&mut self, asks: usize, copies: usize, row: &mut Row) {
        let moment = self.world.now();
        if self.world.asks().len() > asks {
            let is_noted = self.asked.push(Asked { moment, copies }).is_ok();
            row.needs(is_noted);
        }
        for copy in copies..self.world.copies().len() {
            let is_noted = self.passed.push(Sight { moment, copy }).is_ok();
            row.needs(is_noted);
        }
    }

    fn step(&mut self, event: &Event, row: &mut Row) {
        let asks = self.world.asks().len();
        let copies = self.world.copies().len();
        let is_step = matches!(
            self.world.step(event),
            Ok(_) | Err(WorldFault::NoSuchDatagram)
        );
        row.needs(is_step);
        if let Event::Deliver { number } = event {
            self.comes(*number, row);
        }
        self.note(asks, copies, row);
    }

    /// Some time passes, and each node does what is due.
    fn rests(&mut self, chance: &mut Chance, row: &mut Row) {
        self.step(&Event::Advance { by: pause(chance) }, row);
        for node in 0..NODES {
            self.step(&Event::Tick { node }, row);
        }
    }

    /// A node asks.
    fn asks(&mut self, requests: &[&str], chance: &mut Chance, row: &mut Row) {
        if let Some(event) = question(requests, chance, row) {
            self.step(&event, row);
        }
    }

    /// What happens next.
    fn goes_on(&mut self, requests: &[&str], chance: &mut Chance, row: &mut Row) {
        match chance.below(20) {
            0 | 1 => self.asks(requests, chance, row),
            2..=4 => self.rests(chance, row),
            _ => {
                let event = delivery(&self.world, chance);
                self.step(&event, row);
            }
        }
    }

    /// The events that are made up from a number.
    fn runs(&mut self, requests: &[&str], seed: u64, row: &mut Row) {
        let mut chance = Chance::of(seed);
        for _ in 0..EVENTS {
            self.goes_on(requests, &mut chance, row);
        }
    }

    /// The world that is made up from a number, in which nodes ask some of these requests; None where no world can be made.
    pub(crate) fn of(requests: &[&str], seed: u64, row: &mut Row) -> Option<Run> {
        match World::new(row.alloc, nodes(row), 128) {
            Ok(world) => {
                let mut run = Run {
                    world,
                    asked: Vec::new(row.alloc),
                    passed: Vec::new(row.alloc),
                };
                run.runs(requests, seed, row);
                Some(run)
            }
            Err(_) => {
                row.fail();
                None
            }
        }
    }
}
