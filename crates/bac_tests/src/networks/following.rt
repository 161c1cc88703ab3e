//! Logs that are followed as they grow, on stores of the test's own.
use super::*;
use bac_network::{Fact, World};
use bac_requester::Ending;
use bac_service::{OwnedReply, OwnedRequest, same_reply, same_request};
use bac_store::{Change, Store};

/// What a log says of an ask.
#[derive(Clone, Copy)]
struct Deed {
    client: usize,
    /// None for a stranger.
    server: Option<usize>,
    /// How often its client had restarted.
    life: usize,
    /// Where in the log it was asked, and where performed.
    asked: usize,
    performed: Option<usize>,
    has_ended: bool,
}

/// How often something happened in logs.
#[derive(Clone, Copy)]
pub(super) struct Counts {
    /// Restarts, and other programs that began.
    pub(super) restarts: usize,
    /// The other programs alone; no log tells them from restarts.
    pub(super) begun_again: usize,
    pub(super) changes: usize,
    /// Changes that were refused, of which no log tells.
    pub(super) refused: usize,
    pub(super) performed: usize,
    pub(super) answered: usize,
    /// Performed by a server that had restarted, and asked by a client that had.
    pub(super) performed_anew: usize,
    pub(super) asked_anew: usize,
    /// Performed for strangers, and asks of strangers that they answered.
    pub(super) served: usize,
    pub(super) answered_away: usize,
}

impl Counts {
    /// Nothing happened.
    pub(super) fn none() -> Counts {
        Counts {
            restarts: 0,
            begun_again: 0,
            changes: 0,
            refused: 0,
            performed: 0,
            answered: 0,
            performed_anew: 0,
            asked_anew: 0,
            served: 0,
            answered_away: 0,
        }
    }

    /// Those of two logs.
    pub(super) fn plus(self, other: Counts) -> Counts {
        Counts {
            restarts: self.restarts.saturating_add(other.restarts),
            begun_again: self.begun_again.saturating_add(other.begun_again),
            changes: self.changes.saturating_add(other.changes),
            refused: self.refused.saturating_add(other.refused),
            performed: self.performed.saturating_add(other.performed),
            answered: self.answered.saturating_add(other.answered),
            performed_anew: self.performed_anew.saturating_add(other.performed_anew),
            asked_anew: self.asked_anew.saturating_add(other.asked_anew),
            served: self.served.saturating_add(other.served),
            answered_away: self.answered_away.saturating_add(other.answered_away),
        }
    }
}

/// One more of them, if that is so.
fn count(number: &mut usize, is_one: bool) {
    *number = number.saturating_add(usize::from(is_one));
}

/// What was asked at that place of a log.
fn asked_at(log: &[Fact], place: usize) -> Option<&OwnedRequest> {
    match log.get(place) {
        Some(Fact::Asked { request, .. }) => Some(request),
        _ => None,
    }
}

/// What was performed there, and the reply.
fn performed_at(log: &[Fact], place: usize) -> Option<(&OwnedRequest, &OwnedReply)> {
    match log.get(place) {
        Some(Fact::Performed { request, reply, .. }) => Some((request, reply)),
        Some(Fact::Served { request, reply, .. }) => Some((request, reply)),
        _ => None,
    }
}

fn put_copy(alloc: Global, store: &Store, stores: &mut Vec<Store>) -> bool {
    match store.copy(alloc) {
        Ok(copy) => stores.push(copy).is_ok(),
        Err(_) => false,
    }
}

fn put_copies(alloc: Global, from: &[Store], stores: &mut Vec<Store>) -> bool {
    for store in from {
        if !put_copy(alloc, store, stores) {
            return false;
        }
    }
    true
}

/// Makes a store a copy of another one.
fn replace(alloc: Global, store: &mut Store, with: &Store) -> bool {
    match with.copy(alloc) {
        Ok(copy) => {
            *store = copy;
            true
        }
        Err(_) => false,
    }
}

/// Whether a store performs a request with that reply.
fn performs(alloc: Global, store: &mut Store, request: &OwnedRequest, reply: &OwnedReply) -> bool {
    match store.perform(alloc, &request.as_request()) {
        Ok(given) => same_reply(reply, &given),
        Err(_) => false,
    }
}

/// Whether those are the stores of the world's first nodes.
fn are_in(world: &World, stores: &[Store]) -> bool {
    for (node, store) in stores.iter().enumerate() {
        match world.store(node) {
            Some(there) if there.same(store) => (),
            _ => return false,
        }
    }
    true
}

/// Whether what was performed there is what was asked there.
fn is_asked(log: &[Fact], performed: usize, asked: usize) -> bool {
    match (performed_at(log, performed), asked_at(log, asked)) {
        (Some((performed, _)), Some(asked)) => same_request(performed, asked),
        _ => false,
    }
}

fn is_answered(how: &Ending) -> bool {
    matches!(how, Ending::Answered(_))
}

/// Whether an ask may end so whose request was performed there: an answer is the reply of that.
fn is_ended(log: &[Fact], performed: Option<usize>, how: &Ending) -> bool {
    match (how, performed) {
        (Ending::Answered(answer), Some(place)) => is_replied(log, place, answer),
        (Ending::Answered(_), None) => false,
        _ => true,
    }
}

/// Whether that is the reply with which a request was performed there.
fn is_replied(log: &[Fact], performed: usize, answer: &OwnedReply) -> bool {
    match performed_at(log, performed) {
        Some((_, reply)) => same_reply(answer, reply),
        None => false,
    }
}

/// What a log says so far: the stores that it leads to, how often each node has restarted, and what became of each ask.
#[derive(Drop)]
pub(super) struct Followed {
    seen: usize,
    stores: Vec<Store>,
    lives: Vec<usize>,
    deeds: Vec<Deed>,
    counts: Counts,
}

impl Followed {
    /// Nothing.
    pub(super) fn new(alloc: Global) -> Followed {
        Followed {
            seen: 0,
            stores: Vec::new(alloc),
            lives: Vec::new(alloc),
            deeds: Vec::new(alloc),
            counts: Counts::none(),
        }
    }

    /// The stores that a world began with.
    pub(super) fn opens(&mut self, alloc: Global, world: &World) -> bool {
        let nodes = world.opening().len();
        put_copies(alloc, world.opening(), &mut self.stores)
            && self.lives.resize(nodes, 0usize).is_ok()
    }

    /// What has happened so far.
    pub(super) fn counts(&self) -> Counts {
        self.counts
    }

    /// Whether each fact that is new in the world's log may stand there, and the stores are then those of the world.
    pub(super) fn follows(&mut self, alloc: Global, world: &World) -> bool {
        let log = world.log();
        for place in self.seen..log.len() {
            if !self.notes(alloc, log, place) {
                return false;
            }
        }
        self.seen = log.len();
        are_in(world, &self.stores)
    }

    fn notes(&mut self, alloc: Global, log: &[Fact], place: usize) -> bool {
        match log.get(place) {
            Some(
                Fact::Asked {
                    number,
                    client,
                    server,
                    ..
                },
            ) => self.asks(place, *number, *client, Some(*server)),
            Some(Fact::AskedAway { number, client, .. }) => self.asks(
                place, *number, *client, None,
            ),
            Some(Fact::Performed { number, .. }) => self.performs(alloc, log, place, *number),
            Some(Fact::Ended { number, how }) => self.ends(log, *number, how),
            Some(Fact::Changed { node, change }) => self.changes(alloc, *node, change),
            Some(Fact::Restarted { node, store }) => self.restarts(alloc, *node, store),
            Some(Fact::Served { node, .. }) => self.serves(alloc, log, place, *node),
            Some(Fact::EndedAway { number, how }) => self.ends_away(*number, how),
            None => false,
        }
    }

    fn life(&self, node: usize) -> usize {
        self.lives.get(node).copied().unwrap_or(0)
    }

    /// An ask has the next number.
    fn asks(&mut self, place: usize, number: usize, client: usize, server: Option<usize>) -> bool {
        let life = self.life(client);
        let deed = Deed {
            client,
            server,
            life,
            asked: place,
            performed: None,
            has_ended: false,
        };
        count(&mut self.counts.asked_anew, life > 0);
        number == self.deeds.len() && self.deeds.push(deed).is_ok()
    }

    /// An ask of a node is performed for the first time: what was asked, and with the reply of its server's store.
    fn performs(&mut self, alloc: Global, log: &[Fact], place: usize, number: usize) -> bool {
        let Some(deed) = self.opened(place, number) else {
            return false;
        };
        let Some(server) = deed.server else {
            return false;
        };
        let is_anew = self.life(server) > 0;
        count(&mut self.counts.performed, true);
        count(&mut self.counts.performed_anew, is_anew);
        is_asked(log, place, deed.asked) && self.replies(alloc, log, place, server)
    }

    /// What a request is of that is performed there, for the first time.
    fn opened(&mut self, place: usize, number: usize) -> Option<Deed> {
        let deed = self.deeds.get_mut(number)?;
        if deed.performed.is_some() {
            return None;
        }
        deed.performed = Some(place);
        Some(*deed)
    }

    /// What was performed there was so with the reply of a node's store.
    fn replies(&mut self, alloc: Global, log: &[Fact], place: usize, node: usize) -> bool {
        match (self.stores.get_mut(node), performed_at(log, place)) {
            (Some(store), Some((request, reply))) => performs(alloc, store, request, reply),
            _ => false,
        }
    }

    /// A request of a stranger is performed: with the reply of the node's store.
    fn serves(&mut self, alloc: Global, log: &[Fact], place: usize, node: usize) -> bool {
        count(&mut self.counts.served, true);
        self.replies(alloc, log, place, node)
    }

    /// What ends for the first time.
    fn closed(&mut self, number: usize) -> Option<Deed> {
        let deed = self.deeds.get_mut(number)?;
        if deed.has_ended {
            return None;
        }
        deed.has_ended = true;
        Some(*deed)
    }

    /// Closes an ask as `closed` does; None where its client has begun another life since it asked.
    fn closed_in_life(&mut self, number: usize) -> Option<Deed> {
        let deed = self.closed(number)?;
        if deed.life == self.life(deed.client) {
            Some(deed)
        } else {
            None
        }
    }

    /// An ask of a stranger ends.
    fn ends_away(&mut self, number: usize, how: &Ending) -> bool {
        count(&mut self.counts.answered_away, is_answered(how));
        match self.closed_in_life(number) {
            Some(deed) => deed.server.is_none(),
            None => false,
        }
    }

    /// An ask of a node ends; where it is answered, with the reply with which it was performed.
    fn ends(&mut self, log: &[Fact], number: usize, how: &Ending) -> bool {
        count(&mut self.counts.answered, is_answered(how));
        match self.closed_in_life(number) {
            Some(deed) => deed.server.is_some() && is_ended(log, deed.performed, how),
            None => false,
        }
    }

    fn changes(&mut self, alloc: Global, node: usize, change: &Change) -> bool {
        count(&mut self.counts.changes, true);
        match self.stores.get_mut(node) {
            Some(store) => store.change(alloc, change).is_ok(),
            None => false,
        }
    }

    /// The store of a node is another one from then on.
    fn begins_with(&mut self, alloc: Global, node: usize, with: &Store) -> bool {
        match self.stores.get_mut(node) {
            Some(store) => replace(alloc, store, with),
            None => false,
        }
    }

    /// A node restarts, with the store that it has or another one.
    fn restarts(&mut self, alloc: Global, node: usize, with: &Option<Store>) -> bool {
        count(&mut self.counts.restarts, true);
        if let Some(life) = self.lives.get_mut(node) {
            count(life, true);
        }
        match with {
            Some(with) => self.begins_with(alloc, node, with),
            None => true,
        }
    }
}
