//! A client and a server on one medium.
use crate::medium::{End, Medium};
use crate::memory_link::{MemoryClock, MemoryLink};
use crate::words::request_of;
use bac_apdu::Limits;
use bac_driver::{BoundNode, Link, Question};
use bac_node::{Config, MEMORY, Node};
use bac_npdu::{LinkAddress, Peer};
use bac_rows::row::Row;
use bac_store::house;
use bac_transaction::Rules;
use std::alloc::Global;
use std::cell::RefCell;

/// What the nodes take of APDUs.
pub(crate) const LIMITS: Limits = Limits {
    max_apdu: 5,
    takes_segments: true,
    max_segments: 7,
};

/// What the nodes are set to, on that link.
pub(crate) fn config(link: LinkAddress) -> Config {
    Config {
        link,
        limits: LIMITS,
        window: 32,
        client_slots: 64,
        reply_slots: 64,
    }
}

/// A node of that link with the house store.
pub(crate) fn house_node(alloc: Global, link: LinkAddress) -> Option<Node> {
    match house(alloc) {
        Ok(store) => Node::new(alloc, config(link), store).ok(),
        Err(_) => None,
    }
}

/// A node on a link in memory.
pub(crate) type MemoryNode<'a> = BoundNode<MemoryLink<'a>>;

/// A node with the house store on a link, by the strict rules.
pub(crate) fn node_on<L: Link + Drop>(
    alloc: Global,
    at: LinkAddress,
    link: L,
) -> Option<BoundNode<L>> {
    match house_node(alloc, at) {
        Some(node) => BoundNode::new(alloc, node, link, Rules::strict().within(MEMORY)).ok(),
        None => None,
    }
}

/// A node with the house store at an end of a medium.
fn memory_node(alloc: Global, medium: &RefCell<Medium>, end: End) -> Option<MemoryNode<'_>> {
    node_on(alloc, end.link(), MemoryLink::new(medium, end))
}

/// A client and a server on one medium.
#[derive(Drop)]
pub(crate) struct Side<'a> {
    pub(crate) medium: &'a RefCell<Medium>,
    pub(crate) client: MemoryNode<'a>,
    pub(crate) server: MemoryNode<'a>,
}

impl<'a> Side<'a> {
    /// A side with that client, whose server is new.
    fn with_server(
        alloc: Global,
        medium: &'a RefCell<Medium>,
        client: MemoryNode<'a>,
    ) -> Option<Side<'a>> {
        match memory_node(alloc, medium, End::Server) {
            Some(server) => Some(Side {
                medium,
                client,
                server,
            }),
            None => {
                drop(client);
                None
            }
        }
    }

    /// A side whose nodes are new, on links of a medium.
    pub(crate) fn new(alloc: Global, medium: &'a RefCell<Medium>) -> Option<Side<'a>> {
        match memory_node(alloc, medium, End::Client) {
            Some(client) => Side::with_server(alloc, medium, client),
            None => None,
        }
    }

    /// The node of an end, on its link.
    pub(crate) fn at(&mut self, end: End) -> &mut MemoryNode<'a> {
        match end {
            End::Client => &mut self.client,
            End::Server => &mut self.server,
        }
    }

    /// The moment of its medium.
    pub(crate) fn moment(&self) -> u64 {
        match self.medium.try_borrow() {
            Ok(medium) => medium.moment,
            Err(_) => 0,
        }
    }

    /// A clock of its medium.
    pub(crate) fn clock(&self) -> MemoryClock<'a> {
        MemoryClock::new(self.medium)
    }
}

/// A question for the server, in the words of a line; None is a fault.
pub(crate) fn question(words: &str, row: &mut Row) -> Option<Question> {
    match request_of(words, row) {
        Some(request) => Some(Question {
            peer: Peer {
                link: End::Server.link(),
                route: None,
            },
            limits: LIMITS,
            request,
        }),
        None => None,
    }
}
