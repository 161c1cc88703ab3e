//! One end, one ticket and one entry by itself, where a node can't say it: moments that go back, and when a tick finds something to do.
use super::*;
use bac_apdu::{Limits, Window, read};
use bac_npdu::Peer;
use bac_requester::{AskFault, Client, Ending, Requester};
use bac_responder::{Responder, ServerTransaction, Serving, idle_on_apdu};
use bac_service::OwnedRequest;
use bac_service_text::read_request_words;
use bac_slots::{IndexSlots, Same};
use bac_store::{Store, house};
use bac_transaction::{Context, PeerKey, Rules, Settings};

/// Takes APDUs of 1,476 octets and any number of segments, and the same of 50.
const LIMITS: Limits = Limits {
    max_apdu: 5,
    takes_segments: true,
    max_segments: 7,
};

const SMALL_APDUS: Limits = Limits {
    max_apdu: 0,
    takes_segments: true,
    max_segments: 7,
};

/// A read of the present-value of analog-input 5, with invoke ID 0.
const READ: &[u8] = b"\x00\x05\x00\x0C\x0C\x00\x00\x00\x05\x19\x55";

const SETTINGS: Settings = Settings {
    limits: LIMITS,
    window: Window { size: 32 },
};

fn peer(number: u8) -> Peer {
    Peer {
        link: link(number),
        route: None,
    }
}

/// A moment, a client that reads, and whether the read is performed.
struct Read(u64, u8, bool);

/// Two slots. Where the clock went back, an entry makes room that stands after one that began later; the last read is answered from its entry.
const READS: &[Read] = &[
    Read(70_000, 2, true),
    Read(4_000, 3, true),
    Read(69_000, 4, false),
    Read(69_001, 4, true),
    Read(70_000, 2, false),
];

/// A server's end, and its store.
#[derive(Drop)]
struct Server {
    end: Responder<IndexSlots<PeerKey, ServerTransaction>>,
    store: Store,
}

impl Server {
    /// Two slots, and the house store.
    fn new(alloc: Global) -> Result<Server, NoMemory> {
        let end = Responder::new(alloc, 2, None)?;
        let store = house(alloc)?;
        Ok(Server { end, store })
    }

    /// Whether a read is performed as its row says, and one datagram answers it.
    fn performs(&mut self, alloc: Global, row: &Read) -> bool {
        let Ok(apdu) = read(READ) else {
            return false;
        };
        let (from, store) = (peer(row.1), &mut self.store);
        let serving = Serving {
            settings: SETTINGS,
            rules: Rules::strict(),
        };
        match self.end.on(alloc, &serving, row.0, &from, &apdu, store) {
            Ok(Some(served)) => served.act.is_some() == row.2 && served.sends.len() == 1,
            Ok(None) | Err(_) => false,
        }
    }
}

#[test]
fn entries_out_of_order(rt: HostRuntime) -> Result<(), Fail> {
    let mut server = Server::new(rt.alloc())?;
    for row in READS {
        holds(server.performs(rt.alloc(), row), "a read")?;
    }
    Ok(())
}

/// A moment, a peer that is asked, and the ticket and its invoke ID, or the fault.
struct Asking(u64, u8, Result<(u64, u8), AskFault>);

/// Two slots. Where the clock went back, a slot makes room that stands after one whose request was first sent later; its ticket was rejected at 3,000.
const BEFORE: &[Asking] = &[Asking(100_000, 3, Ok((0, 0))), Asking(1_000, 2, Ok((1, 0)))];

const AFTER: &[Asking] = &[
    Asking(136_000, 2, Err(AskFault::NoSlot)),
    Asking(136_001, 2, Ok((2, 0))),
];

type Indexed = Requester<IndexSlots<PeerKey, Client>>;

/// Whether an ask is accepted or refused as its row says.
fn is_accepted(end: &mut Indexed, request: &OwnedRequest, row: &Asking) -> bool {
    let to = peer(row.1);
    match end.ask(&SETTINGS, row.0, &to, &SMALL_APDUS, request) {
        Ok(asked) => row.2 == Ok((asked.ticket, asked.invoke_id)),
        Err(fault) => row.2 == Err(fault),
    }
}

/// Whether that is so of each ask for the present-value of analog-input 5.
fn are_accepted(alloc: Global, end: &mut Indexed, rows: &[Asking]) -> bool {
    let words: [&[u8]; 3] = [b"read", b"0:5", b"85"];
    let Ok(request) = read_request_words(alloc, &words) else {
        return false;
    };
    for row in rows {
        if !is_accepted(end, &request, row) {
            return false;
        }
    }
    true
}

/// Whether a Reject of peer 2 at 3,000 ends a ticket.
fn is_rejected(end: &mut Indexed) -> bool {
    let Ok(apdu) = read(b"\x60\x00\x09") else {
        return false;
    };
    match end.on(&SETTINGS, 3_000, &peer(2), &apdu) {
        Ok(heard) => !heard.ended.is_empty(),
        Err(_) => false,
    }
}

fn makes_room(alloc: Global, end: &mut Indexed) -> bool {
    are_accepted(alloc, end, BEFORE) && is_rejected(end) && are_accepted(alloc, end, AFTER)
}

#[test]
fn slots_out_of_order(rt: HostRuntime) -> Result<(), Fail> {
    let mut end: Indexed = Requester::new(rt.alloc(), 2, None)?;
    holds(makes_room(rt.alloc(), &mut end), "asks of two slots")
}

/// Invoke ID 0 of peer 2.
fn context(moment: u64) -> Context {
    let key = PeerKey {
        peer: peer(2),
        invoke_id: 0,
    };
    Context {
        settings: SETTINGS,
        key,
        moment,
    }
}

/// The entry that a read begins.
fn begun(alloc: Global, moment: u64) -> Option<ServerTransaction> {
    let Ok(apdu) = read(READ) else {
        return None;
    };
    let Ok(mut store) = house(alloc) else {
        return None;
    };
    match idle_on_apdu(alloc, &context(moment), true, &apdu, &mut store) {
        Ok((_, begun)) => begun,
        Err(_) => None,
    }
}

/// Whether an entry began at moment 5, is live for 65,000 ms, has no timer, and is as itself and not as another.
fn is_entry(entry: &ServerTransaction, other: &ServerTransaction) -> bool {
    let is_timed = entry.begin() == 5 && entry.is_live(65_005) && !entry.is_live(65_006);
    is_timed && entry.due(5) == u64::MAX && entry.same(entry) && !entry.same(other)
}

/// Whether that is so of the entry of a read at moment 5, and another one at 6.
fn is_apart(alloc: Global, entry: &ServerTransaction) -> bool {
    match begun(alloc, 6) {
        Some(other) => is_entry(entry, &other),
        None => false,
    }
}

#[test]
fn an_entry(rt: HostRuntime) {
    let is_entry = match begun(rt.alloc(), 5) {
        Some(entry) => is_apart(rt.alloc(), &entry),
        None => false,
    };
    assert!(rt; is_entry);
}

/// Whether the transaction of an ask at moment 1,000 is the next to expire, at 61,001.
fn expires(end: &Indexed) -> bool {
    match end.prepare_tick(&SETTINGS, 61_001) {
        Ok(reaction) => match reaction.ended.first() {
            Some(ended) => ended.ticket == 0 && matches!(ended.ending, Ending::Expired),
            None => false,
        },
        Err(_) => false,
    }
}

/// Whether a request from peer 2 at moment 2,000 does nothing.
fn ignores(end: &mut Indexed) -> bool {
    let Ok(apdu) = read(READ) else {
        return false;
    };
    match end.on(&SETTINGS, 2_000, &peer(2), &apdu) {
        Ok(reaction) => reaction.sends.is_empty() && reaction.ended.is_empty(),
        Err(_) => false,
    }
}

/// Whether the transaction of an ask at moment 1,000 takes a request for none of its answers, has its timer set, and expires after 60,000 ms.
fn waits_for_an_answer(alloc: Global, end: &mut Indexed) -> bool {
    let is_asked = are_accepted(alloc, end, &[Asking(1_000, 2, Ok((0, 0)))]);
    is_asked && ignores(end) && end.next_due() == 4_000 && expires(end)
}

#[test]
fn a_request_is_no_answer(rt: HostRuntime) -> Result<(), Fail> {
    let mut end = Indexed::new(rt.alloc(), 2, None)?;
    holds(waits_for_an_answer(rt.alloc(), &mut end), "a request")
}
