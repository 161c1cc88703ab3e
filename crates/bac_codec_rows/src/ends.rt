//! Lines of what an end sends and compares.
//!
//! `datagram PEER HEX` prints the datagram of an APDU, `abort REASON` that of an Abort, and `ack SIDE NUMBER TAKEN STEP` what answers a segment.
//! `size CODE` and `segments CODE COUNT` print what fits. `keys PEER ID, PEER ID` and `settings WINDOW WINDOW` print how two compare, and `id HEX` the
//! invoke ID of an APDU.
use crate::frames::peer_of;
use crate::words::print_octets;
use bac_apdu::{Apdu, Limits, Window, apdu_len, read};
use bac_npdu::{LinkAddress, Peer};
use bac_rows::row::{Row, number, number8, place_of, word};
use bac_segment::Step;
use bac_slots::Same;
use bac_transaction::{
    Context, Datagram, PeerKey, Settings, allows_segments, apdu_size, datagram_of, invoke_id_of,
    only_abort, only_apdu, step_acks, transfer_size,
};
use bac_value::NoMemory;

/// The link of the peer.
const LINK: LinkAddress = [10, 0, 0, 2, 0xBA, 0xC0];

/// What the end takes: APDUs of 1,476 octets, and no segments.
const LIMITS: Limits = Limits {
    max_apdu: 5,
    takes_segments: false,
    max_segments: 0,
};

const WINDOW: Window = Window { size: 4 };

/// What an end is told: a peer without a route, invoke ID 7, and moment 0.
fn context() -> Context {
    Context {
        settings: Settings {
            limits: LIMITS,
            window: WINDOW,
        },
        key: PeerKey {
            peer: Peer {
                link: LINK,
                route: None,
            },
            invoke_id: 7,
        },
        moment: 0,
    }
}

/// Prints to which link a datagram goes, and its octets.
fn print_datagram(datagram: &Datagram, row: &mut Row) {
    row.say("to ");
    row.say_octets(&datagram.to());
    row.put(b' ');
    print_octets(datagram.octets(), row);
}

fn print_sends(sends: Result<Vec<Datagram>, NoMemory>, row: &mut Row) {
    match sends {
        Ok(sends) => {
            row.tell("sends #\n", sends.len() as u64);
            for datagram in sends.iter() {
                print_datagram(datagram, row);
            }
        }
        Err(_) => row.fail(),
    }
}

fn print_made(datagram: Result<Datagram, NoMemory>, row: &mut Row) {
    match datagram {
        Ok(datagram) => {
            print_datagram(&datagram, row);
            print_octets(&datagram.into_octets(), row);
        }
        Err(_) => row.fail(),
    }
}

fn datagram(words: &str, row: &mut Row) {
    let peer = peer_of(LINK, word(words, 0), row);
    let octets = row.octets(words, 1);
    match read(&octets) {
        // no APDU is longer (clause 20.1.2.5)
        Ok(apdu) if apdu_len(&apdu) <= 1_476 => {
            print_made(datagram_of(row.alloc, &peer, &apdu), row);
        }
        _ => row.fail(),
    }
}

#[tactic(auto, using(bac_transaction::proofs::Short::short_abort))]
fn abort(reason: u8, row: &mut Row) {
    let context = context();
    print_sends(only_abort(row.alloc, &context, false, reason), row);
    let apdu = Apdu::Abort {
        server: false,
        invoke_id: 7,
        reason,
    };
    print_sends(only_apdu(row.alloc, &context, &apdu), row);
}

/// What came of a segment.
fn step_of(word: &str) -> Step {
    match place_of("nak whole taken", word) {
        0 => Step::Nak,
        1 => Step::Whole,
        2 => Step::Taken { ack: false },
        _ => Step::Taken { ack: true },
    }
}

fn ack(words: &str, row: &mut Row) {
    let is_server = word(words, 0) == "server";
    let segment = number8(words, 1);
    let taken = number(words, 2) as usize;
    let step = step_of(word(words, 3));
    let sends = step_acks(
        row.alloc,
        &context(),
        is_server,
        segment,
        WINDOW,
        taken,
        step,
    );
    print_sends(sends, row);
}

fn size(code: u8, row: &mut Row) {
    match Limits::new(code, true, 0) {
        Some(limits) => {
            row.tell("#", apdu_size(code) as u64);
            row.tell(" #", transfer_size(&limits, &LIMITS) as u64);
            row.tell(" #\n", transfer_size(&LIMITS, &limits) as u64);
        }
        None => row.fail(),
    }
}

fn key_of(words: &str, row: &Row) -> PeerKey {
    PeerKey {
        peer: peer_of(LINK, word(words, 0), row),
        invoke_id: number8(words, 1),
    }
}

fn compare(one: &PeerKey, other: &PeerKey, row: &mut Row) {
    row.say("less ");
    row.say_truth(one < other);
    row.say(" equal ");
    row.say_truth(one == other);
    row.say(" greater ");
    row.say_truth(one > other);
    row.tell_truth(" same ", one.same(other));
}

fn keys(words: &str, row: &mut Row) {
    let (one, other) = words.split_once(", ").unwrap_or((words, ""));
    compare(&key_of(one, row), &key_of(other, row), row);
}

fn settings_of(size: u8) -> Settings {
    Settings {
        limits: LIMITS,
        window: Window::new(size).unwrap_or(WINDOW),
    }
}

fn id(words: &str, row: &mut Row) {
    let octets = row.octets(words, 0);
    match read(&octets) {
        Ok(apdu) => row.tell("#\n", u64::from(invoke_id_of(&apdu))),
        Err(_) => row.fail(),
    }
}

const VERBS: &str = "datagram abort ack size segments keys settings id";

/// Shows what a line says.
pub(crate) fn show(verb: &str, words: &str, row: &mut Row) {
    let (one, other) = (number8(words, 0), number(words, 1));
    match place_of(VERBS, verb) {
        0 => datagram(words, row),
        1 => abort(one, row),
        2 => ack(words, row),
        3 => size(one, row),
        4 => row.tell_truth("", allows_segments(one, other as usize)),
        5 => keys(words, row),
        6 => row.tell_truth("equal ", settings_of(one) == settings_of(number8(words, 1))),
        7 => id(words, row),
        _ => row.fail(),
    }
}
