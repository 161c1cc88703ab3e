//! Prints the result of an event at a node: what was dropped, performed and sent, and how tickets ended.
use crate::printing::{print_answer, print_one_ended, say_request};
use crate::scene::link;
use bac_node::Outcome;
use bac_requester::Ending;
use bac_responder::{Act, Effect};
use bac_rows::row::Row;
use bac_service::OwnedRequest;
use bac_transaction::{Datagram, PeerKey};

/// The control octet of the plain frame of an APDU: it expects a reply exactly where that is a Confirmed-Request.
fn control_of(apdu: &[u8]) -> u8 {
    match apdu.first() {
        Some(first) if *first < 0x10 => 4,
        _ => 0,
    }
}

/// An APDU in a plain frame.
pub(crate) fn framed(apdu: &[u8], row: &mut Row) -> Vec<u8> {
    let [high, low] = ((apdu.len().saturating_add(6) % 65_536) as u16).to_be_bytes();
    let mut frame = Row::new(row.alloc);
    frame.put_all(&[0x81, 0x0A, high, low, 1, control_of(apdu)]);
    frame.put_all(apdu);
    row.needs(!frame.has_failed);
    frame.told
}

/// Whether octets are the plain frame of an APDU.
fn is_plain(octets: &[u8], row: &mut Row) -> bool {
    let frame = framed(octets.get(6..).unwrap_or(&[]), row);
    frame.as_slice() == octets
}

/// Prints a datagram that is sent: the number of the link and the APDU, or the link and all octets where the frame or the link is not a plain one.
fn print_sent(datagram: &Datagram, row: &mut Row) {
    let (octets, to) = (datagram.octets(), datagram.to());
    row.say("sent ");
    if to == link(to[3]) && is_plain(octets, row) {
        row.tell("# ", u64::from(to[3]));
        row.say_octets(octets.get(6..).unwrap_or(&[]));
    } else {
        row.say_octets(&to);
        row.put(b' ');
        row.say_octets(octets);
    }
    row.put(b'\n');
}

/// Prints what is sent.
pub(crate) fn print_sends(sends: &[Datagram], row: &mut Row) {
    for datagram in sends {
        print_sent(datagram, row);
    }
}

/// Prints a request of a client that was performed: the client and the invoke ID, the request's word and its service data.
fn print_asked(key: &PeerKey, request: &OwnedRequest, row: &mut Row) {
    row.tell_two(
        "performed #:# ",
        u64::from(key.peer.link[3]),
        u64::from(key.invoke_id),
    );
    row.say(request.as_request().service().verb());
    row.put(b' ');
    say_request(request, row);
    row.put(b' ');
}

/// Prints a request that was performed, and its reply.
fn print_performed(act: Act, row: &mut Row) {
    print_asked(&act.key, &act.effect.request, row);
    let Effect { request, reply } = act.effect;
    drop(request);
    let ending = Ending::Answered(reply);
    print_answer(&ending, row);
    drop(ending);
}

/// Prints the result of a call, and takes the effect out of it.
pub(crate) fn print_outcome(outcome: &mut Outcome, row: &mut Row) {
    if let Some(cause) = &outcome.dropped {
        row.tell("dropped #\n", u64::from(cause.number()));
    }
    if let Some(act) = outcome.effect.take() {
        print_performed(act, row);
    }
    for ended in outcome.ended.iter() {
        print_one_ended(ended, row);
    }
    print_sends(&outcome.sends, row);
}
