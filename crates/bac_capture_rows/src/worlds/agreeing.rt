//! Compares what `explain` finds in a world's datagrams with the world's log.
use crate::worlds::capture::Capture;
use crate::worlds::counts::Counts;
use crate::worlds::schedule::{Asked, Run, Sight, link_of};
use bac_apdu::{Apdu, Segment, read};
use bac_explain::{Closed, Explainer, Sent};
use bac_network::{Copy, Fact, Note};
use bac_rows::row::{Row, decimal};
use bac_service::{AnyReply, Complex, OwnedReply, Reply, write_reply};
use std::alloc::Global;

/// Whether service data are those of a reply, or a segment the first of them.
fn is_complex(alloc: Global, segment: Option<Segment>, service: &[u8], reply: Complex<'_>) -> bool {
    let mut whole = Vec::new(alloc);
    let _ = write_reply(reply, &mut whole);
    match segment {
        None => whole.as_slice() == service,
        Some(segment) => segment.number == 0 && whole.starts_with(service),
    }
}

/// Whether an APDU gives a reply, or the first segment of it.
fn gives(alloc: Global, octets: &[u8], reply: Reply<'_>) -> bool {
    match (read(octets), reply) {
        (Ok(Apdu::SimpleAck { .. }), AnyReply::Simple) => true,
        (
            Ok(
                Apdu::ComplexAck {
                    segment,
                    service,
                    ..
                },
            ),
            AnyReply::Complex(complex),
        ) => is_complex(alloc, segment, service, complex),
        (
            Ok(Apdu::Error { class, code, .. }),
            AnyReply::Error {
                class: told,
                code: why,
            },
        ) => class == told && code == why,
        (Ok(Apdu::Reject { reason, .. }), AnyReply::Reject(why)) => reason == why,
        _ => false,
    }
}

/// Whether nothing answers, or a Reject or an Abort.
fn is_unserved(answer: &Option<Sent>) -> bool {
    match answer {
        Some(sent) => matches!(
            read(&sent.octets),
            Ok(Apdu::Reject { .. } | Apdu::Abort { .. })
        ),
        None => true,
    }
}

/// With what the request of an ask was performed.
fn reply_of(log: &[Fact], ask: usize) -> Option<&OwnedReply> {
    for fact in log {
        if let Fact::Performed { number, reply, .. } = fact {
            if *number == ask {
                return Some(reply);
            }
        }
    }
    None
}

/// Whether an answer is the one that the log says of an ask.
fn is_answer(alloc: Global, log: &[Fact], ask: usize, answer: &Option<Sent>) -> bool {
    match (reply_of(log, ask), answer) {
        (None, answer) => is_unserved(answer),
        (Some(reply), Some(sent)) => gives(alloc, &sent.octets, reply.as_reply()),
        (Some(_), None) => false,
    }
}

/// Whether a transaction is that of an ask.
fn is_of(closed: &Closed, note: &Note, asked: Asked) -> bool {
    let key = closed.key;
    key.client.link == link_of(note.transaction.client)
        && key.server.link == link_of(note.transaction.server)
        && key.invoke_id == note.transaction.invoke_id
        && closed.transaction.request.moment == asked.moment
}

/// The transaction of an ask.
fn transaction_of<'a>(closed: &'a [Closed], note: &Note, asked: Asked) -> Option<&'a Closed> {
    for it in closed {
        if is_of(it, note, asked) {
            return Some(it);
        }
    }
    None
}

/// An ask has a transaction, which was seen as often as it passed, and answered as the log says.
fn agrees_on(run: &Run, ask: usize, passed: &[Sight], closed: &[Closed], row: &mut Row) {
    let world = &run.world;
    match (world.asks().get(ask), run.asked.get(ask)) {
        (Some(note), Some(asked)) => match transaction_of(closed, note, *asked) {
            Some(closed) => {
                let it = &closed.transaction;
                row.needs(Counts::of(world, passed, note, *asked).are_of(it));
                row.needs(is_answer(row.alloc, world.log(), ask, &it.answer));
            }
            None => row.fail(),
        },
        _ => row.fail(),
    }
}

/// Each copy where it was sent.
fn sent(alloc: Global, copies: &[Copy]) -> Vec<Sight> {
    let mut sent = Vec::new(alloc);
    for (copy, it) in copies.iter().enumerate() {
        let _ = sent.push(Sight {
            moment: it.moment,
            copy,
        });
    }
    sent
}

/// How many transactions were answered.
fn answered(closed: &[Closed]) -> u64 {
    let mut count = 0u64;
    for it in closed {
        count = count.saturating_add(u64::from(it.transaction.answer.is_some()));
    }
    count
}

/// Explains what passed in a world, and compares: there is one transaction for each ask, and no other. How many asks were answered by their servers.
fn compared(
    run: &Run,
    passed: &[Sight],
    is_sent: bool,
    explainer: Explainer,
    row: &mut Row,
) -> u64 {
    let mut capture = Capture::new(explainer, row);
    capture.see_all(&run.world, passed, row);
    // nothing is wrong with all that was sent
    row.needs(!is_sent || capture.wrong == 0);
    row.needs(capture.closed.len() == run.asked.len());
    for ask in 0..run.asked.len() {
        agrees_on(run, ask, passed, &capture.closed, row);
    }
    answered(&capture.closed)
}

fn explained_by(run: &Run, passed: &[Sight], is_sent: bool, row: &mut Row) -> u64 {
    match Explainer::new(row.alloc) {
        Ok(explainer) => compared(run, passed, is_sent, explainer, row),
        Err(_) => {
            row.fail();
            0
        }
    }
}

/// A world is explained by what was sent, and by all that passed.
fn explained(run: &Run, row: &mut Row) -> u64 {
    let sent = sent(row.alloc, run.world.copies());
    explained_by(run, &sent, true, row);
    explained_by(run, &run.passed, false, row)
}

/// Explains the world that is made up from the number of a line.
pub(crate) fn explain(requests: &[&str], line: &str, row: &mut Row) {
    let seed = decimal(line);
    if let Some(run) = Run::of(requests, seed, row) {
        let answered = explained(&run, row);
        row.tell_two("#: answered #\n", seed, answered);
    }
}
