//! Prints the results of turns.
use crate::medium::End;
use bac_commands::{print_asked, print_ended, print_ending_line, print_refused};
use bac_driver::{AskEnd, Turn, TurnFault};
use bac_node::Outcome;
use bac_npdu::LinkAddress;
use bac_requester::{Ended, Ending};
use bac_rows::row::Row;
use bac_service::{AnyReply, OwnedReply, OwnedRequest, Reply, write_reply, write_request};

/// Prints the service data of a request.
pub(crate) fn say_request(request: &OwnedRequest, row: &mut Row) {
    let mut octets = Vec::new(row.alloc);
    row.needs(write_request(request.as_request(), &mut octets).is_ok());
    row.say_octets(&octets);
}

/// Prints the service data of an acknowledgement; of other replies nothing.
fn say_reply(reply: Reply<'_>, row: &mut Row) {
    let mut octets = Vec::new(row.alloc);
    if let AnyReply::Complex(complex) = reply {
        row.needs(write_reply(complex, &mut octets).is_ok());
    }
    row.say_octets(&octets);
}

/// Prints that a request was asked, by its number.
pub(crate) fn print_request(number: u64, request: &OwnedRequest, row: &mut Row) {
    row.tell("asked # ", number);
    say_request(request, row);
    row.put(b'\n');
}

/// Prints that a request was performed, by its number, with its reply.
pub(crate) fn print_performed(
    number: u64,
    request: &OwnedRequest,
    reply: &OwnedReply,
    row: &mut Row,
) {
    row.tell("performed # ", number);
    say_request(request, row);
    row.put(b' ');
    say_reply(reply.as_reply(), row);
    row.put(b'\n');
}

/// Prints that an ask was made.
pub(crate) fn print_ticket(ticket: u64, invoke_id: u8, row: &mut Row) {
    let is_printed = print_asked(ticket, invoke_id, &mut row.told).is_ok();
    row.needs(is_printed);
}

/// Prints why an ask was refused.
pub(crate) fn print_refusal(fault: u8, row: &mut Row) {
    let is_printed = print_refused(fault, &mut row.told).is_ok();
    row.needs(is_printed);
}

/// Prints how an ask ended, by its number.
pub(crate) fn print_ending(number: u64, ending: &Ending, row: &mut Row) {
    let is_printed = print_ended(row.alloc, number, ending, &mut row.told).is_ok();
    row.needs(is_printed);
}

/// Prints how a ticket ended.
pub(crate) fn print_one_ended(ended: &Ended, row: &mut Row) {
    print_ending(ended.ticket, &ended.ending, row);
}

/// Prints an ending without its number.
pub(crate) fn print_answer(ending: &Ending, row: &mut Row) {
    let is_printed = print_ending_line(row.alloc, ending, &mut row.told).is_ok();
    row.needs(is_printed);
}

/// Prints which tickets ended in a step of a turn.
fn print_all_ended(word: &str, step: &Option<Outcome>, row: &mut Row) {
    if let Some(outcome) = step {
        for ended in outcome.ended.iter() {
            row.say(word);
            print_one_ended(ended, row);
        }
    }
}

/// Prints what a turn performed, and which tickets ended by the datagram and by the tick.
pub(crate) fn print_done(turn: &Turn, row: &mut Row) {
    if let Some(act) = turn.effect() {
        let number = u64::from(act.key.invoke_id);
        print_performed(number, &act.effect.request, &act.effect.reply, row);
    }
    print_all_ended("", &turn.heard, row);
    print_all_ended("due: ", &turn.ticked, row);
}

fn print_received(received: Option<(LinkAddress, usize)>, row: &mut Row) {
    match received {
        Some(datagram) => {
            row.tell("received # from ", datagram.1 as u64);
            row.line(End::of(datagram.0).name());
        }
        None => row.say("nothing\n"),
    }
}

/// Prints the result of a turn.
pub(crate) fn print_turn(turn: &Turn, row: &mut Row) {
    row.tell_two("at # lost #", turn.at, turn.lost);
    row.tell(" skipped #\n", u64::from(turn.skipped()));
    print_received(turn.received, row);
    print_done(turn, row);
}

/// Prints why a turn was not taken: the number, and why in words.
pub(crate) fn print_fault(fault: TurnFault, row: &mut Row) {
    row.line(format_args!("fault {}: {fault}", fault.number()));
}

/// Prints how an ask ended.
pub(crate) fn print_end(end: Result<AskEnd, TurnFault>, row: &mut Row) {
    match end {
        Ok(AskEnd::Ended(ending)) => {
            print_answer(&ending, row);
            drop(ending);
        }
        Ok(AskEnd::Refused(fault)) => row.tell("refused #\n", u64::from(fault.number())),
        Ok(AskEnd::NoEnding) => row.say("no ending\n"),
        Err(fault) => print_fault(fault, row),
    }
}
