//! Single turns and calls.
use crate::medium::End;
use crate::memory_link::MemoryLink;
use crate::printing::{print_fault, print_request, print_turn};
use crate::side::{Side, question};
use bac_driver::{Link, Question, Turn, TurnFault, WaitLimit};
use bac_rows::row::{Row, after, number, word};

/// The end of a name.
fn end_of(name: &str) -> End {
    if name == "client" {
        End::Client
    } else {
        End::Server
    }
}

/// Prints octets in hexadecimal, as one line.
pub(crate) fn print_octets(octets: &[u8], row: &mut Row) {
    row.say_octets(octets);
    row.put(b'\n');
}

/// `send HEX`: the client's link sends a datagram to the server.
pub(crate) fn send(side: &Side<'_>, words: &str, row: &mut Row) {
    let octets = row.octets(words, 0);
    let mut link = MemoryLink::new(side.medium, End::Client);
    match link.send(End::Server.link(), &octets) {
        Ok(()) => {}
        Err(fault) => row.line(fault),
    }
}

/// Prints what comes next to a link, within so many milliseconds.
pub(crate) fn receive<L: Link>(link: &mut L, wait: u64, row: &mut Row) {
    let mut buffer = [0u8; 64];
    match link.recv(&mut buffer, wait) {
        Ok(Some(received)) => print_octets(buffer.get(..received.1).unwrap_or(&[]), row),
        Ok(None) => row.say("nothing\n"),
        Err(_) => row.say("failed\n"),
    }
}

/// `recv END`: what comes next to the link of an end.
pub(crate) fn recv(side: &Side<'_>, words: &str, row: &mut Row) {
    let mut link = MemoryLink::new(side.medium, end_of(words));
    receive(&mut link, 100, row);
}

/// `buffer COUNT`: so many octets of the server's buffer.
pub(crate) fn buffer(side: &Side<'_>, count: usize, row: &mut Row) {
    match side.server.buffer().get(..count) {
        Some(octets) => print_octets(octets, row),
        None => row.fail(),
    }
}

fn print_taken(taken: Result<Turn, TurnFault>, row: &mut Row) {
    match taken {
        Ok(turn) => {
            print_turn(&turn, row);
            drop(turn);
        }
        Err(fault) => print_fault(fault, row),
    }
}

/// `turn END MOMENT`: a turn at that moment.
pub(crate) fn turn(side: &mut Side<'_>, words: &str, row: &mut Row) {
    let end = end_of(word(words, 0));
    print_taken(side.at(end).turn(number(words, 1)), row);
}

/// `WAIT`, or `WAIT UNTIL`; where WAIT is not a number, until something is due.
pub(crate) fn wait_limit_of(words: &str) -> WaitLimit {
    WaitLimit {
        wait: word(words, 0).parse::<u64>().unwrap_or(u64::MAX),
        until: word(words, 1).parse::<u64>().ok(),
    }
}

/// `by END WAIT UNTIL`: a turn by the clock.
pub(crate) fn turn_by(side: &mut Side<'_>, words: &str, row: &mut Row) {
    let end = end_of(word(words, 0));
    let wait_limit = wait_limit_of(after(words, 1));
    let mut clock = side.clock();
    print_taken(side.at(end).turn_by(&mut clock, &wait_limit), row);
}

fn begins(side: &mut Side<'_>, now: u64, question: &Question, row: &mut Row) {
    match side.client.begin(now, question) {
        Ok(ticket) => print_request(ticket, &question.request, row),
        Err(fault) => row.tell("refused #\n", u64::from(fault.number())),
    }
}

/// `begin MOMENT REQUEST`: the client asks; `begin now REQUEST` at the moment of the medium.
pub(crate) fn begin(side: &mut Side<'_>, words: &str, row: &mut Row) {
    let now = word(words, 0).parse::<u64>().unwrap_or(side.moment());
    if let Some(question) = question(after(words, 1), row) {
        begins(side, now, &question, row);
        drop(question);
    }
}
