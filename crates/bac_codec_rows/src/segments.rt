//! Rows of a transfer in segments, and of what its segments are kept in.
//!
//! `begin OCTETS SIZE` begins a transfer in pieces of a size, of octets that name their places. `offer N` gives piece N to the receiver, `ack N`
//! gives the sender a SegmentACK, `timeout` and `resume` are its calls, and `window` prints its window. `transfer OCTETS SIZE OWN OTHER` sends all
//! windows in order. `receive COUNT HEX` makes a receiver that has taken so many segments, and `same COUNT HEX` compares it with another one. `more
//! HEX` and `last HEX` are the next segment. `rooms FIRST SECOND COUNT` keeps segments of two lengths in turn, and prints in how many vectors and
//! with how much room.
ghost use Rattle.std.specs.Prelude.{◌≤◌, ◌<◌, length};

use crate::rows::{Stage, play_lines};
use bac_apdu::Window;
use bac_rows::row::{Row, number, number8, place_of};
use bac_segment::chunks::append;
use bac_segment::{Incoming, Outgoing, Progress, SegmentFault, Step};
use std::alloc::Global;

const THIRTY_TWO: Window = Window { size: 32 };

/// Both ends of a transfer.
#[derive(Drop)]
struct Both {
    sender: Outgoing,
    receiver: Incoming,
}

/// The sender of `OCTETS SIZE`: of octets that name their places.
fn sender_of(alloc: Global, words: &str) -> Outgoing {
    let mut octets = Vec::new(alloc);
    for place in 0..number(words, 0) {
        // modulo 251, so that pieces of 256 octets differ too
        let _ = octets.push((place % 251) as u8);
    }
    // pieces of no octets would never end
    Outgoing::new(octets, (number(words, 1) as usize).max(1))
}

/// The window of a size; that of 32 where no window has that size.
fn window_of(size: u8) -> Window {
    Window::new(size).unwrap_or(THIRTY_TWO)
}

/// Hands a piece to the receiver, as a segment; None where there is no such piece.
fn offer(
    sender: &Outgoing,
    receiver: &mut Incoming,
    n: usize,
) -> Option<Result<Step, SegmentFault>> {
    if n >= sender.count() {
        return None;
    }
    let more = n + 1 < sender.count();
    Some(receiver.on_segment((n % 256) as u8, more, sender.piece(n)))
}

/// How many segments, and SegmentACKs, were sent.
#[derive(Clone, Copy)]
struct Sent {
    segments: u64,
    acks: u64,
    /// The number of the last piece that was answered by a SegmentACK.
    last: Option<u8>,
}

impl Sent {
    /// Notes what came of a segment.
    fn note(&mut self, n: usize, came: Option<Result<Step, SegmentFault>>) {
        self.segments = self.segments.saturating_add(1);
        if let Some(Ok(Step::Taken { ack: true } | Step::Whole)) = came {
            self.acks = self.acks.saturating_add(1);
            self.last = Some((n % 256) as u8);
        }
    }
}

impl Both {
    /// Sends the window once; whether more are to be sent.
    fn sends_on(&mut self, own: Window, sent: &mut Sent) -> bool {
        sent.last = None;
        for n in self.sender.window() {
            sent.note(n, offer(&self.sender, &mut self.receiver, n));
        }
        match sent.last {
            Some(last) => {
                self.sender.on_ack(last, self.receiver.window(), own) == Progress::Moved
            }
            None => false,
        }
    }

    /// Sends each window once, in order, until all were acknowledged, and prints how much was sent.
    fn send_all(&mut self, own: Window, row: &mut Row) {
        let mut sent = Sent {
            segments: 0,
            acks: 0,
            last: None,
        };
        let mut goes_on = true;
        // a bound on the windows, so that each row ends
        for _ in 0..2_000 {
            goes_on = goes_on && self.sends_on(own, &mut sent);
        }
        row.needs(!goes_on);
        row.tell_two("segments # acks #", sent.segments, sent.acks);
        row.tell(" octets #\n", self.receiver.len() as u64);
    }

    fn print_taken(&self, step: Result<Step, SegmentFault>, row: &mut Row) {
        match step {
            Ok(step) => row.show(format_args!("{step:?}")),
            Err(fault) => row.show(format_args!("{fault:?}")),
        }
        let taken = self.receiver.taken() as u64;
        row.tell_two(", # taken, # octets\n", taken, self.receiver.len() as u64);
    }

    fn offer(&mut self, n: usize, row: &mut Row) {
        match offer(&self.sender, &mut self.receiver, n) {
            Some(step) => self.print_taken(step, row),
            None => row.fail(),
        }
    }

    fn ack(&mut self, number: u8, row: &mut Row) {
        let progress = self.sender.on_ack(number, THIRTY_TWO, THIRTY_TWO);
        row.line(format_args!("{progress:?}"));
    }

    fn window(&self, row: &mut Row) {
        let window = self.sender.window();
        row.tell_two("from # to #", window.start as u64, window.end as u64);
        row.tell_truth(", retry ", self.sender.has_retry());
    }

    fn timeout(&mut self, row: &mut Row) {
        let timeout = self.sender.on_timeout();
        row.line(format_args!("{timeout:?}"));
    }

    fn next(&mut self, more: bool, words: &str, row: &mut Row) {
        let octets = row.octets(words, 0);
        let number = (self.receiver.taken() % 256) as u8;
        let step = self.receiver.on_segment(number, more, &octets);
        self.print_taken(step, row);
    }

    fn begin(&mut self, words: &str, alloc: Global) {
        self.sender = sender_of(alloc, words);
        self.receiver = Incoming::new(alloc, THIRTY_TWO, THIRTY_TWO);
    }

    fn compare(&self, words: &str, row: &mut Row) {
        let other = receiver_of(words, row);
        row.tell_truth("same ", self.receiver.same(&other));
    }
}

/// The ends of `OCTETS SIZE WINDOW WINDOW` send all, which leaves those of the row as they are.
fn transfer(words: &str, row: &mut Row) {
    let own = window_of(number8(words, 2));
    let mut both = Both {
        sender: sender_of(row.alloc, words),
        receiver: Incoming::new(row.alloc, own, window_of(number8(words, 3))),
    };
    both.send_all(own, row);
}

/// A receiver that has taken so many segments with these octets, and more follow.
fn receiver_of(words: &str, row: &Row) -> Incoming {
    let octets = row.octets(words, 1);
    let mut receiver = Incoming::new(row.alloc, THIRTY_TWO, THIRTY_TWO);
    for n in 0..number(words, 0) {
        let _ = receiver.on_segment((n % 256) as u8, true, &octets);
    }
    receiver
}

/// How many vectors such segments are kept in, and their room.
fn print_room(chunks: &[Vec<u8>], row: &mut Row) {
    let mut room = 0usize;
    for chunk in chunks {
        room = room.saturating_add(chunk.capacity());
    }
    row.tell_two("# vectors, room #\n", chunks.len() as u64, room as u64);
}

fn octets_alike(alloc: Global, len: u64) -> Vec<u8> {
    let mut octets = Vec::new(alloc);
    let _ = octets.resize(len as usize, 7u8);
    octets
}

fn kept(alloc: Global, one: &[u8], other: &[u8], count: u64) -> Vec<Vec<u8>> {
    let mut chunks = Vec::new(alloc);
    for n in 0..count {
        let octets = if n % 2 == 0 { one } else { other };
        let _ = append(alloc, &mut chunks, octets);
    }
    chunks
}

fn rooms(words: &str, row: &mut Row) {
    let one = octets_alike(row.alloc, number(words, 0));
    let other = octets_alike(row.alloc, number(words, 1));
    let chunks = kept(row.alloc, &one, &other, number(words, 2));
    print_room(&chunks, row);
}

const VERBS: &str = "begin offer ack window timeout resume receive same more last rooms transfer";

impl Stage for Both {
    fn hear(&mut self, verb: &str, words: &str, row: &mut Row) {
        match place_of(VERBS, verb) {
            0 => self.begin(words, row.alloc),
            1 => self.offer(number(words, 0) as usize, row),
            2 => self.ack(number8(words, 0), row),
            3 => self.window(row),
            4 => self.timeout(row),
            5 => self.sender.resume(),
            6 => self.receiver = receiver_of(words, row),
            7 => self.compare(words, row),
            8 => self.next(true, words, row),
            9 => self.next(false, words, row),
            10 => rooms(words, row),
            11 => transfer(words, row),
            _ => row.fail(),
        }
    }
}

/// Plays the lines of a row.
pub(crate) fn play(lines: &str, row: &mut Row) {
    let mut both = Both {
        sender: Outgoing::new(Vec::new(row.alloc), 1),
        receiver: Incoming::new(row.alloc, THIRTY_TWO, THIRTY_TWO),
    };
    play_lines(&mut both, lines, row);
}
