//! Lines of service data: `request CHOICE HEX` and `reply CHOICE HEX`.
//!
//! They are read whole and in pieces, and written again, by themselves and by their copies. Up to 200 octets are cut in two at every place, and into
//! pieces of every size with and without empty ones between. Longer ones are cut into pieces of 1,024 octets. A line prints `?` where pieces are read
//! otherwise than the whole.
ghost use Rattle.std.specs.Prelude.{◌<◌};

use crate::pieces::{cut, pieces_of};
use bac_rows::row::{Row, number8, place_of};
use bac_service::{
    AnyReply, Complex, ReadError, Reply, Request, read_reply, read_reply_parts, read_request,
    read_request_parts, reads_reply_parts, reply_len, request_len, write_reply, write_request,
};
use bac_value::{Fault, Parts};
use std::alloc::Global;

fn is_request_written(alloc: Global, request: Request<'_>, octets: &[u8]) -> bool {
    let mut written = Vec::new(alloc);
    let _ = write_request(request, &mut written);
    written.as_slice() == octets && request_len(request) == octets.len()
}

fn is_request_copied(alloc: Global, request: Request<'_>, octets: &[u8]) -> bool {
    match request.to_owned(alloc) {
        Ok(copy) => is_request_written(alloc, copy.as_request(), octets),
        Err(_) => false,
    }
}

fn is_complex_written(alloc: Global, complex: Complex<'_>, octets: &[u8]) -> bool {
    let mut written = Vec::new(alloc);
    let _ = write_reply(complex, &mut written);
    written.as_slice() == octets && reply_len(complex) == octets.len()
}

fn is_complex_copied(alloc: Global, complex: Complex<'_>, octets: &[u8]) -> bool {
    match complex.to_owned(alloc) {
        Ok(copy) => is_complex_written(alloc, copy.as_complex(), octets),
        Err(_) => false,
    }
}

fn is_reply_written(alloc: Global, reply: Reply<'_>, octets: &[u8]) -> bool {
    match reply {
        AnyReply::Complex(complex) => is_complex_written(alloc, complex, octets),
        _ => false,
    }
}

/// Whether the copy of a reply with these service data is written as these octets.
fn is_reply_copied(alloc: Global, complex: Complex<'_>, octets: &[u8]) -> bool {
    let reply: Reply<'_> = AnyReply::Complex(complex);
    match reply.to_owned(alloc) {
        Ok(copy) => is_reply_written(alloc, copy.as_reply(), octets),
        Err(_) => false,
    }
}

/// Prints whether octets are written again as they are.
fn print_written(is_again: bool, octets: &[u8], row: &mut Row) {
    if is_again {
        row.tell("# octets, written again\n", octets.len() as u64);
    } else {
        row.say("written as others\n");
    }
}

/// A request, and its copy, written again.
fn request_again(request: Request<'_>, octets: &[u8], row: &mut Row) {
    let is_written = is_request_written(row.alloc, request, octets);
    let is_copied = is_request_copied(row.alloc, request, octets);
    print_written(is_written && is_copied, octets, row);
}

/// Service data of a ComplexACK, their copy and a reply's copy written again.
fn complex_again(complex: Complex<'_>, octets: &[u8], row: &mut Row) {
    let is_written = is_complex_written(row.alloc, complex, octets);
    let is_copied = is_complex_copied(row.alloc, complex, octets);
    let is_in_copy = is_reply_copied(row.alloc, complex, octets);
    print_written(is_written && is_copied && is_in_copy, octets, row);
}

fn print_reject(reason: u8, row: &mut Row) {
    row.tell("reject #\n", u64::from(reason));
}

fn print_fault(fault: Fault, row: &mut Row) {
    row.tell_two(
        "fault # at #\n",
        u64::from(fault.kind.number()),
        fault.at as u64,
    );
}

fn request(choice: u8, octets: &[u8], row: &mut Row) {
    match read_request(choice, octets) {
        Ok(request) => request_again(request, octets, row),
        Err(reject) => print_reject(reject.reason(), row),
    }
}

fn reply(choice: u8, octets: &[u8], row: &mut Row) {
    match read_reply(choice, octets) {
        Ok(complex) => complex_again(complex, octets, row),
        Err(fault) => print_fault(fault, row),
    }
}

fn request_in(choice: u8, parts: Parts<'_>, octets: &[u8], row: &mut Row) {
    match read_request_parts(row.alloc, choice, parts) {
        Ok(owned) => request_again(owned.as_request(), octets, row),
        Err(ReadError::Refused(reject)) => print_reject(reject.reason(), row),
        Err(ReadError::NoMemory) => row.fail(),
    }
}

fn reply_in(choice: u8, parts: Parts<'_>, octets: &[u8], row: &mut Row) {
    match read_reply_parts(row.alloc, choice, parts) {
        Ok(owned) => {
            row.needs(reads_reply_parts(choice, parts));
            complex_again(owned.as_complex(), octets, row);
        }
        Err(ReadError::Refused(fault)) => {
            row.needs(!reads_reply_parts(choice, parts));
            print_fault(fault, row);
        }
        Err(ReadError::NoMemory) => row.fail(),
    }
}

/// Octets that are read, and what was printed of them as a whole.
#[derive(Clone, Copy)]
struct Reading<'a> {
    is_reply: bool,
    choice: u8,
    octets: &'a [u8],
    told: &'a [u8],
}

impl Reading<'_> {
    fn read_in(self, parts: Parts<'_>, row: &mut Row) {
        if self.is_reply {
            reply_in(self.choice, parts, self.octets, row);
        } else {
            request_in(self.choice, parts, self.octets, row);
        }
    }

    /// Notes a fault where pieces are read otherwise.
    fn check(self, pieces: &[Vec<u8>], row: &mut Row) {
        let mut other = Row::new(row.alloc);
        if let Some(parts) = Parts::try_new(pieces) {
            self.read_in(parts, &mut other);
        }
        row.needs(!other.has_failed && other.told.as_slice() == self.told);
    }

    fn check_size(self, size: usize, row: &mut Row)
        requires { 0 < size }
    {
        self.check(&pieces_of(row.alloc, self.octets, size, false), row);
        self.check(&pieces_of(row.alloc, self.octets, size, true), row);
    }

    fn check_cuts(self, row: &mut Row) {
        for place in 0..=self.octets.len() {
            self.check(&cut(row.alloc, self.octets, place), row);
        }
        for size in 1..=self.octets.len() {
            self.check_size(size, row);
        }
    }
}

/// Reads octets in pieces.
fn check_pieces(reading: Reading<'_>, row: &mut Row) {
    if reading.octets.len() > 200 {
        reading.check_size(1_024, row);
    } else {
        reading.check_cuts(row);
    }
}

fn read_all(is_reply: bool, choice: u8, octets: &[u8], row: &mut Row) {
    let mut told = Row::new(row.alloc);
    if is_reply {
        reply(choice, octets, &mut told);
    } else {
        request(choice, octets, &mut told);
    }
    row.take(&told);
    let reading = Reading {
        is_reply,
        choice,
        octets,
        told: &told.told,
    };
    check_pieces(reading, row);
}

/// Shows what a line says.
pub(crate) fn show(verb: &str, words: &str, row: &mut Row) {
    let octets = row.octets(words, 1);
    let side = place_of("request reply", verb);
    row.needs(side < 2);
    read_all(side == 1, number8(words, 0), &octets, row);
}
