//! Lines of hexadecimal digits that are read, as far as the first that is none is to be told.

use crate::captures::{begins_capture, tell_capture};
use bac_environment::{Digits, no_digit};
use bac_forms::is_frame;
use bac_text::{LINE_LIMIT, octets_in, read_of};
use std::alloc::Global;
use std::io::Write;
use std::{io, str};

/// How many octets of an input tell whether it is a capture.
const FRONT: usize = 4;

/// What is known of the lines of an input that were read, up to the first that is no hexadecimal.
#[derive(Drop)]
pub(crate) struct DigitLines {
    alloc: Global,
    /// The first octets of the input.
    front: Vec<u8>,
    /// Whether a line was a frame of Ethernet with a datagram of BACnet/IP.
    has_frame: bool,
    /// The number of the line that is read, counted from 1.
    number: u64,
    /// What was read of it, up to one octet more than a line may have.
    line: Vec<u8>,
    /// Whether it has ended, and is no hexadecimal. Then no more is looked at.
    is_bad: bool,
}

/// What a line is.
#[derive(Clone, Copy, PartialEq, Eq)]
enum LineKind {
    /// A datagram in hexadecimal, or a note.
    Good,
    /// A frame of Ethernet in hexadecimal, with a datagram of BACnet/IP.
    Frame,
    /// Neither a note nor hexadecimal.
    Bad,
}

fn kind_of(alloc: Global, line: &[u8]) -> LineKind {
    if line.len() > LINE_LIMIT {
        return LineKind::Bad;
    }
    let Some(text) = read_of(true, line) else {
        return LineKind::Good;
    };
    match octets_in(alloc, text) {
        Ok(None) => LineKind::Bad,
        Ok(Some(octets)) if is_frame(&octets) => LineKind::Frame,
        // where memory is out, so it is for who reads
        Ok(Some(_)) | Err(_) => LineKind::Good,
    }
}

impl DigitLines {
    /// The lines of an input of which nothing was read.
    pub(crate) fn new(alloc: Global) -> DigitLines {
        DigitLines {
            alloc,
            front: Vec::new(alloc),
            has_frame: false,
            number: 1,
            line: Vec::new(alloc),
            is_bad: false,
        }
    }

    fn end_line(&mut self) {
        let kind = kind_of(self.alloc, &self.line);
        self.has_frame |= kind == LineKind::Frame;
        self.is_bad = kind == LineKind::Bad;
        if !self.is_bad {
            self.number = self.number.saturating_add(1);
            self.line.clear();
        }
    }

    fn see_octet(&mut self, octet: u8) {
        if self.front.len() < FRONT {
            // where memory is out, so it is for who reads
            let _ = self.front.push(octet);
        }
        if octet == b'\n' {
            self.end_line();
        } else if self.line.len() <= LINE_LIMIT {
            // where memory is out, so it is for who reads
            let _ = self.line.push(octet);
        }
    }

    /// These octets were read: none at the end of the input.
    pub(crate) fn see(&mut self, octets: &[u8]) {
        if octets.is_empty() && !self.is_bad {
            self.end_line();
        }
        for octet in octets {
            if self.is_bad {
                return;
            }
            self.see_octet(*octet);
        }
    }

    /// Whether a line was a frame of Ethernet with a datagram of BACnet/IP.
    pub(crate) fn have_frame(&self) -> bool {
        self.has_frame
    }

    /// Tells the line that is no hexadecimal, if there is one, and its first character that does not fit, with a hint behind it; of a capture how it is read.
    pub(crate) fn print_bad<E: Write>(&self, hint: &str, err: &mut E) {
        if self.is_bad {
            // if that fails too, only the status is left
            let _ = print_bad_line(self.number, &self.line, hint, err);
            if begins_capture(&self.front) {
                tell_capture(err);
            }
        }
    }
}

fn print_bad_line<E: Write>(number: u64, line: &[u8], hint: &str, err: &mut E) -> io::Result<()> {
    if line.len() > LINE_LIMIT {
        return writeln!(err, "line {number}: more than {LINE_LIMIT} octets");
    }
    let text = read_of(true, line).unwrap_or(line);
    let Ok(text) = str::from_utf8(text) else {
        return writeln!(err, "line {number}: not UTF-8");
    };
    match no_digit(text, Digits::Grouped) {
        Some((column, character)) => {
            writeln!(
                err,
                "line {number}, column {column}: unexpected '{character}'{hint}"
            )
        }
        None => {
            let wanted = Digits::Grouped.wanted();
            writeln!(err, "line {number}: {wanted}")
        }
    }
}
