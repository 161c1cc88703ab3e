//! Rows of inputs that fail in the middle of a capture file, and of outputs that fail.
use crate::printing::{Print, print_end, print_over};
use crate::words::octets_of;
use bac_rows::row::{Row, after, number, word};
use std::io;
use std::io::{BufReader, ErrorKind, Read};

/// A file that gives these octets, and then fails.
#[derive(Drop)]
struct Broken<'a> {
    left: &'a [u8],
    fault: ErrorKind,
}

impl Read for Broken<'_> {
    fn read(&mut self, octets: &mut [u8]) -> io::Result<usize> {
        let len = self.left.len().min(octets.len());
        if len == 0 {
            return Err(io::Error::from(self.fault));
        }
        octets[..len].copy_from_slice(&self.left[..len]);
        self.left = &self.left[len..];
        Ok(len)
    }
}

fn print_broken(left: &[u8], fault: ErrorKind, row: &mut Row) {
    match BufReader::new(row.alloc, Broken { left, fault }) {
        Ok(mut input) => print_over(Print::Check(false), &mut input, row),
        Err(_) => row.fail(),
    }
}

/// `FAULT HEX`: a file that gives these octets, and then fails so: `denied`, or for want of memory.
pub(crate) fn input(words: &str, row: &mut Row) {
    let fault = if word(words, 0) == "denied" {
        ErrorKind::PermissionDenied
    } else {
        ErrorKind::OutOfMemory
    };
    print_broken(&octets_of(after(words, 1), row), fault, row);
}

/// `ROOM HEX`: an output that has room for so many octets, of 40 at most, without other functions by name or with them.
pub(crate) fn output(named: bool, words: &str, row: &mut Row) {
    let file = octets_of(after(words, 1), row);
    let mut room_for = [0u8; 40];
    match room_for.get_mut(..number(words, 0) as usize) {
        Some(mut short) => print_end(Print::Check(named), &file, &mut short, row),
        None => row.fail(),
    }
}
