//! What a line spells, and how octets are printed.
//!
//! In a line `|` stands for the end of a line, `~` for a carriage return, `^` for a tab and `_` for nothing; `$COUNT*TEXT$` for the text so many times, and
//! `$COUNT$` for so many octets that count up from 0 to 250, in hexadecimal.
use bac_rows::row::{Row, decimal};
use std::alloc::Global;

/// What an octet stands for.
fn meant(octet: u8) -> u8 {
    match octet {
        b'|' => b'\n',
        b'~' => b'\r',
        b'^' => b'\t',
        other => other,
    }
}

fn put_plain(text: &str, out: &mut Row) {
    for octet in text.as_bytes() {
        if *octet != b'_' {
            out.put(meant(*octet));
        }
    }
}

fn put_repeated(word: &str, out: &mut Row) {
    match word.split_once('*') {
        Some((count, text)) => {
            for _ in 0..decimal(count) {
                put_plain(text, out);
            }
        }
        None => {
            for place in 0..decimal(word) {
                out.say_octet((place % 251) as u8);
            }
        }
    }
}

/// What a line spells, as it would be printed.
pub(crate) fn spelled(alloc: Global, line: &str) -> Row {
    let mut out = Row::new(alloc);
    for (place, part) in line.split('$').enumerate() {
        if place % 2 == 0 {
            put_plain(part, &mut out);
        } else {
            put_repeated(part, &mut out);
        }
    }
    out
}

/// Prints an octet: as it is, or in hexadecimal.
fn print_octet(octet: u8, as_text: bool, row: &mut Row) {
    if as_text {
        row.put(octet);
    } else {
        row.say_octet(octet);
    }
}

/// Prints one octet so many times; more than 20 as in a line that spells them.
fn print_run(octet: u8, count: u64, as_text: bool, row: &mut Row) {
    if count > 20 {
        row.tell("$#*", count);
        print_octet(octet, as_text, row);
        row.put(b'$');
    } else {
        for _ in 0..count {
            print_octet(octet, as_text, row);
        }
    }
}

/// Prints octets as a line: as they are, or in hexadecimal.
pub(crate) fn print_runs(octets: &[u8], as_text: bool, row: &mut Row) {
    let mut last = 0;
    let mut count = 0u64;
    for octet in octets {
        if *octet != last {
            print_run(last, count, as_text, row);
            last = *octet;
            count = 0;
        }
        count = count.saturating_add(1);
    }
    print_run(last, count, as_text, row);
    row.put(b'\n');
}

/// Prints octets in hexadecimal, as a line.
pub(crate) fn print_octets(octets: &[u8], row: &mut Row) {
    print_runs(octets, false, row);
}

/// Prints whether octets that were written are those that were read; if not, which they are.
pub(crate) fn print_again(written: &[u8], read: &[u8], row: &mut Row) {
    if written == read {
        row.say("written again\n");
    } else {
        print_octets(written, row);
    }
}
