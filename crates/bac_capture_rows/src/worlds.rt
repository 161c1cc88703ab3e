//! Rows of worlds that are made up from numbers: what `explain` says of their datagrams has to be what their logs say.
//!
//! A line `ask WORD..` is a request that nodes may ask in the worlds of the lines after it, in one APDU or in segments. Each other line is the number
//! that a world is made up from. Below it is printed how many of the world's asks were answered, and `?` where anything is wrong.
mod agreeing;
mod capture;
mod chance;
mod counts;
mod schedule;

use bac_rows::row::Row;

/// Plays the lines of a row.
pub(crate) fn play(lines: &str, row: &mut Row) {
    let mut requests = Vec::new(row.alloc);
    for line in lines.lines() {
        match line.strip_prefix("ask ") {
            Some(words) => row.needs(requests.push(words).is_ok()),
            None => agreeing::explain(&requests, line, row),
        }
    }
}
