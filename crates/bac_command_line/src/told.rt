//! Standard error of a command line: what went wrong in one line, or also why.
ghost use Rattle.std.specs.Prelude.{◌≤◌, length};

use bac_reading::STANDARD_INPUT;
use clap::ArgMatches;
use clap::parser::ValueSource;
use std::io;
use std::io::{ErrorKind, Write};

/// The command lines that tell one line where they fail: each command, with all of these words and no others. `the node` is the group of the words by which
/// `ask` is told the node.
const BRIEF: &[(&str, &[&str])] = &[
    ("answer", &["HEX"]),
    ("ask", &["WORDS", "port", "the node"]),
    ("check", &["FILE"]),
    ("decode", &["HEX"]),
    ("pair", &[]),
    ("serve", &["port", "turns"]),
    ("simulate", &["FILE"]),
];

/// Whether a word was given, and has not its default alone.
fn is_given(given: &ArgMatches<'_>, word: &str) -> bool {
    given.value_source(word) == Some(ValueSource::CommandLine)
}

/// Whether these words are given, and no others.
fn has_just(given: &ArgMatches<'_>, words: &[&str]) -> bool {
    words.iter().all(|word| is_given(given, word))
        && given.ids().all(|id| !is_given(given, id) || words.iter().any(|word| *word == id))
}

/// Whether a command line tells one line where it fails, if standard error is no terminal. One that reads datagrams from standard input tells why too.
pub(crate) fn is_brief(matches: &ArgMatches<'_>) -> bool {
    match matches.subcommand() {
        None => true,
        Some(("decode", given)) if given.get_str("HEX") == Some(STANDARD_INPUT) => false,
        Some((command, given)) => BRIEF
            .iter()
            .any(|(name, words)| *name == command && has_just(given, words)),
    }
}

/// Standard error: of what is written to it the first line alone, or all.
#[derive(Drop)]
pub(crate) struct Told<'e, E> {
    err: &'e mut E,
    /// Whether all is told.
    tells_why: bool,
    /// Whether a line has been told, or could not be.
    has_line: bool,
}

impl<'e, E> Told<'e, E> {
    /// Standard error, before anything is told.
    pub(crate) fn new(err: &'e mut E, tells_why: bool) -> Told<'e, E> {
        Told {
            err,
            tells_why,
            has_line: false,
        }
    }
}

/// Octets up to the end of their first line.
fn first_line(octets: &[u8]) -> &[u8]
    ensures { length result.now ≤ length octets.now }
{
    match octets.iter().position(|octet| *octet == b'\n') {
        Some(end) => &octets[..=end],
        None => octets,
    }
}

impl<E: Write> Write for Told<'_, E> {
    fn write(&mut self, octets: &[u8]) -> io::Result<usize> {
        if self.tells_why {
            return self.err.write(octets);
        }
        if self.has_line {
            // dropped, as if it were written
            return Ok(octets.len());
        }
        let line = first_line(octets);
        match self.err.write(line) {
            Ok(count) => {
                self.has_line = count == line.len() && line.last() == Some(&b'\n');
                Ok(count)
            }
            Err(error) => {
                // an interrupted write is tried again
                self.has_line = error.kind() != ErrorKind::Interrupted;
                Err(error)
            }
        }
    }

    fn flush(&mut self) -> io::Result<()> {
        self.err.flush()
    }
}
