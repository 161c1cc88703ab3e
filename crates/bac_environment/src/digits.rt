//! Hexadecimal digits of a datagram in a text, and the first character that is none.

use bac_text::Status;
use std::io::Write;

/// How the digits of a datagram may be written.
#[derive(Clone, Copy, PartialEq, Eq)]
pub enum Digits {
    /// One after the other.
    Alone,
    /// In groups of whole octets, with spaces, tabs or colons between them, and `0x` before a group.
    Grouped,
}

/// Whether a character may be between groups of digits.
fn is_gap(character: char) -> bool {
    matches!(character, ' ' | '\t' | ':')
}

impl Digits {
    /// Whether a character may follow those two, the one before and the one right before it.
    fn takes(self, before: (char, char), character: char) -> bool {
        if character.is_ascii_hexdigit() {
            return true;
        }
        let is_mark = matches!(character, 'x' | 'X') && is_gap(before.0) && before.1 == '0';
        self == Digits::Grouped && (is_gap(character) || is_mark)
    }

    /// What is wrong with digits that are valid one by one, and what is expected.
    pub fn wanted(self) -> &'static str {
        match self {
            Digits::Alone => "the digits do not form whole octets: expected an even number of them",
            Digits::Grouped =>
                "a group of digits does not form whole octets: expected an even number of them",
        }
    }
}

/// The first character that is neither a digit nor allowed between digits, and its number, counted from 1. None if there is none.
pub fn no_digit(text: &str, digits: Digits) -> Option<(usize, char)> {
    let mut before = (' ', ' ');
    for (place, character) in text.chars().enumerate() {
        if !digits.takes(before, character) {
            return Some((place.saturating_add(1), character));
        }
        before = (before.1, character);
    }
    None
}

/// Prints why a text is not hexadecimal, if the status is `CommandLine`.
pub fn print_bad_digit<E: Write>(status: Status, text: &str, digits: Digits, err: &mut E) {
    if status != Status::CommandLine {
        return;
    }
    // if that fails too, only the status is left
    let _ = match no_digit(text, digits) {
        Some((place, character)) => {
            writeln!(
                err,
                "character {place}: '{character}' is not a hexadecimal digit"
            )
        }
        None => err.writeln(digits.wanted()),
    };
}
