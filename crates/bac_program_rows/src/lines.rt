//! Lines that begin with a word, and the blocks of lines below them.

/// The first word of a text, and what follows it.
pub(crate) fn first(text: &str) -> (&str, &str) {
    text.split_once(' ').unwrap_or((text, ""))
}

/// What follows a word and a blank at the beginning of a text; empty where nothing does.
pub(crate) fn after<'a>(text: &'a str, word: &str) -> Option<&'a str> {
    let rest = text.strip_prefix(word)?;
    if rest.is_empty() {
        Some(rest)
    } else {
        rest.strip_prefix(' ')
    }
}

/// A line that begins with a word, and the text below it.
#[derive(Clone, Copy)]
pub(crate) struct Heading<'a> {
    /// What follows the word.
    pub words: &'a str,
    pub below: &'a str,
}

/// What follows a word and a name at the beginning of a line.
fn after_name<'a>(line: &'a str, word: &str, name: &str) -> Option<&'a str> {
    after(after(line, word)?, name)
}

/// How many lines begin with a word and a name.
fn count_of(text: &str, word: &str, name: &str) -> usize {
    let mut count = 0usize;
    for line in text.lines() {
        if after_name(line, word, name).is_some() {
            count = count.saturating_add(1);
        }
    }
    count
}

/// The line of that number, from 0 on, of those that begin with a word and a name; the last one where there are not so many.
pub(crate) fn named<'a>(
    text: &'a str,
    word: &str,
    name: &str,
    number: usize,
) -> Option<Heading<'a>> {
    let last = count_of(text, word, name).checked_sub(1)?;
    let mut left = number.min(last);
    let mut end = 0usize;
    for line in text.split_inclusive('\n') {
        end = end.saturating_add(line.len());
        if let Some(words) = after_name(line.trim_end_matches('\n'), word, name) {
            if left == 0 {
                return headed_by(words, text, end);
            }
            left -= 1;
        }
    }
    None
}

/// The heading of these words, which ends there in a text.
fn headed_by<'a>(words: &'a str, text: &'a str, end: usize) -> Option<Heading<'a>> {
    let below = text.get(end..)?;
    Some(Heading { words, below })
}

/// The first line that begins with a word.
pub(crate) fn headed<'a>(text: &'a str, word: &str) -> Option<Heading<'a>> {
    let mut end = 0usize;
    for line in text.split_inclusive('\n') {
        end = end.saturating_add(line.len());
        if let Some(words) = after(line.trim_end_matches('\n'), word) {
            return headed_by(words, text, end);
        }
    }
    None
}

/// The text of a line of a block, which begins with `|`.
pub(crate) fn of_block(line: &str) -> Option<&str> {
    after(line, "|")
}

/// The line of that number, from 0 on, of the block at the front of a text.
pub(crate) fn in_block(text: &str, number: usize) -> Option<&str> {
    let mut place = 0usize;
    for line in text.lines() {
        let line = of_block(line)?;
        if place == number {
            return Some(line);
        }
        place = place.saturating_add(1);
    }
    None
}
