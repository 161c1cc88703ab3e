//! The words of a line of a list: blanks and tabs separate them, one may be a text in quotes, and a note may stand at the end.
ghost use Rattle.std.specs.Prelude.{◌≡◌, ◌<◌, ◌≤◌, [], ◌∷◌, length, ◌+◌, take, drop, map, Some, None, MatchOption, IfOk, IfSome, IsErrOf, ℕ, List};
ghost use Rattle.std.specs.List.{position};
ghost use Rattle.bac_environment.specs.LineWords.{Begins, BeginsNoBlank, is_address, is_blank, is_quote, with_word, words_from, words_of};
ghost use Rattle.bac_environment.specs.LineWords.Place.{Closed, Quoted, Within};

use std::alloc::Global;

/// Why the words of a line are not there.
#[derive(Clone, Copy, PartialEq, Eq)]
pub(crate) enum WordsFault {
    /// A quote is not closed, or something but a blank follows the closing one.
    OpenQuote,
    /// An allocation failed.
    NoMemory,
}

/// Whether a word names whom a line is asked of.
pub(crate) fn is_address(word: &[u8]) -> bool
    ensures { result ≡ is_address word.now }
{
    match word.split_first() {
        Some((octet, _)) => *octet == b'@',
        None => false,
    }
}

fn is_blank(octet: u8) -> bool
    ensures { result ≡ is_blank octet }
{
    octet == b' ' || octet == b'\t'
}

/// The place of the first blank.
fn blank_in(text: &[u8]) -> Option<usize>
    ensures { result ≡ position is_blank text.now }
{
    text.iter().position(|octet| is_blank(*octet))
}

/// The place of the first quote.
fn quote_in(text: &[u8]) -> Option<usize>
    ensures { result ≡ position is_quote text.now }
{
    text.iter().position(|octet| *octet == b'"')
}

/// The line from its first word on.
fn skip_blanks(line: &[u8]) -> &[u8]
    ensures same { words_of result.now ≡ words_of line.now }
    ensures within { length result.now ≤ length line.now }
    ensures word { BeginsNoBlank result.now }
{
    let mut rest = line;
    while let Some((octet, others)) = rest.split_first() {
        if !is_blank(*octet) {
            break;
        }
        rest = others;
    }
    rest
}

/// What stands before the octet at that place, and what stands behind it.
fn parts_around(text: &[u8], end: usize) -> (&[u8], &[u8])
    requires { end < length text.now }
    ensures front { result.0.now ≡ take end text.now }
    ensures rest { result.1.now ≡ drop (end + 1) text.now }
    ensures shorter { length result.1.now < length text.now }
{
    (&text[..end], &text[end + 1..])
}

/// A word that begins with that octet and goes on with `others` to a blank or to the end, and what follows it; `text` is the octet and `others`.
#[tactic(auto, using(crate::proofs::LineWords::to_the_end, crate::proofs::LineWords::to_a_blank))]
fn plain_word<'a>(octet: u8, text: &'a [u8], others: &'a [u8]) -> (&'a [u8], &'a [u8])
    requires { text.now ≡ octet ∷ others.now }
    ensures word { words_from (Within (octet ∷ [])) others.now ≡ with_word result.0.now (words_of result.1.now) }
    ensures shorter { length result.1.now < length text.now }
{
    match blank_in(others) {
        Some(end) => (&text[..end + 1], parts_around(others, end).1),
        None => (text, &[]),
    }
}

/// What follows a text in quotes, behind the closing quote and a blank. None where something else follows it.
fn behind_quote(text: &[u8]) -> Option<&[u8]>
    ensures some { IfSome result (λ rest. (length rest.now ≤ length text.now)
        × ((word : List ℕ) → words_from (Closed word) text.now ≡ with_word word (words_of rest.now))) }
    ensures none { result ≡ None → (word : List ℕ) → words_from (Closed word) text.now ≡ None }
{
    match text.split_first() {
        None => Some(text),
        Some((octet, others)) if is_blank(*octet) => Some(others),
        Some(_) => None,
    }
}

/// A text in quotes, without them, and what follows it; `text` is what stands behind the first quote. None where no quote closes it, or something but a blank
/// follows that one.
#[tactic(auto, using(crate::proofs::LineWords::without_quote, crate::proofs::LineWords::to_a_quote))]
fn quoted_word(text: &[u8]) -> Option<(&[u8], &[u8])>
    ensures { MatchOption result (words_from (Quoted []) text.now ≡ None)
        (λ r. (length r.1.now ≤ length text.now) × (words_from (Quoted []) text.now ≡ with_word r.0.now (words_of r.1.now))) }
{
    let Some(end) = quote_in(text) else {
        return None;
    };
    let (word, others) = parts_around(text, end);
    match behind_quote(others) {
        Some(rest) => Some((word, rest)),
        None => None,
    }
}

/// What a line begins with.
#[derive(Clone, Copy)]
enum Begin<'a> {
    /// No word: it has ended, or a note begins.
    End,
    /// A word, and what follows it.
    Word(&'a [u8], &'a [u8]),
    /// A quote that is not closed, or that something but a blank follows.
    OpenQuote,
}

/// What a line begins with, behind blanks.
#[tactic(auto, using(crate::proofs::LineWords::begins_plain))]
fn begin_of(line: &[u8]) -> Begin<'_>
    ensures { Begins line.now result }
{
    let text = skip_blanks(line);
    let Some((octet, others)) = text.split_first() else {
        return Begin::End;
    };
    if *octet == b'#' {
        return Begin::End;
    }
    if *octet == b'"' {
        return match quoted_word(others) {
            Some((word, rest)) => Begin::Word(word, rest),
            None => Begin::OpenQuote,
        };
    }
    let (word, rest) = plain_word(*octet, text, others);
    Begin::Word(word, rest)
}

/// The words of a line, in order: blanks and tabs separate them, a text in quotes is one word, and a word that begins with `#` begins a note, which is none.
pub(crate) fn words_of(alloc: Global, line: &[u8]) -> Result<Vec<&[u8]>, WordsFault>
    ensures words { IfOk result (λ words. words_of line.now ≡ Some (map (λ w. w.now) words.items)) }
    ensures open { IsErrOf result WordsFault.OpenQuote → words_of line.now ≡ None }
{
    let mut words = Vec::new(alloc);
    let mut rest = line;
    loop {
        match begin_of(rest) {
            Begin::End => return Ok(words),
            Begin::OpenQuote => return Err(WordsFault::OpenQuote),
            Begin::Word(word, others) => {
                if words.push(word).is_err() {
                    return Err(WordsFault::NoMemory);
                }
                rest = others;
            }
        }
    }
}
