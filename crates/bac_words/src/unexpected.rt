//! What is told of a word that a command does not take, where another word is meant, and of a text that is none of the numbers that an option takes.
use crate::completion::has_hyphens;
use crate::grammar::command_of;
use crate::help_words::command_named;
use crate::words::{Grammar, Word, WordForm};
use clap::error::ErrorKind;
use std::alloc::{AllocError, Global};

/// A word without the text that stands in it behind `=`.
fn without_text(word: &str) -> &str {
    match word.split_once('=') {
        Some((name, _)) => name,
        None => word,
    }
}

/// The part of a word that clap names: where it has two hyphens, its name, and where it has one, that and the letter behind it.
fn named_part(word: &str) -> &str {
    if word.starts_with("--") {
        without_text(word)
    } else if word.starts_with('-') {
        word.get(..2).unwrap_or(word)
    } else {
        word
    }
}

/// Whether clap's text of an error is about a word.
fn is_about(alloc: Global, text: &str, word: &str) -> Result<bool, AllocError> {
    let part = named_part(word);
    let front = format!(in alloc; "error: unexpected argument '{part}' found")?;
    Ok(text.starts_with(front.as_str()))
}

/// Whether a line of a command's words has the option of that name.
fn is_option(line: &'static str, name: &str) -> bool {
    let word = Word::of(line);
    has_hyphens(&word) && word.name == name
}

/// The option of that name, if a command has it.
fn option_named(grammar: &Grammar, name: &str) -> Option<Word> {
    let line = grammar.words.lines().find(|line| is_option(*line, name))?;
    Some(Word::of(line))
}

/// Whether a command has the option of that name.
fn has_option(grammar: &Grammar, name: &str) -> bool {
    grammar.words.lines().any(|line| is_option(line, name))
}

/// The name of the option that is meant by a word with one hyphen, as by `-to` or `-to=10.0.0.1`.
fn option_meant(grammar: &Grammar, word: &str) -> Option<&'static str> {
    let name = without_text(word.strip_prefix('-')?);
    Some(option_named(grammar, name)?.name)
}

/// Whether a command takes an address behind `--to`, and a word may be one: it begins with a digit.
fn is_address(grammar: &Grammar, word: &str) -> bool {
    let begins = matches!(word.as_bytes(), [first, ..] if first.is_ascii_digit());
    begins && has_option(grammar, "to")
}

/// Whether a command takes a document behind `--objects`, and a word may name one.
fn is_document(grammar: &Grammar, word: &str) -> bool {
    word.ends_with(".toml") && has_option(grammar, "objects")
}

/// Whether a word is the option of that name, alone or with a text behind `=`.
fn is_option_word(word: &str, name: &str) -> bool {
    match word.strip_prefix("--") {
        Some(option) => without_text(option) == name,
        None => false,
    }
}

/// Whether the option of that name is among words.
fn is_given(words: &[String], name: &str) -> bool {
    words.iter().any(|word| is_option_word(word.as_str(), name))
}

/// What is meant by an address without its option; `--to` takes the place of `--port`. None where `--to` is given already.
fn address_meant(
    alloc: Global,
    words: &[String],
    word: &str,
) -> Result<Option<String>, AllocError> {
    if is_given(words, "to") {
        return Ok(None);
    }
    if !is_given(words, "port") {
        return Ok(Some(format!(in alloc; "--to {word}")?));
    }
    let port = if word.contains(':') { "" } else { ":P" };
    Ok(Some(format!(in alloc; "--to {word}{port} in place of --port P")?))
}

/// What is meant by a word that a command does not take, among all its words, if that is known.
fn meant_by(
    alloc: Global,
    grammar: &Grammar,
    words: &[String],
    word: &str,
) -> Result<Option<String>, AllocError> {
    if let Some(name) = option_meant(grammar, word) {
        return Ok(Some(format!(in alloc; "--{name}")?));
    }
    if is_address(grammar, word) {
        return address_meant(alloc, words, word);
    }
    if is_document(grammar, word) && !is_given(words, "objects") {
        return Ok(Some(format!(in alloc; "--objects {word}")?));
    }
    Ok(None)
}

/// What is told behind a word that a command does not take, among all its words, if that is known.
fn hint_of(
    alloc: Global,
    grammar: &Grammar,
    words: &[String],
    word: &str,
) -> Result<Option<String>, AllocError> {
    match meant_by(alloc, grammar, words, word)? {
        Some(meant) => Ok(Some(format!(in alloc; "did you mean {meant}?")?)),
        None => Ok(None),
    }
}

/// The fault of the word that clap's text is about, and a hint, if one is known.
fn fault_in(
    alloc: Global,
    grammar: &Grammar,
    words: &[String],
    text: &str,
) -> Result<Option<String>, AllocError> {
    for word in words {
        let word = word.as_str();
        if is_about(alloc, text, word)? {
            if let Some(hint) = hint_of(alloc, grammar, words, word)? {
                let fault = format!(in alloc; "unexpected argument '{word}' found; {hint}")?;
                return Ok(Some(fault));
            }
        }
    }
    Ok(None)
}

/// What clap's text of an error says of a bad text behind an option, before it says why, such as `invalid value '60s' for '--port <P>'`.
fn said_in(text: &str) -> Option<&str> {
    let (said, _) = text.strip_prefix("error: ")?.rsplit_once(": ")?;
    Some(said)
}

/// The least and the most of the numbers that an option takes of which clap says that. None where it takes no number.
fn range_of(grammar: &Grammar, said: &str) -> Option<(u64, u64)> {
    let (_, behind) = said.rsplit_once(" for '--")?;
    let (name, _) = behind.split_once(' ')?;
    match option_named(grammar, name)?.form {
        WordForm::Number(_, most) => Some((1, most)),
        WordForm::Index(_, most) => Some((0, most)),
        _ => None,
    }
}

/// The fault of a text that is none of the numbers that an option takes, with these, if clap's text is about such a text.
fn number_fault(
    alloc: Global,
    grammar: &Grammar,
    text: &str,
) -> Result<Option<String>, AllocError> {
    let Some(said) = said_in(text) else {
        return Ok(None);
    };
    let Some((least, most)) = range_of(grammar, said) else {
        return Ok(None);
    };
    let fault = format!(in alloc; "{said}: expected a whole number from {least} to {most}")?;
    Ok(Some(fault))
}

/// The fault in the words of a command, clearer than clap's error tells it, if that is known.
fn clearer_fault(
    alloc: Global,
    grammar: &Grammar,
    words: &[String],
    error: &clap::Error,
) -> Result<Option<String>, AllocError> {
    let text = format!(in alloc; "{error}")?;
    match error.kind() {
        ErrorKind::UnknownArgument => fault_in(alloc, grammar, words, text.as_str()),
        ErrorKind::ValueValidation => number_fault(alloc, grammar, text.as_str()),
        _ => Ok(None),
    }
}

/// An error that says what is meant by a word that a command does not take, or which numbers an option takes, in place of clap's own error, if that is known.
pub(crate) fn clearer(
    alloc: Global,
    words: &[String],
    error: &clap::Error,
) -> Result<Option<clap::Error>, clap::Error> {
    let [_, name, words @ ..] = words else {
        return Ok(None);
    };
    let Some(grammar) = command_named(name.as_str()) else {
        return Ok(None);
    };
    let Some(fault) = clearer_fault(alloc, grammar, words, error)? else {
        return Ok(None);
    };
    let name = format!(in alloc; "bac {name}")?;
    let mut command = command_of(alloc, grammar)?.bin_name(name.as_str())?;
    Ok(Some(command.error(error.kind(), fault.as_str())?))
}
