//! The words of a line.
use crate::lists::keep;
use bac_rows::row::Row;
use bac_service::OwnedRequest;
use bac_service_text::read_request_words;
use bac_simulate::{Statement, read_statement};
use bac_store::Change;

/// The words of a text.
fn words_of<'a>(text: &'a str, row: &mut Row) -> Vec<&'a [u8]> {
    let mut words = Vec::new(row.alloc);
    for word in text.split(' ') {
        keep(word.as_bytes(), &mut words, row);
    }
    words
}

/// The request of some words; None is a fault.
pub(crate) fn request_of(text: &str, row: &mut Row) -> Option<OwnedRequest> {
    let words = words_of(text, row);
    let request = read_request_words(row.alloc, &words).ok();
    row.needs(request.is_some());
    request
}

/// The change that a statement makes, without the node.
fn change_in(statement: Statement) -> Option<Change> {
    match statement {
        Statement::SetProperty(set) => Some(Change::Value {
            object: set.object,
            property: set.property,
            octets: set.octets,
        }),
        Statement::SetFile(set) => Some(Change::File {
            object: set.object,
            octets: set.octets,
        }),
        other => {
            drop(other);
            None
        }
    }
}

/// The change that `set` or `file` makes with these words, as in a script but without the node; None is a fault.
pub(crate) fn change_of(verb: &str, words: &str, row: &mut Row) -> Option<Change> {
    let mut line = Row::new(row.alloc);
    line.say(verb);
    line.say(" 0 ");
    line.say(words);
    let change = match read_statement(row.alloc, &line.told) {
        Ok(statement) => change_in(statement),
        Err(_) => None,
    };
    row.needs(change.is_some());
    change
}
