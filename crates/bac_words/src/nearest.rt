//! The command whose name is most like a misspelled one.
use crate::help_words::{about, others};
use crate::people_words::people;
use crate::words::Grammar;
use std::alloc::{AllocError, Global};

/// How many letters may be missing, wrong or swapped in a word that is like a name.
const MOST_EDITS: usize = 2;

/// A word with more octets is like no name.
const MOST_OCTETS: usize = 64;

/// A name, and how many edits lead there.
#[derive(Clone, Copy)]
struct Near {
    name: &'static str,
    edits: usize,
}

/// The name that is most like a word, of the one so far and those of some commands.
fn nearer(
    alloc: Global,
    word: &str,
    near: Option<Near>,
    grammars: &[Grammar],
) -> Result<Option<Near>, AllocError> {
    let mut near = near;
    for grammar in grammars {
        let fewest = near.map_or(MOST_EDITS.saturating_add(1), |near| near.edits);
        let name = grammar.name;
        let edits = strsim::osa_distance(alloc, word, name)?;
        if edits < fewest {
            near = Some(Near { name, edits });
        }
    }
    Ok(near)
}

/// The name of the command that is most like a word, if one is like it. An Err is out of memory.
pub fn nearest_command(alloc: Global, word: &str) -> Result<Option<&'static str>, AllocError> {
    if word.len() > MOST_OCTETS {
        return Ok(None);
    }
    let near = nearer(alloc, word, None, people())?;
    let near = nearer(alloc, word, near, others())?;
    let near = nearer(alloc, word, near, about())?;
    Ok(near.map(|near| near.name))
}
