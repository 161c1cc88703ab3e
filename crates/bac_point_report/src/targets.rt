//! The properties that words of a command line name.
ghost use Rattle.std.specs.Prelude.{◌≡◌, ◌==◌, ◌++◌, map, IfOk, OnOk};
ghost use Rattle.std.specs.List.{list_any};
ghost use Rattle.bac_point_report.specs.Targets.{is_object, target_view, targets_of, unnamed};

use std::alloc::{AllocError, Global};

/// The property that is meant where none is named.
const PRESENT_VALUE: &str = "present-value";

/// A property of an object, by the words for them.
#[derive(Clone, Copy, Debug, PartialEq, Eq)]
pub struct Target<'a> {
    pub object: &'a str,
    pub property: &'a str,
}

/// Whether a word is for an object: it has a colon.
fn is_object(word: &str) -> bool
    ensures { result ≡ is_object word.now }
{
    word.as_bytes().iter().any(|octet| *octet == b':')
}

/// Adds the present-value of an object, where no property of it is named.
fn add_unnamed<'a>(
    targets: &mut Vec<Target<'a>>,
    object: &'a str,
    is_bare: bool,
) -> Result<(), AllocError>
    ensures { OnOk result (map target_view targets.new.items ≡ map target_view targets.old.items ++ unnamed is_bare object.now) }
{
    if is_bare {
        targets.push(Target {
            object,
            property: PRESENT_VALUE,
        })?;
    }
    Ok(())
}

/// The properties that words name: a word with a colon is for an object, and each other word for a property of the object before it. Where no property of an
/// object is named, its present-value is meant. The first word is always for an object.
pub fn targets_in<'a>(alloc: Global, words: &[&'a str]) -> Result<Vec<Target<'a>>, AllocError>
    ensures { IfOk result (λ t. map target_view t.items ≡ targets_of (map (λ w. w.now) words.now)) }
{
    let mut targets = Vec::new(alloc);
    let Some((first, others)) = words.split_first() else {
        return Ok(targets);
    };
    let mut object = *first;
    let mut is_bare = true;
    let mut rest = others;
    while let [word, more @ ..] = rest {
        if is_object(*word) {
            add_unnamed(&mut targets, object, is_bare)?;
            object = *word;
            is_bare = true;
        } else {
            targets.push(Target {
                object,
                property: *word,
            })?;
            is_bare = false;
        }
        rest = more;
    }
    add_unnamed(&mut targets, object, is_bare)?;
    Ok(targets)
}
