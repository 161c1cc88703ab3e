//! Words that do not form a request: which of them is bad, and what was expected in its place.
ghost use Rattle.std.specs.Prelude.{◌≡◌, Some, is_some, map, IfOk};
ghost use Rattle.std.specs.Option.{option_map};
ghost use Rattle.bac_service_text.specs.BadWords.{fits, bad_priority, bad_behind, bad_values, bad_end, bad_rest, bad_among};
ghost use Rattle.bac_service_text.specs.BadWords.{bad_word_of, role_name, role_fault, bad_word_text};
ghost use Rattle.bac_value_text.specs.Numbers.{octets_of};
ghost use Rattle.bac_service_text.specs.WriteProperty.{values_in_word};
ghost use Rattle.bac_service_text.specs.Views.{bad_word_view};

use crate::dispatch::{no_verb, roles_of, takes_values};
use crate::form_fault::FormFault;
use crate::reference::{octets_or_fault, reference_of};
use crate::write_property::{priority_in, priority_word, values_in_word};
use bac_value::ObjectIdentifier;
use bac_value_text::{number_in, object_in, signed_in};
use std::alloc::{AllocError, Global};

/// What is expected of a word of a request.
#[derive(Clone, Copy, Debug, PartialEq, Eq)]
pub enum Wanted {
    /// `read`, `write`, `append`, `put` or `get`: the first word.
    Verb,
    /// An object, by its type and instance.
    Object,
    /// A property by name or number, or one of its elements.
    Property,
    /// A value by its kind, or values in hexadecimal.
    Value,
    /// Values that together form data; the word is the first of them.
    Data,
    /// A number from 1 to 16.
    Priority,
    /// Octets in hexadecimal.
    Octets,
    /// A number of 64 bits with its sign.
    Position,
    /// A number of 64 bits.
    Count,
    /// No further word.
    End,
}

/// A bad word of a request.
#[derive(Clone, Copy, Debug)]
pub struct BadWord<'a> {
    /// What was expected.
    pub wanted: Wanted,
    /// The word; None if the words end before it.
    pub word: Option<&'a [u8]>,
}

/// An arbitrary object: whether a word is a property does not depend on the object.
const SOME_OBJECT: ObjectIdentifier = ObjectIdentifier {
    kind: 0,
    instance: 0,
};

/// Whether a word means values, by their kind or in hexadecimal.
fn are_values(alloc: Global, word: &[u8]) -> Result<bool, AllocError>
    ensures { IfOk result (λ b. b ≡ is_some (values_in_word word.now)) }
{
    match values_in_word(alloc, word) {
        Ok(_) => Ok(true),
        Err(FormFault::NoForm) => Ok(false),
        Err(FormFault::NoMemory) => Err(AllocError),
    }
}

/// Whether a word means octets in hexadecimal.
fn are_octets(alloc: Global, word: &[u8]) -> Result<bool, AllocError>
    ensures { IfOk result (λ b. b ≡ is_some (octets_of word.now)) }
{
    match octets_or_fault(alloc, word) {
        Ok(_) => Ok(true),
        Err(FormFault::NoForm) => Ok(false),
        Err(FormFault::NoMemory) => Err(AllocError),
    }
}

/// Whether a word is as expected.
fn fits(alloc: Global, wanted: Wanted, word: &[u8]) -> Result<bool, AllocError>
    ensures { IfOk result (λ b. b ≡ fits wanted word.now) }
{
    match wanted {
        Wanted::Verb => Ok(roles_of(word).is_some()),
        Wanted::Object => Ok(object_in(word).is_some()),
        Wanted::Property => Ok(reference_of(SOME_OBJECT, word).is_some()),
        Wanted::Value | Wanted::Data => are_values(alloc, word),
        Wanted::Priority => Ok(priority_in(word).is_some()),
        Wanted::Octets => are_octets(alloc, word),
        Wanted::Position => Ok(signed_in(word).is_some()),
        Wanted::Count => Ok(number_in(word).is_some()),
        Wanted::End => Ok(false),
    }
}

/// The fault of this word, where something else was expected.
fn bad<'a>(wanted: Wanted, word: &'a [u8]) -> BadWord<'a>
    ensures { bad_word_view result ≡ (wanted, Some word.now) }
{
    BadWord {
        wanted,
        word: Some(word),
    }
}

/// The fault of values that a priority follows: the priority, or the values together.
fn bad_priority<'a>(
    alloc: Global,
    first: &'a [u8],
    number: &'a [u8],
) -> Result<BadWord<'a>, AllocError>
    ensures { IfOk result (λ b. bad_word_view b ≡ bad_priority first.now number.now) }
{
    if fits(alloc, Wanted::Priority, number)? {
        Ok(bad(Wanted::Data, first))
    } else {
        Ok(bad(Wanted::Priority, number))
    }
}

/// The fault of the words after the first value: further values, and perhaps a priority.
fn bad_behind<'a>(
    alloc: Global,
    first: &'a [u8],
    words: &[&'a [u8]],
) -> Result<BadWord<'a>, AllocError>
    ensures { IfOk result (λ b. bad_word_view b ≡ bad_behind first.now (map (λ w. w.now) words.now)) }
{
    let mut rest = words;
    while let [word, more @ ..] = rest {
        if let Some(number) = priority_word(rest) {
            return bad_priority(alloc, first, number);
        }
        if !fits(alloc, Wanted::Value, *word)? {
            return Ok(bad(Wanted::Value, *word));
        }
        rest = more;
    }
    Ok(bad(Wanted::Data, first))
}

/// The fault of the values of a request to write.
fn bad_values<'a>(alloc: Global, words: &[&'a [u8]]) -> Result<Option<BadWord<'a>>, AllocError>
    ensures { IfOk result (λ b. option_map bad_word_view b ≡ bad_values (map (λ w. w.now) words.now)) }
{
    let [first, more @ ..] = words else {
        return Ok(Some(BadWord {
            wanted: Wanted::Value,
            word: None,
        }));
    };
    if fits(alloc, Wanted::Value, *first)? {
        Ok(Some(bad_behind(alloc, *first, more)?))
    } else {
        Ok(Some(bad(Wanted::Value, *first)))
    }
}

/// The fault of words after a complete request, if there are any.
fn bad_end<'a>(words: &[&'a [u8]]) -> Option<BadWord<'a>>
    ensures { option_map bad_word_view result ≡ bad_end (map (λ w. w.now) words.now) }
{
    match words {
        [word, ..] => Some(bad(Wanted::End, *word)),
        [] => None,
    }
}

fn bad_rest<'a>(
    alloc: Global,
    are_values: bool,
    words: &[&'a [u8]],
) -> Result<Option<BadWord<'a>>, AllocError>
    ensures { IfOk result (λ b. option_map bad_word_view b ≡ bad_rest are_values (map (λ w. w.now) words.now)) }
{
    if are_values {
        bad_values(alloc, words)
    } else {
        Ok(bad_end(words))
    }
}

/// The fault of words that have to match these expectations in order, or of the words after them.
fn bad_among<'a>(
    alloc: Global,
    are_values: bool,
    roles: &[Wanted],
    words: &[&'a [u8]],
) -> Result<Option<BadWord<'a>>, AllocError>
    ensures { IfOk result (λ b. option_map bad_word_view b ≡ bad_among are_values roles.now (map (λ w. w.now) words.now)) }
{
    let mut roles = roles;
    let mut words = words;
    while let [role, more_roles @ ..] = roles {
        let [word, more @ ..] = words else {
            return Ok(Some(BadWord {
                wanted: *role,
                word: None,
            }));
        };
        if !fits(alloc, *role, *word)? {
            return Ok(Some(bad(*role, *word)));
        }
        roles = more_roles;
        words = more;
    }
    bad_rest(alloc, are_values, words)
}

/// The first bad word, from the left, of words that [`read_request_words`](crate::read_request_words) refuses as `NoForm`, and what was
/// expected in its place. None if each word alone is good, but there are too many octets for a file. Returns an Err if an allocation
/// fails.
pub fn bad_word<'a>(alloc: Global, words: &[&'a [u8]]) -> Result<Option<BadWord<'a>>, AllocError>
    ensures { IfOk result (λ b. option_map bad_word_view b ≡ bad_word_of (map (λ w. w.now) words.now)) }
{
    let [verb, words @ ..] = words else {
        return Ok(Some(BadWord {
            wanted: Wanted::Verb,
            word: None,
        }));
    };
    match roles_of(*verb) {
        Some(roles) => bad_among(alloc, takes_values(*verb), roles, words),
        None => Ok(Some(bad(Wanted::Verb, *verb))),
    }
}

/// The name of what is expected.
fn role_name(wanted: Wanted) -> &'static str
    ensures { result.now ≡ role_name wanted }
{
    match wanted {
        Wanted::Verb => "request",
        Wanted::Object => "object",
        Wanted::Property => "property",
        Wanted::Value => "value",
        Wanted::Data => "values from",
        Wanted::Priority => "priority",
        Wanted::Octets => "octets",
        Wanted::Position => "position",
        Wanted::Count => "count",
        Wanted::End => "argument",
    }
}

/// The text after a bad word.
fn role_fault(wanted: Wanted) -> &'static str
    ensures { result.now ≡ role_fault wanted }
{
    match wanted {
        Wanted::Verb => no_verb(),
        Wanted::Object => "is not TYPE:INSTANCE, each by name or number",
        Wanted::Property => "is not a valid name or number",
        Wanted::Value => "is not a valid value or hexadecimal",
        Wanted::Data => "on do not form valid data",
        Wanted::Priority => "is not a number from 1 to 16",
        Wanted::Octets => "are not valid hexadecimal",
        Wanted::Position => "is not a number",
        Wanted::Count => "is not a number",
        Wanted::End => "is one too many",
    }
}

/// The text of the fault of a word.
fn word_text(alloc: Global, wanted: Wanted, word: &[u8]) -> Result<Vec<u8>, AllocError>
    ensures { IfOk result (λ t. t.items ≡ bad_word_text (wanted, Some word.now)) }
{
    let mut text = Vec::from_slice(alloc, role_name(wanted).as_bytes())?;
    text.extend_from_slice(b" \"")?;
    text.extend_from_slice(word)?;
    text.extend_from_slice(b"\" ")?;
    text.extend_from_slice(role_fault(wanted).as_bytes())?;
    Ok(text)
}

impl<'a> BadWord<'a> {
    /// The text of the fault: `property "presentvalue" is not a valid name or number`, or `property is missing`. Returns an Err if an allocation
    /// fails.
    pub fn text(self, alloc: Global) -> Result<Vec<u8>, AllocError>
        ensures { IfOk result (λ t. t.items ≡ bad_word_text (bad_word_view self.entry)) }
    {
        let Some(word) = self.word else {
            let name = role_name(self.wanted);
            let text = format!(in alloc; "{name} is missing")?;
            return Ok(text.into_bytes());
        };
        word_text(alloc, self.wanted, word)
    }
}
